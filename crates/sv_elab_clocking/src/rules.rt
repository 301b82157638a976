// What the names of a clocking block break (IEEE 1800-2017, 14.3): E5, E46.
ghost use Rattle.std.specs.Prelude.{◌≡◌, ◌++◌, [], Some, OnOk, flat_map, map};
ghost use Rattle.sv_tree.specs.UnitView.{clocking_item};
ghost use Rattle.sv_names.specs.Blocks as blocks;
ghost use Rattle.sv_names.specs.Clockings as clockings;
ghost use Rattle.sv_names.specs.Given.{Gives};
ghost use Rattle.sv_elab_unit.specs.Definitions.{names_in};
ghost use Rattle.sv_elab_clocking.specs.Names.{items_names};

use std::alloc::Global;
use sv_elab_expr::sv_elab_value::rule;
use sv_elab_unit::{is_among, put_first};
use sv_names::{Refusal, same_bytes, where_also};
use sv_tree::{ClockingItem, Name};
use sv_value::NoMemory;

/// E5: an end label repeats the name.
pub fn end_label(name: &Name, label: &Option<Name>) -> Result<(), Refusal>
    ensures { Gives result (blocks.end_label (Some name.now) label.now) }
{
    match label {
        None => Ok(()),
        Some(end) => rule(5, end.at, !same_bytes(name.text.bytes(), end.text.bytes())),
    }
}

/// E46: one of these names stands twice, or stands before.
fn differ<'a>(names: &[&'a Name], seen: &mut Vec<&'a [u8]>) -> Result<(), Refusal>
    ensures { Gives result (clockings.signals_differ (names_in seen.old.items) (map (λ n. n.now) names.now)) }
{
    match names {
        [] => Ok(()),
        [one, rest @ ..] => {
            let stands = rule(46, one.at, is_among(one.text.bytes(), seen.as_slice()));
            put_first(one.text.bytes(), seen)?;
            where_also(stands, differ(rest, seen))
        }
    }
}

/// Appends names.
#[tactic(auto, using(crate::proofs::NameLaws::one_name))]
fn push_names<'a>(names: &'a [Name], list: &mut Vec<&'a Name>) -> Result<(), NoMemory>
    ensures { OnOk result (map (λ n. n.now) list.new.items ≡ map (λ n. n.now) list.old.items ++ names.now) }
{
    match names {
        [] => Ok(()),
        [one, rest @ ..] => {
            list.push(one)?;
            push_names(rest, list)
        }
    }
}

/// Appends the names of an item.
fn add_names<'a>(item: &'a ClockingItem, list: &mut Vec<&'a Name>) -> Result<(), NoMemory>
    ensures { OnOk result (map (λ n. n.now) list.new.items ≡ map (λ n. n.now) list.old.items ++ clockings.names_in (clocking_item item.now)) }
{
    match item {
        ClockingItem::Default(_) => Ok(()),
        ClockingItem::Signals(_, names) => push_names(names.as_slice(), list),
    }
}

/// Appends the names of items.
#[tactic(auto, using(crate::proofs::NameLaws::one_item))]
fn add_all_names<'a>(items: &'a [ClockingItem], list: &mut Vec<&'a Name>) -> Result<(), NoMemory>
    ensures { OnOk result (map (λ n. n.now) list.new.items ≡ map (λ n. n.now) list.old.items ++ items_names (map clocking_item items.now)) }
{
    match items {
        [] => Ok(()),
        [one, rest @ ..] => {
            add_names(one, list)?;
            add_all_names(rest, list)
        }
    }
}

/// E46: a signal stands twice.
pub fn signals_differ(alloc: Global, items: &[ClockingItem]) -> Result<(), Refusal>
    ensures { Gives result (clockings.signals_differ [] (items_names (map clocking_item items.now))) }
{
    let mut names = Vec::new(alloc);
    add_all_names(items, &mut names)?;
    let mut seen = Vec::new(alloc);
    differ(names.as_slice(), &mut seen)
}
