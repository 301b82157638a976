// The arguments of a subroutine as declarations (IEEE 1800-2017, 13.3 and 13.4).
ghost use Rattle.std.specs.Prelude.{◌≡◌, OnOk, option_map};
ghost use Rattle.sv_tree.specs.StmtView.{implied};
ghost use Rattle.sv_tree.specs.UnitView.{argument, head};
ghost use Rattle.sv_names.specs.Entries as entries;
ghost use Rattle.sv_elab_declare.specs.Added.{Added, argument_names, type_before};

use crate::types::add_implied_items;
use sv_elab_scope::{Declared, Entry};
use sv_tree::{Argument, Head, ImpliedType};
use sv_value::{NoMemory, Seq};

/// The type of an argument: one with neither a direction nor a type has that of the argument before.
fn type_of<'a>(one: &'a Argument, before: Option<&'a ImpliedType>) -> &'a ImpliedType
    ensures { implied result.now ≡ entries.type_or (entries.has_direction one.now.direction)
        (type_before (option_map (λ t. implied t.now) before.entry)) (implied one.now.of) }
{
    match (&one.of, one.direction, before) {
        (ImpliedType::Unwritten, None, Some(before)) => before,
        _ => &one.of,
    }
}

/// Appends an argument of this type, and before it the items in the type that is written for it.
#[tactic(auto, using(crate::proofs::AddedLaws::added_before))]
fn add_argument<'a>(
    is_automatic: bool,
    ty: &'a ImpliedType,
    one: &'a Argument,
    names: &mut Seq<Entry<'a>>,
) -> Result<(), NoMemory>
    ensures { OnOk result (Added names.old names.new (argument_names is_automatic (implied ty.now) (argument one.now))) }
{
    add_implied_items(&one.of, names)?;
    names.push(Entry {
        name: &one.name,
        what: Declared::Argument(ty, is_automatic),
    })
}

/// Appends the arguments of a head.
#[tactic(auto, using(crate::proofs::AddedLaws::all_added, crate::proofs::ArgumentLaws::turn_taken))]
pub fn add_arguments<'a>(
    is_automatic: bool,
    of: &'a Head,
    names: &mut Seq<Entry<'a>>,
) -> Result<(), NoMemory>
    ensures { OnOk result (Added names.old names.new (entries.argument_entries is_automatic (entries.taken (head of.now)))) }
{
    let mut before: Option<&'a ImpliedType> = None;
    let mut left = of.arguments.as_slice();
    while let [one, rest @ ..] = left {
        let ty = type_of(one, before);
        add_argument(is_automatic, ty, one, names)?;
        before = Some(ty);
        left = rest;
    }
    Ok(())
}
