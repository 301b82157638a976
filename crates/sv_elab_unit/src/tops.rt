// The units that the design begins with (IEEE 1800-2017, 23.3.1).
ghost use Rattle.std.specs.Prelude.{◌≡◌, ◌∷◌, IfOk, OnOk, Some, None, List, map, option_map};
ghost use Rattle.sv_tree.specs.Descriptions as tree;
ghost use Rattle.sv_tree.specs.UnitView.{description};
ghost use Rattle.sv_names.specs.Instances as instances;
ghost use Rattle.sv_names.specs.Types.{among};
ghost use Rattle.sv_elab_unit.specs.Definitions.{definition_in, names_in};
ghost use Rattle.sv_elab_unit.specs.Roots.{roots_behind};

use crate::definitions::{Definition, definition_of};
use crate::units::Units;
use crate::used::used_names;
use std::alloc::Global;
use sv_names::{NameSet, same_bytes};
use sv_tree::Description;
use sv_value::{NoMemory, Seq};

/// Whether a name stands in a list.
pub fn is_among(name: &[u8], names: &[&[u8]]) -> bool
    ensures { result ≡ among name.now (names_in names.now) }
{
    match names {
        [] => false,
        [one, rest @ ..] => same_bytes(name, *one) || is_among(name, rest),
    }
}

/// Puts a name before others.
pub fn put_first<'a>(name: &'a [u8], names: &mut Vec<&'a [u8]>) -> Result<(), NoMemory>
    ensures { OnOk result (names_in names.new.items ≡ name.now ∷ names_in names.old.items) }
{
    names.insert(0, name)?;
    Ok(())
}

/// Appends a unit that is nowhere instantiated, where it is the first of its name.
#[tactic(auto, using(crate::proofs::RootLaws::used_root, crate::proofs::RootLaws::seen_root))]
fn add_root<'a>(
    alloc: Global,
    used: &NameSet,
    unit: Definition<'a>,
    seen: &mut NameSet,
    list: &mut Seq<Definition<'a>>,
) -> Result<(), NoMemory>
    ensures { OnOk result ((rest : List instances.Definition) → roots_behind used.now seen.new (map definition_in list.new) rest
        ≡ roots_behind used.now seen.old (map definition_in list.old) (definition_in unit.entry ∷ rest)) }
{
    let name = unit.element.name.text.bytes();
    if used.has(name) {
        return Ok(());
    }
    if seen.has(name) {
        return Ok(());
    }
    seen.add(alloc, name)?;
    list.push(unit)?;
    Ok(())
}

/// Appends the unit that a description is, where it is nowhere instantiated and the first of its name.
#[tactic(auto, using(crate::proofs::RootLaws::turn_unit, crate::proofs::RootLaws::turn_outside))]
fn add_description<'a>(
    alloc: Global,
    used: &NameSet,
    one: &'a Description,
    seen: &mut NameSet,
    list: &mut Seq<Definition<'a>>,
) -> Result<(), NoMemory>
    ensures { OnOk result ((rest : List tree.Description)
        → roots_behind used.now seen.new (map definition_in list.new) (instances.definitions rest)
        ≡ roots_behind used.now seen.old (map definition_in list.old) (instances.definitions (description one.now ∷ rest))) }
{
    match definition_of(one) {
        None => Ok(()),
        Some(unit) => add_root(alloc, used, unit, seen, list),
    }
}

/// The units that are nowhere instantiated, of each name the first.
#[tactic(auto, using(crate::proofs::RootLaws::roots_begin))]
fn unused<'a>(alloc: Global, all: &'a [Description]) -> Result<Seq<Definition<'a>>, NoMemory>
    ensures { IfOk result (λ us. map definition_in us ≡ instances.roots (map description all.now) None) }
{
    let used = used_names(alloc, all)?;
    let mut seen = NameSet::new(alloc);
    let mut list = Seq::new(alloc);
    let mut left = all;
    while let [one, rest @ ..] = left {
        add_description(alloc, &used, one, &mut seen, &mut list)?;
        left = rest;
    }
    Ok(list)
}

/// A list of the unit that is named, where there is one.
fn only_named<'a>(
    alloc: Global,
    name: &[u8],
    units: &Units<'a>,
) -> Result<Seq<Definition<'a>>, NoMemory>
    ensures { IfOk result (λ us. map definition_in us ≡ instances.roots (map description units.now) (Some name.now)) }
{
    let mut list = Seq::new(alloc);
    match units.named(name) {
        None => Ok(list),
        Some(unit) => {
            list.push(unit)?;
            Ok(list)
        }
    }
}

/// The units that the design begins with: the one that is named, or those that are nowhere instantiated.
pub fn roots<'a>(
    alloc: Global,
    units: &Units<'a>,
    top: Option<&[u8]>,
) -> Result<Seq<Definition<'a>>, NoMemory>
    ensures { IfOk result (λ us. map definition_in us
        ≡ instances.roots (map description units.now) (option_map (λ x. x.now) top.entry)) }
{
    match top {
        None => unused(alloc, units.all()),
        Some(name) => only_named(alloc, name, units),
    }
}
