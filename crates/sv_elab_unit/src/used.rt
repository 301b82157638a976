// Which units are instantiated (IEEE 1800-2017, 23.3.1).
ghost use Rattle.std.specs.Prelude.{◌≡◌, ℕ, List, IfOk, OnOk, map, flat_map};
ghost use Rattle.sv_tree.specs.UnitView.{item, description};
ghost use Rattle.sv_names.specs.Index.{has_name};
ghost use Rattle.sv_names.specs.Instances as instances;
ghost use Rattle.sv_names.specs.Types.{among};
ghost use Rattle.sv_elab_unit.specs.Roots.{Adds, AddsUsed};

use crate::definitions::definition_of;
use std::alloc::Global;
use sv_names::NameSet;
use sv_tree::{Description, Item};
use sv_value::NoMemory;

/// Adds the unit that an item instantiates.
#[tactic(auto, using(crate::proofs::UsedLaws::adds_one))]
fn add_item(alloc: Global, one: &Item, used: &mut NameSet) -> Result<(), NoMemory>
    ensures { OnOk result (Adds used.old used.new (instances.used_names (item one.now))) }
{
    match one {
        Item::Instances(instances) => {
            used.add(alloc, instances.of.text.bytes())?;
            Ok(())
        }
        _ => Ok(()),
    }
}

/// Adds those that these items instantiate.
fn add_items(alloc: Global, items: &[Item], used: &mut NameSet) -> Result<(), NoMemory>
    ensures { OnOk result (Adds used.old used.new (flat_map instances.used_names (map item items.now))) }
{
    let mut left = items;
    while let [one, rest @ ..] = left {
        add_item(alloc, one, used)?;
        left = rest;
    }
    Ok(())
}

/// Adds those that the unit that a description is instantiates.
#[tactic(auto, using(crate::proofs::UsedLaws::used_unit, crate::proofs::UsedLaws::used_outside))]
fn add_description(alloc: Global, one: &Description, used: &mut NameSet) -> Result<(), NoMemory>
    ensures { OnOk result (AddsUsed used.old used.new (description one.now)) }
{
    match definition_of(one) {
        None => Ok(()),
        Some(unit) => {
            add_items(alloc, &unit.element.items, used)?;
            Ok(())
        }
    }
}

/// The names of the units that are instantiated.
pub(crate) fn used_names(alloc: Global, all: &[Description]) -> Result<NameSet, NoMemory>
    ensures { IfOk result (λ s. (x : List ℕ) → has_name s x ≡ among x (instances.all_used (map description all.now))) }
{
    let mut used = NameSet::new(alloc);
    let mut left = all;
    while let [one, rest @ ..] = left {
        add_description(alloc, one, &mut used)?;
        left = rest;
    }
    Ok(used)
}
