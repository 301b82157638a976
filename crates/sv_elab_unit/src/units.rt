// The descriptions of all files, with an index of their modules and programs (IEEE 1800-2017, 3.12 and 23.3).
ghost use Rattle.std.specs.Prelude.{◌≡◌, ◌++◌, ◌∷◌, [], List, IfOk, OnOk, map, option_map};
ghost use Rattle.sv_tree.specs.Descriptions as tree;
ghost use Rattle.sv_tree.specs.UnitView.{description};
ghost use Rattle.sv_names.specs.Instances as instances;
ghost use Rattle.sv_elab_unit.specs.Definitions.{definition_in};
ghost use Rattle.sv_elab_unit.specs.Units.{Finds};

use crate::definitions::{Definition, definition_of};
use std::alloc::Global;
use std::collections::BTreeMap;
use std::marker::Model;
use sv_tree::Description;
use sv_value::NoMemory;

/// The first unit of each name, by its bytes.
type UnitIndex<'t> = BTreeMap<Vec<u8>, Definition<'t>>;

/// The descriptions of all files. They are seen as their list; a module or a program is found without a walk along it.
pub struct Units<'t> {
    all: &'t [Description],
    first: UnitIndex<'t>,
}

impl<'t> Drop for Units<'t> {
    fn drop(self) {
        let Units { all: _, first: _ } = self;
    }
}

impl<'t> Model for Units<'t> {
    ghost use Rattle.std.specs.Prelude.{List, map};
    ghost use Rattle.std.specs.Coded.{codes};
    ghost use Rattle.sv_tree.specs.contracts.unit.Description as unit;
    ghost use Rattle.sv_tree.specs.declared.unit.Description.{Description};

    ghost Value = { List Description };

    ghost coded = { Prim.hlevel (codes, unit.the_row.coded) };

    ghost view = { λ x. x.all.now };

    ghost use Rattle.sv_tree.specs.UnitView.{description};
    ghost use Rattle.sv_names.specs.Instances as instances;
    ghost use Rattle.sv_elab_unit.specs.Units.{Finds};

    ghost invariant = { λ x. Finds x.first (instances.definitions (map description x.all.now)) };
}

/// A unit comes behind others, of which it is known where each name stands first.
fn add_unit<'t>(
    alloc: Global,
    unit: Definition<'t>,
    first: &mut UnitIndex<'t>,
) -> Result<(), NoMemory>
    ensures { (us : List instances.Definition) → Finds first.old us → OnOk result (Finds first.new (us ++ definition_in unit.entry ∷ [])) }
{
    let name = unit.element.name.text.bytes();
    if first.contains_key(name) {
        return Ok(());
    }
    let key = Vec::from_slice(alloc, name)?;
    first.insert(key, unit)?;
    Ok(())
}

/// A description comes behind others.
#[tactic(auto, using(crate::proofs::UnitLaws::unit_behind, crate::proofs::UnitLaws::none_behind))]
fn add_description<'t>(
    alloc: Global,
    one: &'t Description,
    first: &mut UnitIndex<'t>,
) -> Result<(), NoMemory>
    ensures { (ds : List tree.Description) → Finds first.old (instances.definitions ds)
        → OnOk result (Finds first.new (instances.definitions (ds ++ description one.now ∷ []))) }
{
    match definition_of(one) {
        None => Ok(()),
        Some(unit) => add_unit(alloc, unit, first),
    }
}

/// Where the units of descriptions stand first.
fn index_of<'t>(alloc: Global, all: &'t [Description]) -> Result<UnitIndex<'t>, NoMemory>
    ensures { IfOk result (λ first. Finds first (instances.definitions (map description all.now))) }
{
    let mut first = UnitIndex::new(alloc);
    for one in all {
        add_description(alloc, one, &mut first)?;
    }
    Ok(first)
}

impl<'t> Units<'t> {
    /// The descriptions given.
    pub fn new(alloc: Global, all: &'t [Description]) -> Result<Units<'t>, NoMemory>
        ensures { IfOk result (λ x. x ≡ all.now) }
    {
        let first = index_of(alloc, all)?;
        Ok(Units { all, first })
    }

    /// The descriptions.
    pub fn all(&self) -> &'t [Description]
        ensures { result.now ≡ self.now }
    {
        self.all
    }

    /// The first module or program of a name.
    pub fn named(&self, name: &[u8]) -> Option<Definition<'t>>
        ensures { option_map definition_in result ≡ instances.definition_named name.now (map description self.now) }
    {
        match self.first.get(name) {
            None => None,
            Some(unit) => Some(*unit),
        }
    }
}
