// The instances whose items are walked, from the outermost inward (IEEE 1800-2017, 23.3).
ghost use Rattle.std.specs.Prelude.{◌≡◌, ◌-◌, ◌^◌, ℕ, ◌+◌, IfOk, min, map};
ghost use Rattle.sv_tree.specs.UnitView.{connection, description, instance, item, procedure};
ghost use Rattle.sv_names.specs.Blocks as blocks;
ghost use Rattle.sv_names.specs.Instances as instances;
ghost use Rattle.sv_names.specs.Named.{Around as what_stands_around};
ghost use Rattle.sv_elab_unit.specs.Definitions.{definition_in};
ghost use Rattle.sv_elab_walk.specs.Insts.{inst_in};

use crate::instance::Inst;
use std::rc::Rc;
use sv_elab_flow::after;
use sv_elab_unit::{Definition, Units, is_among};
use sv_names::Around;
use sv_tree::{Connection, Instance, Item, Procedure};
use sv_value::NoMemory;

/// Instances of one item.
#[derive(Clone, Copy)]
pub(crate) struct Listed<'t> {
    /// Their unit.
    pub unit: Definition<'t>,
    /// What they give to its parameters.
    pub params: &'t [Connection],
    /// The instances.
    pub list: &'t [Instance],
}

/// What is left of an instance that is entered.
#[derive(Drop)]
pub(crate) struct Frame<'t> {
    /// The instance.
    pub of: Rc<Inst<'t>>,
    /// How many levels of instances may stand in it.
    pub most: u128,
    /// The unit of the instances that are left of an item.
    pub unit: Definition<'t>,
    /// What they give to its parameters.
    pub params: &'t [Connection],
    /// The instances that are left of that item.
    pub list: &'t [Instance],
    /// How many blocks of the unit stand before the items that are left.
    pub before: u32,
    /// Those items.
    pub items: &'t [Item],
}

/// The instance that comes next.
#[derive(Drop)]
pub(crate) struct Next<'t> {
    /// The instance that it stands in.
    pub of: Rc<Inst<'t>>,
    /// How many levels of instances may stand in that.
    pub most: u128,
    /// Its unit.
    pub unit: Definition<'t>,
    /// What it gives to the parameters.
    pub params: &'t [Connection],
    /// What is written.
    pub one: &'t Instance,
}

/// How many scopes a procedure makes in that of its unit, whatever stands around it.
fn scopes_of_procedure(around: &Around, of: &Procedure) -> u32
    ensures { result ≡ min (blocks.scopes_made (procedure of.now).body) (2 ^ 32 - 1) }
{
    let first = Around {
        blocks: 0,
        ..*around
    };
    after(&first, &of.body).blocks
}

/// How many scopes an item makes in that of its unit.
fn scopes_of_item(around: &Around, one: &Item) -> u32
    ensures { result ≡ min (instances.scopes_of_item (item one.now)) (2 ^ 32 - 1) }
{
    match one {
        Item::Procedure(procedure) => scopes_of_procedure(around, procedure),
        _ => 0,
    }
}

/// The blocks that stand before what is behind an item.
pub(crate) fn blocks_behind(around: &Around, before: u32, one: &Item) -> Result<u32, NoMemory>
    ensures { IfOk result (λ n. n ≡ before + instances.scopes_of_item (item one.now)) }
{
    let scopes = scopes_of_item(around, one);
    if scopes == u32::MAX {
        return Err(NoMemory::Memory);
    }
    match before.checked_add(scopes) {
        Some(after) => Ok(after),
        None => Err(NoMemory::Memory),
    }
}

/// The instances of an item: none where it names no unit, or one that contains itself.
pub(crate) fn instances_of<'t>(units: &Units<'t>, of: &Inst<'t>, one: &'t Item) -> Listed<'t>
    ensures { (files : what_stands_around) (go : instances.Inst → instances.Walk) (b : ℕ)
        → instances.item_walk (map description units.now) files go (inst_in of.now) b (item one.now)
        ≡ instances.meets (instances.Meet (inst_in of.now) b (item one.now)) (instances.children (map description units.now) files go
        (inst_in of.now) (definition_in result.unit) (map connection result.params.now) (map instance result.list.now)) }
{
    let none = Listed {
        unit: of.unit,
        params: &[],
        list: &[],
    };
    let Item::Instances(all) = one else {
        return none;
    };
    let name = all.of.text.bytes();
    match units.named(name) {
        None => none,
        Some(unit) => {
            if is_among(name, of.chain.as_slice()) {
                return none;
            }
            Listed {
                unit,
                params: all.params.as_slice(),
                list: all.list.as_slice(),
            }
        }
    }
}
