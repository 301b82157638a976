// What units and files declare (IEEE 1800-2017, 3.12.1, 23.2 and 23.9).
ghost use Rattle.std.specs.Prelude.{◌≡◌, false, None, OnOk, IfOk, map, flat_map};
ghost use Rattle.sv_tree.specs.Types as types;
ghost use Rattle.sv_tree.specs.StmtView.{implied};
ghost use Rattle.sv_tree.specs.UnitView.{item, net, net_item, instance, routine, design_element, description};
ghost use Rattle.sv_names.specs.Entries as entries;
ghost use Rattle.sv_names.specs.Instances as instances;
ghost use Rattle.sv_elab_scope.specs.Views.{declared_in};
ghost use Rattle.sv_elab_declare.specs.Added.{Added};
ghost use Rattle.sv_elab_declare.specs.Given.{givens_in};
ghost use Rattle.sv_elab_declare.specs.Units.{net_names, instance_names};

use crate::blocks::add_blocks;
use crate::params::{GivenValue, add_param, add_params};
use crate::ports::add_ports;
use crate::types::add_items;
use crate::variables::add_held;
use std::alloc::Global;
use sv_elab_scope::{Declared, DeclaredRoutine, Entry, Storage};
use sv_tree::{
    Description, DesignElement, ImpliedType, Instance, Item, NetDecl, Qualifiers, Routine,
};
use sv_value::{NoMemory, Seq, Text};

/// Appends nets (6.7).
#[tactic(auto, using(crate::proofs::AddedLaws::turn_added, crate::proofs::AddedLaws::all_added))]
fn add_nets<'a>(of: &'a NetDecl, names: &mut Seq<Entry<'a>>) -> Result<(), NoMemory>
    ensures { OnOk result (Added names.old names.new (net_names (net of.now) (map net_item of.now.names.items))) }
{
    let mut left = of.names.as_slice();
    while let [one, rest @ ..] = left {
        names.push(Entry {
            name: &one.name,
            what: Declared::Net(of.sign, &of.range),
        })?;
        left = rest;
    }
    Ok(())
}

/// Appends instances of one unit (23.3.2).
#[tactic(auto, using(crate::proofs::AddedLaws::turn_added, crate::proofs::AddedLaws::all_added))]
fn add_instances<'a>(all: &'a [Instance], names: &mut Seq<Entry<'a>>) -> Result<(), NoMemory>
    ensures { OnOk result (Added names.old names.new (instance_names (map instance all.now))) }
{
    let mut left = all;
    while let [one, rest @ ..] = left {
        names.push(Entry {
            name: &one.name,
            what: Declared::Another,
        })?;
        left = rest;
    }
    Ok(())
}

/// A subroutine of a unit or of a file, which is no method (13).
fn plain_routine<'a>(alloc: Global, of: &'a Routine) -> Result<Declared<'a>, NoMemory>
    ensures { IfOk result (λ d. declared_in d ≡ entries.A_subroutine false None (entries.plain_routine (routine of.now))) }
{
    let routine = Box::new(
        alloc,
        DeclaredRoutine {
            qualifiers: Qualifiers {
                is_local: false,
                is_protected: false,
                is_static: false,
                is_virtual: false,
            },
            class: None,
            routine: of,
        },
    )?;
    Ok(Declared::Routine(routine))
}

/// Appends what an item of a unit with this path declares, or of a file, which has the empty path.
#[tactic(auto, using(crate::proofs::AddedLaws::added_none, crate::proofs::AddedLaws::added_one, crate::proofs::AddedLaws::added_before))]
fn add_item<'a>(
    alloc: Global,
    path: &'a [Text],
    givens: &[GivenValue<'a>],
    one: &'a Item,
    names: &mut Seq<Entry<'a>>,
) -> Result<(), NoMemory>
    ensures { OnOk result (Added names.old names.new (instances.item_entries path.now (givens_in givens.now) (item one.now))) }
{
    let (name, what) = match one {
        Item::Decl(decl) => return add_held(Storage::Static, decl, names),
        Item::Net(net) => return add_nets(net, names),
        Item::Param(param) => return add_param(param, givens, names),
        Item::Instances(instances) => return add_instances(instances.list.as_slice(), names),
        Item::Procedure(procedure) => return add_blocks(&procedure.body, names),
        Item::Typedef(typedef) => {
            add_items(&typedef.of, names)?;
            (&typedef.name, Declared::Type(&typedef.of))
        }
        Item::Announce(name) => (name, Declared::Announcement),
        Item::Class(class) => (&class.name, Declared::Class(path, &class.name)),
        Item::Routine(routine) => (&routine.head.name, plain_routine(alloc, routine)?),
        Item::Clocking(block) => (&block.name, Declared::Clocking(block.items.as_slice())),
        Item::Assign(_) | Item::DefaultClocking(_, _) | Item::Null => return Ok(()),
    };
    names.push(Entry { name, what })
}

/// Appends what the items of a unit declare.
#[tactic(auto, using(crate::proofs::AddedLaws::turn_added, crate::proofs::AddedLaws::all_added))]
fn add_items_of_unit<'a>(
    alloc: Global,
    path: &'a [Text],
    givens: &[GivenValue<'a>],
    all: &'a [Item],
    names: &mut Seq<Entry<'a>>,
) -> Result<(), NoMemory>
    ensures { OnOk result (Added names.old names.new (flat_map (instances.item_entries path.now (givens_in givens.now)) (map item all.now))) }
{
    let mut left = all;
    while let [one, rest @ ..] = left {
        add_item(alloc, path, givens, one, names)?;
        left = rest;
    }
    Ok(())
}

/// Where an instance of a unit stands, and what it gives.
#[derive(Clone, Copy)]
pub struct InstanceBody<'a> {
    /// Its name from the root.
    pub path: &'a [Text],
    /// A type that is not written, which the first port has where it has no direction.
    pub unwritten: &'a ImpliedType,
}

/// Appends all that a unit declares in an instance which gives these values: the parameters before the ports, the ports, and its items. A parameter
/// among the items can be given a value only where none stand before the ports.
#[tactic(auto, using(crate::proofs::AddedLaws::added_both))]
pub fn add_unit<'a>(
    alloc: Global,
    body: InstanceBody<'a>,
    givens: &[GivenValue<'a>],
    of: &'a DesignElement,
    names: &mut Seq<Entry<'a>>,
) -> Result<(), NoMemory>
    ensures { implied body.entry.unwritten.now ≡ types.Unwritten → OnOk result (Added names.old names.new
        (instances.unit_entries body.entry.path.now (design_element of.now) (givens_in givens.now))) }
{
    match &of.params {
        Some(params) => {
            add_params(params, givens, names)?;
            add_ports(&of.ports, body.unwritten, names)?;
            add_items_of_unit(alloc, body.path, &[], &of.items, names)
        }
        None => {
            add_ports(&of.ports, body.unwritten, names)?;
            add_items_of_unit(alloc, body.path, givens, &of.items, names)
        }
    }
}

/// Appends what a description declares in the scope of the files.
#[tactic(auto, using(crate::proofs::AddedLaws::added_one))]
fn add_description<'a>(
    alloc: Global,
    one: &'a Description,
    names: &mut Seq<Entry<'a>>,
) -> Result<(), NoMemory>
    ensures { OnOk result (Added names.old names.new (instances.description_entries (description one.now))) }
{
    let name = match one {
        Description::Module(element) => &element.name,
        Description::Program(element) => &element.name,
        Description::Item(item) => return add_item(alloc, &[], &[], item, names),
    };
    names.push(Entry {
        name,
        what: Declared::Another,
    })
}

/// Appends all that files declare (3.12.1).
#[tactic(auto, using(crate::proofs::AddedLaws::turn_added, crate::proofs::AddedLaws::all_added))]
pub fn add_files<'a>(
    alloc: Global,
    all: &'a [Description],
    names: &mut Seq<Entry<'a>>,
) -> Result<(), NoMemory>
    ensures { OnOk result (Added names.old names.new (instances.file_entries (map description all.now))) }
{
    let mut left = all;
    while let [one, rest @ ..] = left {
        add_description(alloc, one, names)?;
        left = rest;
    }
    Ok(())
}
