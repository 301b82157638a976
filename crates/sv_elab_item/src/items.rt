// What each form of item gives (IEEE 1800-2017, 3.3, 3.4 and 23.2.4).
ghost use Rattle.std.specs.Prelude.{◌≡◌, map};
ghost use Rattle.sv_tree.specs.UnitView.{assign_item, clocking, description, instances as instances_in, item as item_in, net_item};
ghost use Rattle.sv_tree.specs.Items as tree;
ghost use Rattle.sv_tree.specs.StmtView as view;
ghost use Rattle.sv_names.specs.Items as items;
ghost use Rattle.sv_names.specs.Given.{Gives};
ghost use Rattle.sv_names.specs.Views.{around_in};
ghost use Rattle.sv_elab_parts.specs.Adding.{Adding};
ghost use Rattle.sv_elab_walk.specs.Insts.{inst_in};
ghost use Rattle.sv_elab_plain.specs.Parts as parts;

use crate::common::add_common;
use crate::procedures::add_procedure;
use std::alloc::Global;
use sv_elab_clocking::clocking_of;
use sv_elab_parts::{SoFar, guarded_adding};
use sv_elab_plain::sv_elab_connect::connections_stand;
use sv_elab_plain::{
    add_assigns, add_net_values, add_nets, add_variables, instances_stand, sooner,
};
use sv_elab_signal::within;
use sv_elab_unit::Units;
use sv_elab_walk::Inst;
use sv_names::{Around, Named, Refusal};
use sv_tree::{AssignItem, ClockingBlock, Decl, Instances, Item, Name, NetDecl};
use sv_value::{Place, Text};

/// Puts the variables of a declaration behind what stands so far.
fn add_decl(
    alloc: Global,
    around: &Around,
    inst: &Inst,
    of: &Decl,
    so_far: &mut SoFar,
) -> Result<(), Refusal>
    ensures { Adding so_far.old so_far.new result
        (parts.only_objects (parts.variables_of (around_in around.now) (inst_in inst.now).group (map view.declarator of.now.names.items))) }
{
    let scope = &inst.group.scope;
    add_variables(
        alloc,
        around,
        scope,
        of.names.as_slice(),
        &mut so_far.objects,
    )
}

/// Puts nets, with the processes that give them values, behind what stands so far.
fn add_net(
    alloc: Global,
    around: &Around,
    inst: &Inst,
    of: &NetDecl,
    so_far: &mut SoFar,
) -> Result<(), Refusal>
    ensures { Adding so_far.old so_far.new result (parts.objects_and_processes
        (parts.nets_of (around_in around.now) (inst_in inst.now).group (map net_item of.now.names.items))
        (parts.net_processes (around_in around.now) (map net_item of.now.names.items))) }
{
    let names = of.names.as_slice();
    let objects = add_nets(alloc, around, &inst.group.scope, names, &mut so_far.objects);
    let values = add_net_values(
        alloc,
        around,
        names,
        &mut so_far.processes,
        &mut so_far.drives,
        &mut so_far.routines,
    );
    sooner(objects, values)
}

/// Puts the processes of continuous assignments behind what stands so far.
#[tactic(auto, using(crate::proofs::GivenLaws::processes_given))]
fn add_assign(
    alloc: Global,
    around: &Around,
    all: &[AssignItem],
    so_far: &mut SoFar,
) -> Result<(), Refusal>
    ensures { Adding so_far.old so_far.new result
        (parts.only_processes (parts.assign_processes (around_in around.now) (map assign_item all.now))) }
{
    add_assigns(
        alloc,
        around,
        all,
        &mut so_far.processes,
        &mut so_far.drives,
        &mut so_far.routines,
    )
}

/// What an item with instances breaks; its instances are met on the walk.
fn add_instances(
    alloc: Global,
    units: &Units,
    around: &Around,
    inst: &Inst,
    of: &Instances,
    so_far: &mut SoFar,
) -> Result<(), Refusal>
    ensures { Adding so_far.old so_far.new result
        (items.item_parts (map description units.now) (around_in around.now) (inst_in inst.now) (tree.Instances (instances_in of.now))) }
{
    let unit = units.named(of.of.text.bytes());
    let stand = instances_stand(alloc, around, inst.chain.as_slice(), of, unit);
    let guarded = guarded_adding(Ok(()), stand);
    guarded_adding(
        guarded,
        connections_stand(alloc, around, of.params.as_slice()),
    )
}

/// Puts a clocking block behind what stands so far.
fn add_clocking(
    alloc: Global,
    around: &Around,
    inst: &Inst,
    of: &ClockingBlock,
    so_far: &mut SoFar,
) -> Result<(), Refusal>
    ensures { Adding so_far.old so_far.new result (parts.clocking_at (around_in around.now) (inst_in inst.now).path (clocking of.now)) }
{
    let path = within(alloc, inst.path.as_slice(), &of.name)?;
    let drives = &mut so_far.drives;
    let samples = &mut so_far.samples;
    match clocking_of(alloc, around, path.as_slice(), of, drives, samples) {
        Ok(block) => {
            so_far.clockings.push(block)?;
            so_far.clocking_paths.push(path)?;
            Ok(())
        }
        Err(e) => Err(e),
    }
}

/// E7: what is made the default clocking is a clocking block.
fn default_stands(around: &Around, name: &Name) -> Result<(), Refusal>
    ensures { Gives result (parts.default_stands (around_in around.now) name.now) }
{
    match around.meaning(name) {
        Ok(meaning) => match meaning.named {
            Named::ClockingBlock(_, _) => Ok(()),
            _ => Err(Refusal::Rule {
                rule: 7,
                at: name.at,
            }),
        },
        Err(e) => Err(e),
    }
}

/// Puts what an item of an instance gives behind what stands so far.
#[tactic(auto, using(sv_elab_plain::proofs::CommonLaws::nothing_added))]
pub(crate) fn add_item(
    alloc: Global,
    units: &Units,
    around: &Around,
    inst: &Inst,
    one: &Item,
    so_far: &mut SoFar,
) -> Result<(), Refusal>
    ensures { Adding so_far.old so_far.new result
        (items.item_parts (map description units.now) (around_in around.now) (inst_in inst.now) (item_in one.now)) }
{
    match one {
        Item::Decl(decl) => add_decl(alloc, around, inst, decl, so_far),
        Item::Net(net) => add_net(alloc, around, inst, net, so_far),
        Item::Assign(all) => add_assign(alloc, around, all.as_slice(), so_far),
        Item::Procedure(procedure) => add_procedure(alloc, around, procedure, so_far),
        Item::Instances(of) => add_instances(alloc, units, around, inst, of, so_far),
        Item::Clocking(block) => add_clocking(alloc, around, inst, block, so_far),
        Item::DefaultClocking(_, name) => guarded_adding(Ok(()), default_stands(around, name)),
        _ => add_common(alloc, around, inst.path.as_slice(), one, so_far),
    }
}
