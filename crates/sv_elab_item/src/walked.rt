// What is met on the walk (IEEE 1800-2017, 23.2 and 23.3): E5, E8, E44, E48.
ghost use Rattle.std.specs.Prelude.{◌≡◌, ◌-◌, ◌^◌, Some, min, map};
ghost use Rattle.sv_tree.specs.UnitView.{connection, description, item as item_in};
ghost use Rattle.sv_names.specs.Blocks as blocks;
ghost use Rattle.sv_names.specs.Given.{Gives};
ghost use Rattle.sv_names.specs.Items as items;
ghost use Rattle.sv_names.specs.Views.{around_in};
ghost use Rattle.sv_elab_parts.specs.Adding.{Adding};
ghost use Rattle.sv_elab_walk.specs.Insts.{inst_in, walked_in};
ghost use Rattle.sv_elab_plain.specs.Parts as parts;
ghost use Rattle.sv_elab_plain.specs.Steps as words;

use crate::items::add_item;
use std::alloc::Global;
use sv_elab_object::known_stand;
use sv_elab_parts::{SoFar, guarded_adding};
use sv_elab_plain::sv_elab_connect::{connections_fit, connections_stand};
use sv_elab_plain::{add_links, add_ports, default_in, inst_of, one_default};
use sv_elab_unit::{Units, port_names, ports_of};
use sv_elab_walk::{Inst, Seen, Walked, around_unit, seen_in};
use sv_names::{Around, Checked, Refusal, answer, same_bytes};
use sv_tree::{Connection, ImpliedType, Item, Name};

// ---- where it stands

/// What is seen behind so many blocks of the unit.
fn after_blocks<'a>(around: &Around<'a>, made: u32) -> Around<'a>
    ensures { around_in result ≡ blocks.after_scopes made (around_in around.now) }
{
    Around {
        blocks: around.blocks.saturating_add(made),
        ..*around
    }
}

// ---- instances

/// E5: an end label repeats the name of its unit.
fn label_stands(name: &Name, label: &Option<Name>) -> Result<(), Refusal>
    ensures { Gives result (blocks.end_label (Some name.now) label.now) }
{
    match label {
        None => Ok(()),
        Some(end) => {
            if same_bytes(name.text.bytes(), end.text.bytes()) {
                Ok(())
            } else {
                Err(Refusal::Rule {
                    rule: 5,
                    at: end.at,
                })
            }
        }
    }
}

/// Puts the ports of an instance behind what stands so far.
fn add_inst_ports(
    alloc: Global,
    around: &Around,
    inst: &Inst,
    so_far: &mut SoFar,
) -> Result<(), Refusal>
    ensures { Adding so_far.old so_far.new result (parts.ports_given (around_in around.now) (inst_in inst.now)) }
{
    let unwritten = ImpliedType::Unwritten;
    let ports = ports_of(alloc, inst.unit.element, &unwritten)?;
    let scope = &inst.group.scope;
    add_ports(alloc, around, scope, ports.as_slice(), &mut so_far.objects)
}

/// What the declarations of an instance break by their names.
fn declarations_stand(inst: &Inst) -> Result<(), Refusal>
    ensures { Gives result (inst_in inst.now).stands }
{
    match &inst.stands {
        Checked::Good(()) => Ok(()),
        Checked::Broken(f) => Err(f.refusal()),
    }
}

/// Puts an instance by itself behind what stands so far: its ports, and the rules on its scope.
fn add_inst(alloc: Global, around: &Around, inst: &Inst, so_far: &mut SoFar) -> Result<(), Refusal>
    ensures { Adding so_far.old so_far.new result (items.enter_parts (around_in around.now) (inst_in inst.now)) }
{
    let element = inst.unit.element;
    let ports = add_inst_ports(alloc, around, inst, so_far);
    let known = known_stand(alloc, inst.group.scope.known.as_slice());
    let guarded = guarded_adding(ports, known);
    let guarded = guarded_adding(guarded, declarations_stand(inst));
    let guarded = guarded_adding(guarded, label_stands(&element.name, &element.label));
    guarded_adding(guarded, answer(one_default(element.items.as_slice())))
}

/// Puts an item of an instance, behind so many blocks of its unit, behind what stands so far.
fn meet(
    alloc: Global,
    units: &Units,
    around: &Around,
    inst: &Inst,
    made: u32,
    one: &Item,
    so_far: &mut SoFar,
) -> Result<(), Refusal>
    ensures { Adding so_far.old so_far.new result (items.item_parts (map description units.now)
        (blocks.after_scopes made (around_in around.now)) (inst_in inst.now) (item_in one.now)) }
{
    let around = after_blocks(around, made);
    add_item(alloc, units, &around, inst, one, so_far)
}

/// Puts the processes of port connections behind what stands so far.
fn add_connections(
    alloc: Global,
    around: &Around,
    inner: &Inst,
    list: &[Connection],
    so_far: &mut SoFar,
) -> Result<(), Refusal>
    ensures { Adding so_far.old so_far.new result (parts.links_given (around_in around.now) (inst_in inner.now) (map connection list.now)) }
{
    let unwritten = ImpliedType::Unwritten;
    let ports = ports_of(alloc, inner.unit.element, &unwritten)?;
    let names = port_names(alloc, inner.unit.element)?;
    add_links(
        alloc,
        around,
        &inner.group.scope,
        names.as_slice(),
        list,
        ports.as_slice(),
        &mut so_far.processes,
        &mut so_far.drives,
        &mut so_far.routines,
    )
}

/// Puts the port connections of an instance in another behind what stands so far.
fn connect(
    alloc: Global,
    around: &Around,
    inner: &Inst,
    list: &[Connection],
    so_far: &mut SoFar,
) -> Result<(), Refusal>
    ensures { Adding so_far.old so_far.new result (parts.connected (around_in around.now) (inst_in inner.now) (map connection list.now)) }
{
    let names = port_names(alloc, inner.unit.element)?;
    let links = add_connections(alloc, around, inner, list, so_far);
    let guarded = guarded_adding(links, connections_fit(alloc, names.as_slice(), list));
    guarded_adding(guarded, connections_stand(alloc, around, list))
}

// ---- the walk

/// Puts what is met in an instance behind what stands so far. E44: the instance that passes the limit.
fn add_step(
    alloc: Global,
    units: &Units,
    around: &Around,
    step: &Walked,
    so_far: &mut SoFar,
) -> Result<(), Refusal>
    ensures { Adding so_far.old so_far.new result
        (words.step_given (map description units.now) (around_in around.now) (walked_in step.now)) }
{
    match step {
        Walked::Enter(inst) => add_inst(alloc, around, inst, so_far),
        Walked::Meet { of, blocks, item } => {
            meet(alloc, units, around, of, *blocks, *item, so_far)
        }
        Walked::Connect { inner, list, .. } => connect(alloc, around, inner, *list, so_far),
        Walked::Pass(at) => Err(Refusal::Rule { rule: 44, at: *at }),
    }
}

/// Puts what is met on the walk behind what stands so far.
pub(crate) fn add_walked<'f>(
    alloc: Global,
    units: &Units,
    files: &'f Around<'f>,
    step: &'f Walked,
    so_far: &mut SoFar,
) -> Result<(), Refusal>
    ensures { Adding so_far.old so_far.new result
        (items.walked_parts (map description units.now) (around_in files.now) (walked_in step.now)) }
{
    match inst_of(step) {
        None => add_step(alloc, units, files, step, so_far),
        Some(inst) => {
            let Seen { scopes, classes } = seen_in(alloc, files, &inst.group)?;
            let outer = around_unit(files, inst.unit, inst.path.as_slice());
            let around = Around {
                scopes: scopes.as_slice(),
                classes: classes.as_slice(),
                default_clocking: default_in(&inst.group, inst.unit.element.items.as_slice()),
                ..outer
            };
            add_step(alloc, units, &around, step, so_far)
        }
    }
}
