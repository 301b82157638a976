// What items and ports declare: objects, and elements of fixed arrays (IEEE 1800-2017, 6.5, 6.8, 8.5 and 23.2.2).
ghost use Rattle.std.specs.Prelude.{map, option_map, OnOk};
ghost use Rattle.sv_tree.specs.UnitView as view;
ghost use Rattle.sv_names.specs.Sources as sources;
ghost use Rattle.sv_names.specs.Views.{around_in};
ghost use Rattle.sv_elab_scope.specs.Rows.{group_in};
ghost use Rattle.sv_elab_touch.specs.Touched.{Touched};
ghost use Rattle.sv_elab_unit.specs.Ports.{port_in};
ghost use Rattle.sv_elab_met.specs.Met as words;

use std::alloc::Global;
use sv_elab_act::{add_declared, add_scope};
use sv_elab_scope::Group;
use sv_elab_signal::within;
use sv_elab_unit::PortInfo;
use sv_elab_writers::Touch;
use sv_names::{Around, ClassInfo, class_in, declared_in};
use sv_tree::{Declarator, Item, Name, NetItem};
use sv_value::{NoMemory, Seq, Text};

/// Appends what a name of a unit declares.
#[tactic(auto, using(sv_elab_touch::proofs::TouchedLaws::touched_none, crate::proofs::NameLaws::declared_found))]
fn add_name(group: &Group, name: &Name, touches: &mut Seq<Touch>) -> Result<(), NoMemory>
    ensures { OnOk result (Touched touches.old touches.new (sources.declared_in (group_in group.now) name.now)) }
{
    match declared_in(0, name.text.bytes(), &group.scope.known) {
        None => Ok(()),
        Some(found) => add_declared(name.at, &found.known.value, touches),
    }
}

/// Appends what ports declare.
#[tactic(auto, using(sv_elab_touch::proofs::TouchedLaws::turn_touched, sv_elab_touch::proofs::TouchedLaws::all_touched))]
pub(crate) fn add_ports(
    group: &Group,
    ports: &[PortInfo],
    touches: &mut Seq<Touch>,
) -> Result<(), NoMemory>
    ensures { OnOk result (Touched touches.old touches.new (words.ports_declare (group_in group.now) (map port_in ports.now))) }
{
    let mut left = ports;
    while let [port, rest @ ..] = left {
        add_name(group, port.name, touches)?;
        left = rest;
    }
    Ok(())
}

/// Appends what the names of a declaration declare.
#[tactic(auto, using(sv_elab_touch::proofs::TouchedLaws::turn_touched, sv_elab_touch::proofs::TouchedLaws::all_touched))]
fn add_declarators(
    group: &Group,
    names: &[Declarator],
    touches: &mut Seq<Touch>,
) -> Result<(), NoMemory>
    ensures { OnOk result (Touched touches.old touches.new (words.declarators_declare (group_in group.now) names.now)) }
{
    let mut left = names;
    while let [declarator, rest @ ..] = left {
        add_name(group, &declarator.name, touches)?;
        left = rest;
    }
    Ok(())
}

/// Appends what nets declare.
#[tactic(auto, using(sv_elab_touch::proofs::TouchedLaws::turn_touched, sv_elab_touch::proofs::TouchedLaws::all_touched))]
fn add_nets(group: &Group, nets: &[NetItem], touches: &mut Seq<Touch>) -> Result<(), NoMemory>
    ensures { OnOk result (Touched touches.old touches.new (words.nets_declare (group_in group.now) nets.now)) }
{
    let mut left = nets;
    while let [net, rest @ ..] = left {
        add_name(group, &net.name, touches)?;
        left = rest;
    }
    Ok(())
}

/// Appends the properties of a class.
#[tactic(auto, using(sv_elab_touch::proofs::TouchedLaws::touched_none))]
fn add_class(class: Option<&ClassInfo>, touches: &mut Seq<Touch>) -> Result<(), NoMemory>
    ensures { OnOk result (Touched touches.old touches.new (sources.class_declares (option_map (λ k. k.now) class.entry))) }
{
    match class {
        None => Ok(()),
        Some(class) => add_scope(&class.scope, touches),
    }
}

/// Appends what an item declares, in a unit with this path and scope.
#[tactic(auto, using(sv_elab_touch::proofs::TouchedLaws::touched_none))]
pub(crate) fn add_item(
    alloc: Global,
    around: &Around,
    group: &Group,
    path: &[Text],
    item: &Item,
    touches: &mut Seq<Touch>,
) -> Result<(), NoMemory>
    ensures { OnOk result (Touched touches.old touches.new
        (sources.item_declares (around_in around.now) (group_in group.now) path.now (view.item item.now))) }
{
    match item {
        Item::Decl(d) => add_declarators(group, d.names.as_slice(), touches),
        Item::Net(n) => add_nets(group, n.names.as_slice(), touches),
        Item::Class(c) => {
            let own = within(alloc, path, &c.name)?;
            add_class(class_in(around.classes, own.as_slice()), touches)
        }
        _ => Ok(()),
    }
}
