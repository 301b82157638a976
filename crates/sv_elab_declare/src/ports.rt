// Ports as declarations (IEEE 1800-2017, 23.2.2).
ghost use Rattle.std.specs.Prelude.{◌≡◌, true, false, OnOk, map, flat_map};
ghost use Rattle.sv_tree.specs.StmtView.{implied};
ghost use Rattle.sv_tree.specs.UnitView.{port};
ghost use Rattle.sv_names.specs.Instances as instances;
ghost use Rattle.sv_elab_declare.specs.Added.{Added};
ghost use Rattle.sv_elab_declare.specs.Ports.{port_names, after_port, ports_after};

use crate::types::add_implied_items;
use sv_elab_scope::{Declared, Entry};
use sv_tree::{ImpliedType, Port, PortDirection};
use sv_value::{NoMemory, Seq};

/// What a port without a direction takes from the one before.
#[derive(Clone, Copy)]
pub struct PortType<'a> {
    /// Whether it is an input.
    pub is_input: bool,
    /// Whether a net type is written.
    pub is_wire: bool,
    /// The type.
    pub ty: &'a ImpliedType,
}

/// What a port is, behind another one.
fn port_type<'a>(one: &'a Port, before: PortType<'a>) -> PortType<'a>
    ensures { after_port before.entry (port one.now) result }
{
    match one.direction {
        Some(direction) => PortType {
            is_input: matches!(direction, PortDirection::Input),
            is_wire: one.is_net,
            ty: &one.of,
        },
        None => before,
    }
}

/// Appends a port that is this, and before it the items in the type that is written for it.
#[tactic(auto, using(crate::proofs::AddedLaws::added_before, crate::proofs::AddedLaws::added_one))]
fn add_port<'a>(one: &'a Port, ty: PortType<'a>, names: &mut Seq<Entry<'a>>) -> Result<(), NoMemory>
    ensures { OnOk result (Added names.old names.new (port_names (port one.now) ty.entry)) }
{
    if one.direction.is_some() {
        add_implied_items(&one.of, names)?;
    }
    names.push(Entry {
        name: &one.name,
        what: Declared::Port {
            is_input: ty.is_input,
            is_wire: ty.is_wire,
            ty: ty.ty,
        },
    })
}

/// Appends ports, of which the first, where it has no direction, is an input of this type (`unwritten`, a type that is not written).
#[tactic(auto, using(crate::proofs::AddedLaws::all_added, crate::proofs::PortLaws::turn_ports))]
pub fn add_ports<'a>(
    all: &'a [Port],
    unwritten: &'a ImpliedType,
    names: &mut Seq<Entry<'a>>,
) -> Result<(), NoMemory>
    ensures { OnOk result (Added names.old names.new
        (flat_map instances.port_entry (instances.ports_from true false (implied unwritten.now) (map port all.now)))) }
{
    let mut before = PortType {
        is_input: true,
        is_wire: false,
        ty: unwritten,
    };
    let mut left = all;
    while let [one, rest @ ..] = left {
        let ty = port_type(one, before);
        add_port(one, ty, names)?;
        before = ty;
        left = rest;
    }
    Ok(())
}
