// Ports with what they take from those before (IEEE 1800-2017, 23.2.2.3).
ghost use Rattle.std.specs.Prelude.{◌≡◌, ◌∷◌, List, true, false, IfOk, map};
ghost use Rattle.sv_tree.specs.StmtView.{implied};
ghost use Rattle.sv_tree.specs.Types as types;
ghost use Rattle.sv_tree.specs.Units as tree;
ghost use Rattle.sv_tree.specs.UnitView.{port, design_element};
ghost use Rattle.sv_names.specs.Instances as instances;
ghost use Rattle.sv_elab_unit.specs.Definitions.{names_in};
ghost use Rattle.sv_elab_unit.specs.Ports.{port_in};

use std::alloc::Global;
use sv_tree::{DesignElement, ImpliedType, Name, Port, PortDirection};
use sv_value::{NoMemory, Seq};

/// A port with what it takes from those before.
#[derive(Clone, Copy)]
pub struct PortInfo<'a> {
    /// Its name.
    pub name: &'a Name,
    /// Whether it is an input.
    pub is_input: bool,
    /// Whether a net type is written.
    pub is_wire: bool,
    /// Its type.
    pub ty: &'a ImpliedType,
    /// Whether the type is written here.
    pub has_type: bool,
}

/// A port behind one with this direction and type.
fn port_info<'a>(one: &'a Port, is_input: bool, is_wire: bool, ty: &'a ImpliedType) -> PortInfo<'a>
    ensures { (rest : List tree.Port) → instances.ports_from is_input is_wire (implied ty.now) (port one.now ∷ rest)
        ≡ port_in result ∷ instances.ports_from result.is_input result.is_wire (implied result.ty.now) rest }
{
    match one.direction {
        Some(direction) => PortInfo {
            name: &one.name,
            is_input: matches!(direction, PortDirection::Input),
            is_wire: one.is_net,
            ty: &one.of,
            has_type: true,
        },
        None => PortInfo {
            name: &one.name,
            is_input,
            is_wire,
            ty,
            has_type: false,
        },
    }
}

/// The ports of a unit, of which the first, where it has no direction, is an input of this type (`unwritten`, a type that is not written).
#[tactic(auto, using(crate::proofs::ListLaws::port_texts))]
pub fn ports_of<'a>(
    alloc: Global,
    of: &'a DesignElement,
    unwritten: &'a ImpliedType,
) -> Result<Seq<PortInfo<'a>>, NoMemory>
    ensures { implied unwritten.now ≡ types.Unwritten
        → IfOk result (λ ps. map port_in ps ≡ instances.ports_of (design_element of.now)) }
{
    let mut list = Seq::new(alloc);
    let (mut is_input, mut is_wire, mut ty) = (true, false, unwritten);
    let mut left = of.ports.as_slice();
    while let [one, rest @ ..] = left {
        let info = port_info(one, is_input, is_wire, ty);
        is_input = info.is_input;
        is_wire = info.is_wire;
        ty = info.ty;
        list.push(info)?;
        left = rest;
    }
    Ok(list)
}

/// The names of the ports of a unit.
#[tactic(auto, using(crate::proofs::ListLaws::port_texts))]
pub fn port_names<'a>(alloc: Global, of: &'a DesignElement) -> Result<Seq<&'a [u8]>, NoMemory>
    ensures { IfOk result (λ ns. names_in ns ≡ instances.port_names (design_element of.now)) }
{
    let mut list = Seq::new(alloc);
    let mut left = of.ports.as_slice();
    while let [one, rest @ ..] = left {
        list.push(one.name.text.bytes())?;
        left = rest;
    }
    Ok(list)
}
