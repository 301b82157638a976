// The names of the parameters that an instance can give (IEEE 1800-2017, 6.20.1 and 23.10).
ghost use Rattle.std.specs.Prelude.{◌≡◌, ◌++◌, IfOk, OnOk, map, flat_map};
ghost use Rattle.sv_tree.specs.UnitView.{param, item, design_element};
ghost use Rattle.sv_names.specs.Instances as instances;
ghost use Rattle.sv_elab_unit.specs.Definitions.{names_in};
ghost use Rattle.sv_elab_unit.specs.Params.{param_texts};

use std::alloc::Global;
use sv_tree::{DesignElement, Item, Param, ParamWord};
use sv_value::{NoMemory, Seq};

/// Appends the names of a declaration of parameters.
#[tactic(auto, using(crate::proofs::ListLaws::turn_named, crate::proofs::ListLaws::all_named))]
fn add_names<'a>(of: &'a Param, list: &mut Seq<&'a [u8]>) -> Result<(), NoMemory>
    ensures { OnOk result (names_in list.new ≡ names_in list.old ++ param_texts (param of.now)) }
{
    let mut left = of.names.as_slice();
    while let [one, rest @ ..] = left {
        list.push(one.name.text.bytes())?;
        left = rest;
    }
    Ok(())
}

/// Appends the names of the parameters before the ports.
#[tactic(auto, using(crate::proofs::ListLaws::turn_named, crate::proofs::ListLaws::all_named))]
fn add_params<'a>(all: &'a [Param], list: &mut Seq<&'a [u8]>) -> Result<(), NoMemory>
    ensures { OnOk result (names_in list.new ≡ names_in list.old ++ flat_map param_texts (map param all.now)) }
{
    let mut left = all;
    while let [one, rest @ ..] = left {
        add_names(one, list)?;
        left = rest;
    }
    Ok(())
}

/// Appends the names that an item of a body adds: those of a `parameter`.
#[tactic(auto, using(crate::proofs::ListLaws::none_named))]
fn add_item<'a>(one: &'a Item, list: &mut Seq<&'a [u8]>) -> Result<(), NoMemory>
    ensures { OnOk result (names_in list.new ≡ names_in list.old ++ instances.body_params (item one.now)) }
{
    match one {
        Item::Param(param) => match param.word {
            ParamWord::Parameter => add_names(param, list),
            ParamWord::Localparam => Ok(()),
        },
        _ => Ok(()),
    }
}

/// Appends the names of the parameters of a body.
#[tactic(auto, using(crate::proofs::ListLaws::turn_named, crate::proofs::ListLaws::all_named))]
fn add_body<'a>(all: &'a [Item], list: &mut Seq<&'a [u8]>) -> Result<(), NoMemory>
    ensures { OnOk result (names_in list.new ≡ names_in list.old ++ flat_map instances.body_params (map item all.now)) }
{
    let mut left = all;
    while let [one, rest @ ..] = left {
        add_item(one, list)?;
        left = rest;
    }
    Ok(())
}

/// The parameters that an instance can give: those before the ports, or, where brackets for them are not written, those of the body.
pub fn param_names<'a>(alloc: Global, of: &'a DesignElement) -> Result<Seq<&'a [u8]>, NoMemory>
    ensures { IfOk result (λ ns. names_in ns ≡ instances.param_names (design_element of.now)) }
{
    let mut list = Seq::new(alloc);
    match &of.params {
        Some(params) => add_params(params, &mut list)?,
        None => add_body(&of.items, &mut list)?,
    }
    Ok(list)
}
