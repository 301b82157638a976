// Parameters as declarations, with the values that an instance gives them (IEEE 1800-2017, 6.20.1 and 23.10).
ghost use Rattle.std.specs.Prelude.{◌≡◌, OnOk, map, flat_map};
ghost use Rattle.sv_tree.specs.View.{expr};
ghost use Rattle.sv_tree.specs.UnitView.{param, param_item};
ghost use Rattle.sv_names.specs.Instances as instances;
ghost use Rattle.sv_elab_scope.specs.Views.{source_in};
ghost use Rattle.sv_elab_declare.specs.Added.{Added};
ghost use Rattle.sv_elab_declare.specs.Given.{givens_in, param_names};

use crate::types::add_implied_items;
use sv_elab_scope::{Declared, Entry, Source};
use sv_names::same_bytes;
use sv_tree::{Param, ParamItem, ParamWord};
use sv_value::{NoMemory, Seq};

/// A value that an instance gives to a parameter.
#[derive(Clone, Copy)]
pub struct GivenValue<'a> {
    /// The name of the parameter.
    pub name: &'a [u8],
    /// The value, and where it is given.
    pub source: Source<'a>,
}

/// The value that is given to a parameter of this name, or another one.
fn given_or<'a>(own: Source<'a>, name: &[u8], givens: &[GivenValue<'a>]) -> Source<'a>
    ensures { source_in result ≡ instances.given_or (source_in own.entry) name.now (givens_in givens.now) }
{
    for given in givens {
        if same_bytes(name, given.name) {
            return given.source;
        }
    }
    own
}

/// The value of a parameter; a `localparam` keeps its own.
fn source_of<'a>(word: ParamWord, one: &'a ParamItem, givens: &[GivenValue<'a>]) -> Source<'a>
    ensures { source_in result ≡ instances.param_source word (expr one.now.value) one.now.name.text (givens_in givens.now) }
{
    let own = Source::Own(&one.value);
    match word {
        ParamWord::Parameter => given_or(own, one.name.text.bytes(), givens),
        ParamWord::Localparam => own,
    }
}

/// Appends the parameters of a declaration.
#[tactic(auto, using(crate::proofs::AddedLaws::turn_added, crate::proofs::AddedLaws::all_added))]
fn add_names<'a>(
    of: &'a Param,
    givens: &[GivenValue<'a>],
    names: &mut Seq<Entry<'a>>,
) -> Result<(), NoMemory>
    ensures { OnOk result (Added names.old names.new (param_names (givens_in givens.now) (param of.now) (map param_item of.now.names.items))) }
{
    let mut left = of.names.as_slice();
    while let [one, rest @ ..] = left {
        names.push(Entry {
            name: &one.name,
            what: Declared::Parameter(&of.of, source_of(of.word, one, givens)),
        })?;
        left = rest;
    }
    Ok(())
}

/// Appends the parameters of a declaration, and before them the items in their type.
#[tactic(auto, using(crate::proofs::AddedLaws::added_both))]
pub fn add_param<'a>(
    of: &'a Param,
    givens: &[GivenValue<'a>],
    names: &mut Seq<Entry<'a>>,
) -> Result<(), NoMemory>
    ensures { OnOk result (Added names.old names.new (instances.param_entries (givens_in givens.now) (param of.now))) }
{
    add_implied_items(&of.of, names)?;
    add_names(of, givens, names)
}

/// Appends the parameters of declarations.
#[tactic(auto, using(crate::proofs::AddedLaws::turn_added, crate::proofs::AddedLaws::all_added))]
pub fn add_params<'a>(
    all: &'a [Param],
    givens: &[GivenValue<'a>],
    names: &mut Seq<Entry<'a>>,
) -> Result<(), NoMemory>
    ensures { OnOk result (Added names.old names.new (flat_map (instances.param_entries (givens_in givens.now)) (map param all.now))) }
{
    let mut left = all;
    while let [one, rest @ ..] = left {
        add_param(one, givens, names)?;
        left = rest;
    }
    Ok(())
}
