// The variables of a unit that are declared with an initializer (IEEE 1800-2017, 6.5 and 6.21).
ghost use Rattle.std.specs.Prelude.{◌≡◌, OnOk};
ghost use Rattle.sv_tree.specs.StmtView as stmt_view;
ghost use Rattle.sv_tree.specs.UnitView as view;
ghost use Rattle.sv_names.specs.Assignments as assignments;
ghost use Rattle.sv_names.specs.Sources as sources;
ghost use Rattle.sv_elab_met.specs.Behind.{Listed};
ghost use Rattle.sv_elab_met.specs.Met as words;

use std::alloc::Global;
use sv_elab_signal::within;
use sv_elab_touch::sv_elab_expr::place_of;
use sv_elab_writers::Initialized;
use sv_tree::{Declarator, Init, Item};
use sv_value::{NoMemory, Place, Seq, Text};

/// The first token of an initializer.
fn place_of_init(init: &Init) -> Place
    ensures { result ≡ assignments.place_of_init (stmt_view.init init.now) }
{
    match init {
        Init::Value(e) => place_of(e),
        Init::New(at, _) => *at,
        Init::Copy(at, _) => *at,
        Init::Array { at, .. } => *at,
    }
}

/// Appends a variable, where it has an initializer.
#[tactic(auto, using(crate::proofs::BehindLaws::listed_none, crate::proofs::BehindLaws::listed_one))]
fn add_declarator(
    alloc: Global,
    path: &[Text],
    declarator: &Declarator,
    list: &mut Seq<Initialized>,
) -> Result<(), NoMemory>
    ensures { OnOk result (Listed list.old list.new (sources.initialized_at path.now (stmt_view.declarator declarator.now))) }
{
    match &declarator.init {
        None => Ok(()),
        Some(init) => {
            let object = within(alloc, path, &declarator.name)?;
            let at = place_of_init(init);
            list.push(Initialized { object, at })
        }
    }
}

/// Appends the variables of a declaration that have initializers.
#[tactic(auto, using(crate::proofs::BehindLaws::turn_listed, crate::proofs::BehindLaws::all_listed))]
fn add_declarators(
    alloc: Global,
    path: &[Text],
    names: &[Declarator],
    list: &mut Seq<Initialized>,
) -> Result<(), NoMemory>
    ensures { OnOk result (Listed list.old list.new (words.declarators_initialized path.now names.now)) }
{
    let mut left = names;
    while let [declarator, rest @ ..] = left {
        add_declarator(alloc, path, declarator, list)?;
        left = rest;
    }
    Ok(())
}

/// Appends the variables that an item of the instance with this path declares with initializers.
#[tactic(auto, using(crate::proofs::BehindLaws::listed_none))]
pub fn add_initialized(
    alloc: Global,
    path: &[Text],
    item: &Item,
    list: &mut Seq<Initialized>,
) -> Result<(), NoMemory>
    ensures { OnOk result (Listed list.old list.new (words.item_initialized path.now (view.item item.now))) }
{
    match item {
        Item::Decl(d) => add_declarators(alloc, path, d.names.as_slice(), list),
        _ => Ok(()),
    }
}
