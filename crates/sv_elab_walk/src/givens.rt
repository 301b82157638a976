// The values that the connections of instances give to parameters (IEEE 1800-2017, 23.10).
ghost use Rattle.std.specs.Prelude.{◌≡◌, ◌++◌, ◌∷◌, [], IfOk, OnOk, map};
ghost use Rattle.sv_tree.specs.View as view;
ghost use Rattle.sv_tree.specs.UnitView.{connection};
ghost use Rattle.sv_names.specs.Instances as instances;
ghost use Rattle.sv_names.specs.Views.{around_in};
ghost use Rattle.sv_elab_declare.specs.Given.{givens_in};
ghost use Rattle.sv_elab_unit.specs.Definitions.{names_in};
ghost use Rattle.sv_elab_walk.specs.Givens.{kept_in, given_at};

use std::alloc::Global;
use sv_elab_declare::GivenValue;
use sv_elab_head::sv_elab_expr::{expr, place_of};
use sv_elab_scope::Source;
use sv_elab_signal::{known, share_name};
use sv_names::{Around, Checked, Typed};
use sv_tree::{Connection, Expr, Name, Root};
use sv_value::{NoMemory, Place, Seq, Text};

/// A value that an instance gives to a parameter, kept by its walk.
#[derive(Drop)]
pub(crate) struct KeptValue {
    /// The name of the parameter.
    pub name: Text,
    /// Where the value is given.
    pub at: Place,
    /// The value.
    pub value: Checked<Typed>,
}

/// The value that a connection gives to the parameter of this name.
fn value_given(alloc: Global, around: &Around, name: &[u8], e: &Expr) -> Result<KeptValue, NoMemory>
    ensures { IfOk result (λ k. kept_in (k ∷ []) ≡ (name.now, instances.value_given (around_in around.now) (view.expr e.now)) ∷ []) }
{
    let value = known(expr(alloc, e, around))?;
    let mut own = Text::new(alloc);
    own.push_all(name)?;
    Ok(KeptValue {
        name: own,
        at: place_of(e),
        value,
    })
}

/// A name as an expression.
fn plain_name(alloc: Global, name: &Name) -> Result<Expr, NoMemory>
    ensures { IfOk result (λ e. view.expr e ≡ instances.plain_name name.now) }
{
    let name = share_name(name)?;
    Ok(Expr::Post(Root::Plain(name), Vec::new(alloc)))
}

/// The value that a connection gives by a name.
fn named_given(alloc: Global, around: &Around, name: &Name) -> Result<Option<KeptValue>, NoMemory>
    ensures { IfOk result (λ g. given_at g
        ≡ (name.now.text, instances.value_given (around_in around.now) (instances.plain_name name.now)) ∷ []) }
{
    let e = plain_name(alloc, name)?;
    let value = value_given(alloc, around, name.text.bytes(), &e)?;
    Ok(Some(value))
}

/// The value that a connection gives by an expression.
fn some_given(
    alloc: Global,
    around: &Around,
    name: &[u8],
    e: &Expr,
) -> Result<Option<KeptValue>, NoMemory>
    ensures { IfOk result (λ g. given_at g ≡ (name.now, instances.value_given (around_in around.now) (view.expr e.now)) ∷ []) }
{
    let value = value_given(alloc, around, name, e)?;
    Ok(Some(value))
}

/// The value that a connection at this place of the list gives, where it gives one.
fn given_by(
    alloc: Global,
    around: &Around,
    names: &[&[u8]],
    place: usize,
    one: &Connection,
) -> Result<Option<KeptValue>, NoMemory>
    ensures { IfOk result (λ g. given_at g
        ≡ instances.givens_from (around_in around.now) (names_in names.now) place (connection one.now ∷ [])) }
{
    match one {
        Connection::Value(e) => match names.get(place) {
            None => Ok(None),
            Some(name) => some_given(alloc, around, *name, e),
        },
        Connection::Named(_, name) => {
            let value = named_given(alloc, around, name)?;
            Ok(value)
        }
        Connection::Given { name, value, .. } => match value {
            None => Ok(None),
            Some(e) => some_given(alloc, around, name.text.bytes(), e),
        },
        Connection::All(_) => Ok(None),
    }
}

/// Appends the value that a connection gives.
fn push_given(value: Option<KeptValue>, list: &mut Seq<KeptValue>) -> Result<(), NoMemory>
    ensures { OnOk result (kept_in list.new ≡ kept_in list.old ++ given_at value) }
{
    match value {
        None => Ok(()),
        Some(value) => {
            list.push(value)?;
            Ok(())
        }
    }
}

/// The values that connections give, by the names of the parameters in order.
pub(crate) fn givens_from(
    alloc: Global,
    around: &Around,
    names: &[&[u8]],
    all: &[Connection],
) -> Result<Seq<KeptValue>, NoMemory>
    ensures { IfOk result (λ ks. kept_in ks
        ≡ instances.givens_from (around_in around.now) (names_in names.now) 0 (map connection all.now)) }
{
    let mut list = Seq::new(alloc);
    let mut left = all;
    while let [one, rest @ ..] = left {
        let place = all.len() - left.len();
        let value = given_by(alloc, around, names, place, one)?;
        push_given(value, &mut list)?;
        left = rest;
    }
    Ok(list)
}

/// The values as declarations take them.
pub(crate) fn givens_of<'a>(
    alloc: Global,
    kept: &'a [KeptValue],
) -> Result<Seq<GivenValue<'a>>, NoMemory>
    ensures { IfOk result (λ gs. givens_in gs ≡ kept_in kept.now) }
{
    let mut list = Seq::new(alloc);
    let mut left = kept;
    while let [one, rest @ ..] = left {
        list.push(GivenValue {
            name: one.name.bytes(),
            source: Source::Given(one.at, &one.value),
        })?;
        left = rest;
    }
    Ok(list)
}
