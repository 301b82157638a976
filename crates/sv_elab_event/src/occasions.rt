// What event expressions stand for (IEEE 1800-2017, 9.4.2 and 14.10).
ghost use Rattle.std.specs.Prelude.{◌≡◌};
ghost use Rattle.sv_tree.specs.View as view;
ghost use Rattle.sv_names.specs.Checked.{◌▷◌, given};
ghost use Rattle.sv_names.specs.Events as events;
ghost use Rattle.sv_names.specs.Expressions as expressions;
ghost use Rattle.sv_names.specs.Given.{GivesAs};
ghost use Rattle.sv_names.specs.Views.{around_in};
ghost use Rattle.sv_elab_name.specs.Things.{thing_in};
ghost use Rattle.sv_elab_event.specs.Occasions as occasions;
ghost use Rattle.sv_elab_event.specs.Occasions.{occasion_in, is_block, is_name};

use std::alloc::Global;
use sv_elab_expr::sv_elab_thing::value_step;
use sv_elab_expr::{behind_root, expr, place_of_root};
use sv_elab_name::{Thing, judged_thing, root_thing};
use sv_names::{Around, Checked, Refusal, Typed};
use sv_tree::{Expr, Root, Suffix};
use sv_value::Place;

/// What an event expression stands for.
#[derive(Drop)]
pub(crate) enum Occasion<'a> {
    /// A value.
    Value(Typed),
    /// A clocking block.
    Block(Thing<'a>),
}

/// Whether a thing is a clocking block.
fn is_block(thing: &Thing) -> bool
    ensures { result ≡ is_block (thing_in thing.now) }
{
    match thing {
        Thing::Block { .. } => true,
        _ => false,
    }
}

/// A value that may break a rule, as an event expression.
fn of_value<'a>(value: Checked<Typed>) -> Result<Occasion<'a>, Refusal>
    ensures { GivesAs occasion_in result (given events.On_value value) }
{
    match value {
        Checked::Good(t) => Ok(Occasion::Value(t)),
        Checked::Broken(f) => Err(f.refusal()),
    }
}

/// A thing as an event expression that begins at the place: a clocking block, or a value. What the value breaks.
#[tactic(auto, using(crate::proofs::EventLaws::block_event, crate::proofs::EventLaws::value_event))]
fn of_thing<'a>(
    alloc: Global,
    place: Place,
    thing: Thing<'a>,
    around: &Around<'a>,
) -> Result<Occasion<'a>, Refusal>
    ensures { GivesAs occasion_in result (events.event_thing (around_in around.now) place (thing_in thing.entry)) }
{
    if is_block(&thing) {
        return Ok(Occasion::Block(thing));
    }
    let value = value_step(alloc, around, place, Checked::Good(thing))?;
    of_value(value)
}

/// The same of a thing that may break a rule.
fn of_name<'a>(
    alloc: Global,
    place: Place,
    thing: Checked<Thing<'a>>,
    around: &Around<'a>,
) -> Result<Occasion<'a>, Refusal>
    ensures { GivesAs occasion_in result
        (given thing_in thing.entry ▷ events.event_thing (around_in around.now) place) }
{
    match thing {
        Checked::Good(thing) => of_thing(alloc, place, thing, around),
        Checked::Broken(f) => Err(f.refusal()),
    }
}

/// A name with what follows it, as an event expression. What they break.
pub(crate) fn named_event<'a>(
    alloc: Global,
    root: &Root,
    suffixes: &[Suffix],
    around: &Around<'a>,
) -> Result<Occasion<'a>, Refusal>
    ensures { GivesAs occasion_in result
        (occasions.named_event (around_in around.now) root.now (view.suffix_list suffixes.now)) }
{
    let place = place_of_root(root);
    let thing = judged_thing(root_thing(alloc, around, root))?;
    let thing = behind_root(alloc, place, thing, suffixes, around)?;
    of_name(alloc, place, thing, around)
}

/// Whether an expression is a name with what follows it.
fn is_name(e: &Expr) -> bool
    ensures { result ≡ is_name (view.expr e.now) }
{
    match e {
        Expr::Post(_, _) => true,
        _ => false,
    }
}

/// What an expression that is no name stands for. What it breaks as an expression.
fn plain_event<'a>(alloc: Global, e: &Expr, around: &Around<'a>) -> Result<Occasion<'a>, Refusal>
    ensures { GivesAs occasion_in result (given events.On_value (expressions.expr (around_in around.now) (view.expr e.now))) }
{
    match expr(alloc, e, around) {
        Ok(t) => Ok(Occasion::Value(t)),
        Err(f) => Err(f),
    }
}

/// What an event expression stands for. What it breaks as an expression.
pub(crate) fn event_in<'a>(
    alloc: Global,
    e: &Expr,
    around: &Around<'a>,
) -> Result<Occasion<'a>, Refusal>
    ensures { GivesAs occasion_in result (events.event_in (around_in around.now) (view.expr e.now)) }
{
    if !is_name(e) {
        return plain_event(alloc, e, around);
    }
    match e {
        Expr::Post(root, suffixes) => named_event(alloc, root, suffixes, around),
        _ => unreachable!(),
    }
}
