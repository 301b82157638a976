// One event expression of a control (IEEE 1800-2017, 9.4.2): E7, E15, E42.
ghost use Rattle.std.specs.Prelude.{◌≡◌, option_map};
ghost use Rattle.sv_tree.specs.StmtView as stmt_view;
ghost use Rattle.sv_tree.specs.View as view;
ghost use Rattle.sv_names.specs.declared.checked.Checked.{Checked as checked};
ghost use Rattle.sv_names.specs.Events as events;
ghost use Rattle.sv_names.specs.Given.{Gives, GivesAs};
ghost use Rattle.sv_names.specs.Views.{around_in};
ghost use Rattle.sv_elab_event.specs.Occasions as occasions;
ghost use Rattle.sv_elab_event.specs.Occasions.{occasion_in};

use crate::conditions::condition_in;
use crate::occasions::{Occasion, event_in, named_event};
use crate::watches::{block_watch, value_watch};
use std::alloc::Global;
use sv_elab_expr::place_of;
use sv_elab_name::Thing;
use sv_flat::{Expr as FlatExpr, Watch};
use sv_names::{Around, Hoisted, Refusal, first};
use sv_tree::{EdgeWord, EventPart, Expr, Name, Root};
use sv_value::Place;

/// Whether an `iff` is written.
fn has_condition(condition: &Option<Expr>) -> bool
    ensures { result ≡ events.has_condition (option_map view.expr condition.now) }
{
    match condition {
        None => false,
        Some(_) => true,
    }
}

/// What is waited for, by what an event expression stands for. E42: a whole array; E15: an edge is one of a number; E7: a clocking block has
/// neither edge nor `iff`.
fn occasion_watch(
    alloc: Global,
    word: EdgeWord,
    at: Place,
    written: &Option<Expr>,
    condition: Option<Hoisted<FlatExpr>>,
    event: Occasion,
    around: &Around,
) -> Result<Hoisted<Watch>, Refusal>
    ensures { Gives result (occasions.occasion_watch (around_in around.now) word at (option_map view.expr written.now) condition
        (occasion_in event.entry)) }
{
    match event {
        Occasion::Value(t) => value_watch(alloc, word, at, condition, t),
        Occasion::Block(thing) => match &thing {
            Thing::Block {
                path,
                at: place,
                ..
            } => block_watch(alloc, word, has_condition(written), path, *place, around),
            _ => Err(Refusal::Rule { rule: 7, at }),
        },
    }
}

/// An event expression with its `iff`; the earlier of the rules that they break.
fn watch_given(
    alloc: Global,
    word: EdgeWord,
    at: Place,
    written: &Option<Expr>,
    event: Result<Occasion, Refusal>,
    around: &Around,
) -> Result<Hoisted<Watch>, Refusal>
    ensures { (x : checked events.Event) → GivesAs occasion_in event.entry x
        → Gives result (occasions.watch_given (around_in around.now) word at (option_map view.expr written.now) x) }
{
    let condition = condition_in(alloc, written, around);
    match event {
        Ok(event) => match condition {
            Ok(condition) => { occasion_watch(alloc, word, at, written, condition, event, around) }
            Err(f) => Err(f),
        },
        Err(e) => match condition {
            Ok(_) => Err(e),
            Err(f) => Err(first(e, f)),
        },
    }
}

/// One event expression of a control. What it breaks, and its `iff`.
pub(crate) fn watch_of(
    alloc: Global,
    part: &EventPart,
    around: &Around,
) -> Result<Hoisted<Watch>, Refusal>
    ensures { Gives result (events.watch_of (around_in around.now) (stmt_view.event_part part.now)) }
{
    let event = event_in(alloc, &part.expr, around);
    let at = place_of(&part.expr);
    watch_given(alloc, part.edge, at, &part.condition, event, around)
}

/// A name alone as an event expression.
pub(crate) fn watch_of_name(
    alloc: Global,
    name: &Name,
    around: &Around,
) -> Result<Hoisted<Watch>, Refusal>
    ensures { Gives result (events.watch_of (around_in around.now) (events.named_event name.now)) }
{
    let text = name.text.share()?;
    let root = Root::Plain(Name { at: name.at, text });
    let event = named_event(alloc, &root, &[], around);
    watch_given(alloc, EdgeWord::Unwritten, name.at, &None, event, around)
}
