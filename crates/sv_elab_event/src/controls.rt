// Event controls (IEEE 1800-2017, 9.4.2): E7, E15, E25, E42.
ghost use Rattle.std.specs.Prelude.{◌≡◌, List, [], ◌∷◌, map, IfOk, IfErr};
ghost use Rattle.sv_flat.specs.declared.process.Watch.{Watch as watch_type};
ghost use Rattle.sv_tree.specs.StmtView as view;
ghost use Rattle.sv_names.specs.declared.checked.Checked.{Checked as checked};
ghost use Rattle.sv_names.specs.declared.hoisted.Hoisted.{Hoisted as hoisted};
ghost use Rattle.sv_names.specs.declared.refusal.Refusal.TheVariants.{Memory};
ghost use Rattle.sv_names.specs.Checked.{given, each, put_before};
ghost use Rattle.sv_names.specs.Events as events;
ghost use Rattle.sv_names.specs.Given.{Gives};
ghost use Rattle.sv_names.specs.Hoisted.{in_row, mapped};
ghost use Rattle.sv_names.specs.Joined.{joined};
ghost use Rattle.sv_names.specs.Views.{around_in};
ghost use Rattle.sv_elab_event.specs.Occasions as occasions;

use crate::parts::{watch_of, watch_of_name};
use std::alloc::Global;
use sv_elab_copies::copy_expr;
use sv_elab_flow::{in_event, in_row};
use sv_flat::{Edge, Expr, Form, Watch};
use sv_names::{Around, Checked, Hoisted, Refusal, and_next, judged};
use sv_tree::{EventPart, Name};
use sv_value::Seq;

// ---- forms

/// The named event of an event expression without `iff`.
fn event_of(alloc: Global, watch: &Watch) -> Result<Option<Expr>, Refusal>
    ensures ok { IfOk result (λ o. o ≡ occasions.lone_event (watch.now ∷ [])) }
    ensures err { IfErr result (λ e. e ≡ Memory) }
{
    match watch {
        Watch::On {
            expr,
            edge: Edge::Trigger,
            condition: None,
        } => {
            let event = copy_expr(alloc, expr)?;
            Ok(Some(event))
        }
        _ => Ok(None),
    }
}

/// A named event that is waited for alone.
fn lone_event(alloc: Global, watches: &[Watch]) -> Result<Option<Expr>, Refusal>
    ensures ok { IfOk result (λ o. o ≡ occasions.lone_event watches.now) }
    ensures err { IfErr result (λ e. e ≡ Memory) }
{
    match watches {
        [watch] => event_of(alloc, watch),
        _ => Ok(None),
    }
}

/// One named event alone is waited for as such.
#[tactic(auto, using(crate::proofs::EventLaws::form_is))]
fn at_form(alloc: Global, watches: Seq<Watch>) -> Result<Form, Refusal>
    ensures ok { IfOk result (λ f. f ≡ events.at_form watches) }
    ensures err { IfErr result (λ e. e ≡ Memory) }
{
    let event = lone_event(alloc, watches.as_slice())?;
    match event {
        None => Ok(Form::At { watches }),
        Some(event) => Ok(Form::AtEvent { event }),
    }
}

/// What is waited for, in a row.
fn control_form(alloc: Global, parts: Seq<Hoisted<Watch>>) -> Result<Hoisted<Form>, Refusal>
    ensures ok { IfOk result (λ f. f ≡ mapped events.at_form (in_row parts)) }
    ensures err { IfErr result (λ e. e ≡ Memory) }
{
    let row = in_row(alloc, parts)?;
    let value = at_form(alloc, row.value)?;
    Ok(Hoisted {
        hidden: row.hidden,
        calls: row.calls,
        value,
    })
}

/// The same of parts that may break rules.
fn controlled(alloc: Global, parts: Checked<Seq<Hoisted<Watch>>>) -> Result<Hoisted<Form>, Refusal>
    ensures { Gives result (given (λ ws. mapped events.at_form (in_row ws)) parts) }
{
    match parts {
        Checked::Good(parts) => {
            let form = control_form(alloc, parts)?;
            Ok(form)
        }
        Checked::Broken(f) => Err(f.refusal()),
    }
}

// ---- controls

/// Event expressions, and the next one behind them.
fn and_part(
    alloc: Global,
    list: Checked<Seq<Hoisted<Watch>>>,
    part: &EventPart,
    around: &Around,
) -> Result<Checked<Seq<Hoisted<Watch>>>, Refusal>
    ensures ok { IfOk result (λ c. (ys : checked (List (hoisted watch_type))) → joined c ys
        ≡ joined list (put_before (events.watch_of (around_in around.now) (view.event_part part.now)) ys)) }
    ensures err { IfErr result (λ e. e ≡ Memory) }
{
    let next = judged(watch_of(alloc, part, around))?;
    and_next(list, next)
}

/// Event expressions, one after another.
#[tactic(auto, using(sv_names::proofs::Joined::joined_first, sv_names::proofs::Joined::joined_last))]
fn all_parts(
    alloc: Global,
    parts: &[EventPart],
    around: &Around,
) -> Result<Checked<Seq<Hoisted<Watch>>>, Refusal>
    ensures ok { IfOk result (λ c. c ≡ each (events.watch_of (around_in around.now)) (map view.event_part parts.now)) }
    ensures err { IfErr result (λ e. e ≡ Memory) }
{
    let mut list = Checked::Good(Seq::new(alloc));
    for part in parts {
        list = and_part(alloc, list, part, around)?;
    }
    Ok(list)
}

/// `@(..)` (IEEE 1800-2017, 9.4.2). E7: a clocking block with an edge or `iff`; E15: an edge of what is no number, or an `iff` that is none;
/// E25: a call; E42: a whole array; and what its expressions break.
pub fn control(
    alloc: Global,
    parts: &[EventPart],
    around: &Around,
) -> Result<Hoisted<Form>, Refusal>
    ensures { Gives result (events.control (around_in around.now) (map view.event_part parts.now)) }
{
    let parts = all_parts(alloc, parts, &in_event(around))?;
    controlled(alloc, parts)
}

/// A name alone, in a list.
#[tactic(auto, using(crate::proofs::EventLaws::one_joined))]
fn one_name(
    alloc: Global,
    name: &Name,
    around: &Around,
) -> Result<Checked<Seq<Hoisted<Watch>>>, Refusal>
    ensures ok { IfOk result (λ c. c ≡ each (events.watch_of (around_in around.now)) (events.named_event name.now ∷ [])) }
    ensures err { IfErr result (λ e. e ≡ Memory) }
{
    let next = judged(watch_of_name(alloc, name, around))?;
    let list = and_next(Checked::Good(Seq::new(alloc)), next)?;
    Ok(list)
}

/// `@e` of a name (IEEE 1800-2017, 9.4.2 and 15.5.2). E25: it is called; E42: it is a whole array; and what it breaks as an expression.
pub fn named_control(alloc: Global, name: &Name, around: &Around) -> Result<Hoisted<Form>, Refusal>
    ensures { Gives result (events.control (around_in around.now) (events.named_event name.now ∷ [])) }
{
    let parts = one_name(alloc, name, &in_event(around))?;
    controlled(alloc, parts)
}
