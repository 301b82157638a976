// Assignments, delays, event controls, and the last part of a `for` (IEEE 1800-2017, 9.4, 10.4 and 12.7.1).
ghost use Rattle.std.specs.Prelude.{◌≡◌, option_map, IfOk, OnOk};
ghost use Rattle.sv_tree.specs.StmtView as view;
ghost use Rattle.sv_tree.specs.View as tree_view;
ghost use Rattle.sv_names.specs.Checked.{given};
ghost use Rattle.sv_names.specs.Expressions as expressions;
ghost use Rattle.sv_names.specs.Targets.{type_of_target};
ghost use Rattle.sv_names.specs.Writers as writers;
ghost use Rattle.sv_names.specs.declared.typed.How.TheVariants as how;
ghost use Rattle.sv_names.specs.Views.{around_in};
ghost use Rattle.sv_elab_touch.specs.Touched.{Touched};
ghost use Rattle.sv_elab_act.specs.Acts as acts;

use crate::inits::{add_init, add_optional};
use std::alloc::Global;
use sv_elab_select::{Spot, type_of_target};
use sv_elab_touch::{add_expr, add_lval};
use sv_elab_write::target_of;
use sv_elab_writers::Touch;
use sv_names::{Around, Checked, How, Ty};
use sv_tree::{
    BlockingAssignment, Delay, Event, EventPart, Expr, ForStep, Init, Lval, NonblockingAssignment,
    OperatorAssignment,
};
use sv_value::{NoMemory, Seq};

// ---- what waits

/// Appends what a delay that may be left out writes and calls.
#[tactic(auto, using(sv_elab_touch::proofs::TouchedLaws::touched_none))]
fn add_delay(
    alloc: Global,
    delay: &Option<Delay>,
    around: &Around,
    touches: &mut Seq<Touch>,
) -> Result<(), NoMemory>
    ensures { OnOk result (Touched touches.old touches.new
        (writers.delay_touches (around_in around.now) (option_map view.delay delay.now))) }
{
    match delay {
        None => Ok(()),
        Some(delay) => add_expr(alloc, &delay.amount, around, touches),
    }
}

/// Appends what a part of an event control writes and calls.
#[tactic(auto, using(sv_elab_touch::proofs::TouchedLaws::touched_both))]
fn add_event_part(
    alloc: Global,
    part: &EventPart,
    around: &Around,
    touches: &mut Seq<Touch>,
) -> Result<(), NoMemory>
    ensures { OnOk result (Touched touches.old touches.new
        (acts.event_part_touches (around_in around.now) (view.event_part part.now))) }
{
    add_expr(alloc, &part.expr, around, touches)?;
    add_optional(alloc, &part.condition, around, touches)
}

/// Appends what the parts of an event control write and call.
#[tactic(auto, using(sv_elab_touch::proofs::TouchedLaws::turn_touched, sv_elab_touch::proofs::TouchedLaws::all_touched))]
fn add_event_parts(
    alloc: Global,
    parts: &[EventPart],
    around: &Around,
    touches: &mut Seq<Touch>,
) -> Result<(), NoMemory>
    ensures { OnOk result (Touched touches.old touches.new
        (acts.event_parts_touches (around_in around.now) parts.now)) }
{
    let mut left = parts;
    while let [part, rest @ ..] = left {
        add_event_part(alloc, part, around, touches)?;
        left = rest;
    }
    Ok(())
}

/// Appends what an event control writes and calls.
#[tactic(auto, using(sv_elab_touch::proofs::TouchedLaws::touched_none))]
pub(crate) fn add_event(
    alloc: Global,
    event: &Event,
    around: &Around,
    touches: &mut Seq<Touch>,
) -> Result<(), NoMemory>
    ensures { OnOk result (Touched touches.old touches.new
        (writers.event_touches (around_in around.now) (view.event event.now))) }
{
    match event {
        Event::Named(_) => Ok(()),
        Event::Star => Ok(()),
        Event::Parts(parts) => add_event_parts(alloc, parts.as_slice(), around, touches),
    }
}

// ---- assignments

/// The type of the whole of a target.
fn type_of_spots(alloc: Global, spots: &Checked<Seq<Spot>>) -> Result<Checked<Ty>, NoMemory>
    ensures { IfOk result (λ t. t ≡ given type_of_target spots.now) }
{
    match spots {
        Checked::Good(spots) => match type_of_target(alloc, spots.as_slice()) {
            Ok(ty) => Ok(Checked::Good(ty)),
            Err(_) => Err(NoMemory::Memory),
        },
        Checked::Broken(f) => Ok(Checked::Broken(*f)),
    }
}

/// The type that is assigned to.
fn target_type(alloc: Global, target: &Lval, around: &Around) -> Result<Checked<Ty>, NoMemory>
    ensures { IfOk result (λ t. t
        ≡ given type_of_target (expressions.target how.Statement (around_in around.now) (view.lval target.now))) }
{
    match target_of(alloc, How::Statement, target, around) {
        Ok(spots) => type_of_spots(alloc, &spots),
        Err(_) => Err(NoMemory::Memory),
    }
}

/// Appends what is given to a target. Its type is asked for only where the value is made for it.
fn add_given(
    alloc: Global,
    target: &Lval,
    init: &Init,
    around: &Around,
    touches: &mut Seq<Touch>,
) -> Result<(), NoMemory>
    ensures { OnOk result (Touched touches.old touches.new (acts.given_touches (around_in around.now) (view.lval target.now) (view.init init.now))) }
{
    match init {
        Init::New(_, _) => {
            let ty = target_type(alloc, target, around)?;
            add_init(alloc, &ty, init, around, touches)
        }
        Init::Value(_) | Init::Copy(_, _) | Init::Array { .. } => {
            add_init(alloc, &Checked::Good(Ty::Nothing), init, around, touches)
        }
    }
}

/// Appends what a blocking assignment writes and calls.
#[tactic(auto, using(sv_elab_touch::proofs::TouchedLaws::touched_both))]
pub(crate) fn add_blocking(
    alloc: Global,
    a: &BlockingAssignment,
    around: &Around,
    touches: &mut Seq<Touch>,
) -> Result<(), NoMemory>
    ensures { OnOk result (Touched touches.old touches.new
        (acts.blocking_touches (around_in around.now) (view.blocking a.now))) }
{
    add_lval(alloc, How::Statement, &a.target, around, touches)?;
    add_delay(alloc, &a.delay, around, touches)?;
    add_given(alloc, &a.target, &a.value, around, touches)
}

/// Appends what a nonblocking assignment writes and calls.
#[tactic(auto, using(sv_elab_touch::proofs::TouchedLaws::touched_both))]
pub(crate) fn add_nonblocking(
    alloc: Global,
    a: &NonblockingAssignment,
    around: &Around,
    touches: &mut Seq<Touch>,
) -> Result<(), NoMemory>
    ensures { OnOk result (Touched touches.old touches.new
        (acts.nonblocking_touches (around_in around.now) (view.nonblocking a.now))) }
{
    add_lval(alloc, How::Nonblocking, &a.target, around, touches)?;
    add_delay(alloc, &a.delay, around, touches)?;
    add_expr(alloc, &a.value, around, touches)
}

/// Appends what an assignment of a value writes and calls.
#[tactic(auto, using(sv_elab_touch::proofs::TouchedLaws::touched_both))]
pub(crate) fn add_assigned(
    alloc: Global,
    target: &Lval,
    value: &Expr,
    around: &Around,
    touches: &mut Seq<Touch>,
) -> Result<(), NoMemory>
    ensures { OnOk result (Touched touches.old touches.new
        (acts.assigned_touches (around_in around.now) (view.lval target.now) (tree_view.expr value.now))) }
{
    add_lval(alloc, How::Statement, target, around, touches)?;
    add_expr(alloc, value, around, touches)
}

/// Appends what an assignment with an operator writes and calls.
pub(crate) fn add_operated(
    alloc: Global,
    a: &OperatorAssignment,
    around: &Around,
    touches: &mut Seq<Touch>,
) -> Result<(), NoMemory>
    ensures { OnOk result (Touched touches.old touches.new
        (acts.operated_touches (around_in around.now) (view.operator a.now))) }
{
    add_assigned(alloc, &a.target, &a.value, around, touches)
}

/// Appends what the last part of a `for` writes and calls.
pub(crate) fn add_step(
    alloc: Global,
    step: &ForStep,
    around: &Around,
    touches: &mut Seq<Touch>,
) -> Result<(), NoMemory>
    ensures { OnOk result (Touched touches.old touches.new
        (writers.step_touches (around_in around.now) (view.for_step step.now))) }
{
    match step {
        ForStep::Assign(target, value) => add_assigned(alloc, target, value, around, touches),
        ForStep::Operator(a) => add_operated(alloc, a, around, touches),
        ForStep::Step { target, .. } => add_lval(alloc, How::Statement, target, around, touches),
    }
}
