// `break` and `continue` (IEEE 1800-2017, 12.8).
ghost use Rattle.std.specs.Prelude.{◌≡◌, ◌++◌, [], drop, OnOk};
ghost use Rattle.sv_flat.specs.Process.{optional_body_in};
ghost use Rattle.sv_flat.specs.Statements.Jumps.{after_break, after_continue};
ghost use Rattle.sv_flat.specs.Statements.Shared.{goes_on};
ghost use Rattle.sv_built.specs.Positions.{stmt_at};
ghost use Rattle.sv_stack.specs.Frames.{todos_in, todos_of, scope_in, is_turn, step_in, step_at};
ghost use Rattle.sv_stack.specs.Effects.{Leaves};

use crate::branches::enter_optional;
use sv_built::{Design, Position};
use sv_flat::Form;
use sv_stack::{Effect, Frame, Frames, is_repeat, is_stmt, pass, scope_in};
use sv_value::{NoMemory, RoutineId};

/// Whether an entry is that of a loop.
fn is_turn(frame: &Frame, design: &Design) -> bool
    ensures { result ≡ is_turn design.now frame.now }
{
    match frame {
        Frame::Rest { .. } => false,
        Frame::Loop { at, .. } => is_stmt(design, *at),
        Frame::Turns { at, .. } => is_repeat(design, *at),
        Frame::Elements { at, .. } => is_stmt(design, *at),
        Frame::Put { .. } => false,
        Frame::Children { .. } => false,
        Frame::Called { .. } => false,
        Frame::Leave { .. } => false,
    }
}

/// What a `for` does after its body.
fn step_of(frame: &Frame, design: &Design) -> Option<RoutineId>
    ensures { result ≡ step_in design.now frame.now }
{
    match frame {
        Frame::Rest { .. } => None,
        Frame::Loop { at, .. } => step_of_loop(design, *at),
        Frame::Turns { .. } => None,
        Frame::Elements { .. } => None,
        Frame::Put { .. } => None,
        Frame::Children { .. } => None,
        Frame::Called { .. } => None,
        Frame::Leave { .. } => None,
    }
}

/// What the loop at a position does after its body.
fn step_of_loop(design: &Design, at: Position) -> Option<RoutineId>
    ensures { result ≡ step_at (stmt_at design.now at) }
{
    match design.body(at.routine).get(at.place) {
        Some(stmt) => match &stmt.form {
            Form::While { step, .. } => *step,
            _ => None,
        },
        None => None,
    }
}

/// Leaves all up to the nearest loop, and that loop too.
#[tactic(auto, using(crate::proofs::JumpLemmas::broken, crate::proofs::JumpLemmas::broken_past))]
fn leave_loop(frames: &mut Frames, design: &Design)
    ensures { todos_of design.now frames.new ≡ after_break (todos_of design.now frames.old) }
{
    while let Some(frame) = frames.pop() {
        if is_turn(&frame, design) {
            return;
        }
    }
}

/// A `break`.
pub fn run_break(
    frames: &mut Frames,
    design: &Design,
    out: &mut Vec<Effect>,
) -> Result<(), NoMemory>
    requires { out.old.items ≡ [] }
    ensures { OnOk result (Leaves design.now frames.new out.new.items (goes_on (after_break (drop 1 (todos_of design.now frames.old))) [])) }
{
    frames.leave_first(design)?;
    leave_loop(frames, design);
    pass(frames, design, out)
}

/// The nearest loop goes on with the step of a `for`, and its next turn.
fn turn_again(frames: &mut Frames, design: &Design, frame: Frame) -> Result<(), NoMemory>
    ensures { OnOk result (todos_of design.now frames.new
        ≡ optional_body_in design.now (step_in design.now frame) (scope_in frame) ++ (todos_in design.now frame ++ todos_of design.now frames.old)) }
{
    let step = step_of(&frame, design);
    let scope = scope_in(&frame);
    frames.push(frame)?;
    enter_optional(frames, design, step, scope)
}

/// Leaves all up to the nearest loop, which goes on.
#[tactic(auto, using(crate::proofs::JumpLemmas::continued, crate::proofs::JumpLemmas::continued_past))]
fn leave_turn(frames: &mut Frames, design: &Design) -> Result<(), NoMemory>
    ensures { OnOk result (todos_of design.now frames.new ≡ after_continue design.now (todos_of design.now frames.old)) }
{
    while let Some(frame) = frames.pop() {
        if is_turn(&frame, design) {
            return turn_again(frames, design, frame);
        }
    }
    Ok(())
}

/// A `continue`.
pub fn run_continue(
    frames: &mut Frames,
    design: &Design,
    out: &mut Vec<Effect>,
) -> Result<(), NoMemory>
    requires { out.old.items ≡ [] }
    ensures { OnOk result (Leaves design.now frames.new out.new.items
        (goes_on (after_continue design.now (drop 1 (todos_of design.now frames.old))) [])) }
{
    frames.leave_first(design)?;
    leave_turn(frames, design)?;
    pass(frames, design, out)
}
