// Loops (IEEE 1800-2017, 12.7).
ghost use Rattle.std.specs.Prelude.{◌≡◌, ◌∷◌, ◌++◌, [], None, Some, if◌then◌else◌, drop, OnOk, IfOk, unwrap_or, slice_get};
ghost use Rattle.sv_value.specs.Operators as operators;
ghost use Rattle.sv_flat.specs.declared.stmt.Form.TheVariants as form;
ghost use Rattle.sv_flat.specs.Eval as eval;
ghost use Rattle.sv_flat.specs.Process.{body_in, routine_of};
ghost use Rattle.sv_flat.specs.Statements.Loops.{turned, done_first, repeated};
ghost use Rattle.sv_flat.specs.Statements.Shared.{goes_on, value_in, count_of};
ghost use Rattle.sv_built.specs.Positions.{stmt_at};
ghost use Rattle.sv_stack.specs.Frames.{todos_of};
ghost use Rattle.sv_stack.specs.Effects.{Leaves, Does, IsKept};

use crate::branches::{enter_optional, is_true};
use std::alloc::Global;
use sv_arena::Name;
use sv_built::{Design, Position};
use sv_eval::{Stopped, Values, known_index, value, vector_in};
use sv_flat::{Expr, Form, Stmt};
use sv_stack::{Effect, Frame, Frames, pass};
use sv_value::{Bits, NoMemory, RoutineId};

/// A turn of a `while` comes before the others: its body, the step of a `for`, and the next test.
fn enter_turned(
    frames: &mut Frames,
    design: &Design,
    at: Position,
    stmt: &Stmt,
    body: RoutineId,
    step: Option<RoutineId>,
    scope: Option<Name>,
) -> Result<(), NoMemory>
    requires { stmt_at design.now at ≡ Some stmt.now }
    ensures { OnOk result (todos_of design.now frames.new ≡ turned design.now stmt.now body step scope (todos_of design.now frames.old)) }
{
    let _ = stmt;
    let of_step = scope;
    let of_body = scope;
    frames.push(Frame::Loop { at, scope })?;
    enter_optional(frames, design, step, of_step)?;
    frames.enter(body, of_body)
}

/// A turn comes before the others where the condition holds.
fn enter_while(
    frames: &mut Frames,
    design: &Design,
    at: Position,
    stmt: &Stmt,
    holds: bool,
    body: RoutineId,
    step: Option<RoutineId>,
    scope: Option<Name>,
) -> Result<(), NoMemory>
    requires { stmt_at design.now at ≡ Some stmt.now }
    ensures { OnOk result (todos_of design.now frames.new ≡ (if holds
        then turned design.now stmt.now body step scope (todos_of design.now frames.old) else todos_of design.now frames.old)) }
{
    if holds {
        return enter_turned(frames, design, at, stmt, body, step, scope);
    }
    Ok(())
}

/// A `while`, or a `for`.
pub fn run_while<V: Values>(
    frames: &mut Frames,
    alloc: Global,
    design: &Design,
    values: &V,
    out: &mut Vec<Effect>,
    at: Position,
    stmt: &Stmt,
    condition: &Expr,
    body: RoutineId,
    step: Option<RoutineId>,
    scope: Option<Name>,
) -> Result<(), Stopped>
    requires first { out.old.items ≡ [] }
    requires at { stmt_at design.now at ≡ Some stmt.now }
    ensures does { Does design.now result frames.new out.new.items (value_in condition.now (V.view values.now)
        (λ x. goes_on (if operators.is_true (eval.vector_in x)
        then turned design.now stmt.now body step scope (drop 1 (todos_of design.now frames.old)) else drop 1 (todos_of design.now frames.old)) [])) }
    ensures kept { IsKept result frames.old frames.new }
{
    let x = value(alloc, values, condition)?;
    frames.leave_first(design)?;
    enter_while(frames, design, at, stmt, is_true(&x), body, step, scope)?;
    pass(frames, design, out)?;
    Ok(())
}

/// A `forever`.
pub fn run_forever(
    frames: &mut Frames,
    design: &Design,
    out: &mut Vec<Effect>,
    at: Position,
    stmt: &Stmt,
    body: RoutineId,
    scope: Option<Name>,
) -> Result<(), NoMemory>
    requires first { out.old.items ≡ [] }
    requires at { stmt_at design.now at ≡ Some stmt.now }
    ensures { OnOk result (Leaves design.now frames.new out.new.items
        (goes_on (turned design.now stmt.now body None scope (drop 1 (todos_of design.now frames.old))) [])) }
{
    frames.leave_first(design)?;
    enter_turned(frames, design, at, stmt, body, None, scope)?;
    pass(frames, design, out)
}

/// The body of the `while` that a `do` repeats comes before the others.
fn enter_do(
    frames: &mut Frames,
    design: &Design,
    again: RoutineId,
    scope: Option<Name>,
) -> Result<(), NoMemory>
    ensures { OnOk result (todos_of design.now frames.new
        ≡ done_first design.now (slice_get (routine_of design.now again).body 0) scope (todos_of design.now frames.old)) }
{
    match design.body(again).get(0) {
        Some(stmt) => match &stmt.form {
            Form::While { body, step, .. } => {
                let at = Position {
                    routine: again,
                    place: 0,
                };
                enter_turned(frames, design, at, stmt, *body, *step, scope)
            }
            _ => Ok(()),
        },
        None => Ok(()),
    }
}

/// A `do`.
pub fn run_do(
    frames: &mut Frames,
    design: &Design,
    out: &mut Vec<Effect>,
    again: RoutineId,
    scope: Option<Name>,
) -> Result<(), NoMemory>
    requires { out.old.items ≡ [] }
    ensures { OnOk result (Leaves design.now frames.new out.new.items
        (goes_on (done_first design.now (slice_get (routine_of design.now again).body 0) scope (drop 1 (todos_of design.now frames.old))) [])) }
{
    frames.leave_first(design)?;
    enter_do(frames, design, again, scope)?;
    pass(frames, design, out)
}

// ---- `repeat`

/// One turn of a `repeat`, while turns are left.
#[tactic(auto, using(crate::proofs::LoopLemmas::no_turn, crate::proofs::LoopLemmas::one_turn))]
pub fn take_turn(
    frames: &mut Frames,
    design: &Design,
    out: &mut Vec<Effect>,
    at: Position,
    stmt: &Stmt,
    count: &Expr,
    body: RoutineId,
    left: u64,
    scope: Option<Name>,
) -> Result<(), NoMemory>
    requires first { out.old.items ≡ [] }
    requires at { stmt_at design.now at ≡ Some stmt.now }
    requires is { stmt.now.form ≡ form.Repeat count.now body }
    ensures { OnOk result (Leaves design.now frames.new out.new.items
        (repeated design.now stmt.now.at left body scope (todos_of design.now frames.old))) }
{
    let _ = stmt;
    let _ = count;
    if left == 0 {
        return pass(frames, design, out);
    }
    let of_body = scope;
    frames.push(Frame::Turns {
        at,
        left: left - 1,
        scope,
    })?;
    frames.enter(body, of_body)?;
    pass(frames, design, out)
}

/// How many turns a `repeat` makes: none where the number is unknown or negative.
#[tactic(auto, using(crate::proofs::LoopLemmas::counted, crate::proofs::LoopLemmas::unknown))]
fn count_in(value: Bits) -> Result<u64, NoMemory>
    ensures { IfOk result (λ n. n ≡ unwrap_or (count_of value) 0) }
{
    match known_index(value) {
        Some(number) => {
            if number < 0 {
                return Ok(0);
            }
            if number > 0xFFFF_FFFF_FFFF_FFFF {
                return Err(NoMemory::Memory);
            }
            Ok(number as u64)
        }
        None => Ok(0),
    }
}

/// A `repeat`.
pub fn run_repeat<V: Values>(
    frames: &mut Frames,
    alloc: Global,
    design: &Design,
    values: &V,
    out: &mut Vec<Effect>,
    at: Position,
    stmt: &Stmt,
    count: &Expr,
    body: RoutineId,
    scope: Option<Name>,
) -> Result<(), Stopped>
    requires first { out.old.items ≡ [] }
    requires at { stmt_at design.now at ≡ Some stmt.now }
    requires is { stmt.now.form ≡ form.Repeat count.now body }
    ensures does { Does design.now result frames.new out.new.items (value_in count.now (V.view values.now)
        (λ x. repeated design.now stmt.now.at (unwrap_or (count_of (eval.vector_in x)) 0) body scope (drop 1 (todos_of design.now frames.old)))) }
    ensures kept { IsKept result frames.old frames.new }
{
    let x = value(alloc, values, count)?;
    let turns = count_in(vector_in(&x))?;
    frames.leave_first(design)?;
    take_turn(frames, design, out, at, stmt, count, body, turns, scope)?;
    Ok(())
}

/// What is left of a `repeat`.
pub fn run_turns(
    frames: &mut Frames,
    design: &Design,
    out: &mut Vec<Effect>,
    at: Position,
    stmt: &Stmt,
    count: &Expr,
    body: RoutineId,
    left: u64,
    scope: Option<Name>,
) -> Result<(), NoMemory>
    requires first { out.old.items ≡ [] }
    requires at { stmt_at design.now at ≡ Some stmt.now }
    requires is { stmt.now.form ≡ form.Repeat count.now body }
    ensures { OnOk result (Leaves design.now frames.new out.new.items
        (repeated design.now stmt.now.at left body scope (drop 1 (todos_of design.now frames.old)))) }
{
    frames.leave_first(design)?;
    take_turn(frames, design, out, at, stmt, count, body, left, scope)
}
