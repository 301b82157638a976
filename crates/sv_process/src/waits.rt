// Delays, event controls and `wait` (IEEE 1800-2017, 9.4).
ghost use Rattle.std.specs.Prelude.{◌≡◌, ◌∷◌, ◌+◌, ◌^◌, [], None, Some, nat_lt, if◌then◌else◌, drop, OnOk};
ghost use Rattle.std.specs.List.{AllByRecursion};
ghost use Rattle.sv_value.specs.Operators as operators;
ghost use Rattle.sv_flat.specs.declared.process.Edge.TheVariants.{Change};
ghost use Rattle.sv_flat.specs.declared.process.Watch.TheVariants.{On};
ghost use Rattle.sv_flat.specs.declared.stmt.Form.TheVariants as form;
ghost use Rattle.sv_flat.specs.Eval as eval;
ghost use Rattle.sv_flat.specs.declared.design.Parts.{Parts};
ghost use Rattle.sv_flat.specs.Process.{Suspend, Watches, Do};
ghost use Rattle.sv_flat.specs.Statements.Delays as delays;
ghost use Rattle.sv_flat.specs.Statements.Events.{frozen, frozen_watches};
ghost use Rattle.sv_flat.specs.Statements.Shared.{goes_on, waits, value_in};
ghost use Rattle.sv_built.specs.Built.{IsBuiltExpr, IsBuiltWatch};
ghost use Rattle.sv_built.specs.Positions.{stmt_at};
ghost use Rattle.sv_stack.specs.Frames.{todos_of};
ghost use Rattle.sv_stack.specs.Effects.{Leaves, Does, IsKept, effect_in};

use crate::branches::is_true;
use std::alloc::Global;
use sv_arena::Name;
use sv_built::{Design, Position, Wait};
use sv_eval::{Stopped, Values, value, vector_in};
use sv_flat::{Expr, Stmt, Watch};
use sv_stack::{Effect, Frame, Frames, pass, wait_with};
use sv_value::{Bits, FaultKind, NoMemory, Val};

const END_OF_TIME: u128 = 1 << 63;

/// The ticks of an amount.
fn ticks_of<V: Values>(values: &V, in_ticks: bool, amount: Bits) -> u128
    ensures { result ≡ delays.ticks_of in_ticks amount (V.view values.now) }
{
    let amount = u128::from(amount.amount());
    if in_ticks {
        return amount;
    }
    amount * u128::from(values.unit())
}

/// The ticks of a value.
pub fn ticks_in<V: Values>(values: &V, in_ticks: bool, amount: &Val) -> u128
    ensures { result ≡ delays.ticks_of in_ticks (eval.vector_in amount.now) (V.view values.now) }
{
    ticks_of(values, in_ticks, vector_in(amount))
}

/// The moment so many ticks after a time, up to the end of time.
pub fn moment_after(time: u64, ticks: u128) -> Option<u64>
    ensures { result ≡ (if nat_lt (time + ticks) (2 ^ 63) then Some (time + ticks) else None) }
{
    let moment = ticks.checked_add(u128::from(time))?;
    if moment < END_OF_TIME {
        Some(moment as u64)
    } else {
        None
    }
}

/// What a process does that is suspended for so many ticks.
#[tactic(auto, using(crate::proofs::WaitLemmas::no_ticks, crate::proofs::WaitLemmas::some_ticks, crate::proofs::WaitLemmas::too_many_ticks))]
pub fn delay_effect<V: Values>(values: &V, ticks: u128) -> Effect
    ensures { (d : Parts) → delays.delayed ticks (V.view values.now) ≡ effect_in d result ∷ [] }
{
    if ticks == 0 {
        return Effect::Turn;
    }
    match moment_after(values.time(), ticks) {
        Some(moment) => Effect::ResumeAt(moment),
        None => Effect::Fail(FaultKind::Time),
    }
}

/// A delay.
#[tactic(auto, using(crate::proofs::WaitLemmas::delayed_by))]
pub fn run_delay<V: Values>(
    frames: &mut Frames,
    alloc: Global,
    design: &Design,
    values: &V,
    out: &mut Vec<Effect>,
    amount: &Expr,
    in_ticks: bool,
) -> Result<(), Stopped>
    requires { out.old.items ≡ [] }
    ensures does { Does design.now result frames.new out.new.items (value_in amount.now (V.view values.now) (λ n.
        waits (drop 1 (todos_of design.now frames.old))
        (delays.delayed (delays.ticks_of in_ticks (eval.vector_in n) (V.view values.now)) (V.view values.now)))) }
    ensures kept { IsKept result frames.old frames.new }
{
    let n = value(alloc, values, amount)?;
    let effect = delay_effect(values, ticks_in(values, in_ticks, &n));
    frames.leave_first(design)?;
    wait_with(frames, design, out, effect)?;
    Ok(())
}

/// An event control.
#[tactic(auto, using(crate::proofs::WaitLemmas::as_written))]
pub fn run_at<V: Values>(
    frames: &mut Frames,
    design: &Design,
    values: &V,
    out: &mut Vec<Effect>,
    at: Position,
    stmt: &Stmt,
    watches: &[Watch],
    scope: Option<Name>,
) -> Result<(), NoMemory>
    requires first { out.old.items ≡ [] }
    requires at { stmt_at design.now at ≡ Some stmt.now }
    requires is { stmt.now.form ≡ form.At watches.now }
    requires built { AllByRecursion IsBuiltWatch watches.now }
    ensures { OnOk result (Leaves design.now frames.new out.new.items (waits (drop 1 (todos_of design.now frames.old))
        (Suspend (Watches (frozen_watches watches.now (V.view values.now)) scope) ∷ []))) }
{
    let _ = stmt;
    let _ = watches;
    let _ = values;
    frames.leave_first(design)?;
    let wait = Wait::Control(at);
    wait_with(frames, design, out, Effect::Watch { wait, scope })?;
    Ok(())
}

/// A `wait`, whose calls were made.
#[tactic(auto, using(crate::proofs::WaitLemmas::holds))]
pub fn run_wait<V: Values>(
    frames: &mut Frames,
    alloc: Global,
    design: &Design,
    values: &V,
    out: &mut Vec<Effect>,
    at: Position,
    stmt: &Stmt,
    condition: &Expr,
    outer: Option<Name>,
    scope: Option<Name>,
) -> Result<(), Stopped>
    requires first { out.old.items ≡ [] }
    requires at { stmt_at design.now at ≡ Some stmt.now }
    requires is { stmt.now.form ≡ form.Wait condition.now }
    requires built { IsBuiltExpr condition.now }
    ensures does { Does design.now result frames.new out.new.items (value_in condition.now (V.view values.now) (λ x.
        if operators.is_true (eval.vector_in x) then goes_on (drop 1 (todos_of design.now frames.old)) []
        else waits (Do stmt.now [] outer None ∷ drop 1 (todos_of design.now frames.old))
        (Suspend (Watches (On (frozen condition.now (V.view values.now)) Change None ∷ []) scope) ∷ []))) }
    ensures kept { IsKept result frames.old frames.new }
{
    let x = value(alloc, values, condition)?;
    frames.leave_first(design)?;
    if is_true(&x) {
        pass(frames, design, out)?;
        return Ok(());
    }
    frames.push(Frame::Called {
        at,
        made: stmt.calls.as_slice().len(),
        outer,
        hidden: None,
    })?;
    let wait = Wait::Condition(at);
    wait_with(frames, design, out, Effect::Watch { wait, scope })?;
    Ok(())
}
