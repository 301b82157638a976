// Assignments (IEEE 1800-2017, 10.4).
ghost use Rattle.std.specs.Prelude.{◌≡◌, ◌<◌, ◌∷◌, ◌++◌, [], Some, true, false, OnOk, length, drop};
ghost use Rattle.sv_flat.specs.declared.design.Parts.{Parts};
ghost use Rattle.sv_flat.specs.declared.stmt.Form.TheVariants as form;
ghost use Rattle.sv_flat.specs.Eval as eval;
ghost use Rattle.sv_flat.specs.Process.{Put};
ghost use Rattle.sv_flat.specs.Statements.Delays as delays;
ghost use Rattle.sv_flat.specs.Statements.Shared.{from_result, value_in, computed, waits, written, updates_for};
ghost use Rattle.sv_flat.specs.Targets as defined;
ghost use Rattle.sv_assign.specs.Places.{spot_in, spots_in};
ghost use Rattle.sv_built.specs.Positions.{stmt_at};
ghost use Rattle.sv_stack.specs.Frames.{todos_of};
ghost use Rattle.sv_stack.specs.Effects.{Leaves, Does, IsKept, effects_in};
ghost use Rattle.sv_process.specs.Parts.{writes};

use crate::waits::{delay_effect, ticks_in};
use std::alloc::Global;
use sv_arena::Name;
use sv_assign::{Scoped, Spot, spot_of, spots_of, target_value, target_values};
use sv_built::{Design, Position};
use sv_eval::{Stopped, Values, value};
use sv_flat::{Expr, Lvalue, Stmt};
use sv_stack::{Effect, Frame, Frames, go_on, put, wait_with};
use sv_value::{NoMemory, Val};

// ---- writes

/// The write of the first place.
#[tactic(auto, using(crate::proofs::AssignLemmas::first_written))]
fn write_first(
    out: &mut Vec<Effect>,
    places: &mut Vec<Spot>,
    values: &mut Vec<Val>,
) -> Result<(), NoMemory>
    requires places { 0 < length places.old.items }
    requires values { 0 < length values.old.items }
    ensures wrote { OnOk result ((d : Parts) → effects_in d out.new.items ++ written (spots_in places.new.items) values.new.items
        ≡ effects_in d out.old.items ++ written (spots_in places.old.items) values.old.items) }
    ensures fewer { length places.new.items < length places.old.items }
{
    let spot = places.remove(0);
    let value = values.remove(0);
    put(out, Effect::Write { spot, value })?;
    Ok(())
}

/// Whether a place and a value are left.
#[tactic(auto, using(crate::proofs::AssignLemmas::without_places, crate::proofs::AssignLemmas::without_values))]
fn has_both(places: &Vec<Spot>, values: &Vec<Val>) -> bool
    ensures places { result ≡ true → 0 < length places.now.items }
    ensures values { result ≡ true → 0 < length values.now.items }
    ensures none { result ≡ false → written (spots_in places.now.items) values.now.items ≡ [] }
{
    if places.is_empty() {
        return false;
    }
    if values.is_empty() {
        return false;
    }
    true
}

/// The writes of values, from the left.
pub fn write_all(out: &mut Vec<Effect>, places: Vec<Spot>, values: Vec<Val>) -> Result<(), NoMemory>
    ensures { OnOk result ((d : Parts) → effects_in d out.new.items
        ≡ effects_in d out.old.items ++ written (spots_in places.items) values.items) }
{
    let mut places = places;
    let mut values = values;
    while has_both(&places, &values) {
        write_first(out, &mut places, &mut values)?;
    }
    Ok(())
}

/// The writes of an assignment, and the process runs on.
#[tactic(auto, using(crate::proofs::AssignLemmas::wrote_all))]
pub fn write_values(
    frames: &mut Frames,
    alloc: Global,
    design: &Design,
    out: &mut Vec<Effect>,
    targets: &[Lvalue],
    places: Vec<Spot>,
    value: Val,
) -> Result<(), NoMemory>
    requires { out.old.items ≡ [] }
    ensures { OnOk result (Leaves design.now frames.new out.new.items
        (writes (todos_of design.now frames.old) targets.now (spots_in places.items) value)) }
{
    let values = target_values(alloc, targets, value)?;
    write_all(out, places, values)?;
    go_on(frames, design, out)?;
    Ok(())
}

/// The write of an assignment to one target, and the process runs on.
#[tactic(auto, using(crate::proofs::AssignLemmas::wrote_one))]
fn write_value(
    frames: &mut Frames,
    design: &Design,
    out: &mut Vec<Effect>,
    target: &Lvalue,
    place: Spot,
    value: Val,
) -> Result<(), NoMemory>
    requires { out.old.items ≡ [] }
    ensures { OnOk result (Leaves design.now frames.new out.new.items
        (writes (todos_of design.now frames.old) (target.now ∷ []) (spot_in place ∷ []) value)) }
{
    let value = target_value(target, value)?;
    put(out, Effect::Write { spot: place, value })?;
    go_on(frames, design, out)?;
    Ok(())
}

// ---- `a = e`

/// An assignment to one target.
#[tactic(auto, using(crate::proofs::AssignLemmas::one_place, crate::proofs::AssignLemmas::no_place, crate::proofs::AssignLemmas::computed_is, crate::proofs::AssignLemmas::computed_no_place, crate::proofs::AssignLemmas::computed_no_value))]
fn assign_one<V: Scoped>(
    frames: &mut Frames,
    alloc: Global,
    design: &Design,
    values: &V,
    out: &mut Vec<Effect>,
    target: &Lvalue,
    expr: &Expr,
) -> Result<(), Stopped>
    requires { out.old.items ≡ [] }
    ensures does { Does design.now result frames.new out.new.items (computed (target.now ∷ []) expr.now (V.view values.now)
        (λ ss x. writes (drop 1 (todos_of design.now frames.old)) (target.now ∷ []) ss x)) }
    ensures kept { IsKept result frames.old frames.new }
{
    let place = spot_of(alloc, target, values)?;
    let x = value(alloc, values, expr)?;
    frames.leave_first(design)?;
    write_value(frames, design, out, target, place, x)?;
    Ok(())
}

/// An assignment to any number of targets.
#[tactic(auto, using(crate::proofs::AssignLemmas::computed_is, crate::proofs::AssignLemmas::computed_no_place, crate::proofs::AssignLemmas::computed_no_value))]
fn assign_all<V: Scoped>(
    frames: &mut Frames,
    alloc: Global,
    design: &Design,
    values: &V,
    out: &mut Vec<Effect>,
    targets: &[Lvalue],
    expr: &Expr,
) -> Result<(), Stopped>
    requires { out.old.items ≡ [] }
    ensures does { Does design.now result frames.new out.new.items (computed targets.now expr.now (V.view values.now)
        (λ ss x. writes (drop 1 (todos_of design.now frames.old)) targets.now ss x)) }
    ensures kept { IsKept result frames.old frames.new }
{
    let places = spots_of(alloc, targets, values)?;
    let x = value(alloc, values, expr)?;
    frames.leave_first(design)?;
    write_values(frames, alloc, design, out, targets, places, x)?;
    Ok(())
}

/// An assignment.
pub fn run_assign<V: Scoped>(
    frames: &mut Frames,
    alloc: Global,
    design: &Design,
    values: &V,
    out: &mut Vec<Effect>,
    targets: &[Lvalue],
    expr: &Expr,
) -> Result<(), Stopped>
    requires { out.old.items ≡ [] }
    ensures does { Does design.now result frames.new out.new.items (computed targets.now expr.now (V.view values.now)
        (λ ss x. writes (drop 1 (todos_of design.now frames.old)) targets.now ss x)) }
    ensures kept { IsKept result frames.old frames.new }
{
    match targets {
        [target] => assign_one(frames, alloc, design, values, out, target, expr),
        _ => assign_all(frames, alloc, design, values, out, targets, expr),
    }
}

// ---- `a = #d e`

/// An assignment whose value waits.
#[tactic(auto, using(crate::proofs::AssignLemmas::put_off))]
pub fn run_assign_after<V: Values>(
    frames: &mut Frames,
    alloc: Global,
    design: &Design,
    values: &V,
    out: &mut Vec<Effect>,
    at: Position,
    stmt: &Stmt,
    targets: &[Lvalue],
    expr: &Expr,
    delay: &Expr,
    in_ticks: bool,
    scope: Option<Name>,
) -> Result<(), Stopped>
    requires first { out.old.items ≡ [] }
    requires at { stmt_at design.now at ≡ Some stmt.now }
    requires is { stmt.now.form ≡ form.AssignAfter targets.now expr.now delay.now in_ticks }
    ensures does { Does design.now result frames.new out.new.items (value_in delay.now (V.view values.now) (λ n.
        value_in expr.now (V.view values.now) (λ x. waits (Put stmt.now.at targets.now x scope ∷ drop 1 (todos_of design.now frames.old))
        (delays.delayed (delays.ticks_of in_ticks (eval.vector_in n) (V.view values.now)) (V.view values.now))))) }
    ensures kept { IsKept result frames.old frames.new }
{
    let _ = stmt;
    let _ = targets;
    let n = value(alloc, values, delay)?;
    let x = value(alloc, values, expr)?;
    let effect = delay_effect(values, ticks_in(values, in_ticks, &n));
    frames.leave_first(design)?;
    frames.push(Frame::Put {
        at,
        value: x,
        scope,
    })?;
    wait_with(frames, design, out, effect)?;
    Ok(())
}

/// What is left of it.
#[tactic(auto, using(crate::proofs::AssignLemmas::put_is, crate::proofs::AssignLemmas::put_no_place))]
pub fn run_put<V: Scoped>(
    frames: &mut Frames,
    alloc: Global,
    design: &Design,
    values: &V,
    out: &mut Vec<Effect>,
    targets: &[Lvalue],
    value: Val,
) -> Result<(), Stopped>
    requires { out.old.items ≡ [] }
    ensures does { Does design.now result frames.new out.new.items (from_result (defined.spots_of targets.now (V.view values.now))
        (λ ss. writes (drop 1 (todos_of design.now frames.old)) targets.now ss value)) }
    ensures kept { IsKept result frames.old frames.new }
{
    let places = spots_of(alloc, targets, values)?;
    frames.leave_first(design)?;
    write_values(frames, alloc, design, out, targets, places, value)?;
    Ok(())
}
