// Whether a change fires what a process waits for (IEEE 1800-2017, 9.4.2, 9.4.3, 9.2.2.2 and 10.3).
ghost use Rattle.std.specs.Prelude.{◌≡◌, IfOk};
ghost use Rattle.std.specs.List.{AllByRecursion};
ghost use Rattle.sv_value.specs.Operators as operators;
ghost use Rattle.sv_flat.specs.Eval as eval;
ghost use Rattle.sv_flat.specs.Eval.{Valued};
ghost use Rattle.sv_flat.specs.Woken as woken;
ghost use Rattle.sv_flat.specs.Woken.{Changed};
ghost use Rattle.sv_built.specs.Built.{IsBuilt, IsBuiltExpr, IsBuiltWatch};
ghost use Rattle.sv_built.specs.Waits.{control_of, condition_of, watches_at};
ghost use Rattle.sv_eval.specs.Evaluates.{Evaluates};

use crate::edges::{both_make, makes_none};
use std::alloc::Global;
use sv_arith::any_one;
use sv_built::{Design, Wait};
use sv_eval::{Stopped, Values, value, vector_in};
use sv_flat::{Edge, Expr, Form, Watch};
use sv_value::{NoMemory, Sym, Val};

// ---- event expressions

/// Whether a change fires an edge of an expression. What was before is asked only where that can tell.
fn fired<V: Values, W: Values>(
    alloc: Global,
    edge: Edge,
    expr: &Expr,
    old: &V,
    new: &W,
) -> Result<bool, NoMemory>
    requires { IsBuiltExpr expr.now }
    ensures { IfOk result (λ b. b ≡ woken.fired edge expr.now Changed (V.view old.now) (W.view new.now)) }
{
    let after = value(alloc, new, expr);
    if makes_none(edge, &after) {
        return Ok(false);
    }
    let before = value(alloc, old, expr);
    both_make(edge, &before, &after)
}

/// Whether a value is true.
fn is_true(value: &Val) -> bool
    ensures { result ≡ operators.is_true (eval.vector_in value.now) }
{
    match any_one(vector_in(value)) {
        Sym::One => true,
        Sym::Zero => false,
        Sym::X => false,
        Sym::Z => false,
    }
}

/// Whether a condition holds, whose value is this one: a fault does not.
fn holds(value: &Result<Val, Stopped>) -> Result<bool, NoMemory>
    ensures { (t : Valued) → Evaluates value.now t → IfOk result (λ b. b ≡ woken.holds t) }
{
    match value {
        Ok(value) => Ok(is_true(value)),
        Err(Stopped::Fault(_)) => Ok(false),
        Err(Stopped::Memory) => Err(NoMemory::Memory),
    }
}

/// Whether an `iff` lets an event expression fire (IEEE 1800-2017, 9.4.2.3).
fn allowed<W: Values>(alloc: Global, condition: &Option<Expr>, new: &W) -> Result<bool, NoMemory>
    ensures { IfOk result (λ b. b ≡ woken.allowed condition.now (W.view new.now)) }
{
    match condition {
        None => Ok(true),
        Some(condition) => {
            let value = value(alloc, new, condition);
            holds(&value)
        }
    }
}

/// Whether a change fires an event expression.
fn watch_fires<V: Values, W: Values>(
    alloc: Global,
    watch: &Watch,
    old: &V,
    new: &W,
) -> Result<bool, NoMemory>
    requires { IsBuiltWatch watch.now }
    ensures { IfOk result (λ b. b ≡ woken.watch_fires watch.now Changed (V.view old.now) (W.view new.now)) }
{
    match watch {
        Watch::On {
            expr,
            edge,
            condition,
        } => {
            if fired(alloc, *edge, expr, old, new)? {
                return allowed(alloc, condition, new);
            }
            Ok(false)
        }
        Watch::Updates(_, _) => Ok(false),
    }
}

/// Whether a change fires one of these.
fn some_fires<V: Values, W: Values>(
    alloc: Global,
    watches: &[Watch],
    old: &V,
    new: &W,
) -> Result<bool, NoMemory>
    requires { AllByRecursion IsBuiltWatch watches.now }
    ensures { IfOk result (λ b. b ≡ woken.some_fires watches.now Changed (V.view old.now) (W.view new.now)) }
{
    for watch in watches {
        if watch_fires(alloc, watch, old, new)? {
            return Ok(true);
        }
    }
    Ok(false)
}

// ---- what is waited for

/// Whether a change fires an event control.
fn control_fires<V: Values, W: Values>(
    alloc: Global,
    form: &Form,
    old: &V,
    new: &W,
) -> Result<bool, NoMemory>
    requires { AllByRecursion IsBuiltWatch (control_of form.now) }
    ensures { IfOk result (λ b. b ≡ woken.some_fires (control_of form.now) Changed (V.view old.now) (W.view new.now)) }
{
    match form {
        Form::At { watches } => some_fires(alloc, watches.as_slice(), old, new),
        _ => Ok(false),
    }
}

/// Whether a change is one of the condition of a `wait`.
#[tactic(auto, using(crate::proofs::FireLaws::only_change))]
fn condition_fires<V: Values, W: Values>(
    alloc: Global,
    form: &Form,
    old: &V,
    new: &W,
) -> Result<bool, NoMemory>
    requires { AllByRecursion IsBuiltWatch (condition_of form.now) }
    ensures { IfOk result (λ b. b ≡ woken.some_fires (condition_of form.now) Changed (V.view old.now) (W.view new.now)) }
{
    match form {
        Form::Wait { condition } => fired(alloc, Edge::Change, condition, old, new),
        _ => Ok(false),
    }
}

/// Whether a change fires what is waited for. A fault in an evaluation fires nothing.
#[tactic(auto, using(crate::proofs::BuiltLaws::control_built, crate::proofs::BuiltLaws::condition_built, crate::proofs::BuiltLaws::watched_built))]
pub(crate) fn wait_fires<V: Values, W: Values>(
    alloc: Global,
    design: &Design,
    wait: Wait,
    old: &V,
    new: &W,
) -> Result<bool, NoMemory>
    requires { IsBuilt design.now }
    ensures { IfOk result (λ b. b ≡ woken.some_fires (watches_at design.now wait) Changed (V.view old.now) (W.view new.now)) }
{
    match wait {
        Wait::Control(at) => match design.body(at.routine).get(at.place) {
            Some(stmt) => control_fires(alloc, &stmt.form, old, new),
            None => Ok(false),
        },
        Wait::Condition(at) => match design.body(at.routine).get(at.place) {
            Some(stmt) => condition_fires(alloc, &stmt.form, old, new),
            None => Ok(false),
        },
        Wait::Watched(process) => match design.processes().get(process.0 as usize) {
            Some(process) => some_fires(alloc, process.watched.as_slice(), old, new),
            None => Ok(false),
        },
    }
}
