// Statements that choose what comes next (IEEE 1800-2017, 12.4 and 12.5).
ghost use Rattle.std.specs.Prelude.{◌≡◌, ◌++◌, [], drop, OnOk};
ghost use Rattle.sv_value.specs.Operators as operators;
ghost use Rattle.sv_flat.specs.Eval as eval;
ghost use Rattle.sv_flat.specs.Process.{optional_body_in};
ghost use Rattle.sv_flat.specs.Statements.{branch};
ghost use Rattle.sv_flat.specs.Statements.Shared.{goes_on, value_in};
ghost use Rattle.sv_stack.specs.Frames.{todos_of};
ghost use Rattle.sv_stack.specs.Effects.{Leaves, Does, IsKept};

use std::alloc::Global;
use sv_arena::Name;
use sv_arith::any_one;
use sv_built::Design;
use sv_eval::{Stopped, Values, value, vector_in};
use sv_flat::Expr;
use sv_stack::{Effect, Frames, pass};
use sv_value::{NoMemory, RoutineId, Sym, Val};

/// Whether a value is true.
pub fn is_true(value: &Val) -> bool
    ensures { result ≡ operators.is_true (eval.vector_in value.now) }
{
    match any_one(vector_in(value)) {
        Sym::One => true,
        Sym::Zero => false,
        Sym::X => false,
        Sym::Z => false,
    }
}

/// An empty statement.
pub fn run_null(frames: &mut Frames, design: &Design, out: &mut Vec<Effect>) -> Result<(), NoMemory>
    requires { out.old.items ≡ [] }
    ensures { OnOk result (Leaves design.now frames.new out.new.items (goes_on (drop 1 (todos_of design.now frames.old)) [])) }
{
    frames.leave_first(design)?;
    pass(frames, design, out)
}

/// A routine that may be missing comes before the others, to run in a scope.
pub fn enter_optional(
    frames: &mut Frames,
    design: &Design,
    routine: Option<RoutineId>,
    scope: Option<Name>,
) -> Result<(), NoMemory>
    ensures { OnOk result (todos_of design.now frames.new
        ≡ optional_body_in design.now routine scope ++ todos_of design.now frames.old) }
{
    let _ = design;
    match routine {
        Some(routine) => frames.enter(routine, scope),
        None => Ok(()),
    }
}

/// The branch that an `if` takes comes before the others.
fn enter_branch(
    frames: &mut Frames,
    design: &Design,
    holds: bool,
    yes: RoutineId,
    no: Option<RoutineId>,
    scope: Option<Name>,
) -> Result<(), NoMemory>
    ensures { OnOk result (todos_of design.now frames.new
        ≡ branch design.now holds yes no scope ++ todos_of design.now frames.old) }
{
    if holds {
        return frames.enter(yes, scope);
    }
    enter_optional(frames, design, no, scope)
}

/// An `if`.
pub fn run_if<V: Values>(
    frames: &mut Frames,
    alloc: Global,
    design: &Design,
    values: &V,
    out: &mut Vec<Effect>,
    condition: &Expr,
    yes: RoutineId,
    no: Option<RoutineId>,
    scope: Option<Name>,
) -> Result<(), Stopped>
    requires { out.old.items ≡ [] }
    ensures does { Does design.now result frames.new out.new.items (value_in condition.now (V.view values.now)
        (λ x. goes_on (branch design.now (operators.is_true (eval.vector_in x)) yes no scope ++ drop 1 (todos_of design.now frames.old)) [])) }
    ensures kept { IsKept result frames.old frames.new }
{
    let x = value(alloc, values, condition)?;
    frames.leave_first(design)?;
    enter_branch(frames, design, is_true(&x), yes, no, scope)?;
    pass(frames, design, out)?;
    Ok(())
}
