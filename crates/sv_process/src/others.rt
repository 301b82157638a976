// Statements without an effect on what comes next (IEEE 1800-2017, 11 and 20.2).
ghost use Rattle.std.specs.Prelude.{◌≡◌, ◌∷◌, [], drop, OnOk};
ghost use Rattle.sv_flat.specs.Process.{Finish_run};
ghost use Rattle.sv_flat.specs.Statements.Shared.{goes_on, value_in};
ghost use Rattle.sv_stack.specs.Frames.{todos_of};
ghost use Rattle.sv_stack.specs.Effects.{Leaves, Does, IsKept};

use std::alloc::Global;
use sv_built::Design;
use sv_eval::{Stopped, Values, value};
use sv_flat::Expr;
use sv_stack::{Effect, Frames, pass, pass_with};
use sv_value::NoMemory;

/// An expression whose value is not used.
pub fn run_evaluate<V: Values>(
    frames: &mut Frames,
    alloc: Global,
    design: &Design,
    values: &V,
    out: &mut Vec<Effect>,
    expr: &Expr,
) -> Result<(), Stopped>
    requires { out.old.items ≡ [] }
    ensures does { Does design.now result frames.new out.new.items (value_in expr.now (V.view values.now)
        (λ _. goes_on (drop 1 (todos_of design.now frames.old)) [])) }
    ensures kept { IsKept result frames.old frames.new }
{
    let _x = value(alloc, values, expr)?;
    frames.leave_first(design)?;
    pass(frames, design, out)?;
    Ok(())
}

/// `$finish`
pub fn run_finish(
    frames: &mut Frames,
    design: &Design,
    out: &mut Vec<Effect>,
) -> Result<(), NoMemory>
    requires { out.old.items ≡ [] }
    ensures { OnOk result (Leaves design.now frames.new out.new.items (goes_on (drop 1 (todos_of design.now frames.old)) (Finish_run ∷ []))) }
{
    frames.leave_first(design)?;
    pass_with(frames, design, out, Effect::Finish)
}
