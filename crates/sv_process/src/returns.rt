// `return` (IEEE 1800-2017, 12.8).
ghost use Rattle.std.specs.Prelude.{◌≡◌, [], drop, OnOk};
ghost use Rattle.sv_flat.specs.Statements.Jumps.{after_return};
ghost use Rattle.sv_flat.specs.Statements.Shared.{computed, goes_on};
ghost use Rattle.sv_stack.specs.Frames.{todos_of};
ghost use Rattle.sv_stack.specs.Effects.{Leaves, Does, IsKept};
ghost use Rattle.sv_process.specs.Parts.{writes};

use crate::assigns::write_values;
use std::alloc::Global;
use sv_assign::{Scoped, spots_of};
use sv_built::Design;
use sv_eval::{Stopped, value};
use sv_flat::{Expr, Lvalue};
use sv_stack::{Effect, Frames, is_end, pass};
use sv_value::NoMemory;

/// Leaves all up to the end of the innermost call.
#[tactic(auto, using(crate::proofs::ReturnLemmas::returned, crate::proofs::ReturnLemmas::returned_past))]
fn leave_body(frames: &mut Frames, design: &Design) -> Result<(), NoMemory>
    ensures { OnOk result (todos_of design.now frames.new ≡ after_return (todos_of design.now frames.old)) }
{
    while let Some(frame) = frames.pop() {
        if is_end(&frame, design) {
            return frames.push(frame);
        }
    }
    Ok(())
}

/// A `return` without a value.
pub fn run_return(
    frames: &mut Frames,
    design: &Design,
    out: &mut Vec<Effect>,
) -> Result<(), NoMemory>
    requires { out.old.items ≡ [] }
    ensures { OnOk result (Leaves design.now frames.new out.new.items (goes_on (after_return (drop 1 (todos_of design.now frames.old))) [])) }
{
    frames.leave_first(design)?;
    leave_body(frames, design)?;
    pass(frames, design, out)
}

/// A `return` with the value of a function.
#[tactic(auto, using(crate::proofs::AssignLemmas::computed_is, crate::proofs::AssignLemmas::computed_no_place, crate::proofs::AssignLemmas::computed_no_value))]
pub fn run_return_value<V: Scoped>(
    frames: &mut Frames,
    alloc: Global,
    design: &Design,
    values: &V,
    out: &mut Vec<Effect>,
    targets: &[Lvalue],
    expr: &Expr,
) -> Result<(), Stopped>
    requires { out.old.items ≡ [] }
    ensures does { Does design.now result frames.new out.new.items (computed targets.now expr.now (V.view values.now)
        (λ ss x. writes (after_return (drop 1 (todos_of design.now frames.old))) targets.now ss x)) }
    ensures kept { IsKept result frames.old frames.new }
{
    let places = spots_of(alloc, targets, values)?;
    let x = value(alloc, values, expr)?;
    frames.leave_first(design)?;
    leave_body(frames, design)?;
    write_values(frames, alloc, design, out, targets, places, x)?;
    Ok(())
}
