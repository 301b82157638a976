// Blocks (IEEE 1800-2017, 6.21 and 9.3.1).
ghost use Rattle.std.specs.Prelude.{◌≡◌, ◌++◌, [], Some, drop, OnOk};
ghost use Rattle.sv_flat.specs.declared.stmt.Form.TheVariants as form;
ghost use Rattle.sv_flat.specs.Process.{body_in};
ghost use Rattle.sv_flat.specs.Statements.Loops.{entered_with, inside};
ghost use Rattle.sv_flat.specs.Statements.Shared.{goes_on};
ghost use Rattle.sv_built.specs.Positions.{stmt_at};
ghost use Rattle.sv_stack.specs.Frames.{todos_of};
ghost use Rattle.sv_stack.specs.Effects.{Leaves};

use sv_arena::Name;
use sv_built::{Design, Entered, Position};
use sv_flat::{Declared, Stmt};
use sv_stack::{Effect, Frames, pass, pass_with};
use sv_value::{NoMemory, RoutineId};

/// A block, with an activation where it declares variables.
#[tactic(auto, using(crate::proofs::BlockLemmas::without_variables, crate::proofs::BlockLemmas::with_variables))]
pub fn run_block(
    frames: &mut Frames,
    design: &Design,
    out: &mut Vec<Effect>,
    at: Position,
    stmt: &Stmt,
    locals: &[Declared],
    body: RoutineId,
    scope: Option<Name>,
    next: Name,
) -> Result<(), NoMemory>
    requires first { out.old.items ≡ [] }
    requires at { stmt_at design.now at ≡ Some stmt.now }
    requires is { stmt.now.form ≡ form.Block locals.now body }
    ensures { OnOk result (Leaves design.now frames.new out.new.items
        (goes_on (body_in design.now body (inside locals.now scope next) ++ drop 1 (todos_of design.now frames.old)) (entered_with locals.now scope))) }
{
    let _ = stmt;
    frames.leave_first(design)?;
    if locals.is_empty() {
        frames.enter(body, scope)?;
        return pass(frames, design, out);
    }
    frames.enter(body, Some(next))?;
    pass_with(
        frames,
        design,
        out,
        Effect::Enter {
            entered: Entered::Block(at),
            around: scope,
        },
    )
}
