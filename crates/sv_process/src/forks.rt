// Forks, `wait fork` and `disable fork` (IEEE 1800-2017, 9.3.2, 9.6.1 and 9.6.3).
ghost use Rattle.std.specs.Prelude.{◌≡◌, ◌∷◌, [], Option, Some, drop, unwrap_or, OnOk};
ghost use Rattle.sv_value.specs.declared.number.ProcessId.{ProcessId};
ghost use Rattle.sv_value.specs.declared.val.Message.{Message};
ghost use Rattle.sv_flat.specs.declared.stmt.Form.TheVariants as form;
ghost use Rattle.sv_flat.specs.Micro.{Looks, run_first, place_of_step};
ghost use Rattle.sv_flat.specs.Process.{Await_children, End_descendants, no_place};
ghost use Rattle.sv_flat.specs.Statements.{spawn};
ghost use Rattle.sv_flat.specs.Statements.Shared.{goes_on};
ghost use Rattle.sv_built.specs.Positions.{stmt_at};
ghost use Rattle.sv_stack.specs.declared.frames.Frame.TheVariants as frame;
ghost use Rattle.sv_stack.specs.declared.went.Went.TheVariants.{On};
ghost use Rattle.sv_stack.specs.Frames.{todos_of, IsFirst};
ghost use Rattle.sv_stack.specs.Effects.{Leaves, effects_in, effects_of};
ghost use Rattle.sv_process.specs.Parts.{fork_run, fork_starts, site_at};

use crate::Stepped;
use crate::steps::stmt_of;
use sv_arena::Name;
use sv_assign::Scoped;
use sv_built::{Design, Entered, Position};
use sv_flat::{Declared, Form, JoinKind, Stmt};
use sv_stack::{Effect, Frame, Frames, Went, go_on, pass_with, put};
use sv_value::{NoMemory, RoutineId};

/// The children of a fork, behind other effects: at once, or behind their initializers.
#[tactic(auto, using(crate::proofs::ForkLemmas::spawned_behind, crate::proofs::ForkLemmas::started_behind))]
fn start_children(
    frames: &mut Frames,
    design: &Design,
    out: &mut Vec<Effect>,
    at: Position,
    stmt: &Stmt,
    locals: &[Declared],
    initializers: Option<RoutineId>,
    children: &[RoutineId],
    join: JoinKind,
    scope: Option<Name>,
) -> Result<(), NoMemory>
    requires at { stmt_at design.now at ≡ Some stmt.now }
    requires is { stmt.now.form ≡ form.Fork locals.now initializers children.now join }
    ensures { OnOk result (Leaves design.now frames.new out.new.items (fork_starts design.now stmt.now.at initializers children.now join scope
        (effects_in design.now out.old.items) (todos_of design.now frames.old))) }
{
    let _ = stmt;
    let _ = locals;
    let _ = children;
    let _ = join;
    match initializers {
        None => {
            put(out, Effect::Spawn { at, scope })?;
            go_on(frames, design, out)
        }
        Some(routine) => {
            let of_children = scope;
            frames.push(Frame::Children {
                at,
                scope: of_children,
            })?;
            frames.enter(routine, scope)?;
            go_on(frames, design, out)
        }
    }
}

/// A fork, with an activation where it declares variables.
#[tactic(auto, using(crate::proofs::ForkLemmas::without_variables, crate::proofs::ForkLemmas::with_variables))]
pub fn run_fork<V: Scoped>(
    frames: &mut Frames,
    design: &Design,
    values: &V,
    out: &mut Vec<Effect>,
    at: Position,
    stmt: &Stmt,
    locals: &[Declared],
    initializers: Option<RoutineId>,
    children: &[RoutineId],
    join: JoinKind,
    outer: Option<Name>,
    scope: Option<Name>,
    next: Name,
) -> Result<(), NoMemory>
    requires first { out.old.items ≡ [] }
    requires at { stmt_at design.now at ≡ Some stmt.now }
    requires is { stmt.now.form ≡ form.Fork locals.now initializers children.now join }
    ensures { OnOk result (Leaves design.now frames.new out.new.items (fork_run design.now
        (site_at stmt.now (V.view values.now) scope next (drop 1 (todos_of design.now frames.old))) outer locals.now initializers children.now join)) }
{
    let _ = values;
    let _ = scope;
    frames.leave_first(design)?;
    if locals.is_empty() {
        return start_children(
            frames,
            design,
            out,
            at,
            stmt,
            locals,
            initializers,
            children,
            join,
            outer,
        );
    }
    put(
        out,
        Effect::Enter {
            entered: Entered::Block(at),
            around: outer,
        },
    )?;
    start_children(
        frames,
        design,
        out,
        at,
        stmt,
        locals,
        initializers,
        children,
        join,
        Some(next),
    )
}

/// The children of a fork whose initializers have run.
#[tactic(auto, using(crate::proofs::ForkLemmas::spawned_here))]
fn run_children(
    frames: &mut Frames,
    design: &Design,
    out: &mut Vec<Effect>,
    at: Position,
    stmt: &Stmt,
    locals: &[Declared],
    initializers: Option<RoutineId>,
    children: &[RoutineId],
    join: JoinKind,
    scope: Option<Name>,
) -> Result<(), NoMemory>
    requires first { out.old.items ≡ [] }
    requires at { stmt_at design.now at ≡ Some stmt.now }
    requires is { stmt.now.form ≡ form.Fork locals.now initializers children.now join }
    ensures { OnOk result (Leaves design.now frames.new out.new.items (spawn children.now join scope (drop 1 (todos_of design.now frames.old)) [])) }
{
    let _ = stmt;
    let _ = locals;
    let _ = initializers;
    let _ = children;
    let _ = join;
    frames.leave_first(design)?;
    pass_with(frames, design, out, Effect::Spawn { at, scope })
}

/// The step that starts the children of the fork at a position, whose initializers have run. Memory is wanting where no fork stands there.
pub fn step_children(
    frames: &mut Frames,
    design: &Design,
    out: &mut Vec<Effect>,
    at: Position,
    scope: Option<Name>,
    stepped: &mut Stepped,
) -> Result<(), NoMemory>
    requires empty { out.old.items ≡ [] }
    requires comes { IsFirst design.now (frame.Children at scope) (todos_of design.now frames.old) }
    ensures does { OnOk result ((look : Looks) (p : ProcessId) (next : Name) (handed : Option Message)
        → run_first design.now look p next handed (todos_of design.now frames.old) ≡ effects_of design.now stepped.new.went frames.new out.new.items) }
    ensures at { OnOk result (stepped.new.at ≡ unwrap_or (place_of_step (todos_of design.now frames.old)) no_place) }
    ensures on { OnOk result (stepped.new.went ≡ On) }
{
    match stmt_of(design, at) {
        Some(stmt) => match &stmt.form {
            Form::Fork {
                locals,
                initializers,
                children,
                join,
            } => {
                let locals = locals.as_slice();
                let children = children.as_slice();
                run_children(
                    frames,
                    design,
                    out,
                    at,
                    stmt,
                    locals,
                    *initializers,
                    children,
                    *join,
                    scope,
                )?;
                *stepped = Stepped {
                    went: Went::On,
                    at: stmt.at,
                };
                Ok(())
            }
            _ => Err(NoMemory::Memory),
        },
        None => Err(NoMemory::Memory),
    }
}

/// `wait fork`
pub fn run_wait_fork(
    frames: &mut Frames,
    design: &Design,
    out: &mut Vec<Effect>,
) -> Result<(), NoMemory>
    requires { out.old.items ≡ [] }
    ensures { OnOk result (Leaves design.now frames.new out.new.items (goes_on (drop 1 (todos_of design.now frames.old)) (Await_children ∷ []))) }
{
    frames.leave_first(design)?;
    pass_with(frames, design, out, Effect::AwaitChildren)
}

/// `disable fork`
pub fn run_disable_fork(
    frames: &mut Frames,
    design: &Design,
    out: &mut Vec<Effect>,
) -> Result<(), NoMemory>
    requires { out.old.items ≡ [] }
    ensures { OnOk result (Leaves design.now frames.new out.new.items (goes_on (drop 1 (todos_of design.now frames.old)) (End_descendants ∷ []))) }
{
    frames.leave_first(design)?;
    pass_with(frames, design, out, Effect::EndDescendants)
}
