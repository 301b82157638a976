// What a statement does, by its form (IEEE 1800-2017, 4, 6, 9, 10, 12, 13 and 21.2).
ghost use Rattle.std.specs.Prelude.{◌≡◌, [], Some, drop};
ghost use Rattle.sv_value.specs.declared.number.ProcessId.{ProcessId};
ghost use Rattle.sv_flat.specs.Statements.Jumps.{open_calls};
ghost use Rattle.sv_built.specs.Built.{IsBuiltForm};
ghost use Rattle.sv_built.specs.Positions.{stmt_at};
ghost use Rattle.sv_stack.specs.Frames.{todos_of};
ghost use Rattle.sv_stack.specs.Effects.{Does, IsKept};
ghost use Rattle.sv_process.specs.Parts.{stmt_run};

use crate::assigns::{run_assign, run_assign_after};
use crate::blocks::run_block;
use crate::branches::{run_if, run_null};
use crate::calls::{Site, run_call};
use crate::cases::run_case;
use crate::elements::run_foreach;
use crate::forks::{run_disable_fork, run_fork, run_wait_fork};
use crate::jumps::{run_break, run_continue};
use crate::later::{run_nonblocking, run_nonblocking_after};
use crate::loops::{run_do, run_forever, run_repeat, run_while};
use crate::others::{run_evaluate, run_finish};
use crate::prints::{run_print, run_strobe};
use crate::returns::{run_return, run_return_value};
use crate::waits::{run_at, run_delay, run_wait};
use std::alloc::Global;
use sv_arena::Name;
use sv_assign::Scoped;
use sv_built::{Design, Position};
use sv_eval::Stopped;
use sv_flat::{Form, PrintKind, Stmt};
use sv_stack::{Effect, Frames, Spare};

/// A statement of one of the forms that come less often. Memory is wanting for all others.
#[inline(never)]
#[tactic(auto, using(crate::proofs::FormLemmas::by_form, crate::proofs::FormLemmas::call_is))]
fn run_other_form<V: Scoped>(
    frames: &mut Frames,
    alloc: Global,
    design: &Design,
    values: &V,
    out: &mut Vec<Effect>,
    spare: &mut Spare,
    at: Position,
    stmt: &Stmt,
    outer: Option<Name>,
    scope: Option<Name>,
    next: Name,
) -> Result<(), Stopped>
    requires first { out.old.items ≡ [] }
    requires at { stmt_at design.now at ≡ Some stmt.now }
    requires built { IsBuiltForm stmt.now.form }
    requires no_end { open_calls (drop 1 (todos_of design.now frames.old)) ≡ open_calls (todos_of design.now frames.old) }
    ensures does { (p : ProcessId) → Does design.now result frames.new out.new.items
        (stmt_run design.now p next outer scope (V.view values.now) stmt.now stmt.now.form (drop 1 (todos_of design.now frames.old))) }
    ensures kept { IsKept result frames.old frames.new }
{
    match &stmt.form {
        Form::Null => {
            run_null(frames, design, out)?;
            Ok(())
        }
        Form::Block { locals, body } => {
            run_block(
                frames,
                design,
                out,
                at,
                stmt,
                locals.as_slice(),
                *body,
                outer,
                next,
            )?;
            Ok(())
        }
        Form::AssignAfter {
            targets,
            value,
            delay,
            in_ticks,
        } => run_assign_after(
            frames,
            alloc,
            design,
            values,
            out,
            at,
            stmt,
            targets.as_slice(),
            value,
            delay,
            *in_ticks,
            scope,
        ),
        Form::Nonblocking {
            targets,
            value,
            delay: Some(delay),
            in_ticks,
        } => run_nonblocking_after(
            frames,
            alloc,
            design,
            values,
            out,
            spare,
            targets.as_slice(),
            value,
            delay,
            *in_ticks,
        ),
        Form::Case {
            kind,
            subject,
            items,
            default,
        } => run_case(
            frames,
            alloc,
            design,
            values,
            out,
            *kind,
            subject,
            items.as_slice(),
            *default,
            outer,
        ),
        Form::While {
            condition,
            body,
            step,
        } => run_while(
            frames, alloc, design, values, out, at, stmt, condition, *body, *step, outer,
        ),
        Form::Do { again } => {
            run_do(frames, design, out, *again, outer)?;
            Ok(())
        }
        Form::Repeat { count, body } => run_repeat(
            frames, alloc, design, values, out, at, stmt, count, *body, outer,
        ),
        Form::Forever { body } => {
            run_forever(frames, design, out, at, stmt, *body, outer)?;
            Ok(())
        }
        Form::ForeachElement { bounds, body } => {
            run_foreach(frames, design, out, at, stmt, *bounds, *body, outer, next)?;
            Ok(())
        }
        Form::Break => {
            run_break(frames, design, out)?;
            Ok(())
        }
        Form::Continue => {
            run_continue(frames, design, out)?;
            Ok(())
        }
        Form::Return { targets, value } => match value {
            None => {
                run_return(frames, design, out)?;
                Ok(())
            }
            Some(value) => run_return_value(
                frames,
                alloc,
                design,
                values,
                out,
                targets.as_slice(),
                value,
            ),
        },
        Form::Call(call) => {
            let site = Site {
                at,
                number: None,
                outer,
                caller: scope,
                next,
            };
            run_call(frames, alloc, design, values, out, &site, stmt, call)
        }
        Form::Evaluate { value } => run_evaluate(frames, alloc, design, values, out, value),
        Form::Wait { condition } => {
            run_wait(
                frames, alloc, design, values, out, at, stmt, condition, outer, scope,
            )
        }
        Form::Fork {
            locals,
            initializers,
            children,
            join,
        } => {
            run_fork(
                frames,
                design,
                values,
                out,
                at,
                stmt,
                locals.as_slice(),
                *initializers,
                children.as_slice(),
                *join,
                outer,
                scope,
                next,
            )?;
            Ok(())
        }
        Form::WaitFork => {
            run_wait_fork(frames, design, out)?;
            Ok(())
        }
        Form::DisableFork => {
            run_disable_fork(frames, design, out)?;
            Ok(())
        }
        Form::Print {
            kind,
            pieces,
            values: exprs,
        } => match kind {
            PrintKind::Now => run_print(
                frames,
                alloc,
                design,
                values,
                out,
                pieces.as_slice(),
                exprs.as_slice(),
            ),
            PrintKind::Strobe => {
                run_strobe(
                    frames,
                    design,
                    out,
                    at,
                    stmt,
                    pieces.as_slice(),
                    exprs.as_slice(),
                )?;
                Ok(())
            }
            PrintKind::Monitor => Err(Stopped::Memory),
        },
        Form::Finish => {
            run_finish(frames, design, out)?;
            Ok(())
        }
        _ => Err(Stopped::Memory),
    }
}

/// A statement whose calls were made; its branches and bodies see `outer`. Those that come most often stand here, so that no room is cleared
/// for the others. Memory is wanting for forms that are not run.
#[tactic(auto, using(crate::proofs::FormLemmas::by_form, crate::proofs::FormLemmas::call_is))]
pub fn run_form<V: Scoped>(
    frames: &mut Frames,
    alloc: Global,
    design: &Design,
    values: &V,
    out: &mut Vec<Effect>,
    spare: &mut Spare,
    at: Position,
    stmt: &Stmt,
    outer: Option<Name>,
    scope: Option<Name>,
    next: Name,
) -> Result<(), Stopped>
    requires first { out.old.items ≡ [] }
    requires at { stmt_at design.now at ≡ Some stmt.now }
    requires built { IsBuiltForm stmt.now.form }
    requires no_end { open_calls (drop 1 (todos_of design.now frames.old)) ≡ open_calls (todos_of design.now frames.old) }
    ensures does { (p : ProcessId) → Does design.now result frames.new out.new.items
        (stmt_run design.now p next outer scope (V.view values.now) stmt.now stmt.now.form (drop 1 (todos_of design.now frames.old))) }
    ensures kept { IsKept result frames.old frames.new }
{
    match &stmt.form {
        Form::Assign { targets, value } => {
            run_assign(
                frames,
                alloc,
                design,
                values,
                out,
                targets.as_slice(),
                value,
            )
        }
        Form::Nonblocking {
            targets,
            value,
            delay: None,
            ..
        } => run_nonblocking(
            frames,
            alloc,
            design,
            values,
            out,
            spare,
            targets.as_slice(),
            value,
        ),
        Form::If { condition, yes, no } => run_if(
            frames, alloc, design, values, out, condition, *yes, *no, outer,
        ),
        Form::Delay { amount, in_ticks } => {
            run_delay(frames, alloc, design, values, out, amount, *in_ticks)
        }
        Form::At { watches } => {
            run_at(
                frames,
                design,
                values,
                out,
                at,
                stmt,
                watches.as_slice(),
                scope,
            )?;
            Ok(())
        }
        _ => run_other_form(
            frames, alloc, design, values, out, spare, at, stmt, outer, scope, next,
        ),
    }
}
