// `for` over its parts (IEEE 1800-2017, 12.7.1).
ghost use Rattle.std.specs.Prelude.{List};
ghost use Rattle.sv_flat.specs.declared.class.Routine.{Routine as routine};
ghost use Rattle.sv_flat.specs.declared.object.Object.{Object as object};
ghost use Rattle.sv_flat.specs.declared.stmt.Form.{Form as form_of};
ghost use Rattle.sv_flat.specs.Expr as flat;
ghost use Rattle.sv_names.specs.declared.checked.Checked.{Checked as checked};
ghost use Rattle.sv_names.specs.declared.hoisted.Hoisted.{Hoisted as hoisted};
ghost use Rattle.sv_names.specs.Checked.{both, given};
ghost use Rattle.sv_names.specs.Code as code;
ghost use Rattle.sv_names.specs.Emits.{Emits};
ghost use Rattle.sv_names.specs.Given.{Gives};
ghost use Rattle.sv_elab_flow.specs.Fors as fors;
ghost use Rattle.sv_elab_flow.specs.Parts as parts;
ghost use Rattle.sv_elab_flow.specs.Parts.{EmitsOf, EmitsTwo};

use crate::around::place;
use crate::code::{plain, statement};
use crate::list::joined;
use crate::loops::while_made;
use std::alloc::Global;
use sv_flat::{Declared, Expr, Form, Routine, Stmt};
use sv_names::{Hoisted, Refusal, first};
use sv_tree::Stmt as TreeStmt;
use sv_value::{RoutineId, Seq};

/// The first assignment, and the loop behind it.
#[tactic(auto, using(crate::proofs::Added::then_made))]
fn for_turns(
    alloc: Global,
    s: &TreeStmt,
    head: Result<(Hoisted<Form>, Hoisted<Expr>), Refusal>,
    turn: Result<(RoutineId, RoutineId), Refusal>,
) -> Result<Seq<Stmt>, Refusal>
    ensures { (rs rs' : List routine) (os os' : List object) (x : checked (hoisted form_of × hoisted flat.Expr))
        (y : checked (code.Code × code.Code)) → Gives head x → EmitsTwo (parts.place_of s.now) rs rs' os os' turn y
        → EmitsOf (fors.for_turns (parts.place_of s.now)) rs rs' os os' result (both x y) }
{
    match head {
        Ok((form, test)) => match turn {
            Ok((body, step)) => {
                let turns = while_made(alloc, place(s), test, body, Some(step))?;
                let front = statement(alloc, place(s), form)?;
                joined(front, turns)
            }
            Err(f) => Err(f),
        },
        Err(e) => match turn {
            Ok(_) => Err(e),
            Err(f) => Err(first(e, f)),
        },
    }
}

/// A `for` over its first assignment with its condition, and the routines of its body and of its step.
#[tactic(auto, using(crate::proofs::Added::routine_made))]
pub fn for_loop(
    alloc: Global,
    s: &TreeStmt,
    locals: Seq<Declared>,
    head: Result<(Hoisted<Form>, Hoisted<Expr>), Refusal>,
    turn: Result<(RoutineId, RoutineId), Refusal>,
    routines: &mut Seq<Routine>,
) -> Result<Seq<Stmt>, Refusal>
    ensures { (rs : List routine) (os os' : List object) (x : checked (hoisted form_of × hoisted flat.Expr))
        (y : checked (code.Code × code.Code)) → Gives head x → EmitsTwo (parts.place_of s.now) rs routines.old os os' turn y
        → Emits rs routines.new os os' result (given (fors.for_of (parts.place_of s.now) locals) (both x y)) }
{
    let inner = for_turns(alloc, s, head, turn);
    for_block(alloc, s, locals, inner, routines)
}

/// A block of the first assignment and the loop, with the variable of the loop.
#[tactic(auto, using(crate::proofs::Added::routine_made))]
fn for_block(
    alloc: Global,
    s: &TreeStmt,
    locals: Seq<Declared>,
    turns: Result<Seq<Stmt>, Refusal>,
    routines: &mut Seq<Routine>,
) -> Result<Seq<Stmt>, Refusal>
    ensures { (rs : List routine) (os os' : List object) (x : checked fors.ForParts)
        → EmitsOf (fors.for_turns (parts.place_of s.now)) rs routines.old os os' turns x
        → Emits rs routines.new os os' result (given (fors.for_of (parts.place_of s.now) locals) x) }
{
    match turns {
        Ok(turns) => {
            let body = RoutineId(routines.as_slice().len() as u64);
            routines.push(Routine {
                at: place(s),
                body: turns,
                subroutine: None,
            })?;
            plain(alloc, place(s), Form::Block { locals, body })
        }
        Err(e) => Err(e),
    }
}
