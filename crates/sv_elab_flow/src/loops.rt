// Loops (IEEE 1800-2017, 12.7).
ghost use Rattle.std.specs.Prelude.{◌≡◌, List, [], ◌∷◌, None, IfOk, IfErr};
ghost use Rattle.sv_flat.specs.declared.class.Routine.{Routine as routine};
ghost use Rattle.sv_flat.specs.declared.object.Object.{Object as object};
ghost use Rattle.sv_flat.specs.declared.stmt.Form.TheVariants as form;
ghost use Rattle.sv_flat.specs.Expr as flat;
ghost use Rattle.sv_names.specs.declared.checked.Checked.{Checked as checked};
ghost use Rattle.sv_names.specs.declared.hoisted.Hoisted.{Hoisted as hoisted};
ghost use Rattle.sv_names.specs.declared.refusal.Refusal.TheVariants.{Memory};
ghost use Rattle.sv_names.specs.Checked.{both};
ghost use Rattle.sv_names.specs.Hoisted.{mapped, pure};
ghost use Rattle.sv_names.specs.Code as code;
ghost use Rattle.sv_names.specs.Statements as statements;
ghost use Rattle.sv_names.specs.Given.{Gives};
ghost use Rattle.sv_names.specs.Emits.{Emits};
ghost use Rattle.sv_elab_flow.specs.Parts.{EmitsRoutine, EmitsOf};
ghost use Rattle.sv_elab_flow.specs.Parts as parts;

use crate::around::place;
use crate::code::{plain, statement};
use std::alloc::Global;
use sv_flat::{Expr, Form, Routine, Stmt};
use sv_names::{Hoisted, Refusal, first};
use sv_tree::Stmt as TreeStmt;
use sv_value::{Place, RoutineId, Seq};

/// A loop with a test before each turn.
pub fn while_made(
    alloc: Global,
    at: Place,
    test: Hoisted<Expr>,
    body: RoutineId,
    step: Option<RoutineId>,
) -> Result<Seq<Stmt>, Refusal>
    ensures ok { IfOk result (λ list. list ≡ code.statement at (mapped (λ e. form.While e body step) test) ∷ []) }
    ensures err { IfErr result (λ e. e ≡ Memory) }
{
    let form = Form::While {
        condition: test.value,
        body,
        step,
    };
    statement(
        alloc,
        at,
        Hoisted {
            hidden: test.hidden,
            calls: test.calls,
            value: form,
        },
    )
}

/// `while (e) s` (12.7.4)
pub fn while_loop(
    alloc: Global,
    s: &TreeStmt,
    test: Result<Hoisted<Expr>, Refusal>,
    body: Result<RoutineId, Refusal>,
) -> Result<Seq<Stmt>, Refusal>
    ensures { (rs rs' : List routine) (os os' : List object) (c : checked (hoisted flat.Expr)) (x : checked code.Code)
        → Gives test c → EmitsRoutine (parts.place_of s.now) rs rs' os os' body x
        → Emits rs rs' os os' result (statements.while_given (parts.place_of s.now) c x) }
{
    match test {
        Ok(test) => match body {
            Ok(body) => while_made(alloc, place(s), test, body, None),
            Err(f) => Err(f),
        },
        Err(e) => match body {
            Ok(_) => Err(e),
            Err(f) => Err(first(e, f)),
        },
    }
}

/// A loop with a count of its turns.
fn repeat_made(
    alloc: Global,
    at: Place,
    count: Hoisted<Expr>,
    body: RoutineId,
) -> Result<Seq<Stmt>, Refusal>
    ensures ok { IfOk result (λ list. list ≡ code.statement at (mapped (λ e. form.Repeat e body) count) ∷ []) }
    ensures err { IfErr result (λ e. e ≡ Memory) }
{
    let form = Form::Repeat {
        count: count.value,
        body,
    };
    statement(
        alloc,
        at,
        Hoisted {
            hidden: count.hidden,
            calls: count.calls,
            value: form,
        },
    )
}

/// `repeat (e) s` (12.7.2)
pub fn repeat_loop(
    alloc: Global,
    s: &TreeStmt,
    count: Result<Hoisted<Expr>, Refusal>,
    body: Result<RoutineId, Refusal>,
) -> Result<Seq<Stmt>, Refusal>
    ensures { (rs rs' : List routine) (os os' : List object) (c : checked (hoisted flat.Expr)) (x : checked code.Code)
        → Gives count c → EmitsRoutine (parts.place_of s.now) rs rs' os os' body x
        → Emits rs rs' os os' result (statements.repeat_given (parts.place_of s.now) c x) }
{
    match count {
        Ok(count) => match body {
            Ok(body) => repeat_made(alloc, place(s), count, body),
            Err(f) => Err(f),
        },
        Err(e) => match body {
            Ok(_) => Err(e),
            Err(f) => Err(first(e, f)),
        },
    }
}

/// `forever s` (12.7.6)
pub fn forever(
    alloc: Global,
    s: &TreeStmt,
    body: Result<RoutineId, Refusal>,
) -> Result<Seq<Stmt>, Refusal>
    ensures { (rs rs' : List routine) (os os' : List object) (x : checked code.Code)
        → EmitsRoutine (parts.place_of s.now) rs rs' os os' body x
        → Emits rs rs' os os' result (statements.forever_given (parts.place_of s.now) x) }
{
    match body {
        Ok(body) => plain(alloc, place(s), Form::Forever { body }),
        Err(e) => Err(e),
    }
}

/// A turn of a `do`.
pub fn do_turn(
    alloc: Global,
    s: &TreeStmt,
    body: Result<RoutineId, Refusal>,
    test: Result<Hoisted<Expr>, Refusal>,
) -> Result<Seq<Stmt>, Refusal>
    ensures { (rs rs' : List routine) (os os' : List object) (x : checked code.Code) (c : checked (hoisted flat.Expr))
        → EmitsRoutine (parts.place_of s.now) rs rs' os os' body x → Gives test c
        → EmitsOf (statements.do_turn (parts.place_of s.now)) rs rs' os os' result (both x c) }
{
    match body {
        Ok(body) => match test {
            Ok(test) => while_made(alloc, place(s), test, body, None),
            Err(f) => Err(f),
        },
        Err(e) => match test {
            Ok(_) => Err(e),
            Err(f) => Err(first(e, f)),
        },
    }
}

/// `do s while (e);` over its turn (12.7.5)
#[tactic(auto, using(crate::proofs::Added::routine_made))]
pub fn do_loop(
    alloc: Global,
    s: &TreeStmt,
    turn: Result<Seq<Stmt>, Refusal>,
    routines: &mut Seq<Routine>,
) -> Result<Seq<Stmt>, Refusal>
    ensures { (rs : List routine) (os os' : List object) (c : checked (code.Code × hoisted flat.Expr))
        → EmitsOf (statements.do_turn (parts.place_of s.now)) rs routines.old os os' turn c
        → Emits rs routines.new os os' result (statements.do_given (parts.place_of s.now) c) }
{
    match turn {
        Ok(turn) => {
            let again = RoutineId(routines.as_slice().len() as u64);
            routines.push(Routine {
                at: place(s),
                body: turn,
                subroutine: None,
            })?;
            plain(alloc, place(s), Form::Do { again })
        }
        Err(e) => Err(e),
    }
}
