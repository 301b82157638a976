// Conditional statements (IEEE 1800-2017, 12.4).
ghost use Rattle.std.specs.Prelude.{◌≡◌, List, [], ◌∷◌, IfOk, IfErr};
ghost use Rattle.sv_value.specs.declared.place.Place.{Place as place};
ghost use Rattle.sv_flat.specs.declared.class.Routine.{Routine as routine};
ghost use Rattle.sv_flat.specs.declared.object.Object.{Object as object};
ghost use Rattle.sv_flat.specs.declared.stmt.Form.TheVariants as form;
ghost use Rattle.sv_flat.specs.Expr as flat;
ghost use Rattle.sv_names.specs.declared.checked.Checked.{Checked as checked};
ghost use Rattle.sv_names.specs.declared.hoisted.Hoisted.{Hoisted as hoisted};
ghost use Rattle.sv_names.specs.declared.refusal.Refusal.TheVariants.{Memory};
ghost use Rattle.sv_names.specs.Checked.{both};
ghost use Rattle.sv_names.specs.Hoisted.{mapped};
ghost use Rattle.sv_names.specs.Statements as statements;
ghost use Rattle.sv_names.specs.Code as code;
ghost use Rattle.sv_names.specs.Given.{Gives};
ghost use Rattle.sv_names.specs.Emits.{Emits};
ghost use Rattle.sv_elab_flow.specs.Parts.{EmitsRoutine, EmitsTwo};
ghost use Rattle.sv_elab_flow.specs.Parts as parts;

use crate::around::place;
use crate::code::statement;
use std::alloc::Global;
use sv_flat::{Expr, Form, Stmt};
use sv_names::{Hoisted, Refusal, first};
use sv_tree::Stmt as TreeStmt;
use sv_value::{Place, RoutineId, Seq};

/// A conditional statement over the routines of its branches.
fn if_made(
    alloc: Global,
    at: Place,
    test: Hoisted<Expr>,
    yes: RoutineId,
    no: Option<RoutineId>,
) -> Result<Seq<Stmt>, Refusal>
    ensures ok { IfOk result (λ list. list ≡ code.statement at (mapped (λ e. form.If e yes no) test) ∷ []) }
    ensures err { IfErr result (λ e. e ≡ Memory) }
{
    let form = Form::If {
        condition: test.value,
        yes,
        no,
    };
    statement(
        alloc,
        at,
        Hoisted {
            hidden: test.hidden,
            calls: test.calls,
            value: form,
        },
    )
}

/// `if (e) s`
pub fn if_only(
    alloc: Global,
    s: &TreeStmt,
    test: Result<Hoisted<Expr>, Refusal>,
    yes: Result<RoutineId, Refusal>,
) -> Result<Seq<Stmt>, Refusal>
    ensures { (rs rs' : List routine) (os os' : List object) (c : checked (hoisted flat.Expr)) (x : checked code.Code)
        → Gives test c → EmitsRoutine (parts.place_of s.now) rs rs' os os' yes x
        → Emits rs rs' os os' result (statements.if_given (parts.place_of s.now) c x) }
{
    match test {
        Ok(test) => match yes {
            Ok(yes) => if_made(alloc, place(s), test, yes, None),
            Err(f) => Err(f),
        },
        Err(e) => match yes {
            Ok(_) => Err(e),
            Err(f) => Err(first(e, f)),
        },
    }
}

/// The routines of two parts, one after the other.
#[tactic(auto, using(crate::proofs::Added::followed_made))]
pub fn two_routines(
    a: Result<RoutineId, Refusal>,
    b: Result<RoutineId, Refusal>,
) -> Result<(RoutineId, RoutineId), Refusal>
    ensures { (at : place) (rs rs' rs'' : List routine) (os os' os'' : List object) (x y : checked code.Code)
        → EmitsRoutine at rs rs' os os' a x → EmitsRoutine at rs' rs'' os' os'' b y
        → EmitsTwo at rs rs'' os os'' result (both x y) }
{
    match a {
        Ok(a) => match b {
            Ok(b) => Ok((a, b)),
            Err(f) => Err(f),
        },
        Err(e) => match b {
            Ok(_) => Err(e),
            Err(f) => Err(first(e, f)),
        },
    }
}

/// `if (e) s else t`
pub fn if_else(
    alloc: Global,
    s: &TreeStmt,
    test: Result<Hoisted<Expr>, Refusal>,
    branches: Result<(RoutineId, RoutineId), Refusal>,
) -> Result<Seq<Stmt>, Refusal>
    ensures { (rs rs' : List routine) (os os' : List object) (c : checked (hoisted flat.Expr)) (x : checked (code.Code × code.Code))
        → Gives test c → EmitsTwo (parts.place_of s.now) rs rs' os os' branches x
        → Emits rs rs' os os' result (statements.if_else_given (parts.place_of s.now) c x) }
{
    match test {
        Ok(test) => match branches {
            Ok((yes, no)) => if_made(alloc, place(s), test, yes, Some(no)),
            Err(f) => Err(f),
        },
        Err(e) => match branches {
            Ok(_) => Err(e),
            Err(f) => Err(first(e, f)),
        },
    }
}
