// Statements of the flat design, and the routines that hold them (IEEE 1800-2017, 9.3).
ghost use Rattle.std.specs.Prelude.{◌≡◌, List, [], ◌∷◌, IfOk, IfErr};
ghost use Rattle.sv_flat.specs.declared.class.Routine.{Routine as routine};
ghost use Rattle.sv_flat.specs.declared.object.Object.{Object as object};
ghost use Rattle.sv_flat.specs.declared.stmt.Form.{Form as form_of};
ghost use Rattle.sv_names.specs.declared.checked.Checked.{Checked as checked};
ghost use Rattle.sv_names.specs.declared.checked.Checked.TheVariants.{Good};
ghost use Rattle.sv_names.specs.declared.hoisted.Hoisted.{Hoisted as hoisted};
ghost use Rattle.sv_names.specs.declared.refusal.Refusal.TheVariants.{Memory};
ghost use Rattle.sv_names.specs.Checked.{given, ◌where_also◌};
ghost use Rattle.sv_names.specs.Code as code;
ghost use Rattle.sv_names.specs.Emits.{Emits};
ghost use Rattle.sv_names.specs.Given.{Gives};
ghost use Rattle.sv_names.specs.Hoisted.{pure};
ghost use Rattle.sv_elab_flow.specs.Parts as parts;
ghost use Rattle.sv_elab_flow.specs.Parts.{EmitsRoutine};

use crate::around::place;
use std::alloc::Global;
use sv_elab_value::pure;
use sv_flat::{Form, Routine, Stmt};
use sv_names::{Hoisted, Refusal};
use sv_tree::Stmt as TreeStmt;
use sv_value::{Place, RoutineId, Seq};

// ---- one statement

/// A list of one statement, whose calls stand before it.
pub fn statement(alloc: Global, at: Place, form: Hoisted<Form>) -> Result<Seq<Stmt>, Refusal>
    ensures ok { IfOk result (λ list. list ≡ code.statement at form ∷ []) }
    ensures err { IfErr result (λ e. e ≡ Memory) }
{
    let mut list = Seq::new(alloc);
    list.push(Stmt {
        at,
        hidden: form.hidden,
        calls: form.calls,
        form: form.value,
    })?;
    Ok(list)
}

/// A list of one statement without expressions.
pub fn plain(alloc: Global, at: Place, form: Form) -> Result<Seq<Stmt>, Refusal>
    ensures ok { IfOk result (λ list. list ≡ code.statement at (pure form) ∷ []) }
    ensures err { IfErr result (λ e. e ≡ Memory) }
{
    statement(alloc, at, pure(alloc, form))
}

/// One statement without expressions, which breaks no rule.
#[tactic(auto, using(crate::proofs::Added::none_added))]
pub fn plain_code(alloc: Global, s: &TreeStmt, form: Form) -> Result<Seq<Stmt>, Refusal>
    ensures { (rs : List routine) (os : List object)
        → Emits rs rs os os result (Good (code.plain (parts.place_of s.now) form)) }
{
    plain(alloc, place(s), form)
}

/// One statement without expressions that a rule guards.
#[tactic(auto, using(crate::proofs::Added::none_added))]
pub fn plain_guarded(
    alloc: Global,
    s: &TreeStmt,
    form: Form,
    guard: Result<(), Refusal>,
) -> Result<Seq<Stmt>, Refusal>
    ensures { (rs : List routine) (os : List object) (x : checked (Unit {0})) → Gives guard x
        → Emits rs rs os os result (Good (code.plain (parts.place_of s.now) form) where_also x) }
{
    match guard {
        Ok(()) => plain(alloc, place(s), form),
        Err(f) => Err(f),
    }
}

/// One statement, or the first rule that it breaks.
#[tactic(auto, using(crate::proofs::Added::none_added))]
pub fn single(
    alloc: Global,
    s: &TreeStmt,
    form: Result<Hoisted<Form>, Refusal>,
) -> Result<Seq<Stmt>, Refusal>
    ensures { (rs : List routine) (os : List object) (x : checked (hoisted form_of)) → Gives form x
        → Emits rs rs os os result (given (code.single (parts.place_of s.now)) x) }
{
    match form {
        Ok(form) => statement(alloc, place(s), form),
        Err(e) => Err(e),
    }
}

// ---- routines

/// A routine of its own for the statements of a part.
#[tactic(auto, using(crate::proofs::Added::routine_made))]
pub fn routine(
    s: &TreeStmt,
    body: Result<Seq<Stmt>, Refusal>,
    routines: &mut Seq<Routine>,
) -> Result<RoutineId, Refusal>
    ensures { (rs : List routine) (os os' : List object) (x : checked code.Code) → Emits rs routines.old os os' body x
        → EmitsRoutine (parts.place_of s.now) rs routines.new os os' result x }
{
    match body {
        Ok(body) => {
            let id = RoutineId(routines.as_slice().len() as u64);
            routines.push(Routine {
                at: place(s),
                body,
                subroutine: None,
            })?;
            Ok(id)
        }
        Err(e) => Err(e),
    }
}
