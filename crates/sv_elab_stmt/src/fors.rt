// The last part of a `for` (IEEE 1800-2017, 12.7.1).
ghost use Rattle.std.specs.Prelude.{List};
ghost use Rattle.sv_flat.specs.declared.object.Object.{Object as object};
ghost use Rattle.sv_tree.specs.StmtView as view;
ghost use Rattle.sv_names.specs.Given.{Gives};
ghost use Rattle.sv_names.specs.Statements as statements;
ghost use Rattle.sv_names.specs.Views.{around_in};
ghost use Rattle.sv_elab_flow.specs.Fors as fors;
ghost use Rattle.sv_elab_flow.specs.Parts as parts;
ghost use Rattle.sv_elab_flow.specs.Parts.{EmitsRoutine};

use std::alloc::Global;
use sv_elab_flow::{routine, single};
use sv_elab_variable::sv_elab_write::{assign_value, operated, stepped};
use sv_flat::{Form, Routine};
use sv_names::{Around, Hoisted, Refusal};
use sv_tree::{ForStep, Stmt as TreeStmt};
use sv_value::{RoutineId, Seq};

/// The last part of a `for`.
fn step_form(alloc: Global, step: &ForStep, around: &Around) -> Result<Hoisted<Form>, Refusal>
    ensures { Gives result (fors.step_form (around_in around.now) (view.for_step step.now)) }
{
    match step {
        ForStep::Assign(target, value) => assign_value(alloc, target, value, around),
        ForStep::Operator(a) => operated(alloc, a, around),
        ForStep::Step { target, word, .. } => stepped(alloc, target, *word, around),
    }
}

/// A routine of its own for the last part of a `for`.
#[tactic(auto, using(crate::proofs::ForLaws::step_given))]
pub fn step_routine(
    alloc: Global,
    s: &TreeStmt,
    step: &ForStep,
    around: &Around,
    routines: &mut Seq<Routine>,
) -> Result<RoutineId, Refusal>
    ensures { (os : List object) → EmitsRoutine (parts.place_of s.now) routines.old routines.new os os result
        (statements.step_code (around_in around.now) (parts.place_of s.now) (view.for_step step.now)) }
{
    let statement = single(alloc, s, step_form(alloc, step, around));
    routine(s, statement, routines)
}
