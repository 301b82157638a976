// The subroutines that statements run (IEEE 1800-2017, 9.2.2.2.1 and 13).
ghost use Rattle.std.specs.Prelude.{◌≡◌, ◌++◌, flat_map, map, OnOk};
ghost use Rattle.sv_flat.specs.Names as names;
ghost use Rattle.sv_elab_comb.specs.Standing.{run_by};

use crate::classes::{add_methods, constructor_of};
use crate::statements::statements_of;
use std::alloc::Global;
use sv_flat::{Call, CallForm, Form, Parts, Stmt};
use sv_value::{NoMemory, RoutineId, Seq};

/// Appends the subroutines that a call can run; of a virtual method, each that stands in its slot.
#[tactic(auto, using(crate::proofs::StandingLaws::none_behind))]
fn add_called(parts: &Parts, form: &CallForm, ids: &mut Seq<RoutineId>) -> Result<(), NoMemory>
    ensures { OnOk result (ids.new ≡ ids.old ++ names.call_routines parts.now form.now) }
{
    match form {
        CallForm::Routine { routine, .. } => ids.push(*routine),
        CallForm::Method { class, slot, .. } => add_methods(parts, *class, *slot, ids),
        CallForm::New { class, .. } => ids.push(constructor_of(parts, *class)),
        _ => Ok(()),
    }
}

/// Appends the subroutines that calls can run.
#[tactic(auto, using(crate::proofs::StandingLaws::turn_behind, crate::proofs::StandingLaws::all_behind))]
fn add_all_called(parts: &Parts, calls: &[Call], ids: &mut Seq<RoutineId>) -> Result<(), NoMemory>
    ensures { OnOk result (ids.new ≡ ids.old ++ flat_map (names.call_routines parts.now) (map (λ c. c.form) calls.now)) }
{
    let mut left = calls;
    while let [one, rest @ ..] = left {
        add_called(parts, &one.form, ids)?;
        left = rest;
    }
    Ok(())
}

/// Appends the subroutines that a form can run.
#[tactic(auto, using(crate::proofs::StandingLaws::none_behind, crate::proofs::StandingLaws::nothing_more))]
fn add_form(parts: &Parts, form: &Form, ids: &mut Seq<RoutineId>) -> Result<(), NoMemory>
    ensures { OnOk result (ids.new ≡ ids.old ++ flat_map (names.call_routines parts.now) (names.form_calls form.now)) }
{
    match form {
        Form::Call(call) => add_called(parts, &call.form, ids),
        _ => Ok(()),
    }
}

/// Appends the subroutines that a statement runs.
#[tactic(auto, using(crate::proofs::StandingLaws::both_run))]
fn add_run(parts: &Parts, statement: &Stmt, ids: &mut Seq<RoutineId>) -> Result<(), NoMemory>
    ensures { OnOk result (ids.new ≡ ids.old ++ run_by parts.now statement.now) }
{
    add_all_called(parts, statement.calls.as_slice(), ids)?;
    add_form(parts, &statement.form, ids)
}

/// Appends the subroutines that statements run.
#[tactic(auto, using(crate::proofs::StandingLaws::turn_behind, crate::proofs::StandingLaws::all_behind))]
fn add_all_run(
    parts: &Parts,
    statements: &[&Stmt],
    ids: &mut Seq<RoutineId>,
) -> Result<(), NoMemory>
    ensures { OnOk result (ids.new ≡ ids.old ++ flat_map (run_by parts.now) (map (λ s. s.now) statements.now)) }
{
    let mut left = statements;
    while let [one, rest @ ..] = left {
        add_run(parts, one, ids)?;
        left = rest;
    }
    Ok(())
}

/// Appends the subroutines that the statements of a routine call.
pub(crate) fn add_called_in(
    alloc: Global,
    parts: &Parts,
    id: RoutineId,
    ids: &mut Seq<RoutineId>,
) -> Result<(), NoMemory>
    ensures { OnOk result (ids.new ≡ ids.old ++ names.called_in parts.now id) }
{
    let levels = parts.routines.as_slice().len();
    let statements = statements_of(alloc, parts, levels, id)?;
    add_all_run(parts, statements.as_slice(), ids)
}
