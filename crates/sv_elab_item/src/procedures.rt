// Procedures as processes (IEEE 1800-2017, 9.2 and 24.3): E28.
ghost use Rattle.std.specs.Prelude.{◌≡◌, ◌∷◌, [], IfOk};
ghost use Rattle.sv_tree.specs.StmtView as view;
ghost use Rattle.sv_tree.specs.UnitView.{procedure};
ghost use Rattle.sv_names.specs.Checked.{given};
ghost use Rattle.sv_names.specs.Emits.{Emits};
ghost use Rattle.sv_names.specs.Items as items;
ghost use Rattle.sv_names.specs.Views.{around_in};
ghost use Rattle.sv_elab_parts.specs.Adding.{Adding};
ghost use Rattle.sv_elab_plain.specs.Parts as parts;

use std::alloc::Global;
use sv_elab_flow::guarded_code;
use sv_elab_member::sv_elab_stmt::{at_event, stmt};
use sv_elab_parts::SoFar;
use sv_flat::{Object, Process, ProcessKind, Routine, Stmt as FlatStmt};
use sv_names::{Around, Refusal, copy_path};
use sv_tree::{Body, Procedure, ProcedureWord, Stmt};
use sv_value::{NoMemory, Place, RoutineId, Seq, Side};

/// The kind of a procedure.
fn process_kind_of(word: ProcedureWord) -> ProcessKind
    ensures { result ≡ items.process_kind_of word }
{
    match word {
        ProcedureWord::Initial => ProcessKind::Initial,
        ProcedureWord::Always => ProcessKind::Always,
        ProcedureWord::AlwaysComb => ProcessKind::AlwaysComb,
        ProcedureWord::AlwaysFf => ProcessKind::AlwaysFf,
    }
}

/// Whether it is an `initial`.
fn is_initial(word: ProcedureWord) -> bool
    ensures { result ≡ items.is_initial word }
{
    match word {
        ProcedureWord::Initial => true,
        _ => false,
    }
}

/// The `initial` procedures of a program are on its side.
fn side_of(around: &Around, word: ProcedureWord) -> Side
    ensures { result ≡ items.side_of (around_in around.now) word }
{
    if around.is_program && is_initial(word) {
        Side::Reactive
    } else {
        Side::Active
    }
}

/// The program whose end a process counts for.
fn program_of(around: &Around, word: ProcedureWord) -> Option<u32>
    ensures { result ≡ items.program_of (around_in around.now) word }
{
    if around.is_program && is_initial(word) {
        Some(around.numbers.program(around.unit))
    } else {
        None
    }
}

/// A process of a procedure, whose statements are this routine.
fn process_of(
    alloc: Global,
    around: &Around,
    of: &Procedure,
    body: RoutineId,
) -> Result<Process, NoMemory>
    ensures { IfOk result (λ p. p ≡ items.process_of (around_in around.now) (procedure of.now) body) }
{
    let path = copy_path(alloc, around.unit)?;
    Ok(Process {
        at: of.at,
        path,
        kind: process_kind_of(of.word),
        side: side_of(around, of.word),
        program: program_of(around, of.word),
        body,
        watched: Seq::new(alloc),
    })
}

// ---- statements

/// The statements of an `always_ff`. E28: it does not begin with its one event control.
fn clocked_code(
    alloc: Global,
    at: Place,
    body: &Stmt,
    around: &Around,
    routines: &mut Seq<Routine>,
    objects: &mut Seq<Object>,
) -> Result<Seq<FlatStmt>, Refusal>
    ensures { Emits routines.old routines.new objects.old objects.new result
        (items.clocked_code (around_in around.now) at (view.stmt body.now)) }
{
    let clocked = Around {
        clocked: Some(at),
        ..*around
    };
    match &body.body {
        Body::On(event, x) => {
            let first = routines.as_slice().len();
            let rest = stmt(alloc, x, &clocked, routines, objects);
            at_event(alloc, body, event, around, first, routines, rest)
        }
        _ => {
            let made = stmt(alloc, body, &clocked, routines, objects);
            guarded_code(made, Err(Refusal::Rule { rule: 28, at }))
        }
    }
}

/// The statements of a procedure.
fn procedure_code(
    alloc: Global,
    around: &Around,
    of: &Procedure,
    routines: &mut Seq<Routine>,
    objects: &mut Seq<Object>,
) -> Result<Seq<FlatStmt>, Refusal>
    ensures { Emits routines.old routines.new objects.old objects.new result
        (items.procedure_code (around_in around.now) (procedure of.now)) }
{
    match of.word {
        ProcedureWord::AlwaysComb => {
            let comb = Around {
                may_not_wait: true,
                is_comb: true,
                ..*around
            };
            stmt(alloc, &of.body, &comb, routines, objects)
        }
        ProcedureWord::AlwaysFf => {
            clocked_code(alloc, of.at, &of.body, around, routines, objects)
        }
        ProcedureWord::Initial | ProcedureWord::Always => {
            stmt(alloc, &of.body, around, routines, objects)
        }
    }
}

/// Puts a procedure behind what stands so far.
#[tactic(auto, using(crate::proofs::ProcedureLaws::procedure_added))]
pub(crate) fn add_procedure(
    alloc: Global,
    around: &Around,
    of: &Procedure,
    so_far: &mut SoFar,
) -> Result<(), Refusal>
    ensures { Adding so_far.old so_far.new result (parts.procedure_given (around_in around.now) (procedure of.now)) }
{
    let code = procedure_code(alloc, around, of, &mut so_far.routines, &mut so_far.objects);
    match code {
        Ok(body) => {
            let id = RoutineId(so_far.routines.as_slice().len() as u64);
            let process = process_of(alloc, around, of, id)?;
            so_far.routines.push(Routine {
                at: of.at,
                body,
                subroutine: None,
            })?;
            so_far.processes.push(process)?;
            Ok(())
        }
        Err(e) => Err(e),
    }
}
