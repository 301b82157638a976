// Event controls before a statement (IEEE 1800-2017, 9.4.2).
ghost use Rattle.std.specs.Prelude.{◌≡◌, List, drop, length, IfOk, IfErr};
ghost use Rattle.sv_flat.specs.declared.class.Routine.{Routine as routine};
ghost use Rattle.sv_flat.specs.declared.object.Object.{Object as object};
ghost use Rattle.sv_tree.specs.StmtView as view;
ghost use Rattle.sv_names.specs.declared.checked.Checked.{Checked as checked};
ghost use Rattle.sv_names.specs.declared.refusal.Refusal.TheVariants.{Memory};
ghost use Rattle.sv_names.specs.Checked.{given};
ghost use Rattle.sv_names.specs.Code as code;
ghost use Rattle.sv_names.specs.Emits.{Emits};
ghost use Rattle.sv_names.specs.Statements as statements;
ghost use Rattle.sv_names.specs.Views.{around_in};
ghost use Rattle.sv_elab_flow.specs.Parts as parts;
ghost use Rattle.sv_elab_stmt.specs.Stars as stars;

use std::alloc::Global;
use sv_elab_event::{control, named_control};
use sv_elab_flow::{joined, place, plain, then};
use sv_elab_watch::{on_changes, read_by};
use sv_flat::{Form, Routine, Stmt};
use sv_names::{Around, Refusal};
use sv_tree::{Event, Stmt as TreeStmt};
use sv_value::{Place, Seq};

/// The routines from a number on.
fn from_number(first: usize, routines: &[Routine]) -> &[Routine]
    ensures { result.now ≡ drop first routines.now }
{
    if first < routines.len() {
        &routines[first..]
    } else {
        &[]
    }
}

/// `@*` before statements, which add the routines from a number on: it waits for a change of what they read (9.4.2.2).
fn starred(
    alloc: Global,
    at: Place,
    first: usize,
    routines: &[Routine],
    body: Seq<Stmt>,
) -> Result<Seq<Stmt>, Refusal>
    ensures ok { IfOk result (λ list. list ≡ stars.starred at first (drop first routines.now) body) }
    ensures err { IfErr result (λ e. e ≡ Memory) }
{
    let added = from_number(first, routines);
    let operands = read_by(alloc, first as u64, added, body.as_slice())?;
    let watches = on_changes(alloc, operands)?;
    let front = plain(alloc, at, Form::At { watches })?;
    joined(front, body)
}

/// `@*` before what it guards, which adds the routines from a number on (9.4.2.2).
#[tactic(auto, using(crate::proofs::StarLaws::star_made))]
fn after_star(
    alloc: Global,
    s: &TreeStmt,
    first: usize,
    routines: &Seq<Routine>,
    body: Result<Seq<Stmt>, Refusal>,
) -> Result<Seq<Stmt>, Refusal>
    ensures { (rs : List routine) (os os' : List object) (x : checked code.Code) → length rs ≡ first
        → Emits rs routines.now os os' body x
        → Emits rs routines.now os os' result (given (statements.after_star (parts.place_of s.now)) x) }
{
    match body {
        Ok(body) => starred(alloc, place(s), first, routines.as_slice(), body),
        Err(e) => Err(e),
    }
}

/// A statement behind an event control (9.4.2), which adds the routines from a number on.
pub fn at_event(
    alloc: Global,
    s: &TreeStmt,
    event: &Event,
    around: &Around,
    first: usize,
    routines: &Seq<Routine>,
    body: Result<Seq<Stmt>, Refusal>,
) -> Result<Seq<Stmt>, Refusal>
    ensures { (rs : List routine) (os os' : List object) (x : checked code.Code) → length rs ≡ first
        → Emits rs routines.now os os' body x → Emits rs routines.now os os' result
        (statements.at_event (around_in around.now) (parts.place_of s.now) (view.event event.now) x) }
{
    match event {
        Event::Named(name) => then(alloc, s, named_control(alloc, name, around), body),
        Event::Star => after_star(alloc, s, first, routines, body),
        Event::Parts(events) => then(alloc, s, control(alloc, events.as_slice(), around), body),
    }
}
