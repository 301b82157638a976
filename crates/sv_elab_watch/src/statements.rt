// What statements and all that stands in them read (IEEE 1800-2017, 9.4.2.2).
ghost use Rattle.std.specs.Prelude.{◌≡◌, ◌+◌, ◌^◌, ◌<◌, length, map, IfOk, OnOk};
ghost use Rattle.sv_names.specs.Watched as watched;
ghost use Rattle.sv_elab_watch.specs.Reading.{Added, routines_read, routines_in};

use crate::calls::add_calls;
use crate::forms::add_form;
use crate::inner::{body_of, entered_by, inner_of, one_if};
use std::alloc::Global;
use sv_flat::{Edge, Expr, Form, Routine, Stmt, Watch};
use sv_value::{NoMemory, RoutineId, Seq};

/// Appends what a statement itself reads, with the calls before it.
#[tactic(auto, using(crate::proofs::ReadLaws::added_both))]
fn add_own(
    alloc: Global,
    depth: u128,
    statement: &Stmt,
    list: &mut Seq<Expr>,
) -> Result<(), NoMemory>
    requires { depth < 2 ^ 100 }
    ensures { OnOk result (Added list.old list.new (watched.own_operands depth statement.now)) }
{
    let inside = depth + one_if(statement.hidden.as_slice());
    add_calls(alloc, inside, statement.calls.as_slice(), list)?;
    add_form(alloc, inside, &statement.form, list)
}

/// Appends what statements and all that stands in them read, so many levels deep and one more.
#[cycle(within)]
#[tactic(auto, using(crate::proofs::StatementLaws::statements_end))]
fn add_statements(
    alloc: Global,
    first: u64,
    added: &[Routine],
    levels: usize,
    depth: u128,
    statements: &[Stmt],
    list: &mut Seq<Expr>,
) -> Result<(), NoMemory>
    requires { depth + levels < 2 ^ 100 }
    ensures { OnOk result (Added list.old list.new
        (watched.operands_of (watched.body_from first added.now) (levels + 1) depth statements.now)) }
{
    let mut left = statements;
    while let [one, rest @ ..] = left {
        add_own(alloc, depth, one, list)?;
        add_inner(alloc, first, added, levels, depth, &one.form, list)?;
        left = rest;
    }
    Ok(())
}

/// Appends what stands in a form, so many levels deep.
#[cycle(within)]
#[tactic(auto, using(crate::proofs::StatementLaws::no_level, crate::proofs::StatementLaws::level_more))]
fn add_inner(
    alloc: Global,
    first: u64,
    added: &[Routine],
    levels: usize,
    depth: u128,
    form: &Form,
    list: &mut Seq<Expr>,
) -> Result<(), NoMemory>
    requires { depth + levels < 2 ^ 100 }
    ensures { OnOk result (Added list.old list.new (routines_read (watched.body_from first added.now) levels
        (depth + watched.entered_by form.now) (routines_in form.now))) }
{
    if levels == 0 {
        return Ok(());
    }
    let ids = inner_of(alloc, form)?;
    let inside = depth + entered_by(form);
    add_routines(
        alloc,
        first,
        added,
        levels - 1,
        inside,
        ids.as_slice(),
        list,
    )
}

/// Appends what routines read, so many levels deep and one more.
#[cycle(within)]
#[tactic(auto, using(crate::proofs::StatementLaws::routine_turn, crate::proofs::ReadLaws::all_added))]
fn add_routines(
    alloc: Global,
    first: u64,
    added: &[Routine],
    levels: usize,
    depth: u128,
    ids: &[RoutineId],
    list: &mut Seq<Expr>,
) -> Result<(), NoMemory>
    requires { depth + levels < 2 ^ 100 }
    ensures { OnOk result (Added list.old list.new
        (routines_read (watched.body_from first added.now) (levels + 1) depth ids.now)) }
{
    let mut left = ids;
    while let [one, rest @ ..] = left {
        let body = body_of(first, added, *one);
        add_statements(alloc, first, added, levels, depth, body, list)?;
        left = rest;
    }
    Ok(())
}

/// What statements read with all that stands in them, through the routines that they add from a first number on: names with their leading
/// constant selects, as they are seen from where the statements stand (IEEE 1800-2017, 9.2.2.2.1 and 9.4.2.2).
pub fn read_by(
    alloc: Global,
    first: u64,
    added: &[Routine],
    statements: &[Stmt],
) -> Result<Seq<Expr>, NoMemory>
    ensures { IfOk result (λ es. es
        ≡ watched.operands_of (watched.body_from first added.now) (length added.now + 1) 0 statements.now) }
{
    let mut list = Seq::new(alloc);
    add_statements(alloc, first, added, added.len(), 0, statements, &mut list)?;
    Ok(list)
}

/// What waits for a change of each of these (IEEE 1800-2017, 9.4.2).
pub fn on_changes(alloc: Global, operands: Seq<Expr>) -> Result<Seq<Watch>, NoMemory>
    ensures { IfOk result (λ ws. ws ≡ map watched.on_change operands) }
{
    let mut watches = Seq::new(alloc);
    for expr in operands.into_vec() {
        watches.push(Watch::On {
            expr,
            edge: Edge::Change,
            condition: None,
        })?;
    }
    Ok(watches)
}
