// The objects whose change can fire what a process waits for (IEEE 1800-2017, 9.4.2).
ghost use Rattle.std.specs.Prelude.{◌≡◌, ◌++◌, OnOk, IfOk};
ghost use Rattle.sv_flat.specs.Names.{expr_reads};
ghost use Rattle.sv_built.specs.Waits.{control_of, condition_of, in_stmt, watched_by, watches_at};
ghost use Rattle.sv_built.specs.Positions.{stmt_at};
ghost use Rattle.sv_flat.specs.Config.{first_process};
ghost use Rattle.sv_sense.specs.Objects as objects;
ghost use Rattle.sv_sense.specs.Objects.{Named, Read};

use std::alloc::Global;
use sv_built::{Design, Position, Wait};
use sv_flat::{Expr, ExprForm, Form, Watch};
use sv_value::{NoMemory, ObjId, ProcessId, Seq};

/// Appends the objects that an expression reads.
#[tactic(auto, using(crate::proofs::ObjectLaws::named_none, crate::proofs::ObjectLaws::named_both))]
fn add_expr(expr: &Expr, list: &mut Seq<ObjId>) -> Result<(), NoMemory>
    ensures { OnOk result (Named list.old list.new (expr_reads expr.now)) }
{
    match &*expr.form {
        ExprForm::Object { object, .. } => list.push(*object),
        ExprForm::Element { object, index, .. } => {
            list.push(*object)?;
            add_expr(index, list)
        }
        ExprForm::Select { base, index, .. } => {
            add_expr(base, list)?;
            add_expr(index, list)
        }
        ExprForm::FieldElement { object, index, .. } => {
            add_expr(object, list)?;
            add_expr(index, list)
        }
        ExprForm::Item {
            container,
            index,
            ..
        } => {
            add_expr(container, list)?;
            add_expr(index, list)
        }
        ExprForm::Exists {
            container,
            index,
            ..
        } => {
            add_expr(container, list)?;
            add_expr(index, list)
        }
        ExprForm::Static { reference, member } => {
            add_expr(reference, list)?;
            add_expr(member, list)
        }
        ExprForm::Binary { left, right, .. } => {
            add_expr(left, list)?;
            add_expr(right, list)
        }
        ExprForm::Join { high, low } => {
            add_expr(high, list)?;
            add_expr(low, list)
        }
        ExprForm::Choose { condition, yes, no } => {
            add_expr(condition, list)?;
            add_expr(yes, list)?;
            add_expr(no, list)
        }
        ExprForm::LocalElement { index, .. } => add_expr(index, list),
        ExprForm::Field { object, .. } => add_expr(object, list),
        ExprForm::Unary { operand, .. } => add_expr(operand, list),
        ExprForm::Repeat { part, .. } => add_expr(part, list),
        ExprForm::Convert { operand, .. } => add_expr(operand, list),
        ExprForm::Widen { operand, .. } => add_expr(operand, list),
        ExprForm::Size { container, .. } => add_expr(container, list),
        ExprForm::Messages { mailbox } => add_expr(mailbox, list),
        ExprForm::Length { text } => add_expr(text, list),
        ExprForm::Triggered { event } => add_expr(event, list),
        ExprForm::Log2 { operand } => add_expr(operand, list),
        ExprForm::Name { operand, .. } => add_expr(operand, list),
        ExprForm::Printed { operand, .. } => add_expr(operand, list),
        ExprForm::Literal { .. } | ExprForm::Text { .. } => Ok(()),
        ExprForm::Handle { .. } | ExprForm::Time { .. } | ExprForm::Local { .. } => Ok(()),
    }
}

/// Appends the objects that an event expression reads, but for its `iff`.
#[tactic(auto, using(crate::proofs::ObjectLaws::named_none))]
fn add_watch(watch: &Watch, list: &mut Seq<ObjId>) -> Result<(), NoMemory>
    ensures { OnOk result (list.new ≡ list.old ++ objects.watch_objects watch.now) }
{
    match watch {
        Watch::On { expr, .. } => add_expr(expr, list),
        Watch::Updates(_, _) => Ok(()),
    }
}

/// Appends the objects that event expressions read.
#[tactic(auto, using(crate::proofs::ObjectLaws::turn_read, crate::proofs::ObjectLaws::all_read))]
fn add_watches(watches: &[Watch], list: &mut Seq<ObjId>) -> Result<(), NoMemory>
    ensures { OnOk result (Read list.old list.new watches.now) }
{
    let mut left = watches;
    while let [one, rest @ ..] = left {
        add_watch(one, list)?;
        left = rest;
    }
    Ok(())
}

/// Appends the objects that an event control reads.
#[tactic(auto, using(crate::proofs::ObjectLaws::read_none))]
fn add_control(form: &Form, list: &mut Seq<ObjId>) -> Result<(), NoMemory>
    ensures { OnOk result (Read list.old list.new (control_of form.now)) }
{
    match form {
        Form::At { watches } => add_watches(watches.as_slice(), list),
        _ => Ok(()),
    }
}

/// Appends the objects that the condition of a `wait` reads.
#[tactic(auto, using(crate::proofs::ObjectLaws::read_none, crate::proofs::ObjectLaws::read_one))]
fn add_condition(form: &Form, list: &mut Seq<ObjId>) -> Result<(), NoMemory>
    ensures { OnOk result (Read list.old list.new (condition_of form.now)) }
{
    match form {
        Form::Wait { condition } => add_expr(condition, list),
        _ => Ok(()),
    }
}

/// Appends the objects that the event control at a position reads.
#[tactic(auto, using(crate::proofs::ObjectLaws::read_none))]
fn add_control_at(design: &Design, at: Position, list: &mut Seq<ObjId>) -> Result<(), NoMemory>
    ensures { OnOk result (Read list.old list.new (in_stmt control_of (stmt_at design.now at))) }
{
    match design.body(at.routine).get(at.place) {
        Some(stmt) => add_control(&stmt.form, list),
        None => Ok(()),
    }
}

/// Appends the objects that the `wait` at a position reads.
#[tactic(auto, using(crate::proofs::ObjectLaws::read_none))]
fn add_condition_at(design: &Design, at: Position, list: &mut Seq<ObjId>) -> Result<(), NoMemory>
    ensures { OnOk result (Read list.old list.new (in_stmt condition_of (stmt_at design.now at))) }
{
    match design.body(at.routine).get(at.place) {
        Some(stmt) => add_condition(&stmt.form, list),
        None => Ok(()),
    }
}

/// Appends the objects that a process reads which it watches after each run.
#[tactic(auto, using(crate::proofs::ObjectLaws::read_none))]
fn add_watched(design: &Design, process: ProcessId, list: &mut Seq<ObjId>) -> Result<(), NoMemory>
    ensures { OnOk result (Read list.old list.new (watched_by (first_process design.now process))) }
{
    match design.processes().get(process.0 as usize) {
        Some(process) => add_watches(process.watched.as_slice(), list),
        None => Ok(()),
    }
}

/// Appends the objects that are read by what is waited for.
fn add_wait(design: &Design, wait: Wait, list: &mut Seq<ObjId>) -> Result<(), NoMemory>
    ensures { OnOk result (Read list.old list.new (watches_at design.now wait)) }
{
    match wait {
        Wait::Control(at) => add_control_at(design, at, list),
        Wait::Condition(at) => add_condition_at(design, at, list),
        Wait::Watched(process) => add_watched(design, process, list),
    }
}

/// The objects that are read by what is waited for.
pub(crate) fn wait_objects(
    alloc: Global,
    design: &Design,
    wait: Wait,
) -> Result<Seq<ObjId>, NoMemory>
    ensures { IfOk result (λ os. os ≡ objects.wait_objects design.now wait) }
{
    let mut list = Seq::new(alloc);
    add_wait(design, wait, &mut list)?;
    Ok(list)
}
