// Whether what a process waits for reads a variable of an activation (IEEE 1800-2017, 6.21 and 9.4.2).
ghost use Rattle.std.specs.Prelude.{◌↔◌, IsTrue};
ghost use Rattle.std.specs.List.{AllByRecursion};
ghost use Rattle.sv_flat.specs.Config.{first_process};
ghost use Rattle.sv_built.specs.Positions.{stmt_at};
ghost use Rattle.sv_built.specs.Waits.{control_of, condition_of, in_stmt, watched_by};
ghost use Rattle.sv_sense.specs.Scoped.{IsStaticExpr, IsStaticWatch, IsStaticWait};

use sv_built::{Design, Position, Wait};
use sv_flat::{Expr, ExprForm, Form, Watch};
use sv_value::ProcessId;

/// Whether an expression reads objects and the time alone.
fn is_static_expr(expr: &Expr) -> bool
    ensures { IsTrue result ↔ IsStaticExpr expr.now }
{
    match &*expr.form {
        ExprForm::Literal { .. } => true,
        ExprForm::Text { .. } => true,
        ExprForm::Time { .. } => true,
        ExprForm::Object { .. } => true,
        ExprForm::Element { index, .. } => is_static_expr(index),
        ExprForm::Select { base, index, .. } => is_static_expr(base) && is_static_expr(index),
        ExprForm::Unary { operand, .. } => is_static_expr(operand),
        ExprForm::Binary { left, right, .. } => is_static_expr(left) && is_static_expr(right),
        ExprForm::Choose { condition, yes, no } => {
            is_static_expr(condition) && is_static_expr(yes) && is_static_expr(no)
        }
        ExprForm::Join { high, low } => is_static_expr(high) && is_static_expr(low),
        ExprForm::Repeat { part, .. } => is_static_expr(part),
        ExprForm::Convert { operand, .. } => is_static_expr(operand),
        ExprForm::Widen { operand, .. } => is_static_expr(operand),
        ExprForm::Length { text } => is_static_expr(text),
        ExprForm::Log2 { operand } => is_static_expr(operand),
        ExprForm::Name { operand, .. } => is_static_expr(operand),
        ExprForm::Printed { operand, .. } => is_static_expr(operand),
        _ => false,
    }
}

/// Whether an event expression is static, whatever its `iff`.
fn is_static_watch(watch: &Watch) -> bool
    ensures { IsTrue result ↔ IsStaticWatch watch.now }
{
    match watch {
        Watch::On { expr, .. } => is_static_expr(expr),
        Watch::Updates(_, _) => true,
    }
}

/// Whether all of these are static.
fn are_static(watches: &[Watch]) -> bool
    ensures { IsTrue result ↔ AllByRecursion IsStaticWatch watches.now }
{
    for watch in watches {
        if !is_static_watch(watch) {
            return false;
        }
    }
    true
}

/// Whether an event control is static.
fn is_static_control(form: &Form) -> bool
    ensures { IsTrue result ↔ AllByRecursion IsStaticWatch (control_of form.now) }
{
    match form {
        Form::At { watches } => are_static(watches.as_slice()),
        _ => true,
    }
}

/// Whether the condition of a `wait` is static.
fn is_static_condition(form: &Form) -> bool
    ensures { IsTrue result ↔ AllByRecursion IsStaticWatch (condition_of form.now) }
{
    match form {
        Form::Wait { condition } => is_static_expr(condition),
        _ => true,
    }
}

/// Whether the event control at a position is static.
fn is_static_control_at(design: &Design, at: Position) -> bool
    ensures { IsTrue result ↔ AllByRecursion IsStaticWatch (in_stmt control_of (stmt_at design.now at)) }
{
    match design.body(at.routine).get(at.place) {
        Some(stmt) => is_static_control(&stmt.form),
        None => true,
    }
}

/// Whether the condition of the `wait` at a position is static.
fn is_static_condition_at(design: &Design, at: Position) -> bool
    ensures { IsTrue result ↔ AllByRecursion IsStaticWatch (in_stmt condition_of (stmt_at design.now at)) }
{
    match design.body(at.routine).get(at.place) {
        Some(stmt) => is_static_condition(&stmt.form),
        None => true,
    }
}

/// Whether what a process watches after each run is static.
fn is_static_process(design: &Design, process: ProcessId) -> bool
    ensures { IsTrue result ↔ AllByRecursion IsStaticWatch (watched_by (first_process design.now process)) }
{
    match design.processes().get(process.0 as usize) {
        Some(process) => are_static(process.watched.as_slice()),
        None => true,
    }
}

/// Whether what is waited for is static: no change of a variable of an activation fires it.
pub(crate) fn is_static(design: &Design, wait: Wait) -> bool
    ensures { IsTrue result ↔ IsStaticWait design.now wait }
{
    match wait {
        Wait::Control(at) => is_static_control_at(design, at),
        Wait::Condition(at) => is_static_condition_at(design, at),
        Wait::Watched(process) => is_static_process(design, process),
    }
}
