// Whether statements are built.
ghost use Rattle.std.specs.Prelude.{◌↔◌, IsTrue};
ghost use Rattle.std.specs.List.{AllByRecursion};
ghost use Rattle.sv_built.specs.Built.{IsBuiltType, IsBuiltVariable, IsBuiltItem, IsBuiltKindOfPrint, IsBuiltForm, IsBuiltStmt, IsBuiltSubroutine, IsBuiltRoutine};

use crate::calls::{are_built_calls, is_built_call};
use crate::exprs::{are_built_exprs, is_built_expr, is_built_optional, is_built_type};
use crate::targets::{are_built_targets, are_built_watches};
use sv_flat::{CaseItem, DataType, Declared, Form, PrintKind, Routine, Stmt, Subroutine};

/// Whether all of these are built.
pub fn are_built_routines(routines: &[Routine]) -> bool
    ensures { IsTrue result ↔ AllByRecursion IsBuiltRoutine routines.now }
{
    for routine in routines {
        if !is_built_routine(routine) {
            return false;
        }
    }
    true
}

fn is_built_routine(routine: &Routine) -> bool
    ensures { IsTrue result ↔ IsBuiltRoutine routine.now }
{
    are_built_stmts(routine.body.as_slice()) && is_built_subroutine(&routine.subroutine)
}

fn is_built_subroutine(subroutine: &Option<Subroutine>) -> bool
    ensures { IsTrue result ↔ IsBuiltSubroutine subroutine.now }
{
    match subroutine {
        None => true,
        Some(subroutine) => are_built_variables(subroutine.locals.as_slice()),
    }
}

fn are_built_types(types: &[DataType]) -> bool
    ensures { IsTrue result ↔ AllByRecursion IsBuiltType types.now }
{
    for ty in types {
        if !is_built_type(*ty) {
            return false;
        }
    }
    true
}

fn are_built_stmts(stmts: &[Stmt]) -> bool
    ensures { IsTrue result ↔ AllByRecursion IsBuiltStmt stmts.now }
{
    for stmt in stmts {
        if !is_built_stmt(stmt) {
            return false;
        }
    }
    true
}

fn is_built_stmt(stmt: &Stmt) -> bool
    ensures { IsTrue result ↔ IsBuiltStmt stmt.now }
{
    are_built_types(stmt.hidden.as_slice())
        && are_built_calls(stmt.calls.as_slice())
        && is_built_form(&stmt.form)
}

fn is_built_form(form: &Form) -> bool
    ensures { IsTrue result ↔ IsBuiltForm form.now }
{
    match form {
        Form::Null => true,
        Form::Do { .. } => true,
        Form::Forever { .. } => true,
        Form::Break => true,
        Form::Continue => true,
        Form::Finish => true,
        Form::WaitFork => true,
        Form::DisableFork => true,
        Form::ForeachElement { .. } => true,
        Form::Block { locals, .. } => are_built_variables(locals.as_slice()),
        Form::Fork { locals, .. } => are_built_variables(locals.as_slice()),
        Form::Assign { targets, value } => {
            are_built_targets(targets.as_slice()) && is_built_expr(value)
        }
        Form::AssignAfter {
            targets,
            value,
            delay,
            ..
        } => {
            are_built_targets(targets.as_slice()) && is_built_expr(value) && is_built_expr(delay)
        }
        Form::Nonblocking {
            targets,
            value,
            delay,
            ..
        } => {
            are_built_targets(targets.as_slice())
                && is_built_expr(value)
                && is_built_optional(delay)
        }
        Form::If { condition, .. } => is_built_expr(condition),
        Form::Case { subject, items, .. } => {
            is_built_expr(subject) && are_built_items(items.as_slice())
        }
        Form::While { condition, .. } => is_built_expr(condition),
        Form::Repeat { count, .. } => is_built_expr(count),
        Form::Return { targets, value } => {
            are_built_targets(targets.as_slice()) && is_built_optional(value)
        }
        Form::Call(call) => is_built_call(call),
        Form::Evaluate { value } => is_built_expr(value),
        Form::Delay { amount, .. } => is_built_expr(amount),
        Form::At { watches } => are_built_watches(watches.as_slice()),
        Form::Wait { condition } => is_built_expr(condition),
        Form::Print { kind, values, .. } => {
            is_built_kind(*kind) && are_built_exprs(values.as_slice())
        }
        _ => false,
    }
}

fn are_built_variables(variables: &[Declared]) -> bool
    ensures { IsTrue result ↔ AllByRecursion IsBuiltVariable variables.now }
{
    for variable in variables {
        if !is_built_variable(*variable) {
            return false;
        }
    }
    true
}

fn is_built_variable(variable: Declared) -> bool
    ensures { IsTrue result ↔ IsBuiltVariable variable }
{
    is_built_type(variable.ty)
}

fn is_built_kind(kind: PrintKind) -> bool
    ensures { IsTrue result ↔ IsBuiltKindOfPrint kind }
{
    match kind {
        PrintKind::Now => true,
        PrintKind::Strobe => true,
        PrintKind::Monitor => false,
    }
}

fn are_built_items(items: &[CaseItem]) -> bool
    ensures { IsTrue result ↔ AllByRecursion IsBuiltItem items.now }
{
    for item in items {
        if !is_built_item(item) {
            return false;
        }
    }
    true
}

fn is_built_item(item: &CaseItem) -> bool
    ensures { IsTrue result ↔ IsBuiltItem item.now }
{
    are_built_exprs(item.labels.as_slice())
}
