// Which routine a call runs.
ghost use Rattle.std.specs.Prelude.{◌≡◌, Some, None, IfSome, IfNone};
ghost use Rattle.sv_flat.specs.Process.{routine_of};
ghost use Rattle.sv_stack.specs.Calls.{call_in};

use sv_built::Design;
use sv_flat::{Call, Form, Stmt, Subroutine};
use sv_value::RoutineId;

/// The call of this number before a statement, or without a number the call that it is.
pub fn call_of<'a>(stmt: &'a Stmt, number: Option<usize>) -> Option<&'a Call>
    ensures some { IfSome result (λ c. call_in stmt.now number ≡ Some c.now) }
    ensures none { IfNone result (call_in stmt.now number ≡ None) }
{
    match number {
        Some(number) => stmt.calls.as_slice().get(number),
        None => match &stmt.form {
            Form::Call(call) => Some(call),
            _ => None,
        },
    }
}

/// What makes a routine one that can be called.
pub fn subroutine_of<'a>(design: &'a Design, routine: RoutineId) -> Option<&'a Subroutine>
    ensures some { IfSome result (λ s. (routine_of design.now routine).subroutine ≡ Some s.now) }
    ensures none { IfNone result ((routine_of design.now routine).subroutine ≡ None) }
{
    match design.routines().get(routine.0 as usize) {
        Some(found) => match &found.subroutine {
            Some(subroutine) => Some(subroutine),
            None => None,
        },
        None => None,
    }
}
