// Whether calls are built.
ghost use Rattle.std.specs.Prelude.{◌↔◌, IsTrue};
ghost use Rattle.std.specs.List.{AllByRecursion};
ghost use Rattle.sv_built.specs.Built.{IsBuiltArgument, IsBuiltCall, IsBuiltOutput};

use crate::exprs::is_built_optional;
use crate::targets::are_built_targets;
use sv_flat::{Argument, Call, CallForm, Lvalue};
use sv_value::Seq;

/// Whether all of these are built.
pub fn are_built_calls(calls: &[Call]) -> bool
    ensures { IsTrue result ↔ AllByRecursion IsBuiltCall calls.now }
{
    for call in calls {
        if !is_built_call(call) {
            return false;
        }
    }
    true
}

/// Whether what is called is a task or a function that no reference leads to.
pub fn is_built_call(call: &Call) -> bool
    ensures { IsTrue result ↔ IsBuiltCall call.now }
{
    match &call.form {
        CallForm::Routine {
            through,
            arguments,
            ..
        } => through.is_none() && are_built_arguments(arguments.as_slice()),
        _ => false,
    }
}

fn are_built_arguments(arguments: &[Argument]) -> bool
    ensures { IsTrue result ↔ AllByRecursion IsBuiltArgument arguments.now }
{
    for argument in arguments {
        if !is_built_argument(argument) {
            return false;
        }
    }
    true
}

fn is_built_argument(argument: &Argument) -> bool
    ensures { IsTrue result ↔ IsBuiltArgument argument.now }
{
    is_built_optional(&argument.value) && is_built_output(&argument.targets)
}

fn is_built_output(targets: &Option<Seq<Lvalue>>) -> bool
    ensures { IsTrue result ↔ IsBuiltOutput targets.now }
{
    match targets {
        None => true,
        Some(targets) => are_built_targets(targets.as_slice()),
    }
}
