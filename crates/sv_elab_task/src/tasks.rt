// System tasks and functions as statements (IEEE 1800-2017, 20 and 21): E55, and the rules of each.
ghost use Rattle.std.specs.Prelude.{◌≡◌, []};
ghost use Rattle.sv_tree.specs.View as view;
ghost use Rattle.sv_names.specs.Events as events;
ghost use Rattle.sv_names.specs.Expressions as expressions;
ghost use Rattle.sv_names.specs.Given.{Gives};
ghost use Rattle.sv_names.specs.Named.{raised};
ghost use Rattle.sv_names.specs.Views.{around_in};
ghost use Rattle.sv_elab_task.specs.Tasks as tasks;

use crate::actuals::actual_args;
use crate::ends::{exit, finish, refused};
use crate::forms::{call_form, dropped};
use crate::prints::{print_later, print_line, write};
use std::alloc::Global;
use sv_elab_expr::sv_elab_call::cast_called;
use sv_elab_expr::sv_elab_step::{first_type, outputs_of_system, system_of, system_value};
use sv_elab_expr::sv_elab_value::pure;
use sv_elab_flow::{needs_activation, raised};
use sv_flat::{Form, PrintKind};
use sv_names::{Around, Hoisted, Refusal, System};
use sv_tree::{Actuals, Name};
use sv_value::Place;

// ---- over their arguments in brackets

/// `$finish` with its brackets.
fn finish_of(
    alloc: Global,
    at: Place,
    actuals: &Actuals,
    around: &Around,
) -> Result<Hoisted<Form>, Refusal>
    ensures { Gives result (events.finish_of at (expressions.actual_args (around_in around.now) [] (view.actuals actuals.now))) }
{
    let args = actual_args(alloc, &[], actuals, around)?;
    finish(alloc, at, args)
}

/// `$exit` with its brackets.
fn exit_of(
    alloc: Global,
    at: Place,
    actuals: &Actuals,
    around: &Around,
) -> Result<Hoisted<Form>, Refusal>
    ensures { Gives result (tasks.exit (around_in around.now) at (expressions.actual_args (around_in around.now) [] (view.actuals actuals.now))) }
{
    let args = actual_args(alloc, &[], actuals, around)?;
    exit(alloc, at, args.as_slice(), around)
}

/// `$cast` (8.16); `answers` tells whether its result is asked for.
fn cast_of(
    alloc: Global,
    answers: bool,
    at: Place,
    actuals: &Actuals,
    around: &Around,
) -> Result<Hoisted<Form>, Refusal>
    ensures { Gives result (tasks.cast_of (around_in around.now) answers at (view.actuals actuals.now)) }
{
    let outputs = outputs_of_system(System::Cast, actuals);
    let args = actual_args(alloc, outputs, actuals, around)?;
    call_form(alloc, cast_called(alloc, around, answers, at, args))
}

/// A system function whose value is dropped.
fn value_of(
    alloc: Global,
    at: Place,
    system: System,
    actuals: &Actuals,
    around: &Around,
) -> Result<Hoisted<Form>, Refusal>
    ensures { Gives result (tasks.value_of (around_in around.now) at (view.actuals actuals.now) system) }
{
    let ty = first_type(alloc, around, actuals)?;
    let args = actual_args(alloc, outputs_of_system(system, actuals), actuals, around)?;
    dropped(alloc, system_value(alloc, around, at, ty, args, system))
}

/// E55: there is no such task.
fn unknown(
    alloc: Global,
    at: Place,
    actuals: &Actuals,
    around: &Around,
) -> Result<Hoisted<Form>, Refusal>
    ensures { Gives result (tasks.refused 55 at (expressions.actual_args (around_in around.now) [] (view.actuals actuals.now))) }
{
    let args = actual_args(alloc, &[], actuals, around)?;
    refused(55, at, args.as_slice())
}

// ---- by their names

/// A system task or function as a statement, by what its name is.
fn task_by(
    alloc: Global,
    at: Place,
    system: System,
    actuals: &Actuals,
    around: &Around,
) -> Result<Hoisted<Form>, Refusal>
    ensures { Gives result (events.system_task (around_in around.now) at (view.actuals actuals.now) system) }
{
    match system {
        System::Display => print_line(alloc, PrintKind::Now, actuals, around),
        System::Write => write(alloc, actuals, around),
        System::Strobe => print_later(alloc, PrintKind::Strobe, actuals, around),
        System::Monitor => print_later(alloc, PrintKind::Monitor, actuals, around),
        System::Finish => finish_of(alloc, at, actuals, around),
        System::Exit => exit_of(alloc, at, actuals, around),
        System::Dump => Ok(pure(alloc, Form::Null)),
        System::Cast => cast_of(alloc, false, at, actuals, around),
        System::Unknown => unknown(alloc, at, actuals, around),
        System::Time => value_of(alloc, at, system, actuals, around),
        System::Bits => value_of(alloc, at, system, actuals, around),
        System::Clog2 => value_of(alloc, at, system, actuals, around),
        System::Signed => value_of(alloc, at, system, actuals, around),
        System::Unsigned => value_of(alloc, at, system, actuals, around),
        System::Sformatf => value_of(alloc, at, system, actuals, around),
    }
}

/// The same, where `void'(..)` drops its value.
#[tactic(auto, using(crate::proofs::TaskLaws::other_ignored))]
fn ignored_by(
    alloc: Global,
    at: Place,
    system: System,
    actuals: &Actuals,
    around: &Around,
) -> Result<Hoisted<Form>, Refusal>
    ensures { Gives result (events.system_ignored (around_in around.now) at (view.actuals actuals.now) system) }
{
    match system {
        System::Cast => cast_of(alloc, true, at, actuals, around),
        _ => value_of(alloc, at, system, actuals, around),
    }
}

/// A system task as a statement, in variables of this activation.
fn task_once(
    alloc: Global,
    name: &Name,
    actuals: &Actuals,
    around: &Around,
) -> Result<Hoisted<Form>, Refusal>
    ensures { Gives result (events.system_task (around_in around.now) name.now.at (view.actuals actuals.now) (expressions.system_of name.now)) }
{
    let system = system_of(name.text.bytes());
    task_by(alloc, name.at, system, actuals, around)
}

/// A system task or function as a statement.
#[tactic(auto, using(sv_elab_flow::proofs::RaisedLaws::raised_once, sv_elab_flow::proofs::RaisedLaws::raised_again))]
pub fn task(
    alloc: Global,
    name: &Name,
    actuals: &Actuals,
    around: &Around,
) -> Result<Hoisted<Form>, Refusal>
    ensures { Gives result (raised (around_in around.now)
        (λ i. events.system_task i name.now.at (view.actuals actuals.now) (expressions.system_of name.now))) }
{
    let form = task_once(alloc, name, actuals, around);
    if needs_activation(&form) {
        return task_once(alloc, name, actuals, &raised(around));
    }
    form
}

/// The same within `void'(..)`, in variables of this activation.
fn ignored_once(
    alloc: Global,
    name: &Name,
    actuals: &Actuals,
    around: &Around,
) -> Result<Hoisted<Form>, Refusal>
    ensures { Gives result (events.system_ignored (around_in around.now) name.now.at (view.actuals actuals.now) (expressions.system_of name.now)) }
{
    let system = system_of(name.text.bytes());
    ignored_by(alloc, name.at, system, actuals, around)
}

/// A system function within `void'(..)` (13.4.1).
#[tactic(auto, using(sv_elab_flow::proofs::RaisedLaws::raised_once, sv_elab_flow::proofs::RaisedLaws::raised_again))]
pub fn ignored_task(
    alloc: Global,
    name: &Name,
    actuals: &Actuals,
    around: &Around,
) -> Result<Hoisted<Form>, Refusal>
    ensures { Gives result (raised (around_in around.now)
        (λ i. events.system_ignored i name.now.at (view.actuals actuals.now) (expressions.system_of name.now))) }
{
    let form = ignored_once(alloc, name, actuals, around);
    if needs_activation(&form) {
        return ignored_once(alloc, name, actuals, &raised(around));
    }
    form
}
