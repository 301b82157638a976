// System tasks that end a run (IEEE 1800-2017, 20.2 and 24.7): E11, E12, E15, E31, E49.
ghost use Rattle.std.specs.Prelude.{◌≡◌, ℤ as int};
ghost use Rattle.sv_names.specs.declared.checked.Checked.{Checked as checked};
ghost use Rattle.sv_names.specs.Checked.{◌▷◌};
ghost use Rattle.sv_names.specs.Events as events;
ghost use Rattle.sv_names.specs.Given.{Gives};
ghost use Rattle.sv_names.specs.Views.{around_in};
ghost use Rattle.sv_elab_task.specs.Tasks as tasks;

use std::alloc::Global;
use sv_elab_expr::sv_elab_value::{constant_number, pure, rule, values_stand};
use sv_flat::Form;
use sv_names::{Arg, Around, Hoisted, Refusal, where_also};
use sv_value::{Place, Seq};

/// A rule that a task breaks, beside what its arguments break by themselves.
pub fn refused(rule: u8, at: Place, args: &[Arg]) -> Result<Hoisted<Form>, Refusal>
    ensures { Gives result (tasks.refused rule at args.now) }
{
    where_also(Err(Refusal::Rule { rule, at }), values_stand(args))
}

/// E12: what `$finish` is given is 0, 1 or 2.
#[tactic(auto, using(crate::proofs::TaskLaws::finish_below, crate::proofs::TaskLaws::finish_inside, crate::proofs::TaskLaws::finish_above))]
fn finish_within(alloc: Global, at: Place, number: i128) -> Result<Hoisted<Form>, Refusal>
    ensures { Gives result (tasks.finish_within at number) }
{
    if number < 0 {
        return Err(Refusal::Rule { rule: 12, at });
    }
    if number < 3 {
        return Ok(pure(alloc, Form::Finish));
    }
    Err(Refusal::Rule { rule: 12, at })
}

/// E11, E12, E15: a constant, at this place.
fn finish_by(
    alloc: Global,
    at: Place,
    number: Result<i128, Refusal>,
) -> Result<Hoisted<Form>, Refusal>
    ensures { (x : checked int) → Gives number x → Gives result (x ▷ tasks.finish_within at) }
{
    match number {
        Ok(number) => finish_within(alloc, at, number),
        Err(e) => Err(e),
    }
}

/// `$finish` with one argument.
fn finish_with(alloc: Global, a: Arg) -> Result<Hoisted<Form>, Refusal>
    ensures { Gives result (tasks.finish_with a) }
{
    let at = a.at;
    match a.into_value() {
        Ok(t) => finish_by(alloc, at, constant_number(at, &t)),
        Err(e) => Err(e),
    }
}

/// The first argument, where there is one.
fn first_of(args: Seq<Arg>) -> Option<Arg>
    ensures { result ≡ tasks.first_of args }
{
    args.into_vec().into_iter().next()
}

/// `$finish` with at most one argument.
fn finish_first(alloc: Global, first: Option<Arg>) -> Result<Hoisted<Form>, Refusal>
    ensures { Gives result (tasks.finish_first first) }
{
    match first {
        None => Ok(pure(alloc, Form::Finish)),
        Some(a) => finish_with(alloc, a),
    }
}

/// `$finish` (20.2). E31: it has more than one argument; E11, E12 and E15: its argument is not one of the constants 0, 1 and 2.
#[tactic(auto, using(crate::proofs::TaskLaws::few_finish))]
pub fn finish(alloc: Global, at: Place, args: Seq<Arg>) -> Result<Hoisted<Form>, Refusal>
    ensures { Gives result (events.finish_of at args) }
{
    if 1 < args.as_slice().len() {
        return refused(31, at, args.as_slice());
    }
    finish_first(alloc, first_of(args))
}

/// E31: nothing between the brackets.
fn no_arguments(at: Place, args: &[Arg]) -> Result<(), Refusal>
    ensures { Gives result (events.no_arguments at args.now) }
{
    match args {
        [] => Ok(()),
        [_, ..] => Err(Refusal::Rule { rule: 31, at }),
    }
}

/// `$exit` (24.7). E31: it has arguments; E49: it stands outside a program.
pub fn exit(
    alloc: Global,
    at: Place,
    args: &[Arg],
    around: &Around,
) -> Result<Hoisted<Form>, Refusal>
    ensures { Gives result (tasks.exit (around_in around.now) at args.now) }
{
    let form = where_also(Ok(pure(alloc, Form::Exit)), no_arguments(at, args));
    where_also(form, rule(49, at, !around.is_program))
}
