// Where a call may stand (IEEE 1800-2017, 13.4): E24, E25, E27, E32.
ghost use Rattle.std.specs.Prelude.{◌≡◌, ◌&&◌};
ghost use Rattle.sv_names.specs.Calls as calls;
ghost use Rattle.sv_names.specs.Checked as rules;
ghost use Rattle.sv_names.specs.Given.{Gives};
ghost use Rattle.sv_names.specs.Views.{around_in};

use sv_names::{Around, Refusal};
use sv_value::Place;

/// A rule, which is broken where a test holds.
pub fn rule(number: u8, at: Place, is_broken: bool) -> Result<(), Refusal>
    ensures { Gives result (rules.rule number at is_broken) }
{
    if is_broken {
        Err(Refusal::Rule { rule: number, at })
    } else {
        Ok(())
    }
}

/// E24, E25: a call stands where none may be evaluated.
pub fn call_stands(around: &Around, at: Place) -> Result<(), Refusal>
    ensures { Gives result (calls.call_stands (around_in around.now) at) }
{
    match around.call_rule {
        None => Ok(()),
        Some(rule) => Err(Refusal::Rule { rule, at }),
    }
}

/// E32: a call that gives nothing stands for a value.
pub fn value_stands(at: Place, is_value: bool, gives_nothing: bool) -> Result<(), Refusal>
    ensures { Gives result (rules.rule 32 at (is_value && gives_nothing)) }
{
    rule(32, at, is_value && gives_nothing)
}

/// E27: a task stands where nothing may wait.
pub fn task_stands(around: &Around, at: Place, is_task: bool) -> Result<(), Refusal>
    ensures { Gives result (rules.rule 27 at (around.now.may_not_wait && is_task)) }
{
    rule(27, at, around.may_not_wait && is_task)
}
