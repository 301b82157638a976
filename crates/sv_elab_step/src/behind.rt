// What stands behind a part of a statement, whose hidden variables are numbered first (IEEE 1800-2017, 13.4).
ghost use Rattle.std.specs.Prelude.{◌≡◌, ◌-◌, ◌^◌, min, length, List, IfOk, IfErr};
ghost use Rattle.sv_names.specs.declared.checked.Checked.{Checked as checked};
ghost use Rattle.sv_names.specs.declared.refusal.Refusal.TheVariants.{Memory};
ghost use Rattle.sv_names.specs.declared.typed.Typed.{Typed as typed};
ghost use Rattle.sv_names.specs.Expressions as expressions;
ghost use Rattle.sv_names.specs.Named.{behind, hidden_in};
ghost use Rattle.sv_names.specs.Targets as targets;
ghost use Rattle.sv_names.specs.Views.{around_in};
ghost use Rattle.sv_names.specs.Given.{Gives};

use sv_elab_call::sv_elab_select::hidden_of_spots;
use sv_names::{Around, Checked, Refusal, Taken, Typed};
use sv_value::{Place, Seq};

/// How many hidden variables an expression takes; more than every limit are not told from others.
fn hidden_of(t: &Typed) -> u32
    ensures { result ≡ min (length t.now.code.hidden) (2 ^ 32 - 1) }
{
    u32::try_from(t.code.hidden.as_slice().len()).unwrap_or(u32::MAX)
}

/// The same of one that may break a rule.
fn hidden_in_value(value: &Checked<Typed>) -> u32
    ensures { result ≡ min (hidden_in value.now) (2 ^ 32 - 1) }
{
    match value {
        Checked::Good(t) => hidden_of(t),
        Checked::Broken(_) => 0,
    }
}

/// The same of a target that may break a rule.
fn hidden_in_target(target: &Checked<Seq<(Place, Typed)>>) -> u32
    ensures { result ≡ min (targets.hidden_in_target target.now) (2 ^ 32 - 1) }
{
    match target {
        Checked::Good(spots) => hidden_of_spots(spots.as_slice()),
        Checked::Broken(_) => 0,
    }
}

/// What stands behind a value.
pub fn after<'a>(around: &Around<'a>, a: &Result<Typed, Refusal>) -> Result<Around<'a>, Refusal>
    ensures ok { (x : checked typed) → Gives a.now x
        → IfOk result (λ r. around_in r ≡ behind (hidden_in x) (around_in around.now)) }
    ensures err { IfErr result (λ e. e ≡ Memory) }
{
    match a {
        Ok(t) => Ok(around.behind(hidden_of(t))),
        Err(Refusal::Rule { .. }) => Ok(around.behind(0)),
        Err(Refusal::Memory) => Err(Refusal::Memory),
    }
}

/// What stands behind a value that may break a rule.
pub fn behind_value<'a>(around: &Around<'a>, value: &Checked<Typed>) -> Around<'a>
    ensures { around_in result ≡ behind (hidden_in value.now) (around_in around.now) }
{
    around.behind(hidden_in_value(value))
}

/// What stands behind an argument.
pub fn behind_arg<'a>(around: &Around<'a>, taken: &Taken) -> Around<'a>
    ensures { around_in result ≡ behind (expressions.hidden_in_arg taken.now) (around_in around.now) }
{
    match taken {
        Taken::Value(value) => around.behind(hidden_in_value(value)),
        Taken::Target(target) => around.behind(hidden_in_target(target)),
    }
}

/// What stands behind a part of a target that may be none.
pub fn behind_spots<'a>(
    around: &Around<'a>,
    target: &Option<Checked<Seq<(Place, Typed)>>>,
) -> Around<'a>
    ensures { around_in result ≡ behind (expressions.hidden_in_spots target.now) (around_in around.now) }
{
    match target {
        Some(target) => around.behind(hidden_in_target(target)),
        None => around.behind(0),
    }
}
