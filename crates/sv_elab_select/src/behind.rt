// What stands behind a target, whose hidden variables are numbered first (IEEE 1800-2017, 10.4 and 13.4).
ghost use Rattle.std.specs.Prelude.{◌≡◌, ◌-◌, ◌^◌, min, length, List, IfOk, IfErr};
ghost use Rattle.sv_names.specs.declared.checked.Checked.{Checked as checked};
ghost use Rattle.sv_names.specs.declared.refusal.Refusal.TheVariants.{Memory};
ghost use Rattle.sv_names.specs.Named as names;
ghost use Rattle.sv_names.specs.Targets as targets;
ghost use Rattle.sv_names.specs.Views.{around_in};
ghost use Rattle.sv_names.specs.Given.{Gives};

use crate::targets::Spot;
use sv_names::{Around, Refusal, Typed};
use sv_value::Seq;

/// How many hidden variables an expression takes; more than every limit are not told from others.
fn hidden_of(t: &Typed) -> u32
    ensures { result ≡ min (length t.now.code.hidden) (2 ^ 32 - 1) }
{
    u32::try_from(t.code.hidden.as_slice().len()).unwrap_or(u32::MAX)
}

/// How many hidden variables the parts of a target take; more than every limit are not told from others.
pub fn hidden_of_spots(spots: &[Spot]) -> u32
    ensures { result ≡ min (targets.hidden_of_spots spots.now) (2 ^ 32 - 1) }
{
    match spots {
        [] => 0,
        [spot, rest @ ..] => hidden_of(&spot.1).saturating_add(hidden_of_spots(rest)),
    }
}

/// What stands behind a target. One that breaks a rule takes no hidden variables.
pub fn behind_target<'a>(
    around: &Around<'a>,
    target: &Result<Seq<Spot>, Refusal>,
) -> Result<Around<'a>, Refusal>
    ensures ok { (x : checked (List targets.Spot)) → Gives target.now x
        → IfOk result (λ r. around_in r ≡ names.behind (targets.hidden_in_target x) (around_in around.now)) }
    ensures err { IfErr result (λ e. e ≡ Memory) }
{
    match target {
        Ok(spots) => Ok(around.behind(hidden_of_spots(spots.as_slice()))),
        Err(Refusal::Rule { .. }) => Ok(around.behind(0)),
        Err(Refusal::Memory) => Err(Refusal::Memory),
    }
}
