// Where the value of an assignment stands: behind the hidden variables of what stands before it (IEEE 1800-2017, 10.4 and 13.4).
ghost use Rattle.std.specs.Prelude.{◌≡◌, ◌+◌, ◌-◌, ◌^◌, min, length};
ghost use Rattle.sv_names.specs.Assignments as assignments;
ghost use Rattle.sv_names.specs.Checked.{given, both};
ghost use Rattle.sv_names.specs.Named as names;
ghost use Rattle.sv_names.specs.Named.{behind};
ghost use Rattle.sv_names.specs.Targets as targets;
ghost use Rattle.sv_names.specs.Views.{around_in};
ghost use Rattle.sv_elab_assign.specs.Amounts.{amount_if};
ghost use Rattle.sv_elab_assign.specs.Places as places;

use crate::amount::Amount;
use sv_elab_call::sv_elab_select::{Spot, hidden_of_spots};
use sv_names::{Around, Checked, Typed};
use sv_value::Seq;

// ---- how many hidden variables

/// How many hidden variables a target takes; more than every limit are not told from others.
fn hidden_in_target(target: &Checked<Seq<Spot>>) -> u32
    ensures { result ≡ min (targets.hidden_in_target target.now) (2 ^ 32 - 1) }
{
    match target {
        Checked::Good(spots) => hidden_of_spots(spots.as_slice()),
        Checked::Broken(_) => 0,
    }
}

/// The same of a delay.
fn hidden_in_amount(amount: &Option<Amount>) -> u32
    ensures { result ≡ min (assignments.hidden_in_amount (amount_if amount.now)) (2 ^ 32 - 1) }
{
    match amount {
        None => 0,
        Some(amount) => u32::try_from(amount.amount.hidden.as_slice().len()).unwrap_or(u32::MAX),
    }
}

/// The same of the parts of a target and of a delay.
fn hidden_of_parts(spots: &[Spot], amount: &Option<Amount>) -> u32
    ensures { result ≡ min (targets.hidden_of_spots spots.now
        + assignments.hidden_in_amount (amount_if amount.now)) (2 ^ 32 - 1) }
{
    hidden_of_spots(spots).saturating_add(hidden_in_amount(amount))
}

/// The same of a target and a delay, each of which may break a rule.
fn hidden_before_value(target: &Checked<Seq<Spot>>, amount: &Checked<Option<Amount>>) -> u32
    ensures { result ≡ min (assignments.hidden_before_value target.now (given amount_if amount.now)) (2 ^ 32 - 1) }
{
    match amount {
        Checked::Good(amount) => {
            hidden_in_target(target).saturating_add(hidden_in_amount(amount))
        }
        Checked::Broken(_) => hidden_in_target(target),
    }
}

/// The same of an expression.
fn hidden_in_value(value: &Checked<Typed>) -> u32
    ensures { result ≡ min (names.hidden_in value.now) (2 ^ 32 - 1) }
{
    match value {
        Checked::Good(t) => u32::try_from(t.code.hidden.as_slice().len()).unwrap_or(u32::MAX),
        Checked::Broken(_) => 0,
    }
}

// ---- what stands behind them

/// What stands behind a target, as a delay does.
pub fn behind_target<'a>(around: &Around<'a>, target: &Checked<Seq<Spot>>) -> Around<'a>
    ensures { around_in result ≡ behind (targets.hidden_in_target target.now) (around_in around.now) }
{
    around.behind(hidden_in_target(target))
}

/// What stands behind a target and a delay that break no rule.
pub(crate) fn behind_parts<'a>(
    around: &Around<'a>,
    spots: &[Spot],
    amount: &Option<Amount>,
) -> Around<'a>
    ensures { around_in result ≡ places.behind_parts (around_in around.now) spots.now (amount_if amount.now) }
{
    around.behind(hidden_of_parts(spots, amount))
}

/// Where the value of a blocking assignment stands: behind its target and its delay, where these break no rule.
pub fn value_around<'a>(
    around: &Around<'a>,
    target: &Checked<Seq<Spot>>,
    amount: &Checked<Option<Amount>>,
) -> Around<'a>
    ensures { around_in result
        ≡ places.value_around (around_in around.now) target.now (given amount_if amount.now) }
{
    match target {
        Checked::Good(spots) => match amount {
            Checked::Good(amount) => behind_parts(around, spots.as_slice(), amount),
            Checked::Broken(_) => *around,
        },
        Checked::Broken(_) => *around,
    }
}

/// Where the array that `new[n](old)` copies stands: behind the number of items too, where target and delay break no rule.
pub fn source_around<'a>(
    around: &Around<'a>,
    target: &Checked<Seq<Spot>>,
    amount: &Checked<Option<Amount>>,
    size: &Checked<Typed>,
) -> Around<'a>
    ensures { around_in result ≡ places.source_around (around_in around.now)
        (both target.now (given amount_if amount.now)) size.now }
{
    match target {
        Checked::Good(spots) => match amount {
            Checked::Good(amount) => {
                behind_parts(around, spots.as_slice(), amount).behind(hidden_in_value(size))
            }
            Checked::Broken(_) => *around,
        },
        Checked::Broken(_) => *around,
    }
}

/// Where the value of a nonblocking assignment stands: behind its target, and behind its delay where that breaks no rule.
pub fn later_around<'a>(
    around: &Around<'a>,
    target: &Checked<Seq<Spot>>,
    amount: &Checked<Option<Amount>>,
) -> Around<'a>
    ensures { around_in result
        ≡ places.later_around (around_in around.now) target.now (given amount_if amount.now) }
{
    around.behind(hidden_before_value(target, amount))
}

/// Where the operand of `a op= e` stands: behind its target, where that breaks no rule.
pub fn operand_around<'a>(around: &Around<'a>, target: &Checked<Seq<Spot>>) -> Around<'a>
    ensures { around_in result ≡ places.operand_around (around_in around.now) target.now }
{
    match target {
        Checked::Good(spots) => around.behind(hidden_of_spots(spots.as_slice())),
        Checked::Broken(_) => *around,
    }
}
