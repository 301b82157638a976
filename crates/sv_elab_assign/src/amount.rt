// Delays, behind a `#` and behind the `=` of an assignment (IEEE 1800-2017, 3.14.1, 9.4 and 9.4.5): E15, E27, E28, E42, E52.
ghost use Rattle.std.specs.Prelude.{◌≡◌, IfOk, IfErr};
ghost use Rattle.sv_tree.specs.Expr as tree;
ghost use Rattle.sv_names.specs.declared.refusal.Refusal.TheVariants.{Memory};
ghost use Rattle.sv_names.specs.Assignments as assignments;
ghost use Rattle.sv_names.specs.Calls as calls;
ghost use Rattle.sv_names.specs.Checked.{given};
ghost use Rattle.sv_names.specs.Given.{Gives};
ghost use Rattle.sv_names.specs.Views.{around_in};
ghost use Rattle.sv_elab_assign.specs.Amounts as amounts;
ghost use Rattle.sv_elab_assign.specs.Amounts.{amount_in, amount_if};

use std::alloc::Global;
use sv_elab_operator::time;
use sv_elab_value::{alone, code_of, operand};
use sv_flat::{Expr, Scale};
use sv_names::{Around, Checked, Fault, Hoisted, Refusal, Typed, answer, earlier_in, judged};
use sv_value::Place;

/// A delay.
#[derive(Drop)]
pub struct Amount {
    /// How long it lasts.
    pub amount: Hoisted<Expr>,
    /// Whether it is a time literal alone, which counts ticks.
    pub in_ticks: bool,
}

// ---- a time literal

/// Ticks as units.
fn tick_scale(scale: Scale) -> Scale
    ensures { result ≡ amounts.tick_scale scale }
{
    Scale {
        unit: scale.precision,
        precision: scale.precision,
    }
}

/// So many ticks, where they break no rule.
fn ticks_given(value: Checked<Typed>) -> Checked<Amount>
    ensures { given amount_in result ≡ given amounts.ticks_of value }
{
    match value {
        Checked::Good(t) => Checked::Good(Amount {
            amount: code_of(t),
            in_ticks: true,
        }),
        Checked::Broken(f) => Checked::Broken(f),
    }
}

/// A time literal that stands alone counts ticks. E52: it is no whole number of them, or 2^63 of them or more.
#[tactic(auto, using(crate::proofs::AmountLaws::ticks_are))]
pub fn time_amount(
    alloc: Global,
    around: &Around,
    at: Place,
    text: &[u8],
) -> Result<Checked<Amount>, Refusal>
    ensures ok { IfOk result (λ c. given amount_in c ≡ assignments.amount_of (around_in around.now) (tree.Time at text.now)) }
    ensures err { IfErr result (λ e. e ≡ Memory) }
{
    let scale = tick_scale(around.scale);
    let ticks = judged(time(alloc, &scale, at, text))?;
    Ok(ticks_given(ticks))
}

// ---- a number of units

/// So many units.
fn units(alloc: Global, t: Typed) -> Result<Amount, Refusal>
    ensures ok { IfOk result (λ a. amount_in a ≡ amounts.units_of t) }
    ensures err { IfErr result (λ e. e ≡ Memory) }
{
    let amount = alone(alloc, t)?;
    Ok(Amount {
        amount,
        in_ticks: false,
    })
}

/// So many units, where they break no rule.
fn units_given(alloc: Global, value: Checked<Typed>) -> Result<Checked<Amount>, Refusal>
    ensures ok { IfOk result (λ c. given amount_in c ≡ given amounts.units_of value) }
    ensures err { IfErr result (λ e. e ≡ Memory) }
{
    match value {
        Checked::Good(t) => {
            let amount = units(alloc, t)?;
            Ok(Checked::Good(amount))
        }
        Checked::Broken(f) => Ok(Checked::Broken(f)),
    }
}

/// Any other expression, whose first token stands at `at`, counts units. E15 and E42: it is no number.
pub fn number_amount(
    alloc: Global,
    at: Place,
    value: Checked<Typed>,
) -> Result<Checked<Amount>, Refusal>
    ensures ok { IfOk result (λ c. given amount_in c ≡ amounts.number_amount at value) }
    ensures err { IfErr result (λ e. e ≡ Memory) }
{
    let number = judged(operand(at, answer(value)))?;
    units_given(alloc, number)
}

// ---- where a timing control may stand

/// E27: what may wait stands where nothing may.
pub fn wait_stands(around: &Around, at: Place) -> Checked<()>
    ensures { result ≡ calls.wait_stands (around_in around.now) at }
{
    if around.may_not_wait {
        Checked::Broken(Fault { at, rule: 27 })
    } else {
        Checked::Good(())
    }
}

/// E28: a timing control stands in an `always_ff` beside its first one.
pub fn timing_stands(around: &Around) -> Result<(), Refusal>
    ensures { Gives result (assignments.timing_stands (around_in around.now)) }
{
    match around.clocked {
        None => Ok(()),
        Some(at) => Err(Refusal::Rule { rule: 28, at }),
    }
}

/// A delay that breaks no rule, where one may stand.
fn standing(amount: Amount, stands: Checked<()>) -> Checked<Option<Amount>>
    ensures { given amount_if result ≡ amounts.standing (amount_in amount) stands }
{
    match stands {
        Checked::Good(()) => Checked::Good(Some(amount)),
        Checked::Broken(f) => Checked::Broken(f),
    }
}

/// A delay behind the `=`, at its `#`. E27: nothing may wait there.
#[tactic(auto, using(crate::proofs::BesideLaws::guarded_broken))]
pub fn delay_given(around: &Around, at: Place, amount: Checked<Amount>) -> Checked<Option<Amount>>
    ensures { given amount_if result ≡ amounts.delay_given (around_in around.now) at (given amount_in amount) }
{
    let stands = wait_stands(around, at);
    match amount {
        Checked::Good(amount) => standing(amount, stands),
        Checked::Broken(f) => Checked::Broken(earlier_in(f, &stands)),
    }
}
