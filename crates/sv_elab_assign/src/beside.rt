// What the parts of an assignment break beside one another.
ghost use Rattle.std.specs.Prelude.{◌≡◌};
ghost use Rattle.sv_names.specs.Checked as rules;
ghost use Rattle.sv_names.specs.Checked.{given};
ghost use Rattle.sv_names.specs.Given.{Gives};
ghost use Rattle.sv_elab_assign.specs.Amounts.{amount_if};
ghost use Rattle.sv_elab_assign.specs.Wholes as wholes;

use crate::amount::Amount;
use sv_elab_call::sv_elab_select::Spot;
use sv_flat::Form;
use sv_names::{Checked, Fault, Hoisted, Refusal, earlier_in};
use sv_value::Seq;

/// Whether a part breaks no rule.
pub(crate) fn only<A>(part: &Checked<A>) -> Checked<()>
    ensures { result ≡ rules.only part.now }
{
    match part {
        Checked::Good(_) => Checked::Good(()),
        Checked::Broken(f) => Checked::Broken(*f),
    }
}

/// A broken rule, beside what else may break one.
pub(crate) fn also_broken(f: Fault, also: &Checked<()>) -> Result<Hoisted<Form>, Refusal>
    ensures { Gives result (rules.also_broken f also.now) }
{
    match also {
        Checked::Good(()) => Err(f.refusal()),
        Checked::Broken(g) => Err(f.earlier(*g).refusal()),
    }
}

/// A target that breaks no rule, and a delay.
fn with_amount(
    spots: Seq<Spot>,
    amount: Checked<Option<Amount>>,
) -> Checked<(Seq<Spot>, Option<Amount>)>
    ensures { given wholes.parts_in result ≡ given (wholes.with_spots spots) (given amount_if amount) }
{
    match amount {
        Checked::Good(amount) => Checked::Good((spots, amount)),
        Checked::Broken(f) => Checked::Broken(f),
    }
}

/// A target and a delay, each of which may break a rule.
#[tactic(auto, using(crate::proofs::BesideLaws::spots_first, crate::proofs::BesideLaws::broken_first))]
pub(crate) fn both_parts(
    target: Checked<Seq<Spot>>,
    amount: Checked<Option<Amount>>,
) -> Checked<(Seq<Spot>, Option<Amount>)>
    ensures { given wholes.parts_in result ≡ rules.both target (given amount_if amount) }
{
    match target {
        Checked::Good(spots) => with_amount(spots, amount),
        Checked::Broken(f) => Checked::Broken(earlier_in(f, &amount)),
    }
}
