// Concatenations as targets (IEEE 1800-2017, 11.4.12): E13, E15, E42.
ghost use Rattle.std.specs.Prelude.{◌≡◌, ◌++◌, Some, None, IfOk, IfErr};
ghost use Rattle.sv_names.specs.declared.checked.Checked.TheVariants.{Good};
ghost use Rattle.sv_names.specs.declared.refusal.Refusal.TheVariants.{Memory};
ghost use Rattle.sv_names.specs.Checked.{◌▷◌};
ghost use Rattle.sv_names.specs.Expressions as expressions;
ghost use Rattle.sv_names.specs.Joined.{joined};
ghost use Rattle.sv_names.specs.Targets as targets;

use std::alloc::Global;
use sv_elab_call::sv_elab_select::{Spot, concatenated};
use sv_names::{Checked, Refusal, answer, earlier_in, judged};
use sv_value::{Place, Seq};

/// The items of two lists.
fn appended(list: Seq<Spot>, next: Seq<Spot>) -> Result<Seq<Spot>, Refusal>
    ensures ok { IfOk result (λ xs. xs ≡ list ++ next) }
    ensures err { IfErr result (λ e. e ≡ Memory) }
{
    let mut items = list.into_vec();
    let mut more = next.into_vec();
    items.append(&mut more)?;
    Ok(Seq::from_vec(items))
}

/// Parts that break no rule, and one more behind them.
fn good_spots(list: Seq<Spot>, next: Checked<Seq<Spot>>) -> Result<Checked<Seq<Spot>>, Refusal>
    ensures ok { IfOk result (λ c. c ≡ joined (Good list) next) }
    ensures err { IfErr result (λ e. e ≡ Memory) }
{
    match next {
        Checked::Good(next) => {
            let items = appended(list, next)?;
            Ok(Checked::Good(items))
        }
        Checked::Broken(g) => Ok(Checked::Broken(g)),
    }
}

/// Parts, and one more behind them.
fn and_spots(
    list: Checked<Seq<Spot>>,
    next: Checked<Seq<Spot>>,
) -> Result<Checked<Seq<Spot>>, Refusal>
    ensures ok { IfOk result (λ c. c ≡ joined list next) }
    ensures err { IfErr result (λ e. e ≡ Memory) }
{
    match list {
        Checked::Good(list) => good_spots(list, next),
        Checked::Broken(f) => Ok(Checked::Broken(earlier_in(f, &next))),
    }
}

/// All parts, if all can be targets.
fn all_spots(
    alloc: Global,
    parts: Vec<Option<Checked<Seq<Spot>>>>,
) -> Result<Option<Checked<Seq<Spot>>>, Refusal>
    ensures ok { IfOk result (λ t. t ≡ expressions.all_spots parts.items) }
    ensures err { IfErr result (λ e. e ≡ Memory) }
{
    let mut list = Checked::Good(Seq::new(alloc));
    for part in parts {
        let Some(next) = part else {
            return Ok(None);
        };
        list = and_spots(list, next)?;
    }
    Ok(Some(list))
}

/// A concatenation that breaks a rule or not.
fn concatenation(at: Place, parts: Checked<Seq<Spot>>) -> Result<Checked<Seq<Spot>>, Refusal>
    ensures ok { IfOk result (λ c. c ≡ (parts ▷ targets.concatenated at)) }
    ensures err { IfErr result (λ e. e ≡ Memory) }
{
    judged(concatenated(at, answer(parts)))
}

/// A concatenation as a target; none where one of its parts can be none. E15 and E42: a part is no number; E13: it is wider than 64 bits.
pub fn as_concatenation(
    alloc: Global,
    at: Place,
    parts: Vec<Option<Checked<Seq<Spot>>>>,
) -> Result<Option<Checked<Seq<Spot>>>, Refusal>
    ensures ok { IfOk result (λ t. t ≡ expressions.as_concatenation at (expressions.all_spots parts.items)) }
    ensures err { IfErr result (λ e. e ≡ Memory) }
{
    match all_spots(alloc, parts)? {
        None => Ok(None),
        Some(parts) => {
            let whole = concatenation(at, parts)?;
            Ok(Some(whole))
        }
    }
}
