// Arguments with their calls, one behind another.
ghost use Rattle.std.specs.Prelude.{◌≡◌, ◌∷◌, [], ◌++◌, IfOk, IfErr};
ghost use Rattle.sv_names.specs.declared.refusal.Refusal.TheVariants.{Memory};
ghost use Rattle.sv_names.specs.Hoisted as hoisted;

use crate::given::put_behind;
use std::alloc::Global;
use sv_elab_value::{paired, pure};
use sv_flat::Argument;
use sv_names::{Hoisted, Refusal};
use sv_value::Seq;

/// Arguments, and one more behind them.
fn row_behind(
    row: Hoisted<Seq<Argument>>,
    next: Hoisted<Argument>,
) -> Result<Hoisted<Seq<Argument>>, Refusal>
    ensures ok { IfOk result (λ r. r ≡ hoisted.paired (λ xs x. xs ++ x ∷ []) row next) }
    ensures err { IfErr result (λ e. e ≡ Memory) }
{
    let both = paired(row, next)?;
    let (list, argument) = both.value;
    let value = put_behind(list, argument)?;
    Ok(Hoisted {
        hidden: both.hidden,
        calls: both.calls,
        value,
    })
}

/// Arguments with their calls, from the left.
#[tactic(auto, using(crate::proofs::RowLaws::row_first, crate::proofs::RowLaws::row_next))]
pub fn in_row(
    alloc: Global,
    arguments: Seq<Hoisted<Argument>>,
) -> Result<Hoisted<Seq<Argument>>, Refusal>
    ensures ok { IfOk result (λ r. r ≡ hoisted.in_row arguments) }
    ensures err { IfErr result (λ e. e ≡ Memory) }
{
    let mut row = pure(alloc, Seq::new(alloc));
    for argument in arguments.into_vec() {
        row = row_behind(row, argument)?;
    }
    Ok(row)
}
