// Parts with their calls, one behind another.
ghost use Rattle.std.specs.Prelude.{◌≡◌, ◌∷◌, [], ◌++◌, IfOk, IfErr};
ghost use Rattle.sv_names.specs.declared.refusal.Refusal.TheVariants.{Memory};
ghost use Rattle.sv_names.specs.Hoisted as hoisted;

use crate::list::put_last;
use std::alloc::Global;
use sv_elab_value::{paired, pure};
use sv_names::{Hoisted, Refusal};
use sv_value::Seq;

/// A row of parts, and one more behind them.
pub fn row_behind<T: Drop>(
    row: Hoisted<Seq<T>>,
    next: Hoisted<T>,
) -> Result<Hoisted<Seq<T>>, Refusal>
    ensures ok { IfOk result (λ r. r ≡ hoisted.paired (λ xs x. xs ++ x ∷ []) row next) }
    ensures err { IfErr result (λ e. e ≡ Memory) }
{
    let both = paired(row, next)?;
    let (list, last) = both.value;
    let value = put_last(list, last)?;
    Ok(Hoisted {
        hidden: both.hidden,
        calls: both.calls,
        value,
    })
}

/// Parts with their calls, from the left.
#[tactic(auto, using(crate::proofs::HeadLaws::row_first, crate::proofs::HeadLaws::row_next))]
pub fn in_row<T: Drop>(alloc: Global, parts: Seq<Hoisted<T>>) -> Result<Hoisted<Seq<T>>, Refusal>
    ensures ok { IfOk result (λ r. r ≡ hoisted.in_row parts) }
    ensures err { IfErr result (λ e. e ≡ Memory) }
{
    let mut row = pure(alloc, Seq::new(alloc));
    for part in parts.into_vec() {
        row = row_behind(row, part)?;
    }
    Ok(row)
}
