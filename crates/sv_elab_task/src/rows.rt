// Values with their calls, one behind another.
ghost use Rattle.std.specs.Prelude.{◌≡◌, ◌∷◌, [], ◌++◌, IfOk, IfErr};
ghost use Rattle.sv_names.specs.declared.refusal.Refusal.TheVariants.{Memory};
ghost use Rattle.sv_names.specs.Hoisted as hoisted;

use std::alloc::Global;
use sv_elab_expr::sv_elab_value::{paired, pure};
use sv_flat::Expr;
use sv_names::{Hoisted, Refusal};
use sv_value::Seq;

/// A row of values, and one more behind them.
fn row_behind(row: Hoisted<Seq<Expr>>, next: Hoisted<Expr>) -> Result<Hoisted<Seq<Expr>>, Refusal>
    ensures ok { IfOk result (λ r. r ≡ hoisted.paired (λ xs x. xs ++ x ∷ []) row next) }
    ensures err { IfErr result (λ e. e ≡ Memory) }
{
    let both = paired(row, next)?;
    let (values, value) = both.value;
    let mut values = values;
    values.push(value)?;
    Ok(Hoisted {
        hidden: both.hidden,
        calls: both.calls,
        value: values,
    })
}

/// Values with their calls, from the left.
#[tactic(auto, using(crate::proofs::RowLaws::row_first, crate::proofs::RowLaws::row_next))]
pub fn in_row(alloc: Global, values: Seq<Hoisted<Expr>>) -> Result<Hoisted<Seq<Expr>>, Refusal>
    ensures ok { IfOk result (λ r. r ≡ hoisted.in_row values) }
    ensures err { IfErr result (λ e. e ≡ Memory) }
{
    let mut row = pure(alloc, Seq::new(alloc));
    for value in values.into_vec() {
        row = row_behind(row, value)?;
    }
    Ok(row)
}
