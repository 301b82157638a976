// Delays, behind a `#` and behind the `=` of an assignment (IEEE 1800-2017, 3.14.1, 9.4.1 and 9.4.5): E15, E27, E42, E52.
ghost use Rattle.std.specs.Prelude.{◌≡◌, option_map, IfOk, IfErr};
ghost use Rattle.sv_tree.specs.StmtView as view;
ghost use Rattle.sv_tree.specs.View as tree_view;
ghost use Rattle.sv_names.specs.declared.refusal.Refusal.TheVariants.{Memory};
ghost use Rattle.sv_names.specs.Assignments as assignments;
ghost use Rattle.sv_names.specs.Checked.{given};
ghost use Rattle.sv_names.specs.Views.{around_in};
ghost use Rattle.sv_elab_assign.specs.Amounts.{amount_in, amount_if};
ghost use Rattle.sv_elab_write.specs.Delays as delays;

use std::alloc::Global;
use sv_elab_assign::{Amount, delay_given, number_amount, time_amount};
use sv_elab_expr::{expr, place_of};
use sv_names::{Around, Checked, Refusal, judged};
use sv_tree::{Delay, Expr};

/// A number of units.
fn units(alloc: Global, e: &Expr, around: &Around) -> Result<Checked<Amount>, Refusal>
    ensures ok { IfOk result (λ c. given amount_in c ≡ delays.units (around_in around.now) (tree_view.expr e.now)) }
    ensures err { IfErr result (λ e. e ≡ Memory) }
{
    let value = judged(expr(alloc, e, around))?;
    number_amount(alloc, place_of(e), value)
}

/// A delay. A time literal alone counts ticks; brackets right behind the `#` are no part of it.
pub fn amount_of(alloc: Global, e: &Expr, around: &Around) -> Result<Checked<Amount>, Refusal>
    ensures ok { IfOk result (λ c. given amount_in c ≡ assignments.amount_of (around_in around.now) (tree_view.expr e.now)) }
    ensures err { IfErr result (λ e. e ≡ Memory) }
{
    match e {
        Expr::Time(at, text) => time_amount(alloc, around, *at, text.bytes()),
        Expr::Group(_, inner) => units(alloc, inner, around),
        _ => units(alloc, e, around),
    }
}

/// A delay behind the `=`. E27: nothing may wait there.
pub fn delay_of(
    alloc: Global,
    delay: &Option<Delay>,
    around: &Around,
) -> Result<Checked<Option<Amount>>, Refusal>
    ensures ok { IfOk result (λ c. given amount_if c
        ≡ assignments.delay_of (around_in around.now) (option_map view.delay delay.now)) }
    ensures err { IfErr result (λ e. e ≡ Memory) }
{
    match delay {
        None => Ok(Checked::Good(None)),
        Some(delay) => {
            let amount = amount_of(alloc, &delay.amount, around)?;
            Ok(delay_given(around, delay.at, amount))
        }
    }
}
