// What must be true as an event control fires (IEEE 1800-2017, 9.4.2.3): E15, E42.
ghost use Rattle.std.specs.Prelude.{option_map};
ghost use Rattle.sv_tree.specs.View as view;
ghost use Rattle.sv_names.specs.Checked.{given};
ghost use Rattle.sv_names.specs.Expressions as expressions;
ghost use Rattle.sv_names.specs.Given.{Gives};
ghost use Rattle.sv_names.specs.Values as values;
ghost use Rattle.sv_names.specs.Views.{around_in};
ghost use Rattle.sv_elab_event.specs.Occasions as occasions;

use std::alloc::Global;
use sv_elab_expr::sv_elab_value::operand;
use sv_elab_expr::{expr, place_of};
use sv_elab_flow::alone_given;
use sv_flat::Expr as FlatExpr;
use sv_names::{Around, Hoisted, Refusal};
use sv_tree::Expr;

/// A number that stands alone. E42: a whole array; E15: it is no number.
pub fn number_alone(alloc: Global, e: &Expr, around: &Around) -> Result<Hoisted<FlatExpr>, Refusal>
    ensures { Gives result (given values.alone (expressions.number_in (around_in around.now) (view.expr e.now))) }
{
    let number = operand(place_of(e), expr(alloc, e, around));
    alone_given(alloc, number)
}

/// An `iff`, where one is written. E42: a whole array; E15: it is no number.
pub(crate) fn condition_in(
    alloc: Global,
    condition: &Option<Expr>,
    around: &Around,
) -> Result<Option<Hoisted<FlatExpr>>, Refusal>
    ensures { Gives result (occasions.condition_in (around_in around.now) (option_map view.expr condition.now)) }
{
    match condition {
        None => Ok(None),
        Some(e) => match number_alone(alloc, e, around) {
            Ok(number) => Ok(Some(number)),
            Err(f) => Err(f),
        },
    }
}
