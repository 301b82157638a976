// Conditions (IEEE 1800-2017, 12.4 and 13.4.1): E15, E42.
ghost use Rattle.sv_tree.specs.View as view;
ghost use Rattle.sv_names.specs.Checked.{given};
ghost use Rattle.sv_names.specs.Expressions as expressions;
ghost use Rattle.sv_names.specs.Given.{Gives};
ghost use Rattle.sv_names.specs.Statements as statements;
ghost use Rattle.sv_names.specs.Values as values;
ghost use Rattle.sv_names.specs.Views.{around_in};

use std::alloc::Global;
use sv_elab_expr::sv_elab_value::operand;
use sv_elab_expr::{expr, place_of};
use sv_elab_flow::{alone_given, needs_activation, raised};
use sv_flat::Expr as FlatExpr;
use sv_names::{Around, Hoisted, Refusal};
use sv_tree::Expr;

/// E42, E15: a number that stands alone.
pub fn number_alone(alloc: Global, e: &Expr, around: &Around) -> Result<Hoisted<FlatExpr>, Refusal>
    ensures { Gives result (given values.alone (expressions.number_in (around_in around.now) (view.expr e.now))) }
{
    let number = operand(place_of(e), expr(alloc, e, around));
    alone_given(alloc, number)
}

/// A condition (12.4). E15, E42: it is no number.
#[tactic(auto, using(sv_elab_flow::proofs::RaisedLaws::raised_once, sv_elab_flow::proofs::RaisedLaws::raised_again))]
pub fn condition(alloc: Global, e: &Expr, around: &Around) -> Result<Hoisted<FlatExpr>, Refusal>
    ensures { Gives result (statements.condition (around_in around.now) (view.expr e.now)) }
{
    let test = number_alone(alloc, e, around);
    if needs_activation(&test) {
        return number_alone(alloc, e, &raised(around));
    }
    test
}
