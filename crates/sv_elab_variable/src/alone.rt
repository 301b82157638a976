// Initializers of static variables whose type breaks a rule (IEEE 1800-2017, 6.21 and 10.5): E25, and what they break by themselves.
ghost use Rattle.std.specs.Prelude.{◌≡◌, option_map};
ghost use Rattle.sv_value.specs.declared.place.Place.{Place as place};
ghost use Rattle.sv_tree.specs.Stmt as tree_stmt;
ghost use Rattle.sv_tree.specs.StmtView as view;
ghost use Rattle.sv_tree.specs.View as tree_view;
ghost use Rattle.sv_names.specs.declared.checked.Checked.TheVariants.{Broken};
ghost use Rattle.sv_names.specs.Arguments as arguments;
ghost use Rattle.sv_names.specs.Assignments as assignments;
ghost use Rattle.sv_names.specs.Checked.{both, only};
ghost use Rattle.sv_names.specs.Expressions as expressions;
ghost use Rattle.sv_names.specs.Given.{Gives, Fails};
ghost use Rattle.sv_names.specs.Views.{around_in};

use crate::words::opening_stands;
use std::alloc::Global;
use sv_elab_assign::at_opening;
use sv_elab_object::sv_elab_value::values_stand;
use sv_elab_write::sv_elab_expr::expr;
use sv_elab_write::{actual_args, value_of_name};
use sv_names::{Around, Checked, Fault, Refusal, first, where_also};
use sv_tree::{Actuals, Expr, Init, Name};
use sv_value::Place;

/// What an expression breaks.
fn expr_stands(alloc: Global, e: &Expr, around: &Around) -> Result<(), Refusal>
    ensures { Gives result (only (expressions.expr (around_in around.now) (tree_view.expr e.now))) }
{
    match expr(alloc, e, around) {
        Ok(_) => Ok(()),
        Err(e) => Err(e),
    }
}

/// What the arguments of `new` break.
fn actuals_stand(
    alloc: Global,
    at: Place,
    actuals: &Actuals,
    around: &Around,
) -> Result<(), Refusal>
    ensures { Gives result (assignments.init_alone (around_in around.now) (tree_stmt.New at (tree_view.actuals actuals.now))) }
{
    let args = actual_args(alloc, &[], actuals, around)?;
    values_stand(args.as_slice())
}

/// What the object that is copied breaks.
fn copy_stands(alloc: Global, at: Place, name: &Name, around: &Around) -> Result<(), Refusal>
    ensures { Gives result (assignments.init_alone (around_in around.now) (tree_stmt.Copy at name.now)) }
{
    match value_of_name(alloc, name, around)? {
        Checked::Good(_) => Ok(()),
        Checked::Broken(f) => Err(f.refusal()),
    }
}

/// What initializes, by itself.
fn init_alone(alloc: Global, value: &Init, around: &Around) -> Result<(), Refusal>
    ensures { Gives result (assignments.init_alone (around_in around.now) (view.init value.now)) }
{
    match value {
        Init::Value(e) => expr_stands(alloc, e, around),
        Init::New(at, actuals) => actuals_stand(alloc, *at, actuals, around),
        Init::Copy(at, name) => copy_stands(alloc, *at, name, around),
        Init::Array { size, source, .. } => {
            let size = expr_stands(alloc, size, around);
            match source {
                None => size,
                Some(source) => where_also(size, expr_stands(alloc, source, around)),
            }
        }
    }
}

/// What is told of a static variable whose type breaks this rule: the first of it and of what the initializer breaks by itself.
pub fn initial_broken(alloc: Global, fault: Fault, init: &Option<Init>, around: &Around) -> Refusal
    ensures { (at : place) → Fails result (assignments.initial_of (around_in around.now) at (Broken fault) (option_map view.init init.now)) }
{
    match init {
        None => fault.refusal(),
        Some(value) => {
            let alone = init_alone(alloc, value, &at_opening(around));
            match where_also(alone, opening_stands(value)) {
                Ok(()) => fault.refusal(),
                Err(e) => first(fault.refusal(), e),
            }
        }
    }
}
