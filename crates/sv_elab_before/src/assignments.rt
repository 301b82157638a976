// What is written behind the `=` of an initializer, for a target (IEEE 1800-2017, 7.5.1, 8.7, 8.12 and 10.5): E16, E17, E24, E25, E31, E35, E37, E42.
ghost use Rattle.std.specs.Prelude.{◌≡◌, option_map, None, IfOk, IfErr};
ghost use Rattle.sv_tree.specs.Stmt as tree_stmt;
ghost use Rattle.sv_tree.specs.StmtView as view;
ghost use Rattle.sv_tree.specs.View as tree_view;
ghost use Rattle.sv_names.specs.declared.refusal.Refusal.TheVariants.{Memory};
ghost use Rattle.sv_names.specs.Assignments as assignments;
ghost use Rattle.sv_names.specs.Checked.{both, given};
ghost use Rattle.sv_names.specs.Given.{Gives};
ghost use Rattle.sv_names.specs.Views.{around_in};
ghost use Rattle.sv_elab_assign.specs.Amounts.{amount_if};
ghost use Rattle.sv_elab_assign.specs.Places as places;
ghost use Rattle.sv_elab_assign.specs.Wholes as wholes;

use std::alloc::Global;
use sv_elab_assign::{
    Amount, Source, assign, assign_array, assign_copy, assign_new, source_around, value_around,
};
use sv_elab_flow::sv_elab_select::{Spot, type_of_target};
use sv_elab_object::sv_elab_value::values_stand;
use sv_elab_write::sv_elab_expr::{expr, place_of};
use sv_elab_write::{actual_args, made, outputs_of_new, value_of_name};
use sv_flat::{Expr as FlatExpr, Form};
use sv_names::{Arg, Around, Checked, Hoisted, Refusal, judged};
use sv_tree::{Actuals, Expr, Init, Name};
use sv_value::{Place, Seq};

/// A value.
fn value_given(
    alloc: Global,
    spots: Checked<Seq<Spot>>,
    value: &Expr,
    around: &Around,
) -> Result<Hoisted<Form>, Refusal>
    ensures { Gives result (assignments.assignment (around_in around.now) spots None
        (tree_stmt.Value (tree_view.expr value.now))) }
{
    let amount = Checked::Good(None);
    let given = judged(expr(alloc, value, &value_around(around, &spots, &amount)))?;
    assign(alloc, around, spots, amount, place_of(value), given)
}

/// `new h`
fn copy_given(
    alloc: Global,
    spots: Checked<Seq<Spot>>,
    at: Place,
    name: &Name,
    around: &Around,
) -> Result<Hoisted<Form>, Refusal>
    ensures { Gives result (assignments.assignment (around_in around.now) spots None (tree_stmt.Copy at name.now)) }
{
    let amount = Checked::Good(None);
    let given = value_of_name(alloc, name, &value_around(around, &spots, &amount))?;
    assign_copy(alloc, around, spots, amount, at, given)
}

// ---- `new[n]`

/// What `new[n](old)` copies, behind the number of items.
fn source_of(
    alloc: Global,
    source: &Option<Expr>,
    around: &Around,
) -> Result<Option<Source>, Refusal>
    ensures ok { IfOk result (λ s. wholes.IsSource (around_in around.now) s (option_map tree_view.expr source.now)) }
    ensures err { IfErr result (λ e. e ≡ Memory) }
{
    match source {
        None => Ok(None),
        Some(e) => {
            let value = judged(expr(alloc, e, around))?;
            Ok(Some(Source {
                at: place_of(e),
                value,
            }))
        }
    }
}

/// `new[n]`, `new[n](old)`
fn array_given(
    alloc: Global,
    spots: Checked<Seq<Spot>>,
    at: Place,
    size: &Expr,
    source: &Option<Expr>,
    around: &Around,
) -> Result<Hoisted<Form>, Refusal>
    ensures { Gives result (assignments.assignment (around_in around.now) spots None
        (tree_stmt.Array at (tree_view.expr size.now) (option_map tree_view.expr source.now))) }
{
    let amount = Checked::Good(None);
    let count = judged(expr(alloc, size, &value_around(around, &spots, &amount)))?;
    let old = source_of(
        alloc,
        source,
        &source_around(around, &spots, &amount, &count),
    )?;
    assign_array(alloc, around, spots, amount, at, place_of(size), count, old)
}

// ---- `new`

/// Which arguments of `new` behind a target are taken as targets.
fn outputs_behind(
    alloc: Global,
    around: &Around,
    target: &Checked<Seq<Spot>>,
    amount: &Checked<Option<Amount>>,
) -> Result<Seq<bool>, Refusal>
    ensures ok { IfOk result (λ os. os ≡ places.outputs_both (around_in around.now) (both target.now (given amount_if amount.now))) }
    ensures err { IfErr result (λ e. e ≡ Memory) }
{
    match target {
        Checked::Good(spots) => match amount {
            Checked::Good(_) => {
                let ty = type_of_target(alloc, spots.as_slice())?;
                outputs_of_new(alloc, around, &ty)
            }
            Checked::Broken(_) => Ok(Seq::new(alloc)),
        },
        Checked::Broken(_) => Ok(Seq::new(alloc)),
    }
}

/// The arguments of `new` behind a target.
fn args_behind(
    alloc: Global,
    around: &Around,
    target: &Checked<Seq<Spot>>,
    amount: &Checked<Option<Amount>>,
    actuals: &Actuals,
) -> Result<Seq<Arg>, Refusal>
    ensures ok { IfOk result (λ as'. as' ≡ places.args_there (around_in around.now) target.now (given amount_if amount.now)
        (tree_view.actuals actuals.now)) }
    ensures err { IfErr result (λ e. e ≡ Memory) }
{
    let outputs = outputs_behind(alloc, around, target, amount)?;
    let inner = value_around(around, target, amount);
    actual_args(alloc, outputs.as_slice(), actuals, &inner)
}

/// What `new` makes behind a target, where that breaks no rule.
fn made_behind(
    alloc: Global,
    around: &Around,
    target: &Checked<Seq<Spot>>,
    amount: &Checked<Option<Amount>>,
    at: Place,
    args: Seq<Arg>,
) -> Result<Checked<Hoisted<FlatExpr>>, Refusal>
    ensures ok { IfOk result (λ c. wholes.IsMade (around_in around.now) (both target.now (given amount_if amount.now)) at args c) }
    ensures err { IfErr result (λ e. e ≡ Memory) }
{
    let inner = value_around(around, target, amount);
    match target {
        Checked::Good(spots) => match amount {
            Checked::Good(_) => {
                let spots = spots.as_slice();
                let ty = type_of_target(alloc, spots)?;
                judged(made(alloc, &inner, at, spots, args, &ty))
            }
            Checked::Broken(f) => Ok(Checked::Broken(*f)),
        },
        Checked::Broken(f) => Ok(Checked::Broken(*f)),
    }
}

/// `new`, `new(..)`
fn new_given(
    alloc: Global,
    spots: Checked<Seq<Spot>>,
    at: Place,
    actuals: &Actuals,
    around: &Around,
) -> Result<Hoisted<Form>, Refusal>
    ensures { Gives result (assignments.assignment (around_in around.now) spots None
        (tree_stmt.New at (tree_view.actuals actuals.now))) }
{
    let amount = Checked::Good(None);
    let args = args_behind(alloc, around, &spots, &amount, actuals)?;
    let alone = judged(values_stand(args.as_slice()))?;
    let made = made_behind(alloc, around, &spots, &amount, at, args)?;
    assign_new(alloc, around, spots, amount, at, made, alone)
}

// ---- all of them

/// What is written behind the `=`, for a target that may break a rule, in variables of this activation.
pub fn assignment(
    alloc: Global,
    spots: Checked<Seq<Spot>>,
    value: &Init,
    around: &Around,
) -> Result<Hoisted<Form>, Refusal>
    ensures { Gives result (assignments.assignment (around_in around.now) spots None (view.init value.now)) }
{
    match value {
        Init::Value(e) => value_given(alloc, spots, e, around),
        Init::New(at, actuals) => new_given(alloc, spots, *at, actuals, around),
        Init::Copy(at, name) => copy_given(alloc, spots, *at, name, around),
        Init::Array { at, size, source } => array_given(alloc, spots, *at, size, source, around),
    }
}
