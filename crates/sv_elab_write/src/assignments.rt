// Assignments as they are written (IEEE 1800-2017, 7.5.1, 8.7, 8.12, 9.4.5, 10.4, 11.4 and 12.7.1): E28.
ghost use Rattle.std.specs.Prelude.{◌≡◌, option_map, None, IfOk, IfErr};
ghost use Rattle.sv_tree.specs.Stmt as tree_stmt;
ghost use Rattle.sv_tree.specs.StmtView as view;
ghost use Rattle.sv_tree.specs.View as tree_view;
ghost use Rattle.sv_names.specs.declared.refusal.Refusal.TheVariants.{Memory};
ghost use Rattle.sv_names.specs.Assignments as assignments;
ghost use Rattle.sv_names.specs.Blocks as blocks;
ghost use Rattle.sv_names.specs.Checked.{◌▷◌};
ghost use Rattle.sv_names.specs.Given.{Gives};
ghost use Rattle.sv_names.specs.Named.{raised};
ghost use Rattle.sv_names.specs.Views.{around_in};
ghost use Rattle.sv_elab_assign.specs.Wholes as wholes;
ghost use Rattle.sv_elab_flow.specs.Fors as fors;

use crate::amounts::delay_of;
use crate::names::{declared_spot, value_of_name};
use crate::news::{args_behind, made_behind};
use crate::targets::{place_of_target, target_of};
use std::alloc::Global;
use sv_elab_assign::{
    Source, assign, assign_array, assign_copy, assign_later, assign_new, behind_target,
    later_around, operand_around, source_around, step, timing_stands, update, value_around,
};
use sv_elab_expr::sv_elab_select::Spot;
use sv_elab_expr::sv_elab_value::values_stand;
use sv_elab_expr::{expr, place_of};
use sv_elab_flow::{needs_activation, raised};
use sv_flat::Form;
use sv_names::{Around, Checked, Hoisted, How, Refusal, judged};
use sv_tree::{
    Actuals, BlockingAssignment, Delay, Expr, Init, Lval, Name, NonblockingAssignment,
    OperatorAssignment, StepWord,
};
use sv_value::{Place, Seq};

/// E28: a delay in an assignment is a timing control.
pub fn timed(around: &Around, delay: &Option<Delay>) -> Result<(), Refusal>
    ensures { Gives result (assignments.timed (around_in around.now) (option_map view.delay delay.now)) }
{
    match delay {
        None => Ok(()),
        Some(_) => timing_stands(around),
    }
}

// ---- blocking assignments

/// A value behind a target, in variables of this activation.
fn value_given(
    alloc: Global,
    spots: Checked<Seq<Spot>>,
    delay: &Option<Delay>,
    value: &Expr,
    around: &Around,
) -> Result<Hoisted<Form>, Refusal>
    ensures { Gives result (assignments.assignment (around_in around.now) spots
        (option_map view.delay delay.now) (tree_stmt.Value (tree_view.expr value.now))) }
{
    let amount = delay_of(alloc, delay, &behind_target(around, &spots))?;
    let given = judged(expr(alloc, value, &value_around(around, &spots, &amount)))?;
    assign(alloc, around, spots, amount, place_of(value), given)
}

/// `new h` behind a target.
fn copy_given(
    alloc: Global,
    spots: Checked<Seq<Spot>>,
    delay: &Option<Delay>,
    at: Place,
    name: &Name,
    around: &Around,
) -> Result<Hoisted<Form>, Refusal>
    ensures { Gives result (assignments.assignment (around_in around.now) spots
        (option_map view.delay delay.now) (tree_stmt.Copy at name.now)) }
{
    let amount = delay_of(alloc, delay, &behind_target(around, &spots))?;
    let given = value_of_name(alloc, name, &value_around(around, &spots, &amount))?;
    assign_copy(alloc, around, spots, amount, at, given)
}

/// What `new[n](old)` copies, behind the number of items.
fn source_of(
    alloc: Global,
    source: &Option<Expr>,
    around: &Around,
) -> Result<Option<Source>, Refusal>
    ensures ok { IfOk result (λ s. wholes.IsSource (around_in around.now) s (option_map tree_view.expr source.now)) }
    ensures err { IfErr result (λ e. e ≡ Memory) }
{
    match source {
        None => Ok(None),
        Some(e) => {
            let value = judged(expr(alloc, e, around))?;
            Ok(Some(Source {
                at: place_of(e),
                value,
            }))
        }
    }
}

/// `new[n]`, `new[n](old)` behind a target.
fn array_given(
    alloc: Global,
    spots: Checked<Seq<Spot>>,
    delay: &Option<Delay>,
    at: Place,
    size: &Expr,
    source: &Option<Expr>,
    around: &Around,
) -> Result<Hoisted<Form>, Refusal>
    ensures { Gives result (assignments.assignment (around_in around.now) spots
        (option_map view.delay delay.now) (tree_stmt.Array at (tree_view.expr size.now) (option_map tree_view.expr source.now))) }
{
    let amount = delay_of(alloc, delay, &behind_target(around, &spots))?;
    let count = judged(expr(alloc, size, &value_around(around, &spots, &amount)))?;
    let old = source_of(
        alloc,
        source,
        &source_around(around, &spots, &amount, &count),
    )?;
    assign_array(alloc, around, spots, amount, at, place_of(size), count, old)
}

/// `new`, `new(..)` behind a target.
fn new_given(
    alloc: Global,
    spots: Checked<Seq<Spot>>,
    delay: &Option<Delay>,
    at: Place,
    actuals: &Actuals,
    around: &Around,
) -> Result<Hoisted<Form>, Refusal>
    ensures { Gives result (assignments.assignment (around_in around.now) spots
        (option_map view.delay delay.now) (tree_stmt.New at (tree_view.actuals actuals.now))) }
{
    let amount = delay_of(alloc, delay, &behind_target(around, &spots))?;
    let args = args_behind(alloc, around, &spots, &amount, actuals)?;
    let alone = judged(values_stand(args.as_slice()))?;
    let made = made_behind(alloc, around, &spots, &amount, at, args)?;
    assign_new(alloc, around, spots, amount, at, made, alone)
}

/// What is written behind the `=`, for a target that may break a rule.
fn assignment(
    alloc: Global,
    spots: Checked<Seq<Spot>>,
    delay: &Option<Delay>,
    value: &Init,
    around: &Around,
) -> Result<Hoisted<Form>, Refusal>
    ensures { Gives result (assignments.assignment (around_in around.now) spots
        (option_map view.delay delay.now) (view.init value.now)) }
{
    match value {
        Init::Value(e) => value_given(alloc, spots, delay, e, around),
        Init::New(at, actuals) => new_given(alloc, spots, delay, *at, actuals, around),
        Init::Copy(at, name) => copy_given(alloc, spots, delay, *at, name, around),
        Init::Array { at, size, source } => {
            array_given(alloc, spots, delay, *at, size, source, around)
        }
    }
}

/// A blocking assignment, in variables of this activation.
fn assign_once(
    alloc: Global,
    a: &BlockingAssignment,
    around: &Around,
) -> Result<Hoisted<Form>, Refusal>
    ensures { Gives result (assignments.blocking (around_in around.now) (view.blocking a.now)) }
{
    let spots = target_of(alloc, How::Statement, &a.target, around)?;
    assignment(alloc, spots, &a.delay, &a.value, around)
}

/// `a = e`, `a = #d e` (10.4.1); `new` in its four forms (7.5.1, 8.7, 8.12, 15.3.1 and 15.4.1).
#[tactic(auto, using(sv_elab_flow::proofs::RaisedLaws::raised_once, sv_elab_flow::proofs::RaisedLaws::raised_again))]
pub fn assigned(
    alloc: Global,
    a: &BlockingAssignment,
    around: &Around,
) -> Result<Hoisted<Form>, Refusal>
    ensures { Gives result (raised (around_in around.now) (λ i. assignments.blocking i (view.blocking a.now))) }
{
    let form = assign_once(alloc, a, around);
    if needs_activation(&form) {
        return assign_once(alloc, a, &raised(around));
    }
    form
}

/// A value for a target, in variables of this activation.
fn value_once(
    alloc: Global,
    target: &Lval,
    value: &Expr,
    around: &Around,
) -> Result<Hoisted<Form>, Refusal>
    ensures { Gives result (fors.value_once (around_in around.now) (view.lval target.now) (tree_view.expr value.now)) }
{
    let spots = target_of(alloc, How::Statement, target, around)?;
    value_given(alloc, spots, &None, value, around)
}

/// A value for a target, at once.
#[tactic(auto, using(sv_elab_flow::proofs::RaisedLaws::raised_once, sv_elab_flow::proofs::RaisedLaws::raised_again))]
pub fn assign_value(
    alloc: Global,
    target: &Lval,
    value: &Expr,
    around: &Around,
) -> Result<Hoisted<Form>, Refusal>
    ensures { Gives result (fors.value_assigned (around_in around.now) (view.lval target.now) (tree_view.expr value.now)) }
{
    let form = value_once(alloc, target, value, around);
    if needs_activation(&form) {
        return value_once(alloc, target, value, &raised(around));
    }
    form
}

// ---- nonblocking assignments and drives

/// How a nonblocking target is written: as a drive may be, only where it is whole and has no delay.
fn how_later(target: &Lval, delay: &Option<Delay>) -> How
    ensures { result ≡ assignments.no_parts (view.lval target.now) (option_map view.delay delay.now) }
{
    match delay {
        Some(_) => How::Nonblocking,
        None => match target {
            Lval::Post(_, _) => How::Drive,
            Lval::Join(_, _) => How::Nonblocking,
        },
    }
}

/// A nonblocking assignment or a drive, in variables of this activation.
fn later_once(
    alloc: Global,
    a: &NonblockingAssignment,
    around: &Around,
) -> Result<Hoisted<Form>, Refusal>
    ensures { Gives result (assignments.later (around_in around.now) (view.nonblocking a.now)) }
{
    let spots = target_of(alloc, how_later(&a.target, &a.delay), &a.target, around)?;
    let amount = delay_of(alloc, &a.delay, &behind_target(around, &spots))?;
    let value = judged(expr(alloc, &a.value, &later_around(around, &spots, &amount)))?;
    assign_later(alloc, around, spots, amount, place_of(&a.value), value)
}

/// `a <= e`, `a <= #d e` (10.4.2) and drives (14.16).
#[tactic(auto, using(sv_elab_flow::proofs::RaisedLaws::raised_once, sv_elab_flow::proofs::RaisedLaws::raised_again))]
pub fn later(
    alloc: Global,
    a: &NonblockingAssignment,
    around: &Around,
) -> Result<Hoisted<Form>, Refusal>
    ensures { Gives result (raised (around_in around.now) (λ i. assignments.later i (view.nonblocking a.now))) }
{
    let form = later_once(alloc, a, around);
    if needs_activation(&form) {
        return later_once(alloc, a, &raised(around));
    }
    form
}

// ---- assignments with an operator

/// `a op= e`, in variables of this activation.
fn operated_once(
    alloc: Global,
    a: &OperatorAssignment,
    around: &Around,
) -> Result<Hoisted<Form>, Refusal>
    ensures { Gives result (assignments.operated (around_in around.now) (view.operator a.now)) }
{
    let spots = target_of(alloc, How::Statement, &a.target, around)?;
    let value = judged(expr(alloc, &a.value, &operand_around(around, &spots)))?;
    update(
        alloc,
        around,
        a.word,
        place_of_target(&a.target),
        spots,
        place_of(&a.value),
        value,
    )
}

/// `a op= e` (11.4.1)
#[tactic(auto, using(sv_elab_flow::proofs::RaisedLaws::raised_once, sv_elab_flow::proofs::RaisedLaws::raised_again))]
pub fn operated(
    alloc: Global,
    a: &OperatorAssignment,
    around: &Around,
) -> Result<Hoisted<Form>, Refusal>
    ensures { Gives result (raised (around_in around.now) (λ i. assignments.operated i (view.operator a.now))) }
{
    let form = operated_once(alloc, a, around);
    if needs_activation(&form) {
        return operated_once(alloc, a, &raised(around));
    }
    form
}

/// `a++` and `a--`, in variables of this activation.
fn stepped_once(
    alloc: Global,
    target: &Lval,
    word: StepWord,
    around: &Around,
) -> Result<Hoisted<Form>, Refusal>
    ensures { Gives result (assignments.stepped (around_in around.now) (view.lval target.now) word) }
{
    let spots = target_of(alloc, How::Statement, target, around)?;
    step(alloc, around, word, place_of_target(target), spots)
}

/// `a++` and `a--` (11.4.2)
#[tactic(auto, using(sv_elab_flow::proofs::RaisedLaws::raised_once, sv_elab_flow::proofs::RaisedLaws::raised_again))]
pub fn stepped(
    alloc: Global,
    target: &Lval,
    word: StepWord,
    around: &Around,
) -> Result<Hoisted<Form>, Refusal>
    ensures { Gives result (raised (around_in around.now) (λ i. assignments.stepped i (view.lval target.now) word)) }
{
    let form = stepped_once(alloc, target, word, around);
    if needs_activation(&form) {
        return stepped_once(alloc, target, word, &raised(around));
    }
    form
}

// ---- first values of variables

/// The first value of a variable, in variables of this activation.
fn first_value_once(
    alloc: Global,
    at: Place,
    name: &Name,
    value: &Expr,
    around: &Around,
) -> Result<Hoisted<Form>, Refusal>
    ensures { Gives result (fors.first_once (around_in around.now) at name.now (tree_stmt.Value (tree_view.expr value.now))) }
{
    let spots = declared_spot(alloc, around, at, name)?;
    value_given(alloc, spots, &None, value, around)
}

/// The first value of the variable of a `for` (12.7.1). E7 and E42: it takes none; E16 and E17: it does not fit by type.
#[tactic(auto, using(sv_elab_flow::proofs::RaisedLaws::raised_once, sv_elab_flow::proofs::RaisedLaws::raised_again))]
pub fn first_value(
    alloc: Global,
    at: Place,
    name: &Name,
    value: &Expr,
    around: &Around,
) -> Result<Hoisted<Form>, Refusal>
    ensures { Gives result (fors.first_value (around_in around.now) at name.now (tree_view.expr value.now)) }
{
    let form = first_value_once(alloc, at, name, value, around);
    if needs_activation(&form) {
        return first_value_once(alloc, at, name, value, &raised(around));
    }
    form
}

/// What initializes a variable, in variables of this activation.
fn first_once(
    alloc: Global,
    at: Place,
    name: &Name,
    value: &Init,
    around: &Around,
) -> Result<Hoisted<Form>, Refusal>
    ensures { Gives result (fors.first_once (around_in around.now) at name.now (view.init value.now)) }
{
    let spots = declared_spot(alloc, around, at, name)?;
    assignment(alloc, spots, &None, value, around)
}

/// The initializer of a variable of an activation, as an assignment (6.21). E7 and E42: it takes none.
#[tactic(auto, using(sv_elab_flow::proofs::RaisedLaws::raised_once, sv_elab_flow::proofs::RaisedLaws::raised_again))]
pub fn first_assigned(
    alloc: Global,
    at: Place,
    name: &Name,
    value: &Init,
    around: &Around,
) -> Result<Hoisted<Form>, Refusal>
    ensures { Gives result (raised (around_in around.now) (λ s. assignments.assignment s
        (blocks.declared_variable s name.now ▷ blocks.variable_spot s at) None (view.init value.now))) }
{
    let form = first_once(alloc, at, name, value, around);
    if needs_activation(&form) {
        return first_once(alloc, at, name, value, &raised(around));
    }
    form
}
