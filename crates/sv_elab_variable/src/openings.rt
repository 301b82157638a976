// The initializers of static variables, as they are written (IEEE 1800-2017, 6.21 and 10.5): E16, E17, E25, E31, E42.
ghost use Rattle.std.specs.Prelude.{◌≡◌, false, option_map, IfOk, IfErr};
ghost use Rattle.sv_tree.specs.Stmt as tree_stmt;
ghost use Rattle.sv_tree.specs.StmtView as view;
ghost use Rattle.sv_tree.specs.View as tree_view;
ghost use Rattle.sv_names.specs.declared.checked.Checked.TheVariants.{Good};
ghost use Rattle.sv_names.specs.declared.refusal.Refusal.TheVariants.{Memory};
ghost use Rattle.sv_names.specs.Assignments as assignments;
ghost use Rattle.sv_names.specs.Blocks as blocks;
ghost use Rattle.sv_names.specs.Given.{Gives};
ghost use Rattle.sv_names.specs.Types as types;
ghost use Rattle.sv_names.specs.Views.{around_in};
ghost use Rattle.sv_elab_assign.specs.Wholes as wholes;

use std::alloc::Global;
use sv_elab_assign::{
    Source, array_at_opening, at_opening, copy_at_opening, object_at_opening, sync_at_opening,
    value_at_opening,
};
use sv_elab_flow::sv_elab_select::Spot;
use sv_elab_object::sv_elab_value::{expr_of, pure, value_typed};
use sv_elab_write::sv_elab_expr::{expr, place_of};
use sv_elab_write::sv_elab_step::behind_value;
use sv_elab_write::{actual_args, made, outputs_of_new, value_of_name};
use sv_flat::{ExprForm, Initial};
use sv_names::{Arg, Around, Named, Refusal, Ty, judged};
use sv_tree::{Actuals, Expr, Init, Name};
use sv_value::{Place, Seq};

// ---- values

/// A value for a variable of a type, which is named at `at`.
fn value_opening(
    alloc: Global,
    at: Place,
    ty: &Ty,
    e: &Expr,
    around: &Around,
) -> Result<Initial, Refusal>
    ensures { Gives result (assignments.initial_given (around_in around.now) at ty.now (tree_stmt.Value (tree_view.expr e.now))) }
{
    let value = judged(expr(alloc, e, around))?;
    value_at_opening(alloc, around, at, ty, place_of(e), value)
}

/// E25: `new h`.
fn copy_opening(
    alloc: Global,
    at: Place,
    ty: &Ty,
    place: Place,
    name: &Name,
    around: &Around,
) -> Result<Initial, Refusal>
    ensures { Gives result (assignments.initial_given (around_in around.now) at ty.now (tree_stmt.Copy place name.now)) }
{
    let value = value_of_name(alloc, name, around)?;
    copy_at_opening(alloc, around, at, ty, place, value)
}

/// What `new[n](old)` copies, behind the number of items.
fn source_of(
    alloc: Global,
    source: &Option<Expr>,
    around: &Around,
) -> Result<Option<Source>, Refusal>
    ensures ok { IfOk result (λ s. wholes.IsSource (around_in around.now) s (option_map tree_view.expr source.now)) }
    ensures err { IfErr result (λ e. e ≡ Memory) }
{
    match source {
        None => Ok(None),
        Some(e) => {
            let value = judged(expr(alloc, e, around))?;
            Ok(Some(Source {
                at: place_of(e),
                value,
            }))
        }
    }
}

/// E25: `new[n]`, `new[n](old)`.
fn array_opening(
    alloc: Global,
    at: Place,
    ty: &Ty,
    place: Place,
    size: &Expr,
    source: &Option<Expr>,
    around: &Around,
) -> Result<Initial, Refusal>
    ensures { Gives result (assignments.initial_given (around_in around.now) at ty.now
        (tree_stmt.Array place (tree_view.expr size.now) (option_map tree_view.expr source.now))) }
{
    let count = judged(expr(alloc, size, around))?;
    let old = source_of(alloc, source, &behind_value(around, &count))?;
    array_at_opening(alloc, around, at, ty, place, place_of(size), count, old)
}

// ---- `new`

/// What is given an initial value, as a target.
fn at_name(alloc: Global, at: Place, ty: &Ty) -> Result<Seq<Spot>, Refusal>
    ensures ok { IfOk result (λ ss. ss ≡ assignments.at_name at ty.now) }
    ensures err { IfErr result (λ e. e ≡ Memory) }
{
    let ty = ty.copy(alloc)?;
    let handle = expr_of(alloc, ExprForm::Handle { key: None })?;
    let value = value_typed(alloc, ty, at, false, pure(alloc, handle));
    let mut spots = Seq::new(alloc);
    spots.push((at, value))?;
    Ok(spots)
}

/// E25: what is neither a mailbox nor a semaphore is made at no opening.
fn object_opening(
    alloc: Global,
    at: Place,
    ty: &Ty,
    place: Place,
    args: Seq<Arg>,
    around: &Around,
) -> Result<Initial, Refusal>
    ensures { types.is_sync ty.now ≡ false
        → Gives result (assignments.new_at_opening (around_in around.now) at ty.now place args) }
{
    let spots = at_name(alloc, at, ty)?;
    let object = judged(made(alloc, around, place, spots.as_slice(), args, ty))?;
    object_at_opening(place, object)
}

/// `new` over its arguments.
fn made_opening(
    alloc: Global,
    at: Place,
    ty: &Ty,
    place: Place,
    args: Seq<Arg>,
    around: &Around,
) -> Result<Initial, Refusal>
    ensures { Gives result (assignments.new_at_opening (around_in around.now) at ty.now place args) }
{
    if ty.is_sync() {
        sync_at_opening(alloc, around, ty, place, args)
    } else {
        object_opening(alloc, at, ty, place, args, around)
    }
}

/// `new`, `new(..)`.
fn new_opening(
    alloc: Global,
    at: Place,
    ty: &Ty,
    place: Place,
    actuals: &Actuals,
    around: &Around,
) -> Result<Initial, Refusal>
    ensures { Gives result (assignments.initial_given (around_in around.now) at ty.now
        (tree_stmt.New place (tree_view.actuals actuals.now))) }
{
    let outputs = outputs_of_new(alloc, around, ty)?;
    let args = actual_args(alloc, outputs.as_slice(), actuals, around)?;
    made_opening(alloc, at, ty, place, args, around)
}

// ---- all of them

/// What is written behind the `=`, where no object is at hand and no call stands.
fn initial_given(
    alloc: Global,
    at: Place,
    ty: &Ty,
    value: &Init,
    around: &Around,
) -> Result<Initial, Refusal>
    ensures { Gives result (assignments.initial_given (around_in around.now) at ty.now (view.init value.now)) }
{
    match value {
        Init::Value(e) => value_opening(alloc, at, ty, e, around),
        Init::New(place, actuals) => new_opening(alloc, at, ty, *place, actuals, around),
        Init::Copy(place, name) => copy_opening(alloc, at, ty, *place, name, around),
        Init::Array {
            at: place,
            size,
            source,
        } => array_opening(alloc, at, ty, *place, size, source, around),
    }
}

/// The initializer of a static variable of a type, if it has one. E16 and E17: it does not fit by type; E25: it is made anew, or needs a call;
/// E31: `new` of a mailbox or a semaphore has too many arguments; E42: the variable is a fixed array.
pub fn initial_of(
    alloc: Global,
    at: Place,
    ty: &Ty,
    init: &Option<Init>,
    around: &Around,
) -> Result<Option<Initial>, Refusal>
    ensures { Gives result (assignments.initial_of (around_in around.now) at (Good ty.now) (option_map view.init init.now)) }
{
    match init {
        None => Ok(None),
        Some(value) => match initial_given(alloc, at, ty, value, &at_opening(around)) {
            Ok(initial) => Ok(Some(initial)),
            Err(e) => Err(e),
        },
    }
}

/// The initializer of a static variable, if it has one, by what its declaration stands for.
#[tactic(auto, using(crate::proofs::VariableLaws::other_type))]
pub fn opening_of(
    alloc: Global,
    at: Place,
    named: &Named,
    init: &Option<Init>,
    around: &Around,
) -> Result<Option<Initial>, Refusal>
    ensures { Gives result (assignments.initial_of (around_in around.now) at (blocks.type_of_variable named.now)
        (option_map view.init init.now)) }
{
    match named {
        Named::Variable(_, ty) => initial_of(alloc, at, ty, init, around),
        Named::Local { ty, .. } => initial_of(alloc, at, ty, init, around),
        _ => initial_of(alloc, at, &Ty::Nothing, init, around),
    }
}
