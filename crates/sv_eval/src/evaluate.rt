// The value of an expression, by its form (IEEE 1800-2017, 11).
ghost use Rattle.std.specs.Prelude.{◌≡◌, ◌+◌, ◌&&◌, max, Ok, IfOk};
ghost use Rattle.sv_value.specs.declared.val.Val.{Val as val};
ghost use Rattle.sv_flat.specs.Expr.{Unary};
ghost use Rattle.sv_flat.specs.Eval as eval;
ghost use Rattle.sv_flat.specs.Eval.{with_both};
ghost use Rattle.sv_eval.specs.Evaluates.{Evaluates, operation, compared_in};

use crate::branches::merged;
use crate::elements::{initial_of, place_at};
use crate::forms::*;
use crate::joins::{joined, repeated, select};
use crate::operators::{binary_inside, compared, decides, truth_of_both};
use crate::{Stopped, Values};
use std::alloc::Global;
use sv_flat::{Bounds, Context, Expr, ExprForm, Operands, is_in_context, operands_of};
use sv_value::{BinOp, Bits, FaultKind, NoMemory, ObjId, Plain, Sym, UnOp, Val};

/// What stands around a part that is no vector.
const NO_VECTOR: Context = Context {
    width: 0,
    signed: false,
};

/// The context that an expression has by itself. Memory is wanting for widths that are not kept whole.
#[tactic(auto, using(crate::proofs::Contexts::own_kept))]
fn own_context(expr: &Expr) -> Result<Context, NoMemory>
    ensures { IfOk result (λ c. c ≡ record { width = eval.width_of expr.now; signed = eval.is_signed expr.now }) }
{
    let own = expr.own();
    if own.width < u32::MAX {
        Ok(own)
    } else {
        Err(NoMemory::Memory)
    }
}

/// The context of two operands that are compared. Memory is wanting for widths that are not kept whole.
fn wider_context(left: &Expr, right: &Expr) -> Result<Context, NoMemory>
    ensures { IfOk result (λ c. c ≡ record {
      width = max (eval.width_of left.now) (eval.width_of right.now);
      signed = eval.is_signed left.now && eval.is_signed right.now;
    }) }
{
    let a = own_context(left)?;
    let b = own_context(right)?;
    Ok(a.wider(b))
}

// ---- elements of fixed arrays

/// An element of an array that is an object.
fn object_element<V: Values>(
    alloc: Global,
    values: &V,
    object: ObjId,
    bounds: Bounds,
    ty: Plain,
    index: &Val,
) -> Result<Val, NoMemory>
    ensures { IfOk result (λ x. x ≡
        eval.element ty ((V.view values.now).object object) bounds (eval.known_index (eval.vector_in index.now))) }
{
    match place_at(bounds, index_in(index))? {
        Some(place) => values.object(alloc, object, place),
        None => initial_of(alloc, ty),
    }
}

/// An element of an array whose first one is a variable of an activation. Memory is wanting where its place is no word.
fn variable_element<V: Values>(
    alloc: Global,
    values: &V,
    up: u32,
    first: u32,
    bounds: Bounds,
    ty: Plain,
    index: &Val,
) -> Result<Val, NoMemory>
    ensures { IfOk result (λ x. x ≡ eval.element ty
        (λ k. (V.view values.now).variable up (first + k)) bounds (eval.known_index (eval.vector_in index.now))) }
{
    match place_at(bounds, index_in(index))? {
        Some(place) => match u64::from(first).checked_add(place) {
            Some(place) => values.variable(alloc, up, place),
            None => Err(NoMemory::Memory),
        },
        None => initial_of(alloc, ty),
    }
}

/// A value that is read, in a context.
fn read(context: Context, value: Result<Val, NoMemory>) -> Result<Val, Stopped>
    ensures { (x : val) → IfOk value (λ v. v ≡ x) → Evaluates result (Ok (eval.fitted context.width context.signed x)) }
{
    let value = value?;
    fitted(context, value)
}

// ---- the table

/// The value of an expression that stands alone, or the fault that it meets (IEEE 1800-2017, 11.6.1).
///
/// Memory is wanting, too, for what reads the heap, and for widths that no vector has.
#[cycle(evaluate)]
pub fn value<V: Values>(alloc: Global, values: &V, expr: &Expr) -> Result<Val, Stopped>
    ensures { Evaluates result (eval.value_of expr.now (V.view values.now)) }
{
    match own_context(expr) {
        Ok(context) => value_in(alloc, values, expr, context),
        Err(_) => Err(Stopped::Memory),
    }
}

/// The value of an expression in a context. The forms that come most often stand here, and the others apart: a call clears the room
/// for what all forms that stand in one function keep.
#[cycle(evaluate)]
pub fn value_in<V: Values>(
    alloc: Global,
    values: &V,
    expr: &Expr,
    context: Context,
) -> Result<Val, Stopped>
    ensures { Evaluates result (eval.eval expr.now context.width context.signed (V.view values.now)) }
{
    match &*expr.form {
        ExprForm::Literal { value, fill } => literal(context, *value, *fill),
        ExprForm::Object { object, .. } => read(context, values.object(alloc, *object, 0)),
        ExprForm::Local { up, place, .. } => read(
            context,
            values.variable(alloc, *up, u64::from(*place)),
        ),
        ExprForm::Unary { op, operand } => unary_value(alloc, values, context, *op, operand),
        ExprForm::Binary { op, left, right } => {
            binary_value(alloc, values, context, operands_of(*op), *op, left, right)
        }
        _ => value_apart(alloc, values, expr, context),
    }
}

/// The same, for all other forms.
#[cycle(evaluate)]
fn value_apart<V: Values>(
    alloc: Global,
    values: &V,
    expr: &Expr,
    context: Context,
) -> Result<Val, Stopped>
    ensures { Evaluates result (eval.eval expr.now context.width context.signed (V.view values.now)) }
{
    match &*expr.form {
        ExprForm::Text { bytes } => copied(alloc, bytes.as_slice()),
        ExprForm::Handle { key } => Ok(Val::Object(*key)),
        ExprForm::Element {
            object,
            bounds,
            ty,
            index,
            ..
        } => {
            match value(alloc, values, index) {
                Ok(index) => read(
                    context,
                    object_element(alloc, values, *object, *bounds, *ty, &index),
                ),
                Err(e) => Err(e),
            }
        }
        ExprForm::LocalElement {
            up,
            place,
            bounds,
            ty,
            index,
        } => {
            match value(alloc, values, index) {
                Ok(index) => read(
                    context,
                    variable_element(alloc, values, *up, *place, *bounds, *ty, &index),
                ),
                Err(e) => Err(e),
            }
        }
        ExprForm::Static { reference, member } => {
            match value_in(alloc, values, reference, NO_VECTOR) {
                Ok(reference) => match reference_in(&reference) {
                    Some(_) => value_in(alloc, values, member, context),
                    None => Err(Stopped::Fault(FaultKind::Null)),
                },
                Err(e) => Err(e),
            }
        }
        ExprForm::Select {
            width,
            offset,
            is_falling,
            outside,
            base,
            index,
        } => {
            match value(alloc, values, base) {
                Ok(x) => select(
                    context,
                    *width,
                    *offset,
                    *is_falling,
                    *outside,
                    &x,
                    value(alloc, values, index),
                ),
                Err(e) => Err(e),
            }
        }
        ExprForm::Choose { condition, yes, no } => match value(alloc, values, condition) {
            Ok(x) => chosen(alloc, values, context, truth_of(&x), yes, no),
            Err(e) => Err(e),
        },
        ExprForm::Join { high, low } => {
            match value(alloc, values, high) {
                Ok(x) => joined(alloc, context, &x, value(alloc, values, low)),
                Err(e) => Err(e),
            }
        }
        ExprForm::Repeat { count, part } => repeated(
            alloc,
            context,
            *count,
            value(alloc, values, part),
        ),
        ExprForm::Convert { to, operand } => converted(*to, context, value(alloc, values, operand)),
        ExprForm::Widen { operand, .. } => value_in(alloc, values, operand, context),
        ExprForm::Time { .. } => time(context, values.time(), values.unit()),
        ExprForm::Length { text } => text_length(context, value_in(alloc, values, text, NO_VECTOR)),
        ExprForm::Log2 { operand } => log(context, value(alloc, values, operand)),
        ExprForm::Name { items, operand } => name(
            alloc,
            items.as_slice(),
            value(alloc, values, operand),
        ),
        ExprForm::Printed {
            field,
            pad,
            operand,
        } => {
            printed(
                alloc,
                *field,
                *pad,
                values.unit(),
                value(alloc, values, operand),
            )
        }
        ExprForm::Literal { .. }
        | ExprForm::Object { .. }
        | ExprForm::Local { .. }
        | ExprForm::Unary { .. }
        | ExprForm::Binary { .. }
        | ExprForm::Field { .. }
        | ExprForm::FieldElement { .. }
        | ExprForm::Item { .. }
        | ExprForm::Size { .. }
        | ExprForm::Messages { .. }
        | ExprForm::Exists { .. }
        | ExprForm::Triggered { .. } => Err(Stopped::Memory),
    }
}

/// An operation on one operand.
#[cycle(evaluate)]
#[inline(never)]
fn unary_value<V: Values>(
    alloc: Global,
    values: &V,
    context: Context,
    op: UnOp,
    operand: &Expr,
) -> Result<Val, Stopped>
    ensures { Evaluates result (eval.eval (Unary op operand.now) context.width context.signed (V.view values.now)) }
{
    if is_in_context(op) {
        unary_inside(op, value_in(alloc, values, operand, context))
    } else {
        unary_alone(op, context, value(alloc, values, operand))
    }
}

/// An operation on its operands.
#[cycle(evaluate)]
#[inline(never)]
fn binary_value<V: Values>(
    alloc: Global,
    values: &V,
    context: Context,
    operands: Operands,
    op: BinOp,
    left: &Expr,
    right: &Expr,
) -> Result<Val, Stopped>
    ensures { Evaluates result (operation operands op context left.now right.now (V.view values.now)) }
{
    match operands {
        Operands::InContext => match value_in(alloc, values, left, context) {
            Ok(x) => binary_inside(op, &x, value_in(alloc, values, right, context)),
            Err(e) => Err(e),
        },
        Operands::ByAmount => match value_in(alloc, values, left, context) {
            Ok(x) => binary_inside(op, &x, value(alloc, values, right)),
            Err(e) => Err(e),
        },
        Operands::Compared => match wider_context(left, right) {
            Ok(inner) => comparison(alloc, values, context, inner, op, left, right),
            Err(_) => Err(Stopped::Memory),
        },
        Operands::ByTruth => match value(alloc, values, left) {
            Ok(x) => {
                let truth = truth_of(&x);
                if decides(op, truth) {
                    vector_value(context, Bits::one_bit(truth))
                } else {
                    truth_of_both(op, context, &x, value(alloc, values, right))
                }
            }
            Err(e) => Err(e),
        },
    }
}

/// A comparison of two operands in a context of their own.
#[cycle(evaluate)]
fn comparison<V: Values>(
    alloc: Global,
    values: &V,
    context: Context,
    inner: Context,
    op: BinOp,
    left: &Expr,
    right: &Expr,
) -> Result<Val, Stopped>
    ensures { Evaluates result (compared_in inner op context left.now right.now (V.view values.now)) }
{
    match value_in(alloc, values, left, inner) {
        Ok(x) => compared(op, context, &x, value_in(alloc, values, right, inner)),
        Err(e) => Err(e),
    }
}

/// One branch of a choice, or both under an unknown condition.
#[cycle(evaluate)]
fn chosen<V: Values>(
    alloc: Global,
    values: &V,
    context: Context,
    truth: Sym,
    yes: &Expr,
    no: &Expr,
) -> Result<Val, Stopped>
    ensures { Evaluates result (eval.chosen truth
        (λ _. eval.eval yes.now context.width context.signed (V.view values.now))
        (λ _. eval.eval no.now context.width context.signed (V.view values.now))) }
{
    match truth {
        Sym::One => value_in(alloc, values, yes, context),
        Sym::Zero => value_in(alloc, values, no, context),
        Sym::X => both_branches(alloc, values, context, yes, no),
        Sym::Z => both_branches(alloc, values, context, yes, no),
    }
}

/// Both branches of a choice.
#[cycle(evaluate)]
fn both_branches<V: Values>(
    alloc: Global,
    values: &V,
    context: Context,
    yes: &Expr,
    no: &Expr,
) -> Result<Val, Stopped>
    ensures { Evaluates result (with_both (eval.eval yes.now context.width context.signed (V.view values.now))
        (λ _. eval.eval no.now context.width context.signed (V.view values.now)) (λ x y. Ok (eval.merged_values x y))) }
{
    match value_in(alloc, values, yes, context) {
        Ok(x) => merged(alloc, &x, value_in(alloc, values, no, context)),
        Err(e) => Err(e),
    }
}
