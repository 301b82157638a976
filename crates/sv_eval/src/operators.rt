// What operators with two operands give (IEEE 1800-2017, 11.4).
ghost use Rattle.std.specs.Prelude.{◌≡◌, Ok, IfOk};
ghost use Rattle.sv_value.specs.declared.val.Val.TheVariants as val;
ghost use Rattle.sv_value.specs.Operators as operators;
ghost use Rattle.sv_flat.specs.Eval as eval;
ghost use Rattle.sv_flat.specs.Eval.{Valued, with_result};
ghost use Rattle.sv_eval.specs.Evaluates.{Evaluates};

use crate::Stopped;
use crate::forms::{reference_in, vector_in, vector_value};
use crate::texts::text_test;
use sv_arith::binary;
use sv_flat::Context;
use sv_value::{BinOp, Bits, Key, NoMemory, Sym, Val};

// ---- two operands

/// An operator on two vectors. Memory is wanting where it does not take their widths.
fn applied(op: BinOp, x: Bits, y: Bits) -> Result<Bits, NoMemory>
    ensures { IfOk result (λ z. z ≡ operators.binary_of op x y) }
{
    match op {
        BinOp::Power => Ok(binary(BinOp::Power, x, y)),
        BinOp::ShiftLeft => Ok(binary(BinOp::ShiftLeft, x, y)),
        BinOp::ShiftRight => Ok(binary(BinOp::ShiftRight, x, y)),
        BinOp::ShiftRightSigned => Ok(binary(BinOp::ShiftRightSigned, x, y)),
        BinOp::LogicalAnd => Ok(binary(BinOp::LogicalAnd, x, y)),
        BinOp::LogicalOr => Ok(binary(BinOp::LogicalOr, x, y)),
        _ => same_width(op, x, y),
    }
}

/// An operator on two vectors of one width.
fn same_width(op: BinOp, x: Bits, y: Bits) -> Result<Bits, NoMemory>
    ensures { IfOk result (λ z. z ≡ operators.binary_of op x y) }
{
    if x.width() == y.width() {
        Ok(binary(op, x, y))
    } else {
        Err(NoMemory::Memory)
    }
}

/// An operator on two values as vectors.
fn operation(op: BinOp, x: &Val, y: &Val) -> Result<Val, Stopped>
    ensures { Evaluates result (Ok (val.Bits (operators.binary_of op (eval.vector_in x.now) (eval.vector_in y.now)))) }
{
    let value = applied(op, vector_in(x), vector_in(y))?;
    Ok(Val::Bits(value))
}

/// An operator on both operands, whose result stands in their context.
pub fn binary_inside(op: BinOp, left: &Val, right: Result<Val, Stopped>) -> Result<Val, Stopped>
    ensures { (t : Valued) → Evaluates right t → Evaluates result
        (with_result t (λ y. Ok (val.Bits (operators.binary_of op (eval.vector_in left.now) (eval.vector_in y))))) }
{
    match right {
        Ok(y) => operation(op, left, &y),
        Err(e) => Err(e),
    }
}

/// The result of `&&` or `||` after its left operand.
pub fn truth_of_both(
    op: BinOp,
    context: Context,
    left: &Val,
    right: Result<Val, Stopped>,
) -> Result<Val, Stopped>
    ensures { (t : Valued) → Evaluates right t → Evaluates result (with_result t (λ y.
        eval.bits context.width context.signed (operators.binary_of op (eval.vector_in left.now) (eval.vector_in y)))) }
{
    match right {
        Ok(y) => {
            let value = applied(op, vector_in(left), vector_in(&y))?;
            vector_value(context, value)
        }
        Err(e) => Err(e),
    }
}

/// Whether the left operand of `&&` or `||` decides alone.
pub fn decides(op: BinOp, truth: Sym) -> bool
    ensures { result ≡ eval.decides op truth }
{
    match op {
        BinOp::LogicalAnd => matches!(truth, Sym::Zero),
        BinOp::LogicalOr => matches!(truth, Sym::One),
        _ => false,
    }
}

// ---- comparisons

/// Whether two references are the same, or both null.
pub fn same_reference(a: Option<Key>, b: Option<Key>) -> bool
    ensures { result ≡ eval.same_reference a b }
{
    match a {
        None => match b {
            None => true,
            Some(_) => false,
        },
        Some(x) => match b {
            None => false,
            Some(y) => x.0 == y.0,
        },
    }
}

/// A comparison of references.
fn reference_test(op: BinOp, a: Option<Key>, b: Option<Key>) -> bool
    ensures { result ≡ eval.reference_test op a b }
{
    match op {
        BinOp::Equal => same_reference(a, b),
        BinOp::CaseEqual => same_reference(a, b),
        BinOp::NotEqual => !same_reference(a, b),
        BinOp::CaseNotEqual => !same_reference(a, b),
        _ => false,
    }
}

/// 1 or 0.
fn bit_of(test: bool) -> Bits
    ensures { result ≡ operators.one_bit (operators.bit_of test) }
{
    if test {
        Bits::one_bit(Sym::One)
    } else {
        Bits::one_bit(Sym::Zero)
    }
}

/// A comparison of two values that are not both vectors, nor both texts.
fn compared_references(op: BinOp, x: &Val, y: &Val) -> Bits
    ensures { result ≡ operators.one_bit
        (operators.bit_of (eval.reference_test op (eval.reference_in x.now) (eval.reference_in y.now))) }
{
    bit_of(reference_test(op, reference_in(x), reference_in(y)))
}

/// A comparison of a vector with a value.
fn compared_with_bits(op: BinOp, x: &Val, bits: Bits, y: &Val) -> Result<Bits, NoMemory>
    requires { x.now ≡ val.Bits bits }
    ensures { IfOk result (λ z. z ≡ eval.compared op x.now y.now) }
{
    match y {
        Val::Bits(other) => applied(op, bits, *other),
        Val::Text(_) => Ok(compared_references(op, x, y)),
        Val::Object(_) => Ok(compared_references(op, x, y)),
        Val::Event(_) => Ok(compared_references(op, x, y)),
    }
}

/// A comparison of a text with a value.
fn compared_with_text(op: BinOp, x: &Val, text: &[u8], y: &Val) -> Bits
    requires { x.now ≡ val.Text text.now }
    ensures { result ≡ eval.compared op x.now y.now }
{
    match y {
        Val::Text(other) => bit_of(text_test(op, text, other.bytes())),
        Val::Bits(_) => compared_references(op, x, y),
        Val::Object(_) => compared_references(op, x, y),
        Val::Event(_) => compared_references(op, x, y),
    }
}

/// A comparison of two values.
fn compared_values(op: BinOp, x: &Val, y: &Val) -> Result<Bits, NoMemory>
    ensures { IfOk result (λ z. z ≡ eval.compared op x.now y.now) }
{
    match x {
        Val::Bits(bits) => compared_with_bits(op, x, *bits, y),
        Val::Text(text) => Ok(compared_with_text(op, x, text.bytes(), y)),
        Val::Object(_) => Ok(compared_references(op, x, y)),
        Val::Event(_) => Ok(compared_references(op, x, y)),
    }
}

/// A comparison, whose operands stand in the context of the wider one.
pub fn compared(
    op: BinOp,
    context: Context,
    left: &Val,
    right: Result<Val, Stopped>,
) -> Result<Val, Stopped>
    ensures { (t : Valued) → Evaluates right t
        → Evaluates result (with_result t (λ y. eval.bits context.width context.signed (eval.compared op left.now y))) }
{
    match right {
        Ok(y) => {
            let value = compared_values(op, left, &y)?;
            vector_value(context, value)
        }
        Err(e) => Err(e),
    }
}
