// What values are, and what forms with one operand give (IEEE 1800-2017, 11).
ghost use Rattle.std.specs.Prelude.{◌≡◌, Ok, length};
ghost use Rattle.sv_value.specs.declared.val.Val.TheVariants as val;
ghost use Rattle.sv_value.specs.Digits as digits;
ghost use Rattle.sv_value.specs.Operators as operators;
ghost use Rattle.sv_value.specs.Vector.{unsigned, symbols_of};
ghost use Rattle.sv_flat.specs.Eval as eval;
ghost use Rattle.sv_flat.specs.Eval.{Valued, with_result};
ghost use Rattle.sv_eval.specs.Evaluates.{Evaluates};

use crate::Stopped;
use crate::printed::printed_field;
use crate::texts::{name_of, text_value};
use crate::vectors::{as_integral, filled, int_of, known_index, log_of, within};
use std::alloc::Global;
use sv_arith::{any_one, unary};
use sv_flat::{Context, NamedItem};
use sv_value::{Bits, FormatField, Integral, Key, Pad, Sym, Text, UnOp, Val};

// ---- what values are

/// The vector that a value is.
pub fn vector_in(value: &Val) -> Bits
    ensures { result ≡ eval.vector_in value.now }
{
    match value {
        Val::Bits(bits) => *bits,
        Val::Text(_) => Bits::one_bit(Sym::X),
        Val::Object(_) => Bits::one_bit(Sym::X),
        Val::Event(_) => Bits::one_bit(Sym::X),
    }
}

/// The bytes that a value is.
pub fn text_in(value: &Val) -> &[u8]
    ensures { result.now ≡ eval.text_in value.now }
{
    match value {
        Val::Text(text) => text.bytes(),
        Val::Bits(_) => &[],
        Val::Object(_) => &[],
        Val::Event(_) => &[],
    }
}

/// The reference that a value is.
pub fn reference_in(value: &Val) -> Option<Key>
    ensures { result ≡ eval.reference_in value.now }
{
    match value {
        Val::Object(key) => *key,
        Val::Event(key) => Some(*key),
        Val::Bits(_) => None,
        Val::Text(_) => None,
    }
}

/// The number of an index; none where it has an x or z bit.
pub fn index_in(value: &Val) -> Option<i128>
    ensures { result ≡ eval.known_index (eval.vector_in value.now) }
{
    known_index(vector_in(value))
}

/// The truth of a value.
pub fn truth_of(value: &Val) -> Sym
    ensures { result ≡ operators.truth (eval.vector_in value.now) }
{
    any_one(vector_in(value))
}

// ---- values in a context

/// A vector in a context.
pub fn vector_value(context: Context, value: Bits) -> Result<Val, Stopped>
    ensures { Evaluates result (eval.bits context.width context.signed value) }
{
    let value = within(context, value)?;
    Ok(Val::Bits(value))
}

/// A literal, which may fill its context with a symbol.
pub fn literal(context: Context, value: Bits, fill: Option<Sym>) -> Result<Val, Stopped>
    ensures { Evaluates result (Ok (val.Bits (eval.literal context.width context.signed value fill))) }
{
    match fill {
        None => vector_value(context, value),
        Some(symbol) => {
            let value = filled(context, value, symbol)?;
            Ok(Val::Bits(value))
        }
    }
}

/// A value in a context.
pub fn fitted(context: Context, value: Val) -> Result<Val, Stopped>
    ensures { Evaluates result (Ok (eval.fitted context.width context.signed value)) }
{
    match &value {
        Val::Bits(bits) => vector_value(context, *bits),
        Val::Text(_) => Ok(value),
        Val::Object(_) => Ok(value),
        Val::Event(_) => Ok(value),
    }
}

// ---- one operand

/// An operator on an operand in the context of the whole.
pub fn unary_inside(op: UnOp, operand: Result<Val, Stopped>) -> Result<Val, Stopped>
    ensures { (r : Valued) → Evaluates operand r
        → Evaluates result (with_result r (λ x. Ok (val.Bits (operators.unary_of op (eval.vector_in x))))) }
{
    match operand {
        Ok(x) => Ok(Val::Bits(unary(op, vector_in(&x)))),
        Err(e) => Err(e),
    }
}

/// An operator on an operand by itself.
pub fn unary_alone(
    op: UnOp,
    context: Context,
    operand: Result<Val, Stopped>,
) -> Result<Val, Stopped>
    ensures { (r : Valued) → Evaluates operand r → Evaluates result (with_result r (λ x.
        eval.bits context.width context.signed (operators.unary_of op (eval.vector_in x)))) }
{
    match operand {
        Ok(x) => vector_value(context, unary(op, vector_in(&x))),
        Err(e) => Err(e),
    }
}

/// A value as one of an integral type.
pub fn converted(
    to: Integral,
    context: Context,
    operand: Result<Val, Stopped>,
) -> Result<Val, Stopped>
    ensures { (r : Valued) → Evaluates operand r → Evaluates result (with_result r (λ x.
        eval.bits context.width context.signed (eval.as_integral to (eval.vector_in x)))) }
{
    match operand {
        Ok(x) => {
            let value = as_integral(to, vector_in(&x))?;
            vector_value(context, value)
        }
        Err(e) => Err(e),
    }
}

/// `$clog2`
pub fn log(context: Context, operand: Result<Val, Stopped>) -> Result<Val, Stopped>
    ensures { (r : Valued) → Evaluates operand r → Evaluates result (with_result r (λ x.
        eval.bits context.width context.signed (eval.log_of (eval.vector_in x)))) }
{
    match operand {
        Ok(x) => vector_value(context, log_of(vector_in(&x))),
        Err(e) => Err(e),
    }
}

/// The length of a string.
pub fn text_length(context: Context, text: Result<Val, Stopped>) -> Result<Val, Stopped>
    ensures { (r : Valued) → Evaluates text r → Evaluates result (with_result r (λ x.
        eval.bits context.width context.signed (eval.int_of (length (eval.text_in x))))) }
{
    match text {
        Ok(x) => vector_value(context, int_of(text_in(&x).len() as u64)),
        Err(e) => Err(e),
    }
}

/// The name of the item of an enum.
pub fn name(
    alloc: Global,
    items: &[NamedItem],
    operand: Result<Val, Stopped>,
) -> Result<Val, Stopped>
    ensures { (r : Valued) → Evaluates operand r
        → Evaluates result (with_result r (λ x. Ok (val.Text (eval.name_of items.now (eval.vector_in x))))) }
{
    match operand {
        Ok(x) => copied(alloc, name_of(items, vector_in(&x))),
        Err(e) => Err(e),
    }
}

/// A text, in memory of its own.
pub fn copied(alloc: Global, bytes: &[u8]) -> Result<Val, Stopped>
    ensures { Evaluates result (Ok (val.Text bytes.now)) }
{
    let mut text = Text::new(alloc);
    text.push_all(bytes)?;
    Ok(Val::Text(text))
}

/// What a field prints; a unit of time has so many ticks.
pub fn printed(
    alloc: Global,
    field: FormatField,
    pad: Pad,
    ticks: u64,
    operand: Result<Val, Stopped>,
) -> Result<Val, Stopped>
    ensures { (r : Valued) → Evaluates operand r
        → Evaluates result (with_result r (λ x. eval.text (digits.printed_field field pad ticks x))) }
{
    match operand {
        Ok(x) => {
            let text = printed_field(alloc, field, pad, ticks, &x)?;
            text_value(text)
        }
        Err(e) => Err(e),
    }
}

/// A time in units, rounded half upward. Memory is wanting where a unit has no tick.
pub fn time(context: Context, now: u64, unit: u64) -> Result<Val, Stopped>
    ensures { Evaluates result (eval.bits context.width context.signed
        (unsigned (symbols_of 64 (eval.in_units now unit) 0))) }
{
    if unit == 0 {
        return Err(Stopped::Memory);
    }
    let units = (2 * (now as u128) + (unit as u128)) / (2 * (unit as u128));
    match u64::try_from(units) {
        Ok(units) => vector_value(context, Bits::truncated(64, false, units, 0)),
        Err(_) => Err(Stopped::Memory),
    }
}
