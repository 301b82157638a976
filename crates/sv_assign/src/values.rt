// The values that targets take (IEEE 1800-2017, 10.7 and 11.4.12).
ghost use Rattle.std.specs.Prelude.{◌≡◌, ◌+◌, ◌≤◌, ℕ, IfOk, true, drop, length, sum_by, take};
ghost use Rattle.sv_value.specs.declared.val.Val.TheVariants.{Bits as bits};
ghost use Rattle.sv_value.specs.Vector.{resized, unsigned};
ghost use Rattle.sv_flat.specs.Eval as eval;
ghost use Rattle.sv_flat.specs.Eval.{vector_in};
ghost use Rattle.sv_flat.specs.Targets.{as_type, at_least, converted, spread, target_values};
ghost use Rattle.sv_flat.specs.Targets as defined;

use crate::pieces::piece;
use crate::widths::{as_integral, target_width, type_width};
use std::alloc::Global;
use sv_eval::{is_known, vector_in};
use sv_flat::{DataType, Lvalue};
use sv_value::{Bits, Integral, NoMemory, Plain, Val};

/// Whether a vector is of an integral type already.
#[inline(always)]
#[tactic(auto, using(crate::proofs::ValueLaws::stays_in_four, crate::proofs::ValueLaws::stays_known))]
fn is_of(to: Integral, value: &Bits) -> bool
    ensures { result ≡ true → value.now ≡ eval.as_integral to value.now }
{
    if value.width() != to.width || value.signed() != to.signed {
        return false;
    }
    to.four_state || is_known(*value)
}

/// Whether a value is one of an integral type already.
#[inline(always)]
fn is_integral(to: Integral, value: &Val) -> bool
    ensures { result ≡ true → value.now ≡ bits (eval.as_integral to (vector_in value.now)) }
{
    match value {
        Val::Bits(value) => is_of(to, value),
        _ => false,
    }
}

/// A vector as the value of an integral type.
#[inline(never)]
fn made_of(to: Integral, value: &Val) -> Result<Val, NoMemory>
    ensures { IfOk result (λ v. v ≡ bits (eval.as_integral to (vector_in value.now))) }
{
    let value = as_integral(to, vector_in(value))?;
    Ok(Val::Bits(value))
}

/// A value as one of a type; a part keeps its own width.
#[inline(always)]
fn converted(ty: DataType, width: u32, value: Val) -> Result<Val, NoMemory>
    ensures { IfOk result (λ v. v ≡ converted ty width value) }
{
    match ty {
        DataType::Plain(Plain::Integral(ty)) => {
            let to = Integral {
                width,
                signed: ty.signed,
                four_state: ty.four_state,
            };
            if is_integral(to, &value) {
                return Ok(value);
            }
            made_of(to, &value)
        }
        _ => Ok(value),
    }
}

/// A value as one of a type, whole. Memory is wanting for widths that no vector has.
pub fn as_type(ty: DataType, value: Val) -> Result<Val, NoMemory>
    ensures { IfOk result (λ v. v ≡ as_type ty value) }
{
    converted(ty, type_width(ty), value)
}

/// The value that a target takes. Memory is wanting for widths that no vector has.
pub fn target_value(target: &Lvalue, value: Val) -> Result<Val, NoMemory>
    ensures { IfOk result (λ v. v ≡ converted target.now.ty (defined.target_width target.now) value) }
{
    converted(target.ty, target_width(target), value)
}

/// The values that targets take, from the left. Memory is wanting for widths that no vector has.
pub fn target_values(alloc: Global, targets: &[Lvalue], value: Val) -> Result<Vec<Val>, NoMemory>
    ensures { IfOk result (λ vs. vs.items ≡ target_values targets.now value) }
{
    match targets {
        [] => Ok(Vec::new(alloc)),
        [target] => {
            let mut values = Vec::new(alloc);
            values.push(target_value(target, value)?)?;
            Ok(values)
        }
        _ => spread(alloc, targets, vector_in(&value)),
    }
}

/// How many symbols targets take together. Memory is wanting where that passes a word.
fn total_width(targets: &[Lvalue]) -> Result<u64, NoMemory>
    ensures { IfOk result (λ n. n ≡ sum_by defined.target_width targets.now) }
{
    match targets {
        [] => Ok(0),
        [target, rest @ ..] => {
            let more = total_width(rest)?;
            match more.checked_add(u64::from(target_width(target))) {
                Some(total) => Ok(total),
                None => Err(NoMemory::Memory),
            }
        }
    }
}

/// The value of one of several targets: its symbols of a vector that is extended far enough.
fn spread_value(target: &Lvalue, value: Bits, low: u64) -> Result<Val, NoMemory>
    ensures { (w : ℕ) → low + defined.target_width target.now ≤ w → length value.symbols ≤ w → IfOk result (λ v. v ≡
        converted target.now.ty (defined.target_width target.now)
        (bits (unsigned (take (defined.target_width target.now) (drop low (resized w value)))))) }
{
    let part = piece(value, low, target_width(target))?;
    target_value(target, Val::Bits(part))
}

/// The value of each of several targets: its symbols of a vector.
fn spread(alloc: Global, targets: &[Lvalue], value: Bits) -> Result<Vec<Val>, NoMemory>
    ensures { IfOk result (λ vs. vs.items ≡ spread targets.now (at_least (sum_by defined.target_width targets.now) value)) }
{
    let mut low = total_width(targets)?;
    let mut values = Vec::new(alloc);
    for target in targets {
        low -= u64::from(target_width(target));
        values.push(spread_value(target, value, low)?)?;
    }
    Ok(values)
}
