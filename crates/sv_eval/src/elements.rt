// Elements of fixed arrays, and initial values (IEEE 1800-2017, 6.8 and 7.4.6).
ghost use Rattle.std.specs.Prelude.{◌≡◌, ◌&&◌, ◌-ℤ◌, int_le, nat_abs, IfOk};
ghost use Rattle.sv_flat.specs.Eval as eval;
ghost use Rattle.sv_flat.specs.State.{initial_of};
ghost use Rattle.sv_eval.specs.Evaluates.{place_at};

use std::alloc::Global;
use sv_flat::{Bounds, first_bits};
use sv_value::{Integral, Key, NoMemory, Plain, Text, Val, WIDEST};

/// Whether a number lies between two others.
fn is_between(low: i128, number: i128, high: i128) -> bool
    ensures { result ≡ (int_le low number && int_le number high) }
{
    low <= number && number <= high
}

/// How far a number is from another one. Memory is wanting where that passes a word.
fn distance(from: i128, to: i128) -> Result<u64, NoMemory>
    ensures { IfOk result (λ n. n ≡ nat_abs (to -ℤ from)) }
{
    match to.checked_sub(from) {
        Some(difference) => match u64::try_from(difference.unsigned_abs()) {
            Ok(n) => Ok(n),
            Err(_) => Err(NoMemory::Memory),
        },
        None => Err(NoMemory::Memory),
    }
}

/// The place of a declared index, from the left end; none outside the bounds.
fn element_place(bounds: Bounds, index: i128) -> Result<Option<u64>, NoMemory>
    ensures { IfOk result (λ p. p ≡ eval.element_place bounds index) }
{
    let left = i128::from(bounds.left);
    let right = i128::from(bounds.right);
    if is_between(left, index, right) || is_between(right, index, left) {
        let place = distance(left, index)?;
        Ok(Some(place))
    } else {
        Ok(None)
    }
}

/// The place that an index stands for; none where it has an x or z bit, or is outside the bounds.
pub fn place_at(bounds: Bounds, index: Option<i128>) -> Result<Option<u64>, NoMemory>
    ensures { IfOk result (λ p. p ≡ place_at bounds index) }
{
    match index {
        Some(index) => element_place(bounds, index),
        None => Ok(None),
    }
}

/// The initial value of an integral type.
fn initial_bits(ty: Integral) -> Result<Val, NoMemory>
    ensures { IfOk result (λ v. v ≡ initial_of (Plain.Integral ty)) }
{
    if ty.width < 1 || WIDEST < ty.width {
        return Err(NoMemory::Memory);
    }
    Ok(Val::Bits(first_bits(ty)))
}

/// The initial value of a type (IEEE 1800-2017, 6.8, Table 6-7). Memory is wanting for widths that no vector has.
pub fn initial_of(alloc: Global, ty: Plain) -> Result<Val, NoMemory>
    ensures { IfOk result (λ v. v ≡ initial_of ty) }
{
    match ty {
        Plain::Integral(ty) => initial_bits(ty),
        Plain::Text => Ok(Val::Text(Text::new(alloc))),
        Plain::Class(_) => Ok(Val::Object(None)),
        Plain::Event => Ok(Val::Event(Key(0))),
    }
}
