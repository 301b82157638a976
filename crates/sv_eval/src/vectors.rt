// Vectors in contexts, and parts of them (IEEE 1800-2017, 11.5.1, 11.6, 11.8 and 20.8.1).
ghost use Rattle.std.specs.Prelude.{◌≡◌, ◌-◌, ◌^◌, ◌≤◌, ◌≤ℤ◌, pos, neg_ℤ, replicate, Some, IfOk, IfSome};
ghost use Rattle.sv_value.specs.Vector as vector;
ghost use Rattle.sv_value.specs.Operators.{integer as integer_of};
ghost use Rattle.sv_flat.specs.Eval as eval;

use sv_arith::join_bits;
use sv_flat::Context;
use sv_value::{Bits, Integer, Integral, NoMemory, Sym, WIDEST, Word};

// ---- contexts

/// A vector in a context. Memory is wanting for widths that no vector has.
#[tactic(auto, using(crate::proofs::VectorLaws::own_context))]
pub fn within(context: Context, value: Bits) -> Result<Bits, NoMemory>
    ensures { IfOk result (λ x. x ≡ eval.in_context context.width context.signed value) }
{
    let own = value.width();
    if own == context.width && value.signed() == context.signed {
        return Ok(value);
    }
    if context.width < 1 || WIDEST < context.width {
        return Err(NoMemory::Memory);
    }
    Ok(
        value
            .resize(own, context.signed)
            .resize(context.width, context.signed),
    )
}

/// A vector as one of an integral type. Memory is wanting for widths that no vector has.
pub fn as_integral(to: Integral, value: Bits) -> Result<Bits, NoMemory>
    ensures { IfOk result (λ x. x ≡ eval.as_integral to value) }
{
    if to.width < 1 || WIDEST < to.width {
        return Err(NoMemory::Memory);
    }
    if to.four_state {
        Ok(value.resize(to.width, to.signed))
    } else {
        Ok(value.to_two_state().resize(to.width, to.signed))
    }
}

/// So many copies of a symbol.
#[tactic(auto, using(crate::proofs::VectorLaws::copies_is))]
fn copies(width: u32, symbol: Sym) -> Bits
    requires at_least_one { 1 ≤ width }
    requires fits { width ≤ WIDEST }
    ensures { result ≡ vector.unsigned (replicate width symbol) }
{
    Bits::one_bit(symbol).resize(1, true).resize(width, false)
}

/// The lowest symbols of a vector, with copies of a symbol above its own.
#[tactic(auto, using(crate::proofs::VectorLaws::extended_cut, crate::proofs::VectorLaws::extended_more))]
fn extended(value: Bits, width: u32, fill: Sym) -> Bits
    requires at_least_one { 1 ≤ width }
    requires fits { width ≤ WIDEST }
    ensures { result ≡ vector.unsigned (vector.extended width fill value.symbols) }
{
    let own = value.width();
    if width <= own {
        value.slice(0, width)
    } else {
        join_bits(copies(width - own, fill), value)
    }
}

/// A literal that fills its context with a symbol. Memory is wanting for widths that no vector has.
#[tactic(auto, using(crate::proofs::VectorLaws::resized_extended))]
pub fn filled(context: Context, value: Bits, fill: Sym) -> Result<Bits, NoMemory>
    ensures { IfOk result (λ x. x ≡ eval.literal context.width context.signed value (Some fill)) }
{
    if context.width < 1 || WIDEST < context.width {
        return Err(NoMemory::Memory);
    }
    Ok(extended(value, context.width, fill).resize(context.width, context.signed))
}

// ---- numbers

/// Whether every symbol is 0 or 1.
pub fn is_known(value: Bits) -> bool
    ensures { result ≡ vector.is_known value.symbols }
{
    let (_, unknown) = value.words();
    unknown == 0
}

/// The number of a vector, in two's complement where it is signed; none where a symbol is x or z.
pub fn known_index(value: Bits) -> Option<i128>
    ensures value { result ≡ eval.known_index value }
    ensures small { IfSome result (λ n. n ≤ℤ pos (2 ^ 64 - 1)) }
{
    if is_known(value) {
        Some(integer(value))
    } else {
        None
    }
}

/// The number of known symbols.
fn integer(value: Bits) -> i128
    ensures value { result ≡ integer_of value }
    ensures small { result ≤ℤ pos (2 ^ 64 - 1) }
{
    let number = Integer::of(value, value.signed());
    let size = i128::from(number.size());
    if number.is_negative() { -size } else { size }
}

/// A number of type `int`.
pub fn int_of(number: u64) -> Bits
    ensures { result ≡ eval.int_of number }
{
    Bits::truncated(32, true, number, 0)
}

/// The least place from which on a power of two is no less than a number, up to a width.
fn log_of_number(width: u32, number: u64) -> u32
    requires { width ≤ WIDEST }
    ensures { result ≡ eval.log_from width number 0 }
{
    let mut place: u32 = 0;
    let mut power: u128 = 1;
    while place < width && power < u128::from(number) {
        place += 1;
        power *= 2;
    }
    place
}

/// The result of `$clog2` (IEEE 1800-2017, 20.8.1): x where a symbol is x or z.
#[tactic(auto, using(crate::proofs::VectorLaws::log_known, crate::proofs::VectorLaws::log_unknown))]
pub fn log_of(value: Bits) -> Bits
    ensures { result ≡ eval.log_of value }
{
    let width = value.width();
    let (number, unknown) = value.words();
    if unknown == 0 {
        int_of(u64::from(log_of_number(width, number)))
    } else {
        Bits::truncated(32, true, 0, Word::MAX)
    }
}

// ---- selects

/// The symbols from a place on, where all of them could lie in the vector.
#[tactic(auto, using(crate::proofs::SelectLaws::from_inside, crate::proofs::SelectLaws::from_above))]
fn symbols_from_place(value: Bits, place: u128, width: u32, outside: Sym) -> Bits
    requires at_least_one { 1 ≤ width }
    requires fits { width ≤ WIDEST }
    ensures { result ≡ vector.unsigned (eval.symbols_from outside value.symbols (pos place) width) }
{
    let own = value.width();
    if place < u128::from(own) {
        let place = place as u32;
        extended(value.slice(place, own - place), width, outside)
    } else {
        copies(width, outside)
    }
}

/// The symbols from a place on that lies so far below the vector.
#[tactic(auto, using(crate::proofs::SelectLaws::from_partly_below, crate::proofs::SelectLaws::from_below))]
fn symbols_from_below(value: Bits, missing: u128, width: u32, outside: Sym) -> Bits
    requires at_least_one { 1 ≤ width }
    requires fits { width ≤ WIDEST }
    requires below { 1 ≤ missing }
    ensures { result ≡ vector.unsigned (eval.symbols_from outside value.symbols (neg_ℤ (pos missing)) width) }
{
    if missing < u128::from(width) {
        let missing = missing as u32;
        join_bits(
            extended(value, width - missing, outside),
            copies(missing, outside),
        )
    } else {
        copies(width, outside)
    }
}

/// The symbols from a place on, and a symbol for each place outside the vector.
fn symbols_from(value: Bits, low: i128, width: u32, outside: Sym) -> Bits
    requires at_least_one { 1 ≤ width }
    requires fits { width ≤ WIDEST }
    ensures { result ≡ vector.unsigned (eval.symbols_from outside value.symbols low width) }
{
    let distance = low.unsigned_abs();
    if low < 0 {
        symbols_from_below(value, distance, width, outside)
    } else {
        symbols_from_place(value, distance, width, outside)
    }
}

/// The lowest place of a select.
fn low_place(offset: i64, is_falling: bool, index: i128) -> Result<i128, NoMemory>
    ensures { IfOk result (λ low. low ≡ eval.low_place offset is_falling index) }
{
    let offset = i128::from(offset);
    if is_falling {
        offset.checked_sub(index).ok_or(NoMemory::Memory)
    } else {
        offset.checked_add(index).ok_or(NoMemory::Memory)
    }
}

/// A select of a vector (IEEE 1800-2017, 11.5.1). Memory is wanting for widths that no vector has.
pub fn selected(
    width: u32,
    offset: i64,
    is_falling: bool,
    outside: Sym,
    value: Bits,
    index: Option<i128>,
) -> Result<Bits, NoMemory>
    ensures { IfOk result (λ x. x ≡ eval.selected width offset is_falling outside value index) }
{
    if width < 1 || WIDEST < width {
        return Err(NoMemory::Memory);
    }
    match index {
        None => Ok(copies(width, outside)),
        Some(index) => {
            let low = low_place(offset, is_falling, index)?;
            Ok(symbols_from(value, low, width, outside))
        }
    }
}
