// Time literals (IEEE 1800-2017, 3.14 and 5.8): E52.
ghost use Rattle.std.specs.Prelude.{◌≡◌, ℕ, ◌-◌, ◌*◌, ◌+◌, ◌^◌, ◌≤◌, [], ◌∷◌, false, length, min, IfOk, IfErr};
ghost use Rattle.std.specs.List.{prefix_len};
ghost use Rattle.sv_value.specs.Vector.{vector, symbols_of};
ghost use Rattle.sv_names.specs.Checked.{given};
ghost use Rattle.sv_names.specs.declared.checked.Checked.TheVariants.{Good};
ghost use Rattle.sv_names.specs.declared.refusal.Refusal.TheVariants.{Memory};
ghost use Rattle.sv_names.specs.Literals as literals;
ghost use Rattle.sv_names.specs.Operators as operators;
ghost use Rattle.sv_names.specs.Given.{Gives};
ghost use Rattle.sv_elab_operator.specs.Times as times;

use std::alloc::Global;
use sv_elab_value::{expr_of, pure, value_typed};
use sv_flat::{ExprForm, Scale};
use sv_names::{Refusal, Typed, selectable};
use sv_value::{Bits, Place};

// ---- as it is written

/// 0 to 9
fn is_digit(c: u8) -> bool
    ensures { result ≡ literals.is_digit c }
{
    48 <= c && c <= 57
}

/// How many digits a text begins with.
fn digit_count(text: &[u8]) -> usize
    ensures value { result ≡ prefix_len literals.is_digit text.now }
    ensures within { result ≤ length text.now }
{
    text.iter().take_while(|c| is_digit(**c)).count()
}

/// The power of ten of a femtosecond that a unit is.
fn power_of_unit(unit: &[u8]) -> u32
    ensures power { result ≡ literals.power_of_unit unit.now }
    ensures small { result ≤ 15 }
{
    match unit {
        [] => 15,
        [first, ..] => power_of_letter(*first),
    }
}

/// The power of ten of a femtosecond that a unit is with this first letter.
fn power_of_letter(c: u8) -> u32
    ensures power { result ≡ literals.power_of_unit (c ∷ []) }
    ensures small { result ≤ 15 }
{
    match c {
        b'f' => 0,
        b'p' => 3,
        b'n' => 6,
        b'u' => 9,
        b'm' => 12,
        _ => 15,
    }
}

/// 2^63 times 10^17: so many units or more are too many ticks in every precision.
const TOO_MANY: u128 = 922_337_203_685_477_580_800_000_000_000_000_000;

/// A number with one digit more, up to the greatest that is kept.
fn with_digit(number: u128, digit: u8) -> u128
    requires { number ≤ TOO_MANY }
    ensures value { result ≡ min (10 * number + (digit - 48)) TOO_MANY }
    ensures kept { result ≤ TOO_MANY }
{
    let next = 10 * number + (digit.saturating_sub(48) as u128);
    if next < TOO_MANY { next } else { TOO_MANY }
}

/// The number of decimal digits, up to the greatest that is kept.
#[tactic(auto, using(crate::proofs::TimeLaws::all_digits, crate::proofs::TimeLaws::next_digit))]
fn number_of(digits: &[u8]) -> u128
    ensures value { result ≡ min (literals.decimal_from 0 digits.now) TOO_MANY }
    ensures kept { result ≤ TOO_MANY }
{
    let mut number: u128 = 0;
    for digit in digits {
        number = with_digit(number, *digit);
    }
    number
}

// ---- in ticks

/// A power of ten.
fn power_of_ten(k: u32) -> u128
    requires { k ≤ 17 }
    ensures { result ≡ 10 ^ k }
{
    10u128.pow(k)
}

/// So many ticks, where they are fewer than 2^63.
fn few(ticks: u128) -> Option<u64>
    ensures { result ≡ times.few ticks }
{
    if ticks < 1 << 63 {
        Some(ticks as u64)
    } else {
        None
    }
}

/// A time in ticks of which its unit has a power of ten.
#[tactic(auto, using(crate::proofs::TimeLaws::kept_whole, crate::proofs::TimeLaws::too_many, crate::proofs::TimeLaws::none_of_many))]
fn in_parts(number: u128, k: u32) -> Option<u64>
    requires { k ≤ 17 }
    ensures { (d : ℕ) → number ≡ min d TOO_MANY → result ≡ times.few (d * 10 ^ k) }
{
    if number < 1 << 63 {
        match number.checked_mul(power_of_ten(k)) {
            Some(ticks) => few(ticks),
            None => None,
        }
    } else {
        None
    }
}

/// A time in ticks that have a power of ten of its units.
#[tactic(auto, using(crate::proofs::TimeLaws::kept_whole, crate::proofs::TimeLaws::passes, crate::proofs::TimeLaws::is_whole, crate::proofs::TimeLaws::is_no_whole, crate::proofs::TimeLaws::ten_positive))]
fn in_wholes(number: u128, k: u32) -> Option<u64>
    requires { k ≤ 17 }
    ensures { (d : ℕ) → number ≡ min d TOO_MANY → result ≡ times.whole_ticks d k }
{
    if number >= TOO_MANY {
        return None;
    }
    let power = power_of_ten(k);
    if number % power == 0 {
        few(number / power)
    } else {
        None
    }
}

/// So many units of a power of ten, in ticks of another. Memory is wanting for ticks above 100 s, which no scale has.
#[tactic(auto, using(crate::proofs::TimeLaws::finer, crate::proofs::TimeLaws::coarser))]
fn ticks_of(number: u128, power: u32, precision: u32) -> Result<Option<u64>, Refusal>
    requires { power ≤ 15 }
    ensures ok { IfOk result (λ t. (d : ℕ) → number ≡ min d TOO_MANY
        → t ≡ times.whole_ticks (d * 10 ^ power) precision) }
    ensures err { IfErr result (λ e. e ≡ Memory) }
{
    if 17 < precision {
        return Err(Refusal::Memory);
    }
    if precision <= power {
        Ok(in_parts(number, power - precision))
    } else {
        Ok(in_wholes(number, precision - power))
    }
}

/// A time literal in ticks, where it is a whole number of them.
#[tactic(auto, using(crate::proofs::TimeLaws::digits_are))]
fn whole_ticks(scale: &Scale, text: &[u8]) -> Result<Option<u64>, Refusal>
    ensures ok { IfOk result (λ t. t ≡ times.whole_ticks (literals.femtoseconds text.now) scale.now.precision) }
    ensures err { IfErr result (λ e. e ≡ Memory) }
{
    let count = digit_count(text);
    let (digits, unit) = text.split_at(count);
    ticks_of(number_of(digits), power_of_unit(unit), scale.precision)
}

/// The ticks of a time literal. E52: they are no whole number, or 2^63 or more.
#[tactic(auto, using(crate::proofs::TimeLaws::told_whole, crate::proofs::TimeLaws::told_none))]
pub fn ticks_in(scale: &Scale, at: Place, text: &[u8]) -> Result<u64, Refusal>
    ensures { Gives result (operators.ticks_in scale.now at text.now) }
{
    match whole_ticks(scale, text)? {
        Some(ticks) => Ok(ticks),
        None => Err(Refusal::Rule { rule: 52, at }),
    }
}

// ---- in units

/// Ticks in units, half upward. Memory is wanting for units above 100 s, which no scale has.
#[tactic(auto, using(crate::proofs::TimeLaws::low_bits, crate::proofs::TimeLaws::ten_positive))]
fn units_of(scale: &Scale, ticks: u64) -> Result<Bits, Refusal>
    ensures ok { IfOk result (λ b. b ≡ vector false
        (symbols_of 64 (operators.rounded ticks (10 ^ (scale.now.unit - scale.now.precision))) 0)) }
    ensures err { IfErr result (λ e. e ≡ Memory) }
{
    if 17 < scale.unit {
        return Err(Refusal::Memory);
    }
    let unit = power_of_ten(scale.unit.saturating_sub(scale.precision));
    let rounded = (2 * (ticks as u128) + unit) / (2 * unit);
    Ok(Bits::truncated(64, false, (rounded % (1 << 64)) as u64, 0))
}

/// A time literal of so many ticks has its value in units.
fn time_typed(alloc: Global, scale: &Scale, at: Place, ticks: u64) -> Result<Typed, Refusal>
    ensures { Gives result (Good (operators.time_typed scale.now at ticks)) }
{
    let value = units_of(scale, ticks)?;
    let code = expr_of(alloc, ExprForm::Literal { value, fill: None })?;
    Ok(value_typed(
        alloc,
        selectable(64, false, true),
        at,
        true,
        pure(alloc, code),
    ))
}

/// E52: a time literal.
pub fn time(alloc: Global, scale: &Scale, at: Place, text: &[u8]) -> Result<Typed, Refusal>
    ensures { Gives result (given (operators.time_typed scale.now at) (operators.ticks_in scale.now at text.now)) }
{
    match ticks_in(scale, at, text) {
        Ok(ticks) => time_typed(alloc, scale, at, ticks),
        Err(e) => Err(e),
    }
}
