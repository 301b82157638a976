// Numbers and time literals (IEEE 1800-2017, 5.7 and 5.8).

ghost use Rattle.std.specs.Prelude.{◌≡◌, ◌≤◌, ◌==◌, length};
ghost use Rattle.sv_tree.specs.Longest.{longest};
ghost use Rattle.sv_tree.specs.Tokens.{is_one, is_filling_digit, is_plain_number, is_filling_number, is_decimal_body, is_base, is_signed_base, is_based_number, is_size_rest, is_sized_number, is_number, is_unit, is_time_rest, is_time, is_one_step};

use crate::letters::{
    digit_or_mark_run, digit_part_run, digit_run, is_base_letter, is_decimal_letter, is_digit_part,
    is_filling_digit, is_sign_letter, is_unit_letter, lifted, word_run,
};

/// The length of the longest run of digits and `_` that begins with a digit, or 0.
#[tactic(auto, using(crate::proofs::Prefixes::longest_short, crate::proofs::Forms::plain_prefix))]
pub fn plain_number_length(s: &[u8]) -> usize
    ensures value { result ≡ longest is_plain_number s.now }
    ensures within { result ≤ length s.now }
{
    match s {
        [c, rest @ ..] => {
            if c.is_ascii_digit() {
                1 + digit_or_mark_run(rest)
            } else {
                0
            }
        }
        [] => 0,
    }
}

/// 1 where a digit that fills is next, else 0.
#[tactic(auto, using(crate::proofs::Prefixes::longest_short, crate::proofs::Forms::filling_digit_prefix))]
fn filling_digit_length(s: &[u8]) -> usize
    ensures value { result ≡ longest (is_one is_filling_digit) s.now }
    ensures within { result ≤ length s.now }
{
    match s {
        [c, ..] => { if is_filling_digit(*c) { 1 } else { 0 } }
        [] => 0,
    }
}

/// The length of `'0`, `'1`, `'x` or `'z`, or 0.
#[tactic(auto, using(crate::proofs::Prefixes::longest_short, crate::proofs::Forms::filling_prefix))]
pub fn filling_number_length(s: &[u8]) -> usize
    ensures value { result ≡ longest is_filling_number s.now }
    ensures within { result ≤ length s.now }
{
    match s {
        [c, rest @ ..] => {
            if *c == b'\'' {
                lifted(filling_digit_length(rest))
            } else {
                0
            }
        }
        [] => 0,
    }
}

/// How far the digits after `d` go.
#[tactic(auto, using(crate::proofs::Prefixes::longest_short, crate::proofs::Forms::decimal_prefix))]
fn decimal_body_length(s: &[u8]) -> usize
    ensures value { result ≡ longest is_decimal_body s.now }
    ensures within { result ≤ length s.now }
{
    match s {
        [c, rest @ ..] => {
            if c.is_ascii_digit() {
                1 + word_run(rest)
            } else if is_digit_part(*c) {
                1 + digit_part_run(rest)
            } else {
                0
            }
        }
        [] => 0,
    }
}

/// The length of the longest base letter with digits, or 0.
#[tactic(auto, using(crate::proofs::Prefixes::longest_short, crate::proofs::Forms::base_prefix))]
fn base_length(s: &[u8]) -> usize
    ensures value { result ≡ longest is_base s.now }
    ensures within { result ≤ length s.now }
{
    match s {
        [c, rest @ ..] => {
            if is_decimal_letter(*c) {
                1 + decimal_body_length(rest)
            } else if is_base_letter(*c) {
                1 + digit_part_run(rest)
            } else {
                0
            }
        }
        [] => 0,
    }
}

/// The same, with an `s` before it or not.
#[tactic(auto, using(crate::proofs::Prefixes::longest_short, crate::proofs::Forms::signed_prefix))]
fn signed_base_length(s: &[u8]) -> usize
    ensures value { result ≡ longest is_signed_base s.now }
    ensures within { result ≤ length s.now }
{
    match s {
        [c, rest @ ..] => {
            if is_sign_letter(*c) {
                lifted(base_length(rest))
            } else {
                base_length(s)
            }
        }
        [] => 0,
    }
}

/// The length of the longest based number without a size, or 0.
#[tactic(auto, using(crate::proofs::Prefixes::longest_short, crate::proofs::Forms::based_prefix))]
pub fn based_number_length(s: &[u8]) -> usize
    ensures value { result ≡ longest is_based_number s.now }
    ensures within { result ≤ length s.now }
{
    match s {
        [c, rest @ ..] => {
            if *c == b'\'' {
                lifted(signed_base_length(rest))
            } else {
                0
            }
        }
        [] => 0,
    }
}

/// The length of the rest of a size with a based number, or 0.
#[tactic(auto, using(crate::proofs::Prefixes::longest_short, crate::proofs::Forms::size_prefix))]
fn size_rest_length(s: &[u8]) -> usize
    ensures value { result ≡ longest is_size_rest s.now }
    ensures within { result ≤ length s.now }
{
    let size = digit_or_mark_run(s);
    let number = based_number_length(&s[size..]);
    if number == 0 { 0 } else { size + number }
}

/// The length of the longest based number with a size, or 0.
#[tactic(auto, using(crate::proofs::Prefixes::longest_short, crate::proofs::Forms::sized_prefix))]
pub fn sized_number_length(s: &[u8]) -> usize
    ensures value { result ≡ longest is_sized_number s.now }
    ensures within { result ≤ length s.now }
{
    match s {
        [c, rest @ ..] => {
            if c.is_ascii_digit() {
                lifted(size_rest_length(rest))
            } else {
                0
            }
        }
        [] => 0,
    }
}

/// The length of the longest number of any form, or 0.
#[tactic(auto, using(crate::proofs::Prefixes::longest_short, crate::proofs::Forms::number_is))]
pub fn number_length(s: &[u8]) -> usize
    ensures value { result ≡ longest is_number s.now }
    ensures within { result ≤ length s.now }
{
    let plain = plain_number_length(s);
    let filling = filling_number_length(s);
    let based = based_number_length(s);
    let sized = sized_number_length(s);
    plain.max(filling.max(based.max(sized)))
}

/// 1 where an `s` is next, else 0.
#[tactic(auto, using(crate::proofs::Prefixes::longest_short, crate::proofs::Forms::second_prefix))]
fn second_length(s: &[u8]) -> usize
    ensures value { result ≡ longest (is_one (λ d. d == 115)) s.now }
    ensures within { result ≤ length s.now }
{
    match s {
        [c, ..] => { if *c == b's' { 1 } else { 0 } }
        [] => 0,
    }
}

/// The length of the unit of time, or 0.
#[tactic(auto, using(crate::proofs::Prefixes::longest_short, crate::proofs::Forms::unit_prefix))]
fn unit_length(s: &[u8]) -> usize
    ensures value { result ≡ longest is_unit s.now }
    ensures within { result ≤ length s.now }
{
    match s {
        [c, rest @ ..] => {
            if *c == b's' {
                1
            } else if is_unit_letter(*c) {
                lifted(second_length(rest))
            } else {
                0
            }
        }
        [] => 0,
    }
}

/// The length of the rest of the digits with a unit, or 0.
#[tactic(auto, using(crate::proofs::Prefixes::longest_short, crate::proofs::Forms::time_rest_prefix))]
fn time_rest_length(s: &[u8]) -> usize
    ensures value { result ≡ longest is_time_rest s.now }
    ensures within { result ≤ length s.now }
{
    let digits = digit_run(s);
    let unit = unit_length(&s[digits..]);
    if unit == 0 { 0 } else { digits + unit }
}

/// The length of the time literal, or 0.
#[tactic(auto, using(crate::proofs::Prefixes::longest_short, crate::proofs::Forms::time_prefix))]
pub fn time_length(s: &[u8]) -> usize
    ensures value { result ≡ longest is_time s.now }
    ensures within { result ≤ length s.now }
{
    match s {
        [c, rest @ ..] => {
            if c.is_ascii_digit() {
                lifted(time_rest_length(rest))
            } else {
                0
            }
        }
        [] => 0,
    }
}

/// The length of `1step`, or 0.
#[tactic(auto, using(crate::proofs::Forms::one_step_prefix))]
pub fn one_step_length(s: &[u8]) -> usize
    ensures value { result ≡ longest is_one_step s.now }
    ensures within { result ≤ length s.now }
{
    if s.starts_with(b"1step") { 5 } else { 0 }
}
