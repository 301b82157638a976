// The directives that are permitted (IEEE 1800-2017, 22.7 and 22.8).

ghost use Rattle.std.specs.Prelude.{◌≡◌, ◌≤◌, ◌<◌, ◌+◌, ◌-◌, length, IfSome};
ghost use Rattle.sv_tree.specs.Lexing.{directive_piece};
ghost use Rattle.sv_tree.specs.Directives.{after_word, after_spaces, after_some_spaces, after_end_of_word, power_at, magnitude_at, unit_at, scale_at, timescale_at, none_or_wire, nettype_at};
ghost use Rattle.sv_lex.specs.Reads.{Reads};
ghost use Rattle.sv_lex.specs.Going.{Fits};

use crate::letters::{name_run, space_run};
use sv_tree::{Piece, Refused};

/// What is left after a word.
#[tactic(auto, using(std::proofs::lemmas::List::take_rest), unfolding(sv_tree::specs::Directives::after_word))]
fn after_word<'a>(word: &[u8], s: &'a [u8]) -> Option<&'a [u8]>
    ensures value { Reads (λ x. x.now) result (after_word word.now s.now) }
    ensures shorter { IfSome result (λ x. length x.now + length word.now ≤ length s.now) }
{
    if s.starts_with(word) {
        Some(&s[word.len()..])
    } else {
        None
    }
}

/// What is left after any number of blanks and tabs.
#[tactic(auto, using(std::proofs::lemmas::List::take_rest))]
fn after_spaces(s: &[u8]) -> &[u8]
    ensures value { result.now ≡ after_spaces s.now }
    ensures shorter { length result.now ≤ length s.now }
{
    &s[space_run(s)..]
}

/// What is left after at least one blank or tab.
#[tactic(auto, unfolding(sv_tree::specs::Directives::after_some_spaces))]
fn after_some_spaces(s: &[u8]) -> Option<&[u8]>
    ensures value { Reads (λ x. x.now) result (after_some_spaces s.now) }
    ensures shorter { IfSome result (λ x. length x.now ≤ length s.now) }
{
    if space_run(s) == 0 {
        None
    } else {
        Some(after_spaces(s))
    }
}

/// The text, where no letter, digit, `_` or `$` is next.
#[tactic(auto, unfolding(sv_tree::specs::Directives::after_end_of_word))]
fn after_end_of_word(s: &[u8]) -> Option<&[u8]>
    ensures value { Reads (λ x. x.now) result (after_end_of_word s.now) }
    ensures shorter { IfSome result (λ x. length x.now ≤ length s.now) }
{
    if name_run(s) == 0 { Some(s) } else { None }
}

/// The power of ten that a word stands for, and what is left after it.
#[tactic(auto, unfolding(sv_tree::specs::Directives::power_at))]
fn power_at<'a>(word: &[u8], n: u32, s: &'a [u8]) -> Option<(u32, &'a [u8])>
    ensures value { Reads (λ x. (x.0, x.1.now)) result (power_at word.now n s.now) }
    ensures shorter { IfSome result (λ x. length x.1.now ≤ length s.now) }
    ensures power { IfSome result (λ x. x.0 ≡ n) }
{
    let rest = after_word(word, s)?;
    Some((n, rest))
}

/// 1, 10 or 100 as a power of ten, and what is left after it.
#[tactic(auto, unfolding(sv_tree::specs::Directives::magnitude_at))]
fn magnitude_at(s: &[u8]) -> Option<(u32, &[u8])>
    ensures value { Reads (λ x. (x.0, x.1.now)) result (magnitude_at s.now) }
    ensures shorter { IfSome result (λ x. length x.1.now ≤ length s.now) }
    ensures small { IfSome result (λ x. x.0 ≤ 2) }
{
    if let Some(x) = power_at(b"100", 2, s) {
        return Some(x);
    }
    if let Some(x) = power_at(b"10", 1, s) {
        return Some(x);
    }
    power_at(b"1", 0, s)
}

/// A unit of time as a power of ten of a femtosecond, and what is left after it.
#[tactic(auto, unfolding(sv_tree::specs::Directives::unit_at))]
fn unit_at(s: &[u8]) -> Option<(u32, &[u8])>
    ensures value { Reads (λ x. (x.0, x.1.now)) result (unit_at s.now) }
    ensures shorter { IfSome result (λ x. length x.1.now ≤ length s.now) }
    ensures small { IfSome result (λ x. x.0 ≤ 15) }
{
    if let Some(x) = power_at(b"s", 15, s) {
        return Some(x);
    }
    if let Some(x) = power_at(b"ms", 12, s) {
        return Some(x);
    }
    if let Some(x) = power_at(b"us", 9, s) {
        return Some(x);
    }
    if let Some(x) = power_at(b"ns", 6, s) {
        return Some(x);
    }
    if let Some(x) = power_at(b"ps", 3, s) {
        return Some(x);
    }
    power_at(b"fs", 0, s)
}

/// A number and a unit as a power of ten of a femtosecond, and what is left after them.
#[tactic(auto, unfolding(sv_tree::specs::Directives::scale_at))]
fn scale_at(s: &[u8]) -> Option<(u32, &[u8])>
    ensures value { Reads (λ x. (x.0, x.1.now)) result (scale_at s.now) }
    ensures shorter { IfSome result (λ x. length x.1.now ≤ length s.now) }
{
    let (magnitude, rest) = magnitude_at(s)?;
    let (unit, rest) = unit_at(after_spaces(rest))?;
    Some((magnitude + unit, rest))
}

/// The two powers of ten of `` `timescale A/B ``, and what is left after it.
#[tactic(auto, unfolding(sv_tree::specs::Directives::timescale_at))]
fn timescale_at(s: &[u8]) -> Option<((u32, u32), &[u8])>
    ensures value { Reads (λ x. (x.0, x.1.now)) result (timescale_at s.now) }
    ensures shorter { IfSome result (λ x. length x.1.now < length s.now) }
{
    let rest = after_word(b"`timescale", s)?;
    let rest = after_some_spaces(rest)?;
    let (unit, rest) = scale_at(rest)?;
    let rest = after_word(b"/", after_spaces(rest))?;
    let (precision, rest) = scale_at(after_spaces(rest))?;
    let rest = after_end_of_word(rest)?;
    Some(((unit, precision), rest))
}

/// What is left after `none` or `wire`.
fn none_or_wire(s: &[u8]) -> Option<&[u8]>
    ensures value { Reads (λ x. x.now) result (none_or_wire s.now) }
    ensures shorter { IfSome result (λ x. length x.now ≤ length s.now) }
{
    if let Some(rest) = after_word(b"none", s) {
        return Some(rest);
    }
    after_word(b"wire", s)
}

/// What is left after `` `default_nettype `` with `none` or `wire`.
#[tactic(auto, unfolding(sv_tree::specs::Directives::nettype_at))]
fn nettype_at(s: &[u8]) -> Option<&[u8]>
    ensures value { Reads (λ x. x.now) result (nettype_at s.now) }
    ensures shorter { IfSome result (λ x. length x.now < length s.now) }
{
    let rest = after_word(b"`default_nettype", s)?;
    let rest = after_some_spaces(rest)?;
    let rest = none_or_wire(rest)?;
    after_end_of_word(rest)
}

/// The directive that the text begins with.
#[tactic(auto, unfolding(sv_tree::specs::Lexing::directive_piece))]
pub fn directive(s: &[u8]) -> Piece
    ensures value { result ≡ directive_piece s.now (timescale_at s.now) (nettype_at s.now) }
    ensures fits { Fits result (length s.now) }
{
    if let Some(((unit, precision), rest)) = timescale_at(s) {
        return Piece::Scale {
            unit,
            precision,
            length: s.len() - rest.len(),
        };
    }
    if let Some(rest) = nettype_at(s) {
        return Piece::Passed(s.len() - rest.len());
    }
    Piece::Nothing(Refused::Directive)
}
