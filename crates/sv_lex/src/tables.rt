// The words of tables (IEEE 1800-2017, 5.5 and 5.6.2).

ghost use Rattle.std.specs.Prelude.{◌≡◌, ◌≤◌, length, map};
ghost use Rattle.std.specs.List.{list_any};
ghost use Rattle.sv_tree.specs.Longest.{longest};
ghost use Rattle.sv_tree.specs.Tokens.{is_word, is_spelled, spelled, kind_of_name, plain_word, words, signs, unused};
ghost use Rattle.sv_lex.specs.FirstBytes.{begin_apart, is_alone};

use crate::letters::is_word_part;
use sv_tree::{Kind, SIGNS, UNUSED, WORDS};

/// Whether two texts begin with different bytes.
#[tactic(auto, using(crate::proofs::Prefixes::apart, crate::proofs::Prefixes::apart_from_none, crate::proofs::Prefixes::none_apart))]
fn begin_apart(word: &[u8], s: &[u8]) -> bool
    ensures { result ≡ begin_apart word.now s.now }
{
    match word {
        [x, ..] => {
            match s {
                [y, ..] => *x != *y,
                [] => false,
            }
        }
        [] => false,
    }
}

/// The length of a word, where the text begins with it, or 0.
#[tactic(auto, using(crate::proofs::Prefixes::longest_word, crate::proofs::Prefixes::no_prefix))]
fn word_length(word: &[u8], s: &[u8]) -> usize
    ensures value { result ≡ longest (is_word word.now) s.now }
    ensures within { result ≤ length s.now }
{
    if begin_apart(word, s) {
        return 0;
    }
    if s.starts_with(word) { word.len() } else { 0 }
}

/// The length of the longest word of a table that the text begins with, or 0.
pub fn spelled_length(table: &[(&str, Kind)], s: &[u8]) -> usize
    ensures value { result ≡ longest (is_spelled (map (λ x. (x.0.now, x.1)) table.now)) s.now }
    ensures within { result ≤ length s.now }
{
    let mut most = 0;
    for (word, _) in table {
        most = word_length(word.as_bytes(), s).max(most);
    }
    most
}

/// The kind of a word.
pub fn kind_in(table: &[(&str, Kind)], word: &[u8]) -> Option<Kind>
    ensures { result ≡ spelled (map (λ x. (x.0.now, x.1)) table.now) word.now }
{
    for (spelling, kind) in table {
        if spelling.as_bytes() == word {
            return Some(*kind);
        }
    }
    None
}

/// Whether a word is in a list.
fn is_in(words: &[&str], word: &[u8]) -> bool
    ensures { result ≡ list_any (λ x. is_word x word.now) (map (λ x. x.now) words.now) }
{
    for x in words {
        if x.as_bytes() == word {
            return true;
        }
    }
    false
}

/// The reserved words that the grammar uses.
fn words() -> &'static [(&'static str, Kind)]
    ensures { map (λ x. (x.0.now, x.1)) result.now ≡ words }
{
    &WORDS
}

/// The operators and the punctuation.
pub fn signs() -> &'static [(&'static str, Kind)]
    ensures { map (λ x. (x.0.now, x.1)) result.now ≡ signs }
{
    &SIGNS
}

/// Whether a byte is an operator that begins no other.
fn is_alone(c: u8) -> bool
    ensures { result ≡ is_alone c }
{
    c == b';'
        || c == b','
        || c == b'('
        || c == b')'
        || c == b'['
        || c == b']'
        || c == b'{'
        || c == b'}'
}

/// The length of the longest operator, or 0. None begins with a letter, a digit or `_`.
#[tactic(auto, using(crate::proofs::Prefixes::longest_short, crate::proofs::SignLaws::no_sign, crate::proofs::SignLaws::one_sign))]
pub fn sign_length(s: &[u8]) -> usize
    ensures value { result ≡ longest (is_spelled signs) s.now }
    ensures within { result ≤ length s.now }
{
    match s {
        [c, ..] => {
            if is_word_part(*c) {
                return 0;
            }
            if is_alone(*c) {
                return 1;
            }
            spelled_length(signs(), s)
        }
        [] => 0,
    }
}

/// The reserved words that no rule accepts.
fn unused() -> &'static [&'static str]
    ensures { map (λ x. x.now) result.now ≡ unused }
{
    &UNUSED
}

/// The kind of a word that the grammar does not use: reserved, or a name.
#[tactic(auto, unfolding(sv_tree::specs::Tokens::plain_word))]
fn plain_word(word: &[u8]) -> Kind
    ensures { result ≡ plain_word word.now }
{
    if is_in(unused(), word) {
        Kind::Reserved
    } else {
        Kind::Name
    }
}

/// A reserved word, or a name. No reserved word has one byte.
#[tactic(auto, unfolding(sv_tree::specs::Tokens::kind_of_name), using(crate::proofs::WordLaws::name_of_one))]
pub fn kind_of_name(word: &[u8]) -> Kind
    ensures { result ≡ kind_of_name word.now }
{
    if word.len() == 1 {
        return Kind::Name;
    }
    match kind_in(words(), word) {
        Some(kind) => kind,
        None => plain_word(word),
    }
}
