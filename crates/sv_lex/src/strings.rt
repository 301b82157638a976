// String literals (IEEE 1800-2017, 5.9).

ghost use Rattle.std.specs.Prelude.{◌≡◌, ◌≤◌, length, false};
ghost use Rattle.sv_tree.specs.Longest.{longest};
ghost use Rattle.sv_tree.specs.Tokens.{is_string_rest, is_string};
ghost use Rattle.sv_lex.specs.Quoting.{allowed, closes, breaks, slashes};

use crate::letters::{is_on_line, lifted};

/// Which bytes may stand after a `\`.
#[derive(Clone, Copy, PartialEq, Eq, Debug)]
pub enum Escape {
    /// `n`, `t`, `\` and `"`.
    Known,
    /// Any but a newline.
    Any,
}

/// Whether a byte may stand after a `\`.
fn is_allowed(escape: Escape, c: u8) -> bool
    ensures { result ≡ allowed escape c }
{
    match escape {
        Escape::Known => c == b'n' || c == b't' || c == b'\\' || c == b'"',
        Escape::Any => is_on_line(c),
    }
}

/// Whether the literal ends with this byte.
fn closes(after_slash: bool, c: u8) -> bool
    ensures { result ≡ closes after_slash c }
{
    !after_slash && c == b'"'
}

/// Whether this byte cannot stand there.
fn breaks(escape: Escape, after_slash: bool, c: u8) -> bool
    ensures { result ≡ breaks escape after_slash c }
{
    if after_slash {
        return !is_allowed(escape, c);
    }
    c == b'\n'
}

/// Whether the next byte stands after a `\`.
fn slashes(after_slash: bool, c: u8) -> bool
    ensures { result ≡ slashes after_slash c }
{
    !after_slash && c == b'\\'
}

/// After the first quote.
#[tactic(auto, using(crate::proofs::Prefixes::over_start, crate::proofs::Forms::string_found, crate::proofs::Forms::string_broken, crate::proofs::Forms::string_goes, crate::proofs::Forms::string_done))]
fn string_rest_length(s: &[u8], escape: Escape) -> usize
    ensures value { result ≡ longest (is_string_rest (allowed escape) false) s.now }
    ensures within { result ≤ length s.now }
{
    let mut after_slash = false;
    let mut i = 0;
    while i < s.len() {
        let c = s[i];
        if closes(after_slash, c) {
            return i + 1;
        }
        if breaks(escape, after_slash, c) {
            return 0;
        }
        after_slash = slashes(after_slash, c);
        i += 1;
    }
    0
}

/// The length of the longest string literal that the text begins with, or 0.
#[tactic(auto, using(crate::proofs::Prefixes::longest_short, crate::proofs::Forms::string_prefix))]
pub fn string_length(s: &[u8], escape: Escape) -> usize
    ensures value { result ≡ longest (is_string (allowed escape)) s.now }
    ensures within { result ≤ length s.now }
{
    match s {
        [c, rest @ ..] => {
            if *c == b'"' {
                lifted(string_rest_length(rest, escape))
            } else {
                0
            }
        }
        [] => 0,
    }
}
