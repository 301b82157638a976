// Blanks and comments (IEEE 1800-2017, 5.3 and 5.4).

ghost use Rattle.std.specs.Prelude.{◌≡◌, ◌≤◌, ◌==◌, ◌&&◌, length};
ghost use Rattle.std.specs.List.{list_all};
ghost use Rattle.sv_tree.specs.Longest.{longest};
ghost use Rattle.sv_tree.specs.Tokens.{is_after, is_on_line};
ghost use Rattle.sv_tree.specs.Lexing.{slash, star, is_blank_byte, is_blank, is_line_comment, is_comment_rest, is_comment, is_separator};

use crate::letters::{lifted, line_run};

/// A blank, a tab, a newline or a carriage return.
fn is_blank_byte(c: u8) -> bool
    ensures { result ≡ is_blank_byte c }
{
    c == b' ' || c == b'\t' || c == b'\n' || c == b'\r'
}

/// 1 where a blank is next, else 0.
#[tactic(auto, using(crate::proofs::Prefixes::longest_short, crate::proofs::Forms::blank_prefix))]
fn blank_length(s: &[u8]) -> usize
    ensures value { result ≡ longest is_blank s.now }
    ensures within { result ≤ length s.now }
{
    match s {
        [c, ..] => { if is_blank_byte(*c) { 1 } else { 0 } }
        [] => 0,
    }
}

/// After the first `/`.
#[tactic(auto, using(crate::proofs::Prefixes::longest_short, crate::proofs::Forms::slash_prefix))]
fn slash_length(s: &[u8]) -> usize
    ensures value { result ≡ longest (is_after slash (list_all is_on_line)) s.now }
    ensures within { result ≤ length s.now }
{
    match s {
        [c, rest @ ..] => { if *c == b'/' { 1 + line_run(rest) } else { 0 } }
        [] => 0,
    }
}

/// The length of the comment to the end of its line, or 0.
#[tactic(auto, using(crate::proofs::Prefixes::longest_short, crate::proofs::Forms::line_comment_prefix))]
fn line_comment_length(s: &[u8]) -> usize
    ensures value { result ≡ longest is_line_comment s.now }
    ensures within { result ≤ length s.now }
{
    match s {
        [c, rest @ ..] => {
            if *c == b'/' {
                lifted(slash_length(rest))
            } else {
                0
            }
        }
        [] => 0,
    }
}

/// Whether a comment ends with these bytes.
fn is_end(a: u8, b: u8) -> bool
    ensures { result ≡ (a == star && b == slash) }
{
    a == b'*' && b == b'/'
}

/// Up to the first `*/`.
#[tactic(auto, using(crate::proofs::Prefixes::over_start, crate::proofs::Forms::comment_found, crate::proofs::Forms::comment_goes, crate::proofs::Forms::comment_done))]
fn comment_rest_length(s: &[u8]) -> usize
    ensures value { result ≡ longest is_comment_rest s.now }
    ensures within { result ≤ length s.now }
{
    let mut i = 0;
    while i + 1 < s.len() {
        if is_end(s[i], s[i + 1]) {
            return i + 2;
        }
        i += 1;
    }
    0
}

/// After the first `/`.
#[tactic(auto, using(crate::proofs::Prefixes::longest_short, crate::proofs::Forms::star_prefix))]
fn star_length(s: &[u8]) -> usize
    ensures value { result ≡ longest (is_after star is_comment_rest) s.now }
    ensures within { result ≤ length s.now }
{
    match s {
        [c, rest @ ..] => {
            if *c == b'*' {
                lifted(comment_rest_length(rest))
            } else {
                0
            }
        }
        [] => 0,
    }
}

/// The length of the comment up to `*/`, or 0.
#[tactic(auto, using(crate::proofs::Prefixes::longest_short, crate::proofs::Forms::comment_prefix))]
fn comment_length(s: &[u8]) -> usize
    ensures value { result ≡ longest is_comment s.now }
    ensures within { result ≤ length s.now }
{
    match s {
        [c, rest @ ..] => {
            if *c == b'/' {
                lifted(star_length(rest))
            } else {
                0
            }
        }
        [] => 0,
    }
}

/// The length of the longest separator, or 0.
#[tactic(auto, using(crate::proofs::Forms::separator_is))]
pub fn separator_length(s: &[u8]) -> usize
    ensures value { result ≡ longest is_separator s.now }
    ensures within { result ≤ length s.now }
{
    let blank = blank_length(s);
    let line_comment = line_comment_length(s);
    let comment = comment_length(s);
    blank.max(line_comment.max(comment))
}
