// What a text begins with.

ghost use Rattle.std.specs.Prelude.{◌≡◌, ◌≤◌, ◌<◌, length, take, is_err};
ghost use Rattle.sv_tree.specs.Longest.{longest};
ghost use Rattle.sv_tree.specs.Tokens.{kind_of, is_number};
ghost use Rattle.sv_tree.specs.Lexing.{is_token, no_token, token_piece, piece_at};
ghost use Rattle.sv_digits.specs.Literal.{literal_of};
ghost use Rattle.sv_lex.specs.Choosing.{chosen};
ghost use Rattle.sv_lex.specs.Going.{Fits};

use crate::directives::directive;
use crate::names::{name_length, system_name_length};
use crate::numbers::{number_length, one_step_length, time_length};
use crate::separators::separator_length;
use crate::strings::{Escape, string_length};
use crate::tables::{kind_in, kind_of_name, sign_length, signs};
use sv_digits::read_literal;
use sv_tree::{Kind, Piece, Refused};

/// The lengths of the longest prefixes of each form.
#[derive(Clone, Copy, Debug)]
struct Lengths {
    name: usize,
    system: usize,
    number: usize,
    time: usize,
    step: usize,
    string: usize,
}

/// The kind of a token of `n` bytes.
fn chosen(n: usize, word: &[u8], lengths: Lengths) -> Option<Kind>
    ensures { result ≡ chosen n word.now lengths.name lengths.system lengths.number lengths.time lengths.step lengths.string }
{
    if lengths.name == n {
        return Some(kind_of_name(word));
    }
    if lengths.system == n {
        return Some(Kind::SystemName);
    }
    if lengths.number == n {
        return Some(Kind::Number);
    }
    if lengths.time == n {
        return Some(Kind::TimeLiteral);
    }
    if lengths.step == n {
        return Some(Kind::OneStep);
    }
    if lengths.string == n {
        return Some(Kind::StringLiteral);
    }
    kind_in(signs(), word)
}

/// The length of the longest token, its kind, and whether it is a number.
fn token_at(s: &[u8]) -> (usize, Option<Kind>, bool)
    ensures length { result.0 ≡ longest is_token s.now }
    ensures within { result.0 ≤ length s.now }
    ensures kind { result.1 ≡ kind_of (take result.0 s.now) }
    ensures number { result.2 ≡ is_number (take result.0 s.now) }
{
    let name = name_length(s);
    let system = system_name_length(s);
    let number = number_length(s);
    let time = time_length(s);
    let step = one_step_length(s);
    let string = string_length(s, Escape::Known);
    let sign = sign_length(s);
    let n = name.max(system.max(number.max(time.max(step.max(string.max(sign))))));
    if n == 0 {
        return (0, None, false);
    }
    let lengths = Lengths {
        name,
        system,
        number,
        time,
        step,
        string,
    };
    (n, chosen(n, &s[..n], lengths), number == n)
}

/// Why no token can be read.
#[tactic(auto, unfolding(sv_tree::specs::Lexing::no_token))]
fn no_token(s: &[u8]) -> Refused
    ensures { result ≡ no_token s.now }
{
    if s.starts_with(b"\"") && string_length(s, Escape::Any) == 0 {
        Refused::OpenText
    } else {
        Refused::BadByte
    }
}

/// Whether a number means nothing.
fn is_refused(number: &[u8]) -> bool
    ensures { result ≡ is_err (literal_of number.now) }
{
    read_literal(number).is_err()
}

/// The token of this length and kind, unless it is a number that means nothing.
#[tactic(auto, unfolding(sv_tree::specs::Lexing::token_piece))]
fn token_piece(s: &[u8], n: usize, kind: Option<Kind>, numeric: bool) -> Piece
    requires within { n ≤ length s.now }
    requires some { 1 ≤ n }
    requires number { numeric ≡ is_number (take n s.now) }
    ensures value { result ≡ token_piece s.now n kind }
    ensures fits { Fits result (length s.now) }
{
    match kind {
        None => Piece::Nothing(no_token(s)),
        Some(kind) => {
            if numeric && is_refused(&s[..n]) {
                return Piece::Nothing(Refused::Literal);
            }
            Piece::Token(kind, n)
        }
    }
}

/// What a text begins with.
#[tactic(auto, using(crate::proofs::Chosen::piece_separator, crate::proofs::Chosen::piece_comment, crate::proofs::Chosen::piece_directive, crate::proofs::Chosen::piece_token, crate::proofs::Chosen::piece_none))]
pub fn piece_at(s: &[u8]) -> Piece
    ensures value { result ≡ piece_at s.now }
    ensures fits { Fits result (length s.now) }
{
    let separator = separator_length(s);
    if separator > 0 {
        return Piece::Passed(separator);
    }
    if s.starts_with(b"/*") {
        return Piece::Nothing(Refused::OpenComment);
    }
    if s.starts_with(b"`") {
        return directive(s);
    }
    let (n, kind, numeric) = token_at(s);
    if n == 0 {
        return Piece::Nothing(no_token(s));
    }
    token_piece(s, n, kind, numeric)
}
