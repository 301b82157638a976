// The whole text, piece by piece.

ghost use Rattle.std.specs.Prelude.{◌≡◌, ℕ, ◌≤◌, ◌<◌, ◌+◌, ◌-◌, ◌^◌, length, take, drop, IfOk, IfErr};
ghost use Rattle.sv_tree.specs.Lexing.{piece_at, Lexes, lex_fault, scales, start, after, token_of, end_of_text, reading, keeps_text};
ghost use Rattle.sv_tree.specs.Codes.{toks};
ghost use Rattle.sv_tree.specs.Closed.{IsClosed};
ghost use Rattle.sv_lex.specs.Going.{Fits, Goes, moved};
ghost use Rattle.sv_lex.specs.Answers.{Told};
ghost use Rattle.sv_lex.specs.declared.lexer.LexFault.TheVariants.{Memory};

use crate::pieces::piece_at;
use std::alloc::{AllocFailed, Global};
use sv_tree::{Kind, MOST_TOKENS, Piece, Refused, Timescale, Token};
use sv_value::{Excerpt, NoMemory, Place};
use thiserror::Error;

/// The tokens of a text in their order, behind them one for its end (behind the last separator), and the time scales that it sets.
#[derive(Drop)]
pub struct Lexed {
    pub tokens: Vec<Token>,
    pub scales: Vec<Timescale>,
}

/// Why `lex` has no tokens.
#[derive(Clone, Copy, Debug, PartialEq, Eq, Error)]
pub enum LexFault {
    /// Memory ran out.
    #[error("out of memory")]
    Memory,
    /// Nothing can be read from this place on.
    #[error("{kind}")]
    Bad { at: Place, kind: Refused },
}

impl From<NoMemory> for LexFault {
    ghost from_gives = { λ _ e. e ≡ Memory };

    fn from(_e: NoMemory) -> Self {
        LexFault::Memory
    }
}

impl<T: Drop> From<AllocFailed<T>> for LexFault {
    ghost from_gives = { λ _ e. e ≡ Memory };

    fn from(_e: AllocFailed<T>) -> Self {
        LexFault::Memory
    }
}

/// The place after a byte.
#[tactic(auto, unfolding(sv_tree::specs::Lexing::after))]
fn after(c: u8, p: Place) -> Place
    requires line { p.line + 1 < 2 ^ 32 }
    requires col { p.col + 1 < 2 ^ 32 }
    ensures value { result ≡ after c p }
    ensures line { result.line ≤ p.line + 1 }
    ensures col { result.col ≤ p.col + 1 }
{
    if c == b'\n' {
        return Place {
            file: p.file,
            line: p.line + 1,
            col: 1,
        };
    }
    Place {
        file: p.file,
        line: p.line,
        col: p.col + 1,
    }
}

/// The place after some bytes.
#[tactic(auto, using(crate::proofs::Steps::moved_more, crate::proofs::Steps::moved_done))]
fn moved(p: Place, s: &[u8]) -> Place
    requires line { p.line + length s.now < 2 ^ 32 }
    requires col { p.col + length s.now < 2 ^ 32 }
    ensures value { result ≡ moved p s.now }
    ensures line { result.line ≤ p.line + length s.now }
    ensures col { result.col ≤ p.col + length s.now }
{
    let mut at = p;
    for c in s {
        at = after(*c, at);
    }
    at
}

/// The first place of a file.
#[tactic(auto, unfolding(sv_tree::specs::Lexing::start))]
fn start(file: u16) -> Place
    ensures value { result ≡ start file }
    ensures line { result.line ≡ 1 }
    ensures col { result.col ≡ 1 }
{
    Place {
        file,
        line: 1,
        col: 1,
    }
}

/// Whether the bytes of a kind are kept.
fn keeps_text(kind: Kind) -> bool
    ensures { result ≡ keeps_text kind }
{
    matches!(
        kind,
        Kind::Name | Kind::SystemName | Kind::Number | Kind::TimeLiteral | Kind::StringLiteral
    )
}

/// A token of `n` bytes from place `i` of the text on, with its bytes where they are kept.
fn token(text: &Excerpt, kind: Kind, at: Place, i: usize, n: usize) -> Result<Token, NoMemory>
    requires { i + n ≤ length text.now }
    ensures { IfOk result (λ t. t ≡ token_of kind at (take n (drop i text.now))) }
{
    let kept = if keeps_text(kind) { n } else { 0 };
    Ok(Token {
        kind,
        at,
        text: text.part(i, kept)?,
    })
}

/// What the text from place `i` on begins with.
fn piece_in(text: &Excerpt, i: usize) -> Piece
    requires { i ≤ length text.now }
    ensures value { result ≡ piece_at (drop i text.now) }
    ensures fits { Fits result (length (drop i text.now)) }
{
    piece_at(&text.bytes()[i..])
}

/// Reads what the text from place `i` on begins with, and gives its length in bytes.
fn step(
    tokens: &mut Vec<Token>,
    scales: &mut Vec<Timescale>,
    at: Place,
    text: &Excerpt,
    i: usize,
) -> Result<usize, LexFault>
    requires { i < length text.now }
    ensures goes { IfOk result (λ n. Goes tokens.old.items scales.old.items tokens.new.items scales.new.items at n (drop i text.now)) }
    ensures fits { IfOk result (λ n. (1 ≤ n) × (i + n ≤ length text.now)) }
    ensures stops { IfErr result (λ e. Told e (reading (length tokens.old.items) 0 at (drop i text.now)).fault) }
{
    match piece_in(text, i) {
        Piece::Passed(n) => Ok(n),
        Piece::Scale {
            unit,
            precision,
            length,
        } => {
            scales.push(Timescale {
                unit,
                precision,
                at,
            })?;
            Ok(length)
        }
        Piece::Token(kind, n) => {
            if tokens.len() == MOST_TOKENS {
                return Err(LexFault::Bad {
                    at,
                    kind: Refused::TooManyTokens,
                });
            }
            tokens.push(token(text, kind, at, i, n)?)?;
            Ok(n)
        }
        Piece::Nothing(kind) => Err(LexFault::Bad { at, kind }),
    }
}

/// The token behind the last.
fn end_of_text(text: &Excerpt, at: Place) -> Result<Token, NoMemory>
    ensures { IfOk result (λ t. t ≡ end_of_text at) }
{
    Ok(Token {
        kind: Kind::EndOfText,
        at,
        text: text.part(0, 0)?,
    })
}

/// The tokens of a text, or the first place where nothing can be read (IEEE 1800-2017, 5.2 to 5.9, 22.7 and 22.8).
///
/// Each token is the longest that fits; separators and the permitted directives are passed over. `file` is the number that the places
/// of the tokens carry. A number that means nothing is a fault, and so is the token behind the 2^21st. All tokens share one copy of the
/// text.
pub fn lex(alloc: Global, file: u16, text: &[u8]) -> Result<Lexed, LexFault>
    requires { length text.now ≤ 2 ^ 23 }
    ensures tokens { IfOk result (λ l. Lexes file text.now l.tokens.items) }
    ensures closed { IfOk result (λ l. IsClosed (toks l.tokens.items)) }
    ensures scales { IfOk result (λ l. l.scales.items ≡ scales file text.now) }
    ensures fault { IfErr result (λ e. Told e (lex_fault file text.now)) }
{
    let whole = Excerpt::new(alloc, text)?;
    let mut tokens = Vec::new(alloc);
    let mut scales = Vec::new(alloc);
    let mut at = start(file);
    let mut i = 0;
    while i < text.len() {
        let n = step(&mut tokens, &mut scales, at, &whole, i)?;
        at = moved(at, &text[i..i + n]);
        i += n;
    }
    tokens.push(end_of_text(&whole, at)?)?;
    Ok(Lexed { tokens, scales })
}
