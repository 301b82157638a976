// Tokens, and what else stands in a text (IEEE 1800-2017, 5 and 22).
use crate::kind::Kind;
use sv_value::{Excerpt, Place};
use thiserror::Error;

/// A token (5.2), at its first byte. `text` holds its bytes where the kind does not tell them: of names, system names, numbers, time
/// literals and string literals (with their quotes). It is empty for all other kinds. It shares the memory of the text that was read.
#[derive(Drop)]
pub struct Token {
    pub kind: Kind,
    pub at: Place,
    pub text: Excerpt,
}

/// `` `timescale A/B `` (22.7), at its back quote. Both numbers are powers of ten of a femtosecond: 15 is a second, 6 a nanosecond.
#[derive(Clone, Copy, PartialEq, Eq, Debug)]
pub struct Timescale {
    pub unit: u32,
    pub precision: u32,
    pub at: Place,
}

/// Why a text has no tokens. Each shows as it stands in the closing line.
#[derive(Clone, Copy, PartialEq, Eq, Debug, Error)]
pub enum Refused {
    /// No token, separator or directive begins here; of a string literal with an unknown escape, at its first quote.
    #[error("bad byte")]
    BadByte,
    /// A string literal that does not end on its line, at its first quote.
    #[error("open text")]
    OpenText,
    /// A `/*` without its `*/`, at its first byte.
    #[error("open comment")]
    OpenComment,
    /// A number that means nothing: bad digits, too wide, or of width 0.
    #[error("bad literal")]
    Literal,
    /// The token after the greatest number of tokens.
    #[error("too many tokens")]
    TooManyTokens,
    /// A directive that is not permitted, or has another form, at its back quote.
    #[error("bad directive")]
    Directive,
}

/// What a text begins with, and its length in bytes.
#[derive(Clone, Copy, PartialEq, Eq, Debug)]
pub enum Piece {
    /// A separator, or a directive without effect.
    Passed(usize),
    /// A time scale.
    Scale {
        /// Its unit, as in `Timescale`.
        unit: u32,
        /// Its precision, as in `Timescale`.
        precision: u32,
        /// Its length in bytes.
        length: usize,
    },
    /// A token.
    Token(Kind, usize),
    /// Nothing can be read.
    Nothing(Refused),
}

/// The greatest number of tokens of a file, without the one for its end: 2^21.
pub const MOST_TOKENS: usize = 1 << 21;
