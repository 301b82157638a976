// The tokens that are left, and what stops a reader.
ghost use Rattle.std.specs.Prelude.{◌≡◌, [], ◌∷◌, Ok};
ghost use Rattle.sv_grammar.specs.Tokens.{mem, next};
ghost use Rattle.sv_grammar.specs.Reading.{one_of};
ghost use Rattle.sv_tree.specs.Codes.{code, tok, toks};
ghost use Rattle.sv_tree.specs.Forms.{optional};
ghost use Rattle.sv_tree.specs.Forms as forms;
ghost use Rattle.sv_tree.specs.Grammar.{reads};
ghost use Rattle.sv_parse.specs.Outcome.{Gives};
ghost use Rattle.sv_parse.specs.Parts.{if_next};
ghost use Rattle.sv_parse.specs.declared.tokens.ReadError.TheVariants.{Memory};

use std::alloc::{AllocError, AllocFailed};
use sv_tree::{Kind, Token};
use sv_value::NoMemory;

/// Why nothing was read. `TooDeep` and `Unexpected` tell the tokens that were left, from the fault on.
#[derive(Drop)]
pub enum ReadError<'a> {
    Memory,
    /// Only deeper trees go on so.
    TooDeep(&'a [Token]),
    /// No tree goes on so.
    Unexpected(&'a [Token]),
}

/// What was read, and the tokens after it; or why nothing was.
pub type Read<'a, T> = Result<(T, &'a [Token]), ReadError<'a>>;

impl From<NoMemory> for ReadError<'_> {
    ghost from_gives = { λ _ e. e ≡ Memory };

    fn from(_error: NoMemory) -> Self {
        ReadError::Memory
    }
}

impl From<AllocError> for ReadError<'_> {
    ghost from_gives = { λ _ e. e ≡ Memory };

    fn from(_error: AllocError) -> Self {
        ReadError::Memory
    }
}

impl<T: Drop> From<AllocFailed<T>> for ReadError<'_> {
    ghost from_gives = { λ _ e. e ≡ Memory };

    fn from(_error: AllocFailed<T>) -> Self {
        ReadError::Memory
    }
}

/// The number of a kind in the grammar.
pub fn code_of(kind: Kind) -> u8
    ensures { result ≡ code kind }
{
    kind as u8 + 1
}

/// Whether the next token is of this kind.
pub fn is_next(tokens: &[Token], kind: Kind) -> bool
    ensures { result ≡ mem (next (toks tokens.now)).code (code kind ∷ []) }
{
    match tokens {
        [] => false,
        [first, ..] => code_of(first.kind) == code_of(kind),
    }
}

/// A token of this kind, and the tokens after it.
pub fn expect<'a>(tokens: &'a [Token], kind: Kind) -> Read<'a, &'a Token>
    ensures { Gives (λ x. (tok x.0.now, toks x.1.now)) result (one_of (code kind ∷ []) (toks tokens.now)) }
{
    match tokens {
        [first, rest @ ..] if code_of(first.kind) == code_of(kind) => Ok((first, rest)),
        _ => Err(ReadError::Unexpected(tokens)),
    }
}

/// The tokens after one of this kind where it comes next, else all of them; and whether it did.
pub fn skip(tokens: &[Token], kind: Kind) -> (bool, &[Token])
    ensures { reads 0 (optional (forms.tok kind)) (toks tokens.now) ≡ Ok (if_next result.0 (toks tokens.now), toks result.1.now) }
{
    match tokens {
        [first, rest @ ..] if code_of(first.kind) == code_of(kind) => (true, rest),
        _ => (false, tokens),
    }
}
