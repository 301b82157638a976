// Why tokens are refused.
ghost use Rattle.std.specs.Prelude.{◌≡◌};
ghost use Rattle.sv_grammar.specs.Tokens.{next};
ghost use Rattle.sv_tree.specs.Codes.{toks};
ghost use Rattle.sv_parse.specs.Tells.{Names};

use crate::tokens::ReadError;
use sv_tree::Token;
use sv_value::Place;
use thiserror::Error;

/// Why no tree begins with the tokens up to a token. Each shows as it stands in the closing line.
#[derive(Clone, Copy, Debug, PartialEq, Eq, Error)]
pub enum SyntaxKind {
    /// No tree of any depth begins so.
    #[error("unexpected token")]
    Unexpected,
    /// Only trees that are deeper than 200 begin so.
    #[error("too deep")]
    Depth,
}

/// Why tokens are refused.
#[derive(Clone, Copy, Debug, PartialEq, Eq, Error)]
pub enum SyntaxFault {
    /// Memory ran out.
    #[error("out of memory")]
    Memory,
    /// The first token with which nothing that fits goes on.
    #[error("{kind}")]
    Bad { at: Place, kind: SyntaxKind },
}

/// The place of the next token, or the place 0 where there is none.
fn place_of(tokens: &[Token]) -> Place
    ensures { result ≡ (next (toks tokens.now)).at }
{
    match tokens {
        [] => Place {
            file: 0,
            line: 0,
            col: 0,
        },
        [first, ..] => first.at,
    }
}

/// What stops a reader, as its place and its kind.
pub fn fault_of(error: ReadError) -> SyntaxFault
    ensures { Names error.entry result }
{
    match error {
        ReadError::Memory => SyntaxFault::Memory,
        ReadError::TooDeep(rest) => SyntaxFault::Bad {
            at: place_of(rest),
            kind: SyntaxKind::Depth,
        },
        ReadError::Unexpected(rest) => SyntaxFault::Bad {
            at: place_of(rest),
            kind: SyntaxKind::Unexpected,
        },
    }
}
