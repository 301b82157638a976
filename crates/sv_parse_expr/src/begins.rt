// What begins with the next token.
ghost use Rattle.std.specs.Prelude.{◌≡◌};
ghost use Rattle.sv_grammar.specs.Tokens.{mem, next};
ghost use Rattle.sv_tree.specs.Codes.{code, toks};
ghost use Rattle.sv_tree.specs.Grammar.{expr_first, prim_first};
ghost use Rattle.sv_parse_expr.specs.First.{cast_first, post_first, suffix_first};

use sv_parse::{Word, is_next_word};
use sv_tree::{Kind, Token, UnaryWord};

/// Whether an operand without an operator before it begins with a kind.
fn prim_first(kind: Kind) -> bool
    ensures { result ≡ mem (code kind) prim_first }
{
    matches!(
        kind,
        Kind::Name
            | Kind::SystemName
            | Kind::Number
            | Kind::TimeLiteral
            | Kind::StringLiteral
            | Kind::Logic
            | Kind::Bit
            | Kind::Reg
            | Kind::String
            | Kind::Event
            | Kind::Byte
            | Kind::Shortint
            | Kind::Int
            | Kind::Longint
            | Kind::Integer
            | Kind::Time
            | Kind::Semaphore
            | Kind::Mailbox
            | Kind::This
            | Kind::Super
            | Kind::Null
            | Kind::LeftParenthesis
            | Kind::LeftBrace
            | Kind::Dollar
    )
}

/// Whether an expression begins with a kind.
#[tactic(auto, using(sv_parse::proofs::ExprParts::mem_both))]
pub fn expr_first(kind: Kind) -> bool
    ensures { result ≡ mem (code kind) expr_first }
{
    UnaryWord::of(kind).is_some() || prim_first(kind)
}

/// Whether an expression begins with the next token.
pub fn begins_expr(tokens: &[Token]) -> bool
    ensures { result ≡ mem (next (toks tokens.now)).code expr_first }
{
    match tokens {
        [] => false,
        [first, ..] => expr_first(first.kind),
    }
}

/// Whether a member, arguments or a select begins with the next token.
pub fn begins_suffix(tokens: &[Token]) -> bool
    ensures { result ≡ mem (next (toks tokens.now)).code suffix_first }
{
    match tokens {
        [] => false,
        [first, ..] => matches!(
            first.kind,
            Kind::Dot | Kind::LeftParenthesis | Kind::LeftBracket
        ),
    }
}

/// Whether a word of a type that may be cast to comes next.
pub fn begins_cast(tokens: &[Token]) -> bool
    ensures { result ≡ mem (next (toks tokens.now)).code cast_first }
{
    match tokens {
        [] => false,
        [first, ..] => matches!(
            first.kind,
            Kind::Bit
                | Kind::Logic
                | Kind::Reg
                | Kind::Byte
                | Kind::Shortint
                | Kind::Int
                | Kind::Longint
                | Kind::Integer
                | Kind::Time
                | Kind::String
                | Kind::Event
                | Kind::Semaphore
                | Kind::Mailbox
        ),
    }
}

/// Whether a name with what follows it comes next.
pub fn begins_post(tokens: &[Token]) -> bool
    ensures { result ≡ mem (next (toks tokens.now)).code post_first }
{
    match tokens {
        [] => false,
        [first, ..] => matches!(first.kind, Kind::Name | Kind::This | Kind::Super),
    }
}
