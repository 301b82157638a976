// What comes next.
ghost use Rattle.std.specs.Prelude.{◌≡◌, [], ◌∷◌, ◌&&◌, drop};
ghost use Rattle.sv_grammar.specs.Tokens.{mem, next};
ghost use Rattle.sv_tree.specs.Codes.{code, toks};
ghost use Rattle.sv_tree.specs.Grammar.{named_first};
ghost use Rattle.sv_parse_stmt.specs.Begins.{case_item_first, holder_first, is_decl, stmt_first};

use sv_parse::is_next;
use sv_parse_expr::begins_expr;
use sv_parse_type::begins_word_decl;
use sv_tree::{Kind, Token};

/// Whether a form that always holds a statement, or targets in braces, come next. None of these fits where nothing may stand inside.
pub fn begins_holder(tokens: &[Token]) -> bool
    ensures { result ≡ mem (next (toks tokens.now)).code holder_first }
{
    match tokens {
        [] => false,
        [first, ..] => holder_first(first.kind),
    }
}

/// Whether a kind begins a form that always holds a statement, or targets in braces.
fn holder_first(kind: Kind) -> bool
    ensures { result ≡ mem (code kind) holder_first }
{
    matches!(
        kind,
        Kind::If
            | Kind::For
            | Kind::While
            | Kind::Do
            | Kind::Repeat
            | Kind::Forever
            | Kind::Foreach
            | Kind::Hash
            | Kind::At
            | Kind::HashHash
            | Kind::LeftBrace
    )
}

/// Whether a statement comes next.
pub fn begins_stmt(tokens: &[Token]) -> bool
    ensures { result ≡ mem (next (toks tokens.now)).code stmt_first }
{
    match tokens {
        [] => false,
        [first, ..] => stmt_first(first.kind),
    }
}

/// Whether a kind begins a statement.
fn stmt_first(kind: Kind) -> bool
    ensures { result ≡ mem (code kind) stmt_first }
{
    matches!(
        kind,
        Kind::Name
            | Kind::SystemName
            | Kind::Void
            | Kind::Begin
            | Kind::Fork
            | Kind::If
            | Kind::Case
            | Kind::Casez
            | Kind::Casex
            | Kind::For
            | Kind::While
            | Kind::Do
            | Kind::Repeat
            | Kind::Forever
            | Kind::Foreach
            | Kind::Wait
            | Kind::Disable
            | Kind::Break
            | Kind::Continue
            | Kind::Return
            | Kind::This
            | Kind::Super
            | Kind::Semicolon
            | Kind::LeftBrace
            | Kind::Hash
            | Kind::HashHash
            | Kind::At
            | Kind::Arrow
            | Kind::PlusPlus
            | Kind::MinusMinus
    )
}

/// Whether the next token may follow the name at the front of a statement.
pub fn goes_on_named(tokens: &[Token]) -> bool
    ensures { result ≡ mem (next (toks tokens.now)).code named_first }
{
    match tokens {
        [] => false,
        [first, ..] => named_first(first.kind),
    }
}

/// Whether a kind may follow the name at the front of a statement.
fn named_first(kind: Kind) -> bool
    ensures { result ≡ mem (code kind) named_first }
{
    matches!(
        kind,
        Kind::Semicolon
            | Kind::Colon
            | Kind::LeftParenthesis
            | Kind::LeftBracket
            | Kind::Dot
            | Kind::ColonColon
            | Kind::Equals
            | Kind::LessEquals
            | Kind::PlusPlus
            | Kind::MinusMinus
            | Kind::PlusEquals
            | Kind::MinusEquals
            | Kind::StarEquals
            | Kind::SlashEquals
            | Kind::PercentEquals
            | Kind::AmpersandEquals
            | Kind::BarEquals
            | Kind::CaretEquals
            | Kind::ShiftLeftEquals
            | Kind::ShiftRightEquals
            | Kind::ShiftLeftSignedEquals
            | Kind::ShiftRightSignedEquals
    )
}

/// Whether an item of a `case` comes next.
pub fn begins_case_item(tokens: &[Token]) -> bool
    ensures { result ≡ mem (next (toks tokens.now)).code case_item_first }
{
    is_next(tokens, Kind::Default) || begins_expr(tokens)
}

/// Whether tokens of these two kinds come next.
pub fn are_next(tokens: &[Token], first: Kind, second: Kind) -> bool
    ensures { result ≡ (mem (next (toks tokens.now)).code (code first ∷ []) && mem (next (drop 1 (toks tokens.now))).code (code second ∷ [])) }
{
    match tokens {
        [] => false,
        [_, rest @ ..] => {
            if !is_next(tokens, first) {
                return false;
            }
            is_next(rest, second)
        }
    }
}

/// Whether a declaration comes next: a word that begins one, or two names, of which the first is its type.
pub fn begins_decl(tokens: &[Token]) -> bool
    ensures { result ≡ is_decl (toks tokens.now) }
{
    begins_word_decl(tokens) || are_next(tokens, Kind::Name, Kind::Name)
}
