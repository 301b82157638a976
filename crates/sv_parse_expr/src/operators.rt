// The operators between two operands (IEEE 1800-2017, Table 11-2).
ghost use Rattle.std.specs.Prelude.{◌≡◌, IfOk};
ghost use Rattle.sv_grammar.specs.Tokens.{mem, next};
ghost use Rattle.sv_grammar.specs.Reading.{one_of};
ghost use Rattle.sv_tree.specs.Codes.{code, tok, toks};
ghost use Rattle.sv_tree.specs.Forms.{chosen, kinds_of};
ghost use Rattle.sv_tree.specs.ExprGrammar.{binary_words, precedences, stronger};
ghost use Rattle.sv_tree.specs.declared.word.BinaryWord.TheVariants as binary_words_of;
ghost use Rattle.sv_parse.specs.Outcome.{Gives, IsWordOf};

use sv_parse::{Read, ReadError};
use sv_tree::{BinaryWord, Kind, Precedence, Token};

/// All precedences, the weakest first.
static PRECEDENCES: [Precedence; 11] = [
    Precedence::LogicalOr,
    Precedence::LogicalAnd,
    Precedence::Or,
    Precedence::Xor,
    Precedence::And,
    Precedence::Equality,
    Precedence::Relational,
    Precedence::Shift,
    Precedence::Additive,
    Precedence::Multiplicative,
    Precedence::Power,
];

/// All precedences, the weakest first.
pub fn precedences() -> &'static [Precedence]
    ensures { result.now ≡ precedences }
{
    &PRECEDENCES
}

/// The precedences that bind more strongly than one, the weakest first.
pub fn stronger(precedence: Precedence) -> &'static [Precedence]
    ensures { result.now ≡ stronger precedence }
{
    match precedence {
        Precedence::LogicalOr => &PRECEDENCES[1..],
        Precedence::LogicalAnd => &PRECEDENCES[2..],
        Precedence::Or => &PRECEDENCES[3..],
        Precedence::Xor => &PRECEDENCES[4..],
        Precedence::And => &PRECEDENCES[5..],
        Precedence::Equality => &PRECEDENCES[6..],
        Precedence::Relational => &PRECEDENCES[7..],
        Precedence::Shift => &PRECEDENCES[8..],
        Precedence::Additive => &PRECEDENCES[9..],
        Precedence::Multiplicative => &PRECEDENCES[10..],
        Precedence::Power => &[],
    }
}

/// The operator of a precedence that a kind spells.
fn binary_word(precedence: Precedence, kind: Kind) -> Option<BinaryWord>
    ensures { IsWordOf result binary_words_of.LogicalOr (binary_words precedence) (code kind) }
{
    match precedence {
        Precedence::Power => match kind {
            Kind::StarStar => Some(BinaryWord::Power),
            _ => None,
        },
        Precedence::Multiplicative => match kind {
            Kind::Star => Some(BinaryWord::Multiply),
            Kind::Slash => Some(BinaryWord::Divide),
            Kind::Percent => Some(BinaryWord::Remainder),
            _ => None,
        },
        Precedence::Additive => match kind {
            Kind::Plus => Some(BinaryWord::Plus),
            Kind::Minus => Some(BinaryWord::Minus),
            _ => None,
        },
        Precedence::Shift => match kind {
            Kind::ShiftLeft => Some(BinaryWord::ShiftLeft),
            Kind::ShiftRight => Some(BinaryWord::ShiftRight),
            Kind::ShiftLeftSigned => Some(BinaryWord::ShiftLeftSigned),
            Kind::ShiftRightSigned => Some(BinaryWord::ShiftRightSigned),
            _ => None,
        },
        Precedence::Relational => match kind {
            Kind::Less => Some(BinaryWord::Less),
            Kind::LessEquals => Some(BinaryWord::LessEqual),
            Kind::Greater => Some(BinaryWord::Greater),
            Kind::GreaterEquals => Some(BinaryWord::GreaterEqual),
            _ => None,
        },
        Precedence::Equality => match kind {
            Kind::EqualsEquals => Some(BinaryWord::Equal),
            Kind::NotEquals => Some(BinaryWord::NotEqual),
            Kind::CaseEquals => Some(BinaryWord::CaseEqual),
            Kind::CaseNotEquals => Some(BinaryWord::CaseNotEqual),
            _ => None,
        },
        Precedence::And => match kind {
            Kind::Ampersand => Some(BinaryWord::And),
            _ => None,
        },
        Precedence::Xor => match kind {
            Kind::Caret => Some(BinaryWord::Xor),
            Kind::TildeCaret | Kind::CaretTilde => Some(BinaryWord::Xnor),
            _ => None,
        },
        Precedence::Or => match kind {
            Kind::Bar => Some(BinaryWord::Or),
            _ => None,
        },
        Precedence::LogicalAnd => match kind {
            Kind::AmpersandAmpersand => Some(BinaryWord::LogicalAnd),
            _ => None,
        },
        Precedence::LogicalOr => match kind {
            Kind::BarBar => Some(BinaryWord::LogicalOr),
            _ => None,
        },
    }
}

/// Whether an operator of a precedence comes next.
pub fn is_next_operator(precedence: Precedence, tokens: &[Token]) -> bool
    ensures { result ≡ mem (next (toks tokens.now)).code (kinds_of (binary_words precedence)) }
{
    match tokens {
        [] => false,
        [first, ..] => binary_word(precedence, first.kind).is_some(),
    }
}

/// An operator of a precedence with its token, and the tokens after it.
pub fn expect_operator<'a>(
    precedence: Precedence,
    tokens: &'a [Token],
) -> Read<'a, (&'a Token, BinaryWord)>
    ensures reads { Gives (λ x. (tok x.0.0.now, toks x.1.now)) result (one_of (kinds_of (binary_words precedence)) (toks tokens.now)) }
    ensures word { IfOk result (λ x. chosen binary_words_of.LogicalOr (binary_words precedence) (code x.0.0.now.kind) ≡ x.0.1) }
{
    let [first, rest @ ..] = tokens else {
        return Err(ReadError::Unexpected(tokens));
    };
    match binary_word(precedence, first.kind) {
        Some(word) => Ok(((first, word), rest)),
        None => Err(ReadError::Unexpected(tokens)),
    }
}
