// Words that choose among alternatives.
ghost use Rattle.std.specs.Prelude.{◌≡◌, false, Ok, IfOk};
ghost use Rattle.sv_grammar.specs.Tokens.{mem, next};
ghost use Rattle.sv_grammar.specs.Reading.{one_of};
ghost use Rattle.sv_tree.specs.Codes.{code, tok, toks};
ghost use Rattle.sv_grammar.specs.Code.Code.{Map};
ghost use Rattle.sv_tree.specs.Forms.{Words, chosen, kinds_of};
ghost use Rattle.sv_tree.specs.Forms as forms;
ghost use Rattle.sv_tree.specs.Grammar.{reads};
ghost use Rattle.sv_parse.specs.Outcome.{Gives, IsWordOf};

use crate::tokens::{Read, ReadError};
use sv_tree::{Kind, Token};

/// A class of words, each of which a kind of token spells.
pub trait Word: Copy {
    /// The words, each with its kind.
    ghost table: { Words Self };

    /// The word that the grammar takes where none of the table fits.
    ghost otherwise: { Self };

    /// The word that a kind spells.
    fn of(kind: Kind) -> Option<Self>
    where
        Self: Sized,
        ensures { IsWordOf result otherwise table (code kind) };

    /// None of them ends a text.
    ghost no_end: { mem 0 (kinds_of table) ≡ false };
}

/// Whether a word of this class comes next.
pub fn is_next_word<W: Word>(tokens: &[Token]) -> bool
    ensures { result ≡ mem (next (toks tokens.now)).code (kinds_of W.table) }
{
    match tokens {
        [] => false,
        [first, ..] => W::of(first.kind).is_some(),
    }
}

/// A word of this class with its token, and the tokens after it.
pub fn expect_word<'a, W: Word>(tokens: &'a [Token]) -> Read<'a, (&'a Token, W)>
    ensures reads { Gives (λ x. (tok x.0.0.now, toks x.1.now)) result (one_of (kinds_of W.table) (toks tokens.now)) }
    ensures word { IfOk result (λ x. chosen W.otherwise W.table (code x.0.0.now.kind) ≡ x.0.1) }
{
    let [first, rest @ ..] = tokens else {
        return Err(ReadError::Unexpected(tokens));
    };
    match W::of(first.kind) {
        Some(word) => Ok(((first, word), rest)),
        None => Err(ReadError::Unexpected(tokens)),
    }
}

/// A word of this class where one comes next, else this one; and the tokens after it.
pub fn word_or<W: Word>(tokens: &[Token], unwritten: W) -> (W, &[Token])
    ensures { reads 0 (forms.otherwise unwritten (Map (λ t. chosen W.otherwise W.table t.code) (forms.word W.table))) (toks tokens.now)
        ≡ Ok (result.0, toks result.1.now) }
{
    let [first, rest @ ..] = tokens else {
        return (unwritten, tokens);
    };
    match W::of(first.kind) {
        Some(word) => (word, rest),
        None => (unwritten, tokens),
    }
}

/// A word of this class where one comes next, and the tokens after it.
pub fn maybe_word<W: Word>(tokens: &[Token]) -> (Option<W>, &[Token])
    ensures { reads 0 (forms.optional (Map (λ t. chosen W.otherwise W.table t.code) (forms.word W.table))) (toks tokens.now)
        ≡ Ok (result.0, toks result.1.now) }
{
    let [first, rest @ ..] = tokens else {
        return (None, tokens);
    };
    match W::of(first.kind) {
        Some(word) => (Some(word), rest),
        None => (None, tokens),
    }
}
