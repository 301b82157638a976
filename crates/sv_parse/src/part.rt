// A part of a file that has a reader; lists, repetitions and options of any part.
ghost use Rattle.std.specs.Prelude.{◌≡◌, ℕ, List, [], ◌∷◌, true, false, map, option_map};
ghost use Rattle.sv_grammar.specs.Tokens.{mem, next};
ghost use Rattle.sv_grammar.specs.Code.Code.{Rep};
ghost use Rattle.sv_tree.specs.Codes.{toks};
ghost use Rattle.sv_tree.specs.Codes as codes;
ghost use Rattle.sv_tree.specs.Forms as forms;
ghost use Rattle.sv_tree.specs.Forms.{C};
ghost use Rattle.sv_tree.specs.Grammar.{reads};
ghost use Rattle.sv_parse.specs.Outcome.{Gives, Reads, seen};
ghost use Rattle.sv_parse.specs.Parts.{IsKnown, IsListed, IsRepeated, from};

use crate::budget::Budget;
use crate::tokens::{Read, expect, is_next};
use std::alloc::Global;
use sv_tree::{Kind, Token};

/// A part of a file: a production of the grammar, with its reader. A type without fields stands for each.
pub trait Part {
    /// What is read.
    type Tree: Drop;

    /// What the definitions see of a tree.
    ghost Seen: { Type 0 };

    /// The production.
    ghost production: { C Seen };

    /// How a tree is seen.
    ghost view: { Self.Tree → Seen };

    /// The kinds that begin it.
    ghost first: { List ℕ };

    /// Whether a token of this kind begins one.
    fn begins(kind: Kind) -> bool
        ensures { result ≡ mem (codes.code kind) first };

    /// Reads one, and tells the tokens after it.
    fn read<'a>(alloc: Global, tokens: &'a [Token], budget: Budget) -> Read<'a, Self::Tree>
        ensures { Reads view budget production tokens.now result };

    /// One token of look-ahead is enough for it.
    ghost is_known: { IsKnown production first };
}

/// A part of which several may stand in a list with commas between them.
pub trait Listed: Part {
    ghost is_listed: { IsListed Self.production };
}

/// A part of which several may follow one another.
pub trait Repeated: Part {
    ghost is_repeated: { IsRepeated Self.production };
}

/// Whether one begins with the next token.
pub fn begins<P: Part>(tokens: &[Token]) -> bool
    ensures { result ≡ mem (next (toks tokens.now)).code P.first }
{
    match tokens {
        [] => false,
        [first, ..] => P::begins(first.kind),
    }
}

/// `[part]`, and the tokens after it.
pub fn maybe<'a, P: Part>(
    alloc: Global,
    tokens: &'a [Token],
    budget: Budget,
) -> Read<'a, Option<P::Tree>>
    ensures { Reads (option_map P.view) budget (forms.optional P.production) tokens.now result }
{
    if !begins::<P>(tokens) {
        return Ok((None, tokens));
    }
    let (part, rest) = P::read(alloc, tokens, budget)?;
    Ok((Some(part), rest))
}

/// `{"," part}` behind a first one, and the tokens after them.
pub fn list_after<'a, P: Listed>(
    alloc: Global,
    first: P::Tree,
    tokens: &'a [Token],
    budget: Budget,
) -> Read<'a, Vec<P::Tree>>
    ensures { Gives (λ x. (map P.view x.0.items, toks x.1.now)) result (from (forms.comma P.production) budget (P.view first ∷ []) (toks tokens.now)) }
{
    let mut list = Vec::new(alloc);
    list.push(first)?;
    let mut rest = tokens;
    'commas: while is_next(rest, Kind::Comma) {
        let (part, after) = after_comma::<P>(alloc, rest, budget)?;
        list.push(part)?;
        rest = after;
    }
    Ok((list, rest))
}

/// `"," part`, and the tokens after it.
fn after_comma<'a, P: Part>(alloc: Global, tokens: &'a [Token], budget: Budget) -> Read<'a, P::Tree>
    ensures { Reads P.view budget (forms.comma P.production) tokens.now result }
{
    let (_, rest) = expect(tokens, Kind::Comma)?;
    P::read(alloc, rest, budget)
}

/// `list(part)`, and the tokens after it.
pub fn list<'a, P: Listed>(
    alloc: Global,
    tokens: &'a [Token],
    budget: Budget,
) -> Read<'a, Vec<P::Tree>>
    ensures { Reads (seen P.view) budget (forms.list P.production) tokens.now result }
{
    let (first, rest) = P::read(alloc, tokens, budget)?;
    list_after::<P>(alloc, first, rest, budget)
}

/// `[list(part)]`, and the tokens after it.
pub fn list_or_none<'a, P: Listed>(
    alloc: Global,
    tokens: &'a [Token],
    budget: Budget,
) -> Read<'a, Vec<P::Tree>>
    ensures { Reads (seen P.view) budget (forms.list_or_none P.production) tokens.now result }
{
    if !begins::<P>(tokens) {
        return Ok((Vec::new(alloc), tokens));
    }
    list::<P>(alloc, tokens, budget)
}

/// `{part}`, and the tokens after them.
pub fn items<'a, P: Repeated>(
    alloc: Global,
    tokens: &'a [Token],
    budget: Budget,
) -> Read<'a, Vec<P::Tree>>
    ensures { Reads (seen P.view) budget (Rep P.production) tokens.now result }
{
    let mut list = Vec::new(alloc);
    let mut rest = tokens;
    'items: while begins::<P>(rest) {
        let (part, after) = P::read(alloc, rest, budget)?;
        list.push(part)?;
        rest = after;
    }
    Ok((list, rest))
}
