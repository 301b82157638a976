// Types that need not be written, and names of them (IEEE 1800-2017, A.2.2.1).
ghost use Rattle.std.specs.Prelude.{◌≡◌};
ghost use Rattle.sv_grammar.specs.Tokens.{mem};
ghost use Rattle.sv_tree.specs.Codes.{code};
ghost use Rattle.sv_tree.specs.Types as types;
ghost use Rattle.sv_tree.specs.TypeGrammar as grammar;
ghost use Rattle.sv_tree.specs.StmtView as view;
ghost use Rattle.sv_parse.specs.Outcome.{Reads};
ghost use Rattle.sv_parse.proofs.UnitParts.{implied_known};
ghost use Rattle.sv_parse_type.specs.Begins.{word_type_first};
ghost use Rattle.sv_parse_unit.specs.First.{implied_first};
ghost use Rattle.sv_parse_unit.specs.Views.{typed_name};

use std::alloc::Global;
use sv_parse::{Budget, Part, Read, Word, begins, expect_word, is_next, is_next_word, maybe, name};
use sv_parse_type::{BoxedRanges, begins_word_type, word_type};
use sv_tree::{AtomWord, ImpliedType, Kind, Name, Sign, Token, VectorWord, WrittenType};

/// Whether a type that is no name begins with a kind.
#[tactic(auto, using(sv_parse::proofs::ExprParts::mem_both))]
pub fn is_type_word(kind: Kind) -> bool
    ensures { result ≡ mem (code kind) word_type_first }
{
    VectorWord::of(kind).is_some()
        || AtomWord::of(kind).is_some()
        || matches!(
            kind,
            Kind::String | Kind::Event | Kind::Semaphore | Kind::Mailbox | Kind::Enum
        )
}

/// `itype`, but for a name: a type that a word begins, `sign [range]` or `range`
pub struct ImpliedTypes;

impl Part for ImpliedTypes {
    type Tree = ImpliedType;

    ghost Seen = { types.ImpliedType };

    ghost production = { grammar.unnamed_implied };

    ghost view = { view.implied };

    ghost first = { implied_first };

    #[tactic(auto, using(sv_parse::proofs::ExprParts::mem_both))]
    fn begins(kind: Kind) -> bool {
        is_type_word(kind) || Sign::of(kind).is_some() || kind == Kind::LeftBracket
    }

    #[tactic(auto, using(crate::proofs::TypedLaws::implied_word, crate::proofs::TypedLaws::implied_sign, crate::proofs::TypedLaws::implied_range))]
    fn read<'a>(alloc: Global, tokens: &'a [Token], budget: Budget) -> Read<'a, ImpliedType> {
        if begins_word_type(tokens) {
            let (of, rest) = read!(word_type(alloc, tokens, budget));
            return Ok((ImpliedType::Written(of), rest));
        }
        if is_next_word::<Sign>(tokens) {
            let ((word, sign), rest) = read!(expect_word::<Sign>(tokens));
            let (range, rest) = read!(maybe::<BoxedRanges>(alloc, rest, budget));
            let at = word.at;
            return Ok((ImpliedType::Vector { at, sign, range }, rest));
        }
        let (range, rest) = read!(BoxedRanges::read(alloc, tokens, budget));
        let of = ImpliedType::Vector {
            at: range.at,
            sign: Sign::Unwritten,
            range: Some(range),
        };
        Ok((of, rest))
    }

    ghost is_known = { implied_known };
}

/// A name, with its type where one is written.
#[derive(Drop)]
pub struct TypedName {
    pub of: ImpliedType,
    pub name: Name,
}

/// `id`, or a type that is a name, and `id`
#[tactic(auto, unfolding(sv_tree::specs::TypeGrammar::named_name))]
fn named_name<'a>(tokens: &'a [Token], budget: Budget) -> Read<'a, TypedName>
    ensures { Reads typed_name budget grammar.named_name tokens.now result }
{
    let (first, rest) = read!(name(tokens));
    if !is_next(rest, Kind::Name) {
        let of = ImpliedType::Unwritten;
        return Ok((TypedName { of, name: first }, rest));
    }
    let (name, rest) = read!(name(rest));
    let of = ImpliedType::Written(WrittenType::Named(first));
    Ok((TypedName { of, name }, rest))
}

/// `[itype] id`
#[tactic(auto, using(crate::proofs::TypedLaws::typed_some, crate::proofs::TypedLaws::typed_none))]
pub fn typed_name<'a>(alloc: Global, tokens: &'a [Token], budget: Budget) -> Read<'a, TypedName>
    ensures { Reads typed_name budget grammar.typed_name tokens.now result }
{
    if !begins::<ImpliedTypes>(tokens) {
        return named_name(tokens, budget);
    }
    let (of, rest) = read!(ImpliedTypes::read(alloc, tokens, budget));
    let (name, rest) = read!(name(rest));
    Ok((TypedName { of, name }, rest))
}
