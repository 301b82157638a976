// Dimensions (IEEE 1800-2017, A.2.5).
ghost use Rattle.std.specs.Prelude.{◌≡◌, true, [], ◌∷◌};
ghost use Rattle.sv_grammar.specs.Tokens.{mem, next};
ghost use Rattle.sv_grammar.specs.Code.Code.{Map};
ghost use Rattle.sv_tree.specs.declared.kind.Kind.TheVariants as k;
ghost use Rattle.sv_tree.specs.Codes.{code, toks};
ghost use Rattle.sv_tree.specs.Stmt as stmts;
ghost use Rattle.sv_tree.specs.TypeGrammar as grammar;
ghost use Rattle.sv_tree.specs.View.{expr};
ghost use Rattle.sv_tree.specs.StmtView as view;
ghost use Rattle.sv_tree.specs.Grammar.{reads};
ghost use Rattle.sv_parse.specs.Outcome.{Reads};
ghost use Rattle.sv_parse.proofs.TypeParts.{dimension_known};
ghost use Rattle.sv_parse_expr.specs.First.{cast_first};
ghost use Rattle.sv_parse_type.specs.Applied.{ReadsAfter};

use crate::types::word_type;
use std::alloc::Global;
use sv_parse::{Budget, Part, Read, expect, is_next};
use sv_parse_expr::{begins_cast, begins_expr, cast_value, cast_word, value};
use sv_tree::{Dimension, Expr, Kind, Range, Token};
use sv_value::Place;

/// `dim = "[" [expr | expr ":" expr | "$" | type] "]"`
pub struct Dimensions;

impl Part for Dimensions {
    type Tree = Dimension;

    ghost Seen = { stmts.Dimension };

    ghost production = { grammar.dimension };

    ghost view = { view.dimension };

    ghost first = { code k.LeftBracket ∷ [] };

    fn begins(kind: Kind) -> bool {
        kind == Kind::LeftBracket
    }

    #[tactic(auto, using(crate::proofs::DimensionLaws::dimension_is))]
    fn read<'a>(alloc: Global, tokens: &'a [Token], budget: Budget) -> Read<'a, Dimension> {
        let (open, rest) = expect(tokens, Kind::LeftBracket)?;
        let (dimension, rest) = dimension_inside(alloc, open.at, rest, budget)?;
        let (_, rest) = expect(rest, Kind::RightBracket)?;
        Ok((dimension, rest))
    }

    ghost is_known = { dimension_known };
}

/// What stands in the brackets of a dimension, which opens at this place.
#[tactic(auto, using(crate::proofs::DimensionLaws::without_type_word))]
fn dimension_inside<'a>(
    alloc: Global,
    at: Place,
    tokens: &'a [Token],
    budget: Budget,
) -> Read<'a, Dimension>
    ensures { ReadsAfter view.dimension at budget grammar.dimension_inside tokens.now result }
{
    if begins_cast(tokens) {
        return word_dimension(alloc, at, tokens, budget);
    }
    if is_next(tokens, Kind::Enum) {
        let (key, rest) = word_type(alloc, tokens, budget)?;
        return Ok((Dimension::Key(at, key), rest));
    }
    if begins_expr(tokens) {
        let (left, rest) = value(alloc, tokens, budget)?;
        return bounds_of(alloc, at, left, rest, budget);
    }
    Ok((Dimension::Empty(at), tokens))
}

/// What stands in the brackets of a dimension, where a type word comes first: a type, or an expression that begins with a cast.
#[tactic(auto, using(crate::proofs::DimensionLaws::dimension_unread))]
fn word_dimension<'a>(
    alloc: Global,
    at: Place,
    tokens: &'a [Token],
    budget: Budget,
) -> Read<'a, Dimension>
    requires { mem (next (toks tokens.now)).code cast_first ≡ true }
    ensures { ReadsAfter view.dimension at budget grammar.dimension_inside tokens.now result }
{
    let (to, rest) = cast_word(tokens)?;
    if !is_next(rest, Kind::Apostrophe) {
        let (key, rest) = word_type(alloc, tokens, budget)?;
        return Ok((Dimension::Key(at, key), rest));
    }
    let _inner = budget.deeper(rest)?;
    let (left, rest) = cast_value(alloc, to, rest, budget)?;
    bounds_of(alloc, at, left, rest, budget)
}

/// `[":" expr]` after the first expression of a dimension
#[tactic(auto, using(crate::proofs::DimensionLaws::upper_some, crate::proofs::DimensionLaws::upper_none))]
fn bounds_of<'a>(
    alloc: Global,
    at: Place,
    left: Expr,
    tokens: &'a [Token],
    budget: Budget,
) -> Read<'a, Dimension>
    ensures { Reads view.dimension budget (Map (λ o. grammar.dimension_of (expr left) o at) grammar.upper) tokens.now result }
{
    if !is_next(tokens, Kind::Colon) {
        return Ok((left.into_dimension(at), tokens));
    }
    let (_, rest) = expect(tokens, Kind::Colon)?;
    let (right, rest) = value(alloc, rest, budget)?;
    Ok((Dimension::Bounds(Range { at, left, right }), rest))
}
