// Event controls (IEEE 1800-2017, A.6.5).
ghost use Rattle.std.specs.Prelude.{[], ◌∷◌};
ghost use Rattle.sv_tree.specs.declared.kind.Kind.TheVariants as k;
ghost use Rattle.sv_tree.specs.Codes.{code};
ghost use Rattle.sv_tree.specs.Expr as tree;
ghost use Rattle.sv_tree.specs.Stmt as stmts;
ghost use Rattle.sv_tree.specs.Forms.{◌▸◌};
ghost use Rattle.sv_tree.specs.ExprGrammar as expressions;
ghost use Rattle.sv_tree.specs.StmtGrammar as grammar;
ghost use Rattle.sv_tree.specs.View.{expr};
ghost use Rattle.sv_tree.specs.StmtView as view;
ghost use Rattle.sv_parse.specs.Outcome.{Reads};
ghost use Rattle.sv_parse.proofs.StmtParts.{condition_known, next_event_part_known, next_event_part_repeated};

use std::alloc::Global;
use sv_parse::{
    Budget, Part, Read, ReadError, Repeated, expect, is_next, items, maybe, name, word_or,
};
use sv_parse_expr::value;
use sv_tree::{EdgeWord, Event, EventPart, Expr, Kind, Token};

/// `"iff" expr`
struct Conditions;

impl Part for Conditions {
    type Tree = Expr;

    ghost Seen = { tree.Expr };

    ghost production = { k.Iff ▸ expressions.expr };

    ghost view = { expr };

    ghost first = { code k.Iff ∷ [] };

    fn begins(kind: Kind) -> bool {
        kind == Kind::Iff
    }

    fn read<'a>(alloc: Global, tokens: &'a [Token], budget: Budget) -> Read<'a, Expr> {
        let (_, rest) = read!(expect(tokens, Kind::Iff));
        value(alloc, rest, budget)
    }

    ghost is_known = { condition_known };
}

/// `ev = ["posedge" | "negedge"] expr ["iff" expr]`
#[tactic(auto, unfolding(sv_tree::specs::StmtGrammar::event_part))]
fn event_part<'a>(alloc: Global, tokens: &'a [Token], budget: Budget) -> Read<'a, EventPart>
    ensures { Reads view.event_part budget grammar.event_part tokens.now result }
{
    let (edge, rest) = word_or(tokens, EdgeWord::Unwritten);
    let (expr, rest) = read!(value(alloc, rest, budget));
    let (condition, rest) = read!(maybe::<Conditions>(alloc, rest, budget));
    let part = EventPart {
        edge,
        expr,
        condition,
    };
    Ok((part, rest))
}

/// `("or" | ",") ev`
struct NextEventParts;

impl Part for NextEventParts {
    type Tree = EventPart;

    ghost Seen = { stmts.EventPart };

    ghost production = { grammar.next_event_part };

    ghost view = { view.event_part };

    ghost first = { code k.Or ∷ code k.Comma ∷ [] };

    fn begins(kind: Kind) -> bool {
        matches!(kind, Kind::Or | Kind::Comma)
    }

    #[tactic(auto, unfolding(sv_tree::specs::StmtGrammar::next_event_part))]
    fn read<'a>(alloc: Global, tokens: &'a [Token], budget: Budget) -> Read<'a, EventPart> {
        match tokens {
            [separator, rest @ ..] if matches!(separator.kind, Kind::Or | Kind::Comma) => {
                event_part(alloc, rest, budget)
            }
            _ => Err(ReadError::Unexpected(tokens)),
        }
    }

    ghost is_known = { next_event_part_known };
}

impl Repeated for NextEventParts {
    ghost is_repeated = { next_event_part_repeated };
}

/// `"*" ")" | ev {("or" | ",") ev} ")"`
#[tactic(auto, using(crate::proofs::EventLaws::list_star, crate::proofs::EventLaws::list_parts))]
fn event_list<'a>(alloc: Global, tokens: &'a [Token], budget: Budget) -> Read<'a, Event>
    ensures { Reads view.event budget grammar.event_list tokens.now result }
{
    if is_next(tokens, Kind::Star) {
        let (_, rest) = read!(expect(tokens, Kind::Star));
        let (_, rest) = read!(expect(rest, Kind::RightParenthesis));
        return Ok((Event::Star, rest));
    }
    let (first, rest) = read!(event_part(alloc, tokens, budget));
    let (mut parts, rest) = read!(items::<NextEventParts>(alloc, rest, budget));
    held!(parts.insert(0, first));
    let (_, rest) = read!(expect(rest, Kind::RightParenthesis));
    Ok((Event::Parts(parts), rest))
}

/// `event`: what an event control waits for.
#[tactic(auto, using(crate::proofs::EventLaws::event_named, crate::proofs::EventLaws::event_star, crate::proofs::EventLaws::event_listed))]
pub fn event<'a>(alloc: Global, tokens: &'a [Token], budget: Budget) -> Read<'a, Event>
    ensures { Reads view.event budget grammar.event tokens.now result }
{
    if is_next(tokens, Kind::Name) {
        let (name, rest) = read!(name(tokens));
        return Ok((Event::Named(name), rest));
    }
    if is_next(tokens, Kind::Star) {
        let (_, rest) = read!(expect(tokens, Kind::Star));
        return Ok((Event::Star, rest));
    }
    let (_, rest) = read!(expect(tokens, Kind::LeftParenthesis));
    event_list(alloc, rest, budget)
}
