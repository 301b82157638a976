// Delays (IEEE 1800-2017, A.2.2.3).
ghost use Rattle.std.specs.Prelude.{[], ◌∷◌};
ghost use Rattle.sv_tree.specs.declared.kind.Kind.TheVariants as k;
ghost use Rattle.sv_tree.specs.Codes.{code};
ghost use Rattle.sv_tree.specs.Stmt as stmts;
ghost use Rattle.sv_tree.specs.StmtGrammar as grammar;
ghost use Rattle.sv_tree.specs.View.{expr};
ghost use Rattle.sv_tree.specs.StmtView as view;
ghost use Rattle.sv_parse.specs.Outcome.{Reads};
ghost use Rattle.sv_parse.proofs.StmtParts.{delay_known};

use std::alloc::Global;
use sv_parse::{Budget, Part, Read, expect, is_next, name};
use sv_parse_expr::{post_of, value};
use sv_tree::{Delay, Expr, Kind, Root, Token};

/// `"(" expr ")"`, where the pair of brackets does not count
#[tactic(auto, unfolding(sv_tree::specs::StmtGrammar::enclosed))]
fn enclosed<'a>(alloc: Global, tokens: &'a [Token], budget: Budget) -> Read<'a, Expr>
    ensures { Reads expr budget grammar.enclosed tokens.now result }
{
    let (open, rest) = read!(expect(tokens, Kind::LeftParenthesis));
    let (inner, rest) = read!(value(alloc, rest, budget));
    let (_, rest) = read!(expect(rest, Kind::RightParenthesis));
    Ok((Expr::Group(open.at, held!(Box::new(alloc, inner))), rest))
}

/// `number | id | "(" expr ")"`: the number of cycles after `##` (A.6.11)
#[tactic(auto, using(crate::proofs::DelayLaws::cycles_number, crate::proofs::DelayLaws::cycles_named, crate::proofs::DelayLaws::cycles_enclosed))]
pub fn cycles_amount<'a>(alloc: Global, tokens: &'a [Token], budget: Budget) -> Read<'a, Expr>
    ensures { Reads expr budget grammar.cycles_amount tokens.now result }
{
    if is_next(tokens, Kind::Number) {
        let (token, rest) = read!(expect(tokens, Kind::Number));
        return Ok((Expr::Number(token.at, held!(token.text.share())), rest));
    }
    if is_next(tokens, Kind::Name) {
        let (name, rest) = read!(name(tokens));
        return Ok((post_of(Root::Plain(name), Vec::new(alloc)), rest));
    }
    enclosed(alloc, tokens, budget)
}

/// `number | time | id | "(" expr ")"`, where the pair of brackets does not count
#[tactic(auto, using(crate::proofs::DelayLaws::amount_time, crate::proofs::DelayLaws::amount_cycles))]
pub fn amount<'a>(alloc: Global, tokens: &'a [Token], budget: Budget) -> Read<'a, Expr>
    ensures { Reads expr budget grammar.amount tokens.now result }
{
    if is_next(tokens, Kind::TimeLiteral) {
        let (token, rest) = read!(expect(tokens, Kind::TimeLiteral));
        return Ok((Expr::Time(token.at, held!(token.text.share())), rest));
    }
    cycles_amount(alloc, tokens, budget)
}

/// `delay = "#" (number | time | id | "(" expr ")")`
pub struct Delays;

impl Part for Delays {
    type Tree = Delay;

    ghost Seen = { stmts.Delay };

    ghost production = { grammar.delay };

    ghost view = { view.delay };

    ghost first = { code k.Hash ∷ [] };

    fn begins(kind: Kind) -> bool {
        kind == Kind::Hash
    }

    #[tactic(auto, unfolding(sv_tree::specs::StmtGrammar::delay))]
    fn read<'a>(alloc: Global, tokens: &'a [Token], budget: Budget) -> Read<'a, Delay> {
        let (sign, rest) = read!(expect(tokens, Kind::Hash));
        let (amount, rest) = read!(amount(alloc, rest, budget));
        let delay = Delay {
            at: sign.at,
            amount,
        };
        Ok((delay, rest))
    }

    ghost is_known = { delay_known };
}
