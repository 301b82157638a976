// Targets (IEEE 1800-2017, A.8.5).
ghost use Rattle.std.specs.Prelude.{◌<◌};
ghost use Rattle.sv_tree.specs.ExprGrammar as grammar;
ghost use Rattle.sv_tree.specs.Forms.{comma, list as list_of};
ghost use Rattle.sv_tree.specs.StmtView as view;
ghost use Rattle.sv_parse.specs.Outcome.{Reads, seen};

use crate::begins::begins_post;
use crate::made::join_targets;
use crate::posts::any_post;
use std::alloc::Global;
use sv_parse::{Budget, Read, ReadError, expect, is_next};
use sv_tree::{Kind, Lval, Token};

/// `lval`: a name with what follows it, or targets in braces.
#[cycle(target)]
#[tactic(auto, using(crate::proofs::TargetLaws::lval_post, crate::proofs::TargetLaws::lval_targets, crate::proofs::TargetLaws::lval_deep, crate::proofs::TargetLaws::lval_none))]
pub fn lval<'a>(alloc: Global, tokens: &'a [Token], budget: Budget) -> Read<'a, Lval>
    ensures { Reads view.lval budget grammar.lval tokens.now result }
{
    if is_next(tokens, Kind::LeftBrace) {
        if budget.left() == 0 {
            return Err(ReadError::TooDeep(tokens));
        }
        return targets(alloc, tokens, budget);
    }
    if !begins_post(tokens) {
        return Err(ReadError::Unexpected(tokens));
    }
    let (post, rest) = read!(any_post(alloc, tokens, budget));
    Ok((Lval::Post(post.root, post.suffixes), rest))
}

/// `"{" list(lval) "}"`
#[cycle(target)]
#[tactic(auto, using(crate::proofs::Lists::lvals_are_listed, crate::proofs::Lists::inner_lvals_are), unfolding(sv_tree::specs::ExprGrammar::targets))]
pub fn targets<'a>(alloc: Global, tokens: &'a [Token], budget: Budget) -> Read<'a, Lval>
    requires { 0 < budget }
    ensures { Reads view.lval budget grammar.targets tokens.now result }
{
    let (open, rest) = read!(expect(tokens, Kind::LeftBrace));
    let inner = read!(budget.deeper(tokens));
    let (list, rest) = read!(target_list(alloc, rest, inner));
    let (_, rest) = read!(expect(rest, Kind::RightBrace));
    Ok((join_targets(open.at, list), rest))
}

/// `"," lval`
#[cycle(target)]
fn comma_target<'a>(alloc: Global, tokens: &'a [Token], budget: Budget) -> Read<'a, Lval>
    ensures { Reads view.lval budget (comma grammar.lval) tokens.now result }
{
    let (_, rest) = read!(expect(tokens, Kind::Comma));
    lval(alloc, rest, budget)
}

/// `list(lval)`
#[cycle(target)]
#[tactic(auto, using(crate::proofs::TargetLaws::list_is, crate::proofs::TargetLaws::commas_stop))]
fn target_list<'a>(alloc: Global, tokens: &'a [Token], budget: Budget) -> Read<'a, Vec<Lval>>
    ensures { Reads (seen view.lval) budget (list_of grammar.lval) tokens.now result }
{
    let (first, after) = read!(lval(alloc, tokens, budget));
    let mut targets = Vec::new(alloc);
    held!(targets.push(first));
    let mut rest = after;
    'commas: while is_next(rest, Kind::Comma) {
        let (next, after) = read!(comma_target(alloc, rest, budget));
        held!(targets.push(next));
        rest = after;
    }
    Ok((targets, rest))
}
