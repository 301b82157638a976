// Calls (IEEE 1800-2017, A.8.2).
ghost use Rattle.sv_tree.specs.ExprGrammar as grammar;
ghost use Rattle.sv_tree.specs.View as view;
ghost use Rattle.sv_parse.specs.Outcome.{Reads};

use crate::made::post_of;
use crate::posts::named_post;
use crate::reader::{measured_actuals, prim};
use std::alloc::Global;
use sv_parse::{Budget, Read, ReadError, expect, is_next, name_of};
use sv_tree::{Actuals, Expr, Kind, Token};

/// `[actuals]`
pub fn maybe_actuals<'a>(alloc: Global, tokens: &'a [Token], budget: Budget) -> Read<'a, Actuals>
    ensures { Reads view.actuals budget grammar.maybe_actuals tokens.now result }
{
    let (actuals, rest) = read!(measured_actuals(alloc, tokens, budget));
    Ok((actuals.tree, rest))
}

/// `sysname ["(" [list(expr)] ")"]`
#[tactic(auto, unfolding(sv_tree::specs::ExprGrammar::system_call))]
pub fn system_call<'a>(alloc: Global, tokens: &'a [Token], budget: Budget) -> Read<'a, Expr>
    ensures { Reads view.expr budget grammar.system_call tokens.now result }
{
    let (token, rest) = read!(expect(tokens, Kind::SystemName));
    let name = held!(name_of(token));
    let (actuals, rest) = read!(maybe_actuals(alloc, rest, budget));
    Ok((Expr::System(name, actuals), rest))
}

/// `call`: a name with what follows it, a system call, or a call of the constructor of the base class.
#[tactic(auto, using(crate::proofs::TargetLaws::call_named, crate::proofs::TargetLaws::call_this, crate::proofs::TargetLaws::call_super, crate::proofs::TargetLaws::call_system, crate::proofs::TargetLaws::call_none))]
pub fn call<'a>(alloc: Global, tokens: &'a [Token], budget: Budget) -> Read<'a, Expr>
    ensures { Reads view.expr budget grammar.call tokens.now result }
{
    if is_next(tokens, Kind::Name) {
        let (post, rest) = read!(named_post(alloc, tokens, budget));
        return Ok((post_of(post.root, post.suffixes), rest));
    }
    if is_next(tokens, Kind::SystemName) {
        return system_call(alloc, tokens, budget);
    }
    if is_next(tokens, Kind::This) || is_next(tokens, Kind::Super) {
        let (call, rest) = read!(prim(alloc, tokens, budget));
        return Ok((call.tree, rest));
    }
    Err(ReadError::Unexpected(tokens))
}
