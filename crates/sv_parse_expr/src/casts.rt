// Casts to the type of a word (IEEE 1800-2017, A.8.4).
ghost use Rattle.std.specs.Prelude.{◌≡◌, ◌<◌, IfOk};
ghost use Rattle.sv_grammar.specs.Code.Code.{Map};
ghost use Rattle.sv_tree.specs.Codes.{toks};
ghost use Rattle.sv_tree.specs.Grammar.{reads};
ghost use Rattle.sv_tree.specs.Expr as tree;
ghost use Rattle.sv_tree.specs.ExprGrammar as grammar;
ghost use Rattle.sv_tree.specs.View as view;
ghost use Rattle.sv_parse.specs.Outcome.{Gives, Reads};
ghost use Rattle.sv_parse_expr.specs.Casts.{recast};
ghost use Rattle.sv_parse_expr.specs.Views.{Fitting, measured};

use crate::measured::Measured;
use crate::operators::precedences;
use crate::reader::{choose, expression, operators};
use std::alloc::Global;
use sv_parse::{Budget, Read, ReadError, Word, expect};
use sv_tree::{AtomWord, CastType, Expr, Kind, Token, VectorWord};

/// The type of a word, for a cast, and the tokens after it.
pub fn cast_word(tokens: &[Token]) -> Read<CastType>
    ensures { Gives (λ x. (x.0, toks x.1.now)) result (reads 0 grammar.cast_word (toks tokens.now)) }
{
    let [first, rest @ ..] = tokens else {
        return Err(ReadError::Unexpected(tokens));
    };
    let at = first.at;
    if let Some(word) = VectorWord::of(first.kind) {
        return Ok((CastType::Vector(at, word), rest));
    }
    if let Some(word) = AtomWord::of(first.kind) {
        return Ok((CastType::Atom(at, word), rest));
    }
    match first.kind {
        Kind::String => Ok((CastType::Text(at), rest)),
        Kind::Event => Ok((CastType::Event(at), rest)),
        Kind::Semaphore => Ok((CastType::Semaphore(at), rest)),
        Kind::Mailbox => Ok((CastType::Mailbox(at), rest)),
        _ => Err(ReadError::Unexpected(tokens)),
    }
}

/// `"'" "(" expr ")"` after the type that is cast to
#[tactic(auto, unfolding(sv_tree::specs::ExprGrammar::cast))]
fn cast_operand<'a>(
    alloc: Global,
    to: CastType,
    tokens: &'a [Token],
    budget: Budget,
) -> Read<'a, Measured<Expr>>
    requires { 0 < budget }
    ensures reads { Reads (measured view.expr) budget (Map (λ e. tree.Cast to e) grammar.cast) tokens.now result }
    ensures depth { IfOk result (λ x. Fitting budget x.0) }
{
    let inner = read!(budget.deeper(tokens));
    let (_, rest) = read!(expect(tokens, Kind::Apostrophe));
    let (_, rest) = read!(expect(rest, Kind::LeftParenthesis));
    let (Measured { tree, depth }, rest) = read!(expression(alloc, rest, inner));
    let (_, rest) = read!(expect(rest, Kind::RightParenthesis));
    let tree = Expr::Cast(to, held!(Box::new(alloc, tree)));
    Ok((
        Measured {
            tree,
            depth: depth + 1,
        },
        rest,
    ))
}

/// The rest of an expression that begins with a cast to a type word, after the word.
#[tactic(auto, using(crate::proofs::Recast::cast_rest_is))]
pub fn cast_value<'a>(
    alloc: Global,
    to: CastType,
    tokens: &'a [Token],
    budget: Budget,
) -> Read<'a, Expr>
    requires { 0 < budget }
    ensures { Gives (λ x. (view.expr x.0, toks x.1.now)) result (recast to (reads budget grammar.cast_rest (toks tokens.now))) }
{
    let (operand, rest) = read!(cast_operand(alloc, to, tokens, budget));
    let (condition, rest) = read!(operators(alloc, operand, rest, budget, precedences()));
    let (value, rest) = read!(choose(alloc, condition, rest, budget));
    Ok((value.tree, rest))
}
