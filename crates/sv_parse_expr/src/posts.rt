// Names with what follows them (IEEE 1800-2017, A.8.4).
ghost use Rattle.std.specs.Prelude.{◌≡◌};
ghost use Rattle.sv_tree.specs.Codes.{toks};
ghost use Rattle.sv_tree.specs.Grammar.{reads};
ghost use Rattle.sv_tree.specs.ExprGrammar as grammar;
ghost use Rattle.sv_tree.specs.ExprGrammar.{named_root, scoped};
ghost use Rattle.sv_parse.specs.Outcome.{Gives, Reads};
ghost use Rattle.sv_parse_expr.specs.Views as views;

use crate::reader::measured_suffixes;
use std::alloc::Global;
use sv_parse::{Budget, Read, expect, is_next, name};
use sv_tree::{Kind, Name, Root, Suffix, Token};

/// `post`: a name with what follows it.
#[derive(Drop)]
pub struct Post {
    pub root: Root,
    pub suffixes: Vec<Suffix>,
}

/// `["::" id]`, and the tokens after it.
pub fn scope(tokens: &[Token]) -> Read<Option<Name>>
    ensures { Gives (λ x. (x.0, toks x.1.now)) result (reads 0 scoped (toks tokens.now)) }
{
    if !is_next(tokens, Kind::ColonColon) {
        return Ok((None, tokens));
    }
    let (_, rest) = read!(expect(tokens, Kind::ColonColon));
    let (second, rest) = read!(name(rest));
    Ok((Some(second), rest))
}

/// What one or two names stand for.
pub fn named_root(first: Name, second: Option<Name>) -> Root
    ensures { result ≡ named_root first second }
{
    match second {
        None => Root::Plain(first),
        Some(second) => Root::Scoped(first, second),
    }
}

/// Members, calls and selects after a name: `{"." id | actuals | sel}`
pub fn suffixes<'a>(alloc: Global, tokens: &'a [Token], budget: Budget) -> Read<'a, Vec<Suffix>>
    ensures { Reads views.all_suffixes budget grammar.suffixes tokens.now result }
{
    let (suffixes, rest) = read!(measured_suffixes(alloc, tokens, budget));
    Ok((suffixes.tree, rest))
}

/// `id ["::" id] {"." id | actuals | sel}`
#[tactic(auto, unfolding(sv_tree::specs::ExprGrammar::named_post, sv_tree::specs::ExprGrammar::post_rest))]
pub fn named_post<'a>(alloc: Global, tokens: &'a [Token], budget: Budget) -> Read<'a, Post>
    ensures { Reads views.post budget grammar.named_post tokens.now result }
{
    let (first, rest) = read!(name(tokens));
    let (second, rest) = read!(scope(rest));
    let root = named_root(first, second);
    let (suffixes, rest) = read!(suffixes(alloc, rest, budget));
    Ok((Post { root, suffixes }, rest))
}

/// `"this" {"." id | actuals | sel}`
#[tactic(auto, unfolding(sv_tree::specs::ExprGrammar::this_post))]
pub fn this_post<'a>(alloc: Global, tokens: &'a [Token], budget: Budget) -> Read<'a, Post>
    ensures { Reads views.post budget grammar.this_post tokens.now result }
{
    let (word, rest) = read!(expect(tokens, Kind::This));
    let root = Root::This(word.at);
    let (suffixes, rest) = read!(suffixes(alloc, rest, budget));
    Ok((Post { root, suffixes }, rest))
}

/// `"super" "." id {"." id | actuals | sel}`
#[tactic(auto, unfolding(sv_tree::specs::ExprGrammar::super_post))]
pub fn super_post<'a>(alloc: Global, tokens: &'a [Token], budget: Budget) -> Read<'a, Post>
    ensures { Reads views.post budget grammar.super_post tokens.now result }
{
    let (word, rest) = read!(expect(tokens, Kind::Super));
    let (_, rest) = read!(expect(rest, Kind::Dot));
    let (member, rest) = read!(name(rest));
    let root = Root::Super(word.at, member);
    let (suffixes, rest) = read!(suffixes(alloc, rest, budget));
    Ok((Post { root, suffixes }, rest))
}

/// `post`
#[tactic(auto, using(crate::proofs::TargetLaws::post_named, crate::proofs::TargetLaws::post_this, crate::proofs::TargetLaws::post_super))]
pub fn any_post<'a>(alloc: Global, tokens: &'a [Token], budget: Budget) -> Read<'a, Post>
    ensures { Reads views.post budget grammar.post tokens.now result }
{
    if is_next(tokens, Kind::Name) {
        return named_post(alloc, tokens, budget);
    }
    if is_next(tokens, Kind::This) {
        return this_post(alloc, tokens, budget);
    }
    super_post(alloc, tokens, budget)
}
