// The first and the last part of a `for` (IEEE 1800-2017, A.6.8).
ghost use Rattle.std.specs.Prelude.{◌≡◌, ℕ};
ghost use Rattle.sv_grammar.specs.Tokens.{mem, next};
ghost use Rattle.sv_tree.specs.Expr as tree;
ghost use Rattle.sv_tree.specs.Codes.{toks};
ghost use Rattle.sv_tree.specs.StmtGrammar as grammar;
ghost use Rattle.sv_tree.specs.StmtView as view;
ghost use Rattle.sv_tree.specs.Grammar.{reads};
ghost use Rattle.sv_parse.specs.Outcome.{Gives, Reads};
ghost use Rattle.sv_parse_type.specs.Applied.{applied};
ghost use Rattle.sv_parse_stmt.specs.Begins.{lval_first};

use std::alloc::Global;
use sv_parse::{Budget, Part, Read, expect_word, is_next, is_next_word, name};
use sv_parse_expr::{Values, lval, named_root, scope, suffixes, value};
use sv_parse_type::{begins_word_type, word_type};
use sv_tree::{
    BinaryWord, ForInit, ForStep, Kind, Lval, Name, OperatorAssignment, Root, StepWord, Token,
    WrittenType,
};
use sv_value::Place;

/// Whether a target comes next.
fn begins_lval(tokens: &[Token]) -> bool
    ensures { result ≡ mem (next (toks tokens.now)).code lval_first }
{
    match tokens {
        [] => false,
        [first, ..] => matches!(
            first.kind,
            Kind::Name | Kind::This | Kind::Super | Kind::LeftBrace
        ),
    }
}

/// The place of the first token of a root.
fn place_of_root(root: &Root) -> Place
    ensures { result ≡ tree.place_of_root root.now }
{
    match root {
        Root::This(at) => *at,
        Root::Super(at, _) => *at,
        Root::Plain(name) => name.at,
        Root::Scoped(scope, _) => scope.at,
    }
}

/// The place of the first token of a target.
pub fn place_of_target(target: &Lval) -> Place
    ensures { result ≡ grammar.place_of_target (view.lval target.now) }
{
    match target {
        Lval::Post(root, _) => place_of_root(root),
        Lval::Join(at, _) => *at,
    }
}

// ---- the last part

/// What follows the target of a step, which is at this place.
#[tactic(auto, using(crate::proofs::ForLaws::step_assign, crate::proofs::ForLaws::step_operator, crate::proofs::ForLaws::step_word))]
fn for_step_rest<'a>(
    alloc: Global,
    target: Lval,
    at: Place,
    tokens: &'a [Token],
    budget: Budget,
) -> Read<'a, ForStep>
    ensures { Gives (λ x. (view.for_step x.0, toks x.1.now)) result
        (applied at (applied (view.lval target) (reads budget grammar.for_step_rest (toks tokens.now)))) }
{
    if is_next(tokens, Kind::Equals) {
        let (value, rest) = read!(Values::read(alloc, tokens, budget));
        return Ok((ForStep::Assign(target, value), rest));
    }
    if is_next_word::<BinaryWord>(tokens) {
        let ((_, word), rest) = read!(expect_word::<BinaryWord>(tokens));
        let (value, rest) = read!(value(alloc, rest, budget));
        let assignment = OperatorAssignment {
            target,
            word,
            value,
        };
        return Ok((ForStep::Operator(assignment), rest));
    }
    let ((_, word), rest) = read!(expect_word::<StepWord>(tokens));
    Ok((ForStep::Step { at, target, word }, rest))
}

/// `step = lval ("=" | aop) expr | lval ("++" | "--") | ("++" | "--") lval`
#[tactic(auto, using(crate::proofs::ForLaws::step_after, crate::proofs::ForLaws::step_before))]
pub fn for_step<'a>(alloc: Global, tokens: &'a [Token], budget: Budget) -> Read<'a, ForStep>
    ensures { Reads view.for_step budget grammar.for_step tokens.now result }
{
    if begins_lval(tokens) {
        let (target, rest) = read!(lval(alloc, tokens, budget));
        let at = place_of_target(&target);
        return for_step_rest(alloc, target, at, rest, budget);
    }
    let ((sign, word), rest) = read!(expect_word::<StepWord>(tokens));
    let (target, rest) = read!(lval(alloc, rest, budget));
    let step = ForStep::Step {
        at: sign.at,
        target,
        word,
    };
    Ok((step, rest))
}

// ---- the first part

/// What follows a name at the front: `id "=" expr`, or the rest of a target and `"=" expr`.
#[tactic(auto, using(crate::proofs::ForLaws::init_declares, crate::proofs::ForLaws::init_assigns))]
fn for_init_rest<'a>(
    alloc: Global,
    first: Name,
    tokens: &'a [Token],
    budget: Budget,
) -> Read<'a, ForInit>
    ensures { Gives (λ x. (view.for_init x.0, toks x.1.now)) result (applied first (reads budget grammar.for_init_rest (toks tokens.now))) }
{
    if is_next(tokens, Kind::Name) {
        let (name, rest) = read!(name(tokens));
        let (value, rest) = read!(Values::read(alloc, rest, budget));
        let of = WrittenType::Named(first);
        return Ok((ForInit::Declare { of, name, value }, rest));
    }
    let (second, rest) = read!(scope(tokens));
    let (list, rest) = read!(suffixes(alloc, rest, budget));
    let (value, rest) = read!(Values::read(alloc, rest, budget));
    let target = Lval::Post(named_root(first, second), list);
    Ok((ForInit::Assign(target, value), rest))
}

/// `type id "=" expr | lval "=" expr`
#[tactic(auto, using(crate::proofs::ForLaws::init_named, crate::proofs::ForLaws::init_typed, crate::proofs::ForLaws::init_target))]
pub fn for_init<'a>(alloc: Global, tokens: &'a [Token], budget: Budget) -> Read<'a, ForInit>
    ensures { Reads view.for_init budget grammar.for_init tokens.now result }
{
    if is_next(tokens, Kind::Name) {
        let (name, rest) = read!(name(tokens));
        return for_init_rest(alloc, name, rest, budget);
    }
    if begins_word_type(tokens) {
        let (of, rest) = read!(word_type(alloc, tokens, budget));
        let (name, rest) = read!(name(rest));
        let (value, rest) = read!(Values::read(alloc, rest, budget));
        return Ok((ForInit::Declare { of, name, value }, rest));
    }
    let (target, rest) = read!(lval(alloc, tokens, budget));
    let (value, rest) = read!(Values::read(alloc, rest, budget));
    Ok((ForInit::Assign(target, value), rest))
}
