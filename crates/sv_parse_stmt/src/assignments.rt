// Assignments, and calls that stand alone (IEEE 1800-2017, A.6.2 and A.6.9).
ghost use Rattle.std.specs.Prelude.{◌≡◌, ℕ};
ghost use Rattle.sv_grammar.specs.Tokens.{mem, next};
ghost use Rattle.sv_tree.specs.Codes.{toks};
ghost use Rattle.sv_tree.specs.StmtGrammar as grammar;
ghost use Rattle.sv_tree.specs.View.{suffix_list};
ghost use Rattle.sv_tree.specs.StmtView as view;
ghost use Rattle.sv_tree.specs.Grammar.{reads};
ghost use Rattle.sv_parse.specs.Outcome.{Gives};
ghost use Rattle.sv_parse_type.specs.Applied.{applied};
ghost use Rattle.sv_parse_stmt.specs.Begins.{assignment_first};

use crate::delays::Delays;
use std::alloc::Global;
use sv_parse::{Budget, Read, expect, expect_word, is_next, is_next_word, maybe};
use sv_parse_expr::{named_root, post_of, scope, suffixes, value};
use sv_parse_type::init;
use sv_tree::{
    BinaryWord, BlockingAssignment, Body, Kind, Lval, Name, NonblockingAssignment,
    OperatorAssignment, Root, StepWord, Suffix, Token,
};

/// Whether an assignment goes on after its target.
fn begins_assignment(tokens: &[Token]) -> bool
    ensures { result ≡ mem (next (toks tokens.now)).code assignment_first }
{
    is_next(tokens, Kind::Equals)
        || is_next(tokens, Kind::LessEquals)
        || is_next_word::<BinaryWord>(tokens)
        || is_next_word::<StepWord>(tokens)
}

/// `"=" [delay] init ";"`
#[tactic(auto, unfolding(sv_tree::specs::StmtGrammar::blocking_rest))]
fn blocking<'a>(alloc: Global, target: Lval, tokens: &'a [Token], budget: Budget) -> Read<'a, Body>
    ensures { Gives (λ x. (view.body x.0, toks x.1.now)) result (applied (view.lval target) (reads budget grammar.blocking_rest (toks tokens.now))) }
{
    let (_, rest) = read!(expect(tokens, Kind::Equals));
    let (delay, rest) = read!(maybe::<Delays>(alloc, rest, budget));
    let (value, rest) = read!(init(alloc, rest, budget));
    let (_, rest) = read!(expect(rest, Kind::Semicolon));
    let assignment = BlockingAssignment {
        target,
        delay,
        value,
    };
    Ok((Body::Blocking(held!(Box::new(alloc, assignment))), rest))
}

/// `"<=" [delay] expr ";"`
#[tactic(auto, unfolding(sv_tree::specs::StmtGrammar::nonblocking_rest))]
fn nonblocking<'a>(
    alloc: Global,
    target: Lval,
    tokens: &'a [Token],
    budget: Budget,
) -> Read<'a, Body>
    ensures { Gives (λ x. (view.body x.0, toks x.1.now)) result (applied (view.lval target) (reads budget grammar.nonblocking_rest (toks tokens.now))) }
{
    let (_, rest) = read!(expect(tokens, Kind::LessEquals));
    let (delay, rest) = read!(maybe::<Delays>(alloc, rest, budget));
    let (value, rest) = read!(value(alloc, rest, budget));
    let (_, rest) = read!(expect(rest, Kind::Semicolon));
    let assignment = NonblockingAssignment {
        target,
        delay,
        value,
    };
    Ok((Body::Nonblocking(held!(Box::new(alloc, assignment))), rest))
}

/// `aop expr ";"`
#[tactic(auto, unfolding(sv_tree::specs::StmtGrammar::operator_rest))]
fn by_operator<'a>(
    alloc: Global,
    target: Lval,
    tokens: &'a [Token],
    budget: Budget,
) -> Read<'a, Body>
    ensures { Gives (λ x. (view.body x.0, toks x.1.now)) result (applied (view.lval target) (reads budget grammar.operator_rest (toks tokens.now))) }
{
    let ((_, word), rest) = read!(expect_word::<BinaryWord>(tokens));
    let (value, rest) = read!(value(alloc, rest, budget));
    let (_, rest) = read!(expect(rest, Kind::Semicolon));
    let assignment = OperatorAssignment {
        target,
        word,
        value,
    };
    Ok((Body::Operator(held!(Box::new(alloc, assignment))), rest))
}

/// `("++" | "--") ";"`
#[tactic(auto, unfolding(sv_tree::specs::StmtGrammar::step_after))]
fn step<'a>(target: Lval, tokens: &'a [Token]) -> Read<'a, Body>
    ensures { (d : ℕ) → Gives (λ x. (view.body x.0, toks x.1.now)) result (applied (view.lval target) (reads d grammar.step_after (toks tokens.now))) }
{
    let ((_, word), rest) = read!(expect_word::<StepWord>(tokens));
    let (_, rest) = read!(expect(rest, Kind::Semicolon));
    Ok((Body::Step(target, word), rest))
}

/// What follows the target of an assignment.
#[tactic(auto, using(crate::proofs::AssignmentLaws::end_blocking, crate::proofs::AssignmentLaws::end_nonblocking, crate::proofs::AssignmentLaws::end_operator, crate::proofs::AssignmentLaws::end_step))]
pub fn assignment<'a>(
    alloc: Global,
    target: Lval,
    tokens: &'a [Token],
    budget: Budget,
) -> Read<'a, Body>
    ensures { Gives (λ x. (view.body x.0, toks x.1.now)) result (applied (view.lval target) (reads budget grammar.assign_end (toks tokens.now))) }
{
    if is_next(tokens, Kind::Equals) {
        return blocking(alloc, target, tokens, budget);
    }
    if is_next(tokens, Kind::LessEquals) {
        return nonblocking(alloc, target, tokens, budget);
    }
    if is_next_word::<BinaryWord>(tokens) {
        return by_operator(alloc, target, tokens, budget);
    }
    step(target, tokens)
}

/// What follows a name with its suffixes: an assignment to it, or the end of a call.
#[tactic(auto, using(crate::proofs::AssignmentLaws::post_call, crate::proofs::AssignmentLaws::post_assign))]
pub fn post_end<'a>(
    alloc: Global,
    root: Root,
    list: Vec<Suffix>,
    tokens: &'a [Token],
    budget: Budget,
) -> Read<'a, Body>
    ensures { Gives (λ x. (view.body x.0, toks x.1.now)) result (applied (root, suffix_list list.items) (reads budget grammar.post_end (toks tokens.now))) }
{
    if begins_assignment(tokens) {
        return assignment(alloc, Lval::Post(root, list), tokens, budget);
    }
    let (_, rest) = read!(expect(tokens, Kind::Semicolon));
    Ok((Body::Call(post_of(root, list)), rest))
}

/// What follows the name at the front of an assignment or of a call.
#[tactic(auto, using(crate::proofs::AssignmentLaws::named_rest_is))]
pub fn named_rest<'a>(
    alloc: Global,
    first: Name,
    tokens: &'a [Token],
    budget: Budget,
) -> Read<'a, Body>
    ensures { Gives (λ x. (view.body x.0, toks x.1.now)) result (applied first (reads budget grammar.named_rest (toks tokens.now))) }
{
    let (second, rest) = read!(scope(tokens));
    let (list, rest) = read!(suffixes(alloc, rest, budget));
    post_end(alloc, named_root(first, second), list, rest, budget)
}
