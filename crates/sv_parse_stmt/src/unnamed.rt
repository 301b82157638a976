// Which form begins with the next token (IEEE 1800-2017, A.6.4).
ghost use Rattle.std.specs.Prelude.{◌≡◌, ℕ, ◌<◌, true};
ghost use Rattle.sv_grammar.specs.Tokens.{mem, next};
ghost use Rattle.sv_tree.specs.Codes.{toks};
ghost use Rattle.sv_tree.specs.StmtGrammar as grammar;
ghost use Rattle.sv_tree.specs.Grammar.{reads};
ghost use Rattle.sv_parse_stmt.specs.Begins.{holder_first};
ghost use Rattle.sv_parse_stmt.specs.Fronts.{Begun, Fronts};
ghost use Rattle.sv_parse_stmt.specs.Statements.{Labels};

use crate::assignments::named_rest;
use crate::begins::{are_next, begins_holder};
use crate::blocks::{block, fork};
use crate::front::{Front, Placed, ReadFront};
use crate::heads::{
    after, case, cycles, do_loop, for_loop, foreach, forever, if_else, on_event, repeat, wait,
    while_loop,
};
use crate::simple::{
    disable, ignore, null, return_from, step, super_statement, system_statement, targets_statement,
    this_statement, trigger, word_alone,
};
use std::alloc::Global;
use sv_parse::{Budget, Read, expect, is_next, is_next_word, name_of};
use sv_tree::{Body, CaseWord, Kind, Name, StepWord, Token};

/// The forms that always hold a statement, and targets in braces.
#[tactic(auto, using(crate::proofs::UnnamedLaws::unnamed_if, crate::proofs::UnnamedLaws::unnamed_for, crate::proofs::UnnamedLaws::unnamed_while, crate::proofs::UnnamedLaws::unnamed_do, crate::proofs::UnnamedLaws::unnamed_repeat, crate::proofs::UnnamedLaws::unnamed_forever, crate::proofs::UnnamedLaws::unnamed_foreach, crate::proofs::UnnamedLaws::unnamed_after, crate::proofs::UnnamedLaws::unnamed_on, crate::proofs::UnnamedLaws::unnamed_cycles, crate::proofs::UnnamedLaws::unnamed_braces))]
fn holder<'a>(alloc: Global, tokens: &'a [Token], budget: Budget) -> ReadFront<'a>
    requires some { 0 < budget }
    requires comes { mem (next (toks tokens.now)).code holder_first ≡ true }
    ensures { Begun budget result (reads budget grammar.unnamed (toks tokens.now)) }
{
    if is_next(tokens, Kind::If) {
        return if_else(alloc, tokens, budget);
    }
    if is_next(tokens, Kind::For) {
        return for_loop(alloc, tokens, budget);
    }
    if is_next(tokens, Kind::While) {
        return while_loop(alloc, tokens, budget);
    }
    if is_next(tokens, Kind::Do) {
        return do_loop(tokens);
    }
    if is_next(tokens, Kind::Repeat) {
        return repeat(alloc, tokens, budget);
    }
    if is_next(tokens, Kind::Forever) {
        return forever(tokens);
    }
    if is_next(tokens, Kind::Foreach) {
        return foreach(tokens);
    }
    if is_next(tokens, Kind::Hash) {
        return after(alloc, tokens, budget);
    }
    if is_next(tokens, Kind::At) {
        return on_event(alloc, tokens, budget);
    }
    if is_next(tokens, Kind::HashHash) {
        return cycles(alloc, tokens, budget);
    }
    targets_statement(alloc, tokens, budget)
}

/// The front of a form that begins with no name.
#[tactic(auto, using(crate::proofs::UnnamedLaws::unnamed_null, crate::proofs::UnnamedLaws::unnamed_block, crate::proofs::UnnamedLaws::unnamed_fork, crate::proofs::UnnamedLaws::unnamed_system, crate::proofs::UnnamedLaws::unnamed_super, crate::proofs::UnnamedLaws::unnamed_this, crate::proofs::UnnamedLaws::unnamed_ignore, crate::proofs::UnnamedLaws::unnamed_case, crate::proofs::UnnamedLaws::unnamed_step, crate::proofs::UnnamedLaws::unnamed_wait, crate::proofs::UnnamedLaws::unnamed_disable, crate::proofs::UnnamedLaws::unnamed_trigger, crate::proofs::UnnamedLaws::unnamed_break, crate::proofs::UnnamedLaws::unnamed_continue, crate::proofs::UnnamedLaws::unnamed_return, crate::proofs::UnnamedLaws::unnamed_low))]
fn unnamed_front<'a>(alloc: Global, tokens: &'a [Token], budget: Budget) -> ReadFront<'a>
    ensures { Begun budget result (reads budget grammar.unnamed (toks tokens.now)) }
{
    if begins_holder(tokens) {
        read!(budget.deeper(tokens));
        return holder(alloc, tokens, budget);
    }
    if is_next(tokens, Kind::Semicolon) {
        return null(tokens);
    }
    if is_next(tokens, Kind::Begin) {
        return block(alloc, tokens, budget);
    }
    if is_next(tokens, Kind::Fork) {
        return fork(alloc, tokens, budget);
    }
    if is_next(tokens, Kind::SystemName) {
        return system_statement(alloc, tokens, budget);
    }
    if is_next(tokens, Kind::Super) {
        return super_statement(alloc, tokens, budget);
    }
    if is_next(tokens, Kind::This) {
        return this_statement(alloc, tokens, budget);
    }
    if is_next(tokens, Kind::Void) {
        return ignore(alloc, tokens, budget);
    }
    if is_next_word::<CaseWord>(tokens) {
        return case(alloc, tokens, budget);
    }
    if is_next_word::<StepWord>(tokens) {
        return step(alloc, tokens, budget);
    }
    if is_next(tokens, Kind::Wait) {
        return wait(alloc, tokens, budget);
    }
    if is_next(tokens, Kind::Disable) {
        return disable(tokens);
    }
    if is_next(tokens, Kind::Arrow) {
        return trigger(alloc, tokens, budget);
    }
    if is_next(tokens, Kind::Break) {
        return word_alone(tokens, Kind::Break, Body::Break);
    }
    if is_next(tokens, Kind::Continue) {
        return word_alone(tokens, Kind::Continue, Body::Continue);
    }
    return_from(alloc, tokens, budget)
}

/// The front of `body`: all of a form that begins with a name, or the front of one that begins with none.
#[tactic(auto, using(crate::proofs::StmtLaws::body_named, crate::proofs::StmtLaws::body_unnamed, crate::proofs::FrontLaws::remains_is))]
pub fn body_front<'a>(alloc: Global, tokens: &'a [Token], budget: Budget) -> ReadFront<'a>
    ensures { Fronts budget result (reads budget grammar.body (toks tokens.now)) }
{
    if is_next(tokens, Kind::Name) {
        let (first, rest) = read!(expect(tokens, Kind::Name));
        let name = held!(name_of(first));
        let (body, rest) = read!(named_rest(alloc, name, rest, budget));
        let at = first.at;
        return Ok(Front::Whole(Placed { at, body }, rest));
    }
    let front = read!(unnamed_front(alloc, tokens, budget));
    Ok(front)
}

/// `[id ":"]`: the label of a statement
#[tactic(auto, using(crate::proofs::StmtLaws::stmt_labelled, crate::proofs::StmtLaws::stmt_plain))]
pub fn stmt_label<'a>(tokens: &'a [Token]) -> Read<'a, Option<Name>>
    ensures { Labels result (toks tokens.now) }
{
    if !are_next(tokens, Kind::Name, Kind::Colon) {
        return Ok((None, tokens));
    }
    let (first, rest) = read!(expect(tokens, Kind::Name));
    let (_, rest) = read!(expect(rest, Kind::Colon));
    Ok((Some(held!(name_of(first))), rest))
}
