// Reading statements (IEEE 1800-2017, A.6).
ghost use Rattle.std.specs.Prelude.{◌≡◌, ◌<◌, map};
ghost use Rattle.sv_grammar.specs.Code.Code.{Rep};
ghost use Rattle.sv_tree.specs.Codes.{toks};
ghost use Rattle.sv_tree.specs.Forms as forms;
ghost use Rattle.sv_tree.specs.StmtGrammar as grammar;
ghost use Rattle.sv_tree.specs.View.{expr};
ghost use Rattle.sv_tree.specs.StmtView as view;
ghost use Rattle.sv_tree.specs.Grammar.{reads};
ghost use Rattle.sv_parse.specs.Outcome.{Gives, Reads, seen};
ghost use Rattle.sv_parse_type.specs.Applied.{applied};
ghost use Rattle.sv_parse_stmt.specs.Blocks.{items_of};
ghost use Rattle.sv_parse_stmt.specs.Fronts.{placed, remaining};

use crate::begins::{begins_case_item, begins_stmt};
use crate::blocks::{BlockItems, block_end, opening};
use crate::cases::{case_end, case_item_head, case_item_of};
use crate::front::{Front, Placed};
use crate::unnamed::{body_front, stmt_label};
use std::alloc::Global;
use sv_parse::{Budget, Read, ReadError, expect, is_next};
use sv_tree::{Body, CaseItem, Expr, Kind, Stmt, Token};

/// A statement that stands inside something, and so takes one of the budget. Where nothing is left of it, none is read: the answer is
/// `Unexpected` at the first token, as the grammar has it; what holds the statement tells that it is too deep.
#[cycle(stmt)]
#[tactic(auto, using(crate::proofs::InnerLaws::inner_none, crate::proofs::InnerLaws::inner_stmt))]
pub fn statement<'a>(alloc: Global, tokens: &'a [Token], budget: Budget) -> Read<'a, Stmt>
    ensures { Reads view.stmt budget forms.statement tokens.now result }
{
    let Ok(inner) = budget.deeper(tokens) else {
        return Err(ReadError::Unexpected(tokens));
    };
    let (label, rest) = read!(stmt_label(tokens));
    let front = read!(body_front(alloc, rest, inner));
    let (Placed { at, body }, rest) = read!(completed(alloc, front, inner));
    Ok((Stmt { at, label, body }, rest))
}

/// A form of its front and of what is left to be read.
#[cycle(stmt)]
fn completed<'a>(alloc: Global, front: Front<'a>, budget: Budget) -> Read<'a, Placed>
    ensures { Gives (λ x. (placed x.0, toks x.1.now)) result (remaining budget front.entry) }
{
    match front {
        Front::Whole(form, rest) => Ok((form, rest)),
        Front::Head { at, head, rest } => {
            let (inner, rest) = read!(statement(alloc, rest, budget));
            head.completed(alloc, at, inner, rest, budget)
        }
        Front::Block(head, rest) => {
            let (stmts, rest) = read!(statements(alloc, rest, budget));
            block_end(head, stmts, rest)
        }
        Front::If {
            at,
            condition,
            rest,
        } => {
            let (body, rest) = read!(if_rest(alloc, condition, rest, budget));
            Ok((Placed { at, body }, rest))
        }
        Front::Case {
            at,
            word,
            subject,
            rest,
        } => {
            let (items, rest) = read!(case_items(alloc, rest, budget));
            case_end(at, word, subject, items, rest)
        }
    }
}

/// `stmt ["else" stmt]`: an `else` belongs to the nearest `if`.
#[cycle(stmt)]
#[tactic(auto, unfolding(sv_tree::specs::StmtGrammar::if_rest, sv_tree::specs::StmtGrammar::else_))]
fn if_rest<'a>(
    alloc: Global,
    condition: Expr,
    tokens: &'a [Token],
    budget: Budget,
) -> Read<'a, Body>
    ensures { Gives (λ x. (view.body x.0, toks x.1.now)) result (applied (expr condition) (reads budget grammar.if_rest (toks tokens.now))) }
{
    let (yes, rest) = read!(statement(alloc, tokens, budget));
    let yes = held!(Box::new(alloc, yes));
    if !is_next(rest, Kind::Else) {
        return Ok((Body::If(condition, yes), rest));
    }
    let (_, rest) = read!(expect(rest, Kind::Else));
    let (no, rest) = read!(statement(alloc, rest, budget));
    let no = held!(Box::new(alloc, no));
    Ok((Body::IfElse { condition, yes, no }, rest))
}

/// `{list(expr) ":" stmt | "default" [":"] stmt}`
#[cycle(stmt)]
#[tactic(auto, using(crate::proofs::CaseLaws::items_are, crate::proofs::CaseLaws::items_stop, crate::proofs::CaseLaws::items_deep))]
fn case_items<'a>(alloc: Global, tokens: &'a [Token], budget: Budget) -> Read<'a, Vec<CaseItem>>
    ensures { Reads (seen view.case_item) budget (Rep grammar.case_item) tokens.now result }
{
    let mut list = Vec::new(alloc);
    let mut rest = tokens;
    'items: while begins_case_item(rest) {
        read!(budget.deeper(rest));
        let (item, after) = read!(case_item(alloc, rest, budget));
        held!(list.push(item));
        rest = after;
    }
    Ok((list, rest))
}

/// `list(expr) ":" stmt | "default" [":"] stmt`
#[cycle(stmt)]
fn case_item<'a>(alloc: Global, tokens: &'a [Token], budget: Budget) -> Read<'a, CaseItem>
    requires { 0 < budget }
    ensures { Reads view.case_item budget grammar.case_item tokens.now result }
{
    let (head, rest) = read!(case_item_head(alloc, tokens, budget));
    let (inner, rest) = read!(statement(alloc, rest, budget));
    let inner = held!(Box::new(alloc, inner));
    Ok((case_item_of(head, inner), rest))
}

/// `{stmt}`
#[cycle(stmt)]
#[tactic(auto, using(crate::proofs::BlockLaws::stmts_are, crate::proofs::BlockLaws::stmts_stop, crate::proofs::BlockLaws::stmts_deep))]
fn statements<'a>(alloc: Global, tokens: &'a [Token], budget: Budget) -> Read<'a, Vec<Stmt>>
    ensures { Reads (seen view.stmt) budget (Rep forms.statement) tokens.now result }
{
    let mut list = Vec::new(alloc);
    let mut rest = tokens;
    'stmts: while begins_stmt(rest) {
        read!(budget.deeper(rest));
        let (item, after) = read!(statement(alloc, rest, budget));
        held!(list.push(item));
        rest = after;
    }
    Ok((list, rest))
}

/// `{decl} {stmt}`
pub fn items<'a>(alloc: Global, tokens: &'a [Token], budget: Budget) -> Read<'a, BlockItems>
    ensures { Reads items_of budget grammar.block_items tokens.now result }
{
    let (decls, rest) = read!(opening(alloc, tokens, budget));
    let (stmts, rest) = read!(statements(alloc, rest, budget));
    Ok((BlockItems { decls, stmts }, rest))
}
