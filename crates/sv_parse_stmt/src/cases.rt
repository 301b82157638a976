// The items of a `case`, but for their statements (IEEE 1800-2017, A.6.7).
ghost use Rattle.std.specs.Prelude.{◌≡◌, ℕ, ◌<◌, map};
ghost use Rattle.sv_tree.specs.Codes.{toks};
ghost use Rattle.sv_tree.specs.Stmt as tree;
ghost use Rattle.sv_tree.specs.View.{expr};
ghost use Rattle.sv_tree.specs.StmtGrammar as grammar;
ghost use Rattle.sv_tree.specs.StmtView as view;
ghost use Rattle.sv_tree.specs.Grammar.{reads};
ghost use Rattle.sv_parse.specs.Outcome.{Gives};
ghost use Rattle.sv_parse_stmt.specs.Fronts.{case_ended, placed};
ghost use Rattle.sv_parse_stmt.specs.Statements.{Heads, with_stmt};

use crate::front::Placed;
use std::alloc::Global;
use sv_parse::{Budget, Read, expect, is_next, list, skip};
use sv_parse_expr::Exprs;
use sv_tree::{Body, CaseItem, CaseWord, Expr, Kind, Stmt, Token};
use sv_value::Place;

/// What stands before the statement of an item of a `case`.
#[derive(Drop)]
pub enum CaseItemHead {
    /// `list(expr) ":"`
    Labels(Vec<Expr>),
    /// `"default" [":"]`
    Default,
}

/// `list(expr) ":" | "default" [":"]`
#[tactic(auto, using(crate::proofs::CaseLaws::item_default, crate::proofs::CaseLaws::item_labels))]
pub fn case_item_head<'a>(
    alloc: Global,
    tokens: &'a [Token],
    budget: Budget,
) -> Read<'a, CaseItemHead>
    requires { 0 < budget }
    ensures { Heads budget result (reads budget grammar.case_item (toks tokens.now)) }
{
    if is_next(tokens, Kind::Default) {
        let (_, rest) = read!(expect(tokens, Kind::Default));
        let (_, rest) = skip(rest, Kind::Colon);
        return Ok((CaseItemHead::Default, rest));
    }
    let (labels, rest) = read!(list::<Exprs>(alloc, tokens, budget));
    let (_, rest) = read!(expect(rest, Kind::Colon));
    Ok((CaseItemHead::Labels(labels), rest))
}

/// An item of a `case`, with its statement.
pub fn case_item_of(head: CaseItemHead, inner: Box<Stmt>) -> CaseItem
    ensures { (rest : tree.CaseItems) → view.case_item result rest ≡ with_stmt head (view.stmt inner.value) rest }
{
    match head {
        CaseItemHead::Labels(labels) => CaseItem::Labels(labels, inner),
        CaseItemHead::Default => CaseItem::Default(inner),
    }
}

/// A `case`, as a form.
fn case_of(word: CaseWord, subject: Expr, items: Vec<CaseItem>) -> Body
    ensures { view.body result ≡ tree.Case word (expr subject) (view.case_item_list items.items) }
{
    Body::Case {
        word,
        subject,
        items,
    }
}

/// `"endcase"`, after the items of a `case`.
#[tactic(auto, using(crate::proofs::CaseLaws::items_are_stacked))]
pub fn case_end<'a>(
    at: Place,
    word: CaseWord,
    subject: Expr,
    items: Vec<CaseItem>,
    tokens: &'a [Token],
) -> Read<'a, Placed>
    ensures { Gives (λ x. (placed x.0, toks x.1.now)) result (case_ended at word (expr subject) (map view.case_item items.items, toks tokens.now)) }
{
    let (_, rest) = read!(expect(tokens, Kind::Endcase));
    let body = case_of(word, subject, items);
    Ok((Placed { at, body }, rest))
}
