// The subject of a `case` and its labels (IEEE 1800-2017, 12.5): E15, E42.
ghost use Rattle.sv_tree.specs.StmtView as view;
ghost use Rattle.sv_tree.specs.View as tree_view;
ghost use Rattle.sv_names.specs.Cases as cases;
ghost use Rattle.sv_names.specs.Given.{Gives};
ghost use Rattle.sv_names.specs.Named.{raised};
ghost use Rattle.sv_names.specs.Views.{around_in};

use crate::labels::all_labels;
use std::alloc::Global;
use sv_elab_expr::sv_elab_step::behind_value;
use sv_elab_expr::{expr, place_of};
use sv_elab_flow::{Heads, heads_of, needs_activation, raised, subject_in, subject_type};
use sv_names::{Around, Checked, Hoisted, Refusal, Typed, answer, both, judged};
use sv_tree::{CaseItem, Expr};

/// The labels beside the subject, behind it.
fn with_labels_in(
    alloc: Global,
    subject: Checked<Typed>,
    items: &[CaseItem],
    around: &Around,
) -> Result<Hoisted<Heads>, Refusal>
    ensures { Gives result (cases.with_labels_in (around_in around.now) subject (view.case_item_list items.now)) }
{
    let ty = subject_type(alloc, &subject)?;
    let rows = all_labels(alloc, &ty, items, around)?;
    match both(answer(subject), answer(rows)) {
        Ok((subject, rows)) => {
            let heads = heads_of(alloc, subject, rows)?;
            Ok(heads)
        }
        Err(e) => Err(e),
    }
}

/// The subject of a `case` and its labels, in variables of this activation.
fn heads_once(
    alloc: Global,
    subject: &Expr,
    items: &[CaseItem],
    around: &Around,
) -> Result<Hoisted<Heads>, Refusal>
    ensures { Gives result
        (cases.case_heads (around_in around.now) (tree_view.expr subject.now) (view.case_item_list items.now)) }
{
    let value = judged(expr(alloc, subject, around))?;
    let inner = behind_value(around, &value);
    let value = subject_in(place_of(subject), value)?;
    with_labels_in(alloc, value, items, &inner)
}

/// The subject of a `case` and its labels. E15: they are not of types that can be compared; E42: a whole array.
#[tactic(auto, using(sv_elab_flow::proofs::RaisedLaws::raised_once, sv_elab_flow::proofs::RaisedLaws::raised_again))]
pub fn case_heads(
    alloc: Global,
    subject: &Expr,
    items: &[CaseItem],
    around: &Around,
) -> Result<Hoisted<Heads>, Refusal>
    ensures { Gives result (raised (around_in around.now)
        (λ i. cases.case_heads i (tree_view.expr subject.now) (view.case_item_list items.now))) }
{
    let heads = heads_once(alloc, subject, items, around);
    if needs_activation(&heads) {
        return heads_once(alloc, subject, items, &raised(around));
    }
    heads
}
