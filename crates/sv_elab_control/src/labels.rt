// The labels of a `case`, each behind those before it (IEEE 1800-2017, 12.5): E15, E42.
ghost use Rattle.std.specs.Prelude.{◌≡◌, IfOk, IfErr};
ghost use Rattle.sv_tree.specs.Stmt as tree;
ghost use Rattle.sv_tree.specs.StmtView as view;
ghost use Rattle.sv_tree.specs.View as tree_view;
ghost use Rattle.sv_names.specs.declared.refusal.Refusal.TheVariants.{Memory};
ghost use Rattle.sv_names.specs.Cases as cases;
ghost use Rattle.sv_names.specs.Views.{around_in};
ghost use Rattle.sv_elab_flow.specs.Labels as labels;

use std::alloc::Global;
use sv_elab_expr::sv_elab_step::behind_value;
use sv_elab_expr::{expr, place_of};
use sv_elab_flow::{Labels, Placed, behind_item, label_in, some_labels};
use sv_names::{Around, Checked, Refusal, Ty, and_next, judged};
use sv_tree::{CaseItem, Expr};
use sv_value::Seq;

/// The labels of an item, each behind those before it.
fn labels_in(
    alloc: Global,
    subject: &Option<Ty>,
    list: &[Expr],
    around: &Around,
) -> Result<Checked<Seq<Placed>>, Refusal>
    ensures ok { IfOk result (λ c. c ≡ cases.labels_in (around_in around.now) subject.now (tree_view.expr_list list.now)) }
    ensures err { IfErr result (λ e. e ≡ Memory) }
{
    let mut done = Checked::Good(Seq::new(alloc));
    let mut place = *around;
    for e in list {
        let value = judged(expr(alloc, e, &place))?;
        let next = behind_value(&place, &value);
        let label = label_in(alloc, &place, subject, place_of(e), value)?;
        done = and_next(done, label)?;
        place = next;
    }
    Ok(done)
}

/// The labels of an item; none of the default.
fn item_labels(
    alloc: Global,
    subject: &Option<Ty>,
    item: &CaseItem,
    around: &Around,
) -> Result<Checked<Labels>, Refusal>
    ensures ok { IfOk result (λ c. (rest : tree.CaseItems) → c
        ≡ labels.item_labels (around_in around.now) subject.now (view.case_item item.now rest)) }
    ensures err { IfErr result (λ e. e ≡ Memory) }
{
    match item {
        CaseItem::Labels(list, _) => {
            let list = labels_in(alloc, subject, list, around)?;
            Ok(some_labels(list))
        }
        CaseItem::Default(_) => Ok(Checked::Good(None)),
    }
}

/// The labels of all items, each behind those before it. E42: a whole array; E15: the subject is not compared with it.
pub fn all_labels(
    alloc: Global,
    subject: &Option<Ty>,
    items: &[CaseItem],
    around: &Around,
) -> Result<Checked<Seq<Labels>>, Refusal>
    ensures ok { IfOk result (λ c. c
        ≡ cases.all_labels (around_in around.now) subject.now (view.case_item_list items.now)) }
    ensures err { IfErr result (λ e. e ≡ Memory) }
{
    let mut done = Checked::Good(Seq::new(alloc));
    let mut place = *around;
    for item in items {
        let list = item_labels(alloc, subject, item, &place)?;
        let next = behind_item(&place, item, &list);
        done = and_next(done, list)?;
        place = next;
    }
    Ok(done)
}
