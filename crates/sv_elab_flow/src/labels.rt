// The labels of a `case`, over their values (IEEE 1800-2017, 12.5): E15, E42.
ghost use Rattle.std.specs.Prelude.{◌≡◌, ◌-◌, ◌^◌, min, IfOk, IfErr};
ghost use Rattle.sv_tree.specs.Stmt as tree;
ghost use Rattle.sv_tree.specs.StmtView as view;
ghost use Rattle.sv_names.specs.declared.refusal.Refusal.TheVariants.{Memory};
ghost use Rattle.sv_names.specs.Cases as cases;
ghost use Rattle.sv_names.specs.Checked.{◌▷◌, given};
ghost use Rattle.sv_names.specs.Given.{Gives};
ghost use Rattle.sv_names.specs.Views.{around_in};
ghost use Rattle.sv_elab_flow.specs.Labels as labels;

use std::alloc::Global;
use sv_elab_select::hidden_of_spots;
use sv_elab_value::{common_reference, one_item};
use sv_names::{Around, Checked, Refusal, Ty, Typed, judged};
use sv_tree::CaseItem;
use sv_value::{Place, Seq};

/// A label, where it stands.
pub type Placed = (Place, Typed);

/// The labels of an item; none of the default.
pub type Labels = Option<Seq<Placed>>;

// ---- one label

/// Whether two types are both of numbers, or both of texts.
fn are_alike(a: &Ty, b: &Ty) -> bool
    ensures { result ≡ labels.are_alike a.now b.now }
{
    (a.is_integral() && b.is_integral()) || (a.is_text() && b.is_text())
}

/// Whether two types are both of references.
fn are_references(a: &Ty, b: &Ty) -> bool
    ensures { result ≡ labels.are_references a.now b.now }
{
    a.is_reference() && b.is_reference()
}

/// Whether a `case` can compare two types.
fn compares(alloc: Global, around: &Around, a: &Ty, b: &Ty) -> Result<bool, Refusal>
    ensures ok { IfOk result (λ x. x ≡ cases.compares (around_in around.now) a.now b.now) }
    ensures err { IfErr result (λ e. e ≡ Memory) }
{
    if are_alike(a, b) {
        return Ok(true);
    }
    if !are_references(a, b) {
        return Ok(false);
    }
    match common_reference(alloc, around.classes, a, b)? {
        Some(_) => Ok(true),
        None => Ok(false),
    }
}

/// E15: a label is compared with the subject, where the type of that is known.
fn comparable(
    alloc: Global,
    around: &Around,
    subject: &Option<Ty>,
    at: Place,
    label: Typed,
) -> Result<Typed, Refusal>
    ensures { Gives result (labels.comparable (around_in around.now) subject.now at label) }
{
    match subject {
        None => Ok(label),
        Some(ty) => {
            if compares(alloc, around, ty, &label.ty)? {
                Ok(label)
            } else {
                Err(Refusal::Rule { rule: 15, at })
            }
        }
    }
}

/// E42, E15: a label.
fn label_of(
    alloc: Global,
    around: &Around,
    subject: &Option<Ty>,
    at: Place,
    value: Typed,
) -> Result<Placed, Refusal>
    ensures { Gives result (given (labels.placed at) (cases.label_of (around_in around.now) subject.now at value)) }
{
    let label = one_item(value)?;
    let label = comparable(alloc, around, subject, at, label)?;
    Ok((at, label))
}

/// The same, where it breaks no rule before.
pub fn label_in(
    alloc: Global,
    around: &Around,
    subject: &Option<Ty>,
    at: Place,
    value: Checked<Typed>,
) -> Result<Checked<Placed>, Refusal>
    ensures ok { IfOk result (λ c. c
        ≡ given (labels.placed at) (value ▷ cases.label_of (around_in around.now) subject.now at)) }
    ensures err { IfErr result (λ e. e ≡ Memory) }
{
    match value {
        Checked::Good(value) => judged(label_of(alloc, around, subject, at, value)),
        Checked::Broken(f) => Ok(Checked::Broken(f)),
    }
}

// ---- the labels of an item

/// Labels as those of an item.
pub fn some_labels(list: Checked<Seq<Placed>>) -> Checked<Labels>
    ensures { result ≡ given labels.some list }
{
    match list {
        Checked::Good(list) => Checked::Good(Some(list)),
        Checked::Broken(f) => Checked::Broken(f),
    }
}

/// How many hidden variables the labels of an item take; more than every limit are not told from others.
#[tactic(auto, using(crate::proofs::LabelLaws::same_hidden))]
fn hidden_in(list: &Checked<Labels>) -> u32
    ensures { result ≡ min (labels.hidden_in list.now) (2 ^ 32 - 1) }
{
    match list {
        Checked::Good(Some(list)) => hidden_of_spots(list.as_slice()),
        _ => 0,
    }
}

/// What stands behind an item.
pub fn behind_item<'a>(around: &Around<'a>, item: &CaseItem, list: &Checked<Labels>) -> Around<'a>
    ensures { (rest : tree.CaseItems) → around_in result
        ≡ labels.behind_item (around_in around.now) (view.case_item item.now rest) list.now }
{
    match item {
        CaseItem::Labels(_, _) => around.behind(hidden_in(list)),
        CaseItem::Default(_) => *around,
    }
}
