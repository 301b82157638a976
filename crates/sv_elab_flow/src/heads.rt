// The subject of a `case` and its labels, all compared alike (IEEE 1800-2017, 12.5): E15, E42.
ghost use Rattle.std.specs.Prelude.{◌≡◌, ◌++◌, ◌∷◌, List, IfOk, IfErr};
ghost use Rattle.sv_names.specs.declared.refusal.Refusal.TheVariants.{Memory};
ghost use Rattle.sv_names.specs.Cases as cases;
ghost use Rattle.sv_names.specs.Checked.{◌▷◌};
ghost use Rattle.sv_names.specs.Given.{Gives};
ghost use Rattle.sv_names.specs.Hoisted as hoisted;
ghost use Rattle.sv_elab_flow.specs.Heads as heads;

use crate::labels::{Labels, Placed};
use crate::rows::row_behind;
use std::alloc::Global;
use sv_elab_operator::context_of;
use sv_elab_value::{alone, code_of, expr_of, folded, one_item, paired, pure};
use sv_flat::{Context, Expr as FlatExpr, ExprForm};
use sv_names::{Checked, Hoisted, Refusal, Ty, Typed, judged};
use sv_value::{Place, Seq};

/// The subject of a `case` and the labels of its items, in order, in the width of the widest, signed where all are.
pub type Heads = (FlatExpr, Seq<Seq<FlatExpr>>);

// ---- the context of all

/// The context of labels and of what stands before them: the width of the widest, signed where all are.
fn with_labels(context: Context, labels: &[Placed]) -> Context
    ensures { result ≡ heads.with_labels context labels.now }
{
    let mut whole = context;
    for label in labels {
        whole = whole.wider(context_of(&label.1.ty));
    }
    whole
}

/// The same of the labels of an item.
#[tactic(auto, using(crate::proofs::HeadLaws::with_more))]
fn with_row(context: Context, row: &Labels) -> Context
    ensures { (ps : List cases.Placed) → heads.with_labels result ps
        ≡ heads.with_labels context (heads.row_of row.now ++ ps) }
{
    match row {
        None => context,
        Some(labels) => with_labels(context, labels.as_slice()),
    }
}

/// The same of the labels of all items.
fn with_rows(context: Context, rows: &[Labels]) -> Context
    ensures { result ≡ heads.with_labels context (cases.labels_of rows.now) }
{
    let mut whole = context;
    for row in rows {
        whole = with_row(whole, row);
    }
    whole
}

// ---- what is compared

/// An expression in the width and sign of the whole.
fn widened(alloc: Global, context: Context, t: Typed) -> Result<Hoisted<FlatExpr>, Refusal>
    ensures ok { IfOk result (λ c. c ≡ heads.widened context t) }
    ensures err { IfErr result (λ e. e ≡ Memory) }
{
    let ty = t.ty.copy(alloc)?;
    let is_constant = t.is_constant;
    let code = code_of(t);
    let value = expr_of(
        alloc,
        ExprForm::Widen {
            width: context.width,
            signed: context.signed,
            operand: code.value,
        },
    )?;
    let whole = Hoisted {
        hidden: code.hidden,
        calls: code.calls,
        value,
    };
    folded(alloc, is_constant, &ty, whole)
}

/// A number in the width and sign of the whole; what is no number as it stands.
fn compared_as(alloc: Global, context: Context, t: Typed) -> Result<Hoisted<FlatExpr>, Refusal>
    ensures ok { IfOk result (λ c. c ≡ cases.compared_as context.width context.signed t) }
    ensures err { IfErr result (λ e. e ≡ Memory) }
{
    if t.ty.is_integral() {
        widened(alloc, context, t)
    } else {
        alone(alloc, t)
    }
}

/// The labels of an item, compared so.
#[tactic(auto, using(crate::proofs::HeadLaws::row_first, crate::proofs::HeadLaws::row_next))]
fn compared_row(
    alloc: Global,
    context: Context,
    labels: Seq<Placed>,
) -> Result<Hoisted<Seq<FlatExpr>>, Refusal>
    ensures ok { IfOk result (λ r. r ≡ hoisted.in_row (heads.compared context labels)) }
    ensures err { IfErr result (λ e. e ≡ Memory) }
{
    let mut row = pure(alloc, Seq::new(alloc));
    for label in labels.into_vec() {
        let next = compared_as(alloc, context, label.1)?;
        row = row_behind(row, next)?;
    }
    Ok(row)
}

/// The labels of one more item, where it has some.
#[tactic(auto, using(crate::proofs::HeadLaws::row_next))]
fn and_compared(
    alloc: Global,
    context: Context,
    rows: Hoisted<Seq<Seq<FlatExpr>>>,
    row: Labels,
) -> Result<Hoisted<Seq<Seq<FlatExpr>>>, Refusal>
    ensures ok { IfOk result (λ all. (rest : List cases.Labels) → heads.both_rows all (heads.all_compared context rest)
        ≡ heads.both_rows rows (heads.all_compared context (row ∷ rest))) }
    ensures err { IfErr result (λ e. e ≡ Memory) }
{
    match row {
        None => Ok(rows),
        Some(labels) => {
            let next = compared_row(alloc, context, labels)?;
            row_behind(rows, next)
        }
    }
}

/// The labels of all items, compared so.
fn compared_rows(
    alloc: Global,
    context: Context,
    rows: Seq<Labels>,
) -> Result<Hoisted<Seq<Seq<FlatExpr>>>, Refusal>
    ensures ok { IfOk result (λ all. all ≡ heads.all_compared context rows) }
    ensures err { IfErr result (λ e. e ≡ Memory) }
{
    let mut all = pure(alloc, Seq::new(alloc));
    for row in rows.into_vec() {
        all = and_compared(alloc, context, all, row)?;
    }
    Ok(all)
}

// ---- the whole

/// The subject and the labels, all compared alike.
pub fn heads_of(alloc: Global, subject: Typed, rows: Seq<Labels>) -> Result<Hoisted<Heads>, Refusal>
    ensures ok { IfOk result (λ h. h ≡ cases.heads_of subject rows) }
    ensures err { IfErr result (λ e. e ≡ Memory) }
{
    let context = with_rows(context_of(&subject.ty), rows.as_slice());
    let first = compared_as(alloc, context, subject)?;
    let labels = compared_rows(alloc, context, rows)?;
    paired(first, labels)
}

/// E42, E15: what a `case` can be on.
fn may_be_subject(at: Place, t: Typed) -> Result<Typed, Refusal>
    ensures { Gives result (cases.may_be_subject at t) }
{
    let x = one_item(t)?;
    if x.ty.is_integral() || x.ty.is_text() || x.ty.is_reference() {
        Ok(x)
    } else {
        Err(Refusal::Rule { rule: 15, at })
    }
}

/// The same, where it breaks no rule before.
pub fn subject_in(at: Place, value: Checked<Typed>) -> Result<Checked<Typed>, Refusal>
    ensures ok { IfOk result (λ c. c ≡ (value ▷ cases.may_be_subject at)) }
    ensures err { IfErr result (λ e. e ≡ Memory) }
{
    match value {
        Checked::Good(t) => judged(may_be_subject(at, t)),
        Checked::Broken(f) => Ok(Checked::Broken(f)),
    }
}

/// The type of the subject, where it breaks no rule.
pub fn subject_type(alloc: Global, subject: &Checked<Typed>) -> Result<Option<Ty>, Refusal>
    ensures ok { IfOk result (λ t. t ≡ cases.subject_type subject.now) }
    ensures err { IfErr result (λ e. e ≡ Memory) }
{
    match subject {
        Checked::Good(t) => {
            let ty = t.ty.copy(alloc)?;
            Ok(Some(ty))
        }
        Checked::Broken(_) => Ok(None),
    }
}
