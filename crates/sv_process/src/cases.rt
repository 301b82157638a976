// `case`, `casez` and `casex` (IEEE 1800-2017, 12.5).
ghost use Rattle.std.specs.Prelude.{◌≡◌, ◌++◌, [], drop, IfOk};
ghost use Rattle.sv_value.specs.declared.operator.BinOp.TheVariants as bin;
ghost use Rattle.sv_value.specs.declared.val.Val.TheVariants as val;
ghost use Rattle.sv_value.specs.Operators as vectors;
ghost use Rattle.sv_flat.specs.Eval as eval;
ghost use Rattle.sv_flat.specs.Process.{optional_body_in};
ghost use Rattle.sv_flat.specs.Statements.Matching.{matches, any_label, chosen_item};
ghost use Rattle.sv_flat.specs.Statements.Shared.{goes_on, value_in, from_result};
ghost use Rattle.sv_assign.specs.Places.{Answers};
ghost use Rattle.sv_stack.specs.Frames.{todos_of};
ghost use Rattle.sv_stack.specs.Effects.{Does, IsKept};

use crate::branches::enter_optional;
use std::alloc::Global;
use sv_arena::Name;
use sv_arith::case_matches;
use sv_built::Design;
use sv_eval::{Stopped, Values, value};
use sv_flat::{CaseItem, Expr};
use sv_stack::{Effect, Frames, pass};
use sv_value::{Bits, CaseKind, NoMemory, RoutineId, Val};

/// Whether a vector matches. Memory is wanting for vectors of two widths, which no elaborated design has.
fn vectors_match(kind: CaseKind, a: Bits, b: Bits) -> Result<bool, NoMemory>
    ensures { IfOk result (λ hit. hit ≡ vectors.case_matches kind a b) }
{
    if a.width() == b.width() {
        Ok(case_matches(kind, a, b))
    } else {
        Err(NoMemory::Memory)
    }
}

/// Whether texts are equal.
#[tactic(auto, using(crate::proofs::CaseLemmas::same_texts))]
fn texts_match(a: &[u8], b: &[u8]) -> bool
    ensures { result ≡ vectors.is_true (eval.compared bin.Equal (val.Text a.now) (val.Text b.now)) }
{
    a == b
}

/// Whether a label matches. Memory is wanting for what is no vector and no text.
fn label_matches(kind: CaseKind, x: &Val, y: &Val) -> Result<bool, NoMemory>
    ensures { IfOk result (λ hit. hit ≡ matches kind x.now y.now) }
{
    match x {
        Val::Bits(a) => match y {
            Val::Bits(b) => vectors_match(kind, *a, *b),
            _ => Err(NoMemory::Memory),
        },
        Val::Text(a) => match y {
            Val::Text(b) => Ok(texts_match(a.bytes(), b.bytes())),
            _ => Err(NoMemory::Memory),
        },
        _ => Err(NoMemory::Memory),
    }
}

/// Whether a label of an item matches.
#[tactic(auto, using(crate::proofs::CaseLemmas::label_hit, crate::proofs::CaseLemmas::label_passed, crate::proofs::CaseLemmas::label_fault, crate::proofs::CaseLemmas::no_label))]
fn some_label<V: Values>(
    alloc: Global,
    values: &V,
    kind: CaseKind,
    x: &Val,
    labels: &[Expr],
) -> Result<bool, Stopped>
    ensures { Answers (λ hit. hit) result (any_label kind x.now labels.now (V.view values.now)) }
{
    for label in labels {
        let y = value(alloc, values, label)?;
        if label_matches(kind, x, &y)? {
            return Ok(true);
        }
    }
    Ok(false)
}

/// Whether an item matches.
fn item_matches<V: Values>(
    alloc: Global,
    values: &V,
    kind: CaseKind,
    x: &Val,
    item: &CaseItem,
) -> Result<bool, Stopped>
    ensures { Answers (λ hit. hit) result (any_label kind x.now item.now.labels (V.view values.now)) }
{
    some_label(alloc, values, kind, x, item.labels.as_slice())
}

/// The routine of the first item that matches, or the default.
#[tactic(auto, using(crate::proofs::CaseLemmas::item_hit, crate::proofs::CaseLemmas::item_passed, crate::proofs::CaseLemmas::item_fault, crate::proofs::CaseLemmas::no_item))]
fn chosen<V: Values>(
    alloc: Global,
    values: &V,
    kind: CaseKind,
    x: &Val,
    items: &[CaseItem],
    default: Option<RoutineId>,
) -> Result<Option<RoutineId>, Stopped>
    ensures { Answers (λ r. r) result (chosen_item kind x.now items.now default (V.view values.now)) }
{
    for item in items {
        if item_matches(alloc, values, kind, x, item)? {
            return Ok(Some(item.body));
        }
    }
    Ok(default)
}

/// A `case`.
#[tactic(auto, using(crate::proofs::CaseLemmas::case_is, crate::proofs::CaseLemmas::case_no_value, crate::proofs::CaseLemmas::case_no_label))]
pub fn run_case<V: Values>(
    frames: &mut Frames,
    alloc: Global,
    design: &Design,
    values: &V,
    out: &mut Vec<Effect>,
    kind: CaseKind,
    subject: &Expr,
    items: &[CaseItem],
    default: Option<RoutineId>,
    scope: Option<Name>,
) -> Result<(), Stopped>
    requires { out.old.items ≡ [] }
    ensures does { Does design.now result frames.new out.new.items (value_in subject.now (V.view values.now) (λ x.
        from_result (chosen_item kind x items.now default (V.view values.now))
        (λ r. goes_on (optional_body_in design.now r scope ++ drop 1 (todos_of design.now frames.old)) []))) }
    ensures kept { IsKept result frames.old frames.new }
{
    let x = value(alloc, values, subject)?;
    let routine = chosen(alloc, values, kind, &x, items, default)?;
    frames.leave_first(design)?;
    enter_optional(frames, design, routine, scope)?;
    pass(frames, design, out)?;
    Ok(())
}
