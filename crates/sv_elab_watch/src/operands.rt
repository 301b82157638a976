// What expressions read (IEEE 1800-2017, 9.4.2.2).
ghost use Rattle.std.specs.Prelude.{OnOk};
ghost use Rattle.sv_flat.specs.Names.{optional};
ghost use Rattle.std.specs.Prelude.{[], ◌∷◌};
ghost use Rattle.sv_names.specs.Watched as watched;
ghost use Rattle.sv_elab_watch.specs.Reading.{Added, Read};

use crate::arrays::{Array, add_array, add_array_outside};
use crate::outside::{add_outside, add_variable, is_literal, is_steady};
use std::alloc::Global;
use sv_flat::{Expr, ExprForm};
use sv_value::{NoMemory, Seq};

/// Appends what an expression reads, as it is seen from outside of so many activations.
#[tactic(auto, using(crate::proofs::ReadLaws::added_none, crate::proofs::ReadLaws::added_both))]
pub(crate) fn add_expr(
    alloc: Global,
    depth: u128,
    e: &Expr,
    list: &mut Seq<Expr>,
) -> Result<(), NoMemory>
    ensures { OnOk result (Added list.old list.new (watched.operands depth e.now)) }
{
    match &*e.form {
        ExprForm::Object { ty, .. } => add_variable(alloc, depth, *ty, e, list),
        ExprForm::Local { ty, .. } => add_variable(alloc, depth, *ty, e, list),
        ExprForm::Element {
            at,
            object,
            bounds,
            ty,
            index,
        } => {
            if is_literal(index) {
                return add_outside(alloc, depth, e, list);
            }
            let array = Array::Object {
                at: *at,
                object: *object,
                bounds: *bounds,
                ty: *ty,
            };
            add_array(alloc, array, *bounds, list)?;
            add_expr(alloc, depth, index, list)
        }
        ExprForm::LocalElement {
            up,
            place,
            bounds,
            ty,
            index,
        } => {
            if is_literal(index) {
                return add_outside(alloc, depth, e, list);
            }
            add_array_outside(alloc, depth, *up, *place, *bounds, *ty, list)?;
            add_expr(alloc, depth, index, list)
        }
        ExprForm::Select { base, index, .. } => {
            if is_steady(base) && is_literal(index) {
                return add_outside(alloc, depth, e, list);
            }
            add_expr(alloc, depth, base, list)?;
            add_expr(alloc, depth, index, list)
        }
        ExprForm::FieldElement { object, index, .. } => {
            add_expr(alloc, depth, object, list)?;
            add_expr(alloc, depth, index, list)
        }
        ExprForm::Item {
            container,
            index,
            ..
        } => {
            add_expr(alloc, depth, container, list)?;
            add_expr(alloc, depth, index, list)
        }
        ExprForm::Exists {
            container,
            index,
            ..
        } => {
            add_expr(alloc, depth, container, list)?;
            add_expr(alloc, depth, index, list)
        }
        ExprForm::Binary { left, right, .. } => {
            add_expr(alloc, depth, left, list)?;
            add_expr(alloc, depth, right, list)
        }
        ExprForm::Join { high, low } => {
            add_expr(alloc, depth, high, list)?;
            add_expr(alloc, depth, low, list)
        }
        ExprForm::Choose { condition, yes, no } => {
            add_expr(alloc, depth, condition, list)?;
            add_expr(alloc, depth, yes, list)?;
            add_expr(alloc, depth, no, list)
        }
        ExprForm::Field { object, .. } => add_expr(alloc, depth, object, list),
        ExprForm::Static { reference, .. } => add_expr(alloc, depth, reference, list),
        ExprForm::Unary { operand, .. } => add_expr(alloc, depth, operand, list),
        ExprForm::Repeat { part, .. } => add_expr(alloc, depth, part, list),
        ExprForm::Convert { operand, .. } => add_expr(alloc, depth, operand, list),
        ExprForm::Widen { operand, .. } => add_expr(alloc, depth, operand, list),
        ExprForm::Size { container, .. } => add_expr(alloc, depth, container, list),
        ExprForm::Messages { mailbox } => add_expr(alloc, depth, mailbox, list),
        ExprForm::Length { text } => add_expr(alloc, depth, text, list),
        ExprForm::Triggered { event } => add_expr(alloc, depth, event, list),
        ExprForm::Log2 { operand } => add_expr(alloc, depth, operand, list),
        ExprForm::Name { operand, .. } => add_expr(alloc, depth, operand, list),
        ExprForm::Printed { operand, .. } => add_expr(alloc, depth, operand, list),
        ExprForm::Literal { .. } | ExprForm::Text { .. } => Ok(()),
        ExprForm::Handle { .. } | ExprForm::Time { .. } => Ok(()),
    }
}

/// Appends what the only expression of a part reads.
#[tactic(auto, using(crate::proofs::ReadLaws::added_last))]
pub(crate) fn add_one(
    alloc: Global,
    depth: u128,
    e: &Expr,
    list: &mut Seq<Expr>,
) -> Result<(), NoMemory>
    ensures { OnOk result (Read depth list.old list.new (e.now ∷ [])) }
{
    add_expr(alloc, depth, e, list)
}

/// Appends what two expressions read.
#[tactic(auto, using(crate::proofs::ReadLaws::added_both))]
pub(crate) fn add_two(
    alloc: Global,
    depth: u128,
    a: &Expr,
    b: &Expr,
    list: &mut Seq<Expr>,
) -> Result<(), NoMemory>
    ensures { OnOk result (Read depth list.old list.new (a.now ∷ b.now ∷ [])) }
{
    add_expr(alloc, depth, a, list)?;
    add_one(alloc, depth, b, list)
}

/// Appends what an expression reads, where there is one.
#[tactic(auto, using(crate::proofs::ReadLaws::added_none))]
pub(crate) fn add_optional(
    alloc: Global,
    depth: u128,
    e: &Option<Expr>,
    list: &mut Seq<Expr>,
) -> Result<(), NoMemory>
    ensures { OnOk result (Read depth list.old list.new (optional e.now)) }
{
    match e {
        None => Ok(()),
        Some(e) => add_one(alloc, depth, e, list),
    }
}

/// Appends what expressions read.
#[tactic(auto, using(crate::proofs::ReadLaws::turn_added, crate::proofs::ReadLaws::all_added))]
pub(crate) fn add_all(
    alloc: Global,
    depth: u128,
    items: &[Expr],
    list: &mut Seq<Expr>,
) -> Result<(), NoMemory>
    ensures { OnOk result (Read depth list.old list.new items.now) }
{
    let mut left = items;
    while let [one, rest @ ..] = left {
        add_expr(alloc, depth, one, list)?;
        left = rest;
    }
    Ok(())
}
