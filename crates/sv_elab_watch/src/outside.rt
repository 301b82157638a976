// Operands as they are seen from outside of activations (IEEE 1800-2017, 9.4.2.2).
ghost use Rattle.std.specs.Prelude.{◌≡◌, [], IfOk, OnOk, if◌then◌else◌};
ghost use Rattle.sv_flat.specs.ExprView.{of_form};
ghost use Rattle.sv_flat.specs.Names.{optional};
ghost use Rattle.sv_names.specs.Watched as watched;
ghost use Rattle.sv_elab_watch.specs.Reading.{Added, up_outside};

use std::alloc::Global;
use sv_elab_copies::copy_expr;
use sv_flat::{DataType, Expr, ExprForm};
use sv_value::{NoMemory, Plain, Seq};

/// The expression of a form.
pub(crate) fn made(alloc: Global, form: ExprForm) -> Result<Expr, NoMemory>
    ensures { IfOk result (λ e. e ≡ of_form form) }
{
    Ok(Expr::new(alloc, form)?)
}

/// Whether an index is constant.
pub(crate) fn is_literal(e: &Expr) -> bool
    ensures { result ≡ watched.is_literal e.now }
{
    match &*e.form {
        ExprForm::Literal { .. } => true,
        _ => false,
    }
}

/// Whether all selects of a name are constant.
pub(crate) fn is_steady(e: &Expr) -> bool
    ensures { result ≡ watched.is_steady e.now }
{
    match &*e.form {
        ExprForm::Object { .. } => true,
        ExprForm::Local { .. } => true,
        ExprForm::Element { index, .. } => is_literal(index),
        ExprForm::LocalElement { index, .. } => is_literal(index),
        ExprForm::Select { base, index, .. } => is_steady(base) && is_literal(index),
        _ => false,
    }
}

/// An event does not change.
fn is_event_type(ty: DataType) -> bool
    ensures { result ≡ watched.is_event_type ty }
{
    match ty {
        DataType::Plain(plain) => match plain {
            Plain::Event => true,
            _ => false,
        },
        _ => false,
    }
}

/// By how many levels an activation is further out than so many, where it is.
pub(crate) fn up_outside(depth: u128, up: u32) -> Option<u32>
    ensures { result ≡ up_outside depth up }
{
    let up = up as u128;
    if up < depth {
        None
    } else {
        Some((up - depth) as u32)
    }
}

/// An operand as it is seen from outside of so many activations; none where it stands in them.
#[tactic(auto, using(crate::proofs::OutsideLaws::local_inside, crate::proofs::OutsideLaws::local_outside, crate::proofs::OutsideLaws::element_inside, crate::proofs::OutsideLaws::element_outside, crate::proofs::OutsideLaws::select_inside, crate::proofs::OutsideLaws::select_outside))]
fn seen_outside(alloc: Global, depth: u128, e: &Expr) -> Result<Option<Expr>, NoMemory>
    ensures { IfOk result (λ o. optional o ≡ watched.from_outside depth e.now) }
{
    match &*e.form {
        ExprForm::Local { up, place, ty } => match up_outside(depth, *up) {
            None => Ok(None),
            Some(up) => {
                let (place, ty) = (*place, *ty);
                let seen = made(alloc, ExprForm::Local { up, place, ty })?;
                Ok(Some(seen))
            }
        },
        ExprForm::LocalElement {
            up,
            place,
            bounds,
            ty,
            index,
        } => match up_outside(depth, *up) {
            None => Ok(None),
            Some(up) => {
                let index = copy_expr(alloc, index)?;
                let seen = made(
                    alloc,
                    ExprForm::LocalElement {
                        up,
                        place: *place,
                        bounds: *bounds,
                        ty: *ty,
                        index,
                    },
                )?;
                Ok(Some(seen))
            }
        },
        ExprForm::Select {
            width,
            offset,
            is_falling,
            outside: symbol,
            base,
            index,
        } => {
            let base = seen_outside(alloc, depth, base)?;
            match base {
                None => Ok(None),
                Some(base) => {
                    let index = copy_expr(alloc, index)?;
                    let seen = made(
                        alloc,
                        ExprForm::Select {
                            width: *width,
                            offset: *offset,
                            is_falling: *is_falling,
                            outside: *symbol,
                            base,
                            index,
                        },
                    )?;
                    Ok(Some(seen))
                }
            }
        }
        _ => {
            let same = copy_expr(alloc, e)?;
            Ok(Some(same))
        }
    }
}

/// Appends an operand as it is seen from outside of so many activations.
#[tactic(auto, using(crate::proofs::OutsideLaws::put_none, crate::proofs::OutsideLaws::put_one))]
pub(crate) fn add_outside(
    alloc: Global,
    depth: u128,
    e: &Expr,
    list: &mut Seq<Expr>,
) -> Result<(), NoMemory>
    ensures { OnOk result (Added list.old list.new (watched.from_outside depth e.now)) }
{
    let seen = seen_outside(alloc, depth, e)?;
    match seen {
        None => Ok(()),
        Some(operand) => list.push(operand),
    }
}

/// Appends a variable of this type, where it is no event.
#[tactic(auto, using(crate::proofs::ReadLaws::added_none))]
pub(crate) fn add_variable(
    alloc: Global,
    depth: u128,
    ty: DataType,
    e: &Expr,
    list: &mut Seq<Expr>,
) -> Result<(), NoMemory>
    ensures { OnOk result (Added list.old list.new (if watched.is_event_type ty then [] else watched.from_outside depth e.now)) }
{
    if is_event_type(ty) {
        return Ok(());
    }
    add_outside(alloc, depth, e, list)
}
