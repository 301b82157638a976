// Expressions of the flat design in memory of their own. The time is linear in their size.
ghost use Rattle.std.specs.Prelude.{◌≡◌, IfOk};
ghost use Rattle.sv_flat.specs.ExprView.{of_form};

use std::alloc::Global;
use sv_flat::{Expr, ExprForm, NamedItem};
use sv_value::{NoMemory, Seq};

/// The expression of a form.
fn made(alloc: Global, form: ExprForm) -> Result<Expr, NoMemory>
    ensures { IfOk result (λ e. e ≡ of_form form) }
{
    Ok(Expr::new(alloc, form)?)
}

/// The same items, in memory of their own.
fn copy_items(alloc: Global, items: &[NamedItem]) -> Result<Seq<NamedItem>, NoMemory>
    ensures { IfOk result (λ is. is ≡ items.now) }
{
    let mut copy = Seq::new(alloc);
    for item in items {
        let name = item.name.copy(alloc)?;
        copy.push(NamedItem {
            value: item.value,
            name,
        })?;
    }
    Ok(copy)
}

/// The same expression, in memory of its own.
pub fn copy_expr(alloc: Global, e: &Expr) -> Result<Expr, NoMemory>
    ensures { IfOk result (λ c. c ≡ e.now) }
{
    match &*e.form {
        ExprForm::Literal { value, fill } => {
            made(
                alloc,
                ExprForm::Literal {
                    value: *value,
                    fill: *fill,
                },
            )
        }
        ExprForm::Text { bytes } => {
            let bytes = bytes.copy(alloc)?;
            made(alloc, ExprForm::Text { bytes })
        }
        ExprForm::Handle { key } => { made(alloc, ExprForm::Handle { key: *key }) }
        ExprForm::Object { at, object, ty } => {
            made(
                alloc,
                ExprForm::Object {
                    at: *at,
                    object: *object,
                    ty: *ty,
                },
            )
        }
        ExprForm::Element {
            at,
            object,
            bounds,
            ty,
            index,
        } => {
            let index = copy_expr(alloc, index)?;
            made(
                alloc,
                ExprForm::Element {
                    at: *at,
                    object: *object,
                    bounds: *bounds,
                    ty: *ty,
                    index,
                },
            )
        }
        ExprForm::Local { up, place, ty } => {
            made(
                alloc,
                ExprForm::Local {
                    up: *up,
                    place: *place,
                    ty: *ty,
                },
            )
        }
        ExprForm::LocalElement {
            up,
            place,
            bounds,
            ty,
            index,
        } => {
            let index = copy_expr(alloc, index)?;
            made(
                alloc,
                ExprForm::LocalElement {
                    up: *up,
                    place: *place,
                    bounds: *bounds,
                    ty: *ty,
                    index,
                },
            )
        }
        ExprForm::Field { place, ty, object } => {
            let object = copy_expr(alloc, object)?;
            made(
                alloc,
                ExprForm::Field {
                    place: *place,
                    ty: *ty,
                    object,
                },
            )
        }
        ExprForm::FieldElement {
            place,
            bounds,
            ty,
            object,
            index,
        } => {
            let object = copy_expr(alloc, object)?;
            let index = copy_expr(alloc, index)?;
            made(
                alloc,
                ExprForm::FieldElement {
                    place: *place,
                    bounds: *bounds,
                    ty: *ty,
                    object,
                    index,
                },
            )
        }
        ExprForm::Static { reference, member } => {
            let reference = copy_expr(alloc, reference)?;
            let member = copy_expr(alloc, member)?;
            made(alloc, ExprForm::Static { reference, member })
        }
        ExprForm::Item {
            property,
            ty,
            container,
            index,
        } => {
            let container = copy_expr(alloc, container)?;
            let index = copy_expr(alloc, index)?;
            made(
                alloc,
                ExprForm::Item {
                    property: *property,
                    ty: *ty,
                    container,
                    index,
                },
            )
        }
        ExprForm::Select {
            width,
            offset,
            is_falling,
            outside,
            base,
            index,
        } => {
            let base = copy_expr(alloc, base)?;
            let index = copy_expr(alloc, index)?;
            made(
                alloc,
                ExprForm::Select {
                    width: *width,
                    offset: *offset,
                    is_falling: *is_falling,
                    outside: *outside,
                    base,
                    index,
                },
            )
        }
        ExprForm::Unary { op, operand } => {
            let operand = copy_expr(alloc, operand)?;
            made(alloc, ExprForm::Unary { op: *op, operand })
        }
        ExprForm::Binary { op, left, right } => {
            let left = copy_expr(alloc, left)?;
            let right = copy_expr(alloc, right)?;
            made(
                alloc,
                ExprForm::Binary {
                    op: *op,
                    left,
                    right,
                },
            )
        }
        ExprForm::Choose { condition, yes, no } => {
            let condition = copy_expr(alloc, condition)?;
            let yes = copy_expr(alloc, yes)?;
            let no = copy_expr(alloc, no)?;
            made(alloc, ExprForm::Choose { condition, yes, no })
        }
        ExprForm::Join { high, low } => {
            let high = copy_expr(alloc, high)?;
            let low = copy_expr(alloc, low)?;
            made(alloc, ExprForm::Join { high, low })
        }
        ExprForm::Repeat { count, part } => {
            let part = copy_expr(alloc, part)?;
            made(
                alloc,
                ExprForm::Repeat {
                    count: *count,
                    part,
                },
            )
        }
        ExprForm::Convert { to, operand } => {
            let operand = copy_expr(alloc, operand)?;
            made(alloc, ExprForm::Convert { to: *to, operand })
        }
        ExprForm::Widen {
            width,
            signed,
            operand,
        } => {
            let operand = copy_expr(alloc, operand)?;
            made(
                alloc,
                ExprForm::Widen {
                    width: *width,
                    signed: *signed,
                    operand,
                },
            )
        }
        ExprForm::Time { at } => { made(alloc, ExprForm::Time { at: *at }) }
        ExprForm::Size {
            property,
            container,
        } => {
            let container = copy_expr(alloc, container)?;
            made(
                alloc,
                ExprForm::Size {
                    property: *property,
                    container,
                },
            )
        }
        ExprForm::Messages { mailbox } => {
            let mailbox = copy_expr(alloc, mailbox)?;
            made(alloc, ExprForm::Messages { mailbox })
        }
        ExprForm::Exists {
            property,
            container,
            index,
        } => {
            let container = copy_expr(alloc, container)?;
            let index = copy_expr(alloc, index)?;
            made(
                alloc,
                ExprForm::Exists {
                    property: *property,
                    container,
                    index,
                },
            )
        }
        ExprForm::Length { text } => {
            let text = copy_expr(alloc, text)?;
            made(alloc, ExprForm::Length { text })
        }
        ExprForm::Triggered { event } => {
            let event = copy_expr(alloc, event)?;
            made(alloc, ExprForm::Triggered { event })
        }
        ExprForm::Log2 { operand } => {
            let operand = copy_expr(alloc, operand)?;
            made(alloc, ExprForm::Log2 { operand })
        }
        ExprForm::Name { items, operand } => {
            let items = copy_items(alloc, items.as_slice())?;
            let operand = copy_expr(alloc, operand)?;
            made(alloc, ExprForm::Name { items, operand })
        }
        ExprForm::Printed {
            field,
            pad,
            operand,
        } => {
            let operand = copy_expr(alloc, operand)?;
            made(
                alloc,
                ExprForm::Printed {
                    field: *field,
                    pad: *pad,
                    operand,
                },
            )
        }
    }
}

/// The same expression, where there is one, in memory of its own.
pub fn copy_optional(alloc: Global, e: &Option<Expr>) -> Result<Option<Expr>, NoMemory>
    ensures { IfOk result (λ o. o ≡ e.now) }
{
    match e {
        None => Ok(None),
        Some(e) => {
            let e = copy_expr(alloc, e)?;
            Ok(Some(e))
        }
    }
}
