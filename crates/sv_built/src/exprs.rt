// Whether expressions are built: what reads objects and the variables of activations, and not the heap.
ghost use Rattle.std.specs.Prelude.{◌↔◌, IsTrue};
ghost use Rattle.std.specs.List.{AllByRecursion};
ghost use Rattle.sv_flat.specs.Contexts.{IsWidth};
ghost use Rattle.sv_built.specs.Built.{IsBuiltPlain, IsBuiltType, IsBuiltExpr, IsBuiltOptional};

use sv_flat::{DataType, Expr, ExprForm};
use sv_value::{Plain, WIDEST};

/// Whether a vector may be so wide.
fn is_width(width: u32) -> bool
    ensures { IsTrue result ↔ IsWidth width }
{
    1 <= width && width <= WIDEST
}

fn is_built_plain(ty: Plain) -> bool
    ensures { IsTrue result ↔ IsBuiltPlain ty }
{
    match ty {
        Plain::Integral(t) => is_width(t.width),
        Plain::Text => true,
        _ => false,
    }
}

/// Whether a type is one of vectors or strings.
pub fn is_built_type(ty: DataType) -> bool
    ensures { IsTrue result ↔ IsBuiltType ty }
{
    match ty {
        DataType::Plain(t) => is_built_plain(t),
        _ => false,
    }
}

/// Whether all of these are built.
pub fn are_built_exprs(exprs: &[Expr]) -> bool
    ensures { IsTrue result ↔ AllByRecursion IsBuiltExpr exprs.now }
{
    for expr in exprs {
        if !is_built_expr(expr) {
            return false;
        }
    }
    true
}

/// Whether an expression that may be missing is built.
pub fn is_built_optional(expr: &Option<Expr>) -> bool
    ensures { IsTrue result ↔ IsBuiltOptional expr.now }
{
    match expr {
        None => true,
        Some(expr) => is_built_expr(expr),
    }
}

/// Whether an expression has only forms that are built.
pub fn is_built_expr(expr: &Expr) -> bool
    ensures { IsTrue result ↔ IsBuiltExpr expr.now }
{
    match &*expr.form {
        ExprForm::Literal { .. } => true,
        ExprForm::Text { .. } => true,
        ExprForm::Time { .. } => true,
        ExprForm::Object { ty, .. } => is_built_type(*ty),
        ExprForm::Element { index, .. } => is_built_expr(index),
        ExprForm::Local { ty, .. } => is_built_type(*ty),
        ExprForm::LocalElement { index, .. } => is_built_expr(index),
        ExprForm::Select { base, index, .. } => is_built_expr(base) && is_built_expr(index),
        ExprForm::Unary { operand, .. } => is_built_expr(operand),
        ExprForm::Binary { left, right, .. } => is_built_expr(left) && is_built_expr(right),
        ExprForm::Choose { condition, yes, no } => {
            is_built_expr(condition) && is_built_expr(yes) && is_built_expr(no)
        }
        ExprForm::Join { high, low } => is_built_expr(high) && is_built_expr(low),
        ExprForm::Repeat { part, .. } => is_built_expr(part),
        ExprForm::Convert { operand, .. } => is_built_expr(operand),
        ExprForm::Widen { operand, .. } => is_built_expr(operand),
        ExprForm::Length { text } => is_built_expr(text),
        ExprForm::Log2 { operand } => is_built_expr(operand),
        ExprForm::Name { operand, .. } => is_built_expr(operand),
        ExprForm::Printed { operand, .. } => is_built_expr(operand),
        _ => false,
    }
}
