// Constants, folded to literals of their values (IEEE 1800-2017, 11.2.1).
ghost use Rattle.std.specs.Prelude.{◌≡◌, None, IfOk, IfErr};
ghost use Rattle.sv_flat.specs.Expr as flat;
ghost use Rattle.sv_flat.specs.Eval as eval;
ghost use Rattle.sv_names.specs.declared.refusal.Refusal.TheVariants.{Memory};
ghost use Rattle.sv_names.specs.Values as values;
ghost use Rattle.sv_elab_value.specs.Constants.{number_literal, text_literal as text_literal_of};

use crate::constants::{allocator_of, constant_value};
use crate::parts::{code_of, expr_of};
use std::alloc::Global;
use sv_eval::{Stopped, text_in, vector_in};
use sv_flat::{Expr, ExprForm};
use sv_names::{Hoisted, Refusal, Ty, Typed};
use sv_value::{Bits, Sym, Text};

/// The bits of a constant number; x where it has no value.
pub fn bits_of(e: &Expr) -> Result<Bits, Refusal>
    ensures ok { IfOk result (λ x. x ≡ values.vector_of (eval.value_of e.now values.nowhere)) }
    ensures err { IfErr result (λ e. e ≡ Memory) }
{
    match constant_value(allocator_of(e), e) {
        Ok(value) => Ok(vector_in(&value)),
        Err(Stopped::Fault(_)) => Ok(Bits::one_bit(Sym::X)),
        Err(Stopped::Memory) => Err(Refusal::Memory),
    }
}

/// A literal of these bits.
fn literal(alloc: Global, value: Bits) -> Result<Expr, Refusal>
    ensures ok { IfOk result (λ e. e ≡ flat.Literal value None) }
    ensures err { IfErr result (λ e. e ≡ Memory) }
{
    expr_of(alloc, ExprForm::Literal { value, fill: None })
}

/// A constant number as a literal; one that has no value stays as it is.
fn folded_number(alloc: Global, e: Expr) -> Result<Expr, Refusal>
    ensures ok { IfOk result (λ x. x ≡ number_literal (eval.value_of e values.nowhere) e) }
    ensures err { IfErr result (λ e. e ≡ Memory) }
{
    match constant_value(alloc, &e) {
        Ok(value) => literal(alloc, vector_in(&value)),
        Err(Stopped::Fault(_)) => Ok(e),
        Err(Stopped::Memory) => Err(Refusal::Memory),
    }
}

/// A string literal of these bytes.
fn text_literal(alloc: Global, text: &[u8]) -> Result<Expr, Refusal>
    ensures ok { IfOk result (λ e. e ≡ flat.Text text.now) }
    ensures err { IfErr result (λ e. e ≡ Memory) }
{
    let mut bytes = Text::new(alloc);
    bytes.push_all(text)?;
    expr_of(alloc, ExprForm::Text { bytes })
}

/// A constant string as a literal; one that has no value stays as it is.
fn folded_text(alloc: Global, e: Expr) -> Result<Expr, Refusal>
    ensures ok { IfOk result (λ x. x ≡ text_literal_of (eval.value_of e values.nowhere) e) }
    ensures err { IfErr result (λ e. e ≡ Memory) }
{
    match constant_value(alloc, &e) {
        Ok(value) => text_literal(alloc, text_in(&value)),
        Err(Stopped::Fault(_)) => Ok(e),
        Err(Stopped::Memory) => Err(Refusal::Memory),
    }
}

/// A constant of a type as a literal of its value.
fn literal_of(alloc: Global, ty: &Ty, e: Expr) -> Result<Expr, Refusal>
    ensures ok { IfOk result (λ x. x ≡ values.literal_of ty.now e) }
    ensures err { IfErr result (λ e. e ≡ Memory) }
{
    match ty {
        Ty::Vector { .. } => folded_number(alloc, e),
        Ty::Enum { .. } => folded_number(alloc, e),
        Ty::Text => folded_text(alloc, e),
        _ => Ok(e),
    }
}

/// A constant in a context of its own; what is not constant stays.
pub fn folded(
    alloc: Global,
    is_constant: bool,
    ty: &Ty,
    code: Hoisted<Expr>,
) -> Result<Hoisted<Expr>, Refusal>
    ensures ok { IfOk result (λ c. c ≡ values.folded is_constant ty.now code) }
    ensures err { IfErr result (λ e. e ≡ Memory) }
{
    if !is_constant {
        return Ok(code);
    }
    let value = literal_of(alloc, ty, code.value)?;
    Ok(Hoisted {
        hidden: code.hidden,
        calls: code.calls,
        value,
    })
}

/// An expression that stands alone.
pub fn alone(alloc: Global, t: Typed) -> Result<Hoisted<Expr>, Refusal>
    ensures ok { IfOk result (λ c. c ≡ values.alone t) }
    ensures err { IfErr result (λ e. e ≡ Memory) }
{
    let ty = t.ty.copy(alloc)?;
    let is_constant = t.is_constant;
    folded(alloc, is_constant, &ty, code_of(t))
}
