// Constant numbers, and values for targets (IEEE 1800-2017, 6.22, 10.8 and 11.2.1): E11 to E13, E16, E17, E42.
ghost use Rattle.std.specs.Prelude.{◌≡◌, ◌-◌, ◌^◌, ◌≤ℤ◌, pos, IfOk, IfErr, IfSome};
ghost use Rattle.sv_flat.specs.Expr as flat;
ghost use Rattle.sv_flat.specs.Eval as eval;
ghost use Rattle.sv_names.specs.declared.checked.Checked.{Checked as checked};
ghost use Rattle.sv_names.specs.declared.typed.Typed.{Typed as typed};
ghost use Rattle.sv_names.specs.Checked.{◌▷◌};
ghost use Rattle.sv_names.specs.declared.refusal.Refusal.TheVariants.{Memory};
ghost use Rattle.sv_names.specs.Hoisted as hoisted;
ghost use Rattle.sv_names.specs.Values as values;
ghost use Rattle.sv_names.specs.Given.{Gives, GivesAs};

use crate::folding::{alone, bits_of, folded};
use crate::parts::{code_of, expr_of};
use std::alloc::Global;
use sv_eval::known_index;
use sv_flat::{Expr, ExprForm};
use sv_names::{Hoisted, Refusal, Ty, Typed};
use sv_value::{Place, WIDEST};

// ---- constant numbers

/// E11: a constant.
pub fn constant(at: Place, t: Typed) -> Result<Typed, Refusal>
    ensures { Gives result (values.constant at t) }
{
    if t.is_constant {
        Ok(t)
    } else {
        Err(Refusal::Rule { rule: 11, at })
    }
}

/// E12: a known number.
fn known_or(rule: u8, at: Place, number: Option<i128>) -> Result<i128, Refusal>
    requires { IfSome number (λ n. n ≤ℤ pos (2 ^ 64 - 1)) }
    ensures gives { Gives result (values.known_or rule at number) }
    ensures small { IfOk result (λ n. n ≤ℤ pos (2 ^ 64 - 1)) }
{
    match number {
        None => Err(Refusal::Rule { rule, at }),
        Some(n) => Ok(n),
    }
}

/// E12: the known number of a constant.
fn number_of(at: Place, t: &Typed) -> Result<i128, Refusal>
    ensures gives { Gives result (values.known_or 12 at (eval.known_index (values.constant_vector t.now))) }
    ensures small { IfOk result (λ n. n ≤ℤ pos (2 ^ 64 - 1)) }
{
    let value = bits_of(&t.code.value)?;
    known_or(12, at, known_index(value))
}

/// E11, E15, E12: an expression that must be a constant number, which has 64 bits.
pub fn constant_number(at: Place, t: &Typed) -> Result<i128, Refusal>
    ensures gives { Gives result (values.constant_number at t.now) }
    ensures small { IfOk result (λ n. n ≤ℤ pos (2 ^ 64 - 1)) }
{
    if !t.is_constant {
        return Err(Refusal::Rule { rule: 11, at });
    }
    if !t.ty.is_integral() {
        return Err(Refusal::Rule { rule: 15, at });
    }
    number_of(at, t)
}

/// E12: a number of at least 1.
fn count_from(at: Place, number: i128) -> Result<u64, Refusal>
    requires { number ≤ℤ pos (2 ^ 64 - 1) }
    ensures { Gives result (values.count_from at number) }
{
    if number < 1 {
        return Err(Refusal::Rule { rule: 12, at });
    }
    match u64::try_from(number) {
        Ok(count) => Ok(count),
        Err(_) => unreachable!(),
    }
}

/// E11, E12, E15: a constant count.
pub fn constant_count(at: Place, t: &Typed) -> Result<u64, Refusal>
    ensures { Gives result (values.constant_count at t.now) }
{
    match constant_number(at, t) {
        Ok(number) => count_from(at, number),
        Err(e) => Err(e),
    }
}

/// A constant count, where it breaks no rule before.
pub fn counted(at: Place, a: Result<Typed, Refusal>) -> Result<u64, Refusal>
    ensures { (x : checked typed) → Gives a x → Gives result (x ▷ values.constant_count at) }
{
    match a {
        Ok(t) => constant_count(at, &t),
        Err(e) => Err(e),
    }
}

/// E13: no more than 64 bits.
pub fn not_too_wide(at: Place, width: u64) -> Result<(), Refusal>
    ensures { Gives result (values.not_too_wide at width) }
{
    if u64::from(WIDEST) < width {
        Err(Refusal::Rule { rule: 13, at })
    } else {
        Ok(())
    }
}

// ---- values for targets

/// The code of an expression in a context of at least a width.
fn widened_code(
    alloc: Global,
    width: u32,
    signed: bool,
    code: Hoisted<Expr>,
) -> Result<Hoisted<Expr>, Refusal>
    ensures ok { IfOk result (λ c. c ≡ hoisted.mapped (flat.Widen width signed) code) }
    ensures err { IfErr result (λ e. e ≡ Memory) }
{
    let value = expr_of(
        alloc,
        ExprForm::Widen {
            width,
            signed,
            operand: code.value,
        },
    )?;
    Ok(Hoisted {
        hidden: code.hidden,
        calls: code.calls,
        value,
    })
}

/// An expression in the context of a target.
pub fn widened(alloc: Global, width: u32, t: Typed) -> Result<Hoisted<Expr>, Refusal>
    ensures ok { IfOk result (λ c. c ≡ values.widened width t) }
    ensures err { IfErr result (λ e. e ≡ Memory) }
{
    let own = t.ty.width();
    let signed = t.ty.is_signed();
    if own < width {
        widened_code(alloc, width, signed, code_of(t))
    } else {
        Ok(code_of(t))
    }
}

/// E16, E17: a number for a number.
pub fn number_assigned(
    alloc: Global,
    to: &Ty,
    at: Place,
    t: Typed,
) -> Result<Hoisted<Expr>, Refusal>
    ensures { Gives result (values.number_assigned to.now at t) }
{
    if !t.ty.is_integral() {
        return Err(Refusal::Rule { rule: 16, at });
    }
    if to.is_enum() && !to.is_same_enum(&t.ty) {
        return Err(Refusal::Rule { rule: 17, at });
    }
    let is_constant = t.is_constant;
    let code = widened(alloc, to.width(), t)?;
    let code = folded(alloc, is_constant, to, code)?;
    Ok(code)
}

/// E16: a value that fits.
pub fn assigned_if(alloc: Global, fits: bool, at: Place, t: Typed) -> Result<Hoisted<Expr>, Refusal>
    ensures { Gives result (values.assigned_if fits at t) }
{
    if fits {
        let code = alone(alloc, t)?;
        Ok(code)
    } else {
        Err(Refusal::Rule { rule: 16, at })
    }
}

/// E16, E42: what is no container of a type.
fn container_fits(to: &Ty, at: Place, t: &Typed) -> Result<(), Refusal>
    ensures { GivesAs (λ _. t.now.code) result (values.container_assigned to.now at t.now) }
{
    if to.is_container() && t.ty.is_container() {
        if to.is_same(&t.ty) {
            return Ok(());
        }
        return Err(Refusal::Rule { rule: 16, at });
    }
    if t.ty.is_array() {
        Err(Refusal::Rule { rule: 42, at: t.at })
    } else {
        Err(Refusal::Rule { rule: 16, at })
    }
}

/// E16, E42: a container for a container of its type.
pub fn container_assigned(to: &Ty, at: Place, t: Typed) -> Result<Hoisted<Expr>, Refusal>
    ensures { Gives result (values.container_assigned to.now at t) }
{
    match container_fits(to, at, &t) {
        Ok(()) => Ok(code_of(t)),
        Err(e) => Err(e),
    }
}
