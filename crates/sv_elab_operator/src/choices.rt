// `?:` on typed operands (IEEE 1800-2017, 11.4.11): E15.
ghost use Rattle.std.specs.Prelude.{◌≡◌, map, IfOk, IfErr};
ghost use Rattle.sv_flat.specs.Expr as flat;
ghost use Rattle.sv_names.specs.declared.checked.Checked.{Checked as checked};
ghost use Rattle.sv_names.specs.declared.checked.Checked.TheVariants.{Good};
ghost use Rattle.sv_names.specs.declared.typed.Typed.{Typed as typed};
ghost use Rattle.sv_names.specs.Named.{Around as around};
ghost use Rattle.sv_names.specs.declared.refusal.Refusal.TheVariants.{Memory};
ghost use Rattle.sv_names.specs.Hoisted as hoisted;
ghost use Rattle.sv_names.specs.Checked.{unless};
ghost use Rattle.sv_names.specs.Operators as operators;
ghost use Rattle.sv_names.specs.Values as values;
ghost use Rattle.sv_names.specs.Given.{Gives};
ghost use Rattle.sv_elab_operator.specs.Choices.{branches_by, choose_by};

use crate::operators::context_of;
use std::alloc::Global;
use sv_elab_value::{code_of, common_reference, expr_of, item, operand, paired, value_typed};
use sv_flat::{Expr, ExprForm};
use sv_names::{ClassInfo, Hoisted, Refusal, Ty, Typed, both, plain_vector};
use sv_value::Place;

/// The type of two numbers.
fn chosen_type(condition: &Ty, a: &Ty, b: &Ty) -> Ty
    ensures { result ≡ operators.chosen_type condition.now a.now b.now }
{
    let whole = context_of(a).wider(context_of(b));
    plain_vector(
        whole.width,
        whole.signed,
        a.is_four_state() || b.is_four_state() || condition.is_four_state(),
    )
}

/// E15: the common type of two references.
fn common_type(
    alloc: Global,
    classes: &[&ClassInfo],
    right: Place,
    a: &Ty,
    b: &Ty,
) -> Result<Ty, Refusal>
    ensures { Gives result (unless 15 right (values.common_reference (map (λ k. k.now) classes.now) a.now b.now)) }
{
    match common_reference(alloc, classes, a, b)? {
        Some(ty) => Ok(ty),
        None => Err(Refusal::Rule {
            rule: 15,
            at: right,
        }),
    }
}

/// E15: the type of two branches that fit each other.
fn branch_type(
    alloc: Global,
    classes: &[&ClassInfo],
    left: Place,
    right: Place,
    condition: &Ty,
    a: &Ty,
    b: &Ty,
) -> Result<Ty, Refusal>
    ensures { Gives result (operators.branch_type (map (λ k. k.now) classes.now) left right condition.now a.now b.now) }
{
    if a.is_same_enum(b) {
        let ty = a.copy(alloc)?;
        return Ok(ty);
    }
    if a.is_integral() && b.is_integral() {
        return Ok(chosen_type(condition, a, b));
    }
    if a.is_text() && b.is_text() {
        return Ok(Ty::Text);
    }
    if a.is_reference() && b.is_reference() {
        return common_type(alloc, classes, right, a, b);
    }
    if a.is_integral() || a.is_text() || a.is_reference() {
        Err(Refusal::Rule {
            rule: 15,
            at: right,
        })
    } else {
        Err(Refusal::Rule { rule: 15, at: left })
    }
}

/// The expression of a choice.
fn choose_expr(alloc: Global, condition: Expr, yes: Expr, no: Expr) -> Result<Expr, Refusal>
    ensures ok { IfOk result (λ e. e ≡ flat.Choose condition yes no) }
    ensures err { IfErr result (λ e. e ≡ Memory) }
{
    expr_of(alloc, ExprForm::Choose { condition, yes, no })
}

/// The code of a choice.
fn choose_code(
    alloc: Global,
    condition: Hoisted<Expr>,
    a: Hoisted<Expr>,
    b: Hoisted<Expr>,
) -> Result<Hoisted<Expr>, Refusal>
    ensures ok { IfOk result (λ c. c ≡ hoisted.three flat.Choose condition a b) }
    ensures err { IfErr result (λ e. e ≡ Memory) }
{
    let front = paired(condition, a)?;
    let whole = paired(front, b)?;
    let ((condition, yes), no) = whole.value;
    let value = choose_expr(alloc, condition, yes, no)?;
    Ok(Hoisted {
        hidden: whole.hidden,
        calls: whole.calls,
        value,
    })
}

/// A choice of a type.
fn choose_typed(
    alloc: Global,
    at: Place,
    condition: Typed,
    a: Typed,
    b: Typed,
    ty: Ty,
) -> Result<Typed, Refusal>
    ensures { Gives result (Good (operators.choose_typed at condition a b ty)) }
{
    let is_constant = condition.is_constant && a.is_constant && b.is_constant;
    let code = choose_code(alloc, code_of(condition), code_of(a), code_of(b))?;
    Ok(value_typed(alloc, ty, at, is_constant, code))
}

/// A choice of two branches.
fn branches(
    alloc: Global,
    classes: &[&ClassInfo],
    at: Place,
    left: Place,
    right: Place,
    condition: Typed,
    a: Typed,
    b: Typed,
) -> Result<Typed, Refusal>
    ensures { Gives result (branches_by (map (λ k. k.now) classes.now) at left right condition a b) }
{
    match branch_type(alloc, classes, left, right, &condition.ty, &a.ty, &b.ty) {
        Ok(ty) => choose_typed(alloc, at, condition, a, b, ty),
        Err(e) => Err(e),
    }
}

/// `?:` with its operands, by the classes that can be named.
#[tactic(auto, using(crate::proofs::Judged::fails_then))]
fn choose_by(
    alloc: Global,
    classes: &[&ClassInfo],
    at: Place,
    left: Place,
    right: Place,
    condition: Result<Typed, Refusal>,
    a: Result<Typed, Refusal>,
    b: Result<Typed, Refusal>,
) -> Result<Typed, Refusal>
    ensures { (x y z : checked typed) → Gives condition x → Gives a y → Gives b z
        → Gives result (choose_by (map (λ k. k.now) classes.now) at left right x y z) }
{
    match both(operand(at, condition), both(item(a), item(b))) {
        Ok((condition, (a, b))) => branches(alloc, classes, at, left, right, condition, a, b),
        Err(e) => Err(e),
    }
}

/// E15, E42: `?:` with its operands; the common type of references is found by the classes that can be named.
pub fn choose(
    alloc: Global,
    classes: &[&ClassInfo],
    at: Place,
    left: Place,
    right: Place,
    condition: Result<Typed, Refusal>,
    a: Result<Typed, Refusal>,
    b: Result<Typed, Refusal>,
) -> Result<Typed, Refusal>
    ensures { (ar : around) (x y z : checked typed) → ar.classes ≡ map (λ k. k.now) classes.now
        → Gives condition x → Gives a y → Gives b z → Gives result (operators.choose_of ar at left right x y z) }
{
    choose_by(alloc, classes, at, left, right, condition, a, b)
}
