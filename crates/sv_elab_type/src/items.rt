// The values of enum items (IEEE 1800-2017, 6.19): E11, E16, E56.
ghost use Rattle.std.specs.Prelude.{◌≡◌, ◌≤◌, true, Some, None, pos, int_lt, IfOk, IfErr, option_map};
ghost use Rattle.sv_value.specs.Vector.{vector};
ghost use Rattle.sv_value.specs.Operators.{integer_symbols};
ghost use Rattle.sv_flat.specs.Expr as flat;
ghost use Rattle.sv_flat.specs.Eval as eval;
ghost use Rattle.sv_tree.specs.View as view;
ghost use Rattle.sv_tree.specs.StmtView.{type};
ghost use Rattle.sv_names.specs.declared.refusal.Refusal.TheVariants.{Memory};
ghost use Rattle.sv_names.specs.Declarations as declarations;
ghost use Rattle.sv_names.specs.Hoisted as hoisted;
ghost use Rattle.sv_names.specs.Values as values;
ghost use Rattle.sv_names.specs.Views.{around_in};
ghost use Rattle.sv_names.specs.Given.{Gives};
ghost use Rattle.sv_elab_type.specs.Items as items;

use crate::parameters::constant_of;
use crate::types::type_of;
use std::alloc::Global;
use sv_elab_copies::copy_expr;
use sv_elab_expr::sv_elab_value::{bits_of, expr_of, known_index, pure, value_typed};
use sv_elab_expr::{expr, place_of};
use sv_flat::{Expr, ExprForm};
use sv_names::{Around, Refusal, Ty, Typed, both, int_type};
use sv_tree::{Expr as Written, Name, WrittenType};
use sv_value::{Bits, Integral, Place, Sym, Text, WIDEST, mask};

// ---- numbers in a base

/// Whether a number that is not below 0 lies in a type.
fn fits_above(i: Integral, number: i128) -> bool
    requires { i.width ≤ 64 }
    ensures { result ≡ items.fits_above i number }
{
    let width = if i.signed {
        i.width.saturating_sub(1)
    } else {
        i.width
    };
    number.unsigned_abs() <= u128::from(mask(width))
}

/// Whether a number below 0 lies in a type.
fn fits_below(i: Integral, number: i128) -> bool
    requires width { i.width ≤ 64 }
    requires below { int_lt number (pos 0) ≡ true }
    ensures { result ≡ items.fits_below i number }
{
    let most = mask(i.width.saturating_sub(1));
    i.signed && (number + 1).unsigned_abs() <= u128::from(most)
}

/// E56: whether a number lies in a type.
#[tactic(auto, using(crate::proofs::ItemLaws::above_is, crate::proofs::ItemLaws::below_is))]
fn fits_in(i: Integral, number: i128) -> bool
    requires { i.width ≤ 64 }
    ensures { result ≡ declarations.fits_in i number }
{
    if number < 0 {
        fits_below(i, number)
    } else {
        fits_above(i, number)
    }
}

/// The bits of a number. Memory is wanting for widths that no vector has.
fn number_bits(i: Integral, number: i128) -> Result<Bits, Refusal>
    ensures ok { IfOk result (λ v. v ≡ vector i.signed (integer_symbols i.width number)) }
    ensures err { IfErr result (λ e. e ≡ Memory) }
{
    if i.width < 1 || WIDEST < i.width {
        return Err(Refusal::Memory);
    }
    match u64::try_from(number.rem_euclid(i128::from(mask(i.width)) + 1)) {
        Ok(word) => Ok(Bits::truncated(i.width, i.signed, word, 0)),
        Err(_) => Err(Refusal::Memory),
    }
}

/// E56: so many after a number.
fn number_after(at: Place, i: Integral, steps: usize, number: i128) -> Result<Bits, Refusal>
    ensures { Gives result (items.number_after at i steps number) }
{
    if WIDEST < i.width {
        return Err(Refusal::Memory);
    }
    let Some(after) = number.checked_add(steps as i128) else {
        return Err(Refusal::Memory);
    };
    if fits_in(i, number) && fits_in(i, after) {
        let value = number_bits(i, after)?;
        Ok(value)
    } else {
        Err(Refusal::Rule { rule: 56, at })
    }
}

/// A vector as one of an integral type.
fn converted_bits(alloc: Global, i: Integral, value: Bits) -> Result<Bits, Refusal>
    ensures ok { IfOk result (λ v. v ≡ values.vector_of (eval.value_of (flat.Convert i (flat.Literal value None)) values.nowhere)) }
    ensures err { IfErr result (λ e. e ≡ Memory) }
{
    let operand = expr_of(alloc, ExprForm::Literal { value, fill: None })?;
    let e = expr_of(alloc, ExprForm::Convert { to: i, operand })?;
    bits_of(&e)
}

/// E56: what has symbols that are x or z stays as it is, in a base that has them.
fn unknown_after(
    alloc: Global,
    at: Place,
    i: Integral,
    steps: usize,
    value: Bits,
) -> Result<Bits, Refusal>
    ensures { Gives result (declarations.item_number at i steps None value) }
{
    if i.four_state && steps == 0 {
        let value = converted_bits(alloc, i, value)?;
        Ok(value)
    } else {
        Err(Refusal::Rule { rule: 56, at })
    }
}

/// E56: so many after a value, which may be a number.
fn item_number(
    alloc: Global,
    at: Place,
    i: Integral,
    steps: usize,
    number: Option<i128>,
    value: Bits,
) -> Result<Bits, Refusal>
    ensures { Gives result (declarations.item_number at i steps number value) }
{
    match number {
        Some(number) => number_after(at, i, steps, number),
        None => unknown_after(alloc, at, i, steps, value),
    }
}

// ---- values

/// The bits of a literal that fills its context, at a width.
fn filled_literal(alloc: Global, width: u32, value: Bits, fill: Sym) -> Result<Bits, Refusal>
    ensures ok { IfOk result (λ v. v
        ≡ values.vector_of (eval.value_of (items.filled width (flat.Literal value (Some fill))) values.nowhere)) }
    ensures err { IfErr result (λ e. e ≡ Memory) }
{
    let signed = value.signed();
    let operand = expr_of(
        alloc,
        ExprForm::Literal {
            value,
            fill: Some(fill),
        },
    )?;
    let e = expr_of(
        alloc,
        ExprForm::Widen {
            width,
            signed,
            operand,
        },
    )?;
    bits_of(&e)
}

/// The bits of a constant, where a literal that fills its context fills a width.
fn filled_bits(alloc: Global, width: u32, e: &Expr) -> Result<Bits, Refusal>
    ensures ok { IfOk result (λ v. v ≡ values.vector_of (eval.value_of (items.filled width e.now) values.nowhere)) }
    ensures err { IfErr result (λ e. e ≡ Memory) }
{
    match &*e.form {
        ExprForm::Literal {
            value,
            fill: Some(fill),
        } => filled_literal(alloc, width, *value, *fill),
        _ => bits_of(e),
    }
}

/// A constant as a number in a base.
#[tactic(auto, using(crate::proofs::ItemLaws::base_is))]
fn in_base(alloc: Global, to: &Ty, t: &Typed) -> Result<Bits, Refusal>
    ensures ok { IfOk result (λ v. v ≡ declarations.in_base to.now t.now) }
    ensures err { IfErr result (λ e. e ≡ Memory) }
{
    filled_bits(alloc, to.width(), &t.code.value)
}

/// A literal of a type.
fn literal_typed(alloc: Global, to: Ty, at: Place, value: Bits) -> Result<Typed, Refusal>
    ensures ok { IfOk result (λ t. t ≡ values.value_typed to at true (hoisted.pure (flat.Literal value None))) }
    ensures err { IfErr result (λ e. e ≡ Memory) }
{
    let e = expr_of(alloc, ExprForm::Literal { value, fill: None })?;
    Ok(value_typed(alloc, to, at, true, pure(alloc, e)))
}

/// E16, E56: an item of an enum, so many after a value.
fn item_valued(
    alloc: Global,
    at: Place,
    to: Ty,
    steps: usize,
    place: Place,
    t: &Typed,
) -> Result<Typed, Refusal>
    ensures { Gives result (declarations.item_valued at to steps place t.now) }
{
    if !t.ty.is_integral() {
        return Err(Refusal::Rule {
            rule: 16,
            at: place,
        });
    }
    let value = in_base(alloc, &to, t)?;
    match item_number(alloc, at, to.integral(), steps, known_index(value), value) {
        Ok(value) => {
            let t = literal_typed(alloc, to, at, value)?;
            Ok(t)
        }
        Err(e) => Err(e),
    }
}

/// The value before the first item.
fn zero_typed(alloc: Global, at: Place) -> Result<Typed, Refusal>
    ensures ok { IfOk result (λ t. t ≡ declarations.zero_typed at) }
    ensures err { IfErr result (λ e. e ≡ Memory) }
{
    literal_typed(alloc, int_type(), at, Bits::truncated(32, true, 0, 0))
}

/// An item of an enum, so many after the first.
fn item_from_zero(
    alloc: Global,
    around: &Around,
    path: &[Text],
    name: &Name,
    written: &WrittenType,
    steps: usize,
) -> Result<Typed, Refusal>
    ensures { Gives result (declarations.item_value (around_in around.now) path.now name.now (type written.now) None steps) }
{
    match type_of(alloc, around, path, written) {
        Ok(to) => {
            let zero = zero_typed(alloc, name.at)?;
            item_valued(alloc, name.at, to, steps, name.at, &zero)
        }
        Err(e) => Err(e),
    }
}

/// E11: an item of an enum, so many after one whose value is written.
fn item_from(
    alloc: Global,
    around: &Around,
    path: &[Text],
    name: &Name,
    written: &WrittenType,
    value: &Written,
    steps: usize,
) -> Result<Typed, Refusal>
    ensures { Gives result (declarations.item_value (around_in around.now) path.now name.now (type written.now)
        (Some (view.expr value.now)) steps) }
{
    let place = place_of(value);
    let to = type_of(alloc, around, path, written);
    let value = constant_of(place, expr(alloc, value, around));
    match both(to, value) {
        Ok((to, t)) => item_valued(alloc, name.at, to, steps, place, &t),
        Err(e) => Err(e),
    }
}

/// E11, E16, E56: the value of an item of an enum.
pub fn item_value(
    alloc: Global,
    around: &Around,
    path: &[Text],
    name: &Name,
    written: &WrittenType,
    value: Option<&Written>,
    steps: usize,
) -> Result<Typed, Refusal>
    ensures { Gives result (declarations.item_value (around_in around.now) path.now name.now (type written.now)
        (option_map (λ e. view.expr e.now) value.entry) steps) }
{
    match value {
        None => item_from_zero(alloc, around, path, name, written, steps),
        Some(value) => item_from(alloc, around, path, name, written, value, steps),
    }
}
