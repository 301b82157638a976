// Selects of bits and parts (IEEE 1800-2017, 11.5.1): E12 to E14, E42.
ghost use Rattle.std.specs.Prelude.{◌≡◌, ◌+◌, ◌<◌, ◌≤◌, true, ℤ, pos, ◌-ℤ◌, int_lt, nat_abs, List, IfOk, IfErr, OnOk, if◌then◌else◌, ◌∷◌};
ghost use Rattle.sv_value.specs.Vector.{vector, widest};
ghost use Rattle.sv_value.specs.Operators.{integer_symbols};
ghost use Rattle.sv_flat.specs.Expr as flat;
ghost use Rattle.sv_tree.specs.declared.word.PartWord.TheVariants as word_of;
ghost use Rattle.sv_names.specs.declared.checked.Checked.{Checked as checked};
ghost use Rattle.sv_names.specs.declared.checked.Checked.TheVariants.{Good};
ghost use Rattle.sv_names.specs.declared.typed.Typed.{Typed as typed};
ghost use Rattle.sv_names.specs.declared.refusal.Refusal.TheVariants.{Memory};
ghost use Rattle.sv_names.specs.Checked as rules;
ghost use Rattle.sv_names.specs.Checked.{◌▷◌, ◌where_also◌};
ghost use Rattle.sv_names.specs.Hoisted as hoisted;
ghost use Rattle.sv_names.specs.Values as values;
ghost use Rattle.sv_names.specs.Selects as selects;
ghost use Rattle.sv_names.specs.Given.{Gives};
ghost use Rattle.sv_elab_select.specs.Parts as parts;

use crate::rules::guarded;
use std::alloc::Global;
use std::mem;
use sv_elab_copies::copy_expr;
use sv_elab_value::{
    alone, constant_number, counted, expr_of, index, not_too_wide, paired, pure, rule, value_typed,
};
use sv_flat::{Bounds, Expr, ExprForm, Part};
use sv_names::{AsTarget, Hoisted, Refusal, Ty, Typed, both, plain_vector};
use sv_tree::PartWord;
use sv_value::{Bits, Place, Seq, Sym, WIDEST};

// ---- what is selected of

/// Whether the bits count down.
fn is_descending(bounds: Bounds) -> bool
    ensures { result ≡ selects.is_descending bounds }
{
    bounds.right <= bounds.left
}

/// E14: what is selected of has bits.
fn with_bits(at: Place, t: Typed) -> Result<(Bounds, Typed), Refusal>
    ensures { Gives result (selects.with_bits at t) }
{
    match t.ty.bounds() {
        None => Err(Refusal::Rule { rule: 14, at }),
        Some(bounds) => Ok((bounds, t)),
    }
}

/// The symbol outside a vector.
fn outside_of(ty: &Ty) -> Sym
    ensures { result ≡ selects.outside_of ty.now }
{
    if ty.is_four_state() {
        Sym::X
    } else {
        Sym::Zero
    }
}

/// The type of so many bits.
fn bits_type(width: u32, ty: &Ty) -> Ty
    ensures { result ≡ parts.bits_type width ty.now }
{
    plain_vector(width, false, ty.is_four_state())
}

// ---- selects that are not constant

/// Puts a place before others.
fn put_before(alloc: Global, at: Place, places: &mut Seq<Place>) -> Result<(), Refusal>
    ensures ok { OnOk result (places.new ≡ at ∷ places.old) }
    ensures err { IfErr result (λ e. e ≡ Memory) }
{
    let mut items = mem::replace(places, Seq::new(alloc)).into_vec();
    items.insert(0, at)?;
    *places = Seq::from_vec(items);
    Ok(())
}

/// Notes one more select, unless it is constant.
pub(crate) fn note_select(
    alloc: Global,
    is_steady: bool,
    at: Place,
    moving: &mut Seq<Place>,
) -> Result<(), Refusal>
    ensures ok { OnOk result (moving.new ≡ selects.moving_with is_steady at moving.old) }
    ensures err { IfErr result (λ e. e ≡ Memory) }
{
    if is_steady {
        return Ok(());
    }
    put_before(alloc, at, moving)
}

/// A target with a part, by an index that may move.
fn with_part(
    alloc: Global,
    part: Part,
    is_steady: bool,
    at: Place,
    target: AsTarget,
) -> Result<AsTarget, Refusal>
    ensures ok { IfOk result (λ t. t ≡ parts.with_part part is_steady at target) }
    ensures err { IfErr result (λ e. e ≡ Memory) }
{
    let mut target = target.into_box(alloc)?;
    note_select(alloc, is_steady, at, &mut target.moving)?;
    target.part = Some(part);
    Ok(AsTarget::from_box(target))
}

// ---- so many bits

/// The code of so many bits.
fn select_code(
    alloc: Global,
    width: u32,
    offset: i64,
    is_falling: bool,
    outside: Sym,
    a: Hoisted<Expr>,
    i: Hoisted<Expr>,
) -> Result<Hoisted<Expr>, Refusal>
    ensures ok { IfOk result (λ c. c ≡ hoisted.paired (flat.Select width offset is_falling outside) a i) }
    ensures err { IfErr result (λ e. e ≡ Memory) }
{
    let both = paired(a, i)?;
    let (base, index) = both.value;
    let value = expr_of(
        alloc,
        ExprForm::Select {
            width,
            offset,
            is_falling,
            outside,
            base,
            index,
        },
    )?;
    Ok(Hoisted {
        hidden: both.hidden,
        calls: both.calls,
        value,
    })
}

/// So many bits, the lowest at an offset plus the index, or minus it.
fn selected_at(
    alloc: Global,
    width: u32,
    offset: i64,
    is_falling: bool,
    at: Place,
    a: Typed,
    i: Typed,
) -> Result<Typed, Refusal>
    ensures { Gives result (Good (selects.selected_at width offset is_falling at a i)) }
{
    let ty = bits_type(width, &a.ty);
    let outside = outside_of(&a.ty);
    let is_steady = i.is_constant;
    let code = alone(alloc, i)?;
    let part = Part {
        width,
        offset,
        is_falling,
        index: copy_expr(alloc, &code.value)?,
    };
    let Typed {
        ty: _,
        at: name,
        code: base,
        is_constant,
        target,
    } = a;
    let target = with_part(alloc, part, is_steady, at, target)?;
    let code = select_code(alloc, width, offset, is_falling, outside, base, code)?;
    Ok(Typed {
        ty,
        at: name,
        code,
        is_constant: is_constant && is_steady,
        target,
    })
}

/// What the index counts from. Offsets that no i64 has are not written yet.
fn offset_from(bounds: Bounds, back: i64) -> Result<i64, Refusal>
    ensures ok { IfOk result (λ o. o ≡ parts.offset_from bounds back) }
    ensures err { IfErr result (λ e. e ≡ Memory) }
{
    let Some(end) = bounds.right.checked_add(back) else {
        return Err(Refusal::Memory);
    };
    if !is_descending(bounds) {
        return Ok(end);
    }
    match 0i64.checked_sub(end) {
        Some(offset) => Ok(offset),
        None => Err(Refusal::Memory),
    }
}

/// So many bits, the lowest at the index less `back`.
#[tactic(auto, using(crate::proofs::Judged::selected_is))]
fn selected(
    alloc: Global,
    width: u32,
    back: i64,
    at: Place,
    bounds: Bounds,
    a: Typed,
    i: Typed,
) -> Result<Typed, Refusal>
    ensures { Gives result (Good (selects.selected width back at bounds a i)) }
{
    let is_falling = !is_descending(bounds);
    match offset_from(bounds, back) {
        Ok(offset) => selected_at(alloc, width, offset, is_falling, at, a, i),
        Err(_) => Err(Refusal::Memory),
    }
}

/// E14, E42: a select of one bit.
pub(crate) fn bit_of(
    alloc: Global,
    at: Place,
    place: Place,
    a: Typed,
    i: Result<Typed, Refusal>,
) -> Result<Typed, Refusal>
    ensures { (x : checked typed) → Gives i x → Gives result (selects.bit_of at place a x) }
{
    match both(with_bits(at, a), index(place, i)) {
        Ok(((bounds, a), i)) => selected(alloc, 1, 0, place, bounds, a, i),
        Err(e) => Err(e),
    }
}

// ---- parts between two ends

/// A number as a literal of 64 bits.
fn index_literal(number: i128) -> Bits
    ensures { result ≡ vector true (integer_symbols 64 number) }
{
    match u64::try_from(number.rem_euclid(1 << 64)) {
        Ok(word) => Bits::truncated(64, true, word, 0),
        Err(_) => unreachable!(),
    }
}

/// An end as an index.
fn number_typed(alloc: Global, at: Place, number: i128) -> Result<Typed, Refusal>
    ensures ok { IfOk result (λ t. t ≡ selects.number_typed at number) }
    ensures err { IfErr result (λ e. e ≡ Memory) }
{
    let value = index_literal(number);
    let value = expr_of(alloc, ExprForm::Literal { value, fill: None })?;
    let ty = plain_vector(64, true, false);
    Ok(value_typed(alloc, ty, at, true, pure(alloc, value)))
}

/// E14: the ends run as the vector does.
fn in_order(at: Place, bounds: Bounds, l: i128, r: i128) -> Result<(), Refusal>
    ensures { Gives result (rules.rule 14 at (if selects.is_descending bounds then int_lt l r else int_lt r l)) }
{
    let is_reversed = if is_descending(bounds) { l < r } else { r < l };
    rule(14, at, is_reversed)
}

/// E13: no more than 64 bits stand between the ends.
fn not_too_far(at: Place, l: i128, r: i128) -> Result<(), Refusal>
    ensures { Gives result (values.not_too_wide at (nat_abs (l -ℤ r) + 1)) }
{
    if u128::from(WIDEST) <= l.abs_diff(r) {
        Err(Refusal::Rule { rule: 13, at })
    } else {
        Ok(())
    }
}

/// E13, E14: whether two ends are those of a part.
fn ends_stand(at: Place, whole: Place, bounds: Bounds, l: i128, r: i128) -> Result<(), Refusal>
    ensures { Gives result (parts.ends_stand at whole bounds l r) }
{
    guarded(in_order(at, bounds, l, r), not_too_far(whole, l, r))
}

/// How many bits stand between two ends, which were judged before.
fn width_between(l: i128, r: i128) -> u32
    requires { nat_abs (l -ℤ r) < widest }
    ensures { result ≡ nat_abs (l -ℤ r) + 1 }
{
    match u32::try_from(l.abs_diff(r)) {
        Ok(distance) => distance + 1,
        Err(_) => unreachable!(),
    }
}

/// A part between two ends, which were judged before.
fn part_between(
    alloc: Global,
    at: Place,
    bounds: Bounds,
    a: Typed,
    l: i128,
    r: i128,
) -> Result<Typed, Refusal>
    requires { nat_abs (l -ℤ r) < widest }
    ensures { Gives result (Good (selects.selected (nat_abs (l -ℤ r) + 1) (pos 0) at bounds a (selects.number_typed at r))) }
{
    let width = width_between(l, r);
    let index = number_typed(alloc, at, r)?;
    selected(alloc, width, 0, at, bounds, a, index)
}

/// E13, E14: `[l:r]` runs as its vector does.
fn fixed_part(
    alloc: Global,
    at: Place,
    whole: Place,
    place: Place,
    bounds: Bounds,
    a: Typed,
    l: i128,
    r: i128,
) -> Result<Typed, Refusal>
    ensures { Gives result (selects.fixed_part at whole place bounds a l r) }
{
    match ends_stand(at, whole, bounds, l, r) {
        Ok(()) => part_between(alloc, place, bounds, a, l, r),
        Err(e) => Err(e),
    }
}

/// E11, E12, E15: a constant number, where it breaks no rule before.
fn number(at: Place, a: Result<Typed, Refusal>) -> Result<i128, Refusal>
    ensures { (x : checked typed) → Gives a x → Gives result (x ▷ values.constant_number at) }
{
    match a {
        Ok(t) => constant_number(at, &t),
        Err(e) => Err(e),
    }
}

/// E11 to E15: `[l:r]`
fn fixed_part_of(
    alloc: Global,
    at: Place,
    whole: Place,
    left: Place,
    right: Place,
    a: Typed,
    l: Result<Typed, Refusal>,
    r: Result<Typed, Refusal>,
) -> Result<Typed, Refusal>
    ensures { (x y : checked typed) → Gives l x → Gives r y
        → Gives result (selects.part_of word_of.Fixed at whole left right a x y) }
{
    match both(with_bits(at, a), both(number(left, l), number(right, r))) {
        Ok(((bounds, a), (l, r))) => fixed_part(alloc, at, whole, left, bounds, a, l, r),
        Err(e) => Err(e),
    }
}

// ---- parts of a width

/// How far the lowest bit is behind the index.
fn lowest_back(word: PartWord, bounds: Bounds, width: u32) -> i64
    ensures { result ≡ selects.lowest_back word bounds width }
{
    match word {
        PartWord::Up => {
            if is_descending(bounds) {
                0
            } else {
                0 - (i64::from(width) - 1)
            }
        }
        _ => {
            if is_descending(bounds) {
                i64::from(width) - 1
            } else {
                0
            }
        }
    }
}

/// A part of a width that was judged before.
fn part_at(
    alloc: Global,
    word: PartWord,
    at: Place,
    bounds: Bounds,
    a: Typed,
    i: Typed,
    width: u64,
) -> Result<Typed, Refusal>
    requires { width ≤ widest }
    ensures { Gives result (Good (selects.selected width (selects.lowest_back word bounds width) at bounds a i)) }
{
    let Ok(width) = u32::try_from(width) else {
        unreachable!()
    };
    let back = lowest_back(word, bounds, width);
    selected(alloc, width, back, at, bounds, a, i)
}

/// E13: a part of a width.
#[tactic(auto, using(crate::proofs::Judged::also_first, crate::proofs::Judged::also_whole))]
fn wide_part(
    alloc: Global,
    word: PartWord,
    whole: Place,
    at: Place,
    bounds: Bounds,
    a: Typed,
    i: Typed,
    width: u64,
) -> Result<Typed, Refusal>
    ensures { Gives result (Good (selects.selected width (selects.lowest_back word bounds width) at bounds a i) where_also values.not_too_wide whole width) }
{
    match not_too_wide(whole, width) {
        Ok(()) => part_at(alloc, word, at, bounds, a, i, width),
        Err(e) => Err(e),
    }
}

/// E11 to E14, E42: `[b +: w]` and `[b -: w]`
fn moving_part_of(
    alloc: Global,
    word: PartWord,
    at: Place,
    whole: Place,
    left: Place,
    right: Place,
    a: Typed,
    l: Result<Typed, Refusal>,
    r: Result<Typed, Refusal>,
) -> Result<Typed, Refusal>
    ensures { (x y : checked typed) → Gives l x → Gives r y
        → Gives result (parts.moving_part word at whole left right a x y) }
{
    match both(with_bits(at, a), both(index(left, l), counted(right, r))) {
        Ok(((bounds, a), (i, width))) => {
            wide_part(alloc, word, whole, left, bounds, a, i, width)
        }
        Err(e) => Err(e),
    }
}

/// E11 to E15, E42: a select of several bits.
pub(crate) fn part_of(
    alloc: Global,
    word: PartWord,
    at: Place,
    whole: Place,
    left: Place,
    right: Place,
    a: Typed,
    l: Result<Typed, Refusal>,
    r: Result<Typed, Refusal>,
) -> Result<Typed, Refusal>
    ensures { (x y : checked typed) → Gives l x → Gives r y
        → Gives result (selects.part_of word at whole left right a x y) }
{
    match word {
        PartWord::Fixed => fixed_part_of(alloc, at, whole, left, right, a, l, r),
        PartWord::Up => moving_part_of(alloc, PartWord::Up, at, whole, left, right, a, l, r),
        PartWord::Down => moving_part_of(alloc, PartWord::Down, at, whole, left, right, a, l, r),
    }
}
