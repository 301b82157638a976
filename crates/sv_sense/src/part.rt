// What a change of a vector tells of a part of it (IEEE 1800-2017, 9.4.2 and 11.5.1).
ghost use Rattle.std.specs.Prelude.{◌≡◌, IfSome, Bool, Some, pos, ℤ};
ghost use Rattle.sv_value.specs.declared.place.Place.{Place as place_in_text};
ghost use Rattle.sv_value.specs.declared.word.Sym.{Sym as symbol};
ghost use Rattle.sv_value.specs.declared.val.Plain.TheVariants.{Integral as integral_type};
ghost use Rattle.sv_flat.specs.declared.object.DataType.TheVariants.{Plain as plain_type};
ghost use Rattle.sv_flat.specs.Eval.{value_of};
ghost use Rattle.sv_flat.specs.Expr.{Expr as expr_form, Object as named, Select as selected};
ghost use Rattle.sv_flat.specs.State.{View};
ghost use Rattle.sv_flat.specs.Woken as woken;
ghost use Rattle.sv_flat.specs.Woken.{Changed};
ghost use Rattle.sv_sense.specs.Told as told;
ghost use Rattle.sv_sense.specs.Told.{BeginsAt, IsSeen};

use crate::edges::vectors_make;
use crate::transition::Transition;
use sv_eval::known_index;
use sv_flat::{DataType, Edge, Expr, ExprForm};
use sv_value::{Integral, ObjId, Plain};

// ---- where a part begins

/// The lowest place of a part, by a number that is its index; none where it lies below the vector or far above.
fn lowest_place(offset: i64, is_falling: bool, index: i128) -> Option<u32>
    ensures { IfSome result (λ n. told.lowest_place offset is_falling (Some index) ≡ Some (pos n)) }
{
    let offset = i128::from(offset);
    let low = if is_falling {
        offset.checked_sub(index)
    } else {
        offset.checked_add(index)
    };
    match low {
        Some(low) => u32::try_from(low).ok(),
        None => None,
    }
}

/// The lowest place of a part, by its index; none where that is no number that is written.
#[tactic(auto, using(crate::proofs::PartLaws::written))]
fn begins_at(offset: i64, is_falling: bool, index: &Expr) -> Option<u32>
    ensures { (v : View) → IfSome result (λ n. BeginsAt offset is_falling (value_of index.now v) n) }
{
    match &*index.form {
        ExprForm::Literal { value, fill: None } => match known_index(*value) {
            Some(number) => lowest_place(offset, is_falling, number),
            None => None,
        },
        _ => None,
    }
}

// ---- what a change tells of it

/// Whether a change fires an edge of so many symbols from a place on of an object with this type; none where they do not all lie in
/// the vector.
#[tactic(auto, using(crate::proofs::PartLaws::other_part, crate::proofs::PartLaws::same_part))]
fn part_fires(
    transition: &Transition,
    object: ObjId,
    ty: Integral,
    place: u32,
    width: u32,
    edge: Edge,
) -> Option<bool>
    ensures { (at : place_in_text) (index : expr_form) (offset : ℤ) (is_falling : Bool) (outside : symbol) (old new : View)
        → IsSeen transition.now old new
        → BeginsAt offset is_falling (value_of index old) place → BeginsAt offset is_falling (value_of index new) place
        → IfSome result (λ b. b
        ≡ woken.fired edge (selected width offset is_falling outside (named at object (plain_type (integral_type ty))) index) Changed old new) }
{
    if object.0 != transition.object.0 {
        return Some(false);
    }
    if transition.before.width() != ty.width || transition.after.width() != ty.width {
        return None;
    }
    if width < 1 || ty.width < width || ty.width - width < place {
        return None;
    }
    let before = transition.before.slice(place, width);
    let after = transition.after.slice(place, width);
    Some(vectors_make(edge, &before, &after))
}

/// Whether a change fires an edge of a part; none where it is no part with a written index of an object with a vector. It stands apart, so
/// that the way by whole objects stays short.
#[inline(never)]
pub(crate) fn select_fires(
    transition: &Transition,
    width: u32,
    offset: i64,
    is_falling: bool,
    base: &Expr,
    index: &Expr,
    edge: Edge,
) -> Option<bool>
    ensures { (outside : symbol) (old new : View) → IsSeen transition.now old new
        → IfSome result (λ b. b ≡ woken.fired edge (selected width offset is_falling outside base.now index.now) Changed old new) }
{
    match &*base.form {
        ExprForm::Object {
            object,
            ty: DataType::Plain(Plain::Integral(ty)),
            ..
        } => match begins_at(offset, is_falling, index) {
            Some(place) => part_fires(transition, *object, *ty, place, width, edge),
            None => None,
        },
        _ => None,
    }
}
