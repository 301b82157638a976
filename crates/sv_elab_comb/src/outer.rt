// Objects that are declared by a unit or a class, and not in a procedure or subroutine (IEEE 1800-2017, 9.2.2.2.1).
ghost use Rattle.std.specs.Prelude.{◌≡◌, ◌<◌, length, is_some, IfSome};
ghost use Rattle.sv_names.specs.Design as design;
ghost use Rattle.sv_names.specs.Watched as watched;

use sv_flat::{Expr, ExprForm, Instance, Parts};
use sv_names::same_path;
use sv_value::{ObjId, Text};

/// The place of the instance of a path in a list.
fn place_of(path: &[Text], instances: &[Instance]) -> Option<usize>
    ensures is { is_some result ≡ design.is_path_of path.now instances.now }
    ensures within { IfSome result (λ n. n < length instances.now) }
{
    for (place, instance) in instances.iter().enumerate() {
        if same_path(path, instance.path.as_slice()) {
            return Some(place);
        }
    }
    None
}

/// Whether a path is that of an instance. It is looked for near the place where one was found last: processes stand in the order of the
/// instances.
#[tactic(auto, using(crate::proofs::OuterLaws::found_behind, crate::proofs::OuterLaws::found_before, crate::proofs::OuterLaws::found_nowhere))]
fn is_path_of(path: &[Text], instances: &[Instance], near: &mut usize) -> bool
    ensures { result ≡ design.is_path_of path.now instances.now }
{
    let start = if *near < instances.len() { *near } else { 0 };
    let (before, behind) = instances.split_at(start);
    if let Some(place) = place_of(path, behind) {
        *near = start + place;
        return true;
    }
    if let Some(place) = place_of(path, before) {
        *near = place;
        return true;
    }
    false
}

/// The path of what stands around.
#[tactic(auto, using(crate::proofs::OuterLaws::without_of))]
fn without_last(path: &[Text]) -> &[Text]
    ensures { result.now ≡ design.without_last path.now }
{
    match path {
        [] => &[],
        [around @ .., _] => around,
    }
}

/// The object that an operand is of.
fn object_of(e: &Expr) -> Option<ObjId>
    ensures { result ≡ watched.object_of e.now }
{
    match &*e.form {
        ExprForm::Object { object, .. } => Some(*object),
        ExprForm::Element { object, .. } => Some(*object),
        ExprForm::Select { base, .. } => object_of(base),
        _ => None,
    }
}

/// Whether the object of an operand is declared by a unit or a class; its instance is looked for near a place.
pub(crate) fn is_outer(parts: &Parts, e: &Expr, near: &mut usize) -> bool
    ensures { result ≡ design.is_outer parts.now (watched.object_of e.now) }
{
    let Some(object) = object_of(e) else {
        return false;
    };
    match parts.objects.as_slice().get(object.0 as usize) {
        None => false,
        Some(object) => {
            let around = without_last(object.path.as_slice());
            object.is_property || is_path_of(around, parts.instances.as_slice(), near)
        }
    }
}
