// What a change of a vector alone tells of what processes wait for (IEEE 1800-2017, 9.4.2).
ghost use Rattle.std.specs.Prelude.{◌≡◌, IfSome};
ghost use Rattle.sv_value.specs.declared.place.Place.{Place as place};
ghost use Rattle.sv_value.specs.declared.val.Plain.TheVariants.{Integral as integral_type};
ghost use Rattle.sv_flat.specs.declared.object.DataType.TheVariants.{Plain as plain_type};
ghost use Rattle.sv_flat.specs.Expr.{Object as named};
ghost use Rattle.sv_flat.specs.State.{View};
ghost use Rattle.sv_flat.specs.Woken as woken;
ghost use Rattle.sv_flat.specs.Woken.{Changed};
ghost use Rattle.sv_built.specs.Waits.{control_of, watches_at};
ghost use Rattle.sv_sense.specs.Told.{IsSeen};

use crate::edges::vectors_make;
use crate::part::select_fires;
use crate::transition::Transition;
use sv_built::{Design, Wait};
use sv_flat::{DataType, Edge, Expr, ExprForm, Form, Watch};
use sv_value::{Integral, ObjId, Plain};

/// Whether it fires an edge of an object with this type; none where the object has vectors of another width.
#[tactic(auto, using(crate::proofs::TransitionLaws::other_object, crate::proofs::TransitionLaws::same_object))]
fn object_fires(transition: &Transition, object: ObjId, ty: Integral, edge: Edge) -> Option<bool>
    ensures { (at : place) (old new : View) → IsSeen transition.now old new
        → IfSome result (λ b. b ≡ woken.fired edge (named at object (plain_type (integral_type ty))) Changed old new) }
{
    if object.0 != transition.object.0 {
        return Some(false);
    }
    if transition.before.width() != ty.width || transition.after.width() != ty.width {
        return None;
    }
    Some(vectors_make(edge, &transition.before, &transition.after))
}

/// Whether it fires an edge of an expression; none where the expression is neither the name of an object with a vector nor a part of one.
fn expr_fires(transition: &Transition, expr: &Expr, edge: Edge) -> Option<bool>
    ensures { (old new : View) → IsSeen transition.now old new
        → IfSome result (λ b. b ≡ woken.fired edge expr.now Changed old new) }
{
    match &*expr.form {
        ExprForm::Object {
            object,
            ty: DataType::Plain(Plain::Integral(ty)),
            ..
        } => object_fires(transition, *object, *ty, edge),
        ExprForm::Select {
            width,
            offset,
            is_falling,
            base,
            index,
            ..
        } => select_fires(transition, *width, *offset, *is_falling, base, index, edge),
        _ => None,
    }
}

/// Whether it fires an event expression; none where an evaluation must tell.
fn watch_fires(transition: &Transition, watch: &Watch) -> Option<bool>
    ensures { (old new : View) → IsSeen transition.now old new
        → IfSome result (λ b. b ≡ woken.watch_fires watch.now Changed old new) }
{
    match watch {
        Watch::On {
            expr,
            edge,
            condition,
        } => match expr_fires(transition, expr, *edge) {
            Some(true) => match condition {
                None => Some(true),
                Some(_) => None,
            },
            fires => fires,
        },
        Watch::Updates(_, _) => Some(false),
    }
}

/// Whether it fires one of these; none where an evaluation must tell.
fn some_fires(transition: &Transition, watches: &[Watch]) -> Option<bool>
    ensures { (old new : View) → IsSeen transition.now old new
        → IfSome result (λ b. b ≡ woken.some_fires watches.now Changed old new) }
{
    for watch in watches {
        match watch_fires(transition, watch) {
            Some(false) => {}
            fires => return fires,
        }
    }
    Some(false)
}

/// Whether it fires an event control; none where an evaluation must tell.
fn control_fires(transition: &Transition, form: &Form) -> Option<bool>
    ensures { (old new : View) → IsSeen transition.now old new
        → IfSome result (λ b. b ≡ woken.some_fires (control_of form.now) Changed old new) }
{
    match form {
        Form::At { watches } => some_fires(transition, watches.as_slice()),
        _ => Some(false),
    }
}

/// Whether it fires what is waited for; none where an evaluation must tell.
pub(crate) fn wait_fires(transition: &Transition, design: &Design, wait: Wait) -> Option<bool>
    ensures { (old new : View) → IsSeen transition.now old new
        → IfSome result (λ b. b ≡ woken.some_fires (watches_at design.now wait) Changed old new) }
{
    match wait {
        Wait::Control(at) => match design.body(at.routine).get(at.place) {
            Some(stmt) => control_fires(transition, &stmt.form),
            None => Some(false),
        },
        Wait::Condition(_) => None,
        Wait::Watched(process) => match design.processes().get(process.0 as usize) {
            Some(process) => some_fires(transition, process.watched.as_slice()),
            None => Some(false),
        },
    }
}
