// A change of a vector (IEEE 1800-2017, 9.4.2).
ghost use Rattle.std.specs.Prelude.{◌≡◌, IfSome};
ghost use Rattle.sv_value.specs.declared.val.Val.TheVariants.{Bits as bits};
ghost use Rattle.sv_flat.specs.State.{value_at};
ghost use Rattle.sv_store.specs.Overwrites.{value_before};
ghost use Rattle.sv_sense.specs.Told.{IsTold};

use std::alloc::Global;
use sv_assign::{Before, Change};
use sv_store::{Overwritten, Store};
use sv_value::{Bits, ObjId, Val};

/// A change of a variable that is no array, or of a net, from one vector to another.
#[derive(Clone, Copy)]
pub struct Transition {
    pub object: ObjId,
    pub before: Bits,
    pub after: Bits,
}

/// The vector that a value is, if it is one.
fn vector_of(value: &Val) -> Option<Bits>
    ensures { IfSome result (λ v. bits v ≡ value.now) }
{
    match value {
        Val::Bits(vector) => Some(*vector),
        Val::Text(_) | Val::Object(_) | Val::Event(_) => None,
    }
}

/// The vector that an object was before it was overwritten, if it was one. A driver that is not the first has overwritten the value of
/// its net, and an element that is not the first has left the first as it was.
#[tactic(auto, using(crate::proofs::TransitionLaws::first_before))]
fn vector_before(alloc: Global, store: &Store, overwritten: &Overwritten) -> Option<Bits>
    ensures { IfSome result (λ v. bits v ≡ value_before overwritten.now store.now 0) }
{
    if overwritten.element == 0 {
        return vector_of(&overwritten.old);
    }
    match store.read_before(alloc, overwritten, 0) {
        Ok(value) => vector_of(&value),
        Err(_) => None,
    }
}

/// The vector that an object is now, if it is one.
fn vector_now(alloc: Global, store: &Store, object: ObjId) -> Option<Bits>
    ensures { IfSome result (λ v. bits v ≡ value_at store.now object 0) }
{
    match store.read(alloc, object, 0) {
        Ok(value) => vector_of(&value),
        Err(_) => None,
    }
}

/// The change of an object from one vector to another, if it is one.
fn change_of(alloc: Global, store: &Store, overwritten: &Overwritten) -> Option<Transition>
    ensures object { IfSome result (λ t. t.object ≡ overwritten.now.object) }
    ensures before { IfSome result (λ t. bits t.before ≡ value_before overwritten.now store.now 0) }
    ensures after { IfSome result (λ t. bits t.after ≡ value_at store.now overwritten.now.object 0) }
{
    match vector_before(alloc, store, overwritten) {
        Some(before) => match vector_now(alloc, store, overwritten.object) {
            Some(after) => Some(Transition {
                object: overwritten.object,
                before,
                after,
            }),
            None => None,
        },
        None => None,
    }
}

/// The change of a vector that a change is, if it is one.
#[tactic(auto, using(crate::proofs::TransitionLaws::told))]
pub(crate) fn transition_of(alloc: Global, before: &Before) -> Option<Transition>
    ensures { IsTold result before.now }
{
    match before.change {
        Change::Object(overwritten) => match &overwritten.old {
            Val::Bits(_) => change_of(alloc, before.store, overwritten),
            Val::Text(_) | Val::Object(_) | Val::Event(_) => None,
        },
        Change::Variable { .. } => None,
    }
}
