// Classes with those derived from them, and their methods (IEEE 1800-2017, 8.13 and 8.20).
ghost use Rattle.std.specs.Prelude.{◌≡◌, ◌++◌, flat_map, OnOk};
ghost use Rattle.sv_flat.specs.Classes as classes;
ghost use Rattle.sv_flat.specs.Names.{optional, method_in, derived_classes};
ghost use Rattle.sv_elab_comb.specs.Standing.{overriding};

use sv_flat::{Class, Parts};
use sv_value::{ClassId, NoMemory, RoutineId, Seq};

/// The class that a class extends; none where there is no such class.
#[tactic(auto, using(crate::proofs::ClassLaws::class_at, crate::proofs::ClassLaws::class_past))]
fn base_of(parts: &Parts, class: ClassId) -> Option<ClassId>
    ensures { result ≡ (classes.class_of parts.now class).base }
{
    let known = parts.classes.as_slice();
    let place = class.0 as usize;
    if place < known.len() {
        return known[place].base;
    }
    None
}

/// The constructor of a class; the first routine where there is no such class.
#[tactic(auto, using(crate::proofs::ClassLaws::class_at, crate::proofs::ClassLaws::class_past))]
pub(crate) fn constructor_of(parts: &Parts, class: ClassId) -> RoutineId
    ensures { result ≡ (classes.class_of parts.now class).constructor }
{
    let known = parts.classes.as_slice();
    let place = class.0 as usize;
    if place < known.len() {
        return known[place].constructor;
    }
    RoutineId(0)
}

/// Whether a class is another one, or derived from it.
fn is_derived(parts: &Parts, class: ClassId, base: ClassId) -> bool
    ensures { result ≡ classes.is_derived parts.now class base }
{
    let mut next = class;
    let mut left = parts.classes.as_slice().len();
    while left > 0 {
        if next.0 == base.0 {
            return true;
        }
        let Some(above) = base_of(parts, next) else {
            return false;
        };
        next = above;
        left -= 1;
    }
    next.0 == base.0
}

/// The method that stands in a slot of a class.
fn method_in(class: &Class, slot: u32) -> Option<RoutineId>
    ensures { optional result ≡ method_in slot class.now }
{
    match class.methods.as_slice().get(slot as usize) {
        None => None,
        Some(method) => *method,
    }
}

/// Appends the method in a slot of a class of this number, where the class is derived from another one.
#[tactic(auto, using(crate::proofs::StandingLaws::none_behind))]
fn add_method(
    parts: &Parts,
    base: ClassId,
    slot: u32,
    number: u64,
    class: &Class,
    ids: &mut Seq<RoutineId>,
) -> Result<(), NoMemory>
    ensures { OnOk result (ids.new ≡ ids.old ++ overriding parts.now base slot number class.now) }
{
    if !is_derived(parts, ClassId(number), base) {
        return Ok(());
    }
    match method_in(class, slot) {
        None => Ok(()),
        Some(method) => ids.push(method),
    }
}

/// Appends the methods that a call of a virtual method can run.
pub(crate) fn add_methods(
    parts: &Parts,
    base: ClassId,
    slot: u32,
    ids: &mut Seq<RoutineId>,
) -> Result<(), NoMemory>
    ensures { OnOk result (ids.new ≡ ids.old ++ flat_map (method_in slot) (derived_classes parts.now base)) }
{
    for (number, class) in parts.classes.as_slice().iter().enumerate() {
        add_method(parts, base, slot, number as u64, class, ids)?;
    }
    Ok(())
}
