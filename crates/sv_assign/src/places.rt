// The places that bases of targets stand for (IEEE 1800-2017, 7.4.6 and 10.4).
ghost use Rattle.std.specs.Prelude.{◌≡◌, ◌+◌, ◌&&◌, ◌-ℤ◌, int_le, nat_abs, option_and_then, option_map, Ok, IfOk};
ghost use Rattle.sv_flat.specs.Eval as eval;
ghost use Rattle.sv_flat.specs.Eval.{Valued, with_result};
ghost use Rattle.sv_flat.specs.Targets.{based, cell_at, element_at, variable_at};
ghost use Rattle.sv_eval.specs.Evaluates.{Evaluates};
ghost use Rattle.sv_assign.specs.Places.{Answers, placed_in};

use crate::Scoped;
use crate::spot::Whole;
use std::alloc::Global;
use sv_arena::Name;
use sv_eval::{Stopped, known_index, value, vector_in};
use sv_flat::{Base, Bounds};
use sv_value::{NoMemory, ObjId, Val};

/// Whether a number lies between two others.
fn is_between(low: i128, number: i128, high: i128) -> bool
    ensures { result ≡ (int_le low number && int_le number high) }
{
    low <= number && number <= high
}

/// How far a number is from another one. Memory is wanting where that passes a number of an element.
fn distance(from: i128, to: i128) -> Result<u32, NoMemory>
    ensures { IfOk result (λ n. n ≡ nat_abs (to -ℤ from)) }
{
    match to.checked_sub(from) {
        Some(difference) => match u32::try_from(difference.unsigned_abs()) {
            Ok(n) => Ok(n),
            Err(_) => Err(NoMemory::Memory),
        },
        None => Err(NoMemory::Memory),
    }
}

/// The place of a declared index, from the left end; none outside the bounds.
fn element_place(bounds: Bounds, index: i128) -> Result<Option<u32>, NoMemory>
    ensures { IfOk result (λ p. p ≡ eval.element_place bounds index) }
{
    let left = i128::from(bounds.left);
    let right = i128::from(bounds.right);
    if is_between(left, index, right) || is_between(right, index, left) {
        let place = distance(left, index)?;
        Ok(Some(place))
    } else {
        Ok(None)
    }
}

/// The place that an index stands for; none where it has an x or z bit, or is outside the bounds.
fn place_at(bounds: Bounds, index: Option<i128>) -> Result<Option<u32>, NoMemory>
    ensures { IfOk result (λ p. p ≡ option_and_then (eval.element_place bounds) index) }
{
    match index {
        Some(index) => element_place(bounds, index),
        None => Ok(None),
    }
}

/// The place of an element among those of its fixed array.
fn element_at(bounds: Bounds, index: &Val) -> Result<Option<u32>, NoMemory>
    ensures { IfOk result (λ p. p ≡ element_at bounds index.now) }
{
    place_at(bounds, known_index(vector_in(index)))
}

/// The element of an object that an index stands for.
fn element(object: ObjId, bounds: Bounds, index: &Val) -> Result<Whole, NoMemory>
    ensures { IfOk result (λ p. cell_at object (element_at bounds index.now) ≡ placed_in p) }
{
    match element_at(bounds, index)? {
        Some(element) => Ok(Whole::Cell { object, element }),
        None => Ok(Whole::Nowhere),
    }
}

/// The same, where the index may meet a fault.
fn element_of(object: ObjId, bounds: Bounds, index: Result<Val, Stopped>) -> Result<Whole, Stopped>
    ensures { (r : Valued) → Evaluates index r → Answers placed_in result (with_result r (λ x. Ok (cell_at object (element_at bounds x)))) }
{
    match index {
        Ok(index) => {
            let place = element(object, bounds, &index)?;
            Ok(place)
        }
        Err(e) => Err(e),
    }
}

/// A variable of an activation, if there is one.
fn variable_at(name: Option<Name>, variable: Option<u32>) -> Whole
    ensures { variable_at name variable ≡ placed_in result }
{
    match name {
        Some(name) => match variable {
            Some(variable) => Whole::Variable { name, variable },
            None => Whole::Nowhere,
        },
        None => Whole::Nowhere,
    }
}

/// The place of an element in an activation, by that of the first one. Memory is wanting where that passes a number of a variable.
fn place_from(place: u32, element: Option<u32>) -> Result<Option<u32>, NoMemory>
    ensures { IfOk result (λ p. p ≡ option_map (λ n. place + n) element) }
{
    match element {
        Some(element) => match place.checked_add(element) {
            Some(place) => Ok(Some(place)),
            None => Err(NoMemory::Memory),
        },
        None => Ok(None),
    }
}

/// The variable of an activation that an index stands for.
fn variable(name: Option<Name>, place: u32, bounds: Bounds, index: &Val) -> Result<Whole, NoMemory>
    ensures { IfOk result (λ p. variable_at name (option_map (λ n. place + n) (element_at bounds index.now)) ≡ placed_in p) }
{
    let element = element_at(bounds, index)?;
    let variable = place_from(place, element)?;
    Ok(variable_at(name, variable))
}

/// The same, where the index may meet a fault.
fn variable_of(
    name: Option<Name>,
    place: u32,
    bounds: Bounds,
    index: Result<Val, Stopped>,
) -> Result<Whole, Stopped>
    ensures { (r : Valued) → Evaluates index r → Answers placed_in result
        (with_result r (λ x. Ok (variable_at name (option_map (λ n. place + n) (element_at bounds x))))) }
{
    match index {
        Ok(index) => {
            let place = variable(name, place, bounds, &index)?;
            Ok(place)
        }
        Err(e) => Err(e),
    }
}

/// What a target writes, before its part. Memory is wanting for properties and items.
pub fn place_of<V: Scoped>(alloc: Global, base: &Base, values: &V) -> Result<Whole, Stopped>
    ensures { Answers placed_in result (based base.now (V.view values.now)) }
{
    match base {
        Base::Object(object) => Ok(Whole::Cell {
            object: *object,
            element: 0,
        }),
        Base::Driver(object, driver) => Ok(Whole::Cell {
            object: *object,
            element: *driver,
        }),
        Base::Element {
            object,
            bounds,
            index,
        } => element_of(*object, *bounds, value(alloc, values, index)),
        Base::Local { up, place } => Ok(variable_at(values.name(*up), Some(*place))),
        Base::LocalElement {
            up,
            place,
            bounds,
            index,
        } => variable_of(
            values.name(*up),
            *place,
            *bounds,
            value(alloc, values, index),
        ),
        Base::Field { .. } | Base::FieldElement { .. } | Base::Item { .. } => Err(Stopped::Memory),
    }
}
