// The places that targets stand for (IEEE 1800-2017, 10.4 and 11.5.1).
ghost use Rattle.std.specs.Prelude.{◌≡◌, Result, Ok, Option, Some, None, IfOk, IfSome};
ghost use Rattle.sv_value.specs.declared.place.FaultKind.{FaultKind as Fault};
ghost use Rattle.sv_value.specs.declared.schedule.Range.{Range as BitRange};
ghost use Rattle.sv_flat.specs.Eval as eval;
ghost use Rattle.sv_flat.specs.Eval.{Valued, with_result};
ghost use Rattle.sv_flat.specs.Targets as targets;
ghost use Rattle.sv_flat.specs.State.{View};
ghost use Rattle.sv_flat.specs.Targets.{Placed, is_near, range_at, range_from, range_of, spot_of, spots_of};
ghost use Rattle.sv_eval.specs.Evaluates.{Evaluates};
ghost use Rattle.sv_assign.specs.Places.{Answers, placed_in, spot_in, spots_in};

use crate::places::place_of;
use crate::spot::Whole;
use crate::{Scoped, Spot};
use std::alloc::Global;
use sv_eval::{Stopped, known_index, value, vector_in};
use sv_flat::{Base, Lvalue, Part};
use sv_value::{NoMemory, ObjectTarget, Range, Val};

/// The lowest place of a part.
fn low_place(offset: i64, is_falling: bool, index: i128) -> Result<i128, NoMemory>
    ensures { IfOk result (λ low. low ≡ eval.low_place offset is_falling index) }
{
    let offset = i128::from(offset);
    if is_falling {
        offset.checked_sub(index).ok_or(NoMemory::Memory)
    } else {
        offset.checked_add(index).ok_or(NoMemory::Memory)
    }
}

/// Whether a place is a number of 64 bits.
fn is_near(low: i128) -> bool
    ensures { result ≡ is_near low }
{
    -9223372036854775808 <= low && low < 9223372036854775808
}

/// So many bits from a place on; none where that lies outside every vector.
fn range_from(low: i128, width: u32) -> Range
    ensures { result ≡ range_from low width }
{
    if is_near(low) {
        Range {
            low: low as i64,
            width,
        }
    } else {
        Range { low: 0, width: 0 }
    }
}

/// The bits of a part; none where its index is unknown.
fn range_at(part: &Part, index: Option<i128>) -> Result<Range, NoMemory>
    ensures { IfOk result (λ r. r ≡ range_at part.now index) }
{
    match index {
        None => Ok(Range { low: 0, width: 0 }),
        Some(index) => {
            let low = low_place(part.offset, part.is_falling, index)?;
            Ok(range_from(low, part.width))
        }
    }
}

/// The same, where the index may meet a fault.
fn range(part: &Part, index: Result<Val, Stopped>) -> Result<Range, Stopped>
    ensures { (r : Valued) → Evaluates index r
        → Answers (λ (x : BitRange). Some x) result (with_result r (λ i. Ok (Some (range_at part.now (eval.known_index (eval.vector_in i)))))) }
{
    match index {
        Ok(index) => {
            let range = range_at(part, known_index(vector_in(&index)))?;
            Ok(range)
        }
        Err(e) => Err(e),
    }
}

/// A place, whole or in part.
fn target_at(place: Whole, part: Option<Range>) -> Spot
    ensures { spot_in result ≡ placed_in place part }
{
    match place {
        Whole::Cell { object, element } => Spot::Cell(ObjectTarget {
            object,
            element,
            part,
        }),
        Whole::Variable { name, variable } => Spot::Variable {
            name,
            variable,
            part,
        },
        Whole::Nowhere => Spot::Nowhere,
    }
}

/// A whole place.
fn whole(place: Result<Whole, Stopped>) -> Result<Spot, Stopped>
    ensures { (p : Result Placed Fault) → Answers placed_in place p → Answers spot_in result (with_result p (λ q. Ok (q None))) }
{
    match place {
        Ok(place) => Ok(target_at(place, None)),
        Err(e) => Err(e),
    }
}

/// A part of a place.
fn in_part(place: Result<Whole, Stopped>, range: Result<Range, Stopped>) -> Result<Spot, Stopped>
    ensures { (p : Result Placed Fault) (r : Result (Option BitRange) Fault) → Answers placed_in place p → Answers (λ (x : BitRange). Some x) range r
        → Answers spot_in result (with_result p (λ q. with_result r (λ x. Ok (q x)))) }
{
    match place {
        Ok(place) => match range {
            Ok(range) => Ok(target_at(place, Some(range))),
            Err(e) => Err(e),
        },
        Err(e) => Err(e),
    }
}

/// The place of a whole object, or of a whole driver, as most targets name.
#[inline(always)]
fn plain_spot(target: &Lvalue) -> Option<Spot>
    ensures { IfSome result (λ s. (v : View) → spot_of target.now v ≡ Ok (spot_in s)) }
{
    if target.through.is_some() || target.part.is_some() {
        return None;
    }
    match &target.base {
        Base::Object(object) => Some(target_at(
            Whole::Cell {
                object: *object,
                element: 0,
            },
            None,
        )),
        Base::Driver(object, driver) => Some(target_at(
            Whole::Cell {
                object: *object,
                element: *driver,
            },
            None,
        )),
        _ => None,
    }
}

/// The same for any target. Memory is wanting, too, for properties of objects, items of containers,
/// and members that are named through a reference.
#[inline(never)]
fn any_spot_of<V: Scoped>(alloc: Global, target: &Lvalue, values: &V) -> Result<Spot, Stopped>
    ensures { Answers spot_in result (spot_of target.now (V.view values.now)) }
{
    match &target.through {
        Some(_) => Err(Stopped::Memory),
        None => match &target.part {
            None => whole(place_of(alloc, &target.base, values)),
            Some(part) => in_part(
                place_of(alloc, &target.base, values),
                range(part, value(alloc, values, &part.index)),
            ),
        },
    }
}

/// The place that a target stands for, or the fault that it meets. Memory is wanting, too, for properties of objects, items of containers,
/// and members that are named through a reference.
#[inline(always)]
pub fn spot_of<V: Scoped>(alloc: Global, target: &Lvalue, values: &V) -> Result<Spot, Stopped>
    ensures { Answers spot_in result (spot_of target.now (V.view values.now)) }
{
    if let Some(spot) = plain_spot(target) {
        return Ok(spot);
    }
    any_spot_of(alloc, target, values)
}

/// The places that targets stand for: all are computed before the first one is written.
pub fn spots_of<V: Scoped>(
    alloc: Global,
    targets: &[Lvalue],
    values: &V,
) -> Result<Vec<Spot>, Stopped>
    ensures { Answers (λ ts. spots_in ts.items) result (spots_of targets.now (V.view values.now)) }
{
    let mut found = Vec::new(alloc);
    for target in targets {
        let spot = spot_of(alloc, target, values)?;
        found.push(spot).map_err(NoMemory::from)?;
    }
    Ok(found)
}
