// Arrays that are read whole, element by element (IEEE 1800-2017, 7.4 and 9.4.2.2).
ghost use Rattle.std.specs.Prelude.{◌≡◌, true, flat_map, int_le, IfOk, OnOk};
ghost use Rattle.sv_value.specs.Operators.{integer_symbols};
ghost use Rattle.sv_value.specs.Vector.{vector};
ghost use Rattle.sv_flat.specs.Expr as flat;
ghost use Rattle.sv_names.specs.Watched as watched;
ghost use Rattle.sv_elab_watch.specs.Reading as reading;
ghost use Rattle.sv_elab_watch.specs.Reading.{Added};

use crate::outside::{made, up_outside};
use std::alloc::Global;
use sv_flat::{Bounds, Expr, ExprForm};
use sv_value::{Bits, NoMemory, ObjId, Place, Plain, Seq};

/// A fixed array.
#[derive(Clone, Copy)]
pub(crate) enum Array {
    /// An object.
    Object {
        /// Where it is named.
        at: Place,
        /// The array.
        object: ObjId,
        /// Its declared bounds.
        bounds: Bounds,
        /// The type of its elements.
        ty: Plain,
    },
    /// A variable of an activation.
    Local {
        /// By how many levels further out the activation is.
        up: u32,
        /// The place of the first element in it.
        place: u32,
        /// The declared bounds.
        bounds: Bounds,
        /// The type of its elements.
        ty: Plain,
    },
}

/// A number as a literal of 64 bits.
fn index_bits(number: i128) -> Bits
    ensures { result ≡ vector true (integer_symbols 64 number) }
{
    match u64::try_from(number.rem_euclid(1 << 64)) {
        Ok(word) => Bits::truncated(64, true, word, 0),
        Err(_) => unreachable!(),
    }
}

/// An element of an array, by its declared index.
fn element(alloc: Global, array: Array, index: i128) -> Result<Expr, NoMemory>
    ensures { IfOk result (λ e. e ≡ reading.element array (watched.as_index index)) }
{
    let value = index_bits(index);
    let index = made(alloc, ExprForm::Literal { value, fill: None })?;
    match array {
        Array::Object {
            at,
            object,
            bounds,
            ty,
        } => made(
            alloc,
            ExprForm::Element {
                at,
                object,
                bounds,
                ty,
                index,
            },
        ),
        Array::Local {
            up,
            place,
            bounds,
            ty,
        } => made(
            alloc,
            ExprForm::LocalElement {
                up,
                place,
                bounds,
                ty,
                index,
            },
        ),
    }
}

/// Appends so many elements of an array, from an index on.
#[tactic(auto, using(crate::proofs::OutsideLaws::turn_each, crate::proofs::OutsideLaws::all_each))]
fn add_each(
    alloc: Global,
    array: Array,
    count: u128,
    first: i128,
    step: i128,
    list: &mut Seq<Expr>,
) -> Result<(), NoMemory>
    ensures { OnOk result (Added list.old list.new (watched.each_index count first step (reading.element array))) }
{
    let mut index = first;
    let mut left = count;
    'elements: while 0 < left {
        let one = element(alloc, array, index)?;
        list.push(one)?;
        let Some(next) = index.checked_add(step) else {
            return Err(NoMemory::Memory);
        };
        index = next;
        left -= 1;
    }
    Ok(())
}

/// Whether a range goes up.
fn is_rising(bounds: Bounds) -> bool
    ensures { result ≡ int_le bounds.left bounds.right }
{
    bounds.left <= bounds.right
}

/// Appends all elements of an array.
pub(crate) fn add_array(
    alloc: Global,
    array: Array,
    bounds: Bounds,
    list: &mut Seq<Expr>,
) -> Result<(), NoMemory>
    ensures { OnOk result (Added list.old list.new (watched.all_elements bounds (reading.element array))) }
{
    let (left, right) = (bounds.left as i128, bounds.right as i128);
    let count = bounds.right.abs_diff(bounds.left) as u128 + 1;
    if is_rising(bounds) {
        return add_each(alloc, array, count, left, 1, list);
    }
    add_each(alloc, array, count, left, -1, list)
}

/// Appends all elements of an array in an activation, as they are seen from outside of so many.
pub(crate) fn add_array_outside(
    alloc: Global,
    depth: u128,
    up: u32,
    place: u32,
    bounds: Bounds,
    ty: Plain,
    list: &mut Seq<Expr>,
) -> Result<(), NoMemory>
    ensures { OnOk result (Added list.old list.new
        (flat_map (watched.from_outside depth) (watched.all_elements bounds (flat.LocalElement up place bounds ty)))) }
{
    match up_outside(depth, up) {
        None => Ok(()),
        Some(up) => {
            let array = Array::Local {
                up,
                place,
                bounds,
                ty,
            };
            add_array(alloc, array, bounds, list)
        }
    }
}
