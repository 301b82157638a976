// The first values of variables.
ghost use Rattle.std.specs.Prelude.{◌≡◌, ◌<◌, ◌^◌, IfOk, replicate};
ghost use Rattle.sv_flat.specs.Opening.{elements_of};
ghost use Rattle.sv_flat.specs.State.{first_value};
ghost use Rattle.sv_store.specs.First.{HasWidth};

use std::alloc::Global;
use sv_flat::{Bounds, DataType, first_bits};
use sv_value::{Key, NoMemory, Plain, Text, Val};

/// How many elements a variable has: those of its fixed array, or one.
pub fn element_count(array: Option<Bounds>) -> u32
    requires { elements_of array < 2 ^ 32 }
    ensures { result ≡ elements_of array }
{
    match array {
        None => 1,
        Some(bounds) => (bounds.left.abs_diff(bounds.right) + 1) as u32,
    }
}

/// The first value of a variable (IEEE 1800-2017, 6.8).
fn first(alloc: Global, ty: DataType) -> Val
    requires { HasWidth ty }
    ensures { result ≡ first_value ty }
{
    match ty {
        DataType::Plain(Plain::Integral(integral)) => Val::Bits(first_bits(integral)),
        DataType::Plain(Plain::Text) => Val::Text(Text::new(alloc)),
        DataType::Plain(Plain::Event) => Val::Event(Key(0)),
        _ => Val::Object(None),
    }
}

/// So many elements with the first value of a type.
pub fn first_elements(alloc: Global, ty: DataType, count: u32) -> Result<Vec<Val>, NoMemory>
    requires { HasWidth ty }
    ensures { IfOk result (λ vs. vs.items ≡ replicate count (first_value ty)) }
{
    let mut elements = Vec::new(alloc);
    for i in 0..count {
        elements.push(first(alloc, ty))?;
    }
    Ok(elements)
}
