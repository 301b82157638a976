// The objects of static variables that are declared in statements (IEEE 1800-2017, 6.8 and 6.21).
ghost use Rattle.std.specs.Prelude.{◌≡◌, IfOk};
ghost use Rattle.sv_names.specs.Code as code;
ghost use Rattle.sv_names.specs.Types as types;
ghost use Rattle.sv_names.specs.Views.{around_in};
ghost use Rattle.sv_elab_object.specs.Objects as objects;

use std::alloc::Global;
use sv_flat::{Bounds, Home, Initial, Object, ObjectKind};
use sv_names::{Around, Ty, copy_path};
use sv_value::{NoMemory, Place, Text};

/// Where an object is declared.
pub fn home_of(around: &Around) -> Home
    ensures { result ≡ code.home_of (around_in around.now) }
{
    match around.unit {
        [] => match around.subroutine {
            None => Home::File,
            Some(path) => Home::Subroutine(around.numbers.subroutine(path)),
        },
        [_, ..] => {
            if around.is_program {
                Home::Program(around.numbers.program(around.unit))
            } else {
                Home::Module
            }
        }
    }
}

/// The bounds of a fixed array.
fn array_of(ty: &Ty) -> Option<Bounds>
    ensures { result ≡ types.array_of ty.now }
{
    match ty {
        Ty::Fixed(bounds, _) => Some(*bounds),
        _ => None,
    }
}

/// The range of a vector, where one is written.
fn range_of(ty: &Ty) -> Option<Bounds>
    ensures { result ≡ types.range_of ty.now }
{
    match ty {
        Ty::Vector {
            bounds,
            is_written,
            ..
        } => written(*bounds, *is_written),
        Ty::Enum {
            bounds,
            is_written,
            ..
        } => written(*bounds, *is_written),
        _ => None,
    }
}

/// Bounds, where they are written.
fn written(bounds: Option<Bounds>, is_written: bool) -> Option<Bounds>
    ensures { result ≡ objects.written bounds is_written }
{
    if is_written { bounds } else { None }
}

/// What an object is besides its type.
#[derive(Clone, Copy)]
pub struct Flags {
    /// Whether it is a port of its module or program.
    pub is_port: bool,
    /// Whether it is a static property of a class (8.9).
    pub is_property: bool,
    /// Whether the waveform shows it where it is integral (21.7).
    pub is_traced: bool,
}

/// An object of the flat design, by its path and its type.
pub fn object_at(
    alloc: Global,
    around: &Around,
    kind: ObjectKind,
    flags: Flags,
    at: Place,
    path: &[Text],
    ty: &Ty,
    initial: Option<Initial>,
) -> Result<Object, NoMemory>
    ensures { IfOk result (λ o. o ≡ code.object_at (around_in around.now) kind flags.is_port flags.is_property flags.is_traced
        at path.now ty.now initial) }
{
    let path = copy_path(alloc, path)?;
    Ok(Object {
        at,
        path,
        kind,
        ty: around.numbers.data_of(ty),
        array: array_of(ty),
        range: range_of(ty),
        home: home_of(around),
        is_port: flags.is_port,
        is_property: flags.is_property,
        is_traced: flags.is_traced && ty.is_integral(),
        initial,
    })
}
