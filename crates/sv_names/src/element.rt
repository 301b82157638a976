// What arrays and mailboxes hold.
ghost use Rattle.std.specs.Prelude.{◌≡◌, IfOk};
ghost use Rattle.sv_names.specs.Checked.{same_place as one_place};
ghost use Rattle.sv_names.specs.Types as types;

use crate::path::{Path, SharedPath, copy_path, same_path};
use crate::ty::Ty;
use std::alloc::Global;
use sv_flat::Bounds;
use sv_value::{Integral, NoMemory, Place};

/// What an array, or a mailbox of one type, can hold (IEEE 1800-2017, 7.4 to 7.10 and 15.4.9).
pub enum Element {
    /// A vector (6.11).
    Vector {
        /// Its width, its sign, and whether it has x and z.
        integral: Integral,
        /// The bounds by which its bits are selected.
        bounds: Option<Bounds>,
        /// Whether these are written.
        is_written: bool,
    },
    /// An enum (6.19).
    Enum {
        /// The scope of its declaration.
        scope: SharedPath,
        /// The place of its declaration, which with the scope tells it from others.
        at: Place,
        /// The type of its base.
        integral: Integral,
        /// The bounds by which its bits are selected.
        bounds: Option<Bounds>,
        /// Whether these are written.
        is_written: bool,
    },
    /// `string` (6.16)
    Text,
    /// A reference to an object of a class (8.4).
    Class(Path),
}

impl Drop for Element {
    fn drop(self) {
        match self {
            Element::Vector {
                integral: _,
                bounds: _,
                is_written: _,
            } => {}
            Element::Enum {
                scope: _,
                at: _,
                integral: _,
                bounds: _,
                is_written: _,
            } => {}
            Element::Text => {}
            Element::Class(_) => {}
        }
    }
}

impl Element {
    /// The same, in memory of its own.
    pub fn copy(&self, alloc: Global) -> Result<Element, NoMemory>
        ensures { IfOk result (λ e. e ≡ self.now) }
    {
        match self {
            Element::Vector {
                integral,
                bounds,
                is_written,
            } => Ok(Element::Vector {
                integral: *integral,
                bounds: *bounds,
                is_written: *is_written,
            }),
            Element::Enum {
                scope,
                at,
                integral,
                bounds,
                is_written,
            } => Ok(Element::Enum {
                scope: scope.share()?,
                at: *at,
                integral: *integral,
                bounds: *bounds,
                is_written: *is_written,
            }),
            Element::Text => Ok(Element::Text),
            Element::Class(class) => Ok(Element::Class(copy_path(alloc, class.as_slice())?)),
        }
    }

    /// As a type of its own.
    pub fn as_type(&self, alloc: Global) -> Result<Ty, NoMemory>
        ensures { IfOk result (λ t. t ≡ types.as_type self.now) }
    {
        match self {
            Element::Vector {
                integral,
                bounds,
                is_written,
            } => Ok(Ty::Vector {
                integral: *integral,
                bounds: *bounds,
                is_written: *is_written,
            }),
            Element::Enum {
                scope,
                at,
                integral,
                bounds,
                is_written,
            } => Ok(Ty::Enum {
                scope: scope.share()?,
                at: *at,
                integral: *integral,
                bounds: *bounds,
                is_written: *is_written,
            }),
            Element::Text => Ok(Ty::Text),
            Element::Class(class) => Ok(Ty::Class(copy_path(alloc, class.as_slice())?)),
        }
    }

    /// Whether two are one.
    pub fn is_same(&self, other: &Element) -> bool
        ensures { result ≡ types.same_element self.now other.now }
    {
        match self {
            Element::Vector { integral, .. } => match other {
                Element::Vector { integral: same, .. } => same_integral(*integral, *same),
                _ => false,
            },
            Element::Enum { scope, at, .. } => match other {
                Element::Enum {
                    scope: around,
                    at: place,
                    ..
                } => same_path(scope.as_slice(), around.as_slice()) && same_place(*at, *place),
                _ => false,
            },
            Element::Text => match other {
                Element::Text => true,
                _ => false,
            },
            Element::Class(class) => match other {
                Element::Class(same) => same_path(class.as_slice(), same.as_slice()),
                _ => false,
            },
        }
    }
}

/// Whether two integral types are one.
pub fn same_integral(a: Integral, b: Integral) -> bool
    ensures { result ≡ types.same_integral a b }
{
    a.width == b.width && a.signed == b.signed && a.four_state == b.four_state
}

/// Whether two places are one.
pub fn same_place(a: Place, b: Place) -> bool
    ensures { result ≡ one_place a b }
{
    a.file == b.file && a.line == b.line && a.col == b.col
}
