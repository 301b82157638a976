// What a statement writes to, once its indexes are computed (IEEE 1800-2017, 10.4).
use sv_arena::Name;
use sv_value::{ObjId, ObjectTarget, Range};

/// A place that is written, whole or in part.
#[derive(Clone, Copy)]
pub enum Spot {
    /// An element of an object, or a driver of a net.
    Cell(ObjectTarget),
    /// A variable of an activation.
    Variable {
        name: Name,
        /// Its place among the variables of the activation.
        variable: u32,
        part: Option<Range>,
    },
    /// Nothing: the index is unknown or out of range, and a write does nothing (IEEE 1800-2017, 7.4.5 and 11.5.1).
    Nowhere,
}

/// A place before its part.
#[derive(Clone, Copy)]
pub enum Whole {
    /// An element of an object, or a driver of a net.
    Cell { object: ObjId, element: u32 },
    /// A variable of an activation.
    Variable { name: Name, variable: u32 },
    /// No place.
    Nowhere,
}
