// What a statement writes to, once its indexes and references are computed (IEEE 1800-2017, 10.4).
use crate::{Index, Key, ObjectTarget, Range};

/// A container: the one of a key, or a property of the object of that key.
#[derive(Clone, Copy, Debug, PartialEq, Eq)]
pub struct Held {
    pub key: Key,
    pub property: Option<u32>,
}

/// A place that is written, whole or in part.
pub enum Target {
    /// An element of an object, or a driver of a net.
    Object(ObjectTarget),
    /// A variable of an activation, by its place there.
    Local {
        activation: Key,
        variable: u32,
        part: Option<Range>,
    },
    /// A property of an object, by its place there.
    Field {
        object: Key,
        property: u32,
        part: Option<Range>,
    },
    /// An item of a container.
    Item {
        container: Held,
        index: Index,
        part: Option<Range>,
    },
    /// Nothing: the index is unknown or out of range, and a write does nothing (IEEE 1800-2017, 7.4.5 and 11.5.1).
    Nothing,
}

impl Drop for Target {
    fn drop(self) {
        match self {
            Target::Object(_) => {}
            Target::Local {
                activation: _,
                variable: _,
                part: _,
            } => {}
            Target::Field {
                object: _,
                property: _,
                part: _,
            } => {}
            Target::Item {
                container: _,
                index: _,
                part: _,
            } => {}
            Target::Nothing => {}
        }
    }
}
