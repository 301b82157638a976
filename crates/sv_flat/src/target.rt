// What is written: objects, their elements, parts of them (IEEE 1800-2017, 11.5).
use crate::{Bounds, DataType, Expr};
use sv_value::{ObjId, Place};

/// A bit select or a part select of a target (IEEE 1800-2017, 11.5.1). What lies outside the target is not written.
pub struct Part {
    /// How many bits it has.
    pub width: u32,
    /// What the index counts from.
    pub offset: i64,
    /// Whether the lowest bit is at the offset minus the index, and not plus it.
    pub is_falling: bool,
    /// The index; where it has an x or z bit, nothing is written.
    pub index: Expr,
}

impl Drop for Part {
    fn drop(self) {
        let Part {
            width: _,
            offset: _,
            is_falling: _,
            index: _,
        } = self;
    }
}

/// What is written to, with the forms of an expression that names it.
pub enum Base {
    /// A static variable.
    Object(ObjId),
    /// A driver of a net (IEEE 1800-2017, 6.6.1).
    Driver(ObjId, u32),
    /// An element of a fixed array (IEEE 1800-2017, 7.4.6). Out of its bounds nothing is written.
    Element {
        /// The array.
        object: ObjId,
        /// Its declared bounds.
        bounds: Bounds,
        /// The declared index.
        index: Expr,
    },
    /// A variable of an activation (IEEE 1800-2017, 6.21).
    Local {
        /// By how many levels further out the activation is; 0 is the nearest one.
        up: u32,
        /// The place of the variable in it.
        place: u32,
    },
    /// An element of a fixed array in an activation.
    LocalElement {
        /// By how many levels further out the activation is.
        up: u32,
        /// The place of the first element in it.
        place: u32,
        /// The declared bounds of the array.
        bounds: Bounds,
        /// The declared index.
        index: Expr,
    },
    /// A property of an object (IEEE 1800-2017, 8.5).
    Field {
        /// The reference to the object.
        object: Expr,
        /// The place of the property among those of its class.
        place: u32,
    },
    /// An element of a fixed array that is a property.
    FieldElement {
        /// The reference to the object.
        object: Expr,
        /// The place of the first element among the properties.
        place: u32,
        /// The declared bounds of the array.
        bounds: Bounds,
        /// The declared index.
        index: Expr,
    },
    /// An item of a container (IEEE 1800-2017, 7.5, 7.8 and 7.10).
    Item {
        /// The container.
        container: Container,
        /// The index or the key.
        index: Expr,
    },
}

impl Drop for Base {
    fn drop(self) {
        match self {
            Base::Object(_) => {}
            Base::Driver(_, _) => {}
            Base::Element {
                object: _,
                bounds: _,
                index: _,
            } => {}
            Base::Local { up: _, place: _ } => {}
            Base::LocalElement {
                up: _,
                place: _,
                bounds: _,
                index: _,
            } => {}
            Base::Field {
                object: _,
                place: _,
            } => {}
            Base::FieldElement {
                object: _,
                place: _,
                bounds: _,
                index: _,
            } => {}
            Base::Item {
                container: _,
                index: _,
            } => {}
        }
    }
}

/// A target of an assignment, or a part of a concatenation of targets (IEEE 1800-2017, 10.4 and 11.4.12).
pub struct Lvalue {
    /// Its first token.
    pub at: Place,
    /// The reference through which a static member is named; it must not be null.
    pub through: Option<Expr>,
    /// What is written to.
    pub base: Base,
    /// The bits of it that are written, where not all are.
    pub part: Option<Part>,
    /// The type of what is written to, to which a value is converted.
    pub ty: DataType,
}

impl Drop for Lvalue {
    fn drop(self) {
        let Lvalue {
            at: _,
            through: _,
            base: _,
            part: _,
            ty: _,
        } = self;
    }
}

/// A container: the one that a variable holds, or a property of an object (IEEE 1800-2017, 7.5, 7.8 and 7.10).
pub struct Container {
    /// The variable that holds it, or the reference to the object.
    pub holder: Expr,
    /// The property of the object that `holder` is.
    pub property: Option<u32>,
}

impl Drop for Container {
    fn drop(self) {
        let Container {
            holder: _,
            property: _,
        } = self;
    }
}
