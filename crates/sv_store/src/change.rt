// What a write changed.
use sv_value::{ClockId, Key, ObjId, Val};

/// What holds a value that changed, or of what something happened.
#[derive(Clone, Copy, Debug, PartialEq, Eq)]
pub enum Spot {
    /// An object of the design.
    Object(ObjId),
    /// An activation.
    Local(Key),
    /// An object of a class.
    Field(Key),
    /// A container that is no property.
    Box(Key),
    /// A mailbox.
    Mailbox(Key),
    /// A named event.
    Event(Key),
    /// A clocking block.
    Clock(ClockId),
}

/// A value that was written, before and after.
#[derive(Drop)]
pub struct Change {
    pub spot: Spot,
    /// The number of the element of an object, of the variable of an activation, or of the property of an object; else 0.
    pub index: u32,
    /// The value before. Of a container, a mailbox, an event or a clocking block it is a null reference.
    pub old: Val,
    /// The value after, likewise.
    pub new: Val,
}

/// An element or a net that a write changed: what it held before.
#[derive(Drop)]
pub struct Overwritten {
    pub object: ObjId,
    /// The number of the element of a variable; of a net, of the driver that was written.
    pub element: u32,
    /// The value of that element, or of the net, before the write.
    pub old: Val,
}
