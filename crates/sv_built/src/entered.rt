// What an activation is made for.
use crate::Position;
use sv_value::RoutineId;

/// What an activation is made for, by where it stands in the design (IEEE 1800-2017, 6.21, 12.7.3 and 13.3).
#[derive(Clone, Copy, Debug, PartialEq, Eq)]
pub enum Entered {
    /// The variables of the block or the fork at a position.
    Block(Position),
    /// The index of a `foreach` of a fixed array.
    Index,
    /// The hidden variables of the statement at a position.
    Hidden(Position),
    /// The variables of a subroutine.
    Call(RoutineId),
}
