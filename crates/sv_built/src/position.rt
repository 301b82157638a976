// Where a statement stands in a design.
use sv_value::RoutineId;

/// The statement at a place of a routine.
#[derive(Clone, Copy, Debug, PartialEq, Eq)]
pub struct Position {
    pub routine: RoutineId,
    pub place: usize,
}
