// What a process waits for a change of.
use crate::Position;
use sv_value::ProcessId;

/// What a process waits for a change of, by where it stands in the design (IEEE 1800-2017, 9.4.2, 9.4.3, 9.2.2.2 and 10.3).
#[derive(Clone, Copy, Debug, PartialEq, Eq)]
pub enum Wait {
    /// The event expressions of the event control at a position.
    Control(Position),
    /// The condition of the `wait` at a position.
    Condition(Position),
    /// What the process with this number watches after each run: an `always_comb`, a continuous assignment or a port connection.
    Watched(ProcessId),
}
