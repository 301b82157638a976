//! Who writes what: the rules on writers and limits, over tables of what statements do (IEEE 1800-2017, 6.5, 9.2.2 and 10.3): E20, E22,
//! E23, E44.
//!
//! - `touch` has what statements do, and who does it; `rows` what is known of subroutines and processes, `table` finds a subroutine by its path.
//! - `writes` has the objects that are written, `marks` finds the writes of one; `reached` has the subroutines that a process can call.
//! - `clashes` has the rules on two writers, `standing` those of a design; `limits` counts what is declared.
#![tactic(auto)]

mod clashes;
mod flattened;
mod limits;
mod marks;
mod reached;
mod rows;
mod standing;
mod table;
mod touch;
mod writes;

pub use limits::limits_stand;
pub use rows::{Row, Source};
pub use standing::{met_stand, writers_stand};
pub use touch::{Initialized, Met, Process, Routine, Touch, Writer};
