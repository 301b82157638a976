//! What a process has still to run, and what a step of it does: a list of effects (IEEE 1800-2017, 4.4.2, 9.3 and 13).
//!
//! - `frames` has a stack of places in routines, `routines` the subroutine in which a place stands and the call of a statement.
//! - `effect` has the effects of a step, `ends` how a statement ends with them, `went` how far a step came.
//! - `inside` has what the arguments of a call see, `spare` the memory of updates and effects that were done.
#![tactic(auto)]

mod effect;
mod ends;
mod frames;
mod inside;
mod routines;
mod spare;
mod went;

pub use effect::Effect;
pub use ends::{go_on, pass, pass_with, put, wait_with};
pub use frames::{Frame, Frames, is_end, is_repeat, is_stmt, scope_in};
pub use inside::Inside;
pub use routines::{call_of, subroutine_of};
pub use spare::Spare;
pub use went::{Went, went_into, went_of};
