//! The values of the objects of a design: nets and static variables (IEEE 1800-2017, 6.5 and 6.8).
//!
//! `Store` is seen as the list of what its objects hold, in the words in which a run is defined: a variable has its
//! elements, a net a vector for each of its drivers, and a net's value is what these resolve to (6.6.1). The code keeps
//! this value beside the drivers. Memory is taken by `new`, by `read` of a string, and by `set_first`. `set`, `drive`, `value`, `cell`
//! and `set_cell` ask that the place is there; `read` and `write` take any place.
#![tactic(auto)]

mod change;
mod first;
mod net;
mod part;
mod slot;
mod store;

pub use change::{Change, Overwritten, Spot};
pub use store::Store;
