//! The processes of a run: which process forked which, and for which children each waits (IEEE 1800-2017, 9.3.2, 9.6.1 and 9.6.3).
//!
//! - `join` has the children for which a process waits, `member` one process.
//! - `members` changes one of the processes of a run, and tells which joins are complete.
//! - `living` lists the processes among which all living ones are found.
//! - `family` finds the living children and the living descendants of a process.
//! - `tree` has all processes of a run, by number.
#![tactic(auto)]

mod family;
mod join;
mod living;
mod member;
mod members;
mod tree;

pub use tree::{StartFault, Tree};
