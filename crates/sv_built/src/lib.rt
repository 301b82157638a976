//! The designs that may be run so far.
//!
//! - `built` tells which these are: the flat designs all of whose forms are built.
//! - `exprs`, `targets`, `calls` and `stmts` have the same of their parts.
//! - `design` has such a design.
//! - `position` says where a statement stands in it, `wait` for what a process waits, `entered` what an activation is made for.
#![tactic(auto)]

mod built;
mod calls;
mod design;
mod entered;
mod exprs;
mod position;
mod stmts;
mod targets;
mod wait;

pub use built::is_built;
pub use design::Design;
pub use entered::Entered;
pub use position::Position;
pub use wait::Wait;
