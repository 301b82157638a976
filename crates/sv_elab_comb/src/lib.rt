//! What each `always_comb` watches (IEEE 1800-2017, 9.2.2.2.1).
//!
//! - `statements` collects the statements of a routine with all that stand in them; `classes` and `calls` have whom statements run, and
//!   `reached` the routines that a procedure runs through calls.
//! - `spans` has what operands and targets cover, `targets` what statements write, `covers` whether an operand lies in that, and `outer`
//!   whether its object is declared by a unit or a class.
//! - `combs` has what one `always_comb` watches, `processes` the design with that.
//!
//! A procedure watches what it and the routines that it runs read, but for what they write and what is declared in them.
#![tactic(auto)]

mod calls;
mod classes;
mod combs;
mod covers;
mod outer;
mod processes;
mod reached;
mod spans;
mod statements;
mod targets;

pub use processes::watching;
