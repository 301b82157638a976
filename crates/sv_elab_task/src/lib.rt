//! Calls that are statements: tasks, functions, methods and system tasks (IEEE 1800-2017, 13, 20 and 21).
//!
//! - `calls` has all of them, by what is called; `called` what a name with what follows it calls, `forms` the statement that a call is.
//! - `tasks` has system tasks by their names: `prints` those that print, `ends` those that end a run.
//! - `actuals` has arguments in their brackets, `rows` values with their calls.
//!
//! Each function answers what its definition in `sv_names` gives, or the first rule that is broken, or that memory ran out.
#![tactic(auto)]

mod actuals;
mod called;
mod calls;
mod ends;
mod forms;
mod prints;
mod rows;
mod tasks;

pub use calls::{call, ignored_call};
