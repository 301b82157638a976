//! Statements of the flat design, with the routines and objects that they add, or the first rule that they break (IEEE 1800-2017, 9 to 12).
//!
//! - `statement` is the table: it goes through the trees of statements; `single` has those that hold no other one. What is made of the parts
//!   of a statement is in `sv_elab_flow`.
//! - `delays` and `events` have what stands before a statement and waits, `foreach` the array that is walked, `fors` the last part of a `for`.
//! - Conditions, `case` and `return` are in `sv_elab_control`, calls in `sv_elab_task`, what is written in `sv_elab_write`, scopes in
//!   `sv_elab_block`, and their variables in `sv_elab_variable`.
//!
//! Each function answers what its definition in `sv_names` gives, or the first rule that is broken, or that memory ran out.
#![tactic(auto)]

mod delays;
mod events;
mod foreach;
mod fors;
mod single;
mod statement;

pub use events::at_event;
pub use statement::{stmt, stmts};
pub use sv_elab_variable;
