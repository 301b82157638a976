//! What the next step of a process does: a list of effects, computed from what the process sees (IEEE 1800-2017, 4.4.2 and 9).
//!
//! - `next` finds what comes first of what the process has still to run (`sv_stack`), `steps` has the step by its kind, `statement` runs a statement with
//!   the calls before it, and `forms` what it does by its form.
//! - `blocks`, `branches`, `cases`, `loops`, `elements` and `jumps` have the statements that choose what comes next; `assigns` and `later`
//!   assignments, `waits` delays, event controls and `wait`, `forks` forks, `prints` prints, `others` the rest.
//! - `calls` begins a call of a task or a function, `returns` has `return`, and `leaves` the end of a call.
//!
//! Each function is told by the words of the definition: the effects that the code gives, with what is left to run, are those that the
//! definition has for the statement. Memory is wanting, too, for what is not run: `$monitor`, a `case` of anything but vectors of one width
//! or strings, and calls of methods.
#![tactic(auto)]

mod assigns;
mod blocks;
mod branches;
mod calls;
mod cases;
mod elements;
mod forks;
mod forms;
mod jumps;
mod later;
mod leaves;
mod loops;
mod next;
mod others;
mod prints;
mod returns;
mod statement;
mod steps;
mod waits;

pub use next::step;
pub use prints::printed;
pub use steps::Stepped;
