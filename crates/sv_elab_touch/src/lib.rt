//! What expressions write and call (IEEE 1800-2017, 6.5, 8.7, 9.2.2.2, 10.3 and 13).
//!
//! - `quiet` has names that write and call nothing, and what a name alone writes, by what it stands for.
//! - `written` has the objects that targets are of, `before` what stands in a target before a select that breaks a rule, `targets`
//!   targets as they are written.
//! - `calls` has what is called, with the arguments that are targets; `exprs` goes through expressions, `lvals` through the
//!   targets of statements.
//!
//! Each function appends to a list exactly what its definition in `sv_names` (`Writers`) says, or answers that memory ran out. No rule is
//! told here: of what breaks one, what its names say is found.
#![tactic(auto)]

mod before;
mod calls;
mod exprs;
mod lvals;
mod quiet;
mod targets;
mod written;

pub use exprs::{add_actuals, add_expr, add_exprs};
pub use lvals::{add_lval, add_selects};
pub use sv_elab_expr;
pub use targets::add_target;
