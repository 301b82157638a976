//! The heads of subroutines, their scopes, and what the declarations of a unit stand for (IEEE 1800-2017, 8, 13, 14.3 and 23.9).
//!
//! - `names` has what the scope of a subroutine declares, `scopes` that scope, in the rounds of a unit or after them.
//! - `defaults` has the default values of arguments, `formals` the arguments, `results` what a function gives, `callees` the whole head.
//! - `stands` has the rules on a head.
//! - `meaning` has what a declaration of a unit stands for, and a unit that is settled with its classes.
//!
//! Each function answers what its definition in `sv_names` gives, or the first rule that is broken, or that memory ran out.
#![tactic(auto)]

mod callees;
mod defaults;
mod formals;
mod meaning;
mod names;
mod results;
mod scopes;
mod stands;

pub use callees::{Heading, callee_within};
pub use meaning::{InUnit, settled_unit, value_of_any};
pub use scopes::{pure_scope, routine_scope};
pub use stands::callee_stands;
pub use sv_elab_type::sv_elab_expr;
