//! What of a subroutine of the flat design its head and its scope tell (IEEE 1800-2017, 8.6, 13.3 and 13.4).
//!
//! - `formals` has the arguments and the object of a method, by the variables that they are; `results` the result of a function.
//! - `bodies` has where the statements of a subroutine stand, `own_names` the name of a function inside it.
//!
//! Each function answers what its definition in `sv_names` gives, or that memory ran out.
#![tactic(auto)]

mod bodies;
mod formals;
mod own_names;
mod results;

pub use bodies::in_body;
pub use formals::formals_of;
pub use own_names::function_scope;
pub use results::result_formal;
