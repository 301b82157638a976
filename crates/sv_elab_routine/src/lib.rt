//! Tasks, functions, methods and constructors of the flat design (IEEE 1800-2017, 8.6 to 8.8, 8.15, 8.17, 13.3 and 13.4).
//!
//! - `routines` has subroutines over their scopes, `bodies` what they hold, `constructors` constructors, written or implied. What stands
//!   before the statements of one, and what their declarations break, is proved beside the statements, in `sv_elab_before`.
//!
//! Each function answers what its definition in `sv_names` gives, or the first rule that is broken, or that memory ran out.
#![tactic(auto)]

mod bodies;
mod constructors;
mod routines;

pub use constructors::constructor_made;
pub use routines::routine_made;
pub use sv_elab_before::pure_stands;
pub use sv_elab_stmt;
pub use sv_elab_stmt::sv_elab_variable;
