//! The variables of declarations in statements: objects with their initial values, and first assignments (IEEE 1800-2017, 6.8 and 6.21).
//!
//! - `variables` has the objects of static variables, and the first assignments of the others.
//! - `openings` has the initializers of static variables, `alone` those of variables whose type breaks a rule, `words` the rules on how they are
//!   written.
//!
//! Each function answers what its definition in `sv_names` gives, or the first rule that is broken, or that memory ran out.
#![tactic(auto)]

mod alone;
mod openings;
mod variables;
mod words;

pub use alone::initial_broken;
pub use openings::initial_of;
pub use sv_elab_write;
pub use variables::declarations;
