//! What a subroutine has before its statements (IEEE 1800-2017, 8.7, 8.15, 8.17, 13.3 and 13.4).
//!
//! - `scopes` has what its statements see, `objects` the objects of static arguments and results; `stands` what its declarations break.
//! - `befores` has what a constructor does before its own statements: `supers` the constructor of the base, `properties` the
//!   initializers of properties, with `assignments` and `bases`.
//!
//! Each function answers what its definition in `sv_names` gives, or the first rule that is broken, or that memory ran out.
#![tactic(auto)]

mod assignments;
mod bases;
mod befores;
mod objects;
mod properties;
mod scopes;
mod stands;
mod supers;

pub use befores::{Before, before_made, constructor_before};
pub use objects::add_objects;
pub use scopes::{body_scope, has_result, returns_of, this_scope};
pub use stands::{pure_stands, routine_stands};
pub use supers::{Opening, after_opening, opening_of};
pub use sv_elab_flow;
pub use sv_elab_head;
