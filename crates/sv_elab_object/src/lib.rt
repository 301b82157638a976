//! What a settled scope adds to the flat design, and what its declarations break (IEEE 1800-2017, 6.8, 6.19, 6.21, 13 and 23.9).
//!
//! - `objects` has objects of the flat design by what is declared, `locals` the variables of the activation of a scope.
//! - `known` tells what the declarations of a scope break.
//!
//! Each function answers what its definition in `sv_names` gives, or the first rule that is broken, or that memory ran out.
#![tactic(auto)]

mod known;
mod locals;
mod objects;

pub use known::{known_stand, name_stands};
pub use locals::locals_of;
pub use objects::{Flags, home_of, object_at};
pub use sv_elab_value;
