//! What assignments write: the places that targets stand for, and the values that they get (IEEE 1800-2017, 10.4, 10.7 and 11.5).
//!
//! - `scoped` has what a place of values tells beside them, the names of the activations in scope, and `seen` what an expression reads
//!   from a store and from activations: `Seen`, and `Before`, as it stood before a change. `change` has what was changed.
//! - `spot` has places that are written, `places` and `targets` those that targets stand for.
//! - `widths`, `pieces` and `values` have the values that targets take.
//! - `writes` has the write of a value to an object.
//!
//! Properties of objects and items of containers are not written yet: memory is wanting for them.
#![tactic(auto)]

mod change;
mod pieces;
mod places;
mod scoped;
mod seen;
mod spot;
mod targets;
mod values;
mod widths;
mod writes;

pub use change::Change;
pub use scoped::Scoped;
pub use seen::{Before, Seen};
pub use spot::Spot;
pub use targets::{spot_of, spots_of};
pub use values::{as_type, target_value, target_values};
pub use writes::overwrite;
