//! The walk of the instances, from the roots inward, as data (IEEE 1800-2017, 23.3, 23.3.1 and 23.10).
//!
//! - `instance` has an instance with its settled scope, and what is met on the walk.
//! - `seen` has what is seen in an instance, `givens` the values that its connections give to parameters, `making` makes it.
//! - `frames` has the instances whose items are being walked: a list in place of calls in calls, so that a chain of many takes no stack.
//! - `steps` goes from one instance to the next, `walk` over all roots.
//!
//! Each function answers what its definition in `sv_names` gives, or that memory ran out.
#![tactic(auto)]

mod frames;
mod givens;
mod instance;
mod making;
mod seen;
mod steps;
mod walk;

pub use instance::{Inst, Walked};
pub use seen::{Seen, around_unit, seen_in};
pub use sv_elab_head;
pub use sv_elab_signal;
pub use walk::walked;
