//! The parts of a flat design, one after another in the order of the walk (IEEE 1800-2017, 3.12).
//!
//! - `so_far` has what stands so far of a design, and how a part is put behind it.
//! - `joined` has what several items give, one after another.
#![tactic(auto)]

mod joined;
mod so_far;

pub use joined::{and_adding, guarded_adding};
pub use so_far::SoFar;
