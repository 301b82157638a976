//! What elaboration gives, in memory of its own. The time of a copy is linear in its size.
//!
//! - `copies` has expressions, `target_copies` targets and typed expressions, and `call_copies` calls with what stands around them.
#![tactic(auto)]

mod call_copies;
mod copies;
mod target_copies;

pub use call_copies::copy_code;
pub use copies::{copy_expr, copy_optional};
pub use target_copies::{copy_base, copy_part, copy_target, copy_typed};
