//! What statements read (IEEE 1800-2017, 9.2.2.2.1, 9.4.2.2 and 10.3.2).
//!
//! - `operands` goes through expressions: operands are names with their leading constant selects; `arrays` has arrays that are read
//!   whole, `outside` operands as they are seen from outside of activations.
//! - `targets`, `calls` and `forms` have what stands in statements, `inner` the routines that stand in them; `statements` goes through
//!   statements and these routines.
//!
//! Each function appends to a list exactly what its definition in `sv_names` (`Watched`) says, or answers that memory ran out.
#![tactic(auto)]

mod arrays;
mod calls;
mod forms;
mod inner;
mod operands;
mod outside;
mod statements;
mod targets;

pub use inner::inner_of;
pub use statements::{on_changes, read_by};
