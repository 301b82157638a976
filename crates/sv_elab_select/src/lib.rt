//! Selects of bits, parts, items and elements, and targets (IEEE 1800-2017, 7.4 to 7.10, 10.3, 10.4, 11.5 and 14.16).
//!
//! - `bits` has selects of bits and parts, `items` those of the items of containers and the elements of fixed arrays; `selects` has
//!   both by the type of what is selected of.
//! - `targets` judges what may be written; `written` has targets in the flat design, and how they are read; `behind` what stands behind.
//! - `rules` has rules beside values.
//!
//! Each form is a function of what its parts give, each of which may break a rule; of two broken rules the earlier one is told. Each
//! function answers what its definition in `sv_names` gives, or the first rule that is broken, or that memory ran out.
#![tactic(auto)]

mod behind;
mod bits;
mod items;
mod rules;
mod selects;
mod targets;
mod written;

pub use behind::{behind_target, hidden_of_spots};
pub use items::{container_of, counted_index, index_for, key_for};
pub use selects::{part_select_of, select_of};
pub use targets::{Spot, concatenated, may_be_written, may_begin, selects_stand, takes};
pub use written::{lvalue, lvalues, read_lvalues, read_of, type_of_target};
