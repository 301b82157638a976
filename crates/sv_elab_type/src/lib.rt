//! The types that are written, and what declarations stand for (IEEE 1800-2017, 6 and 7).
//!
//! - `vectors` has vector types with their ranges, `enums` enums with what is seen in their bases, `elements` what arrays hold; `types` has
//!   the types that are written, `dimensions` those of declared variables.
//! - `parameters` has the values of parameters, `items` those of the items of enums.
//! - `meaning` has what a declaration stands for by itself.
//!
//! Each function answers what its definition in `sv_names` gives, or the first rule that is broken, or that memory ran out.
#![tactic(auto)]

mod dimensions;
mod elements;
mod enums;
mod items;
mod meaning;
mod parameters;
mod types;
mod vectors;

pub use dimensions::declared_type;
pub use elements::{may_be_item, may_be_key};
pub use items::item_value;
pub use meaning::{Alone, value_of_entry};
pub use parameters::parameter_value;
pub use sv_elab_expr;
pub use sv_elab_expr::sv_elab_value;
pub use types::{implied, place_of_type, type_of};
pub use vectors::{bound, is_signed, vector_type};
