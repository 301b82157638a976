//! Typed expressions and targets, or the first rule that they break (IEEE 1800-2017, 10.3, 10.8, 11 and 13.5).
//!
//! - `table` goes through trees: expressions, names with what follows them, arguments, targets.
//! - `dollar` has `$`; `operands` says where the parts of an operator stand, `before` what stands in a target before a suffix; `places` has
//!   first tokens.
//!
//! Each function answers what its definition in `sv_names` gives, or the first rule that is broken, or that memory ran out.
#![tactic(auto)]

mod before;
mod dollar;
mod operands;
mod places;
mod table;

pub use places::{place_of, place_of_root};
pub use sv_elab_name;
pub use sv_elab_name::sv_elab_value;
pub use sv_elab_step;
pub use sv_elab_step::sv_elab_print;
pub use sv_elab_thing;
pub use sv_elab_thing::{sv_elab_call, sv_elab_operator, sv_elab_select};
pub use table::{args, behind_root, expr, named, target_in, target_of_name};
