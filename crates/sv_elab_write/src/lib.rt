//! What statements write: assignments over trees, and the first values of variables (IEEE 1800-2017, 6.21, 7.5.1, 8.7, 9.4.5, 10.4, 11.4 and
//! 12.7.1).
//!
//! - `assignments` has the forms of assignments; `amounts` the delays in them, which stand before statements too.
//! - `targets` has what is written to, `names` names alone, and variables that their declarations initialize.
//! - `news` has what `new` makes of its arguments, with the constructors of classes.
//!
//! What is made of these parts is in `sv_elab_assign`. Each function answers what its definition in `sv_names` gives, or the first rule that is
//! broken, or that memory ran out.
#![tactic(auto)]

mod amounts;
mod assignments;
mod names;
mod news;
mod targets;

pub use amounts::amount_of;
pub use assignments::{
    assign_value, assigned, first_assigned, first_value, later, operated, stepped, timed,
};
pub use names::value_of_name;
pub use news::{actual_args, made, outputs_of_new};
pub use sv_elab_expr;
pub use sv_elab_expr::{sv_elab_name, sv_elab_step};
pub use targets::{place_of_target, target_of};
