//! Constants, and values for targets, arguments and conditions (IEEE 1800-2017, 6.22, 10.8 and 11.2.1).
//!
//! - `parts` has what stands before a statement, and typed expressions that are no targets; `operands` numbers and single items.
//! - `constants` has the values of constant expressions, by the run's own evaluation, `folding` the literals that stand for them.
//! - `values` has constant numbers, and values for targets that are numbers or containers; `fits` values for targets of any type.
//! - `arguments` has what arguments break by themselves, `stands` where a call may stand.
//!
//! Each function answers what its definition in `sv_names` gives, or the first rule that is broken, or that memory ran out.
#![tactic(auto)]

mod arguments;
mod constants;
mod fits;
mod folding;
mod operands;
mod parts;
mod stands;
mod values;

pub use arguments::{first_two, values_stand};
pub use fits::{assigned, common_reference, exactly, fits_class, item_assigned};
pub use folding::{alone, bits_of, folded};
pub use operands::{index, item, number_index, number_operand, one_item, operand};
pub use parts::{code_of, converted, expr_of, paired, pure, value_typed};
pub use stands::{call_stands, rule, task_stands, value_stands};
pub use sv_eval::{is_known, known_index};
pub use values::{
    assigned_if, constant, constant_count, constant_number, container_assigned, counted,
    not_too_wide, number_assigned, widened,
};
