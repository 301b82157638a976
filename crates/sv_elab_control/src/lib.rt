//! What controls statements: conditions, the labels of `case`, `->`, `return`, and where a statement may wait (IEEE 1800-2017, 9.4, 12.4, 12.5,
//! 13.4.1 and 15.5.1).
//!
//! - `values` has conditions, `heads` with `labels` what a `case` compares, `leaves` `return` and `->`, `rules` where a statement may wait.
//!
//! What is made of these parts is in `sv_elab_flow`. Each function answers what its definition in `sv_names` gives, or the first rule that is
//! broken, or that memory ran out.
#![tactic(auto)]

mod heads;
mod labels;
mod leaves;
mod rules;
mod values;

pub use heads::case_heads;
pub use leaves::{return_form, trigger};
pub use rules::may_wait_here;
pub use values::condition;
