//! Selects behind a name, system functions and targets, over what their parts give (IEEE 1800-2017, 7.4, 10.3, 11.5, 13.5 and 20).
//!
//! - `behind` says what stands behind a part of a statement; `actuals` has arguments as they are taken.
//! - `steps` has one more select behind a thing, `targets` things as targets, `spots` concatenations of targets.
//! - `system` has system functions over their arguments, `words` what they ask of trees.
//!
//! Each function answers what its definition in `sv_names` gives, or the first rule that is broken, or that memory ran out.
#![tactic(auto)]

mod actuals;
mod behind;
mod spots;
mod steps;
mod system;
mod targets;
mod words;

pub use actuals::{first_output, literal_text, more_outputs};
pub use behind::{after, behind_arg, behind_spots, behind_value};
pub use spots::as_concatenation;
pub use steps::{behind_object, fault_of, in_index, part_step, select_step};
pub use sv_elab_print;
pub use system::{system_of, system_value};
pub use targets::{called_before, kept, selected_before, target_step};
pub use words::{first_type, no_constructor, outputs_of_system};
