//! What holds of a design as a whole (IEEE 1800-2017, 3.12, 3.14.2 and 23.3).
//!
//! - `files` has what the files declare outside units, settled; `instances` the instances of the walk with their classes.
//! - `meeting` has the rules on who writes what, `scales` those on time scales.
//! - `numbering` has the numbers of parts, which are the positions of their paths; `finishing` the parts of the design, with the number of
//!   the drivers of each net.
//!
//! Each function answers what its definition in `sv_names` gives, or the first rule that is broken, or that memory ran out.
#![tactic(auto)]

mod files;
mod finishing;
mod foreseen;
mod instances;
mod meeting;
mod numbering;
mod scales;

pub use files::{classes_of, file_group, nowhere, scopes_of};
pub use finishing::parts_from;
pub use foreseen::{foreseen_numbers, is_foreseen};
pub use instances::{classes_in, instances_in, programs_in};
pub use meeting::all_met_stand;
pub use numbering::{no_numbers, numbers_of};
pub use scales::{scale_of, scales_agree};
