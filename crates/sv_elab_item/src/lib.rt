//! What each item on the walk of the instances gives to the flat design, or the rules that it breaks (IEEE 1800-2017, 3.3, 3.4, 6, 9.2 and 23).
//!
//! - `procedures` has procedures as processes, `common` what stands in units as outside them: classes and subroutines.
//! - `items` goes over all forms of items, `walked` has what is met on the walk, `given` all of it.
//!
//! Items without statements are proved beside the statements, in `sv_elab_plain`.
//!
//! Each function puts what its definition in `sv_names` (`Items`) gives behind what stands so far, or answers the first rule that is broken, or
//! that memory ran out.
#![tactic(auto)]

mod common;
mod given;
mod items;
mod procedures;
mod walked;

pub use given::add_given;
