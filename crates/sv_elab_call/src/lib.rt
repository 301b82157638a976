//! Calls of subroutines, over their arguments (IEEE 1800-2017, 8, 13 and 15).
//!
//! - `passing` has the arguments of subroutines, `rows` arguments with their calls, `types` types that may break a rule.
//! - `calls` has calls of subroutines, `casts` of `$cast`; `given` what a call gives as a value.
//!
//! Each function answers what its definition in `sv_names` gives, or the first rule that is broken, or that memory ran out.
#![tactic(auto)]

mod calls;
mod casts;
mod given;
mod passing;
mod rows;
mod types;

pub use calls::subroutine_called;
pub use casts::cast_called;
pub use given::as_value;
pub use passing::arguments;
pub use rows::in_row;
pub use sv_elab_select;
