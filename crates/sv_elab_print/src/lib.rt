//! What is printed (IEEE 1800-2017, 21.2.1 and 21.3.3).
//!
//! - `formats` reads a string literal as a format; `fields` gives its fields the arguments behind it.
//! - `prints` has what the arguments of a system task print, `strings` what `$sformatf` gives.
//!
//! Each function answers what its definition in `sv_names` gives, or the first rule that is broken, or that memory ran out.
#![tactic(auto)]

mod fields;
mod formats;
mod prints;
mod strings;

pub use prints::all_printed;
pub use strings::sformatf;
