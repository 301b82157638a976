//! The classes of a unit or of the files: their bases, their virtual methods, and all that they declare (IEEE 1800-2017, 8).
//!
//! - `heads` has the classes that items declare, with the bases that are written (`bases`); `lines` those that extend themselves.
//! - `slots` has the names of virtual methods.
//! - `lists` has what a unit and its classes declare, `infos` the classes before anything of them is settled, `groups` the whole settled.
//! - `announced` has classes that are announced, `overrides` methods against those of the bases, `pure` pure methods that are left.
//!
//! Each function answers what its definition in `sv_names` gives, or the first rule that is broken, or that memory ran out.
#![tactic(auto)]

mod announced;
mod bases;
mod groups;
mod guards;
mod heads;
mod infos;
mod lines;
mod lists;
mod overrides;
mod slots;

pub use announced::announcements_stand;
pub use groups::settled_group;
pub use heads::{ClassHead, add_heads, file_heads};
pub use lines::bases_stand;
pub use overrides::{overrides_stand, some_left_pure};
