//! The flat design of the trees of all files, or the first rule that they break (IEEE 1800-2017, 3.12 and 23.3).
//!
//! 1. What the files declare outside units is settled (`sv_elab_whole`).
//! 2. The instances are walked (`sv_elab_walk`), and what their items give is put together without numbers, so that the first broken rule is found
//!    (`sv_elab_item`); beside it stand the rules on who writes what (`sv_elab_whole`).
//! 3. The paths of what was given are the numbers of its parts.
//! 4. What items give is put together once more, with these numbers, and is the design, with what each `always_comb` watches.
#![tactic(auto)]

mod elaborating;

pub use elaborating::elaborate;
