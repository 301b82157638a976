//! Clocking blocks of the flat design (IEEE 1800-2017, 14).
//!
//! - `skews` has when signals are sampled and driven, `signals` the signals, `rules` what their names and the end label break.
//! - `blocks` has the block itself, with the objects that hold samples.
//!
//! Nets are numbered as what drives them is made: a function is told the nets that are driven before, each as often as it has drivers.
//! Each function answers what its definition in `sv_names` gives, or the first rule that is broken, or that memory ran out.
#![tactic(auto)]

mod blocks;
mod rules;
mod samples;
mod signals;
mod skews;

pub use blocks::clocking_of;
