//! The nets that are driven so far, each as often as it has drivers (IEEE 1800-2017, 6.6.1 and 10.3.2).
//!
//! - `drives` has their list, `counts` how often a net stands in it.
#![tactic(auto)]

mod counts;
mod drives;

pub use drives::Drives;
