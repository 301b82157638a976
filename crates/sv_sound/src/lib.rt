//! What the runs of built designs keep, and the laws that follow.
#![tactic(auto)]

mod laws;

pub use laws::built_is_directed;
