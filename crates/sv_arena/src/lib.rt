//! The activations of a run: the variables of the blocks, loops and calls that are entered (IEEE 1800-2017, 6.21).
//!
//! - `name` tells them apart: an activation is named by the process that made it, and its place among those that this process made.
//! - `arena` is a list that only grows, in chunks, `variable` and `activation` have the variables of one activation,
//!   and `part` the write of a part of a value.
//! - `row` has the places of the activations of one process, and `activations` all activations of a run, found by their names.
#![tactic(auto)]

mod activation;
mod activations;
mod arena;
mod chunk;
mod name;
mod part;
mod row;
mod variable;

pub use activation::Variables;
pub use activations::Activations;
pub use arena::Arena;
pub use name::Name;
pub use variable::Variable;
