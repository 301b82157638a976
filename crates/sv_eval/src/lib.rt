//! The values of expressions of a flat design (IEEE 1800-2017, 11).
//!
//! - `values` has what an expression reads: `Values` is any place that has values, `Nowhere` is the place of constants.
//! - `stopped` says why an expression has no value.
//! - `vectors` and `texts` have what is done with vectors and with texts, `elements` elements of fixed arrays, `printed` fields
//!   of `$sformatf`.
//! - `forms`, `operators`, `branches` and `joins` have what each form gives for the values of its parts.
//! - `evaluate` has the table of all forms.
//!
//! A value or a fault is what the definition gives. Memory is wanting also for what reads the heap, and for vectors of no bit or
//! of more than 64, which no expression of an elaborated design has.
#![tactic(auto)]

mod branches;
mod elements;
mod evaluate;
mod forms;
mod joins;
mod operators;
mod printed;
mod stopped;
mod texts;
mod values;
mod vectors;

pub use evaluate::{value, value_in};
pub use forms::{text_in, vector_in};
pub use printed::printed_field;
pub use stopped::Stopped;
pub use values::{Nowhere, Values};
pub use vectors::{is_known, known_index};
