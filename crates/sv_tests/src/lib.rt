//! Tests of calls that no text reaches: runs over logs that fail, one step at a time, and of both sides; lists of a slot; values.
//!
//! They stand in a crate of their own, since tests inside a crate are proved together with all of the crate. What a text can show stands in `tests/`.
#![tactic(auto)]

#[cfg(test)]
mod runs;
#[cfg(test)]
mod slots;
#[cfg(test)]
mod small;
#[cfg(test)]
mod values;
