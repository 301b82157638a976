//! What the words of a call of svsim ask for: files, the name of a root, a list of choices, a number of steps.
//!
//! - `words` reads the words, `choices` a list of choices, `digits` a number.
#![tactic(auto)]

mod choices;
mod digits;
mod words;

pub use words::{Limits, Simulation, Task, WordFault, read_words};
