//! All that the program `svsim` does, over a shelf of files and a sink for the log.
//!
//! - `top` has the call, `simulate`: words in, a log and a status out.
//! - `answer` does what the words ask, `run` runs the texts of the files, and `front` makes the design of them or tells what they break.
//! - `lines` has the lines that close a log.
//! - `laws` says that the same files and words always say the same.
#![tactic(auto)]

mod answer;
mod front;
mod laws;
mod lines;
mod run;
mod top;

pub use top::simulate;
