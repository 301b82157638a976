//! What a run keeps between two steps, and what the parts of a step make of it (IEEE 1800-2017, 4.4).
//!
//! - `machine` has what is kept: the time, the values, the regions, the future, and where each process stands.
//! - `opening` opens a run.
//! - `starts` takes a process.
//! - `statements` makes the next step of the process that runs, effect by effect (`effects`).
//! - `forks` has forks, `wait fork` and `disable fork`.
//! - `writes` writes values, and lets those go on whom the change wakes (`wakes`); it does jobs.
//! - `strobes` prints as a slot ends.
//!
//! Each is proved against what the definition makes of the configuration for which the machine stands (`specs/Machine.antt`).
#![tactic(auto)]

mod effects;
mod entering;
mod forks;
mod line;
mod machine;
mod opening;
mod sides;
mod starts;
mod statements;
mod strobes;
mod wakes;
mod writes;

pub use line::Line;
pub use machine::{Kept, Machine};
pub use opening::opened;
pub use sides::{front_region, other_side};
pub use starts::begin_process;
pub use statements::run_statement;
pub use strobes::{Printed, print_strobes};
pub use writes::do_job;
