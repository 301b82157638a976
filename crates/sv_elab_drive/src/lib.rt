//! The nets that targets drive, and processes of one assignment (IEEE 1800-2017, 6.6.1, 10.3.2 and 23.3.3).
//!
//! - `drivers` has the nets that a target drives, and targets that drive them with numbers behind those of other processes.
//! - `processes` has processes whose body is one assignment, `watched` what they watch.
//!
//! Nets are numbered as processes are made: a function is told the nets that are driven before, each as often as it has drivers.
#![tactic(auto)]

mod drivers;
mod processes;
mod watched;

pub use drivers::{all_driving, nets_of};
pub use processes::assigning;
