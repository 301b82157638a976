//! Modules and programs as they are written: which there are, the roots, their ports and their parameters (IEEE 1800-2017, 23.2, 23.3.1 and 23.10).
//!
//! - `definitions` has modules and programs, `units` finds them by their names; `used` has which are instantiated, `tops` those that are not.
//! - `ports` has the ports of a unit with what they take from those before, `params` the names of the parameters that an instance can give.
#![tactic(auto)]

mod definitions;
mod params;
mod ports;
mod tops;
mod units;
mod used;

pub use definitions::Definition;
pub use params::param_names;
pub use ports::{PortInfo, port_names, ports_of};
pub use tops::{is_among, put_first, roots};
pub use units::Units;
