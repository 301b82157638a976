//! What the items of a design declare, and their processes and subroutines, with what they write and call (IEEE 1800-2017, 6.5, 8, 9.2, 10.3, 13,
//! 14.3 and 23.3).
//!
//! - `declares` has what items and ports declare, `targets` what continuous assignments write.
//! - `seen` says what is seen in a class and in its initializers, `bodies` what is seen in a subroutine; `routines` has what a subroutine
//!   does, `properties` the initializers of properties, `classes` the subroutines of a class.
//! - `processes` has the processes of items, `ports` those of port connections.
//! - `met` puts together what is met on the walk through a design, `initializers` the variables that have initializers.
//!
//! Each function answers what its definition in `sv_names` (`Sources`) gives, or that memory ran out. No rule is told here: of what breaks one,
//! what its names say is found.
#![tactic(auto)]

mod bodies;
mod classes;
mod declares;
mod initializers;
mod met;
mod ports;
mod processes;
mod properties;
mod routines;
mod seen;
mod targets;

pub use initializers::add_initialized;
pub use met::{met_connections, met_entered, met_item, met_outside};
