//! Continuous assignments and port connections, and the processes that they make (IEEE 1800-2017, 10.3 and 23.3).
//!
//! - `connections` has which connection belongs to a port, `links` what it is connected to, `fits` the rules on lists of connections, `stands` what
//!   their expressions break by themselves.
//! - `objects` has ports as they are seen from outside their unit.
//! - `giving` has processes that give a value again and again, `ports` those of port connections, `nets` those of net declarations.
//!
//! Each function answers what its definition in `sv_names` gives, or the first rule that is broken, or that memory ran out. Processes are
//! numbered as they are made: a function that makes one is told the nets that those before it drive, and appends its own.
#![tactic(auto)]

mod connections;
mod fits;
mod giving;
mod links;
mod nets;
mod objects;
mod ports;
mod stands;

pub use fits::{connections_fit, values_name};
pub use giving::continuous;
pub use links::{Linked, linked_port};
pub use nets::net_made;
pub use ports::port_link;
pub use stands::{connections_stand, expr_stands};
pub use sv_elab_expr;
