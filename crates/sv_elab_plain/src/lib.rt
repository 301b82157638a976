//! What items without statements give to the flat design, and the rules on them (IEEE 1800-2017, 3.4, 6, 14.12 and 23).
//!
//! - `objects` has variables, nets and ports as objects; `processes` continuous assignments, nets with values and port connections.
//! - `instances` has the rules on items with instances, `defaults` the default clocking, `files` what the scope of the files breaks.
//! - `beside` has what is told first of two parts, `steps` the instance in which a step of the walk stands.
//!
//! Each function puts what its definition in `sv_names` (`Items`) gives behind what stands so far, or answers the first rule that is broken, or
//! that memory ran out.
#![tactic(auto)]

mod beside;
mod defaults;
mod files;
mod instances;
mod objects;
mod processes;
mod steps;

pub use beside::sooner;
pub use defaults::{default_in, one_default};
pub use files::add_file_scope;
pub use instances::instances_stand;
pub use objects::{add_nets, add_ports, add_variables};
pub use processes::{add_assigns, add_links, add_net_values};
pub use steps::inst_of;
pub use sv_elab_connect;
