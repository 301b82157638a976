//! The signals and the events of clocking blocks, as names of a unit (IEEE 1800-2017, 14.3).
//!
//! - `sides` has how signals are passed, `signals` the signals of a clocking block, `events` its event.
//! - `parts` has names and values in memory of their own.
//!
//! Each function answers what its definition in `sv_names` gives, or the first rule that is broken, or that memory ran out.
#![tactic(auto)]

mod events;
mod parts;
mod sides;
mod signals;

pub use events::event_of;
pub use parts::{among, known, share_name, with_scope, within};
pub use sides::{is_input_side, is_output_side};
pub use signals::{object_meant, signal_of_named, signals_in};
