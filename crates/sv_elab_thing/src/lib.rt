//! Things taken as values, called, cast by and followed by a dot (IEEE 1800-2017, 6.24, 7.10.1, 8, 13 and 14).
//!
//! - `steps` has things that may break a rule as values, called, and behind a dot; `dollar` what `$` stands for behind them.
//! - `conversions` has casts, by what they are to; `calls` the calls of the language, as `sv_elab_name` takes them.
//!
//! Each function answers what its definition in `sv_names` gives, or the first rule that is broken, or that memory ran out.
#![tactic(auto)]

mod calls;
mod conversions;
mod dollar;
mod steps;

pub use calls::AllCalls;
pub use conversions::cast;
pub use dollar::dollar_behind;
pub use steps::{call_step, member_step, value_step};
pub use sv_elab_call;
pub use sv_elab_call::sv_elab_select;
pub use sv_elab_operator;
