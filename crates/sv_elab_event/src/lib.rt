//! Event controls (IEEE 1800-2017, 9.4.2, 14.10 and 15.5.2).
//!
//! - `occasions` has what event expressions stand for: values and clocking blocks; `watches` what is watched of them, and `conditions` what
//!   must be true then.
//! - `parts` has one event expression of a control, `controls` a whole control.
//!
//! Each function answers what its definition in `sv_names` gives, or the first rule that is broken, or that memory ran out.
#![tactic(auto)]

mod conditions;
mod controls;
mod occasions;
mod parts;
mod watches;

pub use conditions::number_alone;
pub use controls::{control, named_control};
