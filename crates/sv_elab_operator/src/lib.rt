//! Operators, casts, concatenations and literals on typed parts (IEEE 1800-2017, 5.7 to 5.9, 6.24 and 11.4).
//!
//! Each form is a function of what its parts give, each of which may break a rule; of two broken rules the earlier one is told. Each
//! function answers what its definition in `sv_names` gives, or the first rule that is broken, or that memory ran out.
#![tactic(auto)]

mod casts;
mod choices;
mod concatenations;
mod literals;
mod operators;
mod placed;
mod strings;
mod times;

pub use casts::{atom_type, cast_number, has_four_states, number_cast, sized};
pub use choices::choose;
pub use concatenations::{join, repeat};
pub use literals::{null, number};
pub use operators::{binary, binary_typed, comparison, context_of, kind_of, numbers, power, unary};
pub use placed::parts;
pub use strings::{string, text_of};
pub use sv_elab_value;
pub use times::{ticks_in, time};
