//! What a name with its members stands for (IEEE 1800-2017, 6, 8, 13.5, 14 and 23.9).
//!
//! - `thing` has what a name with its members and calls can stand for; `methods` the methods of the language, by their names.
//! - `variables` has objects, variables of activations and properties as typed expressions; `object` the object at hand, and `protection`
//!   who may name a member.
//! - `names` has what a name alone stands for, `members` members of objects and classes, `roots` what a name begins with.
//! - `steps` has things that may break a rule, and which of their arguments are targets.
//! - `value` has a thing as a value, `suffixes` what follows a dot; `calls` says what they ask of calls, whose crates are proved beside.
//!
//! Each function answers what its definition in `sv_names` gives, or the first rule that is broken, or that memory ran out.
#![tactic(auto)]

mod calls;
mod members;
mod methods;
mod names;
mod object;
mod protection;
mod roots;
mod steps;
mod suffixes;
mod thing;
mod value;
mod variables;

pub use calls::Calls;
pub use members::{base_of, class_named, member_named, member_thing, object_of};
pub use methods::method_of;
pub use names::{named_thing, subroutine_thing};
pub use object::{at_hand, this_typed};
pub use protection::{is_within, may_be_named};
pub use roots::root_thing;
pub use steps::{hidden_behind, judged_thing, outputs_behind, outputs_of};
pub use suffixes::{signal_named, value_member};
pub use sv_elab_value;
pub use thing::Thing;
pub use value::{signal_read, signal_target};
pub use variables::{field_typed, lasts, local_typed, object_typed};
