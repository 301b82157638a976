//! Assignments, once their parts are elaborated (IEEE 1800-2017, 6.21, 7.5, 8.7, 8.12, 10.4, 10.5, 11.4.1, 11.4.2 and 14.16).
//!
//! - `amount` has delays, and the rules on where a timing control may stand; `standing` says where the value of an assignment stands.
//! - `written` has values that are given to targets at once or after a delay, `later` nonblocking assignments and drives, `updates` `a += b`
//!   and `a++`.
//! - `arrays` has `new[n]`, `copies` `new h`, `making` `new` of mailboxes and semaphores; `openings` has the initializers of static variables.
//! - `wholes` puts a target, a delay and what is behind the `=` together; `beside` tells what these break beside one another.
//!
//! Each form is a function of what its parts give, each of which may break a rule; of two broken rules the earlier one is told. Each
//! function answers what its definition in `sv_names` gives, or the first rule that is broken, or that memory ran out.
#![tactic(auto)]

mod amount;
mod arrays;
mod beside;
mod copies;
mod later;
mod making;
mod openings;
mod standing;
mod updates;
mod wholes;
mod written;

pub use amount::{Amount, delay_given, number_amount, time_amount, timing_stands, wait_stands};
pub use arrays::{Source, array_given};
pub use copies::copy_given;
pub use later::assign_later;
pub use making::{bound_given, mailbox_made, nothing_made, object_made, semaphore_made};
pub use openings::{
    array_at_opening, at_opening, copy_at_opening, object_at_opening, sync_at_opening,
    value_at_opening,
};
pub use standing::{behind_target, later_around, operand_around, source_around, value_around};
pub use sv_elab_call;
pub use updates::{step, update};
pub use wholes::{assign, assign_array, assign_copy, assign_new};
pub use written::value_given;
