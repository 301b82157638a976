//! Calls of the methods of the language, over their arguments (IEEE 1800-2017, 6.16, 6.19, 7.5 to 7.10 and 15).
//!
//! - `forms` has calls and operators of the flat design by their parts, `given` what is called and what it gives.
//! - `containers` has the methods of queues, dynamic and associative arrays, `walks` those that go from key to key; `mailboxes` those of
//!   mailboxes, `semaphores` of semaphores, `enums` of enums.
//! - `methods` has all of them by what they do, and the rules on where they stand.
//!
//! Each function answers what its definition in `sv_names` gives, or the first rule that is broken, or that memory ran out.
#![tactic(auto)]

mod containers;
mod enums;
mod given;
mod mailboxes;
mod methods;
mod semaphores;
mod sizes;
mod walks;

pub use methods::method_called;
pub use sizes::size_expr;
