//! Statements over what their parts give (IEEE 1800-2017, 9 to 12).
//!
//! - `branches`, `case` with `heads` and `labels`, `loops`, `fors`, `foreach`, `blocks` and `forks` have one family of forms each, over the
//!   routines of their parts; `sequence` statements and routines one after another, `code` one statement, and a routine of its own.
//! - `waits` has what waits before a statement, `returns` with `results` what `return` gives, and where.
//! - `around` says where the parts of a statement stand, `scopes` how many scopes stand before; `rules` has statements that rules guard,
//!   `values` values that stand alone, `list` and `rows` lists and parts with their calls.
//!
//! Each function answers what its definition in `sv_names` gives, or the first rule that is broken, or that memory ran out. No tree is gone
//! through here but for the scopes that statements make: the table of statements (`sv_elab_stmt`) does that.
#![tactic(auto)]

mod around;
mod blocks;
mod branches;
mod case;
mod code;
mod foreach;
mod forks;
mod fors;
mod heads;
mod labels;
mod list;
mod loops;
mod results;
mod returns;
mod rows;
mod rules;
mod scopes;
mod sequence;
mod values;
mod waits;

pub use around::{in_event, in_loop, place, raised};
pub use blocks::{block, enclosed, end_label, inside};
pub use branches::{if_else, if_only, two_routines};
pub use case::case_made;
pub use code::{plain, plain_code, plain_guarded, routine, single, statement};
pub use foreach::{foreach_loop, walked};
pub use forks::{first_routine, fork, fork_parts, fork_stands, in_fork};
pub use fors::for_loop;
pub use heads::{Heads, heads_of, subject_in, subject_type};
pub use labels::{Labels, Placed, behind_item, label_in, some_labels};
pub use list::joined;
pub use loops::{do_loop, do_turn, forever, repeat_loop, while_loop};
pub use returns::{bare, beside, result_given, type_of};
pub use rows::in_row;
pub use rules::guarded_code;
pub use scopes::{after, after_item};
pub use sequence::{and_routine, in_sequence, no_routine, nothing, then};
pub use sv_elab_select;
pub use values::{alone_given, needs_activation};
pub use waits::{trigger_form, wait_form};
