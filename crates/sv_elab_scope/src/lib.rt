//! What scopes declare, and how declarations that need one another are settled (IEEE 1800-2017, 6.20, 8.13 and 23.9).
//!
//! A *group* is a scope with its classes: a unit, or the files; a block or a subroutine is one without classes. A group is settled so:
//! 1. at first every declaration waits (`beginning`);
//! 2. in each round those that wait are evaluated over what is known (`evaluation`, `rounds`), until none ceases to wait;
//! 3. each that waits then is tried for which others need it directly (`needs`), and which need themselves is sought (`loops`);
//! 4. those are evaluated where all of them are tried, and break E7 or E11 (`looped`);
//! 5. what only depends on such a one is evaluated in further rounds (`settlement`).
//!
//! - `declared` has what scopes declare, as references into trees; `places` the places of constants, `repeated` names that are declared twice.
//! - `means` is what declarations stand for: a trait, so that a subroutine can be settled within its unit.
//! - `group` has groups with other values, `seen` what is seen within them, `marks` which of their declarations wait.
//! - `waiting` has values that wait, `tried` those that are tried; `changes` and `ids` serve the steps 3 and 4.
#![tactic(auto)]

mod beginning;
mod changes;
mod declared;
mod evaluation;
mod group;
mod ids;
mod looped;
mod loops;
mod marks;
mod means;
mod needs;
mod places;
mod repeated;
mod rounds;
mod seen;
mod settlement;
mod stage;
mod tried;
mod waiting;

pub use beginning::{all_waiting, without_announcements};
pub use declared::{Declared, DeclaredPure, DeclaredRoutine, Entry, Source, Storage};
pub use group::Group;
pub use means::Means;
pub use repeated::twice;
pub use settlement::{first_settled, settled};
pub use stage::Stage;
