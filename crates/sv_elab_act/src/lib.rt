//! What statements write, call and declare (IEEE 1800-2017, 6.21, 9, 10.4, 12 and 13).
//!
//! - `declared` has what scopes declare: objects, and elements of fixed arrays.
//! - `inits` has what is given to variables, `declarations` the variables of blocks.
//! - `parts` has assignments, delays, event controls and the last part of a `for`; `scopes` the scopes of blocks and loops.
//! - `single` has statements that hold no other one; `statement` is the table, which goes through the trees of statements.
//!
//! Each function appends to a list exactly what its definition in `sv_names` (`Writers`) says, or answers that memory ran out. No rule is
//! told here: of what breaks one, what its names say is found.
#![tactic(auto)]

mod declarations;
mod declared;
mod inits;
mod parts;
mod scopes;
mod single;
mod statement;

pub use declarations::add_declarations;
pub use declared::{add_declared, add_scope};
pub use inits::{add_init, constructor_path};
pub use statement::{add_stmt, add_stmts};
