//! The scopes of blocks, forks, `for` and `foreach`, with all that they declare (IEEE 1800-2017, 6.21, 9.3 and 12.7).
//!
//! - `names` has what each of them declares, `paths` the path of its scope, and `scopes` the scope with all that it declares.
//! - `stands` tells what the declarations of such a scope break.
//!
//! Each function answers what its definition in `sv_names` gives, or that memory ran out; `stands` the first rule that is broken.
#![tactic(auto)]

mod names;
mod paths;
mod scopes;
mod stands;

pub use scopes::{block_scope, for_scope, foreach_scope};
pub use stands::{block_stands, for_stands, foreach_stands};
