//! What declarations declare: the names of a scope with what each is, from the trees of its declarations (IEEE 1800-2017, 6, 8.4, 13 and 23.9).
//!
//! Each call appends the names of one part of a scope in the order of the text: the items of the enums in a type before the names that have it.
//! - `types` has the items of the enums in types, `variables` the names of declarations, `arguments` those of subroutines.
//! - `classes` has what a class declares itself, `subroutines` what the scope of a subroutine declares, `blocks` the named blocks of statements.
//! - `units` has what a unit declares in an instance, and what files declare, over its `params` and `ports`.
//! - `scope` settles a scope that stands alone, as that of a block or a subroutine.
#![tactic(auto)]

mod arguments;
mod blocks;
mod classes;
mod params;
mod ports;
mod scope;
mod subroutines;
mod types;
mod units;
mod variables;

pub use arguments::add_arguments;
pub use blocks::{add_all_blocks, add_blocks};
pub use classes::add_class;
pub use params::{GivenValue, add_param, add_params};
pub use ports::add_ports;
pub use scope::{ScopeHead, first_scope, makes_activation, settled_scope};
pub use subroutines::{
    add_subroutine, is_automatic_subroutine, is_constructor, is_static_method, this_name,
};
pub use types::{add_dimension_items, add_implied_items, add_items};
pub use units::{InstanceBody, add_files, add_unit};
pub use variables::{add_declaration, add_declarations, is_automatic};
