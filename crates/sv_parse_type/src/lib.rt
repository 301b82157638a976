//! Reading types, dimensions, initial values and declarations.
//!
//! 1. `types`: types as they are written, and ranges;
//! 2. `dimensions`: what stands in brackets after a declared name;
//! 3. `initial`: what stands behind the `=` of a declaration;
//! 4. `declarators`: the names that are declared, and lists of them;
//! 5. `declarations`: a type with the names that it is given to.
#![tactic(auto)]

mod declarations;
mod declarators;
mod dimensions;
mod initial;
mod types;

pub use declarations::{begins_word_decl, named_decl_rest, typed, word_decl};
pub use declarators::{Declarators, declarator_list, more_declarators};
pub use dimensions::Dimensions;
pub use initial::{Inits, init};
pub use types::{BoxedRanges, Ranges, begins_word_type, word_type, written_type};
