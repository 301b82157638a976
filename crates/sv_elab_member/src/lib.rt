//! Classes of the flat design: their static properties, their constructors and methods, and the rules on them (IEEE 1800-2017, 8).
//!
//! - `within` has what is seen in a class, `statics` the objects of its static properties, `methods` its constructor and its methods, one after
//!   another (`putting`), and `flat` the class itself with the properties of its objects and the methods of its slots.
//! - `stands` tells what a class breaks by itself; `classes` puts all of it behind what stands so far of a design.
//!
//! Each function answers what its definition in `sv_names` gives, or the first rule that is broken, or that memory ran out.
#![tactic(auto)]

mod classes;
mod flat;
mod methods;
mod putting;
mod stands;
mod statics;
mod within;

pub use classes::class_made;
pub use sv_elab_routine;
pub use sv_elab_routine::sv_elab_stmt;
