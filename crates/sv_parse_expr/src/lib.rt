//! Reading expressions and targets.
//!
//! The parser descends by recursion with one token of look-ahead; each pair of brackets and each operator takes one of the budget.
//! 1. What an operand has before its first inner expression is read outside the recursion (`fronts`), and says what is left;
//! 2. the rest of the operand is read (`reader`), then the operators of each precedence after it, the strongest first, then a choice;
//! 3. names with what follows them, calls and targets (`posts`, `calls`, `target`), and casts to the type of a word (`casts`).
//!
//! Each contract says that a reader gives what reading its production gives (`Reads`). `expr` says in full what that is.
#![tactic(auto)]

/// What was read. Where reading failed, the caller fails as it did: as `?`, for an error that needs no conversion.
macro_rules! read {
    ($read:expr) => {
        match $read {
            Ok(read) => read,
            Err(error) => return Err(error),
        }
    };
}

/// What was put into memory. Where none was left, the caller says so: as `?`, without the conversion of the error.
macro_rules! held {
    ($held:expr) => {
        match $held {
            Ok(held) => held,
            Err(_) => return Err(sv_parse::ReadError::Memory),
        }
    };
}

mod begins;
mod calls;
mod casts;
mod fronts;
mod made;
mod measured;
mod operators;
mod parts;
mod posts;
mod reader;
mod target;
mod values;
mod whole;

pub use begins::{begins_cast, begins_expr};
pub use calls::{call, maybe_actuals, system_call};
pub use casts::{cast_value, cast_word};
pub use made::post_of;
pub use parts::{Enclosed, Exprs, Values};
pub use posts::{Post, named_post, named_root, scope, suffixes, super_post, this_post};
pub use target::{lval, targets};
pub use values::value;
pub use whole::expr;
