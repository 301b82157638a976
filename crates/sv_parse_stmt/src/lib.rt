//! Reading statements.
//!
//! The parser descends by recursion with one token of look-ahead, over a budget of depth, as that of expressions does.
//! 1. The front of a form, up to its first inner statement, is read outside the recursion, and says what is left (`front`): that of forms
//!    that hold none in `simple`, of the others in `heads` and `blocks`; `unnamed` tells which form begins with the next token;
//! 2. `reader` reads the inner statements; what stands after them is read, and the form made, outside the recursion again (`front`,
//!    `blocks`, `cases`);
//! 3. delays, event controls, assignments and the parts of a `for` have files of their own.
//!
//! Each contract says that a reader gives what reading its production gives (`Reads`, `Gives`). `stmt` says in full what that is.
#![tactic(auto)]

/// What was read. Where reading failed, the caller fails as it did: as `?`, for an error that needs no conversion.
macro_rules! read {
    ($read:expr) => {
        match $read {
            Ok(read) => read,
            Err(error) => return Err(error),
        }
    };
}

/// What was put into memory. Where none was left, the caller says so: as `?`, without the conversion of the error.
macro_rules! held {
    ($held:expr) => {
        match $held {
            Ok(held) => held,
            Err(_) => return Err(sv_parse::ReadError::Memory),
        }
    };
}

mod assignments;
mod begins;
mod blocks;
mod cases;
mod delays;
mod events;
mod for_parts;
mod front;
mod heads;
mod reader;
mod simple;
mod unnamed;
mod whole;

pub use blocks::BlockItems;
pub use delays::{Delays, amount};
pub use reader::{items, statement};
pub use whole::stmt;
