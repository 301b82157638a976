//! Reading the tokens of a file: descriptions and their items.
//!
//! The parser goes through the tokens once, with one token of look-ahead. Only expressions and statements stand in one another and so
//! spend the budget of depth.
//! 1. What stands in lists, options and repetitions is a part (`Part`), read by the readers of any part; all else has a function;
//! 2. a choice looks at the next token, by what begins each part (`begins`);
//! 3. each contract says that a reader gives what reading its production gives (`Reads`), which is exact by a theorem on the whole
//!    grammar (`sv_grammar`);
//! 4. `parse` says in full what is answered about a file.
#![tactic(auto)]

/// What was read. Where reading failed, the caller fails as it did: as `?`, for an error that needs no conversion.
macro_rules! read {
    ($read:expr) => {
        match $read {
            Ok(read) => read,
            Err(error) => return Err(error),
        }
    };
}

/// What was put into memory. Where none was left, the caller says so: as `?`, without the conversion of the error.
macro_rules! held {
    ($held:expr) => {
        match $held {
            Ok(held) => held,
            Err(_) => return Err(sv_parse::ReadError::Memory),
        }
    };
}

mod classes;
mod clocking;
mod connections;
mod descriptions;
mod elements;
mod instances;
mod items;
mod lists;
mod named_items;
mod nets;
mod params;
mod ports;
mod routines;
mod typed;
mod typedefs;
mod whole;

pub use whole::parse;
