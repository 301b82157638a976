//! What the readers of expressions, statements and units are written with.
//!
//! A reader takes the tokens that are left and answers a tree and the tokens after it, or the first token with which nothing goes on.
//! 1. `tokens`: single tokens, and what stops a reader;
//! 2. `word`: words that choose among alternatives, by the table that each class of words has;
//! 3. `budget`: how much deeper trees may become;
//! 4. `part`: a part of a file that has a reader, and lists, repetitions and options of any part.
//!
//! Each contract says that a reader gives what reading its production of the grammar gives (`Gives`). That this is exact, in both
//! directions, is a theorem on the whole grammar (`sv_grammar`).
#![tactic(auto)]

mod budget;
mod fault;
mod names;
mod part;
mod tokens;
mod word;
mod words;

pub use budget::Budget;
pub use fault::{SyntaxFault, SyntaxKind, fault_of};
pub use names::{Names, label, name, name_of};
pub use part::{Listed, Part, Repeated, begins, items, list, list_after, list_or_none, maybe};
pub use tokens::{Read, ReadError, code_of, expect, is_next, skip};
pub use word::{Word, expect_word, is_next_word, maybe_word, word_or};
