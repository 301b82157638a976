//! The tokens of a text.
//!
//! At each place the lexer asks, in this order:
//! 1. is there a separator, or a directive? It is passed over (a time scale is kept);
//! 2. how long is the longest prefix of each form (name, number, time, string, operator)? The longest of these is the token;
//! 3. is the token a number that means nothing, or one token too many? These are faults, as is a place where no form begins.
//!
//! What a token is, and which tokens a text has, is defined in `sv_tree`'s `specs/Tokens` and `specs/Lexing`.
#![tactic(auto)]

mod directives;
pub mod laws;
mod letters;
mod lexer;
mod names;
mod numbers;
mod pieces;
mod separators;
mod strings;
mod tables;

pub use lexer::{LexFault, Lexed, lex};
