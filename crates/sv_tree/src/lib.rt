//! Tokens and trees of sources: one variant for each alternative of the grammar.
//!
//! The trees say what is written and where, and nothing of what it means. Each type shows its production above it, in the notation of
//! `docs/LANGUAGE.md`: `[ ]` is optional, `{ }` any number, `list(x)` is `x {"," x}`, and `id` a name.
//!
//! `specs/` says what a text means: `Tokens` and `Lexing` which tokens it has, and `Grammar` which trees tokens spell.
#![tactic(auto)]

mod class;
mod clocking;
mod expr;
mod kind;
mod statement;
mod token;
mod types;
mod unit;
mod word;

pub use class::{Class, ClassItem, Method, Property, PureMethod, Qualifiers};
pub use clocking::{ClockingBlock, ClockingItem, Sided, Skew};
pub use expr::{Actuals, CastType, Expr, Lval, Root, Suffix};
pub use kind::{Kind, SIGNS, UNUSED, WORDS};
pub use statement::{
    BlockingAssignment, Body, CaseItem, Decl, Declarator, Delay, Dimension, Event, EventPart,
    ForInit, ForStep, Init, NonblockingAssignment, OperatorAssignment, Stmt,
};
pub use token::{MOST_TOKENS, Piece, Refused, Timescale, Token};
pub use types::{EnumItem, ImpliedType, Range, WrittenType};
pub use unit::{
    Argument, AssignItem, Connection, Description, DesignElement, Head, Instance, Instances, Item,
    NetDecl, NetItem, Param, ParamItem, Port, Procedure, Returns, Routine, Typedef,
};
pub use word::{
    AtomWord, BinaryWord, CaseWord, Direction, EdgeWord, JoinWord, Life, Name, ParamWord, PartWord,
    PortDirection, Precedence, ProcedureWord, Sign, StepWord, UnaryWord, VectorWord,
};

/// The greatest depth of a tree: how many statements, operators and pairs of brackets may stand inside one another.
pub const MOST_DEPTH: u32 = 200;
