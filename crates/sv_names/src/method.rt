// Methods of the language, and what calls are.
use crate::{Hoisted, Ty, Typed};
use sv_flat::{CallForm, End, WalkStep};

/// What a method of the language does.
#[derive(Clone, Copy, Debug, PartialEq, Eq)]
pub enum Action {
    /// `push_front`, `push_back` (7.10.2)
    Push(End),
    /// `pop_front`, `pop_back` (7.10.2)
    Pop(End),
    /// `insert` (7.10.2)
    Insert,
    /// `delete` (7.5.3, 7.9.2, 7.10.2)
    Delete,
    /// `size`, `num` (7.5.2, 7.9.1, 7.10.2)
    Size,
    /// `exists` (7.9.3)
    Exists,
    /// `first`, `last`, `next`, `prev` (7.9.4 to 7.9.7)
    Walk(WalkStep),
    /// `put`, `try_put` of a mailbox (15.4.3, 15.4.4)
    Put {
        /// Whether it waits.
        waits: bool,
    },
    /// `get`, `peek`, `try_get`, `try_peek` of a mailbox (15.4.5 to 15.4.8)
    Get {
        /// Whether the message stays.
        peeks: bool,
        /// Whether it waits.
        waits: bool,
    },
    /// `num` of a mailbox (15.4.2)
    Messages,
    /// `put` of a semaphore (15.3.2)
    PutKeys,
    /// `get`, `try_get` of a semaphore (15.3.3, 15.3.4)
    GetKeys {
        /// Whether it waits.
        waits: bool,
    },
    /// `name` of an enum (6.19.5.6)
    Name,
    /// `len` of a string (6.16.1)
    Length,
    /// `triggered` of an event (15.5.3)
    Triggered,
}

/// What a method of the language gives.
pub enum Outcome {
    /// Nothing, as a void function.
    NothingAtOnce,
    /// Nothing, as a task.
    NothingLater,
    /// A value of the type.
    Value(Ty),
}

impl Drop for Outcome {
    fn drop(self) {
        match self {
            Outcome::NothingAtOnce => {}
            Outcome::NothingLater => {}
            Outcome::Value(_) => {}
        }
    }
}

/// A method of the language.
#[derive(Drop)]
pub struct Method {
    /// What it does.
    pub action: Action,
    /// The least number of its arguments.
    pub least: u8,
    /// The greatest number of its arguments.
    pub most: u8,
    /// What it gives.
    pub gives: Outcome,
    /// Whether it is a call, and no operator.
    pub is_call: bool,
}

/// What a call is.
#[derive(Drop)]
pub enum Called {
    /// A call, with the type of what it gives.
    Call(Hoisted<CallForm>, Ty),
    /// An operator.
    Operator(Typed),
}
