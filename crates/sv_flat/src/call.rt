// Calls of subroutines, and of the methods that the language gives.
use crate::{Container, Expr, Lvalue};
use sv_value::{ClassId, MessageType, Plain, RoutineId, Seq, Wanted};

/// An argument of a call: the value of an input, the targets of an output, both of an inout (IEEE 1800-2017, 13.5).
pub struct Argument {
    /// What is copied in.
    pub value: Option<Expr>,
    /// What the output is copied back to.
    pub targets: Option<Seq<Lvalue>>,
}

impl Drop for Argument {
    fn drop(self) {
        let Argument {
            value: _,
            targets: _,
        } = self;
    }
}

/// An end of a queue (IEEE 1800-2017, 7.10).
#[derive(Clone, Copy, Debug, PartialEq, Eq)]
pub enum End {
    /// Before the first item.
    Front,
    /// Behind the last item.
    Back,
}

/// What is called. A value that a container, a mailbox or a semaphore takes has the type that is kept there.
pub enum CallForm {
    /// A subroutine, or a method that is not virtual (IEEE 1800-2017, 8.6, 13.3 and 13.4).
    Routine {
        /// What runs.
        routine: RoutineId,
        /// The reference through which a method is named; it must not be null.
        through: Option<Expr>,
        /// One for each formal argument.
        arguments: Seq<Argument>,
    },
    /// A virtual method (IEEE 1800-2017, 8.20). The object is the value of the first argument.
    Method {
        /// The class by which it is called.
        class: ClassId,
        /// The slot of the method in that class and in all that are derived from it.
        slot: u32,
        /// One for each formal argument.
        arguments: Seq<Argument>,
    },
    /// `new(..)` (IEEE 1800-2017, 8.7)
    New {
        /// The class of the object.
        class: ClassId,
        /// One for each formal argument of the constructor but the object.
        arguments: Seq<Argument>,
    },
    /// `new h` (IEEE 1800-2017, 8.12)
    Copy {
        /// The reference to the object that is copied.
        object: Expr,
    },
    /// `$cast` (IEEE 1800-2017, 8.16)
    Cast {
        /// What gets the reference.
        targets: Seq<Lvalue>,
        /// The reference.
        value: Expr,
        /// The class that it must have, or one derived from it.
        class: ClassId,
        /// Whether a value that does not fit is answered by 0, and is not a fault.
        answers: bool,
    },
    /// `push_front` and `push_back` (IEEE 1800-2017, 7.10.2.6 and 7.10.2.7)
    Push {
        /// Where the item comes.
        end: End,
        /// The queue.
        container: Container,
        /// The item.
        value: Expr,
    },
    /// `pop_front` and `pop_back` (IEEE 1800-2017, 7.10.2.4 and 7.10.2.5)
    Pop {
        /// Where the item is taken.
        end: End,
        /// The queue.
        container: Container,
        /// The type of the items, whose initial value an empty queue gives.
        item: Plain,
    },
    /// `insert` (IEEE 1800-2017, 7.10.2.2)
    Insert {
        /// The queue.
        container: Container,
        /// The place before which the item comes.
        index: Expr,
        /// The item.
        value: Expr,
    },
    /// `delete` (IEEE 1800-2017, 7.5.3, 7.9.2 and 7.10.2.3)
    Delete {
        /// The container.
        container: Container,
        /// The index or key of the item; without one all are deleted.
        index: Option<Expr>,
    },
    /// `first`, `last`, `next` and `prev` (IEEE 1800-2017, 7.9.4 to 7.9.7)
    Walk {
        /// Which of the four.
        step: WalkStep,
        /// The associative array.
        container: Container,
        /// The key from which `next` and `prev` go.
        from: Expr,
        /// What gets the key.
        targets: Seq<Lvalue>,
    },
    /// `new` of a mailbox (IEEE 1800-2017, 15.4.1)
    NewMailbox {
        /// How many messages it holds at most; 0 is unbounded.
        bound: Expr,
    },
    /// `new` of a semaphore (IEEE 1800-2017, 15.3.1)
    NewSemaphore {
        /// How many keys it has at first.
        keys: Expr,
    },
    /// `put` and `try_put` (IEEE 1800-2017, 15.4.3 and 15.4.4)
    Put {
        /// The mailbox.
        mailbox: Expr,
        /// The message.
        value: Expr,
        /// The type with which it is written.
        written: MessageType,
        /// Whether it waits where the box is full, and does not answer 0.
        waits: bool,
    },
    /// `get`, `peek`, `try_get` and `try_peek` (IEEE 1800-2017, 15.4.5 to 15.4.8)
    Get {
        /// The mailbox.
        mailbox: Expr,
        /// What gets the message.
        targets: Seq<Lvalue>,
        /// The messages that fit it.
        wanted: Wanted,
        /// Whether the message stays in the box.
        peeks: bool,
        /// Whether it waits where the box is empty, and does not answer 0.
        waits: bool,
    },
    /// `get` and `try_get` of keys (IEEE 1800-2017, 15.3.3 and 15.3.4)
    GetKeys {
        /// The semaphore.
        semaphore: Expr,
        /// How many.
        keys: Expr,
        /// Whether it waits for them, and does not answer 0.
        waits: bool,
    },
    /// `put` of keys (IEEE 1800-2017, 15.3.2)
    PutKeys {
        /// The semaphore.
        semaphore: Expr,
        /// How many.
        keys: Expr,
    },
}

impl Drop for CallForm {
    fn drop(self) {
        match self {
            CallForm::Routine {
                routine: _,
                through: _,
                arguments: _,
            } => {}
            CallForm::Method {
                class: _,
                slot: _,
                arguments: _,
            } => {}
            CallForm::New {
                class: _,
                arguments: _,
            } => {}
            CallForm::Copy { object: _ } => {}
            CallForm::Cast {
                targets: _,
                value: _,
                class: _,
                answers: _,
            } => {}
            CallForm::Push {
                end: _,
                container: _,
                value: _,
            } => {}
            CallForm::Pop {
                end: _,
                container: _,
                item: _,
            } => {}
            CallForm::Insert {
                container: _,
                index: _,
                value: _,
            } => {}
            CallForm::Delete {
                container: _,
                index: _,
            } => {}
            CallForm::Walk {
                step: _,
                container: _,
                from: _,
                targets: _,
            } => {}
            CallForm::NewMailbox { bound: _ } => {}
            CallForm::NewSemaphore { keys: _ } => {}
            CallForm::Put {
                mailbox: _,
                value: _,
                written: _,
                waits: _,
            } => {}
            CallForm::Get {
                mailbox: _,
                targets: _,
                wanted: _,
                peeks: _,
                waits: _,
            } => {}
            CallForm::GetKeys {
                semaphore: _,
                keys: _,
                waits: _,
            } => {}
            CallForm::PutKeys {
                semaphore: _,
                keys: _,
            } => {}
        }
    }
}

/// How an associative array is walked (IEEE 1800-2017, 7.9.4 to 7.9.7).
#[derive(Clone, Copy, Debug, PartialEq, Eq)]
pub enum WalkStep {
    /// To the least key.
    First,
    /// To the greatest key.
    Last,
    /// To the least key above another one.
    Next,
    /// To the greatest key below another one.
    Prev,
}

/// A call.
pub struct Call {
    /// What is called.
    pub form: CallForm,
    /// The place of the hidden variable that takes its result.
    pub result: Option<u32>,
}

impl Drop for Call {
    fn drop(self) {
        let Call { form: _, result: _ } = self;
    }
}
