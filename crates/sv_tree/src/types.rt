// Types as they are written (IEEE 1800-2017, A.2.2).
use crate::{AtomWord, Expr, Name, Sign, VectorWord};
use sv_value::Place;

/// `range = "[" expr ":" expr "]"`, at `[`.
pub struct Range {
    pub at: Place,
    pub left: Expr,
    pub right: Expr,
}

impl Drop for Range {
    fn drop(self) {
        let Range {
            at: _,
            left: _,
            right: _,
        } = self;
    }
}

/// An item of an enumeration: `id ["=" expr]`.
pub struct EnumItem {
    pub name: Name,
    pub value: Option<Expr>,
}

impl Drop for EnumItem {
    fn drop(self) {
        let EnumItem { name: _, value: _ } = self;
    }
}

/// A type as it is written; each but a name is at its word.
pub enum WrittenType {
    /// `("bit" | "logic" | "reg") [sign] [range]`
    Vector {
        at: Place,
        word: VectorWord,
        sign: Sign,
        range: Option<Box<Range>>,
    },
    /// `("byte" | "shortint" | "int" | "longint" | "integer" | "time") [sign]`
    Atom {
        at: Place,
        word: AtomWord,
        sign: Sign,
    },
    /// `"string"`
    Text(Place),
    /// `"event"`
    Event(Place),
    /// `"semaphore"`
    Semaphore(Place),
    /// `"mailbox"`
    Mailbox(Place),
    /// `"mailbox" "#" "(" type ")"`
    MailboxOf(Place, Box<WrittenType>),
    /// `id`
    Named(Name),
    /// `"enum" "{" list(id ["=" expr]) "}"`
    Enum(Place, Vec<EnumItem>),
    /// `"enum" type "{" list(id ["=" expr]) "}"`
    EnumOf {
        at: Place,
        base: Box<WrittenType>,
        items: Vec<EnumItem>,
    },
}

impl Drop for WrittenType {
    fn drop(self) {
        match self {
            WrittenType::Vector {
                at: _,
                word: _,
                sign: _,
                range: _,
            } => {}
            WrittenType::Atom {
                at: _,
                word: _,
                sign: _,
            } => {}
            WrittenType::Text(_) => {}
            WrittenType::Event(_) => {}
            WrittenType::Semaphore(_) => {}
            WrittenType::Mailbox(_) => {}
            WrittenType::MailboxOf(_, _) => {}
            WrittenType::Named(_) => {}
            WrittenType::Enum(_, _) => {}
            WrittenType::EnumOf {
                at: _,
                base: _,
                items: _,
            } => {}
        }
    }
}

/// A type that may be left out: `[itype]`, where `itype = type | [sign] range | sign` (A.2.2.1)
pub enum ImpliedType {
    /// Nothing is written.
    Unwritten,
    /// `[sign] range | sign`, at its first token
    Vector {
        at: Place,
        sign: Sign,
        range: Option<Box<Range>>,
    },
    /// `type`
    Written(WrittenType),
}

impl Drop for ImpliedType {
    fn drop(self) {
        match self {
            ImpliedType::Unwritten => {}
            ImpliedType::Vector {
                at: _,
                sign: _,
                range: _,
            } => {}
            ImpliedType::Written(_) => {}
        }
    }
}
