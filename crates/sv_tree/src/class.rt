// Classes (IEEE 1800-2017, A.1.2 and A.1.9).
use crate::{Decl, Head, Name, Routine, Typedef};
use sv_value::Place;

/// The words before an item of a class: `{"local" | "protected" | "static" | "virtual"}` (A.1.9)
#[derive(Clone, Copy, Debug, PartialEq, Eq)]
pub struct Qualifiers {
    pub is_local: bool,
    pub is_protected: bool,
    pub is_static: bool,
    pub is_virtual: bool,
}

/// `{qualifier} decl` (A.1.9)
pub struct Property {
    pub qualifiers: Qualifiers,
    pub decl: Decl,
}

impl Drop for Property {
    fn drop(self) {
        let Property {
            qualifiers: _,
            decl: _,
        } = self;
    }
}

/// `{qualifier} routine` (A.1.9)
pub struct Method {
    pub qualifiers: Qualifiers,
    pub routine: Routine,
}

impl Drop for Method {
    fn drop(self) {
        let Method {
            qualifiers: _,
            routine: _,
        } = self;
    }
}

/// `"pure" "virtual" head ";"`, at `pure` (A.1.9)
pub struct PureMethod {
    pub at: Place,
    pub head: Head,
}

impl Drop for PureMethod {
    fn drop(self) {
        let PureMethod { at: _, head: _ } = self;
    }
}

/// `citem`: an item of a class (A.1.9)
pub enum ClassItem {
    /// `{qualifier} decl`
    Property(Box<Property>),
    /// `{qualifier} routine`
    Method(Box<Method>),
    /// `"pure" "virtual" head ";"`
    Pure(Box<PureMethod>),
    /// `"typedef" type id ";"`
    Typedef(Box<Typedef>),
    /// `"typedef" "class" id ";"`
    Announce(Name),
    /// `";"`
    Null,
}

impl Drop for ClassItem {
    fn drop(self) {
        match self {
            ClassItem::Property(_) => {}
            ClassItem::Method(_) => {}
            ClassItem::Pure(_) => {}
            ClassItem::Typedef(_) => {}
            ClassItem::Announce(_) => {}
            ClassItem::Null => {}
        }
    }
}

/// `class = ["virtual"] "class" id ["extends" id] ";" {citem} "endclass" [":" id]`, at its first word (A.1.2)
pub struct Class {
    pub at: Place,
    pub is_virtual: bool,
    pub name: Name,
    pub base: Option<Name>,
    pub items: Vec<ClassItem>,
    /// The name after `endclass`.
    pub label: Option<Name>,
}

impl Drop for Class {
    fn drop(self) {
        let Class {
            at: _,
            is_virtual: _,
            name: _,
            base: _,
            items: _,
            label: _,
        } = self;
    }
}
