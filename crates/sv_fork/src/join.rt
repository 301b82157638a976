// The children for which a process waits (IEEE 1800-2017, 9.3.2).
ghost use Rattle.std.specs.Prelude.{◌≡◌};

use std::marker::Model;
use sv_value::ProcessId;

/// The children for which a process waits: for the ends of all of them, or for that of one.
#[derive(Drop)]
pub(crate) struct Join {
    all: bool,
    children: Vec<ProcessId>,
}

impl Model for Join {
    ghost use Rattle.sv_fork.specs.Tree.{Join as Defined};

    ghost Value = { Defined };

    ghost view = { λ j. record { all = j.all; children = j.children.items } };
}

impl Join {
    /// A join of these children.
    pub(crate) fn new(all: bool, children: Vec<ProcessId>) -> Self
        ensures { result ≡ record { all = all; children = children.items } }
    {
        Join { all, children }
    }

    /// Whether all of the children are waited for.
    pub(crate) fn all(&self) -> bool
        ensures { result ≡ self.now.all }
    {
        self.all
    }

    /// The children.
    pub(crate) fn children(&self) -> &[ProcessId]
        ensures { result.now ≡ self.now.children }
    {
        self.children.as_slice()
    }
}
