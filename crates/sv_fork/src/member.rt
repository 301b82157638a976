// One process of a run, as its parent and its children see it (IEEE 1800-2017, 9.3.2).
ghost use Rattle.std.specs.Prelude.{◌≡◌, Some, None, false, true};
ghost use Rattle.std.specs.Option.{option_copied};
ghost use Rattle.sv_fork.specs.Tree.{child_in};

use crate::join::Join;
use std::marker::Model;
use sv_value::{ProcessId, Side};

/// One process: its side, who forked it, whether it is over, and for which children it waits.
#[derive(Drop)]
pub(crate) struct Member {
    side: Side,
    parent: Option<ProcessId>,
    over: bool,
    join: Option<Join>,
}

impl Model for Member {
    ghost use Rattle.sv_fork.specs.Tree.{Member as Defined};

    ghost Value = { Defined };

    ghost view = { λ m. record { side = m.side; parent = m.parent; over = m.over; join = m.join } };
}

impl Member {
    /// A process that begins.
    pub(crate) fn new(side: Side, parent: Option<ProcessId>) -> Self
        ensures { result ≡ record { side = side; parent = parent; over = false; join = None } }
    {
        Member {
            side,
            parent,
            over: false,
            join: None,
        }
    }

    /// A child of it, whose number this is.
    pub(crate) fn child(&self, number: ProcessId) -> Self
        ensures { result ≡ child_in number self.now }
    {
        Member::new(self.side, Some(number))
    }

    /// Its side.
    pub(crate) fn side(&self) -> Side
        ensures { result ≡ self.now.side }
    {
        self.side
    }

    /// The process that forked it.
    pub(crate) fn parent(&self) -> Option<ProcessId>
        ensures { result ≡ self.now.parent }
    {
        self.parent
    }

    /// Whether it is over.
    pub(crate) fn is_over(&self) -> bool
        ensures { result ≡ self.now.over }
    {
        self.over
    }

    /// The children for which it waits.
    pub(crate) fn join(&self) -> Option<&Join>
        ensures { option_copied result ≡ self.now.join }
    {
        match &self.join {
            Some(join) => Some(join),
            None => None,
        }
    }

    /// It waits for children.
    pub(crate) fn wait(&mut self, join: Join)
        ensures { self.new ≡ record self.old { over = false; join = Some join } }
    {
        self.over = false;
        self.join = Some(join);
    }

    /// It waits for no children.
    pub(crate) fn go_on(&mut self)
        ensures { self.new ≡ record self.old { over = false; join = None } }
    {
        self.over = false;
        self.join = None;
    }

    /// It is over.
    pub(crate) fn end(&mut self)
        ensures { self.new ≡ record self.old { over = true; join = None } }
    {
        self.over = true;
        self.join = None;
    }
}
