// All processes of a run (IEEE 1800-2017, 9.3.2, 9.6.1 and 9.6.3).
ghost use Rattle.std.specs.Prelude.{◌≡◌, ◌≢◌, ◌<◌, ◌≤◌, ◌^◌, ◌↔◌, [], Ok, Err, Some, None, true, false, nat_lt, length, slice_get, IfOk, OnOk, OnErr};
ghost use Rattle.std.specs.List.{list_all};
ghost use Rattle.sv_fork.specs.declared.tree.StartFault.TheVariants.{Memory};
ghost use Rattle.sv_fork.specs.Tree.{all_ready_in, awaiting_in, descendants_in, ended_in, is_awaited, is_living_child, joined_in, living_children_in, listed, parent_of, ready_in, side_of, started_in, with_root};

use crate::family::{descendants_of, living_children_of};
use crate::join::Join;
use crate::living::Living;
use crate::member::Member;
use crate::members::{end_in, finish_in, go_on_in, wait_in};
use std::alloc::{AllocFailed, Global};
use std::marker::Model;
use sv_value::{NoMemory, ProcessId, Side};
use thiserror::Error;

/// How many processes there may be.
const MOST: usize = 1 << 18;

/// Why a process has no child more.
#[derive(Clone, Copy, Debug, PartialEq, Eq, Error)]
pub enum StartFault {
    #[error("too many processes")]
    Full,
    #[error("out of memory")]
    Memory,
}

impl<T: Drop> From<AllocFailed<T>> for StartFault {
    ghost from_gives = { λ _ e. e ≡ Memory };

    fn from(_: AllocFailed<T>) -> Self {
        StartFault::Memory
    }
}

/// All processes of a run, by number. It is seen as their list.
#[derive(Drop)]
pub struct Tree {
    members: Vec<Member>,
    living: Living,
}

impl Model for Tree {
    ghost use Rattle.std.specs.Prelude.{List, length, ◌≤◌, ◌^◌};
    ghost use Rattle.sv_fork.specs.Living.{HasLiving};
    ghost use Rattle.sv_fork.specs.Tree.{IsTree, Member as Defined};

    ghost Value = { List Defined };

    ghost view = { λ t. t.members.items };

    ghost invariant = { λ t. (length t.members.items ≤ 2 ^ 18) × IsTree t.members.items × HasLiving t.members.items t.living };
}

impl Tree {
    /// No process yet.
    pub fn new(alloc: Global) -> Self
        ensures { result ≡ [] }
    {
        Tree {
            members: Vec::new(alloc),
            living: Living::new(alloc),
        }
    }

    /// How many processes there are.
    pub fn len(&self) -> usize
        ensures count { result ≡ length self.now }
        ensures few { result ≤ 2 ^ 18 }
    {
        self.members.len()
    }

    /// The side of a process.
    pub fn side(&self, process: ProcessId) -> Side
        requires { process.0 < length self.now }
        ensures { result ≡ side_of (slice_get self.now process.0) }
    {
        self.members[process.0 as usize].side()
    }

    /// A process that the design begins with, behind the others.
    pub fn add_root(&mut self, side: Side) -> Result<(), NoMemory>
        requires { length self.old < 2 ^ 18 }
        ensures ok { OnOk result (self.new ≡ with_root side self.old) }
        ensures err { OnErr result (self.new ≡ self.old) }
    {
        let number = ProcessId(self.members.len() as u32);
        self.members.push(Member::new(side, None))?;
        self.living.add(number);
        Ok(())
    }

    /// A process has a child more, behind all others and on the side of its parent.
    pub fn start(&mut self, parent: ProcessId) -> Result<ProcessId, StartFault>
        requires { parent.0 < length self.old }
        ensures child { IfOk result (λ p. p ≡ record { 0 = length self.old }) }
        ensures ok { OnOk result (self.new ≡ started_in parent (slice_get self.old parent.0) self.old) }
        ensures room { OnOk result (nat_lt (length self.old) (2 ^ 18) ≡ true) }
        ensures full { (result ≡ Err StartFault.Full) ↔ (nat_lt (length self.old) (2 ^ 18) ≡ false) }
        ensures err { OnErr result (self.new ≡ self.old) }
    {
        let count = self.members.len();
        if count >= MOST {
            return Err(StartFault::Full);
        }
        let child = self.members[parent.0 as usize].child(parent);
        let number = ProcessId(count as u32);
        self.members.push(child)?;
        self.living.add(number);
        Ok(number)
    }

    /// A process waits until all of these living children are over, or one of them.
    pub fn join(&mut self, process: ProcessId, all: bool, children: Vec<ProcessId>)
        requires some { children.items ≢ [] }
        requires living { list_all (is_living_child self.old process) children.items ≡ true }
        ensures { self.new ≡ awaiting_in process (record { all = all; children = children.items }) self.old }
    {
        self.living.revive(self.members.as_slice(), process);
        wait_in(&mut self.members, process, Join::new(all, children));
    }

    /// A process goes on: it is not over, and waits for no children.
    pub fn go_on(&mut self, process: ProcessId)
        ensures { self.new ≡ ready_in process self.old }
    {
        self.living.revive(self.members.as_slice(), process);
        go_on_in(&mut self.members, process);
    }

    /// A process is over. Its parent is told, and waits no more, where that completes what it waited for.
    pub fn finish(&mut self, process: ProcessId) -> Option<ProcessId>
        ensures joined { joined_in (ended_in process self.old) ≡ listed result }
        ensures new { self.new ≡ all_ready_in (listed result) (ended_in process self.old) }
    {
        let told = finish_in(&mut self.members, process);
        self.living.lose(self.members.as_slice());
        told
    }

    /// A process is over, whose parent waits for no children.
    pub fn end(&mut self, process: ProcessId)
        requires { is_awaited self.old process ≡ false }
        ensures { self.new ≡ ended_in process self.old }
    {
        end_in(&mut self.members, process);
        self.living.lose(self.members.as_slice());
    }

    /// The living children of a process, by number.
    pub fn living_children(
        &self,
        alloc: Global,
        process: ProcessId,
    ) -> Result<Vec<ProcessId>, NoMemory>
        ensures { IfOk result (λ ps. ps.items ≡ living_children_in self.now process) }
    {
        let candidates = self.living.candidates(alloc, self.members.as_slice())?;
        Ok(living_children_of(self.members.as_slice(), candidates, process))
    }

    /// The living descendants of a process, by number.
    pub fn descendants(&self, alloc: Global, process: ProcessId) -> Result<Vec<ProcessId>, NoMemory>
        ensures { IfOk result (λ ps. ps.items ≡ descendants_in self.now process) }
    {
        let candidates = self.living.candidates(alloc, self.members.as_slice())?;
        Ok(descendants_of(self.members.as_slice(), candidates, process))
    }
}
