// Among which processes all living ones are found.
ghost use Rattle.std.specs.Prelude.{◌≡◌, ◌<◌, ◌^◌, ◌∷◌, ◌++◌, [], ◌&&◌, not, true, length, IfOk};
ghost use Rattle.sv_flat.specs.Config.{numbered_from};
ghost use Rattle.sv_fork.specs.Living.{left_of, HasLiving, ListsLiving};
ghost use Rattle.sv_fork.specs.Tree.{is_over_in};

use crate::member::Member;
use crate::members::is_over_in;
use std::alloc::Global;
use std::marker::Model;
use sv_value::{NoMemory, ProcessId};

/// A list of processes by number, whether all living ones are among them, and about how many of them are over.
#[derive(Drop)]
pub(crate) struct Living {
    listed: Vec<ProcessId>,
    complete: bool,
    over: usize,
}

impl Model for Living {
    ghost use Rattle.sv_fork.specs.Living.{Living as Defined};

    ghost Value = { Defined };

    ghost view = { λ l. record { listed = l.listed.items; complete = l.complete } };
}

impl Living {
    /// No process yet.
    pub(crate) fn new(alloc: Global) -> Self
        ensures { result ≡ record { listed = []; complete = true } }
    {
        Living {
            listed: Vec::new(alloc),
            complete: true,
            over: 0,
        }
    }

    /// A process more, behind the others. Where there is no memory for it, the list is complete no more.
    pub(crate) fn add(&mut self, process: ProcessId)
        ensures { self.new.complete ≡ true → self.new ≡ record self.old { listed = self.old.listed ++ process ∷ [] } }
    {
        self.complete &= self.listed.push(process).is_ok();
    }

    /// A process is about to live, whether it is over or not. One that is over may not be listed.
    pub(crate) fn revive(&mut self, members: &[Member], process: ProcessId)
        ensures { self.new ≡ record self.old { complete = self.old.complete && not (is_over_in members.now process) } }
    {
        self.complete = self.complete && !is_over_in(members, process);
    }

    /// A process more is over. Where more than half of the listed ones are, these are dropped.
    pub(crate) fn lose(&mut self, members: &[Member])
        ensures { HasLiving members.now self.old → HasLiving members.now self.new }
    {
        self.over = self.over.saturating_add(1);
        if self.over > self.listed.len() / 2 {
            drop_over(&mut self.listed, members);
            self.over = 0;
        }
    }

    /// Processes by number, among which all living ones are.
    pub(crate) fn candidates(
        &self,
        alloc: Global,
        members: &[Member],
    ) -> Result<Vec<ProcessId>, NoMemory>
        requires few { length members.now < 2 ^ 32 }
        requires living { HasLiving members.now self.now }
        ensures { IfOk result (λ ps. ListsLiving members.now ps.items) }
    {
        if self.complete {
            return Ok(Vec::from_slice(alloc, self.listed.as_slice())?);
        }
        numbers(alloc, members)
    }
}

/// Those that are over are dropped.
fn drop_over(listed: &mut Vec<ProcessId>, members: &[Member])
    ensures { listed.new.items ≡ left_of members.now listed.old.items }
{
    listed.retain(|process| !is_over_in(members, *process));
}

/// The numbers of all processes.
fn numbers(alloc: Global, members: &[Member]) -> Result<Vec<ProcessId>, NoMemory>
    requires { length members.now < 2 ^ 32 }
    ensures { IfOk result (λ ps. ps.items ≡ numbered_from 0 members.now) }
{
    let mut numbers = Vec::new(alloc);
    for place in 0..members.len() {
        numbers.push(ProcessId(place as u32))?;
    }
    Ok(numbers)
}
