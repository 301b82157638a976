// Lists that were done with, whose memory serves steps to come.
ghost use Rattle.std.specs.Prelude.{◌≡◌, [], IfOk};

use crate::Effect;
use std::alloc::Global;
use std::marker::Model;
use std::mem::replace;
use sv_value::{Job, NoMemory, ProcessId, Update};

/// Empty lists, with the memory that they had. They are seen as nothing: no step depends on them.
#[derive(Drop)]
pub struct Spare {
    /// Of updates.
    lists: Vec<Vec<Update>>,
    /// Of effects.
    effects: Vec<Effect>,
    /// Of processes that a change wakes.
    woken: Vec<ProcessId>,
}

impl Model for Spare {
    ghost Value = { Unit {0} };

    ghost view = { λ s. tt };
}

impl Spare {
    /// No list.
    pub fn none(alloc: Global) -> Spare {
        Spare {
            lists: Vec::new(alloc),
            effects: Vec::new(alloc),
            woken: Vec::new(alloc),
        }
    }

    /// An empty list of processes, with the memory of the one that was kept.
    #[inline(always)]
    pub fn woken(&mut self, alloc: Global) -> Vec<ProcessId>
        ensures { result.items ≡ [] }
    {
        let mut woken = replace(&mut self.woken, Vec::new(alloc));
        woken.clear();
        woken
    }

    /// Keeps the memory of a list of processes.
    #[inline(always)]
    pub fn keep_woken(&mut self, woken: Vec<ProcessId>) {
        self.woken = woken;
    }

    /// An empty list of effects, with the memory of the one that was kept.
    #[inline(always)]
    pub fn effects(&mut self, alloc: Global) -> Vec<Effect>
        ensures { result.items ≡ [] }
    {
        let mut effects = replace(&mut self.effects, Vec::new(alloc));
        effects.clear();
        effects
    }

    /// Keeps the memory of a list of effects.
    #[inline(always)]
    pub fn keep(&mut self, effects: Vec<Effect>) {
        self.effects = effects;
    }

    /// An empty list, with the memory of one that was given back, if there is such.
    pub fn take(&mut self, alloc: Global) -> Result<Vec<Update>, NoMemory>
        ensures { IfOk result (λ list. list.items ≡ []) }
    {
        match self.lists.pop() {
            Some(list) => {
                let mut list = list;
                list.clear();
                Ok(list)
            }
            None => {
                let list = Vec::with_capacity(alloc, 1)?;
                Ok(list)
            }
        }
    }

    /// Gives the memory of a job that was done back. Where there is no room to keep it, it goes.
    pub fn give(&mut self, job: Job) {
        match job {
            Job::Update(updates) => {
                let mut list = updates.into_vec();
                list.clear();
                let _ = self.lists.push(list);
            }
            Job::Clock(_) => {}
        }
    }
}
