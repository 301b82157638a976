// Processes by number: those that watch an object, or variables of activations.
ghost use Rattle.std.specs.Prelude.{◌≡◌, ◌<◌, ◌≤◌, ◌^◌, length, IfOk, OnOk, [], true, slice_get};
ghost use Rattle.sv_value.specs.declared.number.ProcessId.{ProcessId as process_id};
ghost use Rattle.sv_flat.specs.Effects.{is_in};
ghost use Rattle.sv_sense.specs.Watchers as watchers;
ghost use Rattle.sv_sense.specs.Watchers.{Ascends, is_this, from_on};

use std::alloc::Global;
use std::marker::Model;
use sv_value::{NoMemory, ProcessId};

/// Processes, each before those with greater numbers. They are seen as a list.
#[derive(Drop)]
pub struct Watchers {
    numbers: Vec<ProcessId>,
}

impl Model for Watchers {
    ghost use Rattle.std.specs.Prelude.{List};
    ghost use Rattle.sv_value.specs.declared.number.ProcessId.{ProcessId as ProcessNumber};
    ghost use Rattle.sv_sense.specs.Watchers.{Ascends};

    ghost Value = { List ProcessNumber };

    ghost view = { λ w. w.numbers.items };

    ghost invariant = { λ w. Ascends 0 w.numbers.items };
}

/// How many stand before a process.
fn place_of(numbers: &[ProcessId], process: ProcessId) -> usize
    requires { Ascends 0 numbers.now }
    ensures value { result ≡ watchers.place_of process numbers.now }
    ensures within { result ≤ length numbers.now }
{
    numbers.partition_point(|q| q.0 < process.0)
}

/// Whether a process stands at a place.
fn is_at(numbers: &[ProcessId], process: ProcessId, place: usize) -> bool
    ensures { result ≡ is_this process (slice_get numbers.now place) }
{
    match numbers.get(place) {
        Some(other) => process.0 == other.0,
        None => false,
    }
}

impl Watchers {
    /// No process.
    pub(crate) fn nobody(alloc: Global) -> Self
        ensures { result ≡ [] }
    {
        Watchers {
            numbers: Vec::new(alloc),
        }
    }

    /// So many processes, from number 0 on.
    #[tactic(auto, using(crate::proofs::WatcherLaws::one_more, crate::proofs::WatcherLaws::ascends_all))]
    pub(crate) fn everyone(alloc: Global, count: usize) -> Result<Self, NoMemory>
        requires { count < 2 ^ 32 }
        ensures { IfOk result (λ w. w ≡ from_on 0 count) }
    {
        let mut numbers = Vec::new(alloc);
        for number in 0..count {
            numbers.push(ProcessId(number as u32))?;
        }
        Ok(Watchers { numbers })
    }

    /// The processes.
    pub(crate) fn as_slice(&self) -> &[ProcessId]
        ensures items { result.now ≡ self.now }
        ensures ascends { Ascends 0 self.now }
    {
        self.numbers.as_slice()
    }

    /// Puts a process among these, if it is not among them.
    pub(crate) fn add(&mut self, process: ProcessId) -> Result<(), NoMemory>
        ensures ok { OnOk result (is_in process self.new ≡ true) }
        ensures kept { (p : process_id) → is_in p self.old ≡ true → is_in p self.new ≡ true }
    {
        let place = place_of(self.as_slice(), process);
        if is_at(self.as_slice(), process, place) {
            return Ok(());
        }
        self.numbers.insert(place, process)?;
        Ok(())
    }
}
