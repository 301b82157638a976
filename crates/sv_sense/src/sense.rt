// For what each process waits, and whom a change wakes.
ghost use Rattle.std.specs.Prelude.{◌≡◌, ◌<◌, ◌^◌, ◌∷◌, ◌++◌, IfOk, OnOk, OnErr, IsTrue, false, length, map, Some, None, [], slice_get, slice_set, slice_index_or};
ghost use Rattle.sv_flat.specs.declared.design.Parts.{Parts};
ghost use Rattle.sv_built.specs.Built.{IsBuilt};
ghost use Rattle.sv_assign.specs.Seen.{change_in};
ghost use Rattle.sv_sense.specs.Watchers.{Ascends};
ghost use Rattle.sv_sense.specs.Wakes.{fires_at, scenes_before, scenes_after, wait_of, waits_after, woken_from};
ghost use Rattle.sv_sense.specs.Sensed.{Covers, IsFound, hearers_in};

use crate::Waiter;
use crate::objects::wait_objects;
use crate::register::{register, register_scoped};
use crate::tries::try_all;
use crate::watchers::Watchers;
use std::alloc::Global;
use std::marker::Model;
use sv_arena::Name;
use sv_assign::{Before, Change};
use sv_built::{Design, Wait};
use sv_flat::{Object, Process};
use sv_value::{NoMemory, ObjId, ProcessId};

/// For what each process waits, by number, who watches each object, and who may watch variables of activations.
///
/// A process stays among the watchers of an object once it came there, so one that waits again for the same needs no memory. It
/// is tried in vain then. So it is with those that watch variables of activations.
#[derive(Drop)]
pub struct Sense {
    waits: Vec<Option<Waiter>>,
    /// For what each process was registered last.
    known: Vec<Option<Wait>>,
    watchers: Vec<Watchers>,
    scoped: Watchers,
    all: Watchers,
}

impl Model for Sense {
    ghost use Rattle.sv_sense.specs.Sensed.{Sensed};

    ghost Value = { Sensed };

    ghost view = { λ s. record { waits = s.waits.items; known = s.known.items; watchers = s.watchers.items; scoped = s.scoped; all = s.all } };
}

/// No process waits.
fn nobody(alloc: Global, processes: &[Process]) -> Result<Vec<Option<Waiter>>, NoMemory>
    ensures { IfOk result (λ v. v.items ≡ map (λ p. None) processes.now) }
{
    let mut waits = Vec::new(alloc);
    for _process in processes {
        add_nobody(&mut waits)?;
    }
    Ok(waits)
}

/// A process more, which waits for nothing.
fn add_nobody(waits: &mut Vec<Option<Waiter>>) -> Result<(), NoMemory>
    ensures ok { OnOk result (waits.new.items ≡ waits.old.items ++ None ∷ []) }
    ensures err { OnErr result (waits.new.items ≡ waits.old.items) }
{
    // The prover has to meet the type of the name that a `Waiter` holds.
    let _outside: Option<Name> = None;
    waits.push(None)?;
    Ok(())
}

/// No process was registered.
fn nothing(alloc: Global, processes: &[Process]) -> Result<Vec<Option<Wait>>, NoMemory>
    ensures { IfOk result (λ v. v.items ≡ map (λ p. None) processes.now) }
{
    let mut known = Vec::new(alloc);
    for _process in processes {
        known.push(None)?;
    }
    Ok(known)
}

/// Nobody watches an object.
fn unwatched(alloc: Global, objects: &[Object]) -> Result<Vec<Watchers>, NoMemory>
    ensures { IfOk result (λ v. v.items ≡ map (λ o. []) objects.now) }
{
    let mut watchers = Vec::new(alloc);
    for _object in objects {
        watchers.push(Watchers::nobody(alloc))?;
    }
    Ok(watchers)
}

/// The watchers of an object: of one that the design has not, all processes.
fn watchers_of<'a>(lists: &'a [Watchers], all: &'a Watchers, object: ObjId) -> &'a [ProcessId]
    ensures items { result.now ≡ slice_index_or lists.now object.0 all.now }
    ensures ascends { Ascends 0 result.now }
{
    match lists.get(object.0 as usize) {
        Some(list) => list.as_slice(),
        None => all.as_slice(),
    }
}

/// Those whom a change may wake: the watchers of the object, or those that watch variables of activations.
fn hearers<'a>(
    lists: &'a [Watchers],
    scoped: &'a Watchers,
    all: &'a Watchers,
    change: &Change,
) -> &'a [ProcessId]
    ensures items { result.now ≡ hearers_in lists.now scoped.now all.now (change_in change.now) }
    ensures ascends { Ascends 0 result.now }
{
    match change {
        Change::Object(overwritten) => watchers_of(lists, all, overwritten.object),
        Change::Variable { .. } => scoped.as_slice(),
    }
}

impl Sense {
    /// No process waits.
    #[tactic(auto, using(crate::proofs::SenseLaws::covers_none))]
    pub fn new(alloc: Global, design: &Design) -> Result<Sense, NoMemory>
        ensures waits { IfOk result (λ s. s.waits ≡ map (λ p. None) design.now.processes) }
        ensures covers { IfOk result (λ s. Covers design.now s) }
    {
        let waits = nobody(alloc, design.processes())?;
        let known = nothing(alloc, design.processes())?;
        let watchers = unwatched(alloc, design.objects())?;
        let all = Watchers::everyone(alloc, design.processes().len())?;
        Ok(Sense {
            waits,
            known,
            watchers,
            scoped: Watchers::nobody(alloc),
            all,
        })
    }

    /// A process more, behind the others, which waits for nothing. Without memory there is none more.
    pub fn add(&mut self) -> Result<(), NoMemory>
        requires { length self.old.waits < 2 ^ 32 }
        ensures ok { OnOk result (self.new.waits ≡ self.old.waits ++ None ∷ []) }
        ensures err { OnErr result (self.new.waits ≡ self.old.waits) }
        ensures covers { (d : Parts) → Covers d self.old → Covers d self.new }
    {
        let process = ProcessId(self.waits.len() as u32);
        self.all.add(process)?;
        self.known.push(None)?;
        add_nobody(&mut self.waits)?;
        Ok(())
    }

    /// For what a process waits and in which scope, if it does.
    pub fn get(&self, process: ProcessId) -> Option<Waiter>
        requires { process.0 < length self.now.waits }
        ensures value { result ≡ wait_of process self.now.waits }
        ensures there { slice_get self.now.waits process.0 ≡ Some result }
    {
        self.waits[process.0 as usize]
    }

    /// Whether a process was registered last for this.
    fn knows(&self, process: ProcessId, wait: Wait) -> bool
        ensures { IsTrue result → wait_of process self.now.known ≡ Some wait }
    {
        match self.known.get(process.0 as usize) {
            Some(Some(known)) => *known == wait,
            _ => false,
        }
    }

    /// Puts a process among the watchers of all that is read by what it will wait for.
    fn learn(
        &mut self,
        alloc: Global,
        design: &Design,
        process: ProcessId,
        wait: Wait,
    ) -> Result<(), NoMemory>
        requires known { process.0 < length self.old.waits }
        requires covers { Covers design.now self.old }
        ensures waits { self.new.waits ≡ self.old.waits }
        ensures covers { Covers design.now self.new }
        ensures ok { OnOk result (IsFound design.now process wait self.new) }
    {
        if self.knows(process, wait) {
            return Ok(());
        }
        let objects = wait_objects(alloc, design, wait)?;
        register(&mut self.watchers, process, objects.as_slice())?;
        register_scoped(&mut self.scoped, design, process, wait)?;
        self.known[process.0 as usize] = Some(wait);
        Ok(())
    }

    /// A process waits from now on, in a scope. Without memory it waits for what it waited for before.
    pub fn wait(
        &mut self,
        alloc: Global,
        design: &Design,
        process: ProcessId,
        wait: Wait,
        scope: Option<Name>,
    ) -> Result<(), NoMemory>
        requires known { process.0 < length self.old.waits }
        requires covers { Covers design.now self.old }
        ensures ok { OnOk result (self.new.waits ≡ slice_set self.old.waits process.0 (Some (record { wait = wait; scope = scope }))) }
        ensures err { OnErr result (self.new.waits ≡ self.old.waits) }
        ensures covers { Covers design.now self.new }
    {
        self.learn(alloc, design, process, wait)?;
        self.waits[process.0 as usize] = Some(Waiter { wait, scope });
        Ok(())
    }

    /// A process waits no longer.
    pub fn forget(&mut self, process: ProcessId)
        requires { process.0 < length self.old.waits }
        ensures waits { self.new.waits ≡ slice_set self.old.waits process.0 None }
        ensures covers { (d : Parts) → Covers d self.old → Covers d self.new }
    {
        self.waits[process.0 as usize] = None;
    }

    /// Whether a process may wait for a change of a variable of an activation.
    pub fn has_scoped(&self) -> bool
        ensures { result ≡ false → self.now.scoped ≡ [] }
    {
        !self.scoped.as_slice().is_empty()
    }

    /// Wakes the processes for whose wait a change fires, each as it is seen in its own scope: they wait no longer, and are told, by
    /// number. A fault in an evaluation fires nothing. Without memory some may be woken, and others not, so that the run must end.
    pub fn fire(
        &mut self,
        alloc: Global,
        design: &Design,
        before: &Before,
        woken: &mut Vec<ProcessId>,
    ) -> Result<(), NoMemory>
        requires built { IsBuilt design.now }
        requires covers { Covers design.now self.old }
        requires nobody { woken.old.items ≡ [] }
        ensures woken { OnOk result (woken.new.items
            ≡ woken_from (fires_at design.now (scenes_before before.now) (scenes_after before.now)) 0 self.old.waits) }
        ensures left { OnOk result
            (self.new.waits ≡ waits_after (fires_at design.now (scenes_before before.now) (scenes_after before.now)) self.old.waits) }
        ensures covers { OnOk result (Covers design.now self.new) }
    {
        let hearers = hearers(
            self.watchers.as_slice(),
            &self.scoped,
            &self.all,
            before.change,
        );
        try_all(alloc, design, hearers, before, &mut self.waits, woken)
    }
}
