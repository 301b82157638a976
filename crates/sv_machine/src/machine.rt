// What a run keeps between two steps.
use std::alloc::Global;
use sv_arena::Activations;
use sv_built::Position;
use sv_fork::Tree;
use sv_sched::{Regions, Wheel};
use sv_sense::Sense;
use sv_stack::{Frames, Spare};
use sv_store::Store;
use sv_value::{Phase, Place, ProcessId, RunFault, Side};

/// A strobe that prints as the slot ends.
#[derive(Clone, Copy)]
pub struct Kept {
    /// The side of the process that called for it.
    pub side: Side,
    /// The place of that statement in the sources.
    pub at: Place,
    /// Where it stands in the design.
    pub position: Position,
}

/// The time, the values, the activations, the regions, the future, and where each process stands.
#[derive(Drop)]
pub struct Machine {
    pub alloc: Global,
    pub time: u64,
    pub phase: Phase,
    pub executed: Side,
    pub finishing: bool,
    pub running: Option<ProcessId>,
    pub store: Store,
    pub activations: Activations,
    /// The processes that there are, each with its parent and with the children for which it waits.
    pub tree: Tree,
    /// What each process has still to run, by number.
    pub processes: Vec<Frames>,
    /// For what each process waits, and whom a change wakes.
    pub sense: Sense,
    /// Whether each process ever ran, by number.
    pub taken: Vec<bool>,
    /// How many starters were not taken yet.
    pub starters: usize,
    /// In the order of the calls.
    pub strobes: Vec<Kept>,
    pub regions: Regions,
    pub wheel: Wheel,
    pub used_active: u64,
    pub used_reactive: u64,
    pub fault: Option<RunFault>,
    /// The memory of updates and effects that were done.
    pub spare: Spare,
}
