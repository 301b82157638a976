// The events in the order in which they were added. They exist only in proofs, and take no memory.
ghost use Rattle.std.specs.Prelude.{◌≡◌, List, [], ◌∷◌, ◌++◌, filter};
ghost use Rattle.std.specs.Borrow.{ftrue};
ghost use Rattle.sv_value.specs.declared.schedule.Event.{Event as EventValue};
ghost use Rattle.sv_flat.specs.Effects.Ends.{not_due_to};
ghost use Rattle.sv_sched.specs.Future.{without_first_at};

use std::marker::Model;
use sv_value::{Event, ProcessId};

/// What is scheduled, as a clause names it. `Wheel` ties it to its rings and its map.
#[derive(Drop)]
pub struct Added {
    pub ghost events: { List EventValue },
}

impl Model for Added {
    ghost also_owns = { λ _. ftrue };
}

impl Added {
    /// Nothing.
    pub(crate) fn new() -> Added
        ensures { result.events ≡ [] }
    {
        Added {}
    }

    /// An event comes behind the others.
    pub(crate) fn with(_before: &Added, _event: &Event) -> Added
        ensures { result.events ≡ _before.now.events ++ _event.now ∷ [] }
    {
        Added {}
    }

    /// The first event of that time goes.
    pub(crate) fn without_first(_before: &Added, _event: &Event) -> Added
        ensures { result.events ≡ without_first_at _event.now.time _before.now.events }
    {
        Added {}
    }

    /// What resumes a process goes.
    pub(crate) fn without(_before: &Added, _process: &ProcessId) -> Added
        ensures { result.events ≡ filter (not_due_to _process.now) _before.now.events }
    {
        Added {}
    }
}
