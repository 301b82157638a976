// The events of one moment, in the order in which they were added.
ghost use Rattle.std.specs.Prelude.{◌≡◌, ◌∷◌, ◌++◌, [], OnOk, OnErr, IfSome, IfNone, filter, length, ◌==◌};
ghost use Rattle.sv_flat.specs.Effects.Ends.{not_due_to};
ghost use Rattle.sv_sched.specs.Rings.{time_of_first};

use std::alloc::Global;
use std::collections::VecDeque;
use std::marker::Model;
use sv_value::{Due, Event, NoMemory, ProcessId};

/// The events of one moment. They are seen as a list, in the order in which they were added.
#[derive(Drop)]
pub struct Queue {
    events: VecDeque<Event>,
}

impl Model for Queue {
    ghost use Rattle.std.specs.Prelude.{List};
    ghost use Rattle.sv_value.specs.declared.schedule.Event.{Event};

    ghost Value = { List Event };

    ghost view = { λ q. q.events.items };
}

impl Queue {
    /// No event.
    pub fn new(alloc: Global) -> Self
        ensures { result ≡ [] }
    {
        Queue {
            events: VecDeque::new(alloc),
        }
    }

    /// Whether there is no event.
    pub fn is_empty(&self) -> bool
        ensures { result ≡ (length self.now == 0) }
    {
        self.events.is_empty()
    }

    /// The time of the first event.
    pub fn first_time(&self) -> Option<u64>
        ensures { result ≡ time_of_first self.now }
    {
        match self.events.front() {
            Some(event) => Some(event.time),
            None => None,
        }
    }

    /// An event comes behind the others.
    pub fn push(&mut self, event: Event) -> Result<(), NoMemory>
        ensures ok { OnOk result (self.new ≡ self.old ++ event ∷ []) }
        ensures err { OnErr result (self.new ≡ self.old) }
    {
        self.events.push_back(event)?;
        Ok(())
    }

    /// The first event goes.
    pub fn pop(&mut self) -> Option<Event>
        ensures first { IfSome result (λ e. self.old ≡ e ∷ self.new) }
        ensures none { IfNone result (self.old ≡ []) }
    {
        self.events.pop_front()
    }

    /// What resumes a process goes.
    pub fn remove(&mut self, process: ProcessId)
        ensures { self.new ≡ filter (not_due_to process) self.old }
    {
        drop_resumes(&mut self.events, process);
    }
}

/// What is scheduled to resume a process goes.
fn drop_resumes(events: &mut VecDeque<Event>, process: ProcessId)
    ensures { events.new.items ≡ filter (not_due_to process) events.old.items }
{
    events.retain(|event| stays(event, process));
}

/// Whether an event stays when a process is ended.
fn stays(event: &Event, process: ProcessId) -> bool
    ensures { result ≡ not_due_to process event.now }
{
    match &event.due {
        Due::Resume(other) => process.0 != other.0,
        Due::Work(_) => true,
    }
}
