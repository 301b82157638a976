// What a step of a process does beside leaving something to run.
use sv_arena::Name;
use sv_assign::Spot;
use sv_built::{Entered, Position, Wait};
use sv_value::{FaultKind, Job, Text, Val};

/// An effect of a step, beside what the process has still to run.
#[derive(Drop)]
pub enum Effect {
    /// A value is written.
    Write {
        spot: Spot,
        value: Val,
    },
    /// An activation is made, inside another one.
    Enter {
        entered: Entered,
        around: Option<Name>,
    },
    /// The process waits for the other processes of the slot.
    Turn,
    /// The process waits for a change, as seen from a scope.
    Watch {
        wait: Wait,
        scope: Option<Name>,
    },
    /// The process waits until a moment.
    ResumeAt(u64),
    /// A job is done at a moment, now or later.
    UpdateAt {
        time: u64,
        job: Job,
    },
    /// The children of the fork at a position start in a scope, and the process waits as the fork says.
    Spawn {
        at: Position,
        scope: Option<Name>,
    },
    /// The process waits for its living children.
    AwaitChildren,
    /// The descendants of the process end.
    EndDescendants,
    /// A record.
    Print(Text),
    /// What the statement at a position prints as the slot ends.
    Strobe(Position),
    /// `$finish`
    Finish,
    /// The process is at the end of its body.
    End,
    /// A fault is met.
    Fail(FaultKind),
}
