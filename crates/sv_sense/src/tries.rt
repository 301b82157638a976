// Trying those whom a change may wake, each in its own scope.
ghost use Rattle.std.specs.Prelude.{◌≡◌, ◌++◌, IfOk, IfSome, OnOk, Option, Some};
ghost use Rattle.sv_flat.specs.State.{Name as name};
ghost use Rattle.sv_flat.specs.Woken.{Changed, some_fires};
ghost use Rattle.sv_built.specs.Built.{IsBuilt};
ghost use Rattle.sv_built.specs.Waits.{watches_at};
ghost use Rattle.sv_sense.specs.Wakes.{fires_at, scenes_before, scenes_after, wait_of, tried_one, woken_one, tried, woken_of};

use crate::Waiter;
use crate::fires::wait_fires;
use crate::told::wait_fires as transition_fires;
use crate::trial::Trial;
use std::alloc::Global;
use sv_assign::Before;
use sv_built::{Design, Wait};
use sv_value::{NoMemory, ProcessId};

/// For what a process waits, and in which scope.
pub(crate) fn waiter_of(waits: &[Option<Waiter>], process: ProcessId) -> Option<Waiter>
    ensures { result ≡ wait_of process waits.now }
{
    match waits.get(process.0 as usize) {
        Some(waiter) => *waiter,
        None => None,
    }
}

/// Whether a change fires what is waited for, as it is seen in the scope of the process that waits, by the values there.
#[inline(never)]
fn seen_fires(
    alloc: Global,
    design: &Design,
    waiter: Waiter,
    before: &Before,
) -> Result<bool, NoMemory>
    requires { IsBuilt design.now }
    ensures { IfOk result (λ b. b ≡ fires_at design.now (scenes_before before.now) (scenes_after before.now) (Some waiter)) }
{
    let before = before.within(waiter.scope);
    wait_fires(alloc, design, waiter.wait, &before, &before.after())
}

/// Whether a change alone tells that it fires what is waited for, whatever the scope; none where the values must tell.
fn told_fires(design: &Design, wait: Wait, trial: &Trial) -> Option<bool>
    ensures { (scope : Option name) → IfSome result (λ b. b ≡ some_fires (watches_at design.now wait) Changed
        (scenes_before trial.now.before.now scope) (scenes_after trial.now.before.now scope)) }
{
    match &trial.transition {
        Some(transition) => transition_fires(transition, design, wait),
        None => None,
    }
}

/// Whether a change fires what is waited for, as it is seen in the scope of the process that waits.
fn waiter_fires(
    alloc: Global,
    design: &Design,
    waiter: Waiter,
    trial: &Trial,
) -> Result<bool, NoMemory>
    requires { IsBuilt design.now }
    ensures { IfOk result (λ b. b
        ≡ fires_at design.now (scenes_before trial.now.before.now) (scenes_after trial.now.before.now) (Some waiter)) }
{
    match told_fires(design, waiter.wait, trial) {
        Some(fires) => Ok(fires),
        None => seen_fires(alloc, design, waiter, trial.before),
    }
}

/// A process that a change wakes waits no longer, and is told.
fn try_one(
    alloc: Global,
    design: &Design,
    process: ProcessId,
    trial: &Trial,
    waits: &mut Vec<Option<Waiter>>,
    woken: &mut Vec<ProcessId>,
) -> Result<(), NoMemory>
    requires { IsBuilt design.now }
    ensures waits { OnOk result (waits.new.items
        ≡ tried_one (fires_at design.now (scenes_before trial.now.before.now) (scenes_after trial.now.before.now)) process waits.old.items) }
    ensures woken { OnOk result (woken.new.items ≡ woken.old.items
        ++ woken_one (fires_at design.now (scenes_before trial.now.before.now) (scenes_after trial.now.before.now)) process waits.old.items) }
{
    let Some(waiter) = waiter_of(waits.as_slice(), process) else {
        return Ok(());
    };
    if waiter_fires(alloc, design, waiter, trial)? {
        woken.push(process)?;
        waits[process.0 as usize] = None;
    }
    Ok(())
}

/// The processes that a change wakes wait no longer, and are told, one after another.
pub(crate) fn try_all(
    alloc: Global,
    design: &Design,
    processes: &[ProcessId],
    before: &Before,
    waits: &mut Vec<Option<Waiter>>,
    woken: &mut Vec<ProcessId>,
) -> Result<(), NoMemory>
    requires { IsBuilt design.now }
    ensures waits { OnOk result
        (waits.new.items ≡ tried (fires_at design.now (scenes_before before.now) (scenes_after before.now)) processes.now waits.old.items) }
    ensures woken { OnOk result (woken.new.items
        ≡ woken.old.items ++ woken_of (fires_at design.now (scenes_before before.now) (scenes_after before.now)) processes.now waits.old.items) }
{
    if processes.is_empty() {
        return Ok(());
    }
    let trial = Trial::new(alloc, before);
    let mut left = processes;
    while let [one, rest @ ..] = left {
        try_one(alloc, design, *one, &trial, waits, woken)?;
        left = rest;
    }
    Ok(())
}
