// What each effect of a step does to the machine.
ghost use Rattle.std.specs.Prelude.{◌≡◌, ◌<◌, ◌≤◌, ◌^◌, ◌++◌, Some, None, false, OnOk, OnErr, length};
ghost use Rattle.std.specs.List.{Contains};
ghost use Rattle.sv_value.specs.Regions.{standing};
ghost use Rattle.sv_flat.specs.declared.process.Process.{Process};
ghost use Rattle.sv_flat.specs.Config.{first_process};
ghost use Rattle.sv_flat.specs.Effects.{occurred};
ghost use Rattle.sv_built.specs.Built.{IsBuilt};
ghost use Rattle.sv_sound.specs.Sound.{IsPlainEffect, IsPlainJob};
ghost use Rattle.sv_stack.specs.Effects.{effect_in};
ghost use Rattle.sv_sense.specs.Sensed.{Covers};
ghost use Rattle.sv_fork.specs.Tree.{is_awaited};
ghost use Rattle.sv_machine.specs.Machine.{IsAt, Makes, Does, SameMoment};
ghost use Rattle.sv_machine.specs.Forks.{ended_forked};
ghost use Rattle.sv_machine.specs.Steps.{turned_in, WaitsFor, resuming_at, updating_at, EndsAs};

use crate::entering::enter;
use crate::forks::{await_children, end_descendants, end_forked, fork};
use crate::line::Line;
use crate::machine::{Kept, Machine};
use crate::sides::{front_region, idle_region, updates_region};
use crate::writes::assign;
use sv_arena::Name;
use sv_built::{Design, Wait};
use sv_flat::ProcessKind;
use sv_stack::Effect;
use sv_value::{Due, Job, NoMemory, Place, ProcessId, RunFault, Side};

/// One of the effects that come less often. Memory is wanting for all others.
#[inline(never)]
fn occur_rarely(
    machine: &mut Machine,
    design: &Design,
    process: ProcessId,
    at: Place,
    effect: Effect,
    lines: &mut Vec<Line>,
) -> Result<(), NoMemory>
    requires at { IsAt design.now machine.old }
    requires running { machine.old.running ≡ Some process }
    requires built { IsBuilt design.now }
    requires plain { IsPlainEffect (effect_in design.now effect) }
    ensures ok { OnOk result (Does design.now machine.old machine.new
        (occurred design.now at process (effect_in design.now effect)) lines.old.items lines.new.items) }
    ensures moment { SameMoment machine.old machine.new }
{
    let side = machine.tree.side(process);
    match effect {
        Effect::Enter { entered, around } => {
            enter(machine, design, process, at, entered, around)
        }
        Effect::Turn => turn(machine, process, side),
        Effect::Spawn {
            at: position,
            scope,
        } => fork(machine, design, process, at, position, scope),
        Effect::AwaitChildren => await_children(machine, design, process),
        Effect::EndDescendants => end_descendants(machine, design, process),
        Effect::Print(text) => {
            lines.push(Line { side, text })?;
            Ok(())
        }
        Effect::Strobe(position) => {
            machine.strobes.push(Kept { side, at, position })?;
            Ok(())
        }
        Effect::Finish => {
            machine.finishing = true;
            Ok(())
        }
        Effect::Fail(kind) => {
            machine.fault = Some(RunFault {
                kind,
                at,
                time: machine.time,
            });
            Ok(())
        }
        _ => Err(NoMemory::Memory),
    }
}

/// An effect of the running process, whose statement stands at a place. What is printed comes behind the lines.
/// The effects that come most often stand here, so that no room is cleared for the others.
pub fn occur(
    machine: &mut Machine,
    design: &Design,
    process: ProcessId,
    at: Place,
    effect: Effect,
    lines: &mut Vec<Line>,
) -> Result<(), NoMemory>
    requires at { IsAt design.now machine.old }
    requires running { machine.old.running ≡ Some process }
    requires built { IsBuilt design.now }
    requires plain { IsPlainEffect (effect_in design.now effect) }
    ensures ok { OnOk result (Does design.now machine.old machine.new
        (occurred design.now at process (effect_in design.now effect)) lines.old.items lines.new.items) }
    ensures moment { SameMoment machine.old machine.new }
{
    let side = machine.tree.side(process);
    match effect {
        Effect::Write { spot, value } => assign(machine, design, spot, value),
        Effect::Watch { wait, scope } => watch(machine, design, process, wait, scope),
        Effect::ResumeAt(time) => resume_at(machine, process, side, time),
        Effect::UpdateAt { time, job } => update_at(machine, side, time, job),
        Effect::End => end(machine, design, process),
        effect => occur_rarely(machine, design, process, at, effect, lines),
    }
}

/// The process waits for its turn in the slot.
fn turn(machine: &mut Machine, process: ProcessId, side: Side) -> Result<(), NoMemory>
    requires absent { ¬ Contains (standing machine.old.regions) process }
    requires few { length (standing machine.old.regions) < 2 ^ 31 }
    ensures ok { OnOk result (machine.new ≡ turned_in process side machine.old) }
    ensures moment { SameMoment machine.old machine.new }
{
    machine.regions.ready(idle_region(side), process)?;
    machine.running = None;
    Ok(())
}

/// The process waits for a change, as seen from a scope.
fn watch(
    machine: &mut Machine,
    design: &Design,
    process: ProcessId,
    wait: Wait,
    scope: Option<Name>,
) -> Result<(), NoMemory>
    requires known { process.0 < length machine.old.sense.waits }
    requires covers { Covers design.now machine.old.sense }
    ensures ok { OnOk result (WaitsFor design.now process (record { wait = wait; scope = scope }) machine.old machine.new) }
    ensures moment { SameMoment machine.old machine.new }
{
    machine
        .sense
        .wait(machine.alloc, design, process, wait, scope)?;
    machine.running = None;
    Ok(())
}

/// The process waits until a moment. Memory is wanting, too, for a moment that has passed, which no step asks for.
fn resume_at(
    machine: &mut Machine,
    process: ProcessId,
    side: Side,
    time: u64,
) -> Result<(), NoMemory>
    requires last { machine.old.wheel.last ≤ machine.old.time }
    ensures ok { OnOk result (machine.new ≡ resuming_at process side time machine.old) }
    ensures moment { SameMoment machine.old machine.new }
{
    if time < machine.time {
        return Err(NoMemory::Memory);
    }
    machine
        .wheel
        .add(time, front_region(side), Due::Resume(process))?;
    machine.running = None;
    Ok(())
}

/// A job is scheduled, in this slot or in a later one. Memory is wanting, too, for a moment that has passed, which no step asks for.
fn update_at(machine: &mut Machine, side: Side, time: u64, job: Job) -> Result<(), NoMemory>
    requires last { machine.old.wheel.last ≤ machine.old.time }
    requires job { IsPlainJob job }
    ensures ok { OnOk result (machine.new ≡ updating_at side time job machine.old) }
    ensures moment { SameMoment machine.old machine.new }
{
    if time == machine.time {
        return Ok(machine.regions.job(updates_region(side), job)?);
    }
    if time < machine.time {
        return Err(NoMemory::Memory);
    }
    machine
        .wheel
        .add(time, updates_region(side), Due::Work(job))
}

/// The process is at the end of its body: it is over, begins again, or waits for a change of what it watches.
fn end(machine: &mut Machine, design: &Design, process: ProcessId) -> Result<(), NoMemory>
    requires at { IsAt design.now machine.old }
    requires running { machine.old.running ≡ Some process }
    requires built { IsBuilt design.now }
    ensures first { OnOk result ((f : Process) → first_process design.now process ≡ Some f
        → EndsAs design.now f process f.kind machine.old machine.new) }
    ensures forked { OnOk result (first_process design.now process ≡ None
        → Makes design.now machine.old machine.new (ended_forked process)) }
    ensures moment { SameMoment machine.old machine.new }
{
    if (process.0 as usize) < design.processes().len() {
        return end_first(machine, design, process);
    }
    end_forked(machine, design, process)
}

/// A process that the design begins with is at the end of its body.
fn end_first(machine: &mut Machine, design: &Design, process: ProcessId) -> Result<(), NoMemory>
    requires first { process.0 < length design.now.processes }
    requires known { process.0 < length machine.old.processes.items }
    requires waits { process.0 < length machine.old.sense.waits }
    requires alone { is_awaited machine.old.tree process ≡ false }
    requires covers { Covers design.now machine.old.sense }
    ensures ok { OnOk result ((f : Process) → first_process design.now process ≡ Some f
        → EndsAs design.now f process f.kind machine.old machine.new) }
    ensures moment { SameMoment machine.old machine.new }
{
    let own = &design.processes()[process.0 as usize];
    match own.kind {
        ProcessKind::Initial => {
            machine.tree.end(process);
            machine.processes[process.0 as usize].clear();
            machine.running = None;
            Ok(())
        }
        ProcessKind::Always | ProcessKind::AlwaysFf => {
            machine.processes[process.0 as usize].begin(own.body)
        }
        ProcessKind::AlwaysComb | ProcessKind::Assign | ProcessKind::Port => {
            machine.processes[process.0 as usize].begin(own.body)?;
            watch(machine, design, process, Wait::Watched(process), None)
        }
    }
}
