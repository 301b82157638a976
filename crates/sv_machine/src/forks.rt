// Forks, `wait fork`, `disable fork`, and the ends of those that forks made (IEEE 1800-2017, 9.3.2, 9.6.1 and 9.6.3).
ghost use Rattle.std.specs.Prelude.{◌≡◌, ◌<◌, ◌^◌, Some, None, false, true, IfOk, OnOk, OnErr, length, IsNone};
ghost use Rattle.std.specs.List.{Contains, list_all};
ghost use Rattle.sv_value.specs.Regions.{standing};
ghost use Rattle.sv_flat.specs.Effects.Ends.{all_ended, descendants, living_children};
ghost use Rattle.sv_flat.specs.Effects.Scheduling.{awaiting};
ghost use Rattle.sv_built.specs.Built.{IsBuilt};
ghost use Rattle.sv_built.specs.Positions.{stmt_at};
ghost use Rattle.sv_fork.specs.Tree.{is_awaited, is_living_child};
ghost use Rattle.sv_stack.specs.Effects.{spawn_at};
ghost use Rattle.sv_sense.specs.Sensed.{Covers};
ghost use Rattle.sv_machine.specs.Machine.{IsAt, Makes, SameMoment};
ghost use Rattle.sv_machine.specs.Forks.{ended_forked, forked_in, joined_in, joining_in, spawned_in, AllEnd, ChildrenOf, EndsOne, HasMore, MayAllEnd, Starts, StartsOne};

use crate::machine::Machine;
use crate::sides::front_region;
use sv_arena::Name;
use sv_built::{Design, Position};
use sv_flat::{Form, JoinKind};
use sv_fork::StartFault;
use sv_stack::Frames;
use sv_value::{FaultKind, NoMemory, Place, ProcessId, RoutineId, RunFault};

// ---- forks

/// The children of the fork at a position start, each in the scope, and the process waits for them, as the join says. Where there are 2^18
/// processes, a fault is met.
pub fn fork(
    machine: &mut Machine,
    design: &Design,
    process: ProcessId,
    at: Place,
    position: Position,
    scope: Option<Name>,
) -> Result<(), NoMemory>
    requires at { IsAt design.now machine.old }
    requires running { machine.old.running ≡ Some process }
    requires built { IsBuilt design.now }
    ensures ok { OnOk result (Makes design.now machine.old machine.new
        (forked_in design.now at process (spawn_at (stmt_at design.now position) scope))) }
    ensures moment { SameMoment machine.old machine.new }
{
    match design.body(position.routine).get(position.place) {
        Some(stmt) => match &stmt.form {
            Form::Fork { children, join, .. } => {
                spawn(
                    machine,
                    design,
                    process,
                    at,
                    children.as_slice(),
                    scope,
                    *join,
                )
            }
            _ => Ok(()),
        },
        None => Ok(()),
    }
}

/// Children of these routines start, and the process waits for them, as the join says.
fn spawn(
    machine: &mut Machine,
    design: &Design,
    process: ProcessId,
    at: Place,
    routines: &[RoutineId],
    scope: Option<Name>,
    join: JoinKind,
) -> Result<(), NoMemory>
    requires at { IsAt design.now machine.old }
    requires running { machine.old.running ≡ Some process }
    requires built { IsBuilt design.now }
    ensures ok { OnOk result (Makes design.now machine.old machine.new
        (spawned_in design.now at process routines.now scope join)) }
    ensures moment { SameMoment machine.old machine.new }
{
    let mut children = Vec::new(machine.alloc);
    start_all(
        machine,
        design,
        process,
        at,
        routines,
        &scope,
        &mut children,
    )?;
    if machine.fault.is_some() {
        return Ok(());
    }
    join_as(machine, process, join, children);
    Ok(())
}

/// Children of these routines start, one after another, until there is no room. They come behind the others.
fn start_all(
    machine: &mut Machine,
    design: &Design,
    process: ProcessId,
    at: Place,
    routines: &[RoutineId],
    scope: &Option<Name>,
    children: &mut Vec<ProcessId>,
) -> Result<(), NoMemory>
    requires at { IsAt design.now machine.old }
    requires running { machine.old.running ≡ Some process }
    requires built { IsBuilt design.now }
    ensures starts { OnOk result (Starts design.now at process routines.now scope.now machine.old machine.new) }
    ensures children { OnOk result (IsNone machine.new.fault
        → ChildrenOf process routines.now children.old.items children.new.items machine.old machine.new) }
    ensures moment { SameMoment machine.old machine.new }
{
    match routines {
        [] => Ok(()),
        [routine, rest @ ..] => {
            let Some(child) = start(machine, design, process, at, *routine, *scope)? else {
                return Ok(());
            };
            children.push(child)?;
            start_all(machine, design, process, at, rest, scope, children)
        }
    }
}

/// A child of a routine starts: it is ready, behind all others of its side. Where there are 2^18 processes, a fault is met.
fn start(
    machine: &mut Machine,
    design: &Design,
    process: ProcessId,
    at: Place,
    routine: RoutineId,
    scope: Option<Name>,
) -> Result<Option<ProcessId>, NoMemory>
    requires known { process.0 < length machine.old.tree }
    requires absent { ¬ Contains (standing machine.old.regions) (record { 0 = length machine.old.tree }) }
    requires few { length (standing machine.old.regions) < 2 ^ 31 }
    requires covers { Covers design.now machine.old.sense }
    requires waits { length machine.old.sense.waits < 2 ^ 32 }
    ensures starts { IfOk result (λ child. StartsOne design.now at process routine scope child machine.old machine.new) }
    ensures moment { SameMoment machine.old machine.new }
{
    let side = machine.tree.side(process);
    match machine.tree.start(process) {
        Ok(child) => {
            add_process(machine, design, routine, scope)?;
            machine.regions.ready(front_region(side), child)?;
            Ok(Some(child))
        }
        Err(StartFault::Full) => {
            machine.fault = Some(RunFault {
                kind: FaultKind::Processes,
                at,
                time: machine.time,
            });
            Ok(None)
        }
        Err(StartFault::Memory) => Err(NoMemory::Memory),
    }
}

/// A process more, at the beginning of a routine.
fn add_process(
    machine: &mut Machine,
    design: &Design,
    routine: RoutineId,
    scope: Option<Name>,
) -> Result<(), NoMemory>
    requires covers { Covers design.now machine.old.sense }
    requires waits { length machine.old.sense.waits < 2 ^ 32 }
    ensures more { OnOk result (HasMore design.now routine scope machine.old machine.new) }
    ensures moment { SameMoment machine.old machine.new }
{
    let _ = design;
    let frames = Frames::new(machine.alloc, routine, scope)?;
    machine.processes.push(frames)?;
    machine.taken.push(false)?;
    machine.sense.add()?;
    machine.activations.add_process(machine.alloc)
}

// ---- waits

/// The process waits for these children, as the join says.
fn join_as(machine: &mut Machine, process: ProcessId, join: JoinKind, children: Vec<ProcessId>)
    requires living { list_all (is_living_child machine.old.tree process) children.items ≡ true }
    ensures { machine.new ≡ joined_in process join children.items machine.old }
{
    match join {
        JoinKind::All => await_all(machine, process, true, children),
        JoinKind::Any => await_all(machine, process, false, children),
        JoinKind::None | JoinKind::Wait => {}
    }
}

/// The process waits for all of these children or for one of them, where there are any.
fn await_all(machine: &mut Machine, process: ProcessId, all: bool, children: Vec<ProcessId>)
    requires living { list_all (is_living_child machine.old.tree process) children.items ≡ true }
    ensures { machine.new ≡ joining_in process all children.items machine.old }
{
    if children.is_empty() {
        return;
    }
    machine.tree.join(process, all, children);
    machine.running = None;
}

/// The process waits for its living children, where there are any.
pub fn await_children(
    machine: &mut Machine,
    design: &Design,
    process: ProcessId,
) -> Result<(), NoMemory>
    requires at { IsAt design.now machine.old }
    requires running { machine.old.running ≡ Some process }
    ensures ok { OnOk result (Makes design.now machine.old machine.new
        (λ c. awaiting process (living_children c process) c)) }
    ensures moment { SameMoment machine.old machine.new }
{
    let _ = design;
    let children = machine.tree.living_children(machine.alloc, process)?;
    await_all(machine, process, true, children);
    Ok(())
}

// ---- ends

/// The living descendants of the process are over.
pub fn end_descendants(
    machine: &mut Machine,
    design: &Design,
    process: ProcessId,
) -> Result<(), NoMemory>
    requires at { IsAt design.now machine.old }
    requires running { machine.old.running ≡ Some process }
    ensures ok { OnOk result (Makes design.now machine.old machine.new
        (λ c. all_ended (descendants c process) c)) }
    ensures moment { SameMoment machine.old machine.new }
{
    let over = machine.tree.descendants(machine.alloc, process)?;
    end_all(machine, design, process, over.as_slice());
    Ok(())
}

/// These processes are over, one after another, while another one runs.
fn end_all(machine: &mut Machine, design: &Design, process: ProcessId, processes: &[ProcessId])
    requires may { MayAllEnd design.now process processes.now machine.old }
    ensures ends { AllEnd design.now process processes.now machine.old machine.new }
    ensures moment { SameMoment machine.old machine.new }
{
    match processes {
        [] => {}
        [one, rest @ ..] => {
            end_one(machine, design, *one);
            end_all(machine, design, process, rest)
        }
    }
}

/// A process that does not run is over: it is ready no more, waits for nothing, and has nothing left to run.
fn end_one(machine: &mut Machine, design: &Design, process: ProcessId)
    requires known { process.0 < length machine.old.processes.items }
    requires waits { process.0 < length machine.old.sense.waits }
    requires alone { is_awaited machine.old.tree process ≡ false }
    requires covers { Covers design.now machine.old.sense }
    ensures ends { EndsOne design.now process machine.old machine.new }
    ensures moment { SameMoment machine.old machine.new }
{
    let _ = design;
    machine.tree.end(process);
    machine.processes[process.0 as usize].clear();
    machine.sense.forget(process);
    machine.regions.remove(process);
    machine.wheel.remove(process);
}

/// A process that a fork made is at the end of its body: it is over, and its parent goes on where that completes its join.
pub fn end_forked(
    machine: &mut Machine,
    design: &Design,
    process: ProcessId,
) -> Result<(), NoMemory>
    requires at { IsAt design.now machine.old }
    requires running { machine.old.running ≡ Some process }
    ensures ok { OnOk result (Makes design.now machine.old machine.new (ended_forked process)) }
    ensures moment { SameMoment machine.old machine.new }
{
    let _ = design;
    machine.processes[process.0 as usize].clear();
    machine.running = None;
    match machine.tree.finish(process) {
        Some(parent) => {
            let side = machine.tree.side(parent);
            machine.regions.ready(front_region(side), parent)
        }
        None => Ok(()),
    }
}
