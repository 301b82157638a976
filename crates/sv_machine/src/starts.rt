// Processes that are taken, and the `always_comb` that start after the last starter (IEEE 1800-2017, 9.2.2.2).
ghost use Rattle.std.specs.Prelude.{◌≡◌, ◌<◌, ◌^◌, ◌++◌, IfOk, OnOk, length, slice_get};
ghost use Rattle.sv_flat.specs.Config.{starts, is_always_comb, first_test, first_process};
ghost use Rattle.sv_built.specs.Built.{IsBuilt};
ghost use Rattle.sv_machine.specs.Machine.{SameMoment};
ghost use Rattle.sv_machine.specs.Starts.{held_at, held_from, is_held, IsTaking, Begins};

use crate::machine::Machine;
use crate::wakes::make_ready;
use std::alloc::Global;
use sv_built::Design;
use sv_flat::{Process, ProcessKind};
use sv_value::{NoMemory, ProcessId};

/// A process runs. Where it is the last starter that was to come, the `always_comb` become ready.
pub fn begin_process(
    machine: &mut Machine,
    design: &Design,
    process: ProcessId,
) -> Result<(), NoMemory>
    requires taking { IsTaking design.now machine.old process }
    requires built { IsBuilt design.now }
    ensures begins { OnOk result (Begins design.now machine.old machine.new process) }
    ensures moment { SameMoment machine.old machine.new }
{
    machine.running = Some(process);
    machine.tree.go_on(process);
    if machine.taken[process.0 as usize] {
        return Ok(());
    }
    machine.taken[process.0 as usize] = true;
    if !starts_first(design, process) {
        return Ok(());
    }
    machine.starters -= 1;
    if machine.starters > 0 {
        return Ok(());
    }
    let held = held_combs(machine.alloc, design.processes(), &machine.taken)?;
    make_ready(&machine.tree, &held, &mut machine.regions)
}

/// Whether the process with a number is a starter: one that a fork made is none.
fn starts_first(design: &Design, process: ProcessId) -> bool
    ensures { result ≡ first_test starts (first_process design.now process) }
{
    match design.processes().get(process.0 as usize) {
        Some(own) => is_starter(own),
        None => false,
    }
}

/// Whether a process is a procedure of a module other than an `always_comb`.
pub fn is_starter(process: &Process) -> bool
    ensures { result ≡ starts process.now }
{
    process.program.is_none()
        && match process.kind {
            ProcessKind::Initial | ProcessKind::Always | ProcessKind::AlwaysFf => true,
            ProcessKind::AlwaysComb | ProcessKind::Assign | ProcessKind::Port => false,
        }
}

/// The `always_comb` that were not taken yet, by number.
fn held_combs(
    alloc: Global,
    processes: &[Process],
    taken: &[bool],
) -> Result<Vec<ProcessId>, NoMemory>
    requires { length processes.now < 2 ^ 18 }
    ensures { IfOk result (λ held. held.items ≡ held_from 0 processes.now taken.now) }
{
    let mut held = Vec::new(alloc);
    for (number, process) in processes.iter().enumerate() {
        add_if_held(&mut held, process, taken, number)?;
    }
    Ok(held)
}

/// A process comes behind the others, if it is an `always_comb` that was not taken yet.
fn add_if_held(
    held: &mut Vec<ProcessId>,
    process: &Process,
    taken: &[bool],
    number: usize,
) -> Result<(), NoMemory>
    requires { number < 2 ^ 18 }
    ensures { OnOk result (held.new.items ≡ held.old.items ++ held_at number process.now (slice_get taken.now number)) }
{
    if is_held(process, taken, number) {
        held.push(ProcessId(number as u32))?;
        return Ok(());
    }
    Ok(())
}

/// Whether a process is an `always_comb` that was not taken yet.
fn is_held(process: &Process, taken: &[bool], number: usize) -> bool
    ensures { result ≡ is_held process.now (slice_get taken.now number) }
{
    match taken.get(number) {
        Some(was_taken) => process.kind == ProcessKind::AlwaysComb && !*was_taken,
        None => false,
    }
}
