// The steps of a slot: it begins, processes and jobs have their turns, regions move, it ends (IEEE 1800-2017, 4.5).
ghost use Rattle.std.specs.Prelude.{◌≡◌, [], OnOk, OnErr, IfOk, IsOk, Some, None, ◌≢◌, true, false};
ghost use Rattle.sv_value.specs.Regions.{is_front_empty};
ghost use Rattle.sv_flat.specs.declared.design.Parts.{Parts};
ghost use Rattle.sv_flat.specs.Steps.{Begin_slot, Move_region, End_slot, after, statement_ran};
ghost use Rattle.sv_flat.specs.Directed.{advanced, IsListed};
ghost use Rattle.sv_built.specs.Built.{IsBuilt};
ghost use Rattle.sv_machine.specs.Machine.{Makes, IsAt, IsSteady, SameMoment};
ghost use Rattle.sv_kernel.specs.Picks.{IsMoving, idled, acting_side, acting_set};
ghost use Rattle.sv_kernel.specs.Log.{AddsRecords};

use crate::future::next_time;
use crate::picks::{acting, take_pick};
use sv_built::Design;
use sv_flat::Choices;
use sv_machine::{Line, Machine, print_strobes, run_statement};
use sv_value::{NoMemory, Phase, ProcessId, Side};

/// Makes the step that the lists direct. What it prints comes into the list.
pub fn advance(
    machine: &mut Machine,
    design: &Design,
    active: &Choices,
    reactive: &Choices,
    lines: &mut Vec<Line>,
) -> Result<(), NoMemory>
    requires empty { lines.old.items ≡ [] }
    requires going { machine.old.phase ≡ Phase.Ended
        → (machine.old.finishing ≡ false) × (machine.old.wheel.events ≢ []) }
    requires steady { IsSteady design.now machine.old }
    requires built { IsBuilt design.now }
    requires active { IsListed active.now }
    requires reactive { IsListed reactive.now }
    ensures ok { OnOk result (Makes design.now machine.old machine.new (advanced design.now active.now reactive.now)) }
    ensures lines { OnOk result (
        AddsRecords design.now machine.old (advanced design.now active.now reactive.now) lines.new.items) }
    ensures begins { machine.old.phase ≡ Phase.NotBegun → IsOk result }
    ensures moves { machine.old.phase ≡ Phase.Open → machine.old.finishing ≡ false → machine.old.running ≡ None
        → IsMoving (acting_set machine.old) → IsOk result }
    ensures time { OnErr result (machine.new.time ≡ machine.old.time) }
{
    match machine.phase {
        Phase::NotBegun => {
            begin_slot(machine);
            Ok(())
        }
        Phase::Open => in_slot(machine, design, active, reactive, lines),
        Phase::Ended => {
            next_time(machine, design)?;
            Ok(())
        }
    }
}

/// A slot begins.
fn begin_slot(machine: &mut Machine)
    ensures begun { (d : Parts) → IsBuilt d → Makes d machine.old machine.new (λ c. after d c Begin_slot) }
{
    machine.phase = Phase::Open;
    machine.executed = Side::Active;
}

/// A step of a slot that is open. What it prints comes into the list.
fn in_slot(
    machine: &mut Machine,
    design: &Design,
    active: &Choices,
    reactive: &Choices,
    lines: &mut Vec<Line>,
) -> Result<(), NoMemory>
    requires empty { lines.old.items ≡ [] }
    requires open { machine.old.phase ≡ Phase.Open }
    requires steady { IsSteady design.now machine.old }
    requires built { IsBuilt design.now }
    requires active { IsListed active.now }
    requires reactive { IsListed reactive.now }
    ensures ok { OnOk result (Makes design.now machine.old machine.new (advanced design.now active.now reactive.now)) }
    ensures lines { OnOk result (
        AddsRecords design.now machine.old (advanced design.now active.now reactive.now) lines.new.items) }
    ensures moves { machine.old.finishing ≡ false → machine.old.running ≡ None
        → IsMoving (acting_set machine.old) → IsOk result }
    ensures time { machine.new.time ≡ machine.old.time }
{
    if machine.finishing {
        let side = acting(machine);
        return end_slot(machine, design, side, lines);
    }
    match machine.running {
        Some(process) => step_running(machine, design, process, lines),
        None => step_idle(machine, design, active, reactive, lines),
    }
}

/// The next step of the process that runs. What it prints comes into the list.
fn step_running(
    machine: &mut Machine,
    design: &Design,
    process: ProcessId,
    lines: &mut Vec<Line>,
) -> Result<(), NoMemory>
    requires empty { lines.old.items ≡ [] }
    requires at { IsAt design.now machine.old }
    requires running { machine.old.running ≡ Some process }
    requires built { IsBuilt design.now }
    ensures ok { OnOk result (Makes design.now machine.old machine.new (statement_ran design.now (Some process))) }
    ensures lines { OnOk result (
        AddsRecords design.now machine.old (statement_ran design.now (Some process)) lines.new.items) }
    ensures moment { SameMoment machine.old machine.new }
{
    run_statement(machine, design, process, lines)
}

/// A step of a slot in which no process runs. What it prints comes into the list.
fn step_idle(
    machine: &mut Machine,
    design: &Design,
    active: &Choices,
    reactive: &Choices,
    lines: &mut Vec<Line>,
) -> Result<(), NoMemory>
    requires empty { lines.old.items ≡ [] }
    requires idle { machine.old.running ≡ None }
    requires active { IsListed active.now }
    requires reactive { IsListed reactive.now }
    requires built { IsBuilt design.now }
    requires steady { IsSteady design.now machine.old }
    ensures done { OnOk result (Makes design.now machine.old machine.new (idled design.now active.now reactive.now)) }
    ensures lines { OnOk result (
        AddsRecords design.now machine.old (idled design.now active.now reactive.now) lines.new.items) }
    ensures moves { IsMoving (acting_set machine.old) → IsOk result }
    ensures time { machine.new.time ≡ machine.old.time }
{
    let side = acting(machine);
    let count = machine.regions.pickable(side);
    if count > 0 {
        take_pick(machine, design, active, reactive, side, count)?;
        return Ok(());
    }
    if machine.regions.is_bare(side) {
        return end_slot(machine, design, side, lines);
    }
    move_region(machine, side);
    Ok(())
}

/// The first region of the acting set that is not empty stands in its front.
fn move_region(machine: &mut Machine, side: Side)
    requires side { side ≡ acting_side machine.old }
    requires empty { is_front_empty (acting_set machine.old) ≡ true }
    ensures moved { (d : Parts) → Makes d machine.old machine.new (λ c. after d c Move_region) }
    ensures time { machine.new.time ≡ machine.old.time }
{
    machine.regions.move_first(side);
    machine.executed = side;
}

/// A slot ends, unless one of its strobes meets a fault. What the strobes print comes into the list.
fn end_slot(
    machine: &mut Machine,
    design: &Design,
    side: Side,
    lines: &mut Vec<Line>,
) -> Result<(), NoMemory>
    requires side { side ≡ acting_side machine.old }
    requires built { IsBuilt design.now }
    requires steady { IsSteady design.now machine.old }
    ensures ended { OnOk result (Makes design.now machine.old machine.new (λ c. after design.now c End_slot)) }
    ensures lines { OnOk result (
        AddsRecords design.now machine.old (λ c. after design.now c End_slot) lines.new.items) }
    ensures time { machine.new.time ≡ machine.old.time }
{
    let printed = print_strobes(machine, design)?;
    machine.executed = side;
    match printed.fault {
        Some(fault) => machine.fault = Some(fault),
        None => {
            machine.phase = Phase::Ended;
            machine.running = None;
            machine.strobes.clear();
        }
    }
    *lines = printed.lines;
    Ok(())
}
