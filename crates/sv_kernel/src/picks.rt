// Which side acts, and what the lists of choices pick there (IEEE 1800-2017, 4.7).
ghost use Rattle.std.specs.Prelude.{◌≡◌, ◌<◌, ◌+◌, ◌^◌, OnOk, None};
ghost use Rattle.sv_value.specs.Regions.{pickable, set_of};
ghost use Rattle.sv_flat.specs.Directed.{place_among, IsListed};
ghost use Rattle.sv_built.specs.Built.{IsBuilt};
ghost use Rattle.sv_machine.specs.Machine.{Makes, IsAt, IsSteady, SameMoment};
ghost use Rattle.sv_kernel.specs.Picks.{picked, taken_from, SameNumbers, acting_side, acting_set, choices_of, used_in, with_used, numbers_for, place_for};

use sv_built::Design;
use sv_flat::Choices;
use sv_machine::{Machine, begin_process, do_job, other_side};
use sv_sched::Picked;
use sv_value::{NoMemory, Side};

/// The side whose set acts.
pub fn acting(machine: &Machine) -> Side
    ensures { result ≡ acting_side machine.now }
{
    let own = machine.executed;
    let other = other_side(own);
    if machine.regions.is_bare(own)
        && !machine.regions.is_bare(other)
        && machine.running.is_none()
    {
        other
    } else {
        own
    }
}

/// The pick that the lists choose in the acting set, on a side where so many are open: a process begins to run, or a job is done.
pub fn take_pick(
    machine: &mut Machine,
    design: &Design,
    active: &Choices,
    reactive: &Choices,
    side: Side,
    count: u32,
) -> Result<(), NoMemory>
    requires side { side ≡ acting_side machine.old }
    requires count { count ≡ pickable (set_of side machine.old.regions) }
    requires open { 0 < pickable (acting_set machine.old) }
    requires idle { machine.old.running ≡ None }
    requires active { IsListed active.now }
    requires reactive { IsListed reactive.now }
    requires built { IsBuilt design.now }
    requires steady { IsSteady design.now machine.old }
    ensures taken { OnOk result (Makes design.now machine.old machine.new (picked design.now active.now reactive.now)) }
    ensures time { machine.new.time ≡ machine.old.time }
{
    let place = place_on(machine, active, reactive, side, count);
    do_pick(machine, design, side, place)?;
    machine.executed = side;
    count_used(machine, side, count);
    Ok(())
}

/// What stands at a place of the front of the acting side is taken.
fn do_pick(machine: &mut Machine, design: &Design, side: Side, place: u32) -> Result<(), NoMemory>
    requires side { side ≡ acting_side machine.old }
    requires within { place < pickable (acting_set machine.old) }
    requires idle { machine.old.running ≡ None }
    requires at { IsAt design.now machine.old }
    requires built { IsBuilt design.now }
    ensures done { OnOk result (Makes design.now machine.old machine.new (taken_from design.now place)) }
    ensures numbers { OnOk result (SameNumbers machine.old machine.new) }
    ensures moment { SameMoment machine.old machine.new }
{
    match machine.regions.take(side, place) {
        Picked::Process(process) => begin_process(machine, design, process),
        Picked::Job(job) => do_job(machine, design, job),
    }
}

/// The place that the list of a side picks.
fn place_on(machine: &Machine, active: &Choices, reactive: &Choices, side: Side, count: u32) -> u32
    requires some { 0 < count }
    requires active_listed { IsListed active.now }
    requires reactive_listed { IsListed reactive.now }
    ensures place { result ≡ place_for side active.now reactive.now machine.now count }
    ensures within { result < count }
{
    match side {
        Side::Active => pick(active, machine.used_active, count),
        Side::Reactive => pick(reactive, machine.used_reactive, count),
    }
}

/// The place that the next number picks among so many.
fn pick(list: &Choices, used: u64, count: u32) -> u32
    requires some { 0 < count }
    requires listed { IsListed list.now }
    ensures place { result ≡ place_among list.now used count }
    ensures within { result < count }
{
    if count < 2 {
        return 0;
    }
    list.number(used) % count
}

/// The number that a pick among so many used is counted. Where there was no choice none was used.
fn count_used(machine: &mut Machine, side: Side, count: u32)
    requires active { machine.old.used_active + 1 < 2 ^ 64 }
    requires reactive { machine.old.used_reactive + 1 < 2 ^ 64 }
    ensures { machine.new ≡ with_used side (numbers_for count) machine.old }
{
    if count < 2 {
        return;
    }
    match side {
        Side::Active => machine.used_active += 1,
        Side::Reactive => machine.used_reactive += 1,
    }
}
