// What comes in later slots: the next time, with all that is due then.
ghost use Rattle.std.specs.Prelude.{◌≡◌, ◌<◌, ◌≤◌, ◌+◌, ◌^◌, [], ℕ, OnOk, OnErr, Some, length, ◌≢◌, ◌↔◌, IsTrue, sum_by};
ghost use Rattle.std.specs.List.{AllByRecursion, Contains};
ghost use Rattle.sv_value.specs.declared.number.ProcessId.{ProcessId};
ghost use Rattle.sv_value.specs.Regions.{due_in, standing};
ghost use Rattle.sv_flat.specs.Steps.{Next_time, after, came_due, least_time};
ghost use Rattle.sv_sched.specs.Future.{due_at, not_due_at};
ghost use Rattle.sv_built.specs.Built.{IsBuilt};
ghost use Rattle.sv_sound.specs.Sound.{weight_of_event};
ghost use Rattle.sv_sound.proofs.Weights.{one};
ghost use Rattle.sv_sound.proofs.Room.{ones};
ghost use Rattle.sv_machine.specs.Machine.{Makes, IsSteady};
ghost use Rattle.sv_kernel.specs.Future.{HoldsDue, HoldsEvent};

use crate::picks::acting;
use sv_built::Design;
use sv_machine::Machine;
use sv_sched::{Regions, Wheel};
use sv_value::{Due, NoMemory, Phase, Region};

/// The least time of what is scheduled comes, and what is due comes into its regions.
pub fn next_time(machine: &mut Machine, design: &Design) -> Result<(), NoMemory>
    requires some { machine.old.wheel.events ≢ [] }
    requires steady { IsSteady design.now machine.old }
    requires built { IsBuilt design.now }
    ensures ok { OnOk result (Makes design.now machine.old machine.new (λ c. after design.now c Next_time)) }
    ensures time { OnErr result (machine.new.time ≡ machine.old.time) }
{
    let _ = design;
    let side = acting(machine);
    let Some(time) = machine.wheel.first_time() else {
        unreachable!();
    };
    release(&mut machine.wheel, &mut machine.regions, time)?;
    machine.time = time;
    machine.phase = Phase::NotBegun;
    machine.executed = side;
    Ok(())
}

/// What is scheduled for the least time comes into its regions.
pub fn release(wheel: &mut Wheel, regions: &mut Regions, time: u64) -> Result<(), NoMemory>
    requires least { least_time wheel.old.events ≡ Some time }
    requires plain { AllByRecursion HoldsEvent wheel.old.events }
    requires once { (p : ProcessId)
        → sum_by (one p) (standing regions.old) + sum_by (weight_of_event (one p)) wheel.old.events ≤ 1 }
    requires few { sum_by ones (standing regions.old) + sum_by (weight_of_event ones) wheel.old.events < 2 ^ 31 }
    ensures due { OnOk result (regions.new ≡ came_due (due_at time wheel.old.events) regions.old) }
    ensures rest { OnOk result (wheel.new.events ≡ not_due_at time wheel.old.events) }
    ensures last { OnOk result (wheel.new.last ≤ time) }
{
    while is_due(wheel, time) {
        let Some((_, region, due)) = wheel.pop_first() else {
            unreachable!();
        };
        come_due(regions, region, due)?;
    }
    Ok(())
}

/// What is due goes into its region.
fn come_due(regions: &mut Regions, region: Region, due: Due) -> Result<(), NoMemory>
    requires due { HoldsDue region due }
    requires absent { (p : ProcessId) → due ≡ Due.Resume p → ¬ Contains (standing regions.old) p }
    requires few { length (standing regions.old) < 2 ^ 31 }
    ensures ok { OnOk result (regions.new ≡ due_in region due regions.old) }
{
    match due {
        Due::Resume(process) => regions.ready(region, process),
        Due::Work(job) => regions.job(region, job),
    }
}

fn is_due(wheel: &Wheel, time: u64) -> bool
    ensures { IsTrue result ↔ (least_time wheel.now.events ≡ Some time) }
{
    match wheel.first_time() {
        Some(first) => first == time,
        None => false,
    }
}
