// Those whom a change lets go on.
ghost use Rattle.std.specs.Prelude.{◌≡◌, ◌<◌, ◌≤◌, ◌+◌, ◌^◌, [], ℕ, OnOk, OnErr, length, sum_by};
ghost use Rattle.std.specs.List.{AllByRecursion};
ghost use Rattle.sv_value.specs.declared.number.ProcessId.{ProcessId as ProcessNumber};
ghost use Rattle.sv_value.specs.Regions.{standing};
ghost use Rattle.sv_sound.specs.Sound.{weight_of_all};
ghost use Rattle.sv_machine.specs.Wakes.{all_ready, IsKnown};

use crate::sides::front_region;
use sv_fork::Tree;
use sv_sched::Regions;
use sv_value::{NoMemory, ProcessId};

/// These processes become ready, each on its side.
pub fn make_ready(
    tree: &Tree,
    processes: &[ProcessId],
    regions: &mut Regions,
) -> Result<(), NoMemory>
    requires known { AllByRecursion (IsKnown (length tree.now)) processes.now }
    requires weights { (w : ProcessNumber → ℕ)
        → sum_by w (standing regions.old) + sum_by w processes.now ≤ weight_of_all w tree.now }
    requires few { length tree.now ≤ 2 ^ 18 }
    ensures { OnOk result (regions.new ≡ all_ready tree.now processes.now regions.old) }
{
    for process in processes {
        let side = tree.side(*process);
        regions.ready(front_region(side), *process)?;
    }
    Ok(())
}
