// Changes of values: what is written, and whom it wakes (IEEE 1800-2017, 9.4.2 and 10.4).
ghost use Rattle.std.specs.Prelude.{◌≡◌, ◌≤◌, ◌+◌, ◌^◌, [], ℕ, None, OnOk, OnErr, length, reverse, sum_by};
ghost use Rattle.sv_value.specs.declared.number.ProcessId.{ProcessId as ProcessNumber};
ghost use Rattle.sv_value.specs.Regions.{standing};
ghost use Rattle.sv_flat.specs.Steps.{job_done, job_spot, updates_written};
ghost use Rattle.sv_flat.specs.Effects.Writes.{variable_over};
ghost use Rattle.sv_built.specs.Built.{IsBuilt};
ghost use Rattle.sv_sound.specs.Sound.{IsPlainJob, weight_of_all};
ghost use Rattle.sv_sound.specs.After.{changed_to, store_after, varied_to};
ghost use Rattle.sv_assign.specs.Places.{spot_in};
ghost use Rattle.sv_sense.specs.Sensed.{Covers};
ghost use Rattle.sv_sense.specs.Wakes.{scenes_before, scenes_after};
ghost use Rattle.sv_machine.specs.Steps.{assigned_in};
ghost use Rattle.sv_machine.specs.Wakes.{Wakes, waits_weight};
ghost use Rattle.sv_machine.specs.Machine.{IsAt, Makes, SameMoment, SameButValues};

use crate::machine::Machine;
use crate::wakes::make_ready;
use std::alloc::Global;
use sv_arena::Name;
use sv_assign::{Before, Change, Spot, overwrite};
use sv_built::Design;
use sv_fork::Tree;
use sv_sched::Regions;
use sv_sense::Sense;
use sv_stack::Spare;
use sv_value::{Job, NoMemory, ObjectTarget, Range, Seq, Update, Val};

/// Lets those go on whom a change wakes, by number, each of whom sees it in its own scope.
fn wake(
    alloc: Global,
    design: &Design,
    tree: &Tree,
    before: &Before,
    sense: &mut Sense,
    regions: &mut Regions,
    spare: &mut Spare,
) -> Result<(), NoMemory>
    requires built { IsBuilt design.now }
    requires covers { Covers design.now sense.old }
    requires weights { (w : ProcessNumber → ℕ)
        → sum_by w (standing regions.old) + waits_weight w 0 sense.old.waits ≤ weight_of_all w tree.now }
    requires count { length sense.old.waits ≡ length tree.now }
    requires few { length tree.now ≤ 2 ^ 18 }
    ensures { OnOk result (Wakes design.now tree.now
        (scenes_before before.now) (scenes_after before.now) sense.old regions.old sense.new regions.new) }
{
    let mut woken = spare.woken(alloc);
    sense.fire(alloc, design, before, &mut woken)?;
    let done = make_ready(tree, &woken, regions);
    spare.keep_woken(woken);
    done
}

/// A value is written to a place, and those go on whom the change wakes.
pub fn assign(
    machine: &mut Machine,
    design: &Design,
    spot: Spot,
    value: Val,
) -> Result<(), NoMemory>
    requires at { IsAt design.now machine.old }
    requires built { IsBuilt design.now }
    ensures ok { OnOk result (Makes design.now machine.old machine.new (assigned_in design.now (spot_in spot) value)) }
    ensures moment { SameMoment machine.old machine.new }
{
    match spot {
        Spot::Cell(target) => write(machine, design, target, value),
        Spot::Variable {
            name,
            variable,
            part,
        } => vary(machine, design, name, variable, part, value),
        Spot::Nowhere => Ok(()),
    }
}

/// A value is written to a variable of an activation, and those go on whom the change wakes (IEEE 1800-2017, 6.21 and 9.4.2).
fn vary(
    machine: &mut Machine,
    design: &Design,
    name: Name,
    variable: u32,
    part: Option<Range>,
    value: Val,
) -> Result<(), NoMemory>
    requires at { IsAt design.now machine.old }
    requires built { IsBuilt design.now }
    ensures ok { OnOk result (Makes design.now machine.old machine.new
        (λ c. varied_to design.now (variable_over name variable part value c.activations) c)) }
    ensures moment { SameMoment machine.old machine.new }
{
    if !machine.sense.has_scoped() {
        machine.activations.write(name, variable, part, value);
        return Ok(());
    }
    let old = machine
        .activations
        .value(machine.alloc, Some(name), 0, u64::from(variable))?;
    machine.activations.write(name, variable, part, value);
    let change = Change::Variable {
        name,
        variable,
        old: &old,
    };
    let before = Before {
        store: &machine.store,
        activations: &machine.activations,
        scope: None,
        time: machine.time,
        unit: design.scale().unit_ticks(),
        change: &change,
    };
    wake(
        machine.alloc,
        design,
        &machine.tree,
        &before,
        &mut machine.sense,
        &mut machine.regions,
        &mut machine.spare,
    )
}

/// A value is written to an object, and those go on whom the change wakes.
pub fn write(
    machine: &mut Machine,
    design: &Design,
    target: ObjectTarget,
    value: Val,
) -> Result<(), NoMemory>
    requires at { IsAt design.now machine.old }
    requires built { IsBuilt design.now }
    ensures ok { OnOk result (Makes design.now machine.old machine.new
        (λ c. changed_to design.now (store_after (job_spot target) value c.store) c)) }
    ensures same { OnOk result (SameButValues machine.old machine.new) }
    ensures moment { SameMoment machine.old machine.new }
{
    match overwrite(&mut machine.store, target, value)? {
        None => Ok(()),
        Some(overwritten) => {
            let change = Change::Object(&overwritten);
            let before = Before {
                store: &machine.store,
                activations: &machine.activations,
                scope: None,
                time: machine.time,
                unit: design.scale().unit_ticks(),
                change: &change,
            };
            wake(
                machine.alloc,
                design,
                &machine.tree,
                &before,
                &mut machine.sense,
                &mut machine.regions,
                &mut machine.spare,
            )
        }
    }
}

/// Does a job: its updates, from the left, each as a change. The memory of their list is kept.
pub fn do_job(machine: &mut Machine, design: &Design, job: Job) -> Result<(), NoMemory>
    requires at { IsAt design.now machine.old }
    requires built { IsBuilt design.now }
    requires job { IsPlainJob job }
    ensures ok { OnOk result (Makes design.now machine.old machine.new (job_done design.now job)) }
    ensures same { OnOk result (SameButValues machine.old machine.new) }
    ensures moment { SameMoment machine.old machine.new }
{
    match job {
        Job::Update(updates) => {
            let mut list = updates.into_vec();
            list.reverse();
            write_updates(machine, design, &mut list)?;
            machine.spare.give(Job::Update(Seq::from_vec(list)));
            Ok(())
        }
        Job::Clock(_) => unreachable!(),
    }
}

/// Writes the values of updates, from the last of the list on.
fn write_updates(
    machine: &mut Machine,
    design: &Design,
    updates: &mut Vec<Update>,
) -> Result<(), NoMemory>
    requires at { IsAt design.now machine.old }
    requires built { IsBuilt design.now }
    ensures ok { OnOk result (Makes design.now machine.old machine.new (updates_written design.now (reverse updates.old.items))) }
    ensures same { OnOk result (SameButValues machine.old machine.new) }
    ensures moment { SameMoment machine.old machine.new }
{
    let Some(update) = updates.pop() else {
        return Ok(());
    };
    write(machine, design, update.target, update.value)?;
    write_updates(machine, design, updates)
}
