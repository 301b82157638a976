// The next step of the running process: its effects, one after another (IEEE 1800-2017, 4.4.2).
ghost use Rattle.std.specs.Prelude.{◌≡◌, ◌↔◌, [], true, Option, Some, None, IsTrue, OnOk, OnErr, reverse, unwrap_or};
ghost use Rattle.std.specs.List.{AllByRecursion};
ghost use Rattle.sv_value.specs.declared.number.ProcessId.{ProcessId as ProcessNumber};
ghost use Rattle.sv_value.specs.declared.val.Message.{Message};
ghost use Rattle.sv_flat.specs.Config.{unit_ticks};
ghost use Rattle.sv_flat.specs.Effects.{all_occurred};
ghost use Rattle.sv_flat.specs.Micro.{Looks, run_first, place_of_step};
ghost use Rattle.sv_flat.specs.Process.{no_place};
ghost use Rattle.sv_flat.specs.Steps.{statement_ran};
ghost use Rattle.sv_built.specs.Built.{IsBuilt};
ghost use Rattle.sv_sound.specs.Sound.{IsPlainEffect};
ghost use Rattle.sv_assign.specs.Seen.{view_in};
ghost use Rattle.sv_flat.specs.declared.design.Parts.{Parts};
ghost use Rattle.sv_stack.specs.Effects.{effects_in, effects_of, is_held};
ghost use Rattle.sv_stack.specs.Frames.{SeesAll, todos_of};
ghost use Rattle.sv_machine.specs.Steps.{effects_done};
ghost use Rattle.sv_machine.specs.Machine.{IsAt, Makes, AddsLines, Does, SameMoment};

use crate::effects::occur;
use crate::line::Line;
use crate::machine::Machine;
use std::alloc::Global;
use sv_arena::{Activations, Name};
use sv_assign::Seen;
use sv_built::Design;
use sv_process::{Stepped, step};
use sv_stack::{Effect, Frames, Spare, Went};
use sv_store::Store;
use sv_value::{NoMemory, Place, ProcessId};

/// Makes the next step of the running process. What it prints comes behind the lines.
pub fn run_statement(
    machine: &mut Machine,
    design: &Design,
    process: ProcessId,
    lines: &mut Vec<Line>,
) -> Result<(), NoMemory>
    requires at { IsAt design.now machine.old }
    requires running { machine.old.running ≡ Some process }
    requires built { IsBuilt design.now }
    ensures ok { OnOk result (Makes design.now machine.old machine.new (statement_ran design.now (Some process))) }
    ensures lines { OnOk result (AddsLines design.now machine.old
        (statement_ran design.now (Some process)) lines.old.items lines.new.items) }
    ensures moment { SameMoment machine.old machine.new }
{
    let mut effects = machine.spare.effects(machine.alloc);
    let next = machine.activations.next(process);
    let mut stepped = Stepped {
        went: Went::Held,
        at: Place {
            file: 0,
            line: 0,
            col: 0,
        },
    };
    next_step(
        &mut machine.processes[process.0 as usize],
        machine.alloc,
        design,
        &machine.store,
        &machine.activations,
        machine.time,
        &mut effects,
        &mut machine.spare,
        next,
        &mut stepped,
    )?;
    effects.reverse();
    enter_first(stepped.went, &mut effects)?;
    let done = occur_all(machine, design, process, stepped.at, &mut effects, lines);
    machine.spare.keep(effects);
    done
}

/// An activation that a step makes first comes before its other effects, which stand from the last on.
fn enter_first(went: Went, effects: &mut Vec<Effect>) -> Result<(), NoMemory>
    ensures { OnOk result ((d : Parts) → effects_in d (reverse effects.new.items) ≡ effects_done d went (reverse effects.old.items)) }
{
    match went {
        Went::On | Went::Held => Ok(()),
        Went::Entered { entered, around } | Went::EnteredHeld { entered, around } => {
            effects.push(Effect::Enter { entered, around })?;
            Ok(())
        }
    }
}

/// The next step of a process, with the values that its scopes see.
fn next_step(
    frames: &mut Frames,
    alloc: Global,
    design: &Design,
    store: &Store,
    activations: &Activations,
    time: u64,
    out: &mut Vec<Effect>,
    spare: &mut Spare,
    next: Name,
    stepped: &mut Stepped,
) -> Result<(), NoMemory>
    requires built { IsBuilt design.now }
    requires empty { out.old.items ≡ [] }
    ensures does { OnOk result ((look : Looks) (p : ProcessNumber) (handed : Option Message)
        → SeesAll look (view_in store.now activations.now.activations time (unit_ticks design.now.scale))
        → run_first design.now look p next handed (todos_of design.now frames.old) ≡ effects_of design.now stepped.new.went frames.new out.new.items) }
    ensures at { OnOk result (stepped.new.at ≡ unwrap_or (place_of_step (todos_of design.now frames.old)) no_place) }
    ensures held { OnOk result (is_held stepped.new.went ≡ true → todos_of design.now frames.new ≡ todos_of design.now frames.old) }
{
    let seen = Seen {
        store,
        activations,
        scope: None,
        time,
        unit: design.scale().unit_ticks(),
    };
    step(frames, alloc, design, &seen, out, spare, next, stepped)
}

/// Effects of the running process, from the last of the list on, as long as it runs and meets no fault.
fn occur_all(
    machine: &mut Machine,
    design: &Design,
    process: ProcessId,
    at: Place,
    effects: &mut Vec<Effect>,
    lines: &mut Vec<Line>,
) -> Result<(), NoMemory>
    requires at { IsAt design.now machine.old }
    requires running { machine.old.running ≡ Some process }
    requires built { IsBuilt design.now }
    requires plain { AllByRecursion IsPlainEffect (effects_in design.now (reverse effects.old.items)) }
    ensures ok { OnOk result (Does design.now machine.old machine.new
        (all_occurred design.now at process (effects_in design.now (reverse effects.old.items))) lines.old.items lines.new.items) }
    ensures moment { SameMoment machine.old machine.new }
{
    while let Some(effect) = effects.pop() {
        occur(machine, design, process, at, effect, lines)?;
        if !goes_on(machine, process) {
            return Ok(());
        }
    }
    Ok(())
}

/// Whether a process still runs, and no fault was met.
fn goes_on(machine: &Machine, process: ProcessId) -> bool
    ensures { IsTrue result ↔ ((machine.now.running ≡ Some process) × (machine.now.fault ≡ None)) }
{
    machine.running == Some(process) && machine.fault.is_none()
}
