// The opening of a run (IEEE 1800-2017, 4.3, 6.8 and 9.2.2.2).
ghost use Rattle.std.specs.Prelude.{◌≡◌, ◌∷◌, ◌<◌, ◌^◌, [], None, false, IfOk, OnOk, length, map};
ghost use Rattle.std.specs.List.{Contains, list_any};
ghost use Rattle.sv_value.specs.Regions.{standing};
ghost use Rattle.sv_flat.specs.Config.{starts};
ghost use Rattle.sv_flat.specs.Opening.{opening, opening_world, initialized};
ghost use Rattle.sv_flat.specs.declared.object.Initial.TheVariants as initial;
ghost use Rattle.sv_flat.specs.Config.{unit_ticks};
ghost use Rattle.sv_flat.specs.Eval.{value_of};
ghost use Rattle.sv_flat.specs.Targets as targets;
ghost use Rattle.sv_built.specs.Built.{IsBuilt, IsBuiltInitial};
ghost use Rattle.sv_assign.specs.Seen.{view_in, world_in};
ghost use Rattle.sv_stack.specs.declared.frames.Frame.TheVariants.{Rest};
ghost use Rattle.sv_machine.specs.Machine.{StandsFor};
ghost use Rattle.sv_machine.specs.Opening as parts;

use crate::machine::Machine;
use crate::sides::front_region;
use crate::starts::is_starter;
use std::alloc::Global;
use sv_arena::Activations;
use sv_assign::{Seen, target_value};
use sv_built::Design;
use sv_eval::{Stopped, value};
use sv_flat::{Base, DataType, Expr, Initial, Lvalue, Object, Process, ProcessKind};
use sv_fork::Tree;
use sv_sched::{Regions, Wheel};
use sv_sense::Sense;
use sv_stack::{Frames, Spare};
use sv_store::Store;
use sv_value::{NoMemory, ObjId, Phase, Place, ProcessId, Side, Val};

/// The run before its first step: the initial values, and each process that is ready, in order of its number.
pub fn opened(alloc: Global, design: &Design) -> Result<Machine, NoMemory>
    requires built { IsBuilt design.now }
    ensures { IfOk result (λ m. StandsFor design.now m (opening design.now)) }
{
    let processes = design.processes();
    Ok(Machine {
        alloc,
        time: 0,
        phase: Phase::NotBegun,
        executed: Side::Active,
        finishing: false,
        running: None,
        store: first_store(alloc, design)?,
        activations: Activations::new(alloc, processes.len())?,
        tree: first_tree(alloc, processes)?,
        processes: at_beginnings(alloc, processes)?,
        sense: Sense::new(alloc, design)?,
        taken: never_taken(alloc, processes)?,
        starters: starter_count(processes),
        strobes: Vec::new(alloc),
        regions: first_regions(alloc, processes, has_starters(processes))?,
        wheel: Wheel::new(alloc)?,
        used_active: 0,
        used_reactive: 0,
        fault: None,
        spare: Spare::none(alloc),
    })
}

// ---- values

/// Each object with its first value, and then with those of the initializers, in order.
fn first_store(alloc: Global, design: &Design) -> Result<Store, NoMemory>
    requires { IsBuilt design.now }
    ensures { IfOk result (λ s. s ≡ (opening_world design.now).store) }
{
    let mut store = Store::new(alloc, design.objects())?;
    for (number, object) in design.objects().iter().enumerate() {
        initialize(alloc, design, number, object, &mut store)?;
    }
    Ok(store)
}

/// The initializer of the object with a number is in effect.
fn initialize(
    alloc: Global,
    design: &Design,
    number: usize,
    object: &Object,
    store: &mut Store,
) -> Result<(), NoMemory>
    requires built { IsBuilt design.now }
    requires initial { IsBuiltInitial object.now.initial }
    ensures { OnOk result (store.new ≡ parts.store_initialized design.now (record { 0 = number }) object.now store.old) }
{
    match &object.initial {
        None => Ok(()),
        Some(Initial::Value(expr)) => set_initial(
            alloc,
            design,
            ObjId(number as u64),
            object.ty,
            expr,
            store,
        ),
        Some(_) => unreachable!(),
    }
}

/// A variable has the value of an expression, as one of its type. One that meets a fault leaves it.
fn set_initial(
    alloc: Global,
    design: &Design,
    object: ObjId,
    ty: DataType,
    expr: &Expr,
    store: &mut Store,
) -> Result<(), NoMemory>
    requires built { IsBuilt design.now }
    ensures { OnOk result (store.new ≡ (initialized object (initial.Value expr.now) ty
        (value_of expr.now (view_in store.old [] 0 (unit_ticks design.now.scale) None)) (world_in store.old [])).store) }
{
    let none = Activations::new(alloc, 0)?;
    let seen = Seen {
        store: &*store,
        activations: &none,
        scope: None,
        time: 0,
        unit: design.scale().unit_ticks(),
    };
    match value(alloc, &seen, expr) {
        Ok(x) => {
            let x = as_type(object, ty, x)?;
            store.set_first(alloc, object, x)
        }
        Err(Stopped::Fault(_)) => Ok(()),
        Err(Stopped::Memory) => Err(NoMemory::Memory),
    }
}

/// A value as one of the type of an object.
fn as_type(object: ObjId, ty: DataType, value: Val) -> Result<Val, NoMemory>
    ensures { IfOk result (λ v. v ≡ targets.as_type ty value) }
{
    let whole = Lvalue {
        at: Place {
            file: 0,
            line: 0,
            col: 0,
        },
        through: None,
        base: Base::Object(object),
        part: None,
        ty,
    };
    target_value(&whole, value)
}

// ---- processes

/// Each process on its side, which no process forked.
fn first_tree(alloc: Global, processes: &[Process]) -> Result<Tree, NoMemory>
    requires { length processes.now < 2 ^ 18 }
    ensures { IfOk result (λ t. t ≡ map parts.first_member processes.now) }
{
    let mut tree = Tree::new(alloc);
    for process in processes {
        tree.add_root(process.side)?;
    }
    Ok(tree)
}

/// Each process at the beginning of its body.
fn at_beginnings(alloc: Global, processes: &[Process]) -> Result<Vec<Frames>, NoMemory>
    ensures { IfOk result (λ all. all.items
        ≡ map (λ f. Rest (record { routine = f.body; place = 0 }) None ∷ []) processes.now) }
{
    let mut all = Vec::new(alloc);
    for process in processes {
        all.push(Frames::new(alloc, process.body, None)?)?;
    }
    Ok(all)
}

/// No process ever ran.
fn never_taken(alloc: Global, processes: &[Process]) -> Result<Vec<bool>, NoMemory>
    ensures { IfOk result (λ all. all.items ≡ map (λ f. false) processes.now) }
{
    let mut all = Vec::new(alloc);
    for _process in processes {
        all.push(false)?;
    }
    Ok(all)
}

/// How many starters there are.
fn starter_count(processes: &[Process]) -> usize
    ensures { result ≡ parts.starter_count processes.now }
{
    let mut count = 0;
    for process in processes {
        if is_starter(process) {
            count += 1;
        }
    }
    count
}

/// Whether there are starters.
fn has_starters(processes: &[Process]) -> bool
    ensures { result ≡ list_any starts processes.now }
{
    for process in processes {
        if is_starter(process) {
            return true;
        }
    }
    false
}

// ---- regions

/// Whether a process is ready at the opening: an `always_comb` is where there are no starters.
fn is_first(process: &Process, has_starters: bool) -> bool
    ensures { result ≡ parts.is_first has_starters process.now }
{
    !(process.kind == ProcessKind::AlwaysComb && has_starters)
}

/// The processes that are ready, each on its side, in order of number.
fn first_regions(
    alloc: Global,
    processes: &[Process],
    has_starters: bool,
) -> Result<Regions, NoMemory>
    requires { length processes.now < 2 ^ 18 }
    ensures { IfOk result (λ r. r ≡ parts.first_regions has_starters processes.now) }
{
    let mut regions = Regions::new(alloc)?;
    for (number, process) in processes.iter().enumerate() {
        first_ready(
            process,
            ProcessId(number as u32),
            has_starters,
            &mut regions,
        )?;
    }
    Ok(regions)
}

/// A process becomes ready on its side, if it is ready at the opening.
fn first_ready(
    process: &Process,
    number: ProcessId,
    has_starters: bool,
    regions: &mut Regions,
) -> Result<(), NoMemory>
    requires absent { ¬ Contains (standing regions.old) number }
    requires few { length (standing regions.old) < 2 ^ 31 }
    ensures { OnOk result (regions.new ≡ parts.first_ready has_starters process.now number regions.old) }
{
    if is_first(process, has_starters) {
        return regions.ready(front_region(process.side), number);
    }
    Ok(())
}
