// What passes a limit (own): E44.
ghost use Rattle.std.specs.Prelude.{◌≡◌, ◌++◌, ◌∷◌, ◌^◌, ◌-◌, List, min, map, filter, flat_map};
ghost use Rattle.sv_names.specs.Checked.{◌▷◌};
ghost use Rattle.sv_names.specs.Sources as sources;
ghost use Rattle.sv_names.specs.Writers as writers;
ghost use Rattle.sv_elab_writers.specs.Counting.{counted_from, at_most_of};
ghost use Rattle.sv_elab_writers.specs.Views.{elements_in, touch_in, process_in, routine_in, met_in};

use crate::{Met, Process, Routine, Touch, Writer};
use sv_flat::Bounds;
use sv_names::{Checked, Element, Fault, Ty, and_guard};

/// How many objects and elements of fixed arrays a design may have.
const OBJECTS: u64 = 1 << 17;

const ELEMENTS: u64 = 1 << 22;

/// How many processes it may have.
const PROCESSES: u32 = 1 << 18;

/// What is declared so far.
#[derive(Clone, Copy)]
pub(crate) struct Counts {
    /// Objects.
    pub objects: u64,
    /// Elements of fixed arrays.
    pub elements: u64,
}

/// The elements of an array; more than every limit are not told from others.
fn elements(array: Option<Bounds>) -> u32
    ensures { result ≡ min (elements_in array) (2 ^ 32 - 1) }
{
    match array {
        None => 0,
        Some(bounds) => Ty::Fixed(bounds, Element::Text).size(),
    }
}

/// With what a touch declares, or the limit that it passes.
fn count_touch(so_far: Counts, touch: &Touch) -> Checked<Counts>
    ensures { (ts : List writers.Touch) → counted_from so_far (touch_in touch.now ∷ ts) ≡ (result ▷ (λ n. counted_from n ts)) }
{
    match touch {
        Touch::Declares { at, objects, array } => {
            let counts = Counts {
                objects: so_far.objects.saturating_add(*objects as u64),
                elements: so_far.elements.saturating_add(elements(*array) as u64),
            };
            if counts.objects > OBJECTS || counts.elements > ELEMENTS {
                Checked::Broken(Fault { at: *at, rule: 44 })
            } else {
                Checked::Good(counts)
            }
        }
        Touch::Writes { .. } => Checked::Good(so_far),
        Touch::Calls(_) => Checked::Good(so_far),
        Touch::CallsVirtual { .. } => Checked::Good(so_far),
    }
}

/// With what touches declare.
fn count_touches(so_far: Counts, touches: &[Touch]) -> Checked<Counts>
    ensures { (ts : List writers.Touch)
        → counted_from so_far (map touch_in touches.now ++ ts) ≡ (result ▷ (λ n. counted_from n ts)) }
{
    let mut counts = so_far;
    for touch in touches {
        match count_touch(counts, touch) {
            Checked::Good(more) => counts = more,
            Checked::Broken(f) => return Checked::Broken(f),
        }
    }
    Checked::Good(counts)
}

/// With what processes declare.
fn count_processes(so_far: Counts, processes: &[Process]) -> Checked<Counts>
    ensures { (ts : List writers.Touch)
        → counted_from so_far (flat_map (λ p. p.touches) (map process_in processes.now) ++ ts) ≡ (result ▷ (λ n. counted_from n ts)) }
{
    let mut counts = so_far;
    for process in processes {
        match count_touches(counts, process.touches.as_slice()) {
            Checked::Good(more) => counts = more,
            Checked::Broken(f) => return Checked::Broken(f),
        }
    }
    Checked::Good(counts)
}

/// With what subroutines declare.
fn count_routines(so_far: Counts, table: &[Routine]) -> Checked<Counts>
    ensures { (ts : List writers.Touch)
        → counted_from so_far (flat_map (λ e. e.1) (map routine_in table.now) ++ ts) ≡ (result ▷ (λ n. counted_from n ts)) }
{
    let mut counts = so_far;
    for routine in table {
        match count_touches(counts, routine.touches.as_slice()) {
            Checked::Good(more) => counts = more,
            Checked::Broken(f) => return Checked::Broken(f),
        }
    }
    Checked::Good(counts)
}

/// With what an item and what stands in it declares.
fn count_met(so_far: Counts, met: &Met) -> Checked<Counts>
    ensures { (ts : List writers.Touch)
        → counted_from so_far (sources.touches_in (met_in met.now) ++ ts) ≡ (result ▷ (λ n. counted_from n ts)) }
{
    match count_touches(so_far, met.declared.as_slice()) {
        Checked::Good(declared) => match count_processes(declared, met.processes.as_slice()) {
            Checked::Good(counts) => count_routines(counts, met.table.as_slice()),
            Checked::Broken(f) => Checked::Broken(f),
        },
        Checked::Broken(f) => Checked::Broken(f),
    }
}

/// All objects and elements, up to the one that passes a limit.
fn all_counted(mets: &[Met]) -> Checked<()>
    ensures { result ≡ sources.counted 0 0 (flat_map sources.touches_in (map met_in mets.now)) }
{
    let mut counts = Counts {
        objects: 0,
        elements: 0,
    };
    for met in mets {
        match count_met(counts, met) {
            Checked::Good(more) => counts = more,
            Checked::Broken(f) => return Checked::Broken(f),
        }
    }
    Checked::Good(())
}

/// How many processes may stand behind this one.
fn behind_process(left: u32, process: &Process) -> Checked<u32>
    ensures { (ps : List sources.Process) → at_most_of left (process_in process.now ∷ ps) ≡ (result ▷ (λ n. at_most_of n ps)) }
{
    match process.writer {
        Writer::NoProcess => Checked::Good(left),
        _ => {
            if left == 0 {
                Checked::Broken(Fault {
                    at: process.at,
                    rule: 44,
                })
            } else {
                Checked::Good(left - 1)
            }
        }
    }
}

/// How many processes may stand behind these.
fn behind_processes(so_many: u32, processes: &[Process]) -> Checked<u32>
    ensures { (ps : List sources.Process)
        → at_most_of so_many (map process_in processes.now ++ ps) ≡ (result ▷ (λ n. at_most_of n ps)) }
{
    let mut left = so_many;
    for process in processes {
        match behind_process(left, process) {
            Checked::Good(fewer) => left = fewer,
            Checked::Broken(f) => return Checked::Broken(f),
        }
    }
    Checked::Good(left)
}

/// No more processes than so many.
fn processes_stand(so_many: u32, mets: &[Met]) -> Checked<()>
    ensures { result ≡ at_most_of so_many (flat_map (λ m. m.processes) (map met_in mets.now)) }
{
    let mut left = so_many;
    for met in mets {
        match behind_processes(left, met.processes.as_slice()) {
            Checked::Good(fewer) => left = fewer,
            Checked::Broken(f) => return Checked::Broken(f),
        }
    }
    Checked::Good(())
}

/// The limits of a design.
pub fn limits_stand(mets: &[Met]) -> Checked<()>
    ensures { result ≡ sources.limits_stand (map met_in mets.now) }
{
    let counted = all_counted(mets);
    and_guard(counted, processes_stand(PROCESSES, mets))
}
