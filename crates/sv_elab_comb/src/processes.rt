// The design with what its `always_comb` procedures watch (IEEE 1800-2017, 9.2.2.2.1).
ghost use Rattle.std.specs.Prelude.{◌≡◌, ◌∷◌, [], ◌++◌, map, IfOk};
ghost use Rattle.std.specs.Vec.Iter.{into_iter_items};
ghost use Rattle.sv_names.specs.Design as design;
ghost use Rattle.sv_elab_comb.specs.Combs as combs;

use crate::combs::comb_watches;
use std::alloc::Global;
use std::vec;
use sv_flat::{Parts, Process, ProcessKind, Watch};
use sv_value::{NoMemory, Seq};

/// What a process watches now, where it is an `always_comb`.
fn new_watches(
    alloc: Global,
    parts: &Parts,
    process: &Process,
    near: &mut usize,
) -> Result<Option<Seq<Watch>>, NoMemory>
    ensures { IfOk result (λ ws. ws ≡ combs.new_watches parts.now process.now) }
{
    match process.kind {
        ProcessKind::AlwaysComb => {
            let watches = comb_watches(alloc, parts, process, near)?;
            Ok(Some(watches))
        }
        _ => Ok(None),
    }
}

/// What each process watches now, where it is an `always_comb`.
fn all_watches(alloc: Global, parts: &Parts) -> Result<Seq<Option<Seq<Watch>>>, NoMemory>
    ensures { IfOk result (λ list. list ≡ map (combs.new_watches parts.now) parts.now.processes) }
{
    let mut list = Seq::new(alloc);
    let mut near = 0;
    for process in parts.processes.as_slice() {
        let watches = new_watches(alloc, parts, process, &mut near)?;
        list.push(watches)?;
    }
    Ok(list)
}

/// The first of what is told.
fn next_watches(told: &mut vec::IntoIter<Option<Seq<Watch>>>) -> Option<Seq<Watch>>
    ensures value { result ≡ combs.first_of (into_iter_items told.old) }
    ensures rest { into_iter_items told.new ≡ combs.behind_first (into_iter_items told.old) }
{
    match told.next() {
        Some(watches) => watches,
        None => None,
    }
}

/// A process that watches this, where it is told.
fn watching_these(process: Process, told: Option<Seq<Watch>>) -> Process
    ensures { result ≡ combs.watching_these process told }
{
    match told {
        None => process,
        Some(watches) => {
            let mut process = process;
            process.watched = watches;
            process
        }
    }
}

/// Processes, each of which watches what is told.
fn all_watching(
    alloc: Global,
    processes: Seq<Process>,
    told: Seq<Option<Seq<Watch>>>,
) -> Result<Seq<Process>, NoMemory>
    ensures { IfOk result (λ ps. ps ≡ combs.all_watching processes told) }
{
    let mut renewed = Seq::new(alloc);
    let mut left = processes.into_vec().into_iter();
    let mut told = told.into_vec().into_iter();
    while let Some(process) = left.next() {
        let watches = next_watches(&mut told);
        renewed.push(watching_these(process, watches))?;
    }
    Ok(renewed)
}

/// The design with what its `always_comb` procedures watch: what they and the routines that they run read, but for what they write
/// and what is declared in them (IEEE 1800-2017, 9.2.2.2.1).
#[tactic(auto, using(crate::proofs::WatchingLaws::all_watching_is))]
pub fn watching(alloc: Global, parts: Parts) -> Result<Parts, NoMemory>
    ensures { IfOk result (λ p. p ≡ design.watching parts) }
{
    let told = all_watches(alloc, &parts)?;
    let Parts {
        objects,
        processes,
        classes,
        routines,
        clockings,
        instances,
        scale,
    } = parts;
    let processes = all_watching(alloc, processes, told)?;
    Ok(Parts {
        objects,
        processes,
        classes,
        routines,
        clockings,
        instances,
        scale,
    })
}
