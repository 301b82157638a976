// The processes of items (IEEE 1800-2017, 9.2, 10.3 and 14.3).
ghost use Rattle.std.specs.Prelude.{◌≡◌, ◌∷◌, [], map, IfOk, OnOk};
ghost use Rattle.sv_tree.specs.UnitView as view;
ghost use Rattle.sv_names.specs.Sources as sources;
ghost use Rattle.sv_names.specs.Writers as writers;
ghost use Rattle.sv_names.specs.Views.{around_in};
ghost use Rattle.sv_elab_writers.specs.Views.{process_in, writer_in};
ghost use Rattle.sv_elab_touch.specs.Touched.{Touched};
ghost use Rattle.sv_elab_met.specs.Behind.{Run};
ghost use Rattle.sv_elab_met.specs.Met as words;

use crate::targets::{assigning, name_written};
use std::alloc::Global;
use sv_elab_act::add_stmt;
use sv_elab_signal::{signals_in, within};
use sv_elab_writers::{Process, Touch, Writer};
use sv_names::{Around, Checked, SignalInfo, copy_path};
use sv_tree::{AssignItem, ClockingBlock, Item, NetItem, Procedure, ProcedureWord};
use sv_value::{NoMemory, Seq, Text};

/// A list of one process.
pub(crate) fn one_process(alloc: Global, process: Process) -> Result<Seq<Process>, NoMemory>
    ensures { IfOk result (λ ps. ps ≡ process ∷ []) }
{
    let mut list = Seq::new(alloc);
    list.push(process)?;
    Ok(list)
}

// ---- procedures

/// How a procedure writes.
fn writer_of(word: ProcedureWord) -> Writer
    ensures { writer_in result ≡ writers.writer_of word }
{
    match word {
        ProcedureWord::AlwaysComb => Writer::Alone,
        ProcedureWord::AlwaysFf => Writer::Alone,
        ProcedureWord::Initial => Writer::Shared,
        ProcedureWord::Always => Writer::Shared,
    }
}

/// The process of a procedure.
fn procedure_process(alloc: Global, p: &Procedure, around: &Around) -> Result<Process, NoMemory>
    ensures { IfOk result (λ x. process_in x ≡ words.procedure_process (around_in around.now) (view.procedure p.now)) }
{
    let mut touches = Seq::new(alloc);
    add_stmt(alloc, &p.body, around, &mut touches)?;
    Ok(Process {
        at: p.at,
        writer: writer_of(p.word),
        touches,
    })
}

// ---- continuous assignments

/// Appends the process of an assignment.
#[tactic(auto, using(crate::proofs::BehindLaws::run_one))]
fn add_assign(
    alloc: Global,
    a: &AssignItem,
    around: &Around,
    list: &mut Seq<Process>,
) -> Result<(), NoMemory>
    ensures { OnOk result (Run list.old list.new (words.assigning (around_in around.now) (view.assign_item a.now) ∷ [])) }
{
    let process = assigning(alloc, a, around)?;
    list.push(process)
}

/// The processes of assignments.
#[tactic(auto, using(crate::proofs::BehindLaws::turn_run, crate::proofs::BehindLaws::all_run))]
fn assign_processes(
    alloc: Global,
    list: &[AssignItem],
    around: &Around,
) -> Result<Seq<Process>, NoMemory>
    ensures { IfOk result (λ ps. map process_in ps ≡ words.assign_processes (around_in around.now) list.now) }
{
    let mut done = Seq::new(alloc);
    let mut left = list;
    while let [a, rest @ ..] = left {
        add_assign(alloc, a, around, &mut done)?;
        left = rest;
    }
    Ok(done)
}

/// Appends the process of a net, where it has a value (10.3.1).
#[tactic(auto, using(crate::proofs::BehindLaws::run_none, crate::proofs::BehindLaws::run_one))]
fn add_net(
    alloc: Global,
    net: &NetItem,
    around: &Around,
    list: &mut Seq<Process>,
) -> Result<(), NoMemory>
    ensures { OnOk result (Run list.old list.new (sources.net_process (around_in around.now) (view.net_item net.now))) }
{
    match &net.value {
        None => Ok(()),
        Some(_) => {
            let touches = name_written(alloc, net.name.at, &net.name.text, around)?;
            list.push(Process {
                at: net.name.at,
                writer: Writer::Continuously,
                touches,
            })
        }
    }
}

/// The processes of nets.
#[tactic(auto, using(crate::proofs::BehindLaws::turn_run, crate::proofs::BehindLaws::all_run))]
fn net_processes(alloc: Global, nets: &[NetItem], around: &Around) -> Result<Seq<Process>, NoMemory>
    ensures { IfOk result (λ ps. map process_in ps ≡ words.net_processes (around_in around.now) nets.now) }
{
    let mut done = Seq::new(alloc);
    let mut left = nets;
    while let [net, rest @ ..] = left {
        add_net(alloc, net, around, &mut done)?;
        left = rest;
    }
    Ok(done)
}

// ---- clocking blocks

/// Appends a driven signal.
#[tactic(auto, using(sv_elab_touch::proofs::TouchedLaws::touched_none, sv_elab_touch::proofs::TouchedLaws::touched_one))]
fn add_output(alloc: Global, signal: &SignalInfo, touches: &mut Seq<Touch>) -> Result<(), NoMemory>
    ensures { OnOk result (Touched touches.old touches.new (sources.output_of signal.now)) }
{
    if !signal.is_output {
        return Ok(());
    }
    let object = copy_path(alloc, signal.object.as_slice())?;
    touches.push(Touch::Writes {
        at: signal.name.at,
        object,
    })
}

/// Appends a driven signal that breaks no rule.
#[tactic(auto, using(sv_elab_touch::proofs::TouchedLaws::touched_none))]
fn add_signal(
    alloc: Global,
    signal: &Checked<SignalInfo>,
    touches: &mut Seq<Touch>,
) -> Result<(), NoMemory>
    ensures { OnOk result (Touched touches.old touches.new (sources.signal_touches signal.now)) }
{
    match signal {
        Checked::Good(signal) => add_output(alloc, signal, touches),
        Checked::Broken(_) => Ok(()),
    }
}

/// Appends the driven signals.
#[tactic(auto, using(sv_elab_touch::proofs::TouchedLaws::turn_touched, sv_elab_touch::proofs::TouchedLaws::all_touched))]
fn add_signals(
    alloc: Global,
    signals: &[Checked<SignalInfo>],
    touches: &mut Seq<Touch>,
) -> Result<(), NoMemory>
    ensures { OnOk result (Touched touches.old touches.new (words.all_signals signals.now)) }
{
    let mut left = signals;
    while let [signal, rest @ ..] = left {
        add_signal(alloc, signal, touches)?;
        left = rest;
    }
    Ok(())
}

/// The outputs of a clocking block, in the instance with this path.
fn clocking_process(
    alloc: Global,
    around: &Around,
    path: &[Text],
    block: &ClockingBlock,
) -> Result<Process, NoMemory>
    ensures { IfOk result (λ p. process_in p ≡ words.clocking_process (around_in around.now) path.now (view.clocking block.now)) }
{
    let own = within(alloc, path, &block.name)?;
    let signals = signals_in(alloc, around, own.as_slice(), block.items.as_slice())?;
    let mut touches = Seq::new(alloc);
    add_signals(alloc, signals.as_slice(), &mut touches)?;
    Ok(Process {
        at: block.name.at,
        writer: Writer::NoProcess,
        touches,
    })
}

// ---- items

/// The processes of an item of the instance with this path.
pub(crate) fn item_processes(
    alloc: Global,
    around: &Around,
    path: &[Text],
    item: &Item,
) -> Result<Seq<Process>, NoMemory>
    ensures { IfOk result (λ ps. map process_in ps
        ≡ words.item_processes (around_in around.now) path.now (view.item item.now)) }
{
    match item {
        Item::Procedure(p) => {
            let process = procedure_process(alloc, p, around)?;
            one_process(alloc, process)
        }
        Item::Assign(list) => assign_processes(alloc, list.as_slice(), around),
        Item::Clocking(block) => {
            let process = clocking_process(alloc, around, path, block)?;
            one_process(alloc, process)
        }
        Item::Net(n) => net_processes(alloc, n.names.as_slice(), around),
        _ => Ok(Seq::new(alloc)),
    }
}
