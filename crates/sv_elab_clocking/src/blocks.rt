// Clocking blocks (IEEE 1800-2017, 14.3).
ghost use Rattle.std.specs.Prelude.{◌≡◌, ◌++◌, List, IfOk, OnOk, map};
ghost use Rattle.sv_tree.specs.UnitView.{clocking, clocking_item};
ghost use Rattle.sv_names.specs.declared.checked.Checked.{Checked as checked};
ghost use Rattle.sv_names.specs.Checked.{both};
ghost use Rattle.sv_names.specs.Clockings as clockings;
ghost use Rattle.sv_names.specs.Events as events;
ghost use Rattle.sv_names.specs.Given.{Gives, Fails};
ghost use Rattle.sv_names.specs.Scopes as scopes;
ghost use Rattle.sv_names.specs.Types.{Path as path_of};
ghost use Rattle.sv_names.specs.Views.{around_in};
ghost use Rattle.sv_elab_clocking.specs.Blocks as words;
ghost use Rattle.sv_elab_clocking.specs.Making.{AddsSignals, EmitsClocking};

use crate::rules::{end_label, signals_differ};
use crate::samples::add_samples;
use crate::signals::add_all;
use crate::skews::{defaults, usual_skews};
use std::alloc::Global;
use sv_elab_drives::Drives;
use sv_elab_signal::{event_of, signals_in};
use sv_flat::{Clocking, Edge, Object, Signal};
use sv_names::{Around, Path, Refusal, first, where_also};
use sv_tree::{ClockingBlock, ClockingItem, EdgeWord};
use sv_value::{NoMemory, Seq, Side, Text};

/// The edge that is written.
fn edge_of(word: EdgeWord) -> Edge
    ensures { result ≡ events.edge_of word }
{
    match word {
        EdgeWord::Posedge => Edge::Posedge,
        EdgeWord::Negedge => Edge::Negedge,
        EdgeWord::Unwritten => Edge::Change,
    }
}

/// The side of a block.
fn side_of(is_program: bool) -> Side
    ensures { result ≡ clockings.side_of is_program }
{
    if is_program {
        Side::Reactive
    } else {
        Side::Active
    }
}

/// Appends the signals of a block, with the skews that it makes usual.
#[tactic(auto, using(crate::proofs::BlockLaws::usual_good, crate::proofs::BlockLaws::usual_broken, crate::proofs::BlockLaws::usual_breaks))]
fn add_signals(
    alloc: Global,
    around: &Around,
    block: &[Text],
    items: &[ClockingItem],
    before: &mut Drives,
    list: &mut Seq<Signal>,
) -> Result<(), Refusal>
    ensures { AddsSignals before.old before.new list.old list.new result
        (words.signals_usual (around_in around.now) block.now (map clocking_item items.now)) }
{
    match defaults(alloc, usual_skews(), items, around) {
        Ok(skews) => add_all(alloc, around, block, skews, items, before, list),
        Err(e) => match add_all(alloc, around, block, usual_skews(), items, before, list) {
            Ok(()) => Err(e),
            Err(f) => Err(first(e, f)),
        },
    }
}

/// What a block breaks beside its event and its signals: E5, E46.
fn names_stand(alloc: Global, block: &ClockingBlock) -> Result<(), Refusal>
    ensures { Gives result (words.names_stand (clocking block.now)) }
{
    let differ = signals_differ(alloc, block.items.as_slice());
    where_also(differ, end_label(&block.name, &block.label))
}

// ---- the whole block

/// A block over its event and its signals, with the objects that hold samples.
fn block_over(
    alloc: Global,
    around: &Around,
    path: &[Text],
    block: &ClockingBlock,
    event: &[Text],
    signals: Seq<Signal>,
    objects: &mut Seq<Object>,
) -> Result<Clocking, NoMemory>
    ensures value { IfOk result (λ x. x ≡ words.block_over (around_in around.now) (clocking block.now) event.now signals) }
    ensures samples { OnOk result (objects.new ≡ objects.old
        ++ clockings.sample_objects (around_in around.now) (scopes.signals_in (around_in around.now) path.now (map clocking_item block.now.items.items))) }
{
    let infos = signals_in(alloc, around, path, block.items.as_slice())?;
    add_samples(alloc, around, infos.as_slice(), objects)?;
    Ok(Clocking {
        at: block.name.at,
        side: side_of(around.is_program),
        event: around.numbers.object(event),
        event_at: block.event.at,
        edge: edge_of(block.edge),
        signals,
    })
}

/// The first of what an event breaks and of this.
#[tactic(auto, using(crate::proofs::BesideLaws::both_good, crate::proofs::BesideLaws::both_fail))]
fn first_before(event: Result<Path, Refusal>, e: Refusal) -> Refusal
    ensures { (p : checked path_of) (x : checked (List clockings.MadeSignal)) → Gives event p → Fails e x → Fails result (both p x) }
{
    match event {
        Ok(_) => e,
        Err(f) => first(f, e),
    }
}

/// The first rule that is broken, where a signal breaks one.
#[tactic(auto, using(crate::proofs::BesideLaws::also_stands, crate::proofs::BesideLaws::also_fails))]
fn refused(event: Result<Path, Refusal>, signals: Refusal, names: Result<(), Refusal>) -> Refusal
    ensures { (p : checked path_of) (x : checked (List clockings.MadeSignal)) (y : checked (Unit {0}))
        → Gives event p → Fails signals x → Gives names y → Fails result (words.whole p x y) }
{
    let found = first_before(event, signals);
    match names {
        Ok(()) => found,
        Err(f) => first(found, f),
    }
}

/// A clocking block with this path. E5: its end label is another name; E6, E45: its event is no object of one bit; E6, E19, E46: a signal is no
/// integral object of the unit, stands twice, or is an input port that is driven; E11, E12, E15, E42, E52, E57: a skew is no constant number of ticks up to 2^20.
pub fn clocking_of(
    alloc: Global,
    around: &Around,
    path: &[Text],
    block: &ClockingBlock,
    before: &mut Drives,
    objects: &mut Seq<Object>,
) -> Result<Clocking, Refusal>
    ensures { EmitsClocking before.old before.new objects.old objects.new result
        (clockings.clocking_of (around_in around.now) path.now (clocking block.now)) }
{
    let event = event_of(alloc, around, &block.event);
    let names = names_stand(alloc, block);
    let mut signals = Seq::new(alloc);
    let items = block.items.as_slice();
    match add_signals(alloc, around, path, items, before, &mut signals) {
        Ok(()) => match where_also(event, names) {
            Ok(event) => {
                let event = event.as_slice();
                let made = block_over(alloc, around, path, block, event, signals, objects)?;
                Ok(made)
            }
            Err(e) => Err(e),
        },
        Err(e) => Err(refused(event, e, names)),
    }
}
