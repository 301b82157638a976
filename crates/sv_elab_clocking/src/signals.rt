// The signals of clocking blocks (IEEE 1800-2017, 14.3, 14.13 and 14.16): E6, E19, E46.
ghost use Rattle.std.specs.Prelude.{◌≡◌, ◌++◌, List, IfOk, OnOk, map, option_map};
ghost use Rattle.sv_flat.specs.declared.clocking.Signal.{Signal as signal_of};
ghost use Rattle.sv_tree.specs.Units as tree;
ghost use Rattle.sv_tree.specs.UnitView.{sided, clocking_item};
ghost use Rattle.sv_names.specs.declared.checked.Checked.{Checked as checked};
ghost use Rattle.sv_names.specs.declared.named.Named.{Named as named};
ghost use Rattle.sv_names.specs.Clockings as clockings;
ghost use Rattle.sv_names.specs.Joined.{joined};
ghost use Rattle.sv_names.specs.Types.{Path as path_of};
ghost use Rattle.sv_names.specs.Views.{around_in, meaning_in};
ghost use Rattle.sv_elab_clocking.specs.Making.{EmitsSignal, AddsSignals};
ghost use Rattle.sv_elab_clocking.specs.Signals as words;
ghost use Rattle.sv_elab_clocking.specs.Skews.{skews_in};

use crate::skews::{Skews, with_skews};
use std::alloc::Global;
use sv_elab_drives::Drives;
use sv_elab_signal::{object_meant, signal_of_named};
use sv_flat::{Input, Output, Signal, Skew};
use sv_names::{Around, Meaning, Named, Refusal, SignalInfo, copy_path, first};
use sv_tree::{ClockingItem, Name, Sided};
use sv_value::{NoMemory, Seq, Text};

/// When an input is sampled.
fn input_skew(ticks: Option<u64>) -> Skew
    ensures { result ≡ clockings.input_skew ticks }
{
    match ticks {
        None => Skew::OneStep,
        Some(0) => Skew::Zero,
        Some(ticks) => Skew::Ticks(ticks),
    }
}

/// When an output is driven.
fn output_skew(ticks: Option<u64>) -> u64
    ensures { result ≡ clockings.output_skew ticks }
{
    match ticks {
        None => 1,
        Some(ticks) => ticks,
    }
}

/// The net that a name stands for.
fn net_of<'a>(meaning: Meaning<'a>) -> Option<&'a [Text]>
    ensures { words.paths_of (option_map (λ p. p.now) result) ≡ clockings.net_of (meaning_in meaning.entry) }
{
    match meaning.named {
        Named::Net(path, _) => Some(path.as_slice()),
        _ => None,
    }
}

/// The net that a signal drives.
fn net_driven<'a>(info: &SignalInfo, meaning: Meaning<'a>) -> Option<&'a [Text]>
    ensures { words.paths_of (option_map (λ p. p.now) result) ≡ words.drives info.now (meaning_in meaning.entry) }
{
    if info.is_output {
        net_of(meaning)
    } else {
        None
    }
}

// ---- one signal

/// What makes a signal an input.
fn input_of(around: &Around, ticks: Option<u64>, info: &SignalInfo) -> Option<Input>
    ensures { result ≡ words.input_of (around_in around.now) ticks info.now }
{
    if !info.is_input {
        return None;
    }
    Some(Input {
        skew: input_skew(ticks),
        sample: around.numbers.object(info.sample.as_slice()),
    })
}

/// What makes a signal an output; a driver has this number.
fn output_of(ticks: Option<u64>, info: &SignalInfo, driver: u32) -> Option<Output>
    ensures { result ≡ words.output_of ticks info.now driver }
{
    if !info.is_output {
        return None;
    }
    Some(Output {
        skew: output_skew(ticks),
        driver,
    })
}

/// A signal of the flat design, with its skews; a driver has this number.
fn signal_over(around: &Around, skews: Skews, name: &Name, info: &SignalInfo, driver: u32) -> Signal
    ensures { (x : named) → result
        ≡ (clockings.signal_made (around_in around.now) (skews_in skews) name.now info.now x).signal driver }
{
    Signal {
        at: name.at,
        object: around.numbers.object(info.object.as_slice()),
        input: input_of(around, skews.input, info),
        output: output_of(skews.output, info, driver),
    }
}

/// The number of the driver of a net, which is driven from now on.
fn driven(alloc: Global, net: Option<&[Text]>, before: &mut Drives) -> Result<u32, NoMemory>
    ensures number { IfOk result (λ n. n ≡ clockings.driver_of before.old (words.paths_of (option_map (λ p. p.now) net.entry))) }
    ensures drives { OnOk result (before.new ≡ before.old ++ words.paths_of (option_map (λ p. p.now) net.entry)) }
{
    match net {
        None => Ok(0),
        Some(path) => {
            let number = before.times(path)?;
            let path = copy_path(alloc, path)?;
            before.push(alloc, path)?;
            Ok(number)
        }
    }
}

/// A signal by what its name stands for.
#[tactic(auto, using(crate::proofs::SignalLaws::signal_stands, crate::proofs::BesideLaws::fails_given))]
fn signal_meant(
    alloc: Global,
    around: &Around,
    block: &[Text],
    skews: Skews,
    sides: &[Sided],
    name: &Name,
    meaning: Meaning,
    before: &mut Drives,
) -> Result<Signal, Refusal>
    ensures { EmitsSignal before.old before.new result
        (words.signal_meant (around_in around.now) block.now (skews_in skews) (map sided sides.now) name.now (meaning_in meaning.entry)) }
{
    match signal_of_named(alloc, around.unit, block, sides, name, meaning) {
        Ok(info) => {
            let driver = driven(alloc, net_driven(&info, meaning), before)?;
            Ok(signal_over(around, skews, name, &info, driver))
        }
        Err(e) => Err(e),
    }
}

/// A signal by its name in the unit.
#[tactic(auto, using(crate::proofs::SignalLaws::meant_good, crate::proofs::SignalLaws::meant_broken))]
fn signal_named(
    alloc: Global,
    around: &Around,
    block: &[Text],
    skews: Skews,
    sides: &[Sided],
    name: &Name,
    before: &mut Drives,
) -> Result<Signal, Refusal>
    ensures { EmitsSignal before.old before.new result
        (clockings.signal_named (around_in around.now) block.now (skews_in skews) (map sided sides.now) name.now) }
{
    match object_meant(around, 46, name) {
        Ok(meaning) => signal_meant(alloc, around, block, skews, sides, name, meaning, before),
        Err(e) => Err(e),
    }
}

// ---- lists

/// Appends a signal by its name.
#[tactic(auto, using(crate::proofs::SignalLaws::one_added, crate::proofs::SignalLaws::one_broken))]
fn add_signal(
    alloc: Global,
    around: &Around,
    block: &[Text],
    skews: Skews,
    sides: &[Sided],
    name: &Name,
    before: &mut Drives,
    list: &mut Seq<Signal>,
) -> Result<(), Refusal>
    ensures { AddsSignals before.old before.new list.old list.new result (words.one_in_list
        (clockings.signal_named (around_in around.now) block.now (skews_in skews) (map sided sides.now) name.now)) }
{
    match signal_named(alloc, around, block, skews, sides, name, before) {
        Ok(signal) => {
            list.push(signal)?;
            Ok(())
        }
        Err(e) => Err(e),
    }
}

/// The first rule that is broken in one list and in another behind it.
#[tactic(auto, using(crate::proofs::SignalLaws::both_add, crate::proofs::SignalLaws::first_fails, crate::proofs::SignalLaws::both_break))]
fn both_lists(a: Result<(), Refusal>, b: Result<(), Refusal>) -> Result<(), Refusal>
    ensures { (o m n : List path_of) (xs ys zs : List signal_of) (x y : checked (List clockings.MadeSignal))
        → AddsSignals o m xs ys a x → AddsSignals m n ys zs b y → AddsSignals o n xs zs result (joined x y) }
{
    match a {
        Ok(()) => b,
        Err(e) => match b {
            Ok(()) => Err(e),
            Err(f) => Err(first(e, f)),
        },
    }
}

/// Appends the signals of some names.
#[tactic(auto, using(crate::proofs::SignalLaws::none_added, crate::proofs::SignalLaws::first_of_each))]
fn add_signals(
    alloc: Global,
    around: &Around,
    block: &[Text],
    skews: Skews,
    sides: &[Sided],
    names: &[Name],
    before: &mut Drives,
    list: &mut Seq<Signal>,
) -> Result<(), Refusal>
    ensures { AddsSignals before.old before.new list.old list.new result
        (words.signals_named (around_in around.now) block.now (skews_in skews) (map sided sides.now) names.now) }
{
    match names {
        [] => Ok(()),
        [one, rest @ ..] => {
            let made = add_signal(alloc, around, block, skews, sides, one, before, list);
            let behind = add_signals(alloc, around, block, skews, sides, rest, before, list);
            both_lists(made, behind)
        }
    }
}

/// Appends signals that are passed in these ways.
fn add_named(
    alloc: Global,
    around: &Around,
    block: &[Text],
    skews: Skews,
    sides: &[Sided],
    names: &[Name],
    before: &mut Drives,
    list: &mut Seq<Signal>,
) -> Result<(), Refusal>
    ensures { AddsSignals before.old before.new list.old list.new result (clockings.item_signals
        (around_in around.now) block.now (skews_in skews) (tree.Signals (map sided sides.now) names.now)) }
{
    match with_skews(alloc, skews, sides, around) {
        Ok(own) => add_signals(alloc, around, block, own, sides, names, before, list),
        Err(e) => match add_signals(alloc, around, block, skews, sides, names, before, list) {
            Ok(()) => Err(e),
            Err(f) => Err(first(e, f)),
        },
    }
}

/// Appends the signals of an item.
#[tactic(auto, using(crate::proofs::SignalLaws::none_added))]
fn add_item(
    alloc: Global,
    around: &Around,
    block: &[Text],
    skews: Skews,
    item: &ClockingItem,
    before: &mut Drives,
    list: &mut Seq<Signal>,
) -> Result<(), Refusal>
    ensures { AddsSignals before.old before.new list.old list.new result
        (clockings.item_signals (around_in around.now) block.now (skews_in skews) (clocking_item item.now)) }
{
    match item {
        ClockingItem::Default(_) => Ok(()),
        ClockingItem::Signals(sides, names) => {
            let (sides, names) = (sides.as_slice(), names.as_slice());
            add_named(alloc, around, block, skews, sides, names, before, list)
        }
    }
}

/// Appends all signals, in order.
#[tactic(auto, using(crate::proofs::SignalLaws::none_added))]
pub fn add_all(
    alloc: Global,
    around: &Around,
    block: &[Text],
    skews: Skews,
    items: &[ClockingItem],
    before: &mut Drives,
    list: &mut Seq<Signal>,
) -> Result<(), Refusal>
    ensures { AddsSignals before.old before.new list.old list.new result
        (clockings.signals_of (around_in around.now) block.now (skews_in skews) (map clocking_item items.now)) }
{
    match items {
        [] => Ok(()),
        [one, rest @ ..] => {
            let made = add_item(alloc, around, block, skews, one, before, list);
            let behind = add_all(alloc, around, block, skews, rest, before, list);
            both_lists(made, behind)
        }
    }
}
