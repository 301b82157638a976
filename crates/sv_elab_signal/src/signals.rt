// The signals of a clocking block (IEEE 1800-2017, 14.3): E6, E19, E46.
ghost use Rattle.std.specs.Prelude.{◌≡◌, ◌++◌, ◌∷◌, [], map, IfOk, OnOk};
ghost use Rattle.sv_tree.specs.UnitView.{sided, clocking_item};
ghost use Rattle.sv_names.specs.declared.checked.Checked.{Checked as checked};
ghost use Rattle.sv_names.specs.declared.named.Named.{Named as named};
ghost use Rattle.sv_names.specs.Checked.{◌where_also◌};
ghost use Rattle.sv_names.specs.Given.{Gives, GivesAs, Fails};
ghost use Rattle.sv_names.specs.Scopes as scopes;
ghost use Rattle.sv_names.specs.Views.{around_in, meaning_in};
ghost use Rattle.sv_elab_signal.specs.Signals as signals;

use crate::parts::{known, share_name, within};
use crate::sides::{some_input, some_output};
use std::alloc::Global;
use sv_names::{
    Around, Checked, Meaning, Named, Refusal, SignalInfo, Ty, copy_path, first, same_bytes,
    same_place,
};
use sv_tree::{ClockingItem, Name, Sided};
use sv_value::{NoMemory, Place, Seq, Text};

// ---- objects

/// Whether a path is that of an object of a unit.
fn is_directly_in(unit: &[Text], path: &[Text]) -> bool
    ensures { result ≡ scopes.is_directly_in unit.now path.now }
{
    match unit {
        [] => match path {
            [_] => true,
            _ => false,
        },
        [first, unit @ ..] => match path {
            [] => false,
            [second, path @ ..] => same_bytes(second.bytes(), first.bytes())
                && is_directly_in(unit, path),
        },
    }
}

/// A signal that stands.
fn signal_info(
    alloc: Global,
    block: &[Text],
    sides: &[Sided],
    name: &Name,
    object: &[Text],
    ty: &Ty,
) -> Result<SignalInfo, NoMemory>
    ensures { IfOk result (λ s. s
        ≡ scopes.signal_info name.now object.now ty.now (block.now ++ name.now.text ∷ []) (map sided sides.now)) }
{
    let sample = within(alloc, block, name)?;
    let object = copy_path(alloc, object)?;
    let name = share_name(name)?;
    let ty = ty.copy(alloc)?;
    Ok(SignalInfo {
        name,
        object,
        ty,
        sample,
        is_input: some_input(sides),
        is_output: some_output(sides),
    })
}

/// E46, E19: an integral object of the unit; no input port is driven.
fn signal_of_object(
    alloc: Global,
    unit: &[Text],
    block: &[Text],
    sides: &[Sided],
    name: &Name,
    is_input_port: bool,
    object: &[Text],
    ty: &Ty,
) -> Result<SignalInfo, Refusal>
    ensures { Gives result (scopes.signal_of_object unit.now block.now name.now (map sided sides.now) is_input_port object.now ty.now) }
{
    if !(ty.is_integral() && is_directly_in(unit, object)) {
        return Err(Refusal::Rule {
            rule: 46,
            at: name.at,
        });
    }
    if is_input_port && some_output(sides) {
        return Err(Refusal::Rule {
            rule: 19,
            at: name.at,
        });
    }
    let info = signal_info(alloc, block, sides, name, object, ty)?;
    Ok(info)
}

/// E19, E46: the object of a signal.
pub fn signal_of_named(
    alloc: Global,
    unit: &[Text],
    block: &[Text],
    sides: &[Sided],
    name: &Name,
    meaning: Meaning,
) -> Result<SignalInfo, Refusal>
    ensures { Gives result (scopes.signal_of_named unit.now block.now name.now (map sided sides.now) (meaning_in meaning.entry)) }
{
    match meaning.named {
        Named::Variable(object, ty) => {
            signal_of_object(
                alloc,
                unit,
                block,
                sides,
                name,
                false,
                object.as_slice(),
                ty,
            )
        }
        Named::Net(object, ty) => {
            signal_of_object(
                alloc,
                unit,
                block,
                sides,
                name,
                false,
                object.as_slice(),
                ty,
            )
        }
        Named::Input { path, ty, .. } => {
            signal_of_object(alloc, unit, block, sides, name, true, path.as_slice(), ty)
        }
        _ => Err(Refusal::Rule {
            rule: 46,
            at: name.at,
        }),
    }
}

// ---- names

/// E46: also where a name needs itself.
fn untold(name: &Name, rule: u8, at: Place) -> Refusal
    ensures { Fails result (signals.untold name.now (record { at = at; rule = rule })) }
{
    if rule == 7 && same_place(at, name.at) {
        Refusal::Rule {
            rule: 46,
            at: name.at,
        }
    } else {
        Refusal::Rule { rule, at }
    }
}

/// What a name stands for, where it is declared as what its place takes.
fn standing<'a>(
    meaning: Result<Meaning<'a>, Refusal>,
    stands: Result<(), Refusal>,
) -> Result<Meaning<'a>, Refusal>
    ensures { (m : checked named) (y : checked (Unit {0})) → GivesAs meaning_in meaning.entry m → Gives stands y
        → GivesAs meaning_in result (m where_also y) }
{
    match meaning {
        Ok(meaning) => match stands {
            Ok(()) => Ok(meaning),
            Err(f) => Err(f),
        },
        Err(e) => match stands {
            Ok(()) => Err(e),
            Err(f) => Err(first(e, f)),
        },
    }
}

/// A signal by what its name stands for.
fn signal_meant(
    alloc: Global,
    unit: &[Text],
    block: &[Text],
    sides: &[Sided],
    name: &Name,
    meaning: Result<Meaning, Refusal>,
) -> Result<SignalInfo, Refusal>
    ensures { (m : checked named) → GivesAs meaning_in meaning.entry m
        → Gives result (signals.signal_meant unit.now block.now (map sided sides.now) name.now m) }
{
    match meaning {
        Ok(meaning) => signal_of_named(alloc, unit, block, sides, name, meaning),
        Err(Refusal::Rule { rule, at }) => Err(untold(name, rule, at)),
        Err(Refusal::Memory) => Err(Refusal::Memory),
    }
}

/// What the name of an object stands for; the rule at the name, where it is declared as anything else.
pub fn object_meant<'a>(around: &Around<'a>, rule: u8, name: &Name) -> Result<Meaning<'a>, Refusal>
    ensures { GivesAs meaning_in result (signals.object_meant (around_in around.now) rule name.now) }
{
    let meaning = around.meaning(name);
    let stands = around.object_stands(rule, name.at, name.text.bytes());
    standing(meaning, stands)
}

/// A signal by its name: E46 where it is no integral object of the unit.
fn signal_called(
    alloc: Global,
    around: &Around,
    block: &[Text],
    sides: &[Sided],
    name: &Name,
) -> Result<SignalInfo, Refusal>
    ensures { Gives result (signals.signal_called (around_in around.now) block.now (map sided sides.now) name.now) }
{
    let meaning = object_meant(around, 46, name);
    signal_meant(alloc, around.unit, block, sides, name, meaning)
}

// ---- lists

/// Appends a signal by its name.
fn add_signal(
    alloc: Global,
    around: &Around,
    block: &[Text],
    sides: &[Sided],
    name: &Name,
    list: &mut Seq<Checked<SignalInfo>>,
) -> Result<(), NoMemory>
    ensures { OnOk result (list.new
        ≡ list.old ++ signals.signal_called (around_in around.now) block.now (map sided sides.now) name.now ∷ []) }
{
    let signal = known(signal_called(alloc, around, block, sides, name))?;
    list.push(signal)
}

/// Appends the signals of some names.
#[tactic(auto, using(crate::proofs::SignalLaws::turn_signal))]
fn add_signals(
    alloc: Global,
    around: &Around,
    block: &[Text],
    sides: &[Sided],
    names: &[Name],
    list: &mut Seq<Checked<SignalInfo>>,
) -> Result<(), NoMemory>
    ensures { OnOk result (list.new
        ≡ list.old ++ signals.signals_called (around_in around.now) block.now (map sided sides.now) names.now) }
{
    let mut left = names;
    while let [one, rest @ ..] = left {
        add_signal(alloc, around, block, sides, one, list)?;
        left = rest;
    }
    Ok(())
}

/// Appends the signals of an item.
#[tactic(auto, using(crate::proofs::SignalLaws::called_is))]
fn add_item(
    alloc: Global,
    around: &Around,
    block: &[Text],
    item: &ClockingItem,
    list: &mut Seq<Checked<SignalInfo>>,
) -> Result<(), NoMemory>
    ensures { OnOk result (list.new ≡ list.old ++ scopes.item_signals (around_in around.now) block.now (clocking_item item.now)) }
{
    match item {
        ClockingItem::Default(_) => Ok(()),
        ClockingItem::Signals(sides, names) => {
            add_signals(
                alloc,
                around,
                block,
                sides.as_slice(),
                names.as_slice(),
                list,
            )
        }
    }
}

/// The signals of a clocking block with this path.
#[tactic(auto, using(crate::proofs::SignalLaws::turn_item))]
pub fn signals_in(
    alloc: Global,
    around: &Around,
    block: &[Text],
    items: &[ClockingItem],
) -> Result<Seq<Checked<SignalInfo>>, NoMemory>
    ensures { IfOk result (λ ss. ss ≡ scopes.signals_in (around_in around.now) block.now (map clocking_item items.now)) }
{
    let mut list = Seq::new(alloc);
    let mut left = items;
    while let [one, rest @ ..] = left {
        add_item(alloc, around, block, one, &mut list)?;
        left = rest;
    }
    Ok(list)
}
