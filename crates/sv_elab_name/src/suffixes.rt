// What follows a dot (IEEE 1800-2017, 8 and 14): E7, E36.
ghost use Rattle.sv_names.specs.declared.checked.Checked.{Checked as checked};
ghost use Rattle.sv_names.specs.declared.checked.Checked.TheVariants.{Good};
ghost use Rattle.sv_names.specs.declared.typed.Typed.{Typed as typed};
ghost use Rattle.sv_names.specs.Checked.{◌▷◌, given, unless};
ghost use Rattle.sv_names.specs.Given.{Gives, GivesAs};
ghost use Rattle.sv_names.specs.Methods as methods;
ghost use Rattle.sv_names.specs.Things as things;
ghost use Rattle.sv_names.specs.Views.{around_in};
ghost use Rattle.sv_elab_name.specs.Things.{thing_in};

use crate::{Thing, member_named, method_of};
use std::alloc::Global;
use sv_names::{Around, Checked, Fault, Refusal, SignalInfo, Ty, Typed, copy_path, same_bytes};
use sv_tree::Name;
use sv_value::Text;

// ---- members of values

/// E36: a method of the language.
fn method_member<'a>(alloc: Global, name: &Name, object: Typed) -> Result<Thing<'a>, Refusal>
    ensures { GivesAs thing_in result
        (given (λ m. things.A_method m object name.now.at) (unless 36 name.now.at (methods.method_of object.ty name.now.text))) }
{
    match method_of(alloc, &object.ty, name.text.bytes())? {
        None => Err(Refusal::Rule {
            rule: 36,
            at: name.at,
        }),
        Some(method) => {
            let object = Box::new(alloc, object)?;
            Ok(Thing::Method {
                method,
                object,
                at: name.at,
            })
        }
    }
}

/// A member of an object of a class, or a method of the language. E36: there is none.
pub fn value_member<'a>(
    alloc: Global,
    around: &Around<'a>,
    name: &Name,
    object: Typed,
) -> Result<Thing<'a>, Refusal>
    ensures { GivesAs thing_in result (things.value_member (around_in around.now) name.now object object.ty) }
{
    match &object.ty {
        Ty::Class(class) => {
            let class = copy_path(alloc, class.as_slice())?;
            member_named(alloc, around, class.as_slice(), Some(object), false, name)
        }
        _ => method_member(alloc, name, object),
    }
}

/// The same, where the value breaks no rule before.
pub(crate) fn member_of_value<'a>(
    alloc: Global,
    around: &Around<'a>,
    name: &Name,
    value: Result<Typed, Refusal>,
) -> Result<Thing<'a>, Refusal>
    ensures { (x : checked typed) → Gives value x
        → GivesAs thing_in result (x ▷ (λ o. things.value_member (around_in around.now) name.now o o.ty)) }
{
    match value {
        Ok(object) => value_member(alloc, around, name, object),
        Err(e) => Err(e),
    }
}

// ---- signals

/// A signal of a clocking block.
fn the_signal<'a>(
    block: &'a [Text],
    place: usize,
    signal: &'a SignalInfo,
    name: &Name,
) -> Result<Thing<'a>, Refusal>
    ensures { GivesAs thing_in result (Good (things.The_signal block.now place signal.now name.now.at)) }
{
    match u32::try_from(place) {
        Ok(place) => Ok(Thing::Signal {
            block,
            place,
            signal,
            at: name.at,
        }),
        Err(_) => Err(Refusal::Memory),
    }
}

/// E36: a signal of a clocking block, by its name. Where there is none, but one of the signals breaks a rule, the first of these rules.
pub fn signal_named<'a>(
    path: &'a [Text],
    name: &Name,
    signals: &'a [Checked<SignalInfo>],
) -> Result<Thing<'a>, Refusal>
    ensures { GivesAs thing_in result (things.signal_named path.now name.now 0 signals.now) }
{
    let mut broken: Option<Fault> = None;
    for (i, signal) in signals.iter().enumerate() {
        match signal {
            Checked::Broken(fault) => broken = broken.or(Some(*fault)),
            Checked::Good(signal) => {
                if same_bytes(signal.name.text.bytes(), name.text.bytes()) {
                    return the_signal(path, i, signal, name);
                }
            }
        }
    }
    match broken {
        Some(fault) => Err(fault.refusal()),
        None => Err(Refusal::Rule {
            rule: 36,
            at: name.at,
        }),
    }
}
