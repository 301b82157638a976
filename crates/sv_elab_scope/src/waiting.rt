// What waits for other declarations (own).
ghost use Rattle.std.specs.Prelude.{◌≡◌, ◌||◌};
ghost use Rattle.sv_names.specs.Named as names;
ghost use Rattle.sv_names.specs.Rounds as rounds;

use sv_names::{Callee, Checked, Fault, Formal, Named, SignalInfo, Typed, same_place};
use sv_value::Place;

/// The place before all others, of declarations that are not settled.
pub fn nowhere_yet() -> Place
    ensures { result ≡ names.nowhere_yet }
{
    Place {
        file: 0,
        line: 0,
        col: 0,
    }
}

/// A declaration that waits.
pub fn waits<T>() -> Checked<T>
    ensures { result ≡ rounds.waits }
{
    Checked::Broken(Fault {
        at: nowhere_yet(),
        rule: 0,
    })
}

/// Whether a value waits for a declaration.
pub fn does_wait<T>(value: &Checked<T>) -> bool
    ensures { result ≡ rounds.does_wait value.now }
{
    match value {
        Checked::Good(_) => false,
        Checked::Broken(fault) => same_place(fault.at, nowhere_yet()) && fault.rule == 0,
    }
}

// ---- parts of what a name stands for

/// Whether a default waits.
fn default_waits(default: &Option<Checked<Typed>>) -> bool
    ensures { result ≡ rounds.default_waits default.now }
{
    match default {
        None => false,
        Some(value) => does_wait(value),
    }
}

/// Whether the type or the default of an argument waits.
fn formal_waits(formal: &Formal) -> bool
    ensures { result ≡ (rounds.does_wait formal.now.ty || rounds.default_waits formal.now.default) }
{
    does_wait(&formal.ty) || default_waits(&formal.default)
}

/// Whether one of the arguments waits.
fn formals_wait(formals: &[Formal]) -> bool
    ensures { result ≡ rounds.formals_wait formals.now }
{
    for formal in formals {
        if formal_waits(formal) {
            return true;
        }
    }
    false
}

/// Whether a part of the head of a subroutine waits.
fn callee_waits(callee: &Callee) -> bool
    ensures { result ≡ rounds.callee_waits callee.now }
{
    does_wait(&callee.result) || formals_wait(callee.formals.as_slice())
}

/// Whether one of the signals waits.
fn some_wait(signals: &[Checked<SignalInfo>]) -> bool
    ensures { result ≡ rounds.some_wait signals.now }
{
    for signal in signals {
        if does_wait(signal) {
            return true;
        }
    }
    false
}

/// Whether a part of what a name stands for waits.
fn name_waits(named: &Named) -> bool
    ensures { result ≡ rounds.name_waits named.now }
{
    match named {
        Named::Subroutine(callee) => callee_waits(callee.get()),
        Named::Itself(callee, _) => callee_waits(callee.get()),
        Named::ClockingBlock(_, signals) => some_wait(signals.as_slice()),
        _ => false,
    }
}

/// A value, or that it waits.
pub fn or_waits(value: Checked<Named>) -> Checked<Named>
    ensures { result ≡ rounds.or_waits value }
{
    match value {
        Checked::Good(named) => {
            if name_waits(&named) {
                return waits();
            }
            Checked::Good(named)
        }
        Checked::Broken(fault) => Checked::Broken(fault),
    }
}
