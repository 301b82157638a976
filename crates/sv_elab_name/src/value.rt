// A thing as a value (IEEE 1800-2017, 8, 13 and 14): E7, E47, E51.
ghost use Rattle.std.specs.Prelude.{◌≡◌, true, [], IfOk, IfErr, if◌then◌else◌};
ghost use Rattle.sv_value.specs.declared.place.Place.{Place as place_of};
ghost use Rattle.sv_names.specs.declared.checked.Checked.{Checked as checked};
ghost use Rattle.sv_names.specs.declared.checked.Checked.TheVariants.{Good};
ghost use Rattle.sv_names.specs.declared.refusal.Refusal.TheVariants.{Memory};
ghost use Rattle.sv_names.specs.declared.method.Called.{Called as called_of};
ghost use Rattle.sv_names.specs.declared.typed.Typed.{Typed as typed};
ghost use Rattle.sv_names.specs.Calls as calls;
ghost use Rattle.sv_names.specs.Checked.{◌▷◌, broken_at};
ghost use Rattle.sv_names.specs.Given.{Gives};
ghost use Rattle.sv_names.specs.Named.{Around as around_of};
ghost use Rattle.sv_names.specs.Things as things;
ghost use Rattle.sv_names.specs.Views.{around_in};

use crate::{Calls, lasts, object_typed};
use std::alloc::Global;
use sv_names::{
    Around, Begin, Called, Callee, Checked, Method, Refusal, SignalInfo, Ty, Typed, copy_path,
};
use sv_value::{Place, Seq, Text};

// ---- signals

/// A signal of a clocking block as a target, by its sample.
pub fn signal_target(
    alloc: Global,
    around: &Around,
    block: &[Text],
    place: u32,
    signal: &SignalInfo,
    at: Place,
) -> Result<Typed, Refusal>
    ensures ok { IfOk result (λ t. t ≡ things.signal_target (around_in around.now) block.now place signal.now at) }
    ensures err { IfErr result (λ e. e ≡ Memory) }
{
    let begins = Begin::Signal {
        block: copy_path(alloc, block)?,
        place,
        is_output: signal.is_output,
    };
    object_typed(
        alloc,
        around,
        at,
        signal.sample.as_slice(),
        &signal.ty,
        begins,
    )
}

/// E47: a signal that is read is its sample, which outputs do not have (14.13).
pub fn signal_read(
    alloc: Global,
    around: &Around,
    block: &[Text],
    place: u32,
    signal: &SignalInfo,
    at: Place,
) -> Result<Typed, Refusal>
    ensures { Gives result (things.signal_read (around_in around.now) block.now place signal.now at) }
{
    if !signal.is_input {
        return Err(Refusal::Rule { rule: 47, at });
    }
    let t = signal_target(alloc, around, block, place, signal, at)?;
    Ok(t)
}

// ---- result variables

/// Whether a result variable is one of the activation.
fn is_in_activation(variable: &Typed) -> bool
    ensures { (ar : around_of) (at : place_of) (v : typed) → things.result_value ar at v variable.now.target.begins
        ≡ (if result then (if ar.is_initial then broken_at 7 at else things.lasts ar at ▷ (λ _. Good v)) else Good v) }
{
    match variable.target.begins() {
        Some(Begin::InActivation) => true,
        _ => false,
    }
}

/// E7, E51: the result variable of a function, read inside it.
pub(crate) fn result_value(around: &Around, at: Place, variable: Typed) -> Result<Typed, Refusal>
    ensures { Gives result (things.result_value (around_in around.now) at variable variable.target.begins) }
{
    if !is_in_activation(&variable) {
        return Ok(variable);
    }
    if around.is_initial {
        return Err(Refusal::Rule { rule: 7, at });
    }
    match lasts(around, at) {
        Ok(()) => Ok(variable),
        Err(e) => Err(e),
    }
}

// ---- calls without brackets

/// What a call without brackets gives.
fn given_by<C: Calls>(
    alloc: Global,
    around: &Around,
    place: Place,
    c: Result<Called, Refusal>,
) -> Result<Typed, Refusal>
    ensures { (x : checked called_of) → Gives c x → Gives result (things.bare_call (around_in around.now) place x) }
{
    match c {
        Ok(c) => {
            let t = C::as_value(alloc, around, place, c)?;
            Ok(t)
        }
        Err(e) => Err(e),
    }
}

/// A call of a subroutine without brackets.
fn bare_call<C: Calls>(
    alloc: Global,
    around: &Around,
    place: Place,
    callee: &Callee,
    object: Option<Typed>,
    is_direct: bool,
) -> Result<Typed, Refusal>
    ensures { Gives result (things.bare_call (around_in around.now) place
        (calls.subroutine_called (around_in around.now) place true callee.now object is_direct [])) }
{
    let nothing = Seq::new(alloc);
    let c = C::subroutine_called(
        alloc, around, place, true, callee, object, is_direct, nothing,
    );
    given_by::<C>(alloc, around, place, c)
}

/// A call of a method of the language without brackets.
pub(crate) fn bare_method<C: Calls>(
    alloc: Global,
    around: &Around,
    place: Place,
    method: Method,
    object: Box<Typed>,
) -> Result<Typed, Refusal>
    ensures { Gives result (things.bare_call (around_in around.now) place
        (calls.method_called (around_in around.now) place true method object.value [])) }
{
    let object = Box::into_inner(object);
    let nothing = Seq::new(alloc);
    let c = C::method_called(alloc, around, place, true, method, object, nothing);
    given_by::<C>(alloc, around, place, c)
}

/// Whether it is a task or a void function.
fn gives_nothing(ty: &Checked<Ty>) -> bool
    ensures { result ≡ calls.gives_nothing ty.now }
{
    match ty {
        Checked::Good(Ty::Nothing) => true,
        _ => false,
    }
}

/// E7: a function that is no method needs brackets.
pub(crate) fn bare_subroutine<C: Calls>(
    alloc: Global,
    around: &Around,
    place: Place,
    callee: &Callee,
    object: Option<Typed>,
    is_direct: bool,
    at: Place,
) -> Result<Typed, Refusal>
    ensures { Gives result
        (things.bare_subroutine (around_in around.now) place callee.now object is_direct at callee.now.class) }
{
    match &callee.class {
        Some(_) => bare_call::<C>(alloc, around, place, callee, object, is_direct),
        None => {
            if callee.is_task || gives_nothing(&callee.result) {
                bare_call::<C>(alloc, around, place, callee, object, is_direct)
            } else {
                Err(Refusal::Rule { rule: 7, at })
            }
        }
    }
}
