// Nonblocking assignments and drives (IEEE 1800-2017, 10.4.2 and 14.16): E16, E17, E42.
ghost use Rattle.std.specs.Prelude.{◌≡◌, Some, None, false, IfOk, IfErr};
ghost use Rattle.sv_tree.specs.Expr as tree;
ghost use Rattle.sv_flat.specs.declared.stmt.Form.TheVariants as form;
ghost use Rattle.sv_names.specs.declared.refusal.Refusal.TheVariants.{Memory};
ghost use Rattle.sv_names.specs.Assignments as assignments;
ghost use Rattle.sv_names.specs.Checked.{given};
ghost use Rattle.sv_names.specs.Given.{Gives};
ghost use Rattle.sv_names.specs.Hoisted as hoisted;
ghost use Rattle.sv_names.specs.Targets as targets;
ghost use Rattle.sv_names.specs.Views.{around_in};
ghost use Rattle.sv_elab_assign.specs.Amounts.{amount_in, amount_if};
ghost use Rattle.sv_elab_assign.specs.Forms as forms;
ghost use Rattle.sv_elab_assign.specs.Places as places;
ghost use Rattle.sv_elab_assign.specs.Wholes as wholes;

use crate::amount::Amount;
use crate::beside::both_parts;
use crate::written::no_whole_container;
use std::alloc::Global;
use sv_elab_call::sv_elab_select::{Spot, lvalues, type_of_target};
use sv_elab_value::{assigned, exactly, paired};
use sv_flat::{Expr, Form, Lvalue};
use sv_names::{
    Around, AsTarget, Begin, Checked, Hoisted, Refusal, Ty, Typed, answer, both, where_also,
};
use sv_value::{ClockId, Place, Seq};

// ---- drives

/// A signal of a clocking block that is driven.
#[derive(Clone, Copy)]
pub(crate) struct Driven {
    /// The block.
    clock: ClockId,
    /// The place of the signal in it.
    signal: u32,
}

/// The signal that a target begins with.
fn signal_of(around: &Around, target: &AsTarget) -> Option<Driven>
    ensures { result ≡ forms.signal_of (around_in around.now) target.now.begins }
{
    match target.begins() {
        Some(Begin::Signal { block, place, .. }) => Some(Driven {
            clock: around.numbers.clocking(block.as_slice()),
            signal: *place,
        }),
        _ => None,
    }
}

/// The signal that a target of one part begins with.
fn signal_of_target(around: &Around, spots: &[Spot]) -> Option<Driven>
    ensures { result ≡ forms.signal_of (around_in around.now) (assignments.begin_of spots.now) }
{
    match spots {
        [spot] => signal_of(around, &spot.1.target),
        _ => None,
    }
}

/// A value that is driven.
fn drive_form(signal: Driven, value: Hoisted<Expr>) -> Hoisted<Form>
    ensures { result ≡ hoisted.mapped (form.Drive signal.clock signal.signal) value }
{
    Hoisted {
        hidden: value.hidden,
        calls: value.calls,
        value: Form::Drive {
            clock: signal.clock,
            signal: signal.signal,
            value: value.value,
        },
    }
}

/// E16, E17: a value that is driven has the type of the signal.
fn drive_given(
    alloc: Global,
    around: &Around,
    signal: Driven,
    at: Place,
    to: &Ty,
    value: Typed,
) -> Result<Hoisted<Form>, Refusal>
    ensures { Gives result (forms.drive_given (around_in around.now) signal at to.now value) }
{
    match exactly(alloc, around, to, at, value) {
        Ok(code) => Ok(drive_form(signal, code)),
        Err(e) => Err(e),
    }
}

// ---- nonblocking assignments

/// What is written in a later region of the slot.
fn update_now(targets: Hoisted<Seq<Lvalue>>, value: Hoisted<Expr>) -> Result<Hoisted<Form>, Refusal>
    ensures ok { IfOk result (λ f. f ≡ hoisted.paired (λ x v. form.Nonblocking x v None false) targets value) }
    ensures err { IfErr result (λ e. e ≡ Memory) }
{
    let both = paired(targets, value)?;
    let (targets, value) = both.value;
    Ok(Hoisted {
        hidden: both.hidden,
        calls: both.calls,
        value: Form::Nonblocking {
            targets,
            value,
            delay: None,
            in_ticks: false,
        },
    })
}

/// What is written after a delay.
fn update_after(
    amount: Amount,
    targets: Hoisted<Seq<Lvalue>>,
    value: Hoisted<Expr>,
) -> Result<Hoisted<Form>, Refusal>
    ensures ok { IfOk result (λ f. f ≡ assignments.nonblocking_form (Some (amount_in amount)) targets value) }
    ensures err { IfErr result (λ e. e ≡ Memory) }
{
    let in_ticks = amount.in_ticks;
    let all = paired(paired(targets, amount.amount)?, value)?;
    let ((targets, delay), value) = all.value;
    Ok(Hoisted {
        hidden: all.hidden,
        calls: all.calls,
        value: Form::Nonblocking {
            targets,
            value,
            delay: Some(delay),
            in_ticks,
        },
    })
}

/// What is written later.
fn nonblocking_form(
    amount: Option<Amount>,
    targets: Hoisted<Seq<Lvalue>>,
    value: Hoisted<Expr>,
) -> Result<Hoisted<Form>, Refusal>
    ensures ok { IfOk result (λ f. f ≡ assignments.nonblocking_form (amount_if amount) targets value) }
    ensures err { IfErr result (λ e. e ≡ Memory) }
{
    match amount {
        None => update_now(targets, value),
        Some(amount) => update_after(amount, targets, value),
    }
}

/// What is written later to the parts of a target.
fn update_parts(
    alloc: Global,
    around: &Around,
    amount: Option<Amount>,
    spots: Seq<Spot>,
    value: Hoisted<Expr>,
) -> Result<Hoisted<Form>, Refusal>
    ensures ok { IfOk result (λ f. f
        ≡ assignments.nonblocking_form (amount_if amount) (targets.lvalues (around_in around.now) spots) value) }
    ensures err { IfErr result (λ e. e ≡ Memory) }
{
    let targets = lvalues(alloc, around, spots)?;
    nonblocking_form(amount, targets, value)
}

/// E16, E17: a value for a nonblocking target, whose type is `to`.
fn update_given(
    alloc: Global,
    around: &Around,
    amount: Option<Amount>,
    at: Place,
    to: &Ty,
    spots: Seq<Spot>,
    value: Typed,
) -> Result<Hoisted<Form>, Refusal>
    ensures { Gives result (forms.update_given (around_in around.now) (amount_if amount) at to.now spots value) }
{
    match assigned(alloc, around, to, at, value) {
        Ok(code) => {
            let form = update_parts(alloc, around, amount, spots, code)?;
            Ok(form)
        }
        Err(e) => Err(e),
    }
}

/// E16, E17: a value for a nonblocking target, or a drive where the target begins with a signal.
fn later_by(
    alloc: Global,
    around: &Around,
    amount: Option<Amount>,
    at: Place,
    spots: Seq<Spot>,
    value: Typed,
    signal: Option<Driven>,
) -> Result<Hoisted<Form>, Refusal>
    ensures { Gives result (forms.later_by (around_in around.now) (amount_if amount) at spots value signal) }
{
    let to = type_of_target(alloc, spots.as_slice())?;
    match signal {
        None => update_given(alloc, around, amount, at, &to, spots, value),
        Some(signal) => drive_given(alloc, around, signal, at, &to, value),
    }
}

/// E16, E17: a value for a nonblocking target, or a drive.
fn later_given(
    alloc: Global,
    around: &Around,
    amount: Option<Amount>,
    at: Place,
    spots: Seq<Spot>,
    value: Typed,
) -> Result<Hoisted<Form>, Refusal>
    ensures { Gives result (assignments.later_given (around_in around.now) (amount_if amount) at spots value
        (assignments.begin_of spots)) }
{
    let signal = signal_of_target(around, spots.as_slice());
    later_by(alloc, around, amount, at, spots, value, signal)
}

// ---- the whole

/// A value for a target and a delay, each of which may break a rule.
fn later_parts(
    alloc: Global,
    around: &Around,
    at: Place,
    parts: Checked<(Seq<Spot>, Option<Amount>)>,
    value: Checked<Typed>,
) -> Result<Hoisted<Form>, Refusal>
    ensures { Gives result (wholes.later_parts (around_in around.now) at parts value) }
{
    match both(answer(parts), answer(value)) {
        Ok(((spots, amount), value)) => later_given(alloc, around, amount, at, spots, value),
        Err(e) => Err(e),
    }
}

/// E42: no whole container is written later.
fn no_container(target: &Checked<Seq<Spot>>) -> Result<(), Refusal>
    ensures { Gives result (assignments.no_container target.now) }
{
    match target {
        Checked::Good(spots) => no_whole_container(spots.as_slice()),
        Checked::Broken(_) => Ok(()),
    }
}

/// A nonblocking assignment or a drive (10.4.2 and 14.16), of a value at `at` that is elaborated behind the target and the delay
/// (`later_around`). E16 and E17: it does not fit by type; E42: a whole container is written.
pub fn assign_later(
    alloc: Global,
    around: &Around,
    target: Checked<Seq<Spot>>,
    amount: Checked<Option<Amount>>,
    at: Place,
    value: Checked<Typed>,
) -> Result<Hoisted<Form>, Refusal>
    ensures { (e : tree.Expr) → at ≡ tree.place_of e
        → value ≡ places.later_there (around_in around.now) target (given amount_if amount) e
        → Gives result (assignments.later_behind (around_in around.now) target (given amount_if amount) e) }
{
    let stands = no_container(&target);
    let parts = both_parts(target, amount);
    where_also(later_parts(alloc, around, at, parts, value), stands)
}
