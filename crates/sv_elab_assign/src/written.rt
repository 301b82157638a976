// Values that are given to targets, at once or after a delay (IEEE 1800-2017, 7.6, 7.9.9, 9.4.5 and 10.4.1): E16, E17, E42.
ghost use Rattle.std.specs.Prelude.{◌≡◌, Some, IfOk, IfErr};
ghost use Rattle.sv_flat.specs.declared.stmt.Form.TheVariants as form;
ghost use Rattle.sv_names.specs.declared.checked.Checked.TheVariants.{Good, Broken};
ghost use Rattle.sv_names.specs.declared.refusal.Refusal.TheVariants.{Memory};
ghost use Rattle.sv_names.specs.Assignments as assignments;
ghost use Rattle.sv_names.specs.Assignments.{Amount as amount_of};
ghost use Rattle.sv_names.specs.Given.{Gives};
ghost use Rattle.sv_names.specs.Hoisted as hoisted;
ghost use Rattle.sv_names.specs.Targets as targets;
ghost use Rattle.sv_names.specs.Views.{around_in};
ghost use Rattle.sv_elab_assign.specs.Amounts.{amount_in, amount_if};
ghost use Rattle.sv_elab_assign.specs.Forms as forms;

use crate::amount::Amount;
use std::alloc::Global;
use sv_elab_call::sv_elab_select::{Spot, container_of, lvalues, read_of, type_of_target};
use sv_elab_value::{assigned, code_of, paired, rule};
use sv_flat::{Expr, Form, Lvalue};
use sv_names::{Around, Fault, Hoisted, Refusal, Typed};
use sv_value::{Place, Seq};

// ---- what is written

/// What is written at once.
fn assign_now(targets: Hoisted<Seq<Lvalue>>, value: Hoisted<Expr>) -> Result<Hoisted<Form>, Refusal>
    ensures ok { IfOk result (λ f. f ≡ hoisted.paired form.Assign targets value) }
    ensures err { IfErr result (λ e. e ≡ Memory) }
{
    let both = paired(targets, value)?;
    let (targets, value) = both.value;
    Ok(Hoisted {
        hidden: both.hidden,
        calls: both.calls,
        value: Form::Assign { targets, value },
    })
}

/// What is written after a delay.
fn assign_after(
    amount: Amount,
    targets: Hoisted<Seq<Lvalue>>,
    value: Hoisted<Expr>,
) -> Result<Hoisted<Form>, Refusal>
    ensures ok { IfOk result (λ f. f ≡ assignments.assign_form (Some (amount_in amount)) targets value) }
    ensures err { IfErr result (λ e. e ≡ Memory) }
{
    let in_ticks = amount.in_ticks;
    let all = paired(paired(targets, amount.amount)?, value)?;
    let ((targets, delay), value) = all.value;
    Ok(Hoisted {
        hidden: all.hidden,
        calls: all.calls,
        value: Form::AssignAfter {
            targets,
            value,
            delay,
            in_ticks,
        },
    })
}

/// What is written, at once or after a delay.
fn assign_form(
    amount: Option<Amount>,
    targets: Hoisted<Seq<Lvalue>>,
    value: Hoisted<Expr>,
) -> Result<Hoisted<Form>, Refusal>
    ensures ok { IfOk result (λ f. f ≡ assignments.assign_form (amount_if amount) targets value) }
    ensures err { IfErr result (λ e. e ≡ Memory) }
{
    match amount {
        None => assign_now(targets, value),
        Some(amount) => assign_after(amount, targets, value),
    }
}

/// What is written to the parts of a target.
pub(crate) fn assign_parts(
    alloc: Global,
    around: &Around,
    amount: Option<Amount>,
    spots: Seq<Spot>,
    value: Hoisted<Expr>,
) -> Result<Hoisted<Form>, Refusal>
    ensures ok { IfOk result (λ f. f
        ≡ assignments.assign_form (amount_if amount) (targets.lvalues (around_in around.now) spots) value) }
    ensures err { IfErr result (λ e. e ≡ Memory) }
{
    let targets = lvalues(alloc, around, spots)?;
    assign_form(amount, targets, value)
}

// ---- containers

/// A container becomes a copy of another.
fn copied_into(alloc: Global, t: Typed, source: Hoisted<Expr>) -> Result<Hoisted<Form>, Refusal>
    ensures ok { IfOk result (λ f. f ≡ assignments.copied_into t source) }
    ensures err { IfErr result (λ e. e ≡ Memory) }
{
    let both = paired(code_of(t), source)?;
    let (target, source) = both.value;
    let target = container_of(alloc, &target)?;
    let source = container_of(alloc, &source)?;
    Ok(Hoisted {
        hidden: both.hidden,
        calls: both.calls,
        value: Form::CopyContainer { target, source },
    })
}

/// E42: a container is not assigned after a delay.
fn copy_form(
    alloc: Global,
    amount: Option<Amount>,
    t: Typed,
    source: Hoisted<Expr>,
) -> Result<Hoisted<Form>, Refusal>
    ensures { Gives result (assignments.copy_form (amount_if amount) t source) }
{
    match amount {
        None => {
            let form = copied_into(alloc, t, source)?;
            Ok(form)
        }
        Some(_) => Err(Refusal::Rule { rule: 42, at: t.at }),
    }
}

/// Whether a target is a whole container.
fn is_whole_container(spots: &[Spot]) -> bool
    ensures { result ≡ forms.is_whole_container spots.now }
{
    match spots {
        [spot] => spot.1.ty.is_container(),
        _ => false,
    }
}

/// E42: a whole container is written later.
pub(crate) fn no_whole_container(spots: &[Spot]) -> Result<(), Refusal>
    ensures late { (d : amount_of) → Gives result (assignments.not_late (Some d) spots.now) }
    ensures later { Gives result (assignments.no_container (Good spots.now)) }
{
    match spots {
        [spot] => rule(42, spot.1.at, spot.1.ty.is_container()),
        _ => Ok(()),
    }
}

/// E42: no whole container is written after a delay.
pub(crate) fn not_late(amount: &Option<Amount>, spots: &[Spot]) -> Result<(), Refusal>
    ensures { Gives result (assignments.not_late (amount_if amount.now) spots.now) }
{
    match amount {
        None => Ok(()),
        Some(_) => no_whole_container(spots),
    }
}

// ---- a value for a target

/// A value for a target, at `at`: a container is copied, all else is written.
#[tactic(auto, using(crate::proofs::TargetLaws::copied_given, crate::proofs::TargetLaws::written_given))]
fn given_to(
    alloc: Global,
    around: &Around,
    amount: Option<Amount>,
    at: Place,
    spots: Seq<Spot>,
    value: Hoisted<Expr>,
) -> Result<Hoisted<Form>, Refusal>
    ensures { Gives result (assignments.given_to (around_in around.now) (amount_if amount) spots value) }
{
    if is_whole_container(spots.as_slice()) {
        let target = read_of(alloc, at, spots)?;
        copy_form(alloc, amount, target, value)
    } else {
        let form = assign_parts(alloc, around, amount, spots, value)?;
        Ok(form)
    }
}

/// A value that is given to a target, at once or after a delay. E16 and E17: it does not fit by type; E42: a container is given after a
/// delay, or to what is none.
pub fn value_given(
    alloc: Global,
    around: &Around,
    amount: Option<Amount>,
    at: Place,
    spots: Seq<Spot>,
    value: Typed,
) -> Result<Hoisted<Form>, Refusal>
    ensures { Gives result (assignments.value_given (around_in around.now) (amount_if amount) at spots value) }
{
    let to = type_of_target(alloc, spots.as_slice())?;
    match assigned(alloc, around, &to, at, value) {
        Ok(code) => given_to(alloc, around, amount, at, spots, code),
        Err(e) => Err(e),
    }
}

/// E16, E42: what `new` gives, at its word, fits no such target.
pub(crate) fn no_object(at: Place, spots: &[Spot]) -> Fault
    ensures { assignments.no_object at spots.now ≡ Broken result }
{
    match spots {
        [spot] => unfit(at, &spot.1),
        _ => Fault { at, rule: 16 },
    }
}

/// The same of a target of one part.
fn unfit(at: Place, t: &Typed) -> Fault
    ensures { forms.unfit at t.now ≡ Broken result }
{
    if t.ty.is_fixed() {
        Fault { at: t.at, rule: 42 }
    } else {
        Fault { at, rule: 16 }
    }
}
