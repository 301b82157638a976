// Mailboxes and semaphores, and what `new` makes for no target (IEEE 1800-2017, 15.3.1 and 15.4.1): E16, E31, E42.
ghost use Rattle.std.specs.Prelude.{◌≡◌, IfOk, IfErr};
ghost use Rattle.sv_flat.specs.declared.call.CallForm.{CallForm as call_form};
ghost use Rattle.sv_flat.specs.declared.call.CallForm.TheVariants as call;
ghost use Rattle.sv_names.specs.declared.checked.Checked.{Checked as checked};
ghost use Rattle.sv_names.specs.declared.hoisted.Hoisted.{Hoisted as hoisted_of};
ghost use Rattle.sv_names.specs.declared.refusal.Refusal.TheVariants.{Memory};
ghost use Rattle.sv_names.specs.Assignments as assignments;
ghost use Rattle.sv_names.specs.Checked.{given};
ghost use Rattle.sv_names.specs.Given.{Gives};
ghost use Rattle.sv_names.specs.Hoisted as hoisted;
ghost use Rattle.sv_names.specs.Views.{around_in};
ghost use Rattle.sv_elab_assign.specs.Forms as forms;
ghost use Rattle.sv_elab_assign.specs.Making as making;

use crate::copies::made_by;
use crate::written::no_object;
use std::alloc::Global;
use sv_elab_call::sv_elab_select::Spot;
use sv_elab_value::{exactly, expr_of, pure, values_stand};
use sv_flat::{CallForm, Expr, ExprForm};
use sv_names::{Arg, Around, Hoisted, Refusal, Ty, int_type, where_also};
use sv_value::{Bits, Place, Seq};

// ---- the bound of a mailbox, the keys of a semaphore

/// The first argument, where there is one.
fn first_of(args: Seq<Arg>) -> Option<Arg>
    ensures { result ≡ making.first_of args }
{
    args.into_vec().into_iter().next()
}

/// E31: at most one argument.
#[tactic(auto, using(crate::proofs::MakingLaws::several_given, crate::proofs::MakingLaws::few_given))]
fn at_most_one(at: Place, args: Seq<Arg>) -> Result<Option<Arg>, Refusal>
    ensures { Gives result (making.at_most_one at args) }
{
    if 1 < args.as_slice().len() {
        return where_also(
            Err(Refusal::Rule { rule: 31, at }),
            values_stand(args.as_slice()),
        );
    }
    Ok(first_of(args))
}

/// 0 where nothing is given.
fn nothing_given(alloc: Global) -> Result<Hoisted<Expr>, Refusal>
    ensures ok { IfOk result (λ c. c ≡ making.nothing_given) }
    ensures err { IfErr result (λ e. e ≡ Memory) }
{
    let value = Bits::new(32, true, 0, 0);
    let code = expr_of(alloc, ExprForm::Literal { value, fill: None })?;
    Ok(pure(alloc, code))
}

/// E16, E42: an argument as a number.
fn number_given(alloc: Global, around: &Around, arg: Arg) -> Result<Hoisted<Expr>, Refusal>
    ensures { Gives result (making.number_given (around_in around.now) arg) }
{
    let at = arg.at;
    match arg.into_value() {
        Ok(value) => exactly(alloc, around, &int_type(), at, value),
        Err(e) => Err(e),
    }
}

/// The same, or 0.
fn number_or_nothing(
    alloc: Global,
    around: &Around,
    first: Option<Arg>,
) -> Result<Hoisted<Expr>, Refusal>
    ensures { Gives result (making.number_or_nothing (around_in around.now) first) }
{
    match first {
        None => {
            let code = nothing_given(alloc)?;
            Ok(code)
        }
        Some(arg) => number_given(alloc, around, arg),
    }
}

/// What a mailbox or a semaphore is made with, at `new`; 0 where nothing is given. E16 and E42: it is no number; E31: there is more than one
/// argument.
#[tactic(auto, using(crate::proofs::MakingLaws::bound_is))]
pub fn bound_given(
    alloc: Global,
    around: &Around,
    at: Place,
    args: Seq<Arg>,
) -> Result<Hoisted<Expr>, Refusal>
    ensures { Gives result (assignments.bound_given (around_in around.now) at args) }
{
    match at_most_one(at, args) {
        Ok(first) => number_or_nothing(alloc, around, first),
        Err(e) => Err(e),
    }
}

// ---- what is made

/// An object, in a hidden variable of the type of its reference, by what its constructor gives.
pub fn object_made(
    alloc: Global,
    around: &Around,
    at: Place,
    to: &Ty,
    constructed: Result<Hoisted<CallForm>, Refusal>,
) -> Result<Hoisted<Expr>, Refusal>
    ensures { (x : checked (hoisted_of call_form)) → Gives constructed x
        → Gives result (given (forms.made_by (around_in around.now) to.now) x) }
{
    match constructed {
        Ok(form) => {
            let ty = to.copy(alloc)?;
            let code = made_by(alloc, around, at, ty, form)?;
            Ok(code)
        }
        Err(e) => Err(e),
    }
}

/// The call that makes a mailbox.
fn mailbox_form(bound: Hoisted<Expr>) -> Hoisted<CallForm>
    ensures { result ≡ hoisted.mapped call.NewMailbox bound }
{
    Hoisted {
        hidden: bound.hidden,
        calls: bound.calls,
        value: CallForm::NewMailbox { bound: bound.value },
    }
}

/// The call that makes a semaphore.
fn semaphore_form(keys: Hoisted<Expr>) -> Hoisted<CallForm>
    ensures { result ≡ hoisted.mapped call.NewSemaphore keys }
{
    Hoisted {
        hidden: keys.hidden,
        calls: keys.calls,
        value: CallForm::NewSemaphore { keys: keys.value },
    }
}

/// A mailbox, in a hidden variable.
pub fn mailbox_made(
    alloc: Global,
    around: &Around,
    at: Place,
    args: Seq<Arg>,
) -> Result<Hoisted<Expr>, Refusal>
    ensures { Gives result (making.mailbox_made (around_in around.now) at args) }
{
    match bound_given(alloc, around, at, args) {
        Ok(bound) => {
            let code = made_by(alloc, around, at, Ty::Mailbox, mailbox_form(bound))?;
            Ok(code)
        }
        Err(e) => Err(e),
    }
}

/// A semaphore, in a hidden variable.
pub fn semaphore_made(
    alloc: Global,
    around: &Around,
    at: Place,
    args: Seq<Arg>,
) -> Result<Hoisted<Expr>, Refusal>
    ensures { Gives result (making.semaphore_made (around_in around.now) at args) }
{
    match bound_given(alloc, around, at, args) {
        Ok(keys) => {
            let code = made_by(alloc, around, at, Ty::Semaphore, semaphore_form(keys))?;
            Ok(code)
        }
        Err(e) => Err(e),
    }
}

/// E16, E42: nothing is made for a target that takes neither an object nor one of these.
pub fn nothing_made(at: Place, spots: &[Spot], args: &[Arg]) -> Result<Hoisted<Expr>, Refusal>
    ensures { Gives result (making.nothing_made at spots.now args.now) }
{
    let fault = no_object(at, spots);
    where_also(Err(fault.refusal()), values_stand(args))
}
