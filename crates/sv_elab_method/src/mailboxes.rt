// The methods of mailboxes (IEEE 1800-2017, 15.4): E16, E17, E31, E42.
ghost use Rattle.std.specs.Prelude.{◌≡◌, ◌||◌, IfOk, IfErr, if◌then◌else◌};
ghost use Rattle.sv_names.specs.declared.refusal.Refusal.TheVariants.{Memory};
ghost use Rattle.sv_names.specs.Arguments as arguments;
ghost use Rattle.sv_names.specs.Calls as calls;
ghost use Rattle.sv_names.specs.Checked.{◌▷◌, given};
ghost use Rattle.sv_names.specs.Given.{Gives};
ghost use Rattle.sv_names.specs.Views.{around_in};
ghost use Rattle.sv_elab_method.specs.Steps as steps;

use crate::given::{operator, type_given};
use std::alloc::Global;
use sv_elab_select::{Spot, lvalues};
use sv_elab_value::{code_of, exactly, expr_of, one_item, paired};
use sv_flat::{CallForm, Expr, ExprForm};
use sv_names::{Arg, Around, Called, Hoisted, Outcome, Refusal, Ty, Typed, int_type};
use sv_value::{MessageType, Place, Seq, Wanted};

/// E16, E42: what a message can be.
fn is_message(ty: &Ty) -> bool
    ensures { result ≡ calls.is_message ty.now }
{
    ty.is_integral() || ty.is_text() || ty.is_class()
}

// ---- `put` and `try_put`

/// E16, E17, E42: a message of a type.
fn message_as(
    alloc: Global,
    around: &Around,
    ty: Ty,
    at: Place,
    value: Typed,
) -> Result<(Ty, Hoisted<Expr>), Refusal>
    ensures { Gives result (steps.message_as (around_in around.now) ty at value) }
{
    match exactly(alloc, around, &ty, at, value) {
        Ok(code) => Ok((ty, code)),
        Err(e) => Err(e),
    }
}

/// E16, E42: a message of any type.
fn any_message(
    alloc: Global,
    around: &Around,
    at: Place,
    value: Typed,
) -> Result<(Ty, Hoisted<Expr>), Refusal>
    ensures { Gives result (steps.any_message (around_in around.now) at value) }
{
    match one_item(value) {
        Ok(value) => {
            if is_message(&value.ty) {
                let ty = value.ty.copy(alloc)?;
                message_as(alloc, around, ty, at, value)
            } else {
                Err(Refusal::Rule { rule: 16, at })
            }
        }
        Err(e) => Err(e),
    }
}

/// E16, E17, E42: a message, with the type that it is written with.
#[tactic(auto, using(crate::proofs::MessageLaws::message_other))]
fn message_of(
    alloc: Global,
    around: &Around,
    mailbox: &Ty,
    at: Place,
    value: Typed,
) -> Result<(Ty, Hoisted<Expr>), Refusal>
    ensures { Gives result (calls.message_of (around_in around.now) mailbox.now at value) }
{
    match mailbox {
        Ty::MailboxOf(message) => {
            let ty = message.as_type(alloc)?;
            message_as(alloc, around, ty, at, value)
        }
        _ => any_message(alloc, around, at, value),
    }
}

/// A mailbox into which a message is put.
fn put_form(
    alloc: Global,
    around: &Around,
    waits: bool,
    mailbox: Hoisted<Expr>,
    message: (Ty, Hoisted<Expr>),
) -> Result<Hoisted<CallForm>, Refusal>
    ensures ok { IfOk result (λ f. f ≡ steps.put_form (around_in around.now) waits mailbox message) }
    ensures err { IfErr result (λ e. e ≡ Memory) }
{
    let (ty, code) = message;
    let written = around.numbers.message_type(&ty);
    let both = paired(mailbox, code)?;
    let (mailbox, value) = both.value;
    Ok(Hoisted {
        hidden: both.hidden,
        calls: both.calls,
        value: CallForm::Put {
            mailbox,
            value,
            written,
            waits,
        },
    })
}

/// An argument that is a message.
fn message_argument(
    alloc: Global,
    around: &Around,
    mailbox: &Ty,
    arg: Arg,
) -> Result<(Ty, Hoisted<Expr>), Refusal>
    ensures { Gives result (arguments.value_of_arg arg ▷ calls.message_of (around_in around.now) mailbox.now arg.at) }
{
    let at = arg.at;
    match arg.into_value() {
        Ok(value) => message_of(alloc, around, mailbox, at, value),
        Err(e) => Err(e),
    }
}

/// E16, E17, E42: a message is put into a mailbox.
pub(crate) fn put(
    alloc: Global,
    around: &Around,
    waits: bool,
    gives: &Outcome,
    mailbox: Typed,
    arg: Arg,
) -> Result<Called, Refusal>
    ensures { Gives result (steps.put (around_in around.now) waits gives.now mailbox arg) }
{
    let ty = type_given(alloc, gives)?;
    match message_argument(alloc, around, &mailbox.ty, arg) {
        Ok(message) => {
            let form = put_form(alloc, around, waits, code_of(mailbox), message)?;
            Ok(Called::Call(form, ty))
        }
        Err(e) => Err(e),
    }
}

// ---- `get`, `peek`, `try_get` and `try_peek`

/// The messages that a variable takes.
fn wanted_of(alloc: Global, around: &Around, ty: &Ty) -> Result<Wanted, Refusal>
    ensures ok { IfOk result (λ w. w ≡ calls.wanted_of (around_in around.now) ty.now) }
    ensures err { IfErr result (λ e. e ≡ Memory) }
{
    match ty {
        Ty::Text => Ok(Wanted::Text),
        Ty::Class(class) => {
            let numbers = around.numbers.derived(alloc, class.as_slice())?;
            Ok(Wanted::Classes(numbers))
        }
        _ => Ok(Wanted::Integral(ty.integral())),
    }
}

/// E16, E17: a variable has the type of a message.
fn takes_message(message: &Ty, at: Place, variable: &Ty) -> Result<(), Refusal>
    ensures { Gives result (steps.takes_message message.now at variable.now) }
{
    if message.is_same(variable) {
        return Ok(());
    }
    let rule = if variable.is_enum() && message.is_integral() {
        17
    } else {
        16
    };
    Err(Refusal::Rule { rule, at })
}

/// E16, E17: a variable has the type of the messages.
#[tactic(auto, using(crate::proofs::MessageLaws::receive_other))]
fn may_receive(alloc: Global, mailbox: &Ty, at: Place, variable: &Typed) -> Result<(), Refusal>
    ensures { Gives result (calls.may_receive mailbox.now at variable.now) }
{
    match mailbox {
        Ty::MailboxOf(message) => {
            let message = message.as_type(alloc)?;
            takes_message(&message, at, &variable.ty)
        }
        _ => Ok(()),
    }
}

/// E16, E17, E42: a variable can get a message.
fn receives(alloc: Global, mailbox: &Ty, at: Place, variable: &Typed) -> Result<(), Refusal>
    ensures { Gives result (steps.receives mailbox.now at variable.now) }
{
    if variable.ty.is_array() {
        return Err(Refusal::Rule {
            rule: 42,
            at: variable.at,
        });
    }
    if is_message(&variable.ty) {
        may_receive(alloc, mailbox, at, variable)
    } else {
        Err(Refusal::Rule { rule: 16, at })
    }
}

/// The messages that a variable takes, where it can get one.
fn wanted_by(
    alloc: Global,
    around: &Around,
    mailbox: &Ty,
    at: Place,
    variable: &Typed,
) -> Result<Wanted, Refusal>
    ensures { Gives result (steps.wanted_by (around_in around.now) mailbox.now at variable.now) }
{
    match receives(alloc, mailbox, at, variable) {
        Ok(()) => {
            let wanted = wanted_of(alloc, around, &variable.ty)?;
            Ok(wanted)
        }
        Err(e) => Err(e),
    }
}

/// E16, E17, E42: the messages that a target takes, which is one variable.
fn wanted_in(
    alloc: Global,
    around: &Around,
    mailbox: &Ty,
    at: Place,
    spots: &[Spot],
) -> Result<Wanted, Refusal>
    ensures { Gives result (steps.wanted_in (around_in around.now) mailbox.now at spots.now) }
{
    match spots {
        [spot] => wanted_by(alloc, around, mailbox, at, &spot.1),
        _ => Err(Refusal::Rule { rule: 16, at }),
    }
}

/// How a message is got: whether it stays, and whether the call waits for it.
#[derive(Clone, Copy)]
pub(crate) struct Getting {
    /// Whether the message stays.
    pub peeks: bool,
    /// Whether the call waits.
    pub waits: bool,
}

/// A mailbox from which a message is got.
fn get_form(
    alloc: Global,
    around: &Around,
    getting: Getting,
    mailbox: Hoisted<Expr>,
    spots: Seq<Spot>,
    wanted: Wanted,
) -> Result<Hoisted<CallForm>, Refusal>
    ensures ok { IfOk result (λ f. f
        ≡ steps.get_form (around_in around.now) getting.peeks getting.waits mailbox spots wanted) }
    ensures err { IfErr result (λ e. e ≡ Memory) }
{
    let both = paired(mailbox, lvalues(alloc, around, spots)?)?;
    let (mailbox, targets) = both.value;
    Ok(Hoisted {
        hidden: both.hidden,
        calls: both.calls,
        value: CallForm::Get {
            mailbox,
            targets,
            wanted,
            peeks: getting.peeks,
            waits: getting.waits,
        },
    })
}

/// E16, E17, E42: a target gets a message.
fn got(
    alloc: Global,
    around: &Around,
    getting: Getting,
    mailbox: Typed,
    at: Place,
    spots: Seq<Spot>,
) -> Result<Hoisted<CallForm>, Refusal>
    ensures { Gives result
        (steps.got (around_in around.now) getting.peeks getting.waits mailbox at spots) }
{
    match wanted_in(alloc, around, &mailbox.ty, at, spots.as_slice()) {
        Ok(wanted) => {
            let form = get_form(alloc, around, getting, code_of(mailbox), spots, wanted)?;
            Ok(form)
        }
        Err(e) => Err(e),
    }
}

/// The same, where the argument is a target.
fn get_argument(
    alloc: Global,
    around: &Around,
    getting: Getting,
    mailbox: Typed,
    arg: Arg,
) -> Result<Hoisted<CallForm>, Refusal>
    ensures { Gives result
        (steps.get_argument (around_in around.now) getting.peeks getting.waits mailbox arg) }
{
    let at = arg.at;
    match arg.into_target() {
        Ok(spots) => got(alloc, around, getting, mailbox, at, spots),
        Err(e) => Err(e),
    }
}

/// A message is got from a mailbox. E16, E17 and E42: the argument is no variable that can get one; E31: it is no target.
pub(crate) fn get(
    alloc: Global,
    around: &Around,
    getting: Getting,
    gives: &Outcome,
    mailbox: Typed,
    arg: Arg,
) -> Result<Called, Refusal>
    ensures { Gives result
        (steps.get (around_in around.now) getting.peeks getting.waits gives.now mailbox arg) }
{
    let ty = type_given(alloc, gives)?;
    match get_argument(alloc, around, getting, mailbox, arg) {
        Ok(form) => Ok(Called::Call(form, ty)),
        Err(e) => Err(e),
    }
}

// ---- `num`

/// The number of messages of a mailbox.
pub(crate) fn messages(alloc: Global, at: Place, mailbox: Typed) -> Result<Called, Refusal>
    ensures { Gives result (steps.messages at mailbox) }
{
    let code = code_of(mailbox);
    let value = expr_of(
        alloc,
        ExprForm::Messages {
            mailbox: code.value,
        },
    )?;
    let code = Hoisted {
        hidden: code.hidden,
        calls: code.calls,
        value,
    };
    Ok(operator(alloc, at, int_type(), false, code))
}
