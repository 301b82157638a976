// `new h` (IEEE 1800-2017, 8.12): E16, E24, E25, E42.
ghost use Rattle.std.specs.Prelude.{◌≡◌, IfOk, IfErr};
ghost use Rattle.sv_flat.specs.declared.call.CallForm.TheVariants as call;
ghost use Rattle.sv_names.specs.declared.refusal.Refusal.TheVariants.{Memory};
ghost use Rattle.sv_names.specs.Assignments as assignments;
ghost use Rattle.sv_names.specs.Given.{Gives};
ghost use Rattle.sv_names.specs.Hoisted as hoisted;
ghost use Rattle.sv_names.specs.Views.{around_in};
ghost use Rattle.sv_elab_assign.specs.Amounts.{amount_if};
ghost use Rattle.sv_elab_assign.specs.Forms as forms;

use crate::amount::Amount;
use crate::written::{assign_parts, no_object};
use std::alloc::Global;
use sv_elab_call::as_value;
use sv_elab_call::sv_elab_select::{Spot, type_of_target};
use sv_elab_value::{call_stands, code_of};
use sv_flat::{CallForm, Expr, Form};
use sv_names::{Around, Called, Hoisted, Refusal, Ty, Typed, can_be_derived, where_also};
use sv_value::{Place, Seq};

/// Whether `new h` of the second class fits a variable of the first.
fn copied(around: &Around, to: &Ty, from: &Ty) -> bool
    ensures { result ≡ assignments.copied (around_in around.now) to.now from.now }
{
    match to {
        Ty::Class(class) => match from {
            Ty::Class(other) => {
                can_be_derived(around.classes, other.as_slice(), class.as_slice())
            }
            _ => false,
        },
        _ => false,
    }
}

/// The call that copies an object.
fn copy_call(object: Hoisted<Expr>) -> Hoisted<CallForm>
    ensures { result ≡ hoisted.mapped call.Copy object }
{
    Hoisted {
        hidden: object.hidden,
        calls: object.calls,
        value: CallForm::Copy {
            object: object.value,
        },
    }
}

/// What a call gives, in a hidden variable of a type.
pub(crate) fn made_by(
    alloc: Global,
    around: &Around,
    at: Place,
    ty: Ty,
    form: Hoisted<CallForm>,
) -> Result<Hoisted<Expr>, Refusal>
    ensures ok { IfOk result (λ c. c ≡ forms.made_by (around_in around.now) ty form) }
    ensures err { IfErr result (λ e. e ≡ Memory) }
{
    let value = as_value(alloc, around, at, Called::Call(form, ty))?;
    Ok(code_of(value))
}

/// A copy of an object, in a hidden variable.
fn copy_of(alloc: Global, around: &Around, at: Place, t: Typed) -> Result<Hoisted<Expr>, Refusal>
    ensures ok { IfOk result (λ c. c ≡ forms.copy_of (around_in around.now) t) }
    ensures err { IfErr result (λ e. e ≡ Memory) }
{
    let ty = t.ty.copy(alloc)?;
    let form = copy_call(code_of(t));
    made_by(alloc, around, at, ty, form)
}

/// E16, E42: a copy for a target.
fn copy_for(
    alloc: Global,
    around: &Around,
    amount: Option<Amount>,
    at: Place,
    spots: Seq<Spot>,
    t: Typed,
) -> Result<Hoisted<Form>, Refusal>
    ensures { Gives result (forms.copy_for (around_in around.now) (amount_if amount) at spots t) }
{
    let to = type_of_target(alloc, spots.as_slice())?;
    if copied(around, &to, &t.ty) {
        let value = copy_of(alloc, around, at, t)?;
        let form = assign_parts(alloc, around, amount, spots, value)?;
        Ok(form)
    } else {
        Err(no_object(at, spots.as_slice()).refusal())
    }
}

/// `new h` of a reference, at the word, for a target, at once or after a delay. E16 and E42: the target takes no such object; E24 and E25: no
/// call may stand there.
pub fn copy_given(
    alloc: Global,
    around: &Around,
    amount: Option<Amount>,
    at: Place,
    spots: Seq<Spot>,
    t: Typed,
) -> Result<Hoisted<Form>, Refusal>
    ensures { Gives result (assignments.copy_given (around_in around.now) (amount_if amount) at spots t) }
{
    let copy = copy_for(alloc, around, amount, at, spots, t);
    where_also(copy, call_stands(around, at))
}
