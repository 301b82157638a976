// Calls of subroutines (IEEE 1800-2017, 8.6, 8.20, 13.3 and 13.4): E16, E17, E24, E25, E27, E31, E32, E42.
ghost use Rattle.std.specs.Prelude.{◌≡◌, ◌∷◌, None, Some, IfOk, IfErr};
ghost use Rattle.sv_flat.specs.declared.call.CallForm.TheVariants as call;
ghost use Rattle.sv_names.specs.declared.refusal.Refusal.TheVariants.{Memory};
ghost use Rattle.sv_names.specs.Calls as calls;
ghost use Rattle.sv_names.specs.Given.{Gives};
ghost use Rattle.sv_names.specs.Hoisted as hoisted;
ghost use Rattle.sv_names.specs.Views.{around_in};
ghost use Rattle.sv_elab_call.specs.Forms as forms;

use crate::passing::arguments;
use crate::rows::in_row;
use crate::types::type_of;
use std::alloc::Global;
use sv_elab_copies::copy_expr;
use sv_elab_value::{call_stands, code_of, paired, task_stands, value_stands};
use sv_flat::{Argument, CallForm, Expr};
use sv_names::{
    Arg, Around, Called, Callee, Checked, Hoisted, Refusal, Ty, Typed, both, where_also,
};
use sv_value::{Place, Seq, Text};

// ---- methods

/// An object as the first argument.
fn with_object(object: Expr, arguments: Seq<Argument>) -> Result<Seq<Argument>, Refusal>
    ensures ok { IfOk result (λ as'. as' ≡ calls.object_argument object ∷ arguments) }
    ensures err { IfErr result (λ e. e ≡ Memory) }
{
    let first = Argument {
        value: Some(object),
        targets: None,
    };
    let mut items = arguments.into_vec();
    items.insert(0, first)?;
    Ok(Seq::from_vec(items))
}

/// The method that is named.
fn named_method(
    alloc: Global,
    around: &Around,
    callee: &Callee,
    object: Expr,
    arguments: Seq<Argument>,
) -> Result<CallForm, Refusal>
    ensures ok { IfOk result (λ f. f ≡ forms.named_method (around_in around.now) callee.now object arguments) }
    ensures err { IfErr result (λ e. e ≡ Memory) }
{
    let routine = around.numbers.subroutine(callee.path.as_slice());
    let through = copy_expr(alloc, &object)?;
    let arguments = with_object(object, arguments)?;
    Ok(CallForm::Routine {
        routine,
        through: Some(through),
        arguments,
    })
}

/// A virtual method, by the class of its object (8.20).
fn virtual_method(
    around: &Around,
    callee: &Callee,
    class: &[Text],
    object: Expr,
    arguments: Seq<Argument>,
) -> Result<CallForm, Refusal>
    ensures ok { IfOk result (λ f. f ≡ forms.virtual_method (around_in around.now) callee.now class.now object arguments) }
    ensures err { IfErr result (λ e. e ≡ Memory) }
{
    let slot = around.slot_of(class, callee.name.text.bytes())?;
    let arguments = with_object(object, arguments)?;
    Ok(CallForm::Method {
        class: around.numbers.class(class),
        slot,
        arguments,
    })
}

/// A method by the class of its object, or the one that is named.
#[tactic(auto, using(crate::proofs::CallLaws::method_other))]
fn method_form(
    alloc: Global,
    around: &Around,
    callee: &Callee,
    is_direct: bool,
    ty: &Ty,
    object: Expr,
    arguments: Seq<Argument>,
) -> Result<CallForm, Refusal>
    ensures ok { IfOk result (λ f. f
        ≡ calls.method_form (around_in around.now) callee.now is_direct ty.now object arguments) }
    ensures err { IfErr result (λ e. e ≡ Memory) }
{
    match ty {
        Ty::Class(class) => {
            if callee.is_virtual && !is_direct {
                virtual_method(around, callee, class.as_slice(), object, arguments)
            } else {
                named_method(alloc, around, callee, object, arguments)
            }
        }
        _ => named_method(alloc, around, callee, object, arguments),
    }
}

// ---- what is called

/// A subroutine that is called for no object.
fn free_form(
    around: &Around,
    callee: &Callee,
    arguments: Hoisted<Seq<Argument>>,
) -> Hoisted<CallForm>
    ensures { result ≡ forms.free_form (around_in around.now) callee.now arguments }
{
    Hoisted {
        hidden: arguments.hidden,
        calls: arguments.calls,
        value: CallForm::Routine {
            routine: around.numbers.subroutine(callee.path.as_slice()),
            through: None,
            arguments: arguments.value,
        },
    }
}

/// A static method, which is named through an object (8.10).
fn static_form(
    around: &Around,
    callee: &Callee,
    object: Hoisted<Expr>,
    arguments: Hoisted<Seq<Argument>>,
) -> Result<Hoisted<CallForm>, Refusal>
    ensures ok { IfOk result (λ f. f ≡ forms.static_form (around_in around.now) callee.now object arguments) }
    ensures err { IfErr result (λ e. e ≡ Memory) }
{
    let both = paired(object, arguments)?;
    let (through, arguments) = both.value;
    Ok(Hoisted {
        hidden: both.hidden,
        calls: both.calls,
        value: CallForm::Routine {
            routine: around.numbers.subroutine(callee.path.as_slice()),
            through: Some(through),
            arguments,
        },
    })
}

/// A method that is called for an object.
fn object_form(
    alloc: Global,
    around: &Around,
    callee: &Callee,
    is_direct: bool,
    object: Typed,
    arguments: Hoisted<Seq<Argument>>,
) -> Result<Hoisted<CallForm>, Refusal>
    ensures ok { IfOk result (λ f. f
        ≡ hoisted.paired (calls.method_form (around_in around.now) callee.now is_direct object.ty) object.code arguments) }
    ensures err { IfErr result (λ e. e ≡ Memory) }
{
    let Typed {
        ty,
        at: _,
        code,
        is_constant: _,
        target: _,
    } = object;
    let both = paired(code, arguments)?;
    let (object, arguments) = both.value;
    let value = method_form(alloc, around, callee, is_direct, &ty, object, arguments)?;
    Ok(Hoisted {
        hidden: both.hidden,
        calls: both.calls,
        value,
    })
}

/// What is called, with its object as the first argument.
fn call_form(
    alloc: Global,
    around: &Around,
    callee: &Callee,
    object: Option<Typed>,
    is_direct: bool,
    arguments: Seq<Hoisted<Argument>>,
) -> Result<Hoisted<CallForm>, Refusal>
    ensures ok { IfOk result (λ f. f
        ≡ calls.call_form (around_in around.now) callee.now object is_direct arguments) }
    ensures err { IfErr result (λ e. e ≡ Memory) }
{
    let row = in_row(alloc, arguments)?;
    match object {
        None => Ok(free_form(around, callee, row)),
        Some(object) => {
            if callee.is_static {
                static_form(around, callee, code_of(object), row)
            } else {
                object_form(alloc, around, callee, is_direct, object, row)
            }
        }
    }
}

// ---- a call

/// Whether it is a task or a void function.
fn gives_nothing(given: &Checked<Ty>) -> bool
    ensures { result ≡ calls.gives_nothing given.now }
{
    match given {
        Checked::Good(Ty::Nothing) => true,
        _ => false,
    }
}

/// A call, but for the rules on where it stands.
fn called(
    alloc: Global,
    around: &Around,
    at: Place,
    callee: &Callee,
    object: Option<Typed>,
    is_direct: bool,
    args: Seq<Arg>,
) -> Result<Called, Refusal>
    ensures { Gives result (forms.routine_called (around_in around.now) at callee.now object is_direct args) }
{
    let arguments = arguments(alloc, around, at, callee.formals.as_slice(), args);
    match both(arguments, type_of(alloc, &callee.result)) {
        Ok((arguments, ty)) => {
            let form = call_form(alloc, around, callee, object, is_direct, arguments)?;
            Ok(Called::Call(form, ty))
        }
        Err(e) => Err(e),
    }
}

/// A call of a task, a function or a method, by its name at `at`. E24 and E25: no call may stand there; E27: what may wait stands where
/// nothing may; E31: too few or too many arguments; E32: a call that gives nothing stands for a value; E16, E17 and E42: an argument of
/// another type.
pub fn subroutine_called(
    alloc: Global,
    around: &Around,
    at: Place,
    is_value: bool,
    callee: &Callee,
    object: Option<Typed>,
    is_direct: bool,
    args: Seq<Arg>,
) -> Result<Called, Refusal>
    ensures { Gives result
        (calls.subroutine_called (around_in around.now) at is_value callee.now object is_direct args) }
{
    let call = called(alloc, around, at, callee, object, is_direct, args);
    let standing = where_also(call, call_stands(around, at));
    let gives_nothing = gives_nothing(&callee.result);
    let valued = where_also(standing, value_stands(at, is_value, gives_nothing));
    where_also(valued, task_stands(around, at, callee.is_task))
}
