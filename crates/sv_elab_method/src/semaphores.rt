// The methods of semaphores, strings and events (IEEE 1800-2017, 6.16.1, 15.3 and 15.5.3): E16, E42.
ghost use Rattle.std.specs.Prelude.{◌≡◌, option_to_list, IfOk, IfErr};
ghost use Rattle.sv_names.specs.declared.refusal.Refusal.TheVariants.{Memory};
ghost use Rattle.sv_names.specs.Calls as calls;
ghost use Rattle.sv_names.specs.Given.{Gives};
ghost use Rattle.sv_names.specs.Views.{around_in};
ghost use Rattle.sv_elab_method.specs.Steps as steps;

use crate::given::{exact_argument, operator, type_given};
use std::alloc::Global;
use sv_elab_value::{code_of, expr_of, paired, pure};
use sv_flat::{CallForm, Expr, ExprForm};
use sv_names::{Arg, Around, Called, Hoisted, Outcome, Refusal, Ty, Typed, int_type};
use sv_value::{Bits, Place};

// ---- keys

/// One key.
fn one_key(alloc: Global) -> Result<Hoisted<Expr>, Refusal>
    ensures ok { IfOk result (λ c. c ≡ steps.one_key) }
    ensures err { IfErr result (λ e. e ≡ Memory) }
{
    let value = Bits::new(32, true, 1, 0);
    let code = expr_of(alloc, ExprForm::Literal { value, fill: None })?;
    Ok(pure(alloc, code))
}

/// E16, E42: the number of keys, 1 where none is given.
fn keys_given(alloc: Global, around: &Around, first: Option<Arg>) -> Result<Hoisted<Expr>, Refusal>
    ensures { Gives result (calls.keys_given (around_in around.now) (option_to_list first)) }
{
    match first {
        None => {
            let code = one_key(alloc)?;
            Ok(code)
        }
        Some(arg) => exact_argument(alloc, around, &int_type(), arg),
    }
}

/// Keys that are put into a semaphore.
fn put_form(semaphore: Hoisted<Expr>, keys: Hoisted<Expr>) -> Result<Hoisted<CallForm>, Refusal>
    ensures ok { IfOk result (λ f. f ≡ steps.put_keys_form semaphore keys) }
    ensures err { IfErr result (λ e. e ≡ Memory) }
{
    let both = paired(semaphore, keys)?;
    let (semaphore, keys) = both.value;
    Ok(Hoisted {
        hidden: both.hidden,
        calls: both.calls,
        value: CallForm::PutKeys { semaphore, keys },
    })
}

/// `put` of a semaphore. E16 and E42: the argument is no number.
pub(crate) fn put_keys(
    alloc: Global,
    around: &Around,
    semaphore: Typed,
    first: Option<Arg>,
) -> Result<Called, Refusal>
    ensures { Gives result (steps.put_keys (around_in around.now) semaphore (option_to_list first)) }
{
    match keys_given(alloc, around, first) {
        Ok(keys) => {
            let form = put_form(code_of(semaphore), keys)?;
            Ok(Called::Call(form, Ty::Nothing))
        }
        Err(e) => Err(e),
    }
}

/// Keys that are got from a semaphore.
fn get_form(
    waits: bool,
    semaphore: Hoisted<Expr>,
    keys: Hoisted<Expr>,
) -> Result<Hoisted<CallForm>, Refusal>
    ensures ok { IfOk result (λ f. f ≡ steps.get_keys_form waits semaphore keys) }
    ensures err { IfErr result (λ e. e ≡ Memory) }
{
    let both = paired(semaphore, keys)?;
    let (semaphore, keys) = both.value;
    Ok(Hoisted {
        hidden: both.hidden,
        calls: both.calls,
        value: CallForm::GetKeys {
            semaphore,
            keys,
            waits,
        },
    })
}

/// `get` and `try_get` of a semaphore. E16 and E42: the argument is no number.
pub(crate) fn get_keys(
    alloc: Global,
    around: &Around,
    waits: bool,
    gives: &Outcome,
    semaphore: Typed,
    first: Option<Arg>,
) -> Result<Called, Refusal>
    ensures { Gives result (steps.get_keys (around_in around.now) waits gives.now semaphore (option_to_list first)) }
{
    let ty = type_given(alloc, gives)?;
    match keys_given(alloc, around, first) {
        Ok(keys) => {
            let form = get_form(waits, code_of(semaphore), keys)?;
            Ok(Called::Call(form, ty))
        }
        Err(e) => Err(e),
    }
}

// ---- strings and events

/// The length of a string.
pub(crate) fn text_length(alloc: Global, at: Place, text: Typed) -> Result<Called, Refusal>
    ensures { Gives result (steps.text_length at text) }
{
    let is_constant = text.is_constant;
    let code = code_of(text);
    let value = expr_of(alloc, ExprForm::Length { text: code.value })?;
    let code = Hoisted {
        hidden: code.hidden,
        calls: code.calls,
        value,
    };
    Ok(operator(alloc, at, int_type(), is_constant, code))
}

/// Whether an event was triggered in this slot.
pub(crate) fn triggered(
    alloc: Global,
    at: Place,
    gives: &Outcome,
    event: Typed,
) -> Result<Called, Refusal>
    ensures { Gives result (steps.triggered at gives.now event) }
{
    let ty = type_given(alloc, gives)?;
    let code = code_of(event);
    let value = expr_of(alloc, ExprForm::Triggered { event: code.value })?;
    let code = Hoisted {
        hidden: code.hidden,
        calls: code.calls,
        value,
    };
    Ok(operator(alloc, at, ty, false, code))
}
