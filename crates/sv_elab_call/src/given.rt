// What a call gives, as a value (IEEE 1800-2017, 13.4.1).
ghost use Rattle.std.specs.Prelude.{◌≡◌, [], ◌∷◌, ◌++◌, ◌+◌, ◌-◌, ◌^◌, min, length, IfOk, IfErr};
ghost use Rattle.sv_names.specs.Calls as calls;
ghost use Rattle.sv_names.specs.Hoisted as hoisted;
ghost use Rattle.sv_names.specs.Views.{around_in};
ghost use Rattle.sv_names.specs.declared.refusal.Refusal.TheVariants.{Memory};

use std::alloc::Global;
use sv_elab_value::{expr_of, value_typed};
use sv_flat::{Call, CallForm, DataType, Expr, ExprForm};
use sv_names::{Around, Called, Hoisted, Refusal, Typed};
use sv_value::{Place, Seq};

/// The place of the hidden variable behind those of a call; more than every limit are not told from others.
fn place_behind(first: u32, hidden: &[DataType]) -> u32
    ensures { result ≡ min (first + length hidden.now) (2 ^ 32 - 1) }
{
    first.saturating_add(u32::try_from(hidden.len()).unwrap_or(u32::MAX))
}

/// A list with one more item.
pub(crate) fn put_behind<A: Drop>(list: Seq<A>, item: A) -> Result<Seq<A>, Refusal>
    ensures ok { IfOk result (λ xs. xs ≡ list ++ item ∷ []) }
    ensures err { IfErr result (λ e. e ≡ Memory) }
{
    let mut items = list.into_vec();
    items.push(item)?;
    Ok(Seq::from_vec(items))
}

/// A call whose result stands in a hidden variable of this type; `first` are taken by what stands before.
pub(crate) fn result_of(
    alloc: Global,
    first: u32,
    ty: DataType,
    form: Hoisted<CallForm>,
) -> Result<Hoisted<Expr>, Refusal>
    ensures ok { IfOk result (λ c. c ≡ hoisted.result_of first ty form) }
    ensures err { IfErr result (λ e. e ≡ Memory) }
{
    let place = place_behind(first, form.hidden.as_slice());
    let hidden = put_behind(form.hidden, ty)?;
    let call = Call {
        form: form.value,
        result: Some(place),
    };
    let calls = put_behind(form.calls, call)?;
    let value = expr_of(alloc, ExprForm::Local { up: 0, place, ty })?;
    Ok(Hoisted {
        hidden,
        calls,
        value,
    })
}

/// What a call gives, in a hidden variable of its statement; an operator is a value by itself.
pub fn as_value(alloc: Global, around: &Around, at: Place, called: Called) -> Result<Typed, Refusal>
    ensures ok { IfOk result (λ t. t ≡ calls.as_value (around_in around.now) at called) }
    ensures err { IfErr result (λ e. e ≡ Memory) }
{
    match called {
        Called::Call(form, ty) => {
            let data = around.numbers.data_of(&ty);
            let code = result_of(alloc, around.first, data, form)?;
            Ok(value_typed(alloc, ty, at, false, code))
        }
        Called::Operator(t) => Ok(t),
    }
}
