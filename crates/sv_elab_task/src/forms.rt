// The statements that calls are (IEEE 1800-2017, 13.4.1).
ghost use Rattle.std.specs.Prelude.{◌≡◌, IfOk, IfErr};
ghost use Rattle.sv_names.specs.declared.checked.Checked.{Checked as checked};
ghost use Rattle.sv_names.specs.declared.method.Called.{Called as called_of};
ghost use Rattle.sv_names.specs.declared.refusal.Refusal.TheVariants.{Memory};
ghost use Rattle.sv_names.specs.declared.typed.Typed.{Typed as typed};
ghost use Rattle.sv_names.specs.Checked.{given};
ghost use Rattle.sv_names.specs.Events as events;
ghost use Rattle.sv_names.specs.Given.{Gives};
ghost use Rattle.sv_elab_task.specs.Forms as forms;

use std::alloc::Global;
use sv_elab_expr::sv_elab_value::alone;
use sv_flat::{Call, CallForm, Form};
use sv_names::{Called, Hoisted, Refusal, Typed};

/// A value that is dropped.
fn evaluated(alloc: Global, t: Typed) -> Result<Hoisted<Form>, Refusal>
    ensures ok { IfOk result (λ f. f ≡ events.evaluated t) }
    ensures err { IfErr result (λ e. e ≡ Memory) }
{
    let code = alone(alloc, t)?;
    Ok(Hoisted {
        hidden: code.hidden,
        calls: code.calls,
        value: Form::Evaluate { value: code.value },
    })
}

/// A value that is dropped, where it breaks no rule.
pub fn dropped(alloc: Global, value: Result<Typed, Refusal>) -> Result<Hoisted<Form>, Refusal>
    ensures { (x : checked typed) → Gives value x → Gives result (given events.evaluated x) }
{
    match value {
        Ok(t) => {
            let form = evaluated(alloc, t)?;
            Ok(form)
        }
        Err(e) => Err(e),
    }
}

/// A call whose result is dropped.
fn bare(form: Hoisted<CallForm>) -> Hoisted<Form>
    ensures { result ≡ forms.bare form }
{
    Hoisted {
        hidden: form.hidden,
        calls: form.calls,
        value: Form::Call(Call {
            form: form.value,
            result: None,
        }),
    }
}

/// A call, or an operator whose value is dropped.
fn statement(alloc: Global, called: Called) -> Result<Hoisted<Form>, Refusal>
    ensures ok { IfOk result (λ f. f ≡ events.call_statement called) }
    ensures err { IfErr result (λ e. e ≡ Memory) }
{
    match called {
        Called::Call(form, _) => Ok(bare(form)),
        Called::Operator(t) => evaluated(alloc, t),
    }
}

/// The same, where it breaks no rule.
pub fn call_form(alloc: Global, called: Result<Called, Refusal>) -> Result<Hoisted<Form>, Refusal>
    ensures { (x : checked called_of) → Gives called x → Gives result (given events.call_statement x) }
{
    match called {
        Ok(called) => {
            let form = statement(alloc, called)?;
            Ok(form)
        }
        Err(e) => Err(e),
    }
}
