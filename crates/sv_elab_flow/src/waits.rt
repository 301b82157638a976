// Statements that wait, and `->` (IEEE 1800-2017, 9.4.3 and 15.5.1): E15, E42.
ghost use Rattle.std.specs.Prelude.{◌≡◌};
ghost use Rattle.sv_flat.specs.declared.stmt.Form.TheVariants as form;
ghost use Rattle.sv_flat.specs.Expr as flat;
ghost use Rattle.sv_names.specs.declared.checked.Checked.{Checked as checked};
ghost use Rattle.sv_names.specs.declared.hoisted.Hoisted.{Hoisted as hoisted};
ghost use Rattle.sv_names.specs.Checked.{given};
ghost use Rattle.sv_names.specs.Given.{Gives};
ghost use Rattle.sv_names.specs.Hoisted.{mapped};
ghost use Rattle.sv_names.specs.Statements as statements;

use sv_elab_value::{code_of, one_item};
use sv_flat::{Expr, Form};
use sv_names::{Hoisted, Refusal, Typed};
use sv_value::Place;

/// `wait (e)`, over its condition (9.4.3).
pub fn wait_form(test: Result<Hoisted<Expr>, Refusal>) -> Result<Hoisted<Form>, Refusal>
    ensures { (x : checked (hoisted flat.Expr)) → Gives test x → Gives result (given (mapped form.Wait) x) }
{
    match test {
        Ok(test) => Ok(Hoisted {
            hidden: test.hidden,
            calls: test.calls,
            value: Form::Wait {
                condition: test.value,
            },
        }),
        Err(e) => Err(e),
    }
}

/// The trigger of an event.
fn triggered(event: Hoisted<Expr>) -> Hoisted<Form>
    ensures { result ≡ mapped form.Trigger event }
{
    Hoisted {
        hidden: event.hidden,
        calls: event.calls,
        value: Form::Trigger { event: event.value },
    }
}

/// E15, E42: what `->` triggers is one event (15.5.1).
pub fn trigger_form(at: Place, t: Typed) -> Result<Hoisted<Form>, Refusal>
    ensures { Gives result (statements.trigger_form at t) }
{
    let event = one_item(t)?;
    if event.ty.is_event() {
        Ok(triggered(code_of(event)))
    } else {
        Err(Refusal::Rule { rule: 15, at })
    }
}
