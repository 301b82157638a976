// `return` over its value (IEEE 1800-2017, 12.8): E16, E17, E29, E30, E42.
ghost use Rattle.std.specs.Prelude.{◌≡◌, IfOk, IfErr};
ghost use Rattle.sv_names.specs.declared.refusal.Refusal.TheVariants.{Memory};
ghost use Rattle.sv_names.specs.Given.{Gives};
ghost use Rattle.sv_names.specs.Views.{around_in};
ghost use Rattle.sv_elab_flow.specs.Returned as returned;

use crate::results::result_targets;
use std::alloc::Global;
use sv_elab_value::{assigned, paired, pure};
use sv_flat::{Expr as FlatExpr, Form, Lvalue};
use sv_names::{Around, Checked, Fault, Hoisted, Refusal, Returns, Ty, Typed};
use sv_value::{Place, Seq, Text};

/// The result of a function, in its result variable.
fn result_form(
    targets: Hoisted<Seq<Lvalue>>,
    value: Hoisted<FlatExpr>,
) -> Result<Hoisted<Form>, Refusal>
    ensures ok { IfOk result (λ f. f ≡ returned.result_form targets value) }
    ensures err { IfErr result (λ e. e ≡ Memory) }
{
    let both = paired(targets, value)?;
    let (targets, value) = both.value;
    Ok(Hoisted {
        hidden: both.hidden,
        calls: both.calls,
        value: Form::Return {
            targets,
            value: Some(value),
        },
    })
}

/// E16, E17, E42: a value of the type of the function.
pub fn result_given(
    alloc: Global,
    at: Place,
    function: &[Text],
    to: &Ty,
    place: Place,
    value: Typed,
    around: &Around,
) -> Result<Hoisted<Form>, Refusal>
    ensures { Gives result (returned.result_given (around_in around.now) at function.now to.now place value) }
{
    match assigned(alloc, around, to, place, value) {
        Ok(code) => {
            let targets = result_targets(alloc, at, function, around)?;
            let form = result_form(targets, code)?;
            Ok(form)
        }
        Err(e) => Err(e),
    }
}

/// A type in memory of its own, where it breaks no rule.
pub fn type_of(alloc: Global, ty: &Checked<Ty>) -> Result<Ty, Refusal>
    ensures { Gives result ty.now }
{
    match ty {
        Checked::Good(ty) => {
            let ty = ty.copy(alloc)?;
            Ok(ty)
        }
        Checked::Broken(f) => Err(f.refusal()),
    }
}

/// A rule that `return` breaks beside its value.
pub fn beside(fault: Fault, value: &Checked<Typed>) -> Result<Hoisted<Form>, Refusal>
    ensures { Gives result (returned.beside fault value.now) }
{
    match value {
        Checked::Good(_) => Err(fault.refusal()),
        Checked::Broken(f) => Err(fault.earlier(*f).refusal()),
    }
}

/// `return` without a value.
pub fn bare(alloc: Global, word: Place, returns: &Returns) -> Result<Hoisted<Form>, Refusal>
    ensures { Gives result (returned.bare word returns.now) }
{
    match returns {
        Returns::Outside => Err(Refusal::Rule { rule: 29, at: word }),
        Returns::NoValue => Ok(pure(
            alloc,
            Form::Return {
                targets: Seq::new(alloc),
                value: None,
            },
        )),
        Returns::SomeValue(_, _) => Err(Refusal::Rule { rule: 30, at: word }),
    }
}
