// What is called, what it takes and what it gives (IEEE 1800-2017, 7.9 and 7.10).
ghost use Rattle.std.specs.Prelude.{◌≡◌, IfOk, IfErr};
ghost use Rattle.sv_names.specs.declared.method.Called.TheVariants as called;
ghost use Rattle.sv_names.specs.declared.refusal.Refusal.TheVariants.{Memory};
ghost use Rattle.sv_names.specs.Arguments as arguments;
ghost use Rattle.sv_names.specs.Checked.{◌▷◌};
ghost use Rattle.sv_names.specs.Given.{Gives};
ghost use Rattle.sv_names.specs.Methods as methods;
ghost use Rattle.sv_names.specs.Types as types;
ghost use Rattle.sv_names.specs.Values as values;
ghost use Rattle.sv_names.specs.Views.{around_in};
ghost use Rattle.sv_elab_method.specs.Steps as steps;

use std::alloc::Global;
use sv_elab_value::{exactly, pure, value_typed};
use sv_flat::{CallForm, Expr};
use sv_names::{Arg, Around, Called, Hoisted, Outcome, Refusal, Ty, int_type};
use sv_value::{Place, RoutineId, Seq};

// ---- what a method takes

/// The first argument, where there is one.
pub(crate) fn first_argument(args: Seq<Arg>) -> Option<Arg>
    ensures { result ≡ steps.first_argument args }
{
    args.into_vec().into_iter().next()
}

/// E16, E17, E42: an argument as a value of exactly a type.
pub(crate) fn exact_argument(
    alloc: Global,
    around: &Around,
    ty: &Ty,
    arg: Arg,
) -> Result<Hoisted<Expr>, Refusal>
    ensures { Gives result (arguments.value_of_arg arg ▷ values.exactly (around_in around.now) ty.now arg.at) }
{
    let at = arg.at;
    match arg.into_value() {
        Ok(value) => exactly(alloc, around, ty, at, value),
        Err(e) => Err(e),
    }
}

/// The type of the keys of an associative array, or of an index.
pub(crate) fn key_of(alloc: Global, ty: &Ty) -> Result<Ty, Refusal>
    ensures ok { IfOk result (λ t. t ≡ types.key_of ty.now) }
    ensures err { IfErr result (λ e. e ≡ Memory) }
{
    match ty {
        Ty::Assoc(key, _) => {
            let key = key.get().as_type(alloc)?;
            Ok(key)
        }
        _ => Ok(int_type()),
    }
}

// ---- what it gives

/// The type of what a method gives.
pub(crate) fn type_given(alloc: Global, gives: &Outcome) -> Result<Ty, Refusal>
    ensures ok { IfOk result (λ t. t ≡ methods.type_given gives.now) }
    ensures err { IfErr result (λ e. e ≡ Memory) }
{
    match gives {
        Outcome::Value(ty) => {
            let ty = ty.copy(alloc)?;
            Ok(ty)
        }
        _ => Ok(Ty::Nothing),
    }
}

/// An operator, which gives a value of a type.
pub(crate) fn operator(
    alloc: Global,
    at: Place,
    ty: Ty,
    is_constant: bool,
    code: Hoisted<Expr>,
) -> Called
    ensures { result ≡ called.Operator (values.value_typed ty at is_constant code) }
{
    Called::Operator(value_typed(alloc, ty, at, is_constant, code))
}

/// What a method without its argument stands for. How many there are is judged before.
pub(crate) fn without_argument(alloc: Global) -> Called
    ensures { result ≡ steps.without_argument }
{
    let form = CallForm::Routine {
        routine: RoutineId(0),
        through: None,
        arguments: Seq::new(alloc),
    };
    Called::Call(pure(alloc, form), Ty::Nothing)
}
