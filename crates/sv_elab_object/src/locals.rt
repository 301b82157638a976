// The variables of the activation of a scope (IEEE 1800-2017, 6.21 and 7.4).
ghost use Rattle.std.specs.Prelude.{◌≡◌, ◌++◌, replicate, IfOk, IfErr, OnOk};
ghost use Rattle.sv_names.specs.declared.refusal.Refusal.TheVariants.{Memory};
ghost use Rattle.sv_names.specs.Code as code;
ghost use Rattle.sv_names.specs.Types as types;
ghost use Rattle.sv_names.specs.Views.{around_in};
ghost use Rattle.sv_elab_object.specs.Locals as locals_by;

use std::alloc::Global;
use sv_flat::Declared;
use sv_names::{Around, Checked, Known, Named, Refusal, ResultVariable, Scope, Ty};
use sv_value::{NoMemory, Place, Seq};

/// Appends so many copies of a variable.
#[tactic(auto, using(crate::proofs::LocalLaws::copies_none, crate::proofs::LocalLaws::copies_more))]
fn add_copies(variable: Declared, count: u32, locals: &mut Seq<Declared>) -> Result<(), NoMemory>
    ensures { OnOk result (locals.new ≡ locals.old ++ replicate count variable) }
{
    for _made in 0..count {
        locals.push(variable)?;
    }
    Ok(())
}

/// Appends the variables for a name of a type: one, or one for each element of a fixed array.
#[tactic(auto, using(crate::proofs::LocalLaws::size_told))]
fn add_variables(
    around: &Around,
    at: Place,
    ty: &Ty,
    locals: &mut Seq<Declared>,
) -> Result<(), NoMemory>
    ensures { OnOk result (locals.new ≡ locals.old
        ++ replicate (types.size_of_type ty.now) (record { at = at; ty = types.data_of (around_in around.now).numbers ty.now })) }
{
    let count = ty.size();
    if count == u32::MAX {
        return Err(NoMemory::Memory);
    }
    let variable = Declared {
        at,
        ty: around.numbers.data_of(ty),
    };
    add_copies(variable, count, locals)
}

/// Appends the variables for what a name stands for.
fn add_named(
    around: &Around,
    at: Place,
    named: &Named,
    locals: &mut Seq<Declared>,
) -> Result<(), NoMemory>
    ensures { OnOk result (locals.new ≡ locals.old ++ code.declared_of (around_in around.now).numbers at named.now) }
{
    match named {
        Named::Local { ty, .. } => add_variables(around, at, ty, locals),
        Named::Itself(_, variable) => add_result(around, at, variable, locals),
        _ => Ok(()),
    }
}

/// Appends the variables for the result of a function.
fn add_result(
    around: &Around,
    at: Place,
    variable: &ResultVariable,
    locals: &mut Seq<Declared>,
) -> Result<(), NoMemory>
    ensures { OnOk result (locals.new ≡ locals.old ++ locals_by.of_result (around_in around.now).numbers at variable.now) }
{
    match variable {
        ResultVariable::Local { ty, .. } => add_variables(around, at, ty, locals),
        ResultVariable::Object(_, _) => Ok(()),
    }
}

/// Appends the variables for a declaration.
fn add_known(around: &Around, known: &Known, locals: &mut Seq<Declared>) -> Result<(), NoMemory>
    ensures { OnOk result (locals.new ≡ locals.old ++ code.declared_known (around_in around.now).numbers known.now) }
{
    match &known.value {
        Checked::Good(named) => add_named(around, known.name.at, named, locals),
        Checked::Broken(_) => Ok(()),
    }
}

/// The variables of the activation of a scope.
pub fn locals_of(alloc: Global, scope: &Scope, around: &Around) -> Result<Seq<Declared>, Refusal>
    ensures ok { IfOk result (λ locals. locals ≡ code.locals_of (around_in around.now).numbers scope.now) }
    ensures err { IfErr result (λ e. e ≡ Memory) }
{
    let mut locals = Seq::new(alloc);
    for known in scope.known.as_slice() {
        add_known(around, known, &mut locals)?;
    }
    Ok(locals)
}
