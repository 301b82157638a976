// What the statements of a function see: its own name, which stands for its result variable (IEEE 1800-2017, 13.4.1).
ghost use Rattle.std.specs.Prelude.{◌≡◌, IfOk};
ghost use Rattle.sv_names.specs.Declarations as declarations;
ghost use Rattle.sv_names.specs.Subroutines as subroutines;
ghost use Rattle.sv_elab_subroutine.specs.Bodies as words;

use std::alloc::Global;
use sv_names::{
    Apart, Callee, Checked, Kind, Known, Named, Path, ResultVariable, Scope, Ty, copy_path,
};
use sv_tree::Name;
use sv_value::{NoMemory, Text};

/// The path of the result variable, which is neither that of a variable nor that of a block.
fn result_path(alloc: Global, path: &[Text]) -> Result<Path, NoMemory>
    ensures { IfOk result (λ p. p ≡ subroutines.result_path path.now) }
{
    let mut whole = copy_path(alloc, path)?;
    let mut text = Text::new(alloc);
    text.push_all(b"0")?;
    whole.push(text)?;
    Ok(whole)
}

/// The result variable of a function, in the scope with this path.
fn result_variable(
    alloc: Global,
    path: &[Text],
    is_automatic: bool,
    ty: Ty,
) -> Result<ResultVariable, NoMemory>
    ensures { IfOk result (λ v. v ≡ declarations.result_of_life is_automatic (subroutines.result_path path.now) ty) }
{
    if is_automatic {
        return Ok(ResultVariable::Local {
            up: 0,
            place: 0,
            ty,
        });
    }
    let path = result_path(alloc, path)?;
    Ok(ResultVariable::Object(path, ty))
}

/// A type that may break a rule, in memory of its own.
fn copy_type(alloc: Global, value: &Checked<Ty>) -> Result<Checked<Ty>, NoMemory>
    ensures { IfOk result (λ t. t ≡ value.now) }
{
    match value {
        Checked::Good(t) => {
            let t = t.copy(alloc)?;
            Ok(Checked::Good(t))
        }
        Checked::Broken(f) => Ok(Checked::Broken(*f)),
    }
}

/// What the name of a function stands for inside it.
fn itself_value(
    alloc: Global,
    path: &[Text],
    is_automatic: bool,
    callee: Callee,
) -> Result<Checked<Named>, NoMemory>
    ensures { IfOk result (λ v. v ≡ words.itself_value path.now is_automatic callee) }
{
    match copy_type(alloc, &callee.result)? {
        Checked::Good(ty) => {
            let variable = result_variable(alloc, path, is_automatic, ty)?;
            let callee = Apart::new(alloc, callee)?;
            Ok(Checked::Good(Named::Itself(callee, variable)))
        }
        Checked::Broken(f) => Ok(Checked::Broken(f)),
    }
}

/// The same name.
fn share_name(name: &Name) -> Result<Name, NoMemory>
    ensures { IfOk result (λ n. n ≡ name.now) }
{
    let text = name.text.share()?;
    Ok(Name { at: name.at, text })
}

/// A function by its own name, in the scope with this path.
fn itself(
    alloc: Global,
    path: &[Text],
    is_automatic: bool,
    callee: Callee,
) -> Result<Known, NoMemory>
    ensures { IfOk result (λ k. k ≡ words.itself path.now is_automatic callee) }
{
    let name = share_name(&callee.name)?;
    let value = itself_value(alloc, path, is_automatic, callee)?;
    Ok(Known {
        name,
        kind: Kind::Object,
        value,
    })
}

/// What the statements of a function with a result see: what its scope declares, and then its own name.
pub fn function_scope(
    alloc: Global,
    scope: Scope,
    is_automatic: bool,
    callee: Callee,
) -> Result<Scope, NoMemory>
    ensures { IfOk result (λ s. s ≡ words.function_scope scope is_automatic callee) }
{
    let Scope {
        path,
        class,
        enters,
        known,
    } = scope;
    let last = itself(alloc, path.as_slice(), is_automatic, callee)?;
    let known = known.with_last(alloc, last)?;
    Ok(Scope {
        path,
        class,
        enters,
        known,
    })
}
