// What the statements of subroutines see, and what `return` gives in them (IEEE 1800-2017, 8.10, 12.8, 13.3 and 13.4.1).
ghost use Rattle.std.specs.Prelude.{◌≡◌, IfOk};
ghost use Rattle.sv_tree.specs.UnitView.{head as head_in};
ghost use Rattle.sv_names.specs.Entries as entries;
ghost use Rattle.sv_names.specs.Subroutines as subroutines;
ghost use Rattle.sv_elab_declare.specs.Alone.{class_in as class_path};
ghost use Rattle.sv_elab_met.specs.Met as met;

use std::alloc::Global;
use sv_elab_declare::{is_automatic, is_constructor};
use sv_elab_subroutine::function_scope;
use sv_names::{Callee, Checked, Returns as Returned, Scope, Ty, copy_path};
use sv_tree::{Head, Qualifiers, Returns};
use sv_value::{NoMemory, Text};

/// Whether a head gives a result: that of a constructor gives none.
pub(crate) fn has_result(of: &Head) -> bool
    ensures { result ≡ entries.has_result (head_in of.now) }
{
    match &of.returns {
        Returns::Value(_) => !is_constructor(of),
        _ => false,
    }
}

/// Whether a subroutine is automatic, where those of its unit usually are or not: methods always are (8.6 and 13.4.2).
pub(crate) fn is_automatic_routine(usual: bool, class: Option<&[Text]>, of: &Head) -> bool
    ensures { result ≡ entries.subroutine_is_automatic usual (class_path class.entry) (head_in of.now) }
{
    match class {
        Some(_) => true,
        None => is_automatic(usual, of.life),
    }
}

/// Whether a subroutine with these words before it has an object at hand.
pub(crate) fn has_object(words: Qualifiers, of: &Head) -> bool
    ensures { result ≡ met.has_object words (head_in of.now) }
{
    !(words.is_static && !is_constructor(of))
}

/// A type that may break a rule, in memory of its own.
fn copy_type(alloc: Global, ty: &Checked<Ty>) -> Result<Checked<Ty>, NoMemory>
    ensures { IfOk result (λ t. t ≡ ty.now) }
{
    match ty {
        Checked::Good(ty) => {
            let ty = ty.copy(alloc)?;
            Ok(Checked::Good(ty))
        }
        Checked::Broken(f) => Ok(Checked::Broken(*f)),
    }
}

/// What `return` is to give in a subroutine, with a result or without one.
pub(crate) fn returns_of(alloc: Global, has_result: bool, of: &Callee) -> Result<Returned, NoMemory>
    ensures { IfOk result (λ r. r ≡ subroutines.returns_of has_result of.now) }
{
    if !has_result {
        return Ok(Returned::NoValue);
    }
    let path = copy_path(alloc, of.path.as_slice())?;
    let ty = copy_type(alloc, &of.result)?;
    Ok(Returned::SomeValue(path, ty))
}

/// What the statements of a subroutine see: a function with a result knows its own name.
pub(crate) fn body_scope(
    alloc: Global,
    scope: Scope,
    callee: Callee,
    is_automatic: bool,
    has_result: bool,
) -> Result<Scope, NoMemory>
    ensures { IfOk result (λ s. s ≡ subroutines.body_scope scope callee is_automatic has_result) }
{
    if has_result {
        function_scope(alloc, scope, is_automatic, callee)
    } else {
        Ok(scope)
    }
}
