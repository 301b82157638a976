// What the statements of subroutines see, and what `return` gives in them (IEEE 1800-2017, 8.7, 8.11, 12.8 and 13.4.1).
ghost use Rattle.std.specs.Prelude.{◌≡◌, IfOk};
ghost use Rattle.sv_tree.specs.UnitView.{head as head_in};
ghost use Rattle.sv_names.specs.Entries as entries;
ghost use Rattle.sv_names.specs.Subroutines as subroutines;
ghost use Rattle.sv_elab_before.specs.Scopes as words;

use std::alloc::Global;
use sv_elab_declare::{is_constructor, this_name};
use sv_elab_subroutine::function_scope;
use sv_names::{
    Callee, Checked, Declarations, Kind, Known, Named, Path, Returns as Returned, Scope, Ty,
    copy_path,
};
use sv_tree::{Head, Returns};
use sv_value::{NoMemory, Place, Seq, Text};

// ---- results

/// Whether a head gives a result: that of a constructor gives none.
pub fn has_result(of: &Head) -> bool
    ensures { result ≡ entries.has_result (head_in of.now) }
{
    match &of.returns {
        Returns::Value(_) => !is_constructor(of),
        _ => false,
    }
}

/// A type that may break a rule, in memory of its own.
fn copy_type(alloc: Global, ty: &Checked<Ty>) -> Result<Checked<Ty>, NoMemory>
    ensures { IfOk result (λ t. t ≡ ty.now) }
{
    match ty {
        Checked::Good(ty) => {
            let ty = ty.copy(alloc)?;
            Ok(Checked::Good(ty))
        }
        Checked::Broken(f) => Ok(Checked::Broken(*f)),
    }
}

/// What `return` is to give in a subroutine, with a result or without one.
pub fn returns_of(alloc: Global, has_result: bool, of: &Callee) -> Result<Returned, NoMemory>
    ensures { IfOk result (λ r. r ≡ subroutines.returns_of has_result of.now) }
{
    if !has_result {
        return Ok(Returned::NoValue);
    }
    let path = copy_path(alloc, of.path.as_slice())?;
    let ty = copy_type(alloc, &of.result)?;
    Ok(Returned::SomeValue(path, ty))
}

// ---- scopes

/// What the statements of a subroutine see: a function with a result knows its own name.
pub fn body_scope(
    alloc: Global,
    scope: Scope,
    callee: Callee,
    is_automatic: bool,
    has_result: bool,
) -> Result<Scope, NoMemory>
    ensures { IfOk result (λ s. s ≡ subroutines.body_scope scope callee is_automatic has_result) }
{
    if has_result {
        function_scope(alloc, scope, is_automatic, callee)
    } else {
        Ok(scope)
    }
}

/// The path of the constructor of a class.
pub fn constructor_path(alloc: Global, class: &[Text]) -> Result<Path, NoMemory>
    ensures { IfOk result (λ p. p ≡ subroutines.constructor_path class.now) }
{
    let mut whole = copy_path(alloc, class)?;
    let mut text = Text::new(alloc);
    text.push_all(b"new")?;
    whole.push(text)?;
    Ok(whole)
}

/// The object of a constructor, by its name.
fn this_known(alloc: Global, class: &[Text], at: Place) -> Result<Known, NoMemory>
    ensures { IfOk result (λ k. k ≡ words.this_known class.now at) }
{
    let name = this_name(alloc, at)?;
    let ty = Ty::Class(copy_path(alloc, class)?);
    Ok(Known {
        name,
        kind: Kind::Object,
        value: Checked::Good(Named::Local {
            up: 0,
            place: 0,
            ty,
        }),
    })
}

/// The scope of the constructor of a class that knows the object alone, with the place of its name.
pub fn this_scope(alloc: Global, class: &[Text], at: Place) -> Result<Scope, NoMemory>
    ensures { IfOk result (λ s. s ≡ subroutines.this_scope (subroutines.constructor_path class.now) class.now at) }
{
    let mut list = Seq::new(alloc);
    list.push(this_known(alloc, class, at)?)?;
    let known = Declarations::new(alloc, list)?;
    let path = constructor_path(alloc, class)?;
    let class = copy_path(alloc, class)?;
    Ok(Scope {
        path,
        class: Some(class),
        enters: true,
        known,
    })
}
