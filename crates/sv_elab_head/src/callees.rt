// The heads of subroutines, over their scopes (IEEE 1800-2017, 8.10, 8.18, 8.20, 8.21 and 13).
ghost use Rattle.std.specs.Prelude.{◌≡◌, IfOk};
ghost use Rattle.sv_names.specs.Entries as entries;
ghost use Rattle.sv_names.specs.Scopes as scopes;
ghost use Rattle.sv_names.specs.Views.{around_in};
ghost use Rattle.sv_elab_declare.specs.Alone.{class_in as class_path};
ghost use Rattle.sv_elab_head.specs.Headings as headings;

use crate::formals::formals_of;
use crate::results::{is_task, result_within};
use std::alloc::Global;
use sv_elab_declare::is_constructor;
use sv_elab_signal::{among, share_name};
use sv_names::{Around, Callee, Path, Protection, Scope, class_in, copy_path};
use sv_tree::{Head, Qualifiers};
use sv_value::{NoMemory, Text};

/// A subroutine without its body.
#[derive(Clone, Copy)]
pub struct Heading<'a> {
    /// The class of a method.
    pub class: Option<&'a [Text]>,
    /// The words before a method; none of them of a subroutine that is no method.
    pub qualifiers: Qualifiers,
    /// Whether it has a head alone (8.21).
    pub is_pure: bool,
    /// What is written.
    pub head: &'a Head,
}

/// Who may name a member with these words before it (8.18).
fn protection_of(words: Qualifiers) -> Protection
    ensures { result ≡ entries.protection_of words }
{
    if words.is_local {
        Protection::Local
    } else if words.is_protected {
        Protection::Protected
    } else {
        Protection::Open
    }
}

/// Whether a method belongs to the class and to no object of it (8.10).
fn is_static(of: &Heading) -> bool
    ensures { result ≡ entries.is_static_method (headings.method_of of.now) }
{
    of.qualifiers.is_static && !is_constructor(of.head)
}

/// Whether a method is virtual, by itself or by one that it overrides (8.20).
fn has_slot(around: &Around, class: Option<&[Text]>, name: &[u8]) -> bool
    ensures { result ≡ scopes.has_slot (around_in around.now) (class_path class.entry) name.now }
{
    let Some(class) = class else {
        return false;
    };
    match class_in(around.classes, class) {
        None => false,
        Some(info) => among(name, info.slots.as_slice()),
    }
}

/// The same class, in memory of its own.
fn copy_class(alloc: Global, class: Option<&[Text]>) -> Result<Option<Path>, NoMemory>
    ensures { IfOk result (λ k. k ≡ class_path class.entry) }
{
    match class {
        Some(path) => {
            let copy = copy_path(alloc, path)?;
            Ok(Some(copy))
        }
        None => Ok(None),
    }
}

/// The head of a subroutine over its scope: its arguments and its result have the types that stand for what is written there.
pub fn callee_within(
    alloc: Global,
    around: &Around,
    scope: &Scope,
    of: &Heading,
) -> Result<Callee, NoMemory>
    ensures { IfOk result (λ c. c ≡ headings.callee_within (around_in around.now) scope.now of.now) }
{
    let formals = formals_of(alloc, around, scope, of.head)?;
    let result = result_within(alloc, around, scope, of.head)?;
    let class = copy_class(alloc, of.class)?;
    let path = copy_path(alloc, scope.path.as_slice())?;
    let name = share_name(&of.head.name)?;
    Ok(Callee {
        name,
        path,
        is_task: is_task(of.head),
        result,
        formals,
        class,
        is_static: is_static(of),
        is_virtual: has_slot(around, of.class, of.head.name.text.bytes()),
        is_pure: of.is_pure,
        protection: protection_of(of.qualifiers),
    })
}
