// A scope that stands alone, as that of a block or of a subroutine, with all that it declares (IEEE 1800-2017, 23.9).
ghost use Rattle.std.specs.Prelude.{◌≡◌, map, IfOk};
ghost use Rattle.sv_names.specs.Scopes as scopes;
ghost use Rattle.sv_names.specs.Views.{around_in};
ghost use Rattle.sv_elab_scope.specs.Rows.{group_in};
ghost use Rattle.sv_elab_scope.specs.Starting as starting;
ghost use Rattle.sv_elab_scope.specs.Views.{entry_in, declared_in};
ghost use Rattle.sv_elab_declare.specs.Alone.{alone, group_alone, class_in, some_in_activation};

use std::alloc::Global;
use sv_elab_scope::{
    Declared, Entry, Group, Means, Storage, all_waiting, first_settled, settled,
    without_announcements,
};
use sv_names::{Around, Path, Scope, copy_path};
use sv_value::{NoMemory, Seq, Text};

/// Whether a declaration is a variable of an activation.
fn is_in_activation(of: &Declared) -> bool
    ensures { result ≡ scopes.is_in_activation (declared_in of.now) }
{
    match of {
        Declared::Variable { held, .. } => matches!(held, Storage::Activation),
        Declared::Argument(_, is_automatic) => *is_automatic,
        Declared::Given(_) => true,
        Declared::ObjectOf(_) => true,
        _ => false,
    }
}

/// Whether one of these declarations is a variable of an activation.
fn some_in_activation(names: &[Entry]) -> bool
    ensures { result ≡ some_in_activation names.now }
{
    for one in names {
        if is_in_activation(&one.what) {
            return true;
        }
    }
    false
}

/// Whether a scope with these declarations makes an activation when it is entered (6.21).
#[tactic(auto, using(crate::proofs::AloneLaws::activation_made))]
pub fn makes_activation(names: &[Entry]) -> bool
    ensures { result ≡ scopes.makes_activation (map entry_in names.now) }
{
    some_in_activation(names)
}

/// What a scope is besides its declarations.
#[derive(Clone, Copy)]
pub struct ScopeHead<'a> {
    /// Its name from the root.
    pub path: &'a [Text],
    /// The class of a method.
    pub class: Option<&'a [Text]>,
    /// Whether entering it makes an activation.
    pub enters: bool,
}

/// The same class, in memory of its own.
fn copy_class(alloc: Global, class: Option<&[Text]>) -> Result<Option<Path>, NoMemory>
    ensures { IfOk result (λ k. k ≡ class_in class.entry) }
{
    match class {
        Some(path) => {
            let copy = copy_path(alloc, path)?;
            Ok(Some(copy))
        }
        None => Ok(None),
    }
}

/// A scope all of whose declarations wait, as a group without classes.
fn waiting_alone(alloc: Global, head: &ScopeHead, names: &[Entry]) -> Result<Group, NoMemory>
    ensures { IfOk result (λ g. group_in g ≡ group_alone head.now (starting.all_waiting names.now)) }
{
    let path = copy_path(alloc, head.path)?;
    let class = copy_class(alloc, head.class)?;
    let known = all_waiting(alloc, names)?;
    let scope = Scope {
        path,
        class,
        enters: head.enters,
        known,
    };
    Ok(Group {
        scope,
        classes: Seq::new(alloc),
    })
}

/// A scope with all that it declares, where each declaration stands for what the definition says of it by itself.
pub fn settled_scope<M: Means>(
    alloc: Global,
    around: &Around,
    head: &ScopeHead,
    names: Seq<Entry>,
) -> Result<Scope, NoMemory>
    ensures { M.meant ≡ alone → IfOk result (λ s. s
        ≡ scopes.settled_scope (around_in around.now) head.now.path.now (class_in head.now.class) head.now.enters (map entry_in names.entry)) }
{
    let kept = without_announcements(alloc, names)?;
    let group = waiting_alone(alloc, head, kept.as_slice())?;
    let mut lists = Seq::new(alloc);
    lists.push(kept)?;
    let group = settled::<M>(alloc, around, head.path, lists.as_slice(), group)?;
    let Group { scope, classes: _ } = group;
    Ok(scope)
}

/// A scope with what is known of its declarations after the rounds, where what is around it may still wait.
pub fn first_scope<M: Means>(
    alloc: Global,
    around: &Around,
    head: &ScopeHead,
    names: Seq<Entry>,
) -> Result<Scope, NoMemory>
    ensures { M.meant ≡ alone → IfOk result (λ s. s
        ≡ scopes.first_scope (around_in around.now) head.now.path.now (class_in head.now.class) head.now.enters (map entry_in names.entry)) }
{
    let kept = without_announcements(alloc, names)?;
    let group = waiting_alone(alloc, head, kept.as_slice())?;
    let mut lists = Seq::new(alloc);
    lists.push(kept)?;
    let group = first_settled::<M>(alloc, around, head.path, lists.as_slice(), group)?;
    let Group { scope, classes: _ } = group;
    Ok(scope)
}
