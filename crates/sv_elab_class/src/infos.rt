// The classes of a unit before anything of them is settled (IEEE 1800-2017, 8.4 and 8.13).
ghost use Rattle.std.specs.Prelude.{◌≡◌, false, map, IfOk};
ghost use Rattle.sv_names.specs.Scopes as scopes;
ghost use Rattle.sv_elab_declare.specs.Alone.{class_in as class_path};
ghost use Rattle.sv_elab_scope.specs.Rows.{group_in};
ghost use Rattle.sv_elab_scope.specs.Starting as starting;
ghost use Rattle.sv_elab_class.specs.Heads.{head_in};
ghost use Rattle.sv_elab_class.specs.Infos as infos;

use crate::heads::ClassHead;
use crate::lines::{base_fault, base_of};
use crate::slots::slots_of;
use std::alloc::Global;
use sv_elab_scope::{Entry, Group, all_waiting};
use sv_names::{ClassInfo, Path, Scope, copy_path};
use sv_tree::Name;
use sv_value::{NoMemory, Seq, Text};

/// The same name.
fn share_name(name: &Name) -> Result<Name, NoMemory>
    ensures { IfOk result (λ n. n ≡ name.now) }
{
    let text = name.text.share()?;
    Ok(Name { at: name.at, text })
}

/// A path that may be left out, in memory of its own.
fn copy_optional(alloc: Global, path: Option<&[Text]>) -> Result<Option<Path>, NoMemory>
    ensures { IfOk result (λ p. p ≡ class_path path.entry) }
{
    match path {
        None => Ok(None),
        Some(path) => {
            let copy = copy_path(alloc, path)?;
            Ok(Some(copy))
        }
    }
}

/// A scope all of whose declarations wait.
fn waiting_scope(
    alloc: Global,
    path: &[Text],
    class: Option<&[Text]>,
    names: &[Entry],
) -> Result<Scope, NoMemory>
    ensures { IfOk result (λ s. s ≡ scopes.scope_of path.now (class_path class.entry) false (starting.all_waiting names.now)) }
{
    let path = copy_path(alloc, path)?;
    let class = copy_optional(alloc, class)?;
    let known = all_waiting(alloc, names)?;
    Ok(Scope {
        path,
        class,
        enters: false,
        known,
    })
}

/// A class all of whose members wait.
#[tactic(auto, using(crate::proofs::LineLaws::as_many))]
fn waiting_class(
    alloc: Global,
    outer: &[&ClassInfo],
    heads: &[ClassHead],
    head: &ClassHead,
    members: &[Entry],
) -> Result<ClassInfo, NoMemory>
    ensures { IfOk result (λ k. k ≡ infos.info_over (map (λ k. k.now) outer.now) (map head_in heads.now) (head_in head.now)
        (starting.all_waiting members.now)) }
{
    let own = head.path.as_slice();
    let path = copy_path(alloc, own)?;
    let name = share_name(&head.tree.name)?;
    let base = copy_optional(alloc, base_of(heads, head))?;
    let most = heads.len() as u128 + 1;
    let slots = slots_of(alloc, most, outer, heads, Some(own))?;
    let scope = waiting_scope(alloc, own, Some(own), members)?;
    Ok(ClassInfo {
        path,
        name,
        is_virtual: head.tree.is_virtual,
        base,
        base_fault: base_fault(heads, head),
        scope,
        slots,
    })
}

/// Classes all of whose members wait.
fn infos_waiting(
    alloc: Global,
    outer: &[&ClassInfo],
    heads: &[ClassHead],
    lists: &[Seq<Entry>],
) -> Result<Seq<ClassInfo>, NoMemory>
    ensures { IfOk result (λ ks. ks
        ≡ infos.infos_waiting (map (λ k. k.now) outer.now) (map head_in heads.now) (map head_in heads.now) lists.now) }
{
    let mut infos = Seq::new(alloc);
    let mut members = lists;
    for head in heads {
        let [first, more @ ..] = members else {
            return Ok(infos);
        };
        let class = waiting_class(alloc, outer, heads, head, first.as_slice())?;
        infos.push(class)?;
        members = more;
    }
    Ok(infos)
}

/// The scope of a unit with its classes, where all waits; the lists are those of the scope itself and then of each class.
pub fn group_waiting(
    alloc: Global,
    outer: &[&ClassInfo],
    path: &[Text],
    heads: &[ClassHead],
    lists: &[Seq<Entry>],
) -> Result<Group, NoMemory>
    ensures { IfOk result (λ g. group_in g
        ≡ infos.group_waiting (map (λ k. k.now) outer.now) path.now (map head_in heads.now) lists.now) }
{
    match lists {
        [] => {
            let scope = waiting_scope(alloc, path, None, &[])?;
            Ok(Group {
                scope,
                classes: Seq::new(alloc),
            })
        }
        [own, members @ ..] => {
            let scope = waiting_scope(alloc, path, None, own.as_slice())?;
            let classes = infos_waiting(alloc, outer, heads, members)?;
            Ok(Group { scope, classes })
        }
    }
}
