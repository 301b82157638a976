// Which declarations of a group wait (own).
ghost use Rattle.std.specs.Prelude.{◌≡◌, ◌≤◌, ◌∷◌, ◌+◌, IfOk, if◌then◌else◌};
ghost use Rattle.sv_elab_scope.specs.Rows.{group_in, all_known, members_known};
ghost use Rattle.sv_elab_scope.specs.Settling as settling;

use crate::group::Group;
use crate::waiting::does_wait;
use std::alloc::Global;
use sv_names::{ClassInfo, Known};
use sv_value::{NoMemory, Seq};

/// Which declarations of a scope wait.
fn waits_in(alloc: Global, known: &[Known]) -> Result<Seq<bool>, NoMemory>
    ensures { IfOk result (λ ms. ms ≡ settling.waits_in known.now) }
{
    let mut marks = Seq::new(alloc);
    for declaration in known {
        marks.push(does_wait(&declaration.value))?;
    }
    Ok(marks)
}

/// The same of the members of each class, behind those of the scope itself.
fn members_wait(
    alloc: Global,
    own: Seq<bool>,
    classes: &[ClassInfo],
) -> Result<Seq<Seq<bool>>, NoMemory>
    ensures { IfOk result (λ mss. mss ≡ own ∷ settling.marks_in (members_known classes.now)) }
{
    let mut marks = Seq::new(alloc);
    marks.push(own)?;
    for class in classes {
        let members = waits_in(alloc, class.scope.known.as_slice())?;
        marks.push(members)?;
    }
    Ok(marks)
}

/// Which declarations of a group wait: of the scope itself, and of each class.
pub fn marks_of(alloc: Global, group: &Group) -> Result<Seq<Seq<bool>>, NoMemory>
    ensures { IfOk result (λ mss. mss ≡ settling.marks_in (all_known (group_in group.now))) }
{
    let own = waits_in(alloc, group.scope.known.as_slice())?;
    let marks = members_wait(alloc, own, group.classes.as_slice())?;
    Ok(marks)
}

// ---- how many wait

/// One, where it holds.
fn one_if(holds: bool) -> usize
    ensures value { result ≡ (if holds then 1 else 0) }
    ensures most { result ≤ 1 }
{
    if holds { 1 } else { 0 }
}

/// How many declarations of a scope wait.
fn waiting_in(known: &[Known]) -> usize
    ensures { result ≡ settling.waiting_in known.now }
{
    let mut count: usize = 0;
    for declaration in known {
        count += one_if(does_wait(&declaration.value));
    }
    count
}

/// How many members of classes wait, beside so many.
fn waiting_members(count: usize, classes: &[ClassInfo]) -> u128
    ensures { result ≡ count + settling.waiting_lists (members_known classes.now) }
{
    let mut count = count as u128;
    for class in classes {
        count += waiting_in(class.scope.known.as_slice()) as u128;
    }
    count
}

/// How many declarations of a group wait.
pub fn waiting(group: &Group) -> u128
    ensures { result ≡ settling.waiting_lists (all_known (group_in group.now)) }
{
    waiting_members(
        waiting_in(group.scope.known.as_slice()),
        group.classes.as_slice(),
    )
}
