// The living children and the living descendants of a process (IEEE 1800-2017, 9.6.1 and 9.6.3).
ghost use Rattle.std.specs.Prelude.{◌≡◌, Some, length, slice_get};
ghost use Rattle.sv_flat.specs.Effects.Ends.{is_running};
ghost use Rattle.sv_fork.specs.Tree.{descendants_in, descends_in, is_living_child, is_living_descendant, living_children_in, parent_of, IsTree};
ghost use Rattle.sv_fork.specs.Living.{ListsLiving};

use crate::member::Member;
use crate::members::{is_over_in, parent_of};
use sv_value::ProcessId;

/// Whether one process is the parent of another one.
fn is_child(members: &[Member], process: ProcessId, child: ProcessId) -> bool
    ensures { result ≡ is_running (parent_of (slice_get members.now child.0)) process }
{
    match parent_of(members, child) {
        Some(parent) => parent.0 == process.0,
        None => false,
    }
}

/// Whether a process is a living child of another one.
fn is_living_child(members: &[Member], process: ProcessId, child: ProcessId) -> bool
    ensures { result ≡ is_living_child members.now process child }
{
    match members.get(child.0 as usize) {
        Some(_) => is_child(members, process, child) && !is_over_in(members, child),
        None => false,
    }
}

/// The living children of a process, by number.
pub(crate) fn living_children_of(
    members: &[Member],
    candidates: Vec<ProcessId>,
    process: ProcessId,
) -> Vec<ProcessId>
    requires { ListsLiving members.now candidates.items }
    ensures { result.items ≡ living_children_in members.now process }
{
    let mut children = candidates;
    children.retain(|child| is_living_child(members, process, *child));
    children
}

/// Whether one process descends from another one, which is then met on the way up from it.
fn descends(members: &[Member], one: ProcessId, process: ProcessId) -> bool
    requires { IsTree members.now }
    ensures { result ≡ descends_in (length members.now) members.now (Some one) process }
{
    let mut below = one;
    while below.0 > process.0 {
        let Some(parent) = parent_of(members, below) else {
            return false;
        };
        if parent.0 == process.0 {
            return true;
        }
        below = parent;
    }
    false
}

/// Whether a process is a living descendant of another one.
fn is_living_descendant(members: &[Member], process: ProcessId, one: ProcessId) -> bool
    requires { IsTree members.now }
    ensures { result ≡ is_living_descendant members.now process one }
{
    match members.get(one.0 as usize) {
        Some(_) => descends(members, one, process) && !is_over_in(members, one),
        None => false,
    }
}

/// The living descendants of a process, by number.
pub(crate) fn descendants_of(
    members: &[Member],
    candidates: Vec<ProcessId>,
    process: ProcessId,
) -> Vec<ProcessId>
    requires tree { IsTree members.now }
    requires living { ListsLiving members.now candidates.items }
    ensures { result.items ≡ descendants_in members.now process }
{
    let mut descendants = candidates;
    descendants.retain(|one| is_living_descendant(members, process, *one));
    descendants
}
