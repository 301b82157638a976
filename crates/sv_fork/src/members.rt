// The processes of a run, as a list (IEEE 1800-2017, 9.3.2 and 9.6.3).
ghost use Rattle.std.specs.Prelude.{◌≡◌, Some, slice_get, length};
ghost use Rattle.std.specs.List.{list_all, list_any};
ghost use Rattle.sv_fork.specs.Living.{OverLess};
ghost use Rattle.sv_fork.specs.Tree as tree;
ghost use Rattle.sv_fork.specs.Tree.{all_ready_in, awaiting_in, ended_in, is_awaited, is_over_in, join_in, joined_in, joins_in, listed, parent_of, IsTree};

use crate::join::Join;
use crate::member::Member;
use sv_value::ProcessId;

/// Whether a process is over.
pub(crate) fn is_over_in(members: &[Member], process: ProcessId) -> bool
    ensures { result ≡ is_over_in members.now process }
{
    match members.get(process.0 as usize) {
        Some(member) => member.is_over(),
        None => false,
    }
}

/// The parent of a process.
pub(crate) fn parent_of(members: &[Member], process: ProcessId) -> Option<ProcessId>
    ensures { result ≡ parent_of (slice_get members.now process.0) }
{
    match members.get(process.0 as usize) {
        Some(member) => member.parent(),
        None => None,
    }
}

/// Whether all of these are over.
fn all_over(members: &[Member], children: &[ProcessId]) -> bool
    ensures { result ≡ list_all (is_over_in members.now) children.now }
{
    children.iter().all(|child| is_over_in(members, *child))
}

/// Whether one of these is over.
fn some_over(members: &[Member], children: &[ProcessId]) -> bool
    ensures { result ≡ list_any (is_over_in members.now) children.now }
{
    children.iter().any(|child| is_over_in(members, *child))
}

/// Whether a join is complete.
fn is_complete(members: &[Member], join: &Join) -> bool
    ensures { result ≡ joins_in members.now (Some join.now) }
{
    if join.all() {
        return all_over(members, join.children());
    }
    some_over(members, join.children())
}

/// Whether the join of a process is complete.
fn joins(members: &[Member], process: ProcessId) -> bool
    ensures { result ≡ joins_in members.now (join_in (slice_get members.now process.0)) }
{
    match members.get(process.0 as usize) {
        Some(member) => match member.join() {
            Some(join) => is_complete(members, join),
            None => false,
        },
        None => false,
    }
}

/// A process is over.
pub(crate) fn end_in(members: &mut Vec<Member>, process: ProcessId)
    ensures { members.new.items ≡ ended_in process members.old.items }
{
    let place = process.0 as usize;
    if place < members.len() {
        members[place].end();
    }
}

/// A process waits for no children.
pub(crate) fn go_on_in(members: &mut Vec<Member>, process: ProcessId)
    ensures { members.new.items ≡ tree.ready_in process members.old.items }
{
    let place = process.0 as usize;
    if place < members.len() {
        members[place].go_on();
    }
}

/// A process waits for children.
pub(crate) fn wait_in(members: &mut Vec<Member>, process: ProcessId, join: Join)
    ensures { members.new.items ≡ awaiting_in process join members.old.items }
{
    let place = process.0 as usize;
    if place < members.len() {
        members[place].wait(join);
    }
}

/// A process is over, and its parent goes on where that completes its join.
pub(crate) fn finish_in(members: &mut Vec<Member>, process: ProcessId) -> Option<ProcessId>
    requires { IsTree members.old.items }
    ensures joined { joined_in (ended_in process members.old.items) ≡ listed result }
    ensures new { members.new.items ≡ all_ready_in (listed result) (ended_in process members.old.items) }
    ensures tree { IsTree members.new.items }
    ensures over { OverLess members.old.items members.new.items }
    ensures count { length members.new.items ≡ length members.old.items }
{
    end_in(members, process);
    let Some(parent) = parent_of(members.as_slice(), process) else {
        return None;
    };
    if joins(members.as_slice(), parent) {
        go_on_in(members, parent);
        return Some(parent);
    }
    None
}
