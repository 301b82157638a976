// Declarations that waited are given other values while it is sought which of them need themselves (own).
ghost use Rattle.std.specs.Prelude.{◌≡◌, IfOk};
ghost use Rattle.sv_elab_scope.specs.Rows.{group_in};
ghost use Rattle.sv_elab_scope.specs.Changes as changes;
ghost use Rattle.sv_elab_scope.specs.Changes.{change_in};

use crate::declared::Entry;
use crate::group::{Group, Values, group_with};
use crate::ids::{RowId, among, same_id};
use crate::places::constant_place;
use crate::tried::tried_value;
use crate::waiting::waits;
use std::alloc::Global;
use sv_names::{Checked, Fault, Named};
use sv_value::{NoMemory, Seq};

/// What becomes of the declarations that waited.
#[derive(Clone, Copy)]
pub enum Change<'a> {
    /// All but this one are tried, which waits.
    Others(RowId),
    /// These are tried; the others wait.
    Among(&'a [RowId]),
    /// All wait.
    Waiting,
    /// All break E7, at their names.
    Unsettled,
}

/// A declaration is tried, or waits where it waited.
fn tried_or(
    alloc: Global,
    is_tried: bool,
    entry: &Entry,
    did_wait: bool,
) -> Result<Option<Checked<Named>>, NoMemory>
    ensures { IfOk result (λ v. v ≡ changes.tried_or is_tried entry.now did_wait) }
{
    if is_tried {
        let value = tried_value(alloc, constant_place(entry))?;
        return Ok(Some(value));
    }
    if did_wait {
        return Ok(Some(waits()));
    }
    Ok(None)
}

/// A declaration that waited breaks E7.
fn broken_if(entry: &Entry, did_wait: bool) -> Option<Checked<Named>>
    ensures { result ≡ changes.broken_if entry.now did_wait }
{
    if did_wait {
        return Some(Checked::Broken(Fault {
            at: entry.name.at,
            rule: 7,
        }));
    }
    None
}

/// The new value of a declaration, where it has one.
fn change_of(
    alloc: Global,
    change: Change,
    home: usize,
    entry: &Entry,
    did_wait: bool,
) -> Result<Option<Checked<Named>>, NoMemory>
    ensures { IfOk result (λ v. v ≡ changes.change_of (change_in change.entry) home entry.now did_wait) }
{
    let id = RowId {
        home,
        at: entry.name.at,
    };
    match change {
        Change::Others(one) => {
            let is_tried = did_wait && !same_id(one, id);
            tried_or(alloc, is_tried, entry, did_wait)
        }
        Change::Among(tried) => tried_or(alloc, among(id, tried), entry, did_wait),
        Change::Waiting => tried_or(alloc, false, entry, did_wait),
        Change::Unsettled => Ok(broken_if(entry, did_wait)),
    }
}

/// The new values of the declarations of a scope.
fn changes_at(
    alloc: Global,
    change: Change,
    home: usize,
    entries: &[Entry],
    marks: &[bool],
) -> Result<Values, NoMemory>
    ensures { IfOk result (λ vs. vs ≡ changes.changes_at (change_in change.entry) home entries.now marks.now) }
{
    let mut values = Seq::new(alloc);
    let mut left = marks;
    for entry in entries {
        let [first, rest @ ..] = left else {
            return Ok(values);
        };
        let value = change_of(alloc, change, home, entry, *first)?;
        values.push(value)?;
        left = rest;
    }
    Ok(values)
}

/// The new values of the declarations of a group.
fn changes_in(
    alloc: Global,
    change: Change,
    entries: &[Seq<Entry>],
    marks: &[Seq<bool>],
) -> Result<Seq<Values>, NoMemory>
    ensures { IfOk result (λ vss. vss ≡ changes.changes_from (change_in change.entry) 0 entries.now marks.now) }
{
    let mut values = Seq::new(alloc);
    let mut left = marks;
    for (home, list) in entries.iter().enumerate() {
        let [first, rest @ ..] = left else {
            return Ok(values);
        };
        let row = changes_at(alloc, change, home, list.as_slice(), first.as_slice())?;
        values.push(row)?;
        left = rest;
    }
    Ok(values)
}

/// A group with other values of the declarations that waited.
pub fn changed(
    alloc: Global,
    change: Change,
    entries: &[Seq<Entry>],
    marks: &[Seq<bool>],
    group: Group,
) -> Result<Group, NoMemory>
    ensures { IfOk result (λ g. group_in g
        ≡ changes.changed (change_in change.entry) entries.now marks.now (group_in group)) }
{
    let values = changes_in(alloc, change, entries, marks)?;
    let group = group_with(alloc, group, values)?;
    Ok(group)
}
