// Declarations by where they stand (own).
ghost use Rattle.std.specs.Prelude.{◌≡◌, ◌++◌, IfOk, OnOk};
ghost use Rattle.sv_elab_scope.specs.Ids as ids;

use crate::declared::Entry;
use std::alloc::Global;
use sv_names::same_place;
use sv_value::{NoMemory, Place, Seq};

/// A declaration, by the number of its scope among those that are settled together and by the place of its name.
#[derive(Clone, Copy)]
pub struct RowId {
    /// The scope: 0, or one more than the number of the class.
    pub home: usize,
    /// The place of the name.
    pub at: Place,
}

/// Whether two declarations are one.
pub fn same_id(a: RowId, b: RowId) -> bool
    ensures { result ≡ ids.same_id a b }
{
    a.home == b.home && same_place(a.at, b.at)
}

/// Whether a declaration is one of several.
pub fn among(id: RowId, others: &[RowId]) -> bool
    ensures { result ≡ ids.among_id id others.now }
{
    for other in others {
        if same_id(id, *other) {
            return true;
        }
    }
    false
}

/// Appends a declaration, where it is one of those that are sought.
pub fn push_if(is_sought: bool, id: RowId, found: &mut Seq<RowId>) -> Result<(), NoMemory>
    ensures { OnOk result (found.new ≡ found.old ++ ids.id_if is_sought id) }
{
    if is_sought {
        found.push(id)?;
    }
    Ok(())
}

/// Appends the declarations of a scope that are marked.
fn push_marked(
    home: usize,
    entries: &[Entry],
    marks: &[bool],
    found: &mut Seq<RowId>,
) -> Result<(), NoMemory>
    ensures { OnOk result (found.new ≡ found.old ++ ids.ids_at home entries.now marks.now) }
{
    let mut left = marks;
    for entry in entries {
        let [first, rest @ ..] = left else {
            return Ok(());
        };
        let id = RowId {
            home,
            at: entry.name.at,
        };
        push_if(*first, id, found)?;
        left = rest;
    }
    Ok(())
}

/// The declarations of a group that are marked, in order.
pub fn marked(
    alloc: Global,
    entries: &[Seq<Entry>],
    marks: &[Seq<bool>],
) -> Result<Seq<RowId>, NoMemory>
    ensures { IfOk result (λ is. is ≡ ids.ids_from 0 entries.now marks.now) }
{
    let mut found = Seq::new(alloc);
    let mut left = marks;
    for (home, list) in entries.iter().enumerate() {
        let [first, rest @ ..] = left else {
            return Ok(found);
        };
        push_marked(home, list.as_slice(), first.as_slice(), &mut found)?;
        left = rest;
    }
    Ok(found)
}

/// Which declarations of a scope are some of several.
fn marks_at(
    alloc: Global,
    home: usize,
    entries: &[Entry],
    others: &[RowId],
) -> Result<Seq<bool>, NoMemory>
    ensures { IfOk result (λ ms. ms ≡ ids.among_at others.now home entries.now) }
{
    let mut marks = Seq::new(alloc);
    for entry in entries {
        let id = RowId {
            home,
            at: entry.name.at,
        };
        marks.push(among(id, others))?;
    }
    Ok(marks)
}

/// Which declarations of a group are some of several.
pub fn marks_among(
    alloc: Global,
    entries: &[Seq<Entry>],
    others: &[RowId],
) -> Result<Seq<Seq<bool>>, NoMemory>
    ensures { IfOk result (λ mss. mss ≡ ids.among_from others.now 0 entries.now) }
{
    let mut marks = Seq::new(alloc);
    for (home, list) in entries.iter().enumerate() {
        let row = marks_at(alloc, home, list.as_slice(), others)?;
        marks.push(row)?;
    }
    Ok(marks)
}
