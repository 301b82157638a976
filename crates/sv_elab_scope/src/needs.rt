// Which declarations need which others directly: those that wait still where all others are tried (own).
ghost use Rattle.std.specs.Prelude.{◌≡◌, IfOk};
ghost use Rattle.sv_names.specs.Views.{around_in};
ghost use Rattle.sv_elab_scope.specs.Rows.{group_in};
ghost use Rattle.sv_elab_scope.specs.Needs as needs;

use crate::changes::{Change, changed};
use crate::declared::Entry;
use crate::evaluation::evaluated;
use crate::group::{Group, Values};
use crate::ids::{RowId, marked};
use crate::loops::Needed;
use crate::means::Means;
use crate::stage::Stage;
use crate::waiting::does_wait;
use std::alloc::Global;
use sv_names::{Around, Checked, Named};
use sv_value::{NoMemory, Seq, Text};

/// Whether a declaration was evaluated, and waits.
fn is_waiting(value: &Option<Checked<Named>>) -> bool
    ensures { result ≡ needs.is_waiting value.now }
{
    match value {
        None => false,
        Some(value) => does_wait(value),
    }
}

/// Which declarations of a scope were evaluated, and wait.
fn still_at(alloc: Global, values: &[Option<Checked<Named>>]) -> Result<Seq<bool>, NoMemory>
    ensures { IfOk result (λ ms. ms ≡ needs.still_at values.now) }
{
    let mut marks = Seq::new(alloc);
    for value in values {
        marks.push(is_waiting(value))?;
    }
    Ok(marks)
}

/// Which declarations of a group were evaluated, and wait.
fn still_in(alloc: Global, values: &[Values]) -> Result<Seq<Seq<bool>>, NoMemory>
    ensures { IfOk result (λ mss. mss ≡ needs.still_in values.now) }
{
    let mut marks = Seq::new(alloc);
    for list in values {
        let row = still_at(alloc, list.as_slice())?;
        marks.push(row)?;
    }
    Ok(marks)
}

/// The declarations that waited, and wait still over what is known.
fn waiting_over<M: Means>(
    alloc: Global,
    around: &Around,
    path: &[Text],
    entries: &[Seq<Entry>],
    marks: &[Seq<bool>],
    group: &Group,
) -> Result<Seq<RowId>, NoMemory>
    ensures { IfOk result (λ is. is
        ≡ needs.waiting_over M.meant (around_in around.now) path.now entries.now marks.now (group_in group.now)) }
{
    let values = evaluated::<M>(alloc, Stage::Rounds, around, path, entries, marks, group)?;
    let still = still_in(alloc, values.as_slice())?;
    let found = marked(alloc, entries, still.as_slice())?;
    Ok(found)
}

/// What was found by trying declarations, and the group with the values that they were tried with last.
#[derive(Drop)]
pub struct Tried {
    /// Those that wait, each with those that need it directly.
    pub needed: Seq<Needed>,
    /// The group.
    pub group: Group,
}

/// Those that wait, each with those that need it directly.
pub fn needed<M: Means>(
    alloc: Global,
    around: &Around,
    path: &[Text],
    entries: &[Seq<Entry>],
    marks: &[Seq<bool>],
    ids: &[RowId],
    group: Group,
) -> Result<Tried, NoMemory>
    ensures found { IfOk result (λ t. t.needed
        ≡ needs.needed_from M.meant (around_in around.now) path.now entries.now marks.now ids.now (group_in group)) }
    ensures left { IfOk result (λ t. group_in t.group
        ≡ needs.left_over entries.now marks.now ids.now (group_in group)) }
{
    let mut needed = Seq::new(alloc);
    let mut group = group;
    for id in ids {
        group = changed(alloc, Change::Others(*id), entries, marks, group)?;
        let by = waiting_over::<M>(alloc, around, path, entries, marks, &group)?;
        needed.push(Needed { one: *id, by })?;
    }
    Ok(Tried { needed, group })
}
