// A group with all that it declares: the rounds, and what waits at their end (IEEE 1800-2017, 23.9; own): E7, E11.
ghost use Rattle.std.specs.Prelude.{◌≡◌, nat_lt, IfOk};
ghost use Rattle.sv_names.specs.Views.{around_in};
ghost use Rattle.sv_elab_scope.specs.Rows.{group_in, all_known, AllAgree};
ghost use Rattle.sv_elab_scope.specs.Settling as settling;
ghost use Rattle.sv_elab_scope.specs.Ending as ending;

use crate::changes::{Change, changed};
use crate::declared::Entry;
use crate::group::Group;
use crate::ids::{RowId, marked};
use crate::looped::looped;
use crate::loops::in_loops;
use crate::marks::{marks_of, waiting};
use crate::means::Means;
use crate::needs::{Tried, needed};
use crate::rounds::known_rows;
use crate::stage::Stage;
use std::alloc::Global;
use sv_names::Around;
use sv_value::{NoMemory, Seq, Text};

// ---- the end of the rounds

/// E7: what waits after all, which cannot be.
fn none_waits(alloc: Global, entries: &[Seq<Entry>], group: Group) -> Result<Group, NoMemory>
    ensures { IfOk result (λ g. group_in g ≡ ending.none_waits entries.now (group_in group)) }
{
    let marks = marks_of(alloc, &group)?;
    let group = changed(alloc, Change::Unsettled, entries, marks.as_slice(), group)?;
    Ok(group)
}

/// The end, by which declarations waited and which of them need themselves.
fn ended_over<M: Means>(
    alloc: Global,
    around: &Around,
    path: &[Text],
    entries: &[Seq<Entry>],
    marks: &[Seq<bool>],
    loops: &[RowId],
    group: Group,
) -> Result<Group, NoMemory>
    ensures { IfOk result (λ g. group_in g
        ≡ ending.ended_over M.meant (around_in around.now) path.now entries.now marks.now loops.now (group_in group)) }
{
    let group = looped::<M>(alloc, around, path, entries, marks, loops, group)?;
    let group = known_rows::<M>(alloc, Stage::End, around, path, entries, group)?;
    let group = none_waits(alloc, entries, group)?;
    Ok(group)
}

/// What waits after the rounds needs itself, or something that does. E7, E11: what needs itself; what only depends on such a one breaks the
/// same rule.
fn ended<M: Means>(
    alloc: Global,
    around: &Around,
    path: &[Text],
    entries: &[Seq<Entry>],
    marks: &[Seq<bool>],
    group: Group,
) -> Result<Group, NoMemory>
    ensures { IfOk result (λ g. group_in g
        ≡ ending.ended M.meant (around_in around.now) path.now entries.now marks.now (group_in group)) }
{
    let ids = marked(alloc, entries, marks)?;
    let Tried { needed, group } = needed::<M>(
        alloc,
        around,
        path,
        entries,
        marks,
        ids.as_slice(),
        group,
    )?;
    let loops = in_loops(alloc, needed.as_slice())?;
    let group = ended_over::<M>(alloc, around, path, entries, marks, loops.as_slice(), group)?;
    Ok(group)
}

/// Whether a declaration of a group waits.
fn some_waits(group: &Group) -> bool
    ensures { result ≡ nat_lt 0 (settling.waiting_group (group_in group.now)) }
{
    0 < waiting(group)
}

/// A group after its rounds, and what of it needs itself.
fn ended_group<M: Means>(
    alloc: Global,
    around: &Around,
    path: &[Text],
    entries: &[Seq<Entry>],
    group: Group,
) -> Result<Group, NoMemory>
    ensures { IfOk result (λ g. group_in g
        ≡ ending.ended_group M.meant (around_in around.now) path.now entries.now (group_in group)) }
{
    if some_waits(&group) {
        let marks = marks_of(alloc, &group)?;
        let group = ended::<M>(alloc, around, path, entries, marks.as_slice(), group)?;
        return Ok(group);
    }
    Ok(group)
}

// ---- what callers see

/// A group with all that it declares. The lists of declarations are those of the scope itself and then of each class, without announcements.
pub fn settled<M: Means>(
    alloc: Global,
    around: &Around,
    path: &[Text],
    entries: &[Seq<Entry>],
    group: Group,
) -> Result<Group, NoMemory>
    ensures { AllAgree entries.now (all_known (group_in group)) → IfOk result (λ g. group_in g
        ≡ ending.settled_group M.meant (around_in around.now) path.now entries.now (group_in group)) }
{
    let known = known_rows::<M>(alloc, Stage::Rounds, around, path, entries, group)?;
    let settled = ended_group::<M>(alloc, around, path, entries, known)?;
    Ok(settled)
}

/// A group with what is known of it after the rounds, where what is around it may still wait.
pub fn first_settled<M: Means>(
    alloc: Global,
    around: &Around,
    path: &[Text],
    entries: &[Seq<Entry>],
    group: Group,
) -> Result<Group, NoMemory>
    ensures { AllAgree entries.now (all_known (group_in group)) → IfOk result (λ g. group_in g
        ≡ ending.first_group M.meant (around_in around.now) path.now entries.now (group_in group)) }
{
    let known = known_rows::<M>(alloc, Stage::Rounds, around, path, entries, group)?;
    Ok(known)
}
