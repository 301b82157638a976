// Rounds: declarations may need one another in any order, so those that wait are evaluated until none ceases to wait (own).
ghost use Rattle.std.specs.Prelude.{◌≡◌, ◌&&◌, nat_lt, IfOk};
ghost use Rattle.sv_names.specs.Views.{around_in};
ghost use Rattle.sv_elab_scope.specs.Rows.{group_in};
ghost use Rattle.sv_elab_scope.specs.Stages.{is_last};
ghost use Rattle.sv_elab_scope.specs.Settling as settling;

use crate::declared::Entry;
use crate::evaluation::evaluated;
use crate::group::{Group, group_with};
use crate::marks::{marks_of, waiting};
use crate::means::Means;
use crate::stage::Stage;
use std::alloc::Global;
use sv_names::Around;
use sv_value::{NoMemory, Seq, Text};

/// One round: each declaration that waits is evaluated over what is known.
fn round<M: Means>(
    alloc: Global,
    stage: Stage,
    around: &Around,
    path: &[Text],
    entries: &[Seq<Entry>],
    group: Group,
) -> Result<Group, NoMemory>
    ensures { IfOk result (λ g. group_in g
        ≡ settling.group_round M.meant (is_last stage) (around_in around.now) path.now entries.now (group_in group)) }
{
    let marks = marks_of(alloc, &group)?;
    let values = evaluated::<M>(
        alloc,
        stage,
        around,
        path,
        entries,
        marks.as_slice(),
        &group,
    )?;
    let group = group_with(alloc, group, values)?;
    Ok(group)
}

/// Whether a further round can make a declaration known: one ceased to wait, and another waits still.
fn goes_on(before: u128, after: u128) -> bool
    ensures { result ≡ (nat_lt after before && nat_lt 0 after) }
{
    after < before && 0 < after
}

/// So many rounds at most; the last one is that in which none ceases to wait.
fn rounds<M: Means>(
    alloc: Global,
    stage: Stage,
    around: &Around,
    path: &[Text],
    entries: &[Seq<Entry>],
    most: u128,
    group: Group,
) -> Result<Group, NoMemory>
    ensures { IfOk result (λ g. group_in g ≡ settling.group_rounds M.meant (is_last stage) (around_in around.now) path.now
        entries.now most (group_in group)) }
{
    let mut before = waiting(&group);
    let mut group = group;
    let mut left = most;
    while 0 < left {
        left -= 1;
        group = round::<M>(alloc, stage, around, path, entries, group)?;
        let after = waiting(&group);
        if !goes_on(before, after) {
            return Ok(group);
        }
        before = after;
    }
    Ok(group)
}

/// How many declarations there are.
fn count(entries: &[Seq<Entry>]) -> u128
    ensures { result ≡ settling.count entries.now }
{
    let mut count: u128 = 0;
    for list in entries {
        count += list.as_slice().len() as u128;
    }
    count
}

/// As many rounds as there are declarations.
pub fn known_rows<M: Means>(
    alloc: Global,
    stage: Stage,
    around: &Around,
    path: &[Text],
    entries: &[Seq<Entry>],
    group: Group,
) -> Result<Group, NoMemory>
    ensures { IfOk result (λ g. group_in g
        ≡ settling.group_known M.meant (is_last stage) (around_in around.now) path.now entries.now (group_in group)) }
{
    rounds::<M>(alloc, stage, around, path, entries, count(entries), group)
}
