// Declarations that need themselves, evaluated where all that do are tried (own): E7, E11.
ghost use Rattle.std.specs.Prelude.{◌≡◌, IfOk};
ghost use Rattle.sv_names.specs.Views.{around_in};
ghost use Rattle.sv_elab_scope.specs.Rows.{group_in};
ghost use Rattle.sv_elab_scope.specs.Ending as ending;

use crate::changes::{Change, changed};
use crate::declared::Entry;
use crate::evaluation::evaluated;
use crate::group::{Group, Values, group_with};
use crate::ids::{RowId, marks_among};
use crate::means::Means;
use crate::places::constant_place;
use crate::rounds::known_rows;
use crate::stage::Stage;
use crate::tried::needs_itself;
use std::alloc::Global;
use sv_names::{Around, Checked, Named};
use sv_value::{NoMemory, Seq, Text};

/// What is told of a declaration that was evaluated.
fn told_of(entry: &Entry, value: Option<Checked<Named>>) -> Option<Checked<Named>>
    ensures { result ≡ ending.told_of entry.now value }
{
    match value {
        None => None,
        Some(value) => Some(needs_itself(constant_place(entry), value)),
    }
}

/// What is told of the declarations of a scope that were evaluated.
fn told_at(alloc: Global, entries: &[Entry], values: Values) -> Result<Values, NoMemory>
    ensures { IfOk result (λ vs. vs ≡ ending.told_at entries.now values) }
{
    let mut told = Seq::new(alloc);
    let mut left = entries;
    let mut values = values.into_vec().into_iter();
    while let Some(value) = values.next() {
        let [first, rest @ ..] = left else {
            return Ok(told);
        };
        told.push(told_of(first, value))?;
        left = rest;
    }
    Ok(told)
}

/// What is told of the declarations of a group that were evaluated.
fn told_in(
    alloc: Global,
    entries: &[Seq<Entry>],
    values: Seq<Values>,
) -> Result<Seq<Values>, NoMemory>
    ensures { IfOk result (λ vss. vss ≡ ending.told_in entries.now values) }
{
    let mut told = Seq::new(alloc);
    let mut left = entries;
    let mut values = values.into_vec().into_iter();
    while let Some(list) = values.next() {
        let [first, rest @ ..] = left else {
            return Ok(told);
        };
        let row = told_at(alloc, first.as_slice(), list)?;
        told.push(row)?;
        left = rest;
    }
    Ok(told)
}

/// Those that need themselves, evaluated where all that do are tried, and told E7 or E11; the others as they were.
pub fn looped<M: Means>(
    alloc: Global,
    around: &Around,
    path: &[Text],
    entries: &[Seq<Entry>],
    marks: &[Seq<bool>],
    loops: &[RowId],
    group: Group,
) -> Result<Group, NoMemory>
    ensures { IfOk result (λ g. group_in g
        ≡ ending.looped M.meant (around_in around.now) path.now entries.now marks.now loops.now (group_in group)) }
{
    let group = changed(alloc, Change::Among(loops), entries, marks, group)?;
    let group = known_rows::<M>(alloc, Stage::Rounds, around, path, entries, group)?;
    let which = marks_among(alloc, entries, loops)?;
    let values = evaluated::<M>(
        alloc,
        Stage::Rounds,
        around,
        path,
        entries,
        which.as_slice(),
        &group,
    )?;
    let told = told_in(alloc, entries, values)?;
    let group = changed(alloc, Change::Waiting, entries, marks, group)?;
    let group = group_with(alloc, group, told)?;
    Ok(group)
}
