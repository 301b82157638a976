// Declarations evaluated over what is known, each in its scope (own; IEEE 1800-2017, 23.9 leaves the order open).
ghost use Rattle.std.specs.Prelude.{◌≡◌, ◌∷◌, IfOk};
ghost use Rattle.sv_names.specs.Views.{around_in};
ghost use Rattle.sv_elab_scope.specs.Views.{entry_in};
ghost use Rattle.sv_elab_scope.specs.Rows.{group_in};
ghost use Rattle.sv_elab_scope.specs.Stages.{is_last};
ghost use Rattle.sv_elab_scope.specs.Settling as settling;

use crate::declared::Entry;
use crate::group::{Group, Values};
use crate::means::Means;
use crate::seen::{scopes_in_class, with_classes, with_scope};
use crate::stage::Stage;
use crate::waiting::or_waits;
use std::alloc::Global;
use sv_names::{Around, Checked, ClassInfo, Named};
use sv_value::{NoMemory, Seq, Text};

/// What a declaration stands for in a round, where the round evaluates it.
fn renewal<M: Means>(
    alloc: Global,
    stage: Stage,
    around: &Around,
    path: &[Text],
    entry: &Entry,
    is_marked: bool,
) -> Result<Option<Checked<Named>>, NoMemory>
    ensures { IfOk result (λ v. v
        ≡ settling.renewal is_marked (M.meant (is_last stage) (around_in around.now) path.now (entry_in entry.now))) }
{
    if is_marked {
        let value = M::value(alloc, stage, around, path, entry)?;
        return Ok(Some(or_waits(value)));
    }
    Ok(None)
}

/// What the declarations of a scope stand for in a round, where the round evaluates them.
fn renewals<M: Means>(
    alloc: Global,
    stage: Stage,
    around: &Around,
    path: &[Text],
    entries: &[Entry],
    marks: &[bool],
) -> Result<Values, NoMemory>
    ensures { IfOk result (λ vs. vs
        ≡ settling.renewals (M.meant (is_last stage) (around_in around.now) path.now) entries.now marks.now) }
{
    let mut renewed = Seq::new(alloc);
    let mut left = marks;
    for entry in entries {
        let [first, rest @ ..] = left else {
            return Ok(renewed);
        };
        let value = renewal::<M>(alloc, stage, around, path, entry, *first)?;
        renewed.push(value)?;
        left = rest;
    }
    Ok(renewed)
}

/// The same of the members of a class.
fn class_renewals<M: Means>(
    alloc: Global,
    stage: Stage,
    around: &Around,
    class: &[Text],
    entries: &[Entry],
    marks: &[bool],
) -> Result<Values, NoMemory>
    ensures { IfOk result (λ vs. vs
        ≡ settling.class_renewals M.meant (is_last stage) (around_in around.now) class.now entries.now marks.now) }
{
    let scopes = scopes_in_class(alloc, around, class)?;
    let inside = Around {
        scopes: scopes.as_slice(),
        class: Some(class),
        is_automatic: true,
        ..*around
    };
    renewals::<M>(alloc, stage, &inside, class, entries, marks)
}

/// The same of the members of each class, behind those of the scope itself.
fn member_renewals<M: Means>(
    alloc: Global,
    stage: Stage,
    around: &Around,
    own: Values,
    members: &[Seq<Entry>],
    marks: &[Seq<bool>],
    classes: &[ClassInfo],
) -> Result<Seq<Values>, NoMemory>
    ensures { IfOk result (λ vss. vss ≡ own
        ∷ settling.member_renewals M.meant (is_last stage) (around_in around.now) members.now marks.now classes.now) }
{
    let mut renewed = Seq::new(alloc);
    renewed.push(own)?;
    let mut marks = marks;
    let mut classes = classes;
    for entries in members {
        let [first, rest @ ..] = marks else {
            return Ok(renewed);
        };
        let [class, more @ ..] = classes else {
            return Ok(renewed);
        };
        let values = class_renewals::<M>(
            alloc,
            stage,
            around,
            class.path.as_slice(),
            entries.as_slice(),
            first.as_slice(),
        )?;
        renewed.push(values)?;
        marks = rest;
        classes = more;
    }
    Ok(renewed)
}

/// What the declarations of a group stand for in a round, where the round evaluates them: of the scope itself, and of each class.
pub fn evaluated<M: Means>(
    alloc: Global,
    stage: Stage,
    around: &Around,
    path: &[Text],
    entries: &[Seq<Entry>],
    marks: &[Seq<bool>],
    group: &Group,
) -> Result<Seq<Values>, NoMemory>
    ensures { IfOk result (λ vss. vss ≡ settling.evaluated M.meant (is_last stage) (around_in around.now) path.now
        entries.now marks.now (group_in group.now)) }
{
    let [own, members @ ..] = entries else {
        return Ok(Seq::new(alloc));
    };
    let [first, rest @ ..] = marks else {
        return Ok(Seq::new(alloc));
    };
    let scopes = with_scope(alloc, &group.scope, around.scopes)?;
    let classes = with_classes(alloc, around.classes, group.classes.as_slice())?;
    let inside = Around {
        scopes: scopes.as_slice(),
        classes: classes.as_slice(),
        ..*around
    };
    let own = renewals::<M>(
        alloc,
        stage,
        &inside,
        path,
        own.as_slice(),
        first.as_slice(),
    )?;
    member_renewals::<M>(
        alloc,
        stage,
        &inside,
        own,
        members,
        rest,
        group.classes.as_slice(),
    )
}
