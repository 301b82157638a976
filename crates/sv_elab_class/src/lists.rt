// What a unit and its classes declare, each in a list of its own (IEEE 1800-2017, 8.4 and 23.9).
ghost use Rattle.std.specs.Prelude.{List, ◌∷◌, map, IfOk, OnOk};
ghost use Rattle.sv_names.specs.Entries as entries;
ghost use Rattle.sv_names.specs.Groups.{Head as class_head};
ghost use Rattle.sv_elab_scope.specs.Views.{entry_in};
ghost use Rattle.sv_elab_class.specs.Heads.{head_in};
ghost use Rattle.sv_elab_class.specs.Lists.{Keeps, AllKeep, KeepsWith, members_of};

use crate::heads::ClassHead;
use std::alloc::Global;
use sv_elab_declare::add_class;
use sv_elab_scope::{Entry, without_announcements};
use sv_value::{NoMemory, Seq};

/// What of these declarations is to be settled.
#[tactic(auto, using(crate::proofs::ListLaws::keeps_these))]
fn kept_of<'a>(alloc: Global, names: Seq<Entry<'a>>) -> Result<Seq<Entry<'a>>, NoMemory>
    ensures { IfOk result (λ kept. Keeps kept (map entry_in names.entry)) }
{
    let kept = without_announcements(alloc, names)?;
    Ok(kept)
}

/// What of the declarations of a class is to be settled.
#[tactic(auto, using(crate::proofs::ListLaws::keeps_added))]
fn members_kept<'a>(alloc: Global, head: &'a ClassHead<'a>) -> Result<Seq<Entry<'a>>, NoMemory>
    ensures { IfOk result (λ kept. Keeps kept (entries.class_entries head.now.path (head_in head.now).tree)) }
{
    let mut names = Seq::new(alloc);
    add_class(alloc, head.path.as_slice(), head.tree, &mut names)?;
    let kept = kept_of(alloc, names)?;
    Ok(kept)
}

/// Appends what of the declarations of a class is to be settled.
fn add_members<'a>(
    alloc: Global,
    head: &'a ClassHead<'a>,
    lists: &mut Seq<Seq<Entry<'a>>>,
) -> Result<(), NoMemory>
    ensures { OnOk result ((ess : List (List entries.Entry)) (hs : List class_head)
        → KeepsWith lists.old ess (head_in head.now ∷ hs) → KeepsWith lists.new ess hs) }
{
    let members = members_kept(alloc, head)?;
    lists.push(members)?;
    Ok(())
}

/// What of the declarations of a unit and of its classes is to be settled.
#[tactic(auto, using(crate::proofs::ListLaws::keep_own))]
pub fn lists_of<'a>(
    alloc: Global,
    names: Seq<Entry<'a>>,
    heads: &'a [ClassHead<'a>],
) -> Result<Seq<Seq<Entry<'a>>>, NoMemory>
    ensures { IfOk result (λ lists. AllKeep lists (map entry_in names.entry ∷ members_of (map head_in heads.now))) }
{
    let own = kept_of(alloc, names)?;
    let mut lists = Seq::new(alloc);
    lists.push(own)?;
    let mut left = heads;
    while let [one, rest @ ..] = left {
        add_members(alloc, one, &mut lists)?;
        left = rest;
    }
    Ok(lists)
}
