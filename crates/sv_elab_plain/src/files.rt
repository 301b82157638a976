// What stands outside units (IEEE 1800-2017, 3.12.1): E1, E5, E6, E33, E58.
ghost use Rattle.std.specs.Prelude.{◌≡◌, ◌++◌, map, filter, IfOk, OnOk};
ghost use Rattle.sv_tree.specs.UnitView.{description};
ghost use Rattle.sv_names.specs.Given.{Gives};
ghost use Rattle.sv_names.specs.Items as items;
ghost use Rattle.sv_names.specs.Views.{around_in};
ghost use Rattle.sv_elab_parts.specs.Adding.{Adding};
ghost use Rattle.sv_elab_scope.specs.Rows.{group_in};
ghost use Rattle.sv_elab_scope.specs.Views.{entry_in};
ghost use Rattle.sv_elab_plain.specs.Files as words;

use std::alloc::Global;
use sv_elab_class::{announcements_stand, bases_stand, file_heads};
use sv_elab_declare::add_files;
use sv_elab_object::known_stand;
use sv_elab_parts::{SoFar, guarded_adding};
use sv_elab_scope::{Declared, Entry, Group, twice};
use sv_names::{Refusal, answer, where_also};
use sv_tree::Description;
use sv_value::{NoMemory, Seq};

/// Whether it is no item of an enum.
fn is_no_item(entry: &Entry) -> bool
    ensures { result ≡ items.is_no_item (entry_in entry.now) }
{
    match &entry.what {
        Declared::Item { .. } => false,
        _ => true,
    }
}

/// Appends a declaration, where it is no item of an enum.
#[tactic(auto, using(crate::proofs::FileLaws::none_kept))]
fn keep<'a>(entry: Entry<'a>, kept: &mut Seq<Entry<'a>>) -> Result<(), NoMemory>
    ensures { OnOk result (map entry_in kept.new ≡ map entry_in kept.old ++ words.kept_of (entry_in entry.entry)) }
{
    if is_no_item(&entry) {
        return kept.push(entry);
    }
    Ok(())
}

/// The declarations that are no items of enums.
fn without_items<'a>(alloc: Global, entries: Seq<Entry<'a>>) -> Result<Seq<Entry<'a>>, NoMemory>
    ensures { IfOk result (λ es. map entry_in es ≡ filter items.is_no_item (map entry_in entries.entry)) }
{
    let mut kept = Seq::new(alloc);
    for entry in entries.into_vec() {
        keep(entry, &mut kept)?;
    }
    Ok(kept)
}

/// E1: two units or items of files have one name.
fn units_differ(alloc: Global, units: &[Description]) -> Result<(), Refusal>
    ensures { Gives result (words.units_differ (map description units.now)) }
{
    let mut entries = Seq::new(alloc);
    add_files(alloc, units, &mut entries)?;
    let kept = without_items(alloc, entries)?;
    let differ = twice(alloc, 1, kept.as_slice())?;
    answer(differ)
}

/// E5, E58: an item of an enum has the name of another declaration; a class that is announced is not declared.
fn names_stand(alloc: Global, entries: &[Entry]) -> Result<(), Refusal>
    ensures { Gives result (words.names_stand (map entry_in entries.now)) }
{
    let differ = twice(alloc, 5, entries)?;
    where_also(answer(differ), answer(announcements_stand(entries)))
}

/// E6, E33: the bases of classes outside units.
fn file_bases(alloc: Global, entries: &[Entry], units: &[Description]) -> Result<(), Refusal>
    ensures { Gives result (words.bases_in (map entry_in entries.now) (map description units.now)) }
{
    let mut heads = Seq::new(alloc);
    file_heads(alloc, entries, units, &mut heads)?;
    answer(bases_stand(heads.as_slice()))
}

/// What the declarations outside units break by their names.
fn files_stand(alloc: Global, units: &[Description]) -> Result<(), Refusal>
    ensures { Gives result (words.files_stand (map description units.now)) }
{
    let differ = units_differ(alloc, units);
    let mut entries = Seq::new(alloc);
    add_files(alloc, units, &mut entries)?;
    let names = names_stand(alloc, entries.as_slice());
    let bases = file_bases(alloc, entries.as_slice(), units);
    where_also(where_also(differ, names), bases)
}

/// What the scope of the files breaks; it gives nothing.
pub fn add_file_scope(
    alloc: Global,
    units: &[Description],
    group: &Group,
    so_far: &mut SoFar,
) -> Result<(), Refusal>
    ensures { Adding so_far.old so_far.new result (words.file_scope (map description units.now) (group_in group.now)) }
{
    let _ = &so_far;
    let known = known_stand(alloc, group.scope.known.as_slice());
    let guarded = guarded_adding(Ok(()), known);
    guarded_adding(guarded, files_stand(alloc, units))
}
