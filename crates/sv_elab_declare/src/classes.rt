// What a class declares itself (IEEE 1800-2017, 8.4).
ghost use Rattle.std.specs.Prelude.{◌≡◌, Option, OnOk};
ghost use Rattle.sv_tree.specs.Types.{WrittenType as written_type};
ghost use Rattle.sv_tree.specs.Stmt.{Dimension as dimension};
ghost use Rattle.sv_tree.specs.UnitView.{class, class_item};
ghost use Rattle.sv_names.specs.Entries as entries;
ghost use Rattle.sv_elab_scope.specs.Views.{variable_in};
ghost use Rattle.sv_elab_declare.specs.Added.{Added};

use crate::types::add_items;
use crate::variables::add_held;
use std::alloc::Global;
use sv_elab_scope::{Declared, DeclaredPure, DeclaredRoutine, Entry, Storage};
use sv_names::Protection;
use sv_tree::{Class, ClassItem, Qualifiers};
use sv_value::{NoMemory, Seq, Text};

/// Who may name a member with these words before it (8.18).
fn protection_of(words: Qualifiers) -> Protection
    ensures { result ≡ entries.protection_of words }
{
    if words.is_local {
        Protection::Local
    } else if words.is_protected {
        Protection::Protected
    } else {
        Protection::Open
    }
}

/// What holds a property of a class: each object, or the class (8.9).
fn storage_of(path: &[Text], words: Qualifiers) -> Storage
    ensures { (w : written_type) → (d : Option dimension) → variable_in result w d ≡ entries.property_kind path.now words w d }
{
    let protection = protection_of(words);
    if words.is_static {
        Storage::Class(path, protection)
    } else {
        Storage::Object(path, protection)
    }
}

/// Appends what an item of a class declares.
#[tactic(auto, using(crate::proofs::AddedLaws::added_none, crate::proofs::AddedLaws::added_one, crate::proofs::AddedLaws::added_before))]
fn add_class_item<'a>(
    alloc: Global,
    path: &'a [Text],
    one: &'a ClassItem,
    names: &mut Seq<Entry<'a>>,
) -> Result<(), NoMemory>
    ensures { OnOk result (Added names.old names.new (entries.class_item_entries path.now (class_item one.now))) }
{
    let (name, what) = match one {
        ClassItem::Property(property) => {
            return add_held(storage_of(path, property.qualifiers), &property.decl, names);
        }
        ClassItem::Method(method) => {
            let routine = Box::new(
                alloc,
                DeclaredRoutine {
                    qualifiers: method.qualifiers,
                    class: Some(path),
                    routine: &method.routine,
                },
            )?;
            (&method.routine.head.name, Declared::Routine(routine))
        }
        ClassItem::Pure(method) => {
            let pure = Box::new(
                alloc,
                DeclaredPure {
                    class: path,
                    head: &method.head,
                },
            )?;
            (&method.head.name, Declared::Pure(pure))
        }
        ClassItem::Typedef(typedef) => {
            add_items(&typedef.of, names)?;
            (&typedef.name, Declared::Type(&typedef.of))
        }
        ClassItem::Announce(name) => (name, Declared::Announcement),
        ClassItem::Null => return Ok(()),
    };
    names.push(Entry { name, what })
}

/// Appends what a class declares itself, which has this path.
#[tactic(auto, using(crate::proofs::AddedLaws::turn_added, crate::proofs::AddedLaws::all_added))]
pub fn add_class<'a>(
    alloc: Global,
    path: &'a [Text],
    of: &'a Class,
    names: &mut Seq<Entry<'a>>,
) -> Result<(), NoMemory>
    ensures { OnOk result (Added names.old names.new (entries.class_entries path.now (class of.now))) }
{
    let mut left = of.items.as_slice();
    while let [one, rest @ ..] = left {
        add_class_item(alloc, path, one, names)?;
        left = rest;
    }
    Ok(())
}
