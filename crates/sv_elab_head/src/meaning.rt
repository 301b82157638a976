// What the declarations of a unit or of the files stand for, subroutines and clocking blocks among them (IEEE 1800-2017, 8, 13, 14.3 and 23.9).
ghost use Rattle.std.specs.Prelude.{◌≡◌, ◌∷◌, ◌++◌, [], true, false, Some, map, IfOk};
ghost use Rattle.sv_tree.specs.UnitView.{head as head_in, clocking_item};
ghost use Rattle.sv_names.specs.declared.named.Named.TheVariants as variants;
ghost use Rattle.sv_names.specs.Entries as entries;
ghost use Rattle.sv_names.specs.Groups as groups;
ghost use Rattle.sv_names.specs.Scopes as scopes;
ghost use Rattle.sv_names.specs.Views.{around_in};
ghost use Rattle.sv_elab_scope.specs.Rows.{group_in};
ghost use Rattle.sv_elab_scope.specs.Stages.{is_last};
ghost use Rattle.sv_elab_scope.specs.Views.{entry_in};
ghost use Rattle.sv_elab_declare.specs.Added.{class_of, method_of};
ghost use Rattle.sv_elab_class.specs.Heads.{head_in as class_head};
ghost use Rattle.sv_elab_class.specs.Infos.{in_unit};

use crate::callees::{Heading, callee_within};
use crate::scopes::{pure_scope, routine_scope};
use std::alloc::Global;
use sv_elab_class::{ClassHead, settled_group};
use sv_elab_scope::{Declared, DeclaredPure, DeclaredRoutine, Entry, Group, Means, Stage};
use sv_elab_signal::{known, signals_in, within};
use sv_elab_type::value_of_entry;
use sv_names::{Apart, Around, Checked, Named};
use sv_tree::{ClockingItem, Name, Qualifiers};
use sv_value::{NoMemory, Seq, Text};

/// A subroutine by its head.
fn routine_named(
    alloc: Global,
    stage: Stage,
    around: &Around,
    path: &[Text],
    of: &DeclaredRoutine,
) -> Result<Named, NoMemory>
    ensures { IfOk result (λ n. n ≡ variants.Subroutine
        (scopes.head_of (is_last stage) (around_in around.now) path.now false (class_of of.now) (method_of of.now))) }
{
    let routine = of.routine;
    let scope = routine_scope(alloc, stage, around, path, of.class, of.qualifiers, routine)?;
    let heading = Heading {
        class: of.class,
        qualifiers: of.qualifiers,
        is_pure: false,
        head: &routine.head,
    };
    let callee = callee_within(alloc, around, &scope, &heading)?;
    let kept = Apart::new(alloc, callee)?;
    Ok(Named::Subroutine(kept))
}

/// A pure method by its head, which is virtual whether the word is written or not (8.21).
fn pure_named(
    alloc: Global,
    stage: Stage,
    around: &Around,
    path: &[Text],
    of: &DeclaredPure,
) -> Result<Named, NoMemory>
    ensures { IfOk result (λ n. n ≡ variants.Subroutine (scopes.head_of (is_last stage) (around_in around.now) path.now true
        (Some of.now.class.now) (entries.pure_method (head_in of.now.head.now)))) }
{
    let scope = pure_scope(alloc, stage, around, path, of.class, of.head)?;
    let heading = Heading {
        class: Some(of.class),
        qualifiers: Qualifiers {
            is_local: false,
            is_protected: false,
            is_static: false,
            is_virtual: true,
        },
        is_pure: true,
        head: of.head,
    };
    let callee = callee_within(alloc, around, &scope, &heading)?;
    let kept = Apart::new(alloc, callee)?;
    Ok(Named::Subroutine(kept))
}

/// A clocking block by its signals (14.3).
fn clocking_named(
    alloc: Global,
    around: &Around,
    path: &[Text],
    name: &Name,
    items: &[ClockingItem],
) -> Result<Named, NoMemory>
    ensures { IfOk result (λ n. n ≡ variants.ClockingBlock (path.now ++ name.now.text ∷ [])
        (scopes.signals_in (around_in around.now) (path.now ++ name.now.text ∷ []) (map clocking_item items.now))) }
{
    let block = within(alloc, path, name)?;
    let signals = signals_in(alloc, around, block.as_slice(), items)?;
    Ok(Named::ClockingBlock(block, signals))
}

/// What a declaration of a unit or of the files stands for, or the rule that it breaks: in the rounds, where what it needs may still wait, or
/// after them. A subroutine stands for its head, a clocking block for its signals, and any other declaration for what it is by itself.
#[tactic(auto, using(crate::proofs::MeaningLaws::variable_alone))]
pub fn value_of_any(
    alloc: Global,
    stage: Stage,
    around: &Around,
    path: &[Text],
    entry: &Entry,
) -> Result<Checked<Named>, NoMemory>
    ensures { IfOk result (λ v. v ≡ in_unit (is_last stage) (around_in around.now) path.now (entry_in entry.now)) }
{
    match &entry.what {
        Declared::Routine(routine) => {
            let named = routine_named(alloc, stage, around, path, routine)?;
            Ok(Checked::Good(named))
        }
        Declared::Pure(method) => {
            let named = pure_named(alloc, stage, around, path, method)?;
            Ok(Checked::Good(named))
        }
        Declared::Clocking(items) => {
            let named = clocking_named(alloc, around, path, entry.name, items)?;
            Ok(Checked::Good(named))
        }
        _ => known(value_of_entry(alloc, around, path, entry)),
    }
}

/// Declarations that stand for what they are in a unit or in the files.
pub struct InUnit;

impl Means for InUnit {
    ghost meant = { in_unit };

    fn value(
        alloc: Global,
        stage: Stage,
        around: &Around,
        path: &[Text],
        entry: &Entry,
    ) -> Result<Checked<Named>, NoMemory> {
        value_of_any(alloc, stage, around, path, entry)
    }
}

/// The scope of a unit with this path, or of the files, which have the empty path, with its classes and all that they declare.
pub fn settled_unit<'a>(
    alloc: Global,
    around: &Around,
    path: &[Text],
    names: Seq<Entry<'a>>,
    heads: &'a [ClassHead<'a>],
) -> Result<Group, NoMemory>
    ensures { IfOk result (λ g. group_in g
        ≡ groups.settled_group (around_in around.now) path.now (map entry_in names.entry) (map class_head heads.now)) }
{
    settled_group::<InUnit>(alloc, around, path, names, heads)
}
