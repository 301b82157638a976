// The subroutines of classes and of other items (IEEE 1800-2017, 8.6, 8.7 and 13).
ghost use Rattle.std.specs.Prelude.{◌≡◌, map, option_map, IfOk, OnOk};
ghost use Rattle.sv_tree.specs.UnitView as view;
ghost use Rattle.sv_names.specs.Entries as entries;
ghost use Rattle.sv_names.specs.Groups as groups;
ghost use Rattle.sv_names.specs.Sources as sources;
ghost use Rattle.sv_names.specs.Views.{around_in};
ghost use Rattle.sv_elab_touch.specs.Touched.{Touched};
ghost use Rattle.sv_elab_writers.specs.Views.{routine_in};
ghost use Rattle.sv_elab_met.specs.Behind.{Tabled};
ghost use Rattle.sv_elab_met.specs.Met as words;

use crate::properties::add_opening;
use crate::routines::{add_routine, routine_row};
use crate::seen::{in_class, scopes_in_class};
use std::alloc::Global;
use sv_elab_act::constructor_path;
use sv_elab_declare::is_constructor;
use sv_elab_signal::within;
use sv_elab_writers::{Routine, Touch};
use sv_names::{Around, ClassInfo, class_in};
use sv_tree::{Class, ClassItem, Item, Method, Qualifiers, Routine as TreeRoutine};
use sv_value::{NoMemory, Seq, Text};

// ---- constructors

/// Appends what a method does, where it is a constructor.
#[tactic(auto, using(sv_elab_touch::proofs::TouchedLaws::touched_none))]
fn add_written(
    alloc: Global,
    around: &Around,
    class: &ClassInfo,
    method: &Method,
    touches: &mut Seq<Touch>,
) -> Result<(), NoMemory>
    ensures { OnOk result (Touched touches.old touches.new
        (words.written_method (around_in around.now) class.now (view.method method.now))) }
{
    if !is_constructor(&method.routine.head) {
        return Ok(());
    }
    let path = class.path.as_slice();
    add_routine(
        alloc,
        around,
        path,
        Some(path),
        method.qualifiers,
        &method.routine,
        touches,
    )
}

/// Appends what an item of a class does, where it is a constructor.
#[tactic(auto, using(sv_elab_touch::proofs::TouchedLaws::touched_none))]
fn add_written_item(
    alloc: Global,
    around: &Around,
    class: &ClassInfo,
    item: &ClassItem,
    touches: &mut Seq<Touch>,
) -> Result<(), NoMemory>
    ensures { OnOk result (Touched touches.old touches.new
        (sources.written_constructors (around_in around.now) class.now (view.class_item item.now))) }
{
    match item {
        ClassItem::Method(m) => add_written(alloc, around, class, m, touches),
        _ => Ok(()),
    }
}

/// Appends what the written constructors of a class do.
#[tactic(auto, using(sv_elab_touch::proofs::TouchedLaws::turn_touched, sv_elab_touch::proofs::TouchedLaws::all_touched))]
fn add_all_written(
    alloc: Global,
    around: &Around,
    class: &ClassInfo,
    items: &[ClassItem],
    touches: &mut Seq<Touch>,
) -> Result<(), NoMemory>
    ensures { OnOk result (Touched touches.old touches.new
        (words.all_written (around_in around.now) class.now (map view.class_item items.now))) }
{
    let mut left = items;
    while let [item, rest @ ..] = left {
        add_written_item(alloc, around, class, item, touches)?;
        left = rest;
    }
    Ok(())
}

/// The constructor of a class, written or implied.
#[tactic(auto, using(sv_elab_touch::proofs::TouchedLaws::touched_both))]
fn constructor_row(
    alloc: Global,
    around: &Around,
    class: &ClassInfo,
    items: &[ClassItem],
) -> Result<Routine, NoMemory>
    ensures { IfOk result (λ r. routine_in r
        ≡ words.constructor_row (around_in around.now) class.now (map view.class_item items.now)) }
{
    let path = constructor_path(alloc, class.path.as_slice())?;
    let mut touches = Seq::new(alloc);
    add_opening(alloc, around, class, items, &mut touches)?;
    add_all_written(alloc, around, class, items, &mut touches)?;
    Ok(Routine { path, touches })
}

// ---- methods

/// Appends a method that is no constructor.
#[tactic(auto, using(crate::proofs::BehindLaws::tabled_none, crate::proofs::BehindLaws::tabled_one))]
fn add_method(
    alloc: Global,
    around: &Around,
    class: &ClassInfo,
    method: &Method,
    table: &mut Seq<Routine>,
) -> Result<(), NoMemory>
    ensures { OnOk result (Tabled table.old table.new
        (words.method_rows (around_in around.now) class.now (view.method method.now))) }
{
    if is_constructor(&method.routine.head) {
        return Ok(());
    }
    let path = class.path.as_slice();
    let row = routine_row(
        alloc,
        around,
        path,
        Some(path),
        method.qualifiers,
        &method.routine,
    )?;
    table.push(row)
}

/// Appends the method that an item of a class is.
#[tactic(auto, using(crate::proofs::BehindLaws::tabled_none))]
fn add_method_item(
    alloc: Global,
    around: &Around,
    class: &ClassInfo,
    item: &ClassItem,
    table: &mut Seq<Routine>,
) -> Result<(), NoMemory>
    ensures { OnOk result (Tabled table.old table.new
        (sources.method_touches (around_in around.now) class.now (view.class_item item.now))) }
{
    match item {
        ClassItem::Method(m) => add_method(alloc, around, class, m, table),
        _ => Ok(()),
    }
}

/// Appends the methods of a class.
#[tactic(auto, using(crate::proofs::BehindLaws::turn_tabled, crate::proofs::BehindLaws::all_tabled))]
fn add_methods(
    alloc: Global,
    around: &Around,
    class: &ClassInfo,
    items: &[ClassItem],
    table: &mut Seq<Routine>,
) -> Result<(), NoMemory>
    ensures { OnOk result (Tabled table.old table.new
        (words.all_methods (around_in around.now) class.now (map view.class_item items.now))) }
{
    let mut left = items;
    while let [item, rest @ ..] = left {
        add_method_item(alloc, around, class, item, table)?;
        left = rest;
    }
    Ok(())
}

// ---- classes

/// The subroutines of a class, seen in it.
fn class_table(
    alloc: Global,
    around: &Around,
    class: &ClassInfo,
    items: &[ClassItem],
) -> Result<Seq<Routine>, NoMemory>
    ensures { IfOk result (λ rs. map routine_in rs
        ≡ sources.class_table (around_in around.now) class.now (map view.class_item items.now)) }
{
    let constructor = constructor_row(alloc, around, class, items)?;
    let mut table = Seq::new(alloc);
    table.push(constructor)?;
    add_methods(alloc, around, class, items, &mut table)?;
    Ok(table)
}

/// The subroutines of a class, seen around it.
fn known_class(
    alloc: Global,
    around: &Around,
    class: &ClassInfo,
    items: &[ClassItem],
) -> Result<Seq<Routine>, NoMemory>
    ensures { IfOk result (λ rs. map routine_in rs ≡ sources.class_table
        (groups.in_class class.now.path (around_in around.now)) class.now (map view.class_item items.now)) }
{
    let outer = *around;
    let path = class.path.as_slice();
    let scopes = scopes_in_class(alloc, &outer, path)?;
    let inner = in_class(&outer, path, scopes.as_slice());
    class_table(alloc, &inner, class, items)
}

/// The subroutines of a class, if it is known.
fn named_class(
    alloc: Global,
    around: &Around,
    class: Option<&ClassInfo>,
    items: &[ClassItem],
) -> Result<Seq<Routine>, NoMemory>
    ensures { IfOk result (λ rs. map routine_in rs ≡ sources.named_class (around_in around.now)
        (map view.class_item items.now) (option_map (λ k. k.now) class.entry)) }
{
    match class {
        None => Ok(Seq::new(alloc)),
        Some(class) => known_class(alloc, around, class, items),
    }
}

/// The subroutines of a class of the unit with this path.
fn class_rows(
    alloc: Global,
    around: &Around,
    path: &[Text],
    class: &Class,
) -> Result<Seq<Routine>, NoMemory>
    ensures { IfOk result (λ rs. map routine_in rs ≡ words.class_rows (around_in around.now) path.now (view.class class.now)) }
{
    let own = within(alloc, path, &class.name)?;
    let known = class_in(around.classes, own.as_slice());
    named_class(alloc, around, known, class.items.as_slice())
}

// ---- items

/// A subroutine of the unit with this path, alone.
fn routine_rows(
    alloc: Global,
    around: &Around,
    path: &[Text],
    routine: &TreeRoutine,
) -> Result<Seq<Routine>, NoMemory>
    ensures { IfOk result (λ rs. map routine_in rs ≡ words.routine_rows (around_in around.now) path.now (view.routine routine.now)) }
{
    let none = Qualifiers {
        is_local: false,
        is_protected: false,
        is_static: false,
        is_virtual: false,
    };
    let row = routine_row(alloc, around, path, None, none, routine)?;
    let mut table = Seq::new(alloc);
    table.push(row)?;
    Ok(table)
}

/// The subroutines of an item of the unit with this path.
pub(crate) fn item_table(
    alloc: Global,
    around: &Around,
    path: &[Text],
    item: &Item,
) -> Result<Seq<Routine>, NoMemory>
    ensures { IfOk result (λ rs. map routine_in rs ≡ sources.item_table (around_in around.now) path.now (view.item item.now)) }
{
    match item {
        Item::Routine(r) => routine_rows(alloc, around, path, r),
        Item::Class(c) => class_rows(alloc, around, path, c),
        _ => Ok(Seq::new(alloc)),
    }
}
