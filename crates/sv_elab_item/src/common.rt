// What stands in units as outside them: classes and subroutines (IEEE 1800-2017, 8 and 13).
ghost use Rattle.std.specs.Prelude.{◌≡◌};
ghost use Rattle.sv_tree.specs.UnitView.{item as item_in};
ghost use Rattle.sv_names.specs.Items as items;
ghost use Rattle.sv_names.specs.Views.{around_in};
ghost use Rattle.sv_elab_parts.specs.Adding.{Adding};
ghost use Rattle.sv_elab_plain.specs.Parts as parts;

use std::alloc::Global;
use sv_elab_member::class_made;
use sv_elab_member::sv_elab_routine::routine_made;
use sv_elab_parts::SoFar;
use sv_elab_signal::within;
use sv_names::{Around, Refusal, class_in};
use sv_tree::{Class, Item, Qualifiers, Routine};
use sv_value::Text;

/// Puts a class behind what stands so far.
#[tactic(auto, using(sv_elab_plain::proofs::CommonLaws::class_missing, sv_elab_plain::proofs::CommonLaws::nothing_added))]
fn add_class(
    alloc: Global,
    around: &Around,
    path: &[Text],
    of: &Class,
    so_far: &mut SoFar,
) -> Result<(), Refusal>
    ensures { Adding so_far.old so_far.new result (parts.class_at (around_in around.now) path.now of.now) }
{
    let own = within(alloc, path, &of.name)?;
    match class_in(around.classes, own.as_slice()) {
        None => Ok(()),
        Some(class) => class_made(alloc, around, class, of, so_far),
    }
}

/// Puts a subroutine behind what stands so far.
fn add_routine(
    alloc: Global,
    around: &Around,
    path: &[Text],
    of: &Routine,
    so_far: &mut SoFar,
) -> Result<(), Refusal>
    ensures { Adding so_far.old so_far.new result (parts.routine_at (around_in around.now) path.now of.now) }
{
    let own = within(alloc, path, &of.head.name)?;
    let words = Qualifiers {
        is_local: false,
        is_protected: false,
        is_static: false,
        is_virtual: false,
    };
    let routines = &mut so_far.routines;
    let objects = &mut so_far.objects;
    match routine_made(alloc, around, path, None, words, of, routines, objects) {
        Ok(routine) => {
            so_far.add_subroutine(own, routine)?;
            Ok(())
        }
        Err(e) => Err(e),
    }
}

/// Puts what an item is in any scope behind what stands so far: a class or a subroutine, or nothing.
#[tactic(auto, using(sv_elab_plain::proofs::CommonLaws::nothing_added))]
pub(crate) fn add_common(
    alloc: Global,
    around: &Around,
    path: &[Text],
    one: &Item,
    so_far: &mut SoFar,
) -> Result<(), Refusal>
    ensures { Adding so_far.old so_far.new result (items.common_parts (around_in around.now) path.now (item_in one.now)) }
{
    match one {
        Item::Class(class) => add_class(alloc, around, path, class, so_far),
        Item::Routine(routine) => add_routine(alloc, around, path, routine, so_far),
        _ => Ok(()),
    }
}
