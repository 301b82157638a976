// All of a class, behind what stands so far of a design (IEEE 1800-2017, 8).
ghost use Rattle.std.specs.Prelude.{◌≡◌, List, map};
ghost use Rattle.sv_flat.specs.declared.object.Object.{Object as object_type};
ghost use Rattle.sv_tree.specs.UnitView.{class as class_in, class_item};
ghost use Rattle.sv_names.specs.declared.checked.Checked.{Checked as checked};
ghost use Rattle.sv_names.specs.Checked.{given};
ghost use Rattle.sv_names.specs.Classes as classes;
ghost use Rattle.sv_names.specs.Items as items;
ghost use Rattle.sv_names.specs.Subroutines.{MadeSubroutine};
ghost use Rattle.sv_names.specs.Views.{around_in};
ghost use Rattle.sv_elab_parts.specs.declared.so_far.SoFar.{SoFar as so_far_type};
ghost use Rattle.sv_elab_parts.specs.Adding.{Adding};
ghost use Rattle.sv_elab_member.specs.Parts as words;
ghost use Rattle.sv_elab_member.specs.Putting.{Placing, Putting};

use crate::flat::flat_class;
use crate::methods::{all_methods, constructor_put};
use crate::putting::and_putting;
use crate::stands::class_stands;
use crate::statics::all_statics;
use crate::within::{scopes_in_class, within_class};
use std::alloc::Global;
use sv_elab_parts::{SoFar, guarded_adding};
use sv_flat::Class;
use sv_names::{Around, ClassInfo, Refusal, copy_path, first};
use sv_tree::{Class as TreeClass, ClassItem};
use sv_value::Text;

/// The constructor and the methods of a class.
fn subroutines_put(
    alloc: Global,
    around: &Around,
    class: &ClassInfo,
    items: &[ClassItem],
    so_far: &mut SoFar,
) -> Result<(), Refusal>
    ensures { Putting so_far.old so_far.new result
        (words.subroutines_of (around_in around.now) class.now (map class_item items.now)) }
{
    let constructor = constructor_put(alloc, around, class, items, so_far);
    let methods = all_methods(alloc, around, class, items, so_far);
    and_putting(constructor, methods)
}

/// A class behind its objects and its subroutines.
#[tactic(auto, using(crate::proofs::PartLaws::class_added))]
fn class_put(
    alloc: Global,
    path: &[Text],
    class: Class,
    statics: Result<(), Refusal>,
    subroutines: Result<(), Refusal>,
    so_far: &mut SoFar,
) -> Result<(), Refusal>
    ensures { (a b : so_far_type) (os : checked (List object_type)) (ms : checked (List MadeSubroutine))
        → b ≡ record a { objects = b.objects } → Placing a.objects b.objects statics os → Putting b so_far.old subroutines ms
        → Adding a so_far.new result (words.given_by path.now class os ms) }
{
    match statics {
        Ok(()) => match subroutines {
            Ok(()) => {
                let path = copy_path(alloc, path)?;
                so_far.add_class(path, class)?;
                Ok(())
            }
            Err(f) => Err(f),
        },
        Err(e) => match subroutines {
            Ok(()) => Err(e),
            Err(f) => Err(first(e, f)),
        },
    }
}

/// What a class gives, whose members stand in `inner`.
fn class_inside(
    alloc: Global,
    around: &Around,
    inner: &Around,
    class: &ClassInfo,
    of: &TreeClass,
    so_far: &mut SoFar,
) -> Result<(), Refusal>
    ensures { Adding so_far.old so_far.new result
        (words.class_inside (around_in around.now) (around_in inner.now) class.now (class_in of.now)) }
{
    let items = of.items.as_slice();
    let path = class.path.as_slice();
    let flat = flat_class(alloc, around, class)?;
    let statics = all_statics(alloc, inner, class, items, &mut so_far.objects);
    let subroutines = subroutines_put(alloc, inner, class, items, so_far);
    let put = class_put(alloc, path, flat, statics, subroutines, so_far);
    guarded_adding(put, class_stands(alloc, inner, class, of))
}

/// A class, behind what stands so far: the objects of its static properties, those of its subroutines, its constructor and its methods in the order
/// of its items, and the class itself. What it breaks first is told: what its static properties, its constructor and its methods break, and the
/// rules on a class by itself.
pub fn class_made(
    alloc: Global,
    around: &Around,
    class: &ClassInfo,
    of: &TreeClass,
    so_far: &mut SoFar,
) -> Result<(), Refusal>
    ensures { Adding so_far.old so_far.new result
        (given (items.class_given class.now.path) (classes.class_parts (around_in around.now) class.now (class_in of.now))) }
{
    let outer = *around;
    let path = class.path.as_slice();
    let scopes = scopes_in_class(alloc, &outer, path)?;
    let inner = within_class(&outer, path, scopes.as_slice());
    class_inside(alloc, around, &inner, class, of, so_far)
}
