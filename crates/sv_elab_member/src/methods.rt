// The constructor and the methods of a class, one after another (IEEE 1800-2017, 8.6, 8.7 and 8.21).
ghost use Rattle.std.specs.Prelude.{◌≡◌, map, IfOk};
ghost use Rattle.sv_tree.specs.UnitView.{class_item, method};
ghost use Rattle.sv_names.specs.Classes as classes;
ghost use Rattle.sv_names.specs.Subroutines as subroutines;
ghost use Rattle.sv_names.specs.Views.{around_in};
ghost use Rattle.sv_elab_member.specs.Methods as words;
ghost use Rattle.sv_elab_member.specs.Putting.{Putting};

use crate::putting::and_putting;
use std::alloc::Global;
use sv_elab_declare::is_constructor;
use sv_elab_parts::SoFar;
use sv_elab_routine::{constructor_made, pure_stands, routine_made};
use sv_elab_signal::within;
use sv_names::{Around, ClassInfo, Path, Refusal, copy_path};
use sv_tree::{ClassItem, Method};
use sv_value::{NoMemory, Text};

/// The path of the constructor of a class.
pub fn constructor_path(alloc: Global, class: &[Text]) -> Result<Path, NoMemory>
    ensures { IfOk result (λ p. p ≡ subroutines.constructor_path class.now) }
{
    let mut whole = copy_path(alloc, class)?;
    let mut text = Text::new(alloc);
    text.push_all(b"new")?;
    whole.push(text)?;
    Ok(whole)
}

/// A method with its body.
fn method_made(
    alloc: Global,
    around: &Around,
    class: &ClassInfo,
    of: &Method,
    so_far: &mut SoFar,
) -> Result<(), Refusal>
    ensures { Putting so_far.old so_far.new result (words.method_made (around_in around.now) class.now (method of.now)) }
{
    let path = class.path.as_slice();
    let own = within(alloc, path, &of.routine.head.name)?;
    let routine = routine_made(
        alloc,
        around,
        path,
        Some(path),
        of.qualifiers,
        &of.routine,
        &mut so_far.routines,
        &mut so_far.objects,
    );
    match routine {
        Ok(routine) => {
            so_far.add_subroutine(own, routine)?;
            Ok(())
        }
        Err(e) => Err(e),
    }
}

/// A method that is no constructor.
fn method_of(
    alloc: Global,
    around: &Around,
    class: &ClassInfo,
    item: &ClassItem,
    so_far: &mut SoFar,
) -> Result<(), Refusal>
    ensures { Putting so_far.old so_far.new result (classes.method_of (around_in around.now) class.now (class_item item.now)) }
{
    match item {
        ClassItem::Method(of) => {
            if is_constructor(&of.routine.head) {
                return Ok(());
            }
            method_made(alloc, around, class, of, so_far)
        }
        ClassItem::Pure(of) => {
            let path = class.path.as_slice();
            pure_stands(alloc, around, path, path, &of.head)
        }
        _ => Ok(()),
    }
}

/// The methods of a class in order.
pub fn all_methods(
    alloc: Global,
    around: &Around,
    class: &ClassInfo,
    items: &[ClassItem],
    so_far: &mut SoFar,
) -> Result<(), Refusal>
    ensures { Putting so_far.old so_far.new result (words.all_methods (around_in around.now) class.now (map class_item items.now)) }
{
    let mut done = Ok(());
    for item in items {
        let next = method_of(alloc, around, class, item, so_far);
        done = and_putting(done, next);
    }
    done
}

/// The constructor of a class, written or implied.
pub fn constructor_put(
    alloc: Global,
    around: &Around,
    class: &ClassInfo,
    items: &[ClassItem],
    so_far: &mut SoFar,
) -> Result<(), Refusal>
    ensures { Putting so_far.old so_far.new result
        (words.constructor_alone (around_in around.now) class.now (map class_item items.now)) }
{
    let path = constructor_path(alloc, class.path.as_slice())?;
    let routine = constructor_made(
        alloc,
        around,
        class,
        items,
        &mut so_far.routines,
        &mut so_far.objects,
    );
    match routine {
        Ok(routine) => {
            so_far.add_subroutine(path, routine)?;
            Ok(())
        }
        Err(e) => Err(e),
    }
}
