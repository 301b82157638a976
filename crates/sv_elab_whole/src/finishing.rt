// The design of what was given: nets with the number of their drivers, and the routines of subroutines in their places.
ghost use Rattle.std.specs.Prelude.{◌≡◌, ◌++◌, IfOk, OnOk, drop, map};
ghost use Rattle.sv_names.specs.Design as design;
ghost use Rattle.sv_elab_parts.specs.Adding.{so_far_in};

use std::alloc::Global;
use sv_elab_drives::Drives;
use sv_elab_parts::SoFar;
use sv_flat::{Instance, Object, ObjectKind, Parts, Routine, Scale};
use sv_value::{NoMemory, Seq};

/// Gives an object that is a net the number of its drivers.
fn set_drivers(drives: &Drives, object: &mut Object) -> Result<(), NoMemory>
    ensures { OnOk result (object.new ≡ design.with_drivers drives.now object.old) }
{
    match object.kind {
        ObjectKind::Net(_) => {
            let count = drives.times(object.path.as_slice())?;
            object.kind = ObjectKind::Net(count);
            Ok(())
        }
        _ => Ok(()),
    }
}

/// Appends objects, nets with the number of their drivers.
fn add_driven(drives: &Drives, objects: Seq<Object>, list: &mut Seq<Object>) -> Result<(), NoMemory>
    ensures { OnOk result (list.new ≡ list.old ++ map (design.with_drivers drives.now) objects) }
{
    for object in objects.into_vec() {
        let mut object = object;
        set_drivers(drives, &mut object)?;
        list.push(object)?;
    }
    Ok(())
}

/// The routines of subroutines, and behind them what was added behind so many places.
fn all_routines(
    subroutines: Seq<Routine>,
    places: usize,
    routines: Seq<Routine>,
) -> Result<Seq<Routine>, NoMemory>
    ensures { IfOk result (λ rs. rs ≡ subroutines ++ drop places routines) }
{
    let mut all = subroutines;
    let mut more = places;
    for routine in routines.into_vec() {
        if 0 < more {
            more -= 1;
        } else {
            all.push(routine)?;
        }
    }
    Ok(all)
}

/// The design of what was given, where so many subroutines have their places before all other routines.
pub fn parts_from(
    alloc: Global,
    scale: Scale,
    instances: Seq<Instance>,
    places: usize,
    so_far: SoFar,
) -> Result<Parts, NoMemory>
    ensures { IfOk result (λ p. p ≡ design.parts_from scale instances places (so_far_in so_far)) }
{
    let SoFar {
        objects,
        samples,
        processes,
        classes,
        subroutines,
        routines,
        clockings,
        drives,
        class_paths: _,
        subroutine_paths: _,
        clocking_paths: _,
    } = so_far;
    let count = objects
        .as_slice()
        .len()
        .saturating_add(samples.as_slice().len());
    let mut all = Seq::from_vec(Vec::with_capacity(alloc, count)?);
    add_driven(&drives, objects, &mut all)?;
    add_driven(&drives, samples, &mut all)?;
    let routines = all_routines(subroutines, places, routines)?;
    Ok(Parts {
        objects: all,
        processes,
        classes,
        routines,
        clockings,
        instances,
        scale,
    })
}
