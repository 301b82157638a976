// Whether a design has only forms that are built.
ghost use Rattle.std.specs.Prelude.{◌≡◌, ◌<◌, ◌^◌, ◌↔◌, IsTrue};
ghost use Rattle.std.specs.List.{AllByRecursion};
ghost use Rattle.sv_flat.specs.Opening.{elements_of};
ghost use Rattle.sv_built.specs.Built.{IsBuilt, IsBuiltKind, IsBuiltInitial, IsBuiltObject, IsBuiltProcess};

use crate::exprs::{is_built_expr, is_built_type};
use crate::stmts::are_built_routines;
use crate::targets::are_built_watches;
use sv_flat::{Bounds, DataType, Initial, Object, ObjectKind, Parts, Process};
use sv_value::Plain;

/// Whether all of a design is built, so that `Design::new` may take it.
pub fn is_built(parts: &Parts) -> bool
    ensures { IsTrue result ↔ IsBuilt parts.now }
{
    parts.clockings.as_slice().is_empty()
        && parts.processes.as_slice().len() < 1 << 18
        && parts.scale.unit <= 17
        && are_built_objects(parts.objects.as_slice())
        && are_built_processes(parts.processes.as_slice())
        && are_built_routines(parts.routines.as_slice())
}

fn are_built_objects(objects: &[Object]) -> bool
    ensures { IsTrue result ↔ AllByRecursion IsBuiltObject objects.now }
{
    for object in objects {
        if !is_built_object(object) {
            return false;
        }
    }
    true
}

fn is_built_object(object: &Object) -> bool
    ensures { IsTrue result ↔ IsBuiltObject object.now }
{
    is_built_kind(object.kind, object.ty)
        && is_built_type(object.ty)
        && has_few_elements(object.array)
        && is_built_initial(&object.initial)
}

fn is_built_kind(kind: ObjectKind, ty: DataType) -> bool
    ensures { IsTrue result ↔ IsBuiltKind kind ty }
{
    match kind {
        ObjectKind::Variable => true,
        ObjectKind::Result => true,
        ObjectKind::Net(_) => match ty {
            DataType::Plain(Plain::Integral(_)) => true,
            _ => false,
        },
        ObjectKind::Sample => false,
    }
}

/// Whether the elements of an object can be numbered in 32 bits.
fn has_few_elements(array: Option<Bounds>) -> bool
    ensures { IsTrue result ↔ (elements_of array < 2 ^ 32) }
{
    match array {
        None => true,
        Some(bounds) => bounds.left.abs_diff(bounds.right) < (1 << 32) - 1,
    }
}

fn is_built_initial(initial: &Option<Initial>) -> bool
    ensures { IsTrue result ↔ IsBuiltInitial initial.now }
{
    match initial {
        None => true,
        Some(Initial::Value(value)) => is_built_expr(value),
        Some(Initial::Copy(_)) => false,
        Some(Initial::Mailbox(_)) => false,
        Some(Initial::Semaphore(_)) => false,
    }
}

fn are_built_processes(processes: &[Process]) -> bool
    ensures { IsTrue result ↔ AllByRecursion IsBuiltProcess processes.now }
{
    for process in processes {
        if !is_built_process(process) {
            return false;
        }
    }
    true
}

fn is_built_process(process: &Process) -> bool
    ensures { IsTrue result ↔ IsBuiltProcess process.now }
{
    process.program.is_none() && are_built_watches(process.watched.as_slice())
}
