// A class of the flat design: the properties of its objects, and the methods of its slots (IEEE 1800-2017, 8.5, 8.13, 8.20 and 8.21).
ghost use Rattle.std.specs.Prelude.{◌≡◌, ◌++◌, replicate, map, option_map, flat_map, IfOk, OnOk};
ghost use Rattle.sv_names.specs.Classes as classes;
ghost use Rattle.sv_names.specs.Named as names;
ghost use Rattle.sv_names.specs.Views.{around_in};
ghost use Rattle.sv_elab_member.specs.Flat as words;

use crate::methods::constructor_path;
use std::alloc::Global;
use sv_elab_object::home_of;
use sv_flat::{Class, Declared};
use sv_names::{Around, Callee, Checked, ClassInfo, Known, Named, Path, Ty, line_of};
use sv_value::{ClassId, NoMemory, Place, RoutineId, Seq};

// ---- properties

/// Appends so many copies of a variable.
#[tactic(auto, using(crate::proofs::FlatLaws::copies_none, crate::proofs::FlatLaws::copies_more))]
fn add_copies(variable: Declared, count: u32, variables: &mut Seq<Declared>) -> Result<(), NoMemory>
    ensures { OnOk result (variables.new ≡ variables.old ++ replicate count variable) }
{
    for _made in 0..count {
        variables.push(variable)?;
    }
    Ok(())
}

/// Appends the variables of an object for a name of a type: one, or one for each element of a fixed array.
#[tactic(auto, using(crate::proofs::FlatLaws::size_told))]
fn add_variables(
    around: &Around,
    at: Place,
    ty: &Ty,
    variables: &mut Seq<Declared>,
) -> Result<(), NoMemory>
    ensures { OnOk result (variables.new ≡ variables.old ++ words.variables_of (around_in around.now) at ty.now) }
{
    let count = ty.size();
    if count == u32::MAX {
        return Err(NoMemory::Memory);
    }
    let variable = Declared {
        at,
        ty: around.numbers.data_of(ty),
    };
    add_copies(variable, count, variables)
}

/// Appends those of a declaration, where it is a property.
#[tactic(auto, using(crate::proofs::FlatLaws::no_variables))]
fn add_property(
    around: &Around,
    known: &Known,
    variables: &mut Seq<Declared>,
) -> Result<(), NoMemory>
    ensures { OnOk result (variables.new ≡ variables.old ++ words.property_variables (around_in around.now) known.now.value) }
{
    match &known.value {
        Checked::Good(Named::Property { name, ty, .. }) => {
            add_variables(around, name.at, ty, variables)
        }
        _ => Ok(()),
    }
}

/// Appends those of the declarations of a class.
fn add_properties(
    around: &Around,
    known: &[Known],
    variables: &mut Seq<Declared>,
) -> Result<(), NoMemory>
    ensures { OnOk result (variables.new ≡ variables.old ++ flat_map (classes.property_entry (around_in around.now)) known.now) }
{
    for one in known {
        add_property(around, one, variables)?;
    }
    Ok(())
}

/// Appends those of a class and its bases, of the bases first.
fn add_line(
    around: &Around,
    line: &[&ClassInfo],
    variables: &mut Seq<Declared>,
) -> Result<(), NoMemory>
    ensures { OnOk result (variables.new ≡ variables.old ++ classes.properties_of (around_in around.now) (map (λ k. k.now) line.now)) }
{
    match line {
        [] => Ok(()),
        [class, bases @ ..] => {
            add_line(around, bases, variables)?;
            add_properties(around, class.scope.known.as_slice(), variables)
        }
    }
}

/// The properties of the objects of a class, those of the bases first.
fn properties_of(
    alloc: Global,
    around: &Around,
    class: &ClassInfo,
) -> Result<Seq<Declared>, NoMemory>
    ensures { IfOk result (λ vs. vs
        ≡ classes.properties_of (around_in around.now) (names.line_of (around_in around.now).classes class.now.path)) }
{
    let line = line_of(alloc, around.classes, class.path.as_slice())?;
    let mut variables = Seq::new(alloc);
    add_line(around, line.as_slice(), &mut variables)?;
    Ok(variables)
}

// ---- methods

/// The number of a method; none of a pure one.
fn number_of(around: &Around, method: Option<&Callee>) -> Option<RoutineId>
    ensures { result ≡ words.number_of (around_in around.now) (option_map (λ c. c.now) method.entry) }
{
    match method {
        None => None,
        Some(method) => {
            if method.is_pure {
                return None;
            }
            Some(around.numbers.subroutine(method.path.as_slice()))
        }
    }
}

/// The method that stands in a slot of a class; none where it is pure.
#[tactic(auto, using(crate::proofs::FlatLaws::number_is))]
fn method_number(around: &Around, class: &ClassInfo, name: &[u8]) -> Option<RoutineId>
    ensures { result ≡ classes.method_number (around_in around.now) class.now name.now }
{
    number_of(around, around.method_of(class.path.as_slice(), name))
}

/// The methods of slots in order.
fn methods_of(
    alloc: Global,
    around: &Around,
    class: &ClassInfo,
) -> Result<Seq<Option<RoutineId>>, NoMemory>
    ensures { IfOk result (λ ms. ms ≡ map (classes.method_number (around_in around.now) class.now) class.now.slots) }
{
    let mut methods = Seq::new(alloc);
    let slots = class.slots.as_slice();
    for slot in slots {
        methods.push(method_number(around, class, slot.bytes()))?;
    }
    Ok(methods)
}

// ---- the class

/// The number of a base.
fn base_number(around: &Around, base: &Option<Path>) -> Option<ClassId>
    ensures { result ≡ option_map (around_in around.now).numbers.class base.now }
{
    match base {
        None => None,
        Some(path) => Some(around.numbers.class(path.as_slice())),
    }
}

/// A class of the flat design.
pub fn flat_class(alloc: Global, around: &Around, class: &ClassInfo) -> Result<Class, NoMemory>
    ensures { IfOk result (λ c. c ≡ classes.flat_class (around_in around.now) class.now) }
{
    let properties = properties_of(alloc, around, class)?;
    let methods = methods_of(alloc, around, class)?;
    let constructor = constructor_path(alloc, class.path.as_slice())?;
    Ok(Class {
        at: class.name.at,
        home: home_of(around),
        base: base_number(around, &class.base),
        properties,
        methods,
        constructor: around.numbers.subroutine(constructor.as_slice()),
    })
}
