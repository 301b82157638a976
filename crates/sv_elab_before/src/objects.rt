// The objects of the arguments and of the result of a static subroutine (IEEE 1800-2017, 13.3, 13.4 and 13.4.1).
ghost use Rattle.std.specs.Prelude.{◌≡◌, ◌++◌, ℕ, map, option_map, OnOk};
ghost use Rattle.sv_tree.specs.UnitView.{argument, head as head_in};
ghost use Rattle.sv_flat.specs.declared.object.ObjectKind.TheVariants as kinds;
ghost use Rattle.sv_names.specs.declared.named.Named.TheVariants as variants;
ghost use Rattle.sv_names.specs.Named as names;
ghost use Rattle.sv_names.specs.Statements as statements;
ghost use Rattle.sv_names.specs.Subroutines as subroutines;
ghost use Rattle.sv_names.specs.Views.{around_in};
ghost use Rattle.sv_elab_before.specs.Objects as words;

use std::alloc::Global;
use sv_elab_object::{Flags, object_at};
use sv_flat::{Object, ObjectKind};
use sv_names::{Around, Checked, Known, Named, ResultVariable, Scope, Ty, declared_in};
use sv_tree::{Argument, Head, Name};
use sv_value::{NoMemory, Place, Seq, Text};

/// Appends an object of this path.
fn add_object(
    alloc: Global,
    around: &Around,
    kind: ObjectKind,
    at: Place,
    path: &[Text],
    ty: &Ty,
    objects: &mut Seq<Object>,
) -> Result<(), NoMemory>
    ensures { OnOk result (objects.new
        ≡ objects.old ++ words.object_named (around_in around.now) kind at (variants.Variable path.now ty.now)) }
{
    let flags = Flags {
        is_port: false,
        is_property: false,
        is_traced: false,
    };
    let object = object_at(alloc, around, kind, flags, at, path, ty, None)?;
    objects.push(object)
}

// ---- arguments

/// Appends the object of what a name stands for, where it is a static variable.
#[tactic(auto, using(crate::proofs::ObjectLaws::none_named))]
fn add_named(
    alloc: Global,
    around: &Around,
    at: Place,
    named: &Named,
    objects: &mut Seq<Object>,
) -> Result<(), NoMemory>
    ensures { (up place : ℕ) → OnOk result (objects.new
        ≡ objects.old ++ words.object_named (around_in around.now) kinds.Variable at (names.at_level up place named.now)) }
{
    match named {
        Named::Variable(path, ty) => {
            add_object(
                alloc,
                around,
                ObjectKind::Variable,
                at,
                path.as_slice(),
                ty,
                objects,
            )
        }
        _ => Ok(()),
    }
}

/// Appends the object of an argument, where it is static.
fn add_argument(
    alloc: Global,
    around: &Around,
    scope: &Scope,
    name: &Name,
    objects: &mut Seq<Object>,
) -> Result<(), NoMemory>
    ensures { OnOk result (objects.new
        ≡ objects.old ++ words.object_called (around_in around.now) scope.now name.now) }
{
    match declared_in(0, name.text.bytes(), &scope.known) {
        None => Ok(()),
        Some(found) => match &found.known.value {
            Checked::Good(named) => add_named(alloc, around, name.at, named, objects),
            Checked::Broken(_) => Ok(()),
        },
    }
}

/// Appends the objects of static arguments in order.
fn add_arguments(
    alloc: Global,
    around: &Around,
    scope: &Scope,
    of: &[Argument],
    objects: &mut Seq<Object>,
) -> Result<(), NoMemory>
    ensures { OnOk result (objects.new
        ≡ objects.old ++ words.objects_of (around_in around.now) scope.now (map argument of.now)) }
{
    for one in of {
        add_argument(alloc, around, scope, &one.name, objects)?;
    }
    Ok(())
}

// ---- results

/// The result variable of a declaration, where that is the function itself.
fn result_known(known: &Known) -> Option<&ResultVariable>
    ensures { option_map (λ v. v.now) result ≡ words.result_known known.now.value }
{
    match &known.value {
        Checked::Good(Named::Itself(_, variable)) => Some(variable),
        _ => None,
    }
}

/// The result variable of a function among the declarations of its scope.
#[tactic(auto, using(crate::proofs::ObjectLaws::result_here, crate::proofs::ObjectLaws::result_behind))]
fn result_in(known: &[Known]) -> Option<&ResultVariable>
    ensures { words.static_result (option_map (λ v. v.now) result)
        ≡ words.if_static (statements.result_variable 0 0 known.now) }
{
    match known {
        [] => None,
        [first, rest @ ..] => match result_known(first) {
            Some(variable) => Some(variable),
            None => result_in(rest),
        },
    }
}

/// Appends the object of a result variable, where it is static.
fn add_static(
    alloc: Global,
    around: &Around,
    at: Place,
    variable: Option<&ResultVariable>,
    objects: &mut Seq<Object>,
) -> Result<(), NoMemory>
    ensures { OnOk result (objects.new ≡ objects.old
        ++ words.result_named (around_in around.now) at (words.static_result (option_map (λ v. v.now) variable.entry))) }
{
    match variable {
        Some(ResultVariable::Object(path, ty)) => {
            add_object(
                alloc,
                around,
                ObjectKind::Result,
                at,
                path.as_slice(),
                ty,
                objects,
            )
        }
        Some(ResultVariable::Local { .. }) => Ok(()),
        None => Ok(()),
    }
}

/// Appends the object of the result of a static function.
#[tactic(auto, using(crate::proofs::ObjectLaws::result_objects_are))]
fn add_result(
    alloc: Global,
    around: &Around,
    scope: &Scope,
    name: &Name,
    objects: &mut Seq<Object>,
) -> Result<(), NoMemory>
    ensures { OnOk result (objects.new
        ≡ objects.old ++ subroutines.result_objects (around_in around.now) scope.now name.now) }
{
    let variable = result_in(scope.known.as_slice());
    add_static(alloc, around, name.at, variable, objects)
}

// ---- both

/// Appends the objects of the arguments and of the result of a subroutine, in whose statements this stands.
pub fn add_objects(
    alloc: Global,
    around: &Around,
    scope: &Scope,
    of: &Head,
    objects: &mut Seq<Object>,
) -> Result<(), NoMemory>
    ensures { OnOk result (objects.new
        ≡ objects.old ++ words.own_objects (around_in around.now) scope.now (head_in of.now)) }
{
    add_arguments(alloc, around, scope, of.arguments.as_slice(), objects)?;
    add_result(alloc, around, scope, &of.name, objects)
}
