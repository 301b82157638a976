// What a name alone stands for (IEEE 1800-2017, 6, 8, 13 and 14): E7, E37, E39, E51.
ghost use Rattle.std.specs.Prelude.{◌≡◌, Bool, None, Some, if◌then◌else◌};
ghost use Rattle.sv_names.specs.declared.named.Named.TheVariants as named;
ghost use Rattle.sv_names.specs.Given.{GivesAs};
ghost use Rattle.sv_names.specs.Named.{Around as around, at_level};
ghost use Rattle.sv_names.specs.Things as things;
ghost use Rattle.sv_names.specs.Views.{around_in, meaning_in};
ghost use Rattle.sv_elab_name.specs.Things.{thing_in};

use crate::variables::{constant_named, static_typed};
use crate::{Thing, at_hand, field_typed, lasts, local_typed, may_be_named, object_typed};
use std::alloc::Global;
use sv_names::{
    Around, Begin, Callee, Meaning, Named, Protection, Refusal, ResultVariable, SharedPath, Ty,
    Typed, copy_path,
};
use sv_tree::Name;
use sv_value::{Place, Text};

// ---- objects and variables

/// A static variable.
fn variable<'a>(
    alloc: Global,
    around: &Around,
    at: Place,
    path: &SharedPath,
    ty: &Ty,
) -> Result<Thing<'a>, Refusal>
    ensures { GivesAs thing_in result (things.named_thing (around_in around.now) at (named.Variable path.now ty.now)) }
{
    let begins = Begin::Variable(path.share()?);
    let t = object_typed(alloc, around, at, path.as_slice(), ty, begins)?;
    Ok(Thing::Value(t))
}

/// A net.
fn net<'a>(
    alloc: Global,
    around: &Around,
    at: Place,
    path: &SharedPath,
    ty: &Ty,
) -> Result<Thing<'a>, Refusal>
    ensures { GivesAs thing_in result (things.named_thing (around_in around.now) at (named.Net path.now ty.now)) }
{
    let begins = Begin::Net(path.share()?);
    let t = object_typed(alloc, around, at, path.as_slice(), ty, begins)?;
    Ok(Thing::Value(t))
}

/// An input port, in its own unit.
fn input<'a>(
    alloc: Global,
    around: &Around,
    at: Place,
    path: &[Text],
    ty: &Ty,
) -> Result<Thing<'a>, Refusal>
    ensures { (is_net : Bool)
        → GivesAs thing_in result (things.named_thing (around_in around.now) at (named.Input path.now is_net ty.now)) }
{
    let t = object_typed(alloc, around, at, path, ty, Begin::Input)?;
    Ok(Thing::Value(t))
}

/// E7, E51: a variable of an activation.
fn local<'a>(
    alloc: Global,
    around: &Around,
    at: Place,
    up: u32,
    place: u32,
    ty: &Ty,
) -> Result<Thing<'a>, Refusal>
    ensures { GivesAs thing_in result (things.named_thing (around_in around.now) at (named.Local up place ty.now)) }
{
    if around.is_initial {
        return Err(Refusal::Rule { rule: 7, at });
    }
    lasts(around, at)?;
    let t = local_typed(alloc, around, at, up, place, ty, Begin::InActivation)?;
    Ok(Thing::Value(t))
}

/// E37, E39, E51: a property of an object, where there is one.
pub(crate) fn property<'a>(
    alloc: Global,
    around: &Around,
    at: Place,
    class: &[Text],
    protection: Protection,
    name: &Name,
    ty: &Ty,
    object: Option<Typed>,
) -> Result<Thing<'a>, Refusal>
    ensures { (direct : Bool) → GivesAs thing_in result
        (things.member_thing (around_in around.now) at object direct (named.Property class.now protection name.now ty.now)) }
{
    may_be_named(around, protection, class, at)?;
    let Some(object) = object else {
        return Err(Refusal::Rule { rule: 39, at });
    };
    lasts(around, at)?;
    let t = field_typed(alloc, around, at, class, name, ty, object)?;
    Ok(Thing::Value(t))
}

/// E37, E39, E51: a property of the object at hand.
fn own_property<'a>(
    alloc: Global,
    around: &Around,
    at: Place,
    class: &[Text],
    protection: Protection,
    name: &Name,
    ty: &Ty,
) -> Result<Thing<'a>, Refusal>
    ensures { GivesAs thing_in result
        (things.named_thing (around_in around.now) at (named.Property class.now protection name.now ty.now)) }
{
    let object = at_hand(alloc, around, at)?;
    property(alloc, around, at, class, protection, name, ty, object)
}

/// E37, E51: a static property, which may be named through an object.
pub(crate) fn static_property<'a>(
    alloc: Global,
    around: &Around,
    at: Place,
    class: &[Text],
    protection: Protection,
    path: &[Text],
    ty: &Ty,
    object: Option<Typed>,
) -> Result<Thing<'a>, Refusal>
    ensures { (direct : Bool) → GivesAs thing_in result
        (things.member_thing (around_in around.now) at object direct (named.StaticProperty class.now protection path.now ty.now)) }
{
    may_be_named(around, protection, class, at)?;
    lasts(around, at)?;
    let t = static_typed(alloc, around, at, path, ty, not_at_hand(object))?;
    Ok(Thing::Value(t))
}

// ---- constants and types

/// A parameter, or an enum item.
fn constant<'a>(
    alloc: Global,
    at: Place,
    t: &Typed,
    is_parameter: bool,
) -> Result<Thing<'a>, Refusal>
    ensures { (ar : around) → GivesAs thing_in result (things.named_thing ar at (named.Constant t.now is_parameter)) }
{
    let t = constant_named(alloc, at, is_parameter, t)?;
    Ok(Thing::Value(t))
}

/// A type.
fn type_name<'a>(alloc: Global, at: Place, ty: &Ty) -> Result<Thing<'a>, Refusal>
    ensures { (ar : around) → GivesAs thing_in result (things.named_thing ar at (named.TypeName ty.now)) }
{
    let ty = ty.copy(alloc)?;
    Ok(Thing::TypeName { ty, at })
}

/// A class.
fn class_name<'a>(alloc: Global, at: Place, class: &[Text]) -> Result<Thing<'a>, Refusal>
    ensures { (ar : around) → GivesAs thing_in result (things.named_thing ar at (named.ClassName class.now)) }
{
    let class = copy_path(alloc, class)?;
    Ok(Thing::TypeName {
        ty: Ty::Class(class),
        at,
    })
}

// ---- subroutines

/// Whether an object is the one at hand.
fn is_at_hand(object: &Typed) -> bool
    ensures { things.not_at_hand (Some object.now) ≡ (if result then None else Some object.now) }
{
    match object.target.begins() {
        Some(Begin::Object) => true,
        _ => false,
    }
}

/// A reference other than the object at hand.
pub(crate) fn not_at_hand(object: Option<Typed>) -> Option<Typed>
    ensures { result ≡ things.not_at_hand object }
{
    match object {
        None => None,
        Some(o) => { if is_at_hand(&o) { None } else { Some(o) } }
    }
}

/// E37, E39: a method of a class, with the object that it needs.
fn method<'a>(
    around: &Around,
    at: Place,
    callee: &'a Callee,
    class: &[Text],
    object: Option<Typed>,
    is_direct: bool,
) -> Result<Thing<'a>, Refusal>
    requires { callee.now.class ≡ Some class.now }
    ensures { GivesAs thing_in result (things.subroutine_thing (around_in around.now) at callee.now object is_direct) }
{
    may_be_named(around, callee.protection, class, at)?;
    if callee.is_static {
        let object = not_at_hand(object);
        return Ok(Thing::Subroutine {
            callee,
            object,
            is_direct,
            at,
        });
    }
    match object {
        None => Err(Refusal::Rule { rule: 39, at }),
        Some(object) => Ok(Thing::Subroutine {
            callee,
            object: Some(object),
            is_direct,
            at,
        }),
    }
}

/// A subroutine, with the object that it needs. E37: it is a method that may not be named here; E39: it needs an object, and there is none.
pub fn subroutine_thing<'a>(
    around: &Around,
    at: Place,
    callee: &'a Callee,
    object: Option<Typed>,
    is_direct: bool,
) -> Result<Thing<'a>, Refusal>
    ensures { GivesAs thing_in result (things.subroutine_thing (around_in around.now) at callee.now object is_direct) }
{
    match &callee.class {
        None => Ok(Thing::Subroutine {
            callee,
            object: None,
            is_direct,
            at,
        }),
        Some(class) => method(around, at, callee, class.as_slice(), object, is_direct),
    }
}

/// A function inside itself.
fn itself<'a>(
    alloc: Global,
    around: &Around,
    at: Place,
    meaning: Meaning,
    callee: &'a Callee,
    variable: &ResultVariable,
) -> Result<Thing<'a>, Refusal>
    ensures { GivesAs thing_in result
        (things.named_thing (around_in around.now) at (at_level meaning.entry.up meaning.entry.place (named.Itself callee.now variable.now))) }
{
    let object = at_hand(alloc, around, at)?;
    match variable {
        ResultVariable::Object(path, ty) => {
            let path = path.as_slice();
            let variable = object_typed(alloc, around, at, path, ty, Begin::Result)?;
            let variable = Box::new(alloc, variable)?;
            Ok(Thing::ItsResult {
                callee,
                object,
                variable,
                at,
            })
        }
        ResultVariable::Local { ty, .. } => {
            let (up, place) = (meaning.up, meaning.place);
            let variable = local_typed(alloc, around, at, up, place, ty, Begin::InActivation)?;
            let variable = Box::new(alloc, variable)?;
            Ok(Thing::ItsResult {
                callee,
                object,
                variable,
                at,
            })
        }
    }
}

// ---- the table

/// What a name alone stands for, by its meaning. E7: it stands for no value, subroutine, clocking block or type, or for a variable of an
/// activation in the initializer of a static one. E37, E39: it is a member of a class. E51: it is printed later, and does not last.
pub fn named_thing<'a>(
    alloc: Global,
    around: &Around,
    at: Place,
    meaning: Meaning<'a>,
) -> Result<Thing<'a>, Refusal>
    ensures { GivesAs thing_in result (things.named_thing (around_in around.now) at (meaning_in meaning.entry)) }
{
    match meaning.named {
        Named::Variable(path, ty) => variable(alloc, around, at, path, ty),
        Named::Net(path, ty) => net(alloc, around, at, path, ty),
        Named::Input { path, ty, .. } => input(alloc, around, at, path.as_slice(), ty),
        Named::Local { ty, .. } => local(alloc, around, at, meaning.up, meaning.place, ty),
        Named::Property {
            class,
            protection,
            name,
            ty,
        } => own_property(alloc, around, at, class.as_slice(), *protection, name, ty),
        Named::StaticProperty {
            class,
            protection,
            object,
            ty,
        } => static_property(
            alloc,
            around,
            at,
            class.as_slice(),
            *protection,
            object.as_slice(),
            ty,
            None,
        ),
        Named::Constant(t, is_parameter) => constant(alloc, at, t.get(), *is_parameter),
        Named::TypeName(ty) => type_name(alloc, at, ty),
        Named::ClassName(class) => class_name(alloc, at, class.as_slice()),
        Named::Subroutine(callee) => {
            let object = at_hand(alloc, around, at)?;
            subroutine_thing(around, at, callee.get(), object, false)
        }
        Named::Itself(callee, result) => {
            itself(alloc, around, at, meaning, callee.get(), result)
        }
        Named::ClockingBlock(path, signals) => Ok(Thing::Block {
            path: path.as_slice(),
            signals: signals.as_slice(),
            at,
        }),
        Named::Other => Err(Refusal::Rule { rule: 7, at }),
    }
}
