// Members of objects and classes (IEEE 1800-2017, 8): E7, E36 to E39, E51.
ghost use Rattle.std.specs.Prelude.{◌≡◌, Bool, IfOk, IfErr};
ghost use Rattle.sv_names.specs.declared.named.Named.TheVariants as named;
ghost use Rattle.sv_names.specs.declared.refusal.Refusal.TheVariants.{Memory};
ghost use Rattle.sv_names.specs.Given.{GivesAs};
ghost use Rattle.sv_names.specs.Named.{Around as around_of};
ghost use Rattle.sv_names.specs.Things as things;
ghost use Rattle.sv_names.specs.Views.{around_in, meaning_in};
ghost use Rattle.sv_elab_name.specs.Things.{thing_in};

use crate::names::{property, static_property};
use crate::variables::{after_object, constant_named};
use crate::{Thing, at_hand, subroutine_thing};
use std::alloc::Global;
use sv_names::{
    Around, Meaning, Named, Refusal, ResultVariable, Ty, Typed, broken_end, class_in, is_derived,
};
use sv_tree::Name;
use sv_value::{Place, Text};

/// A constant of a class, behind an object where there is one.
fn constant_member<'a>(
    alloc: Global,
    at: Place,
    object: Option<Typed>,
    t: &Typed,
    is_parameter: bool,
) -> Result<Thing<'a>, Refusal>
    ensures { (ar : around_of) (direct : Bool)
        → GivesAs thing_in result (things.member_thing ar at object direct (named.Constant t.now is_parameter)) }
{
    let t = constant_named(alloc, at, is_parameter, t)?;
    Ok(Thing::Value(after_object(object, t)))
}

/// A member, with its object where there is one; `super` and `::` name a method itself. E7: it is no value and no method. E37: it may not
/// be named here; E39: it needs an object, and there is none; E51: it is printed later, and does not last.
pub fn member_thing<'a>(
    alloc: Global,
    around: &Around,
    at: Place,
    object: Option<Typed>,
    is_direct: bool,
    meaning: Meaning<'a>,
) -> Result<Thing<'a>, Refusal>
    ensures { GivesAs thing_in result
        (things.member_thing (around_in around.now) at object is_direct (meaning_in meaning.entry)) }
{
    let no_member = Refusal::Rule { rule: 7, at };
    match meaning.named {
        Named::Property {
            class,
            protection,
            name,
            ty,
        } => property(
            alloc,
            around,
            at,
            class.as_slice(),
            *protection,
            name,
            ty,
            object,
        ),
        Named::StaticProperty {
            class,
            protection,
            object: path,
            ty,
        } => static_property(
            alloc,
            around,
            at,
            class.as_slice(),
            *protection,
            path.as_slice(),
            ty,
            object,
        ),
        Named::Subroutine(callee) => subroutine_thing(around, at, callee.get(), object, is_direct),
        Named::Constant(t, is_parameter) => constant_member(
            alloc,
            at,
            object,
            t.get(),
            *is_parameter,
        ),
        Named::Itself(_, ResultVariable::Local { .. }) => Err(no_member),
        Named::Itself(_, ResultVariable::Object(_, _)) => Err(no_member),
        Named::Variable(_, _) => Err(no_member),
        Named::Net(_, _) => Err(no_member),
        Named::Input { .. } => Err(no_member),
        Named::Local { .. } => Err(no_member),
        Named::TypeName(_) => Err(no_member),
        Named::ClassName(_) => Err(no_member),
        Named::ClockingBlock(_, _) => Err(no_member),
        Named::Other => Err(no_member),
    }
}

/// A member by its name, as `member_thing` has it. E36: neither the class nor one of its bases has it; where one of these bases breaks a
/// rule, that rule.
pub fn member_named<'a>(
    alloc: Global,
    around: &Around<'a>,
    class: &[Text],
    object: Option<Typed>,
    is_direct: bool,
    name: &Name,
) -> Result<Thing<'a>, Refusal>
    ensures { GivesAs thing_in result (things.member_named (around_in around.now) class.now object is_direct name.now) }
{
    match around.member_of(class, name.text.bytes()) {
        Some(found) => match found.told(name) {
            Ok(meaning) => member_thing(alloc, around, name.at, object, is_direct, meaning),
            Err(e) => Err(e),
        },
        None => match broken_end(around.classes, class) {
            Some(fault) => Err(fault.refusal()),
            None => Err(Refusal::Rule {
                rule: 36,
                at: name.at,
            }),
        },
    }
}

/// The object at hand, where it is one of the class.
pub fn object_of(
    alloc: Global,
    around: &Around,
    at: Place,
    class: &[Text],
) -> Result<Option<Typed>, Refusal>
    ensures ok { IfOk result (λ o. o ≡ things.object_of (around_in around.now) at class.now) }
    ensures err { IfErr result (λ e. e ≡ Memory) }
{
    match around.class {
        None => Ok(None),
        Some(own) => {
            if is_derived(around.classes, own, class) {
                at_hand(alloc, around, at)
            } else {
                Ok(None)
            }
        }
    }
}

/// E7: the class before `::` (8.23).
pub fn class_named<'a>(at: Place, meaning: Meaning<'a>) -> Result<&'a [Text], Refusal>
    ensures { GivesAs (λ p. p.now) result (things.class_named at (meaning_in meaning.entry)) }
{
    let no_class = Refusal::Rule { rule: 7, at };
    match meaning.named {
        Named::ClassName(class) => Ok(class.as_slice()),
        Named::TypeName(ty) => match ty {
            Ty::Class(class) => Ok(class.as_slice()),
            _ => Err(no_class),
        },
        Named::Itself(_, ResultVariable::Local { .. }) => Err(no_class),
        Named::Itself(_, ResultVariable::Object(_, _)) => Err(no_class),
        Named::Variable(_, _) => Err(no_class),
        Named::Net(_, _) => Err(no_class),
        Named::Input { .. } => Err(no_class),
        Named::Local { .. } => Err(no_class),
        Named::Property { .. } => Err(no_class),
        Named::StaticProperty { .. } => Err(no_class),
        Named::Constant(_, _) => Err(no_class),
        Named::Subroutine(_) => Err(no_class),
        Named::ClockingBlock(_, _) => Err(no_class),
        Named::Other => Err(no_class),
    }
}

/// E38: the class that the class around extends (8.15).
pub fn base_of<'a>(around: &Around<'a>, at: Place) -> Result<&'a [Text], Refusal>
    ensures { GivesAs (λ p. p.now) result (things.base_of (around_in around.now) at) }
{
    let no_base = Refusal::Rule { rule: 38, at };
    let Some(own) = around.class else {
        return Err(no_base);
    };
    match class_in(around.classes, own) {
        None => Err(no_base),
        Some(info) => match &info.base {
            None => Err(no_base),
            Some(base) => Ok(base.as_slice()),
        },
    }
}
