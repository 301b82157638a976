// The objects of static properties, with their initial values (IEEE 1800-2017, 8.9 and 10.5): E16, E17, E25, E31, E42.
ghost use Rattle.std.specs.Prelude.{◌≡◌, ◌++◌, List, map, option_map};
ghost use Rattle.sv_flat.specs.declared.object.Object.{Object as object_type};
ghost use Rattle.sv_tree.specs.StmtView as view;
ghost use Rattle.sv_tree.specs.UnitView.{class_item};
ghost use Rattle.sv_names.specs.declared.checked.Checked.{Checked as checked};
ghost use Rattle.sv_names.specs.Classes as classes;
ghost use Rattle.sv_names.specs.Joined.{joined as behind_one};
ghost use Rattle.sv_names.specs.Views.{around_in};
ghost use Rattle.sv_elab_member.specs.Putting.{Placing};
ghost use Rattle.sv_elab_member.specs.Statics as words;

use std::alloc::Global;
use sv_elab_object::{Flags, object_at};
use sv_elab_routine::sv_elab_variable::{initial_broken, initial_of};
use sv_flat::{Object, ObjectKind};
use sv_names::{Around, Checked, ClassInfo, Named, Refusal, Ty, declared_in, first};
use sv_tree::{ClassItem, Declarator, Init};
use sv_value::{Place, Seq, Text};

/// Objects, and further ones behind them.
#[tactic(auto, using(crate::proofs::PuttingLaws::placed_behind))]
fn and_placing(done: Result<(), Refusal>, next: Result<(), Refusal>) -> Result<(), Refusal>
    ensures { (os os' os'' : List object_type) (xs ys : checked (List object_type))
        → Placing os os' done xs → Placing os' os'' next ys → Placing os os'' result (behind_one xs ys) }
{
    match done {
        Ok(()) => next,
        Err(e) => match next {
            Ok(()) => Err(e),
            Err(f) => Err(first(e, f)),
        },
    }
}

/// The object of a static property of this path and type.
fn static_property(
    alloc: Global,
    around: &Around,
    at: Place,
    path: &[Text],
    ty: &Ty,
    init: &Option<Init>,
    objects: &mut Seq<Object>,
) -> Result<(), Refusal>
    ensures { Placing objects.old objects.new result
        (words.static_property (around_in around.now) at path.now ty.now (option_map view.init init.now)) }
{
    match initial_of(alloc, at, ty, init, around) {
        Ok(initial) => {
            let flags = Flags {
                is_port: false,
                is_property: true,
                is_traced: false,
            };
            let kind = ObjectKind::Variable;
            let object = object_at(alloc, around, kind, flags, at, path, ty, initial)?;
            objects.push(object)?;
            Ok(())
        }
        Err(e) => Err(e),
    }
}

/// The object of what a name stands for, where it is a static property.
#[tactic(auto, using(crate::proofs::StaticLaws::none_placed, crate::proofs::StaticLaws::no_static))]
fn static_named(
    alloc: Global,
    around: &Around,
    at: Place,
    named: &Named,
    init: &Option<Init>,
    objects: &mut Seq<Object>,
) -> Result<(), Refusal>
    ensures { Placing objects.old objects.new result
        (words.static_named (around_in around.now) at named.now (option_map view.init init.now)) }
{
    match named {
        Named::StaticProperty { object, ty, .. } => {
            static_property(alloc, around, at, object.as_slice(), ty, init, objects)
        }
        _ => Ok(()),
    }
}

/// The object of a name of a declaration, where it is a static property.
fn static_object(
    alloc: Global,
    around: &Around,
    class: &ClassInfo,
    one: &Declarator,
    objects: &mut Seq<Object>,
) -> Result<(), Refusal>
    ensures { Placing objects.old objects.new result
        (classes.static_object (around_in around.now) class.now (view.declarator one.now)) }
{
    match declared_in(0, one.name.text.bytes(), &class.scope.known) {
        None => Ok(()),
        Some(found) => match &found.known.value {
            Checked::Good(named) => {
                static_named(alloc, around, one.name.at, named, &one.init, objects)
            }
            Checked::Broken(f) => Err(initial_broken(alloc, *f, &one.init, around)),
        },
    }
}

/// Those of one declaration.
fn static_names(
    alloc: Global,
    around: &Around,
    class: &ClassInfo,
    names: &[Declarator],
    objects: &mut Seq<Object>,
) -> Result<(), Refusal>
    ensures { Placing objects.old objects.new result
        (words.static_names (around_in around.now) class.now (map view.declarator names.now)) }
{
    let mut done = Ok(());
    for one in names {
        let next = static_object(alloc, around, class, one, objects);
        done = and_placing(done, next);
    }
    done
}

/// Those of an item.
#[tactic(auto, using(crate::proofs::StaticLaws::none_placed))]
fn static_objects(
    alloc: Global,
    around: &Around,
    class: &ClassInfo,
    item: &ClassItem,
    objects: &mut Seq<Object>,
) -> Result<(), Refusal>
    ensures { Placing objects.old objects.new result
        (classes.static_objects (around_in around.now) class.now (class_item item.now)) }
{
    match item {
        ClassItem::Property(property) => {
            if property.qualifiers.is_static {
                let names = property.decl.names.as_slice();
                return static_names(alloc, around, class, names, objects);
            }
            Ok(())
        }
        _ => Ok(()),
    }
}

/// The objects of the static properties of these items in order, behind those that stand so far. E16 and E17: an initializer does not fit by type;
/// E25: it calls, or makes an object; E42: a fixed array has one.
pub fn all_statics(
    alloc: Global,
    around: &Around,
    class: &ClassInfo,
    items: &[ClassItem],
    objects: &mut Seq<Object>,
) -> Result<(), Refusal>
    ensures { Placing objects.old objects.new result
        (words.all_statics (around_in around.now) class.now (map class_item items.now)) }
{
    let mut done = Ok(());
    for item in items {
        let next = static_objects(alloc, around, class, item, objects);
        done = and_placing(done, next);
    }
    done
}
