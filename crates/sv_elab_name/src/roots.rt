// What a name with suffixes begins with (IEEE 1800-2017, 8.11, 8.15, 8.23 and 23.9): E6, E7, E36 to E39.
ghost use Rattle.std.specs.Prelude.{◌≡◌, true};
ghost use Rattle.sv_names.specs.Checked.{◌▷◌};
ghost use Rattle.sv_names.specs.Given.{GivesAs};
ghost use Rattle.sv_names.specs.Things as things;
ghost use Rattle.sv_names.specs.Views.{around_in, meaning_in};
ghost use Rattle.sv_tree.specs.declared.expr.Root.TheVariants as root;
ghost use Rattle.sv_elab_name.specs.Things.{thing_in};

use crate::{
    Thing, at_hand, base_of, class_named, member_named, named_thing, object_of, this_typed,
};
use std::alloc::Global;
use sv_names::{Around, Meaning, Refusal};
use sv_tree::{Name, Root};
use sv_value::Place;

/// A name alone.
fn plain<'a>(alloc: Global, around: &Around<'a>, name: &Name) -> Result<Thing<'a>, Refusal>
    ensures { GivesAs thing_in result (things.root_thing (around_in around.now) (root.Plain name.now)) }
{
    match around.value_meaning(name) {
        Ok(meaning) => named_thing(alloc, around, name.at, meaning),
        Err(e) => Err(e),
    }
}

/// `this`
fn this<'a>(alloc: Global, around: &Around<'a>, at: Place) -> Result<Thing<'a>, Refusal>
    ensures { GivesAs thing_in result (things.root_thing (around_in around.now) (root.This at)) }
{
    match this_typed(alloc, around, at) {
        Ok(t) => Ok(Thing::Value(t)),
        Err(e) => Err(e),
    }
}

/// `super.` and a name
fn of_base<'a>(
    alloc: Global,
    around: &Around<'a>,
    at: Place,
    name: &Name,
) -> Result<Thing<'a>, Refusal>
    ensures { GivesAs thing_in result (things.root_thing (around_in around.now) (root.Super at name.now)) }
{
    match base_of(around, at) {
        Ok(base) => {
            let object = at_hand(alloc, around, at)?;
            member_named(alloc, around, base, object, true, name)
        }
        Err(e) => Err(e),
    }
}

/// The class before `::`, where it is declared as a type or class.
fn of_scope<'a>(
    alloc: Global,
    around: &Around<'a>,
    scope: &Name,
    name: &Name,
    meaning: Meaning<'a>,
) -> Result<Thing<'a>, Refusal>
    ensures { GivesAs thing_in result (things.class_named scope.now.at (meaning_in meaning.entry) ▷ (λ k.
        things.member_named (around_in around.now) k (things.object_of (around_in around.now) scope.now.at k) true name.now)) }
{
    match class_named(scope.at, meaning) {
        Ok(class) => {
            let object = object_of(alloc, around, scope.at, class)?;
            member_named(alloc, around, class, object, true, name)
        }
        Err(e) => Err(e),
    }
}

/// A class, `::` and a name.
fn scoped<'a>(
    alloc: Global,
    around: &Around<'a>,
    scope: &Name,
    name: &Name,
) -> Result<Thing<'a>, Refusal>
    ensures { GivesAs thing_in result (things.root_thing (around_in around.now) (root.Scoped scope.now name.now)) }
{
    match around.type_meaning(scope) {
        Ok(meaning) => of_scope(alloc, around, scope, name, meaning),
        Err(e) => Err(e),
    }
}

/// What a name with suffixes begins with. E6: it is not declared; E7: it is no value, subroutine, clocking block or type, or no class before
/// `::`; E36 to E39: it is no member that may be named here, or stands where there is no object or no base.
pub fn root_thing<'a>(alloc: Global, around: &Around<'a>, root: &Root) -> Result<Thing<'a>, Refusal>
    ensures { GivesAs thing_in result (things.root_thing (around_in around.now) root.now) }
{
    match root {
        Root::Plain(name) => plain(alloc, around, name),
        Root::This(at) => this(alloc, around, *at),
        Root::Super(at, name) => of_base(alloc, around, *at, name),
        Root::Scoped(scope, name) => scoped(alloc, around, scope, name),
    }
}
