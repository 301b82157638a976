// What stands before the statements of a subroutine: in a constructor the call of that of the base, and the initializers of properties
// (IEEE 1800-2017, 8.7 and 8.15).
ghost use Rattle.std.specs.Prelude.{◌≡◌, List, true, map};
ghost use Rattle.sv_flat.specs.declared.class.Routine.{Routine as routine};
ghost use Rattle.sv_flat.specs.declared.object.Object.{Object as object_type};
ghost use Rattle.sv_tree.specs.UnitView.{class_item};
ghost use Rattle.sv_names.specs.Emits.{Emits};
ghost use Rattle.sv_names.specs.Subroutines as subroutines;
ghost use Rattle.sv_names.specs.Views.{around_in};
ghost use Rattle.sv_elab_before.specs.Befores as words;
ghost use Rattle.sv_elab_before.specs.Befores.{before_in};
ghost use Rattle.sv_elab_before.specs.Supers.{opening_in};

use crate::properties::initializers;
use crate::scopes::this_scope;
use crate::supers::{Opening, super_of};
use std::alloc::Global;
use sv_elab_flow::{enclosed, in_sequence, nothing};
use sv_elab_subroutine::in_body;
use sv_flat::Stmt;
use sv_names::{Around, ClassInfo, Refusal, Returns, Scope};
use sv_tree::ClassItem;
use sv_value::{Place, Seq};

/// What stands before the statements of a subroutine.
#[derive(Clone, Copy)]
pub enum Before<'a> {
    /// Nothing.
    Nothing,
    /// What a constructor does first.
    Construction {
        /// Its class.
        class: &'a ClassInfo,
        /// The items of the class.
        items: &'a [ClassItem],
        /// The place of its name.
        at: Place,
        /// How it begins.
        opening: Opening<'a>,
    },
}

/// The initializers of properties, in a scope that knows the object alone.
fn properties_in(
    alloc: Global,
    around: &Around,
    class: &ClassInfo,
    items: &[ClassItem],
    scope: &Scope,
) -> Result<Seq<Stmt>, Refusal>
    ensures { (rs : List routine) (os : List object_type) → Emits rs rs os os result
        (subroutines.initializers (words.construction (around_in around.now) scope.now) class.now (map class_item items.now)) }
{
    let outer = *around;
    let scopes = enclosed(alloc, &*scope, outer.scopes)?;
    let path = scope.path.as_slice();
    let inner = in_body(
        &outer,
        path,
        scopes.as_slice(),
        true,
        true,
        true,
        &Returns::NoValue,
    );
    initializers(alloc, &inner, class, items)
}

/// The initializers of properties, whose names are looked up from the class.
fn properties_of(
    alloc: Global,
    around: &Around,
    class: &ClassInfo,
    items: &[ClassItem],
    at: Place,
) -> Result<Seq<Stmt>, Refusal>
    ensures { (rs : List routine) (os : List object_type) → Emits rs rs os os result (subroutines.initializers
        (subroutines.for_properties (around_in around.now) class.now at) class.now (map class_item items.now)) }
{
    let scope = this_scope(alloc, class.path.as_slice(), at)?;
    properties_in(alloc, around, class, items, &scope)
}

/// What a constructor does before its own statements, which stand in `inner`.
pub fn constructor_before(
    alloc: Global,
    around: &Around,
    inner: &Around,
    class: &ClassInfo,
    items: &[ClassItem],
    at: Place,
    opening: Opening,
) -> Result<Seq<Stmt>, Refusal>
    ensures { (rs : List routine) (os : List object_type) → Emits rs rs os os result
        (subroutines.constructor_before (around_in around.now) class.now (map class_item items.now) at
        (opening_in opening.entry) (around_in inner.now)) }
{
    let base = super_of(alloc, inner, class, at, opening);
    let values = properties_of(alloc, around, class, items, at);
    in_sequence(base, values)
}

/// What stands before the statements of a subroutine, which stand in `inner`.
pub fn before_made(
    alloc: Global,
    around: &Around,
    inner: &Around,
    before: Before,
) -> Result<Seq<Stmt>, Refusal>
    ensures { (rs : List routine) (os : List object_type) → Emits rs rs os os result
        (before_in (around_in around.now) before.entry (around_in inner.now)) }
{
    match before {
        Before::Nothing => nothing(alloc),
        Before::Construction {
            class,
            items,
            at,
            opening,
        } => { constructor_before(alloc, around, inner, class, items, at, opening) }
    }
}
