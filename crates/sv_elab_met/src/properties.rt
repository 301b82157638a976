// The initializers of properties, and what every constructor does first (IEEE 1800-2017, 8.7 and 8.17).
ghost use Rattle.std.specs.Prelude.{◌≡◌, map, IfOk, OnOk};
ghost use Rattle.sv_tree.specs.StmtView as stmt_view;
ghost use Rattle.sv_tree.specs.UnitView as view;
ghost use Rattle.sv_names.specs.Sources as sources;
ghost use Rattle.sv_names.specs.Views.{around_in};
ghost use Rattle.sv_elab_touch.specs.Touched.{Touched};
ghost use Rattle.sv_elab_met.specs.Met as words;

use crate::seen::{properties_scope, with_scope};
use std::alloc::Global;
use sv_elab_act::{add_init, constructor_path};
use sv_elab_subroutine::in_body;
use sv_elab_writers::Touch;
use sv_names::{Around, Checked, ClassInfo, Named, Path, Returns, Ty, declared_in};
use sv_tree::{ClassItem, Declarator, Name, Property};
use sv_value::{NoMemory, Seq, Text};

/// The type that a property has.
fn type_in(alloc: Global, named: &Named) -> Result<Ty, NoMemory>
    ensures { IfOk result (λ t. t ≡ sources.type_of_property named.now) }
{
    match named {
        Named::Property { ty, .. } => ty.copy(alloc),
        Named::StaticProperty { ty, .. } => ty.copy(alloc),
        _ => Ok(Ty::Nothing),
    }
}

/// The same of what a name stands for.
fn checked_type(alloc: Global, value: &Checked<Named>) -> Result<Checked<Ty>, NoMemory>
    ensures { IfOk result (λ t. t ≡ words.property_type_of value.now) }
{
    match value {
        Checked::Good(named) => {
            let ty = type_in(alloc, named)?;
            Ok(Checked::Good(ty))
        }
        Checked::Broken(f) => Ok(Checked::Broken(*f)),
    }
}

/// The type of a property by its name.
#[tactic(auto, using(crate::proofs::NameLaws::type_found))]
fn property_type(alloc: Global, class: &ClassInfo, name: &Name) -> Result<Checked<Ty>, NoMemory>
    ensures { IfOk result (λ t. t ≡ sources.property_type class.now name.now) }
{
    match declared_in(0, name.text.bytes(), &class.scope.known) {
        None => Ok(Checked::Good(Ty::Nothing)),
        Some(found) => checked_type(alloc, &found.known.value),
    }
}

/// Appends what the initializer of a property does.
#[tactic(auto, using(sv_elab_touch::proofs::TouchedLaws::touched_none))]
fn add_property(
    alloc: Global,
    class: &ClassInfo,
    declarator: &Declarator,
    around: &Around,
    touches: &mut Seq<Touch>,
) -> Result<(), NoMemory>
    ensures { OnOk result (Touched touches.old touches.new
        (sources.property_touches (around_in around.now) class.now (stmt_view.declarator declarator.now))) }
{
    match &declarator.init {
        None => Ok(()),
        Some(init) => {
            let ty = property_type(alloc, class, &declarator.name)?;
            add_init(alloc, &ty, init, around, touches)
        }
    }
}

/// Appends what the initializers of properties do.
#[tactic(auto, using(sv_elab_touch::proofs::TouchedLaws::turn_touched, sv_elab_touch::proofs::TouchedLaws::all_touched))]
fn add_properties(
    alloc: Global,
    class: &ClassInfo,
    names: &[Declarator],
    around: &Around,
    touches: &mut Seq<Touch>,
) -> Result<(), NoMemory>
    ensures { OnOk result (Touched touches.old touches.new
        (words.properties_touches (around_in around.now) class.now names.now)) }
{
    let mut left = names;
    while let [declarator, rest @ ..] = left {
        add_property(alloc, class, declarator, around, touches)?;
        left = rest;
    }
    Ok(())
}

/// Appends what the initializers of a declaration do, but for static properties.
#[tactic(auto, using(sv_elab_touch::proofs::TouchedLaws::touched_none))]
fn add_property_item(
    alloc: Global,
    class: &ClassInfo,
    property: &Property,
    around: &Around,
    touches: &mut Seq<Touch>,
) -> Result<(), NoMemory>
    ensures { OnOk result (Touched touches.old touches.new
        (words.property_item_touches (around_in around.now) class.now (view.property property.now))) }
{
    if property.qualifiers.is_static {
        return Ok(());
    }
    add_properties(
        alloc,
        class,
        property.decl.names.as_slice(),
        around,
        touches,
    )
}

/// Appends what the initializers in an item of a class do.
#[tactic(auto, using(sv_elab_touch::proofs::TouchedLaws::touched_none))]
fn add_initializer(
    alloc: Global,
    class: &ClassInfo,
    item: &ClassItem,
    around: &Around,
    touches: &mut Seq<Touch>,
) -> Result<(), NoMemory>
    ensures { OnOk result (Touched touches.old touches.new
        (sources.initializer_touches (around_in around.now) class.now (view.class_item item.now))) }
{
    match item {
        ClassItem::Property(p) => add_property_item(alloc, class, p, around, touches),
        _ => Ok(()),
    }
}

/// Appends what the initializers in the items of a class do.
#[tactic(auto, using(sv_elab_touch::proofs::TouchedLaws::turn_touched, sv_elab_touch::proofs::TouchedLaws::all_touched))]
fn add_initializers(
    alloc: Global,
    class: &ClassInfo,
    items: &[ClassItem],
    around: &Around,
    touches: &mut Seq<Touch>,
) -> Result<(), NoMemory>
    ensures { OnOk result (Touched touches.old touches.new
        (words.initializers_touches (around_in around.now) class.now (map view.class_item items.now))) }
{
    let mut left = items;
    while let [item, rest @ ..] = left {
        add_initializer(alloc, class, item, around, touches)?;
        left = rest;
    }
    Ok(())
}

/// Appends the same, where they stand in every constructor.
fn add_all_initializers(
    alloc: Global,
    around: &Around,
    class: &ClassInfo,
    items: &[ClassItem],
    touches: &mut Seq<Touch>,
) -> Result<(), NoMemory>
    ensures { OnOk result (Touched touches.old touches.new
        (words.all_initializers (around_in around.now) class.now (map view.class_item items.now))) }
{
    let scope = properties_scope(alloc, class.path.as_slice(), class.name.at)?;
    let outer = *around;
    let scopes = with_scope(alloc, &scope, outer.scopes)?;
    let returns = Returns::NoValue;
    let inner = in_body(
        &outer,
        scope.path.as_slice(),
        scopes.as_slice(),
        true,
        true,
        true,
        &returns,
    );
    add_initializers(alloc, class, items, &inner, touches)
}

/// Appends a call of the constructor of a class.
#[tactic(auto, using(sv_elab_touch::proofs::TouchedLaws::touched_one))]
fn add_constructor(alloc: Global, class: &[Text], touches: &mut Seq<Touch>) -> Result<(), NoMemory>
    ensures { OnOk result (Touched touches.old touches.new (words.constructed class.now)) }
{
    let path = constructor_path(alloc, class)?;
    touches.push(Touch::Calls(path))
}

/// Appends a call of the constructor of the base.
#[tactic(auto, using(sv_elab_touch::proofs::TouchedLaws::touched_none))]
fn add_base(alloc: Global, base: &Option<Path>, touches: &mut Seq<Touch>) -> Result<(), NoMemory>
    ensures { OnOk result (Touched touches.old touches.new (sources.base_touches base.now)) }
{
    match base {
        None => Ok(()),
        Some(base) => add_constructor(alloc, base.as_slice(), touches),
    }
}

/// Appends what every constructor of a class does first.
#[tactic(auto, using(sv_elab_touch::proofs::TouchedLaws::touched_both))]
pub(crate) fn add_opening(
    alloc: Global,
    around: &Around,
    class: &ClassInfo,
    items: &[ClassItem],
    touches: &mut Seq<Touch>,
) -> Result<(), NoMemory>
    ensures { OnOk result (Touched touches.old touches.new
        (sources.opening_touches (around_in around.now) class.now (map view.class_item items.now))) }
{
    add_base(alloc, &class.base, touches)?;
    add_all_initializers(alloc, around, class, items, touches)
}
