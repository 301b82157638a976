// The initializers of properties, each an assignment for the object that is made (IEEE 1800-2017, 8.5, 8.7 and 8.8): E6, E7, E42.
ghost use Rattle.std.specs.Prelude.{◌≡◌, List, map, option_map, IfOk, IfErr};
ghost use Rattle.sv_flat.specs.declared.class.Routine.{Routine as routine};
ghost use Rattle.sv_flat.specs.declared.object.Object.{Object as object_type};
ghost use Rattle.sv_tree.specs.StmtView as view;
ghost use Rattle.sv_tree.specs.UnitView.{class_item};
ghost use Rattle.sv_names.specs.declared.refusal.Refusal.TheVariants.{Memory};
ghost use Rattle.sv_names.specs.Emits.{Emits};
ghost use Rattle.sv_names.specs.Given.{Gives};
ghost use Rattle.sv_names.specs.Subroutines as subroutines;
ghost use Rattle.sv_names.specs.Views.{around_in};
ghost use Rattle.sv_elab_before.specs.Properties as words;

use crate::assignments::assignment;
use std::alloc::Global;
use sv_elab_flow::sv_elab_select::Spot;
use sv_elab_flow::{in_sequence, needs_activation, nothing, raised, statement};
use sv_elab_write::sv_elab_name::{field_typed, this_typed};
use sv_flat::{Form, Stmt};
use sv_names::{
    Around, Checked, ClassInfo, Fault, Hoisted, Named, Refusal, Ty, declared_in, judged,
};
use sv_tree::{ClassItem, Declarator, Init, Name};
use sv_value::{Place, Seq, Text};

// ---- targets

/// A property of the object at hand as a target.
fn field_spot(
    alloc: Global,
    around: &Around,
    at: Place,
    class: &[Text],
    name: &Name,
    ty: &Ty,
) -> Result<Checked<Seq<Spot>>, Refusal>
    ensures ok { IfOk result (λ c. c ≡ words.field_spot (around_in around.now) at class.now name.now ty.now) }
    ensures err { IfErr result (λ e. e ≡ Memory) }
{
    match judged(this_typed(alloc, around, at))? {
        Checked::Good(object) => {
            let field = field_typed(alloc, around, at, class, name, ty, object)?;
            let mut spots = Seq::new(alloc);
            spots.push((at, field))?;
            Ok(Checked::Good(spots))
        }
        Checked::Broken(f) => Ok(Checked::Broken(f)),
    }
}

/// E7, E42: what a declaration stands for, as the target of its initializer.
#[tactic(auto, using(crate::proofs::PropertyLaws::no_property))]
fn property_spot(
    alloc: Global,
    around: &Around,
    at: Place,
    name: &Name,
    named: &Named,
) -> Result<Checked<Seq<Spot>>, Refusal>
    ensures ok { IfOk result (λ c. c ≡ subroutines.property_spot (around_in around.now) at name.now named.now) }
    ensures err { IfErr result (λ e. e ≡ Memory) }
{
    match named {
        Named::Property {
            class,
            name,
            ty,
            ..
        } => {
            if ty.is_fixed() {
                return Ok(Checked::Broken(Fault { at, rule: 42 }));
            }
            field_spot(alloc, around, at, class.as_slice(), name, ty)
        }
        _ => Ok(Checked::Broken(Fault { at, rule: 7 })),
    }
}

/// E6, E7, E42: a property by its name, as a target.
fn spot_of(
    alloc: Global,
    around: &Around,
    class: &ClassInfo,
    name: &Name,
) -> Result<Checked<Seq<Spot>>, Refusal>
    ensures ok { IfOk result (λ c. c ≡ words.spot_of (around_in around.now) class.now name.now) }
    ensures err { IfErr result (λ e. e ≡ Memory) }
{
    match declared_in(0, name.text.bytes(), &class.scope.known) {
        None => Ok(Checked::Broken(Fault {
            at: name.at,
            rule: 6,
        })),
        Some(found) => match &found.known.value {
            Checked::Good(named) => property_spot(alloc, around, name.at, name, named),
            Checked::Broken(f) => Ok(Checked::Broken(*f)),
        },
    }
}

// ---- initializers

/// An initializer, in variables of this activation.
fn initialized_once(
    alloc: Global,
    around: &Around,
    class: &ClassInfo,
    name: &Name,
    value: &Init,
) -> Result<Hoisted<Form>, Refusal>
    ensures { Gives result (words.initialized_once (around_in around.now) class.now name.now (view.init value.now)) }
{
    let spots = spot_of(alloc, around, class, name)?;
    assignment(alloc, spots, value, around)
}

/// An initializer.
#[tactic(auto, using(sv_elab_flow::proofs::RaisedLaws::raised_once, sv_elab_flow::proofs::RaisedLaws::raised_again))]
fn initialized(
    alloc: Global,
    around: &Around,
    class: &ClassInfo,
    name: &Name,
    value: &Init,
) -> Result<Hoisted<Form>, Refusal>
    ensures { Gives result (words.initialized (around_in around.now) class.now name.now (view.init value.now)) }
{
    let form = initialized_once(alloc, around, class, name, value);
    if needs_activation(&form) {
        return initialized_once(alloc, &raised(around), class, name, value);
    }
    form
}

/// The statement of an initializer, at the name.
#[tactic(auto, using(sv_elab_flow::proofs::Added::none_added))]
fn value_code(
    alloc: Global,
    around: &Around,
    class: &ClassInfo,
    name: &Name,
    value: &Init,
) -> Result<Seq<Stmt>, Refusal>
    ensures { (rs : List routine) (os : List object_type) → Emits rs rs os os result
        (words.value_code (around_in around.now) class.now name.now (view.init value.now)) }
{
    match initialized(alloc, around, class, name, value) {
        Ok(form) => statement(alloc, name.at, form),
        Err(e) => Err(e),
    }
}

/// The same, where one is written.
fn init_code(
    alloc: Global,
    around: &Around,
    class: &ClassInfo,
    name: &Name,
    init: &Option<Init>,
) -> Result<Seq<Stmt>, Refusal>
    ensures { (rs : List routine) (os : List object_type) → Emits rs rs os os result
        (words.init_code (around_in around.now) class.now name.now (option_map view.init init.now)) }
{
    match init {
        None => nothing(alloc),
        Some(value) => value_code(alloc, around, class, name, value),
    }
}

/// The initializer of a property, if it has one.
#[tactic(auto, using(crate::proofs::PropertyLaws::property_is))]
fn property_code(
    alloc: Global,
    around: &Around,
    class: &ClassInfo,
    one: &Declarator,
) -> Result<Seq<Stmt>, Refusal>
    ensures { (rs : List routine) (os : List object_type) → Emits rs rs os os result
        (subroutines.property_code (around_in around.now) class.now (view.declarator one.now)) }
{
    init_code(alloc, around, class, &one.name, &one.init)
}

/// Those of one declaration.
fn properties_code(
    alloc: Global,
    around: &Around,
    class: &ClassInfo,
    names: &[Declarator],
) -> Result<Seq<Stmt>, Refusal>
    ensures { (rs : List routine) (os : List object_type) → Emits rs rs os os result
        (subroutines.properties_code (around_in around.now) class.now (map view.declarator names.now)) }
{
    let mut done = nothing(alloc);
    for one in names {
        let made = property_code(alloc, around, class, one);
        done = in_sequence(done, made);
    }
    done
}

/// Those of an item: static properties have no place in an object (8.9).
fn item_code(
    alloc: Global,
    around: &Around,
    class: &ClassInfo,
    item: &ClassItem,
) -> Result<Seq<Stmt>, Refusal>
    ensures { (rs : List routine) (os : List object_type) → Emits rs rs os os result
        (words.item_code (around_in around.now) class.now (class_item item.now)) }
{
    match item {
        ClassItem::Property(property) => {
            if property.qualifiers.is_static {
                return nothing(alloc);
            }
            properties_code(alloc, around, class, property.decl.names.as_slice())
        }
        _ => nothing(alloc),
    }
}

/// Those of all items of a class, in order.
pub fn initializers(
    alloc: Global,
    around: &Around,
    class: &ClassInfo,
    items: &[ClassItem],
) -> Result<Seq<Stmt>, Refusal>
    ensures { (rs : List routine) (os : List object_type) → Emits rs rs os os result
        (subroutines.initializers (around_in around.now) class.now (map class_item items.now)) }
{
    let mut done = nothing(alloc);
    for item in items {
        let made = item_code(alloc, around, class, item);
        done = in_sequence(done, made);
    }
    done
}
