// What scopes declare: objects, and elements of fixed arrays (IEEE 1800-2017, 6.8, 7.4 and 8.5).
ghost use Rattle.std.specs.Prelude.{◌≡◌, ◌∷◌, [], OnOk};
ghost use Rattle.sv_names.specs.Writers as writers;
ghost use Rattle.sv_elab_writers.specs.Views.{elements_in};
ghost use Rattle.sv_elab_touch.specs.Touched.{Touched};
ghost use Rattle.sv_elab_act.specs.Acts.{named_declares, result_declares};

use sv_elab_writers::Touch;
use sv_flat::Bounds;
use sv_names::{Checked, Named, ResultVariable, Scope, Ty};
use sv_value::{NoMemory, Place, Seq};

/// The bounds of a fixed array.
fn array_of(ty: &Ty) -> Option<Bounds>
    ensures { elements_in result ≡ writers.elements_of ty.now }
{
    match ty {
        Ty::Fixed(bounds, _) => Some(*bounds),
        _ => None,
    }
}

/// Appends so many objects, and the elements of a fixed array.
#[tactic(auto, using(sv_elab_touch::proofs::TouchedLaws::touched_one))]
fn add_objects(
    at: Place,
    objects: u32,
    array: Option<Bounds>,
    touches: &mut Seq<Touch>,
) -> Result<(), NoMemory>
    ensures { OnOk result (Touched touches.old touches.new (writers.Declares at objects (elements_in array) ∷ [])) }
{
    touches.push(Touch::Declares { at, objects, array })
}

/// Appends the object of the result of a static function.
#[tactic(auto, using(sv_elab_touch::proofs::TouchedLaws::touched_none))]
fn add_result(
    at: Place,
    variable: &ResultVariable,
    touches: &mut Seq<Touch>,
) -> Result<(), NoMemory>
    ensures { OnOk result (Touched touches.old touches.new (result_declares at variable.now)) }
{
    match variable {
        ResultVariable::Object(_, _) => add_objects(at, 1, None, touches),
        ResultVariable::Local { .. } => Ok(()),
    }
}

/// Appends what a name declares that breaks no rule.
#[tactic(auto, using(sv_elab_touch::proofs::TouchedLaws::touched_none))]
fn add_named(at: Place, named: &Named, touches: &mut Seq<Touch>) -> Result<(), NoMemory>
    ensures { OnOk result (Touched touches.old touches.new (named_declares at named.now)) }
{
    match named {
        Named::Variable(_, ty) => add_objects(at, 1, array_of(ty), touches),
        Named::Net(_, _) => add_objects(at, 1, None, touches),
        Named::Input { .. } => add_objects(at, 1, None, touches),
        Named::StaticProperty { ty, .. } => add_objects(at, 1, array_of(ty), touches),
        Named::Property { ty, .. } => add_objects(at, 0, array_of(ty), touches),
        Named::Local { ty, .. } => add_objects(at, 0, array_of(ty), touches),
        Named::Itself(_, variable) => add_result(at, variable, touches),
        _ => Ok(()),
    }
}

/// Appends what a name declares.
#[tactic(auto, using(sv_elab_touch::proofs::TouchedLaws::touched_none))]
pub fn add_declared(
    at: Place,
    value: &Checked<Named>,
    touches: &mut Seq<Touch>,
) -> Result<(), NoMemory>
    ensures { OnOk result (Touched touches.old touches.new (writers.declares at value.now)) }
{
    match value {
        Checked::Good(named) => add_named(at, named, touches),
        Checked::Broken(_) => Ok(()),
    }
}

/// Appends what a scope declares.
#[tactic(auto, using(sv_elab_touch::proofs::TouchedLaws::turn_touched, sv_elab_touch::proofs::TouchedLaws::all_touched))]
pub fn add_scope(scope: &Scope, touches: &mut Seq<Touch>) -> Result<(), NoMemory>
    ensures { OnOk result (Touched touches.old touches.new (writers.scope_declares scope.now)) }
{
    let mut left = scope.known.as_slice();
    while let [known, rest @ ..] = left {
        add_declared(known.name.at, &known.value, touches)?;
        left = rest;
    }
    Ok(())
}
