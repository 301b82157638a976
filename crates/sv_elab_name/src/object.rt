// The object at hand (IEEE 1800-2017, 8.11): E38, E39.
ghost use Rattle.std.specs.Prelude.{◌≡◌, Some, IfOk, IfErr};
ghost use Rattle.sv_names.specs.declared.checked.Checked.TheVariants.{Good};
ghost use Rattle.sv_names.specs.declared.refusal.Refusal.TheVariants.{Memory};
ghost use Rattle.sv_names.specs.Given.{Gives};
ghost use Rattle.sv_names.specs.Named as names;
ghost use Rattle.sv_names.specs.Things as things;
ghost use Rattle.sv_names.specs.Views.{around_in, found_in};

use crate::local_typed;
use std::alloc::Global;
use sv_names::{Around, Begin, Checked, Found, Named, Refusal, ResultVariable, Typed};
use sv_value::Place;

/// E39: the variable that holds the object, where the name stands for one.
fn this_named(
    alloc: Global,
    around: &Around,
    at: Place,
    up: u32,
    place: u32,
    named: &Named,
) -> Result<Typed, Refusal>
    ensures { Gives result
        (things.this_variable (around_in around.now) at (Some (Good (names.at_level up place named.now)))) }
{
    let missing = Refusal::Rule { rule: 39, at };
    match named {
        Named::Local { ty, .. } => {
            let object = local_typed(alloc, around, at, up, place, ty, Begin::Object)?;
            Ok(object)
        }
        Named::Itself(_, ResultVariable::Local { .. }) => Err(missing),
        Named::Itself(_, ResultVariable::Object(_, _)) => Err(missing),
        Named::Variable(_, _) => Err(missing),
        Named::Net(_, _) => Err(missing),
        Named::Input { .. } => Err(missing),
        Named::Property { .. } => Err(missing),
        Named::StaticProperty { .. } => Err(missing),
        Named::Constant(_, _) => Err(missing),
        Named::TypeName(_) => Err(missing),
        Named::ClassName(_) => Err(missing),
        Named::Subroutine(_) => Err(missing),
        Named::ClockingBlock(_, _) => Err(missing),
        Named::Other => Err(missing),
    }
}

/// E39: the variable that holds the object, where the declaration is one.
fn this_found(alloc: Global, around: &Around, at: Place, found: Found) -> Result<Typed, Refusal>
    ensures { Gives result
        (things.this_variable (around_in around.now) at (Some (names.value_found (found_in found.entry)))) }
{
    match &found.known.value {
        Checked::Good(named) => this_named(alloc, around, at, found.up, found.place, named),
        Checked::Broken(_) => Err(Refusal::Rule { rule: 39, at }),
    }
}

/// The object at hand. E38: it stands in no class; E39: in a static method, or where there is no object.
pub fn this_typed(alloc: Global, around: &Around, at: Place) -> Result<Typed, Refusal>
    ensures { Gives result (things.this_typed (around_in around.now) at) }
{
    let Some(_) = around.class else {
        return Err(Refusal::Rule { rule: 38, at });
    };
    if !around.has_object {
        return Err(Refusal::Rule { rule: 39, at });
    }
    match around.find(b"this") {
        None => Err(Refusal::Rule { rule: 39, at }),
        Some(found) => this_found(alloc, around, at, found),
    }
}

/// The object at hand, where there is one.
pub fn at_hand(alloc: Global, around: &Around, at: Place) -> Result<Option<Typed>, Refusal>
    ensures ok { IfOk result (λ o. o ≡ things.at_hand (around_in around.now) at) }
    ensures err { IfErr result (λ e. e ≡ Memory) }
{
    match this_typed(alloc, around, at) {
        Ok(object) => Ok(Some(object)),
        Err(Refusal::Rule { .. }) => Ok(None),
        Err(Refusal::Memory) => Err(Refusal::Memory),
    }
}
