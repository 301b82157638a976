// Casts of numbers (IEEE 1800-2017, 6.24.1): E13, E16, E42.
ghost use Rattle.std.specs.Prelude.{◌≡◌, ◌≤◌, false, if◌then◌else◌};
ghost use Rattle.sv_names.specs.declared.checked.Checked.{Checked as checked};
ghost use Rattle.sv_names.specs.declared.checked.Checked.TheVariants.{Good};
ghost use Rattle.sv_names.specs.declared.typed.Typed.{Typed as typed};
ghost use Rattle.sv_names.specs.declared.ty.Ty.TheVariants as ty;
ghost use Rattle.sv_names.specs.Named.{Around as around};
ghost use Rattle.sv_names.specs.Checked.{◌▷◌, broken_at};
ghost use Rattle.sv_names.specs.Operators as operators;
ghost use Rattle.sv_names.specs.Types as types;
ghost use Rattle.sv_names.specs.Values as values;
ghost use Rattle.sv_names.specs.Given.{Gives};

use std::alloc::Global;
use sv_elab_value::{converted, not_too_wide, one_item, value_typed, widened};
use sv_flat::Bounds;
use sv_names::{Refusal, Ty, Typed, selectable};
use sv_tree::{AtomWord, VectorWord};
use sv_value::{Integral, Place};

/// `bit` has two states.
pub fn has_four_states(word: VectorWord) -> bool
    ensures { result ≡ operators.vector_word_four_state word }
{
    match word {
        VectorWord::Bit => false,
        _ => true,
    }
}

/// An integral type.
fn integral(width: u32, signed: bool, four_state: bool) -> Integral
    ensures { result ≡ types.integral width signed four_state }
{
    Integral {
        width,
        signed,
        four_state,
    }
}

/// The types that have a width of their own.
pub fn atom_type(word: AtomWord) -> Integral
    ensures { result ≡ operators.atom_type word }
{
    match word {
        AtomWord::Byte => integral(8, true, false),
        AtomWord::Shortint => integral(16, true, false),
        AtomWord::Int => integral(32, true, false),
        AtomWord::Longint => integral(64, true, false),
        AtomWord::Integer => integral(32, true, true),
        AtomWord::Time => integral(64, false, true),
    }
}

/// A number as one of a type, whose operand is extended as by an assignment to it.
fn number_as(
    alloc: Global,
    goal: Ty,
    to: Integral,
    place: Place,
    t: Typed,
) -> Result<Typed, Refusal>
    ensures { Gives result (Good (operators.number_as goal to place t)) }
{
    let is_constant = t.is_constant;
    let code = widened(alloc, goal.width(), t)?;
    let code = converted(alloc, to, code)?;
    Ok(value_typed(alloc, goal, place, is_constant, code))
}

/// E16: a cast to an integral type.
pub fn number_cast(
    alloc: Global,
    goal: Ty,
    to: Integral,
    place: Place,
    at: Place,
    e: Typed,
) -> Result<Typed, Refusal>
    ensures { Gives result (operators.number_cast goal to place at e) }
{
    let t = one_item(e)?;
    if t.ty.is_integral() {
        number_as(alloc, goal, to, place, t)
    } else {
        Err(Refusal::Rule { rule: 16, at })
    }
}

/// A number as one of a width, which keeps its sign, and its x and z.
fn sized_as(alloc: Global, place: Place, width: u32, t: Typed) -> Result<Typed, Refusal>
    ensures { Gives result (Good (operators.sized_as place width t)) }
{
    let signed = t.ty.is_signed();
    let four_state = t.ty.is_four_state();
    let is_constant = t.is_constant;
    let code = widened(alloc, width, t)?;
    let code = converted(alloc, integral(width, signed, true), code)?;
    Ok(value_typed(
        alloc,
        selectable(width, signed, four_state),
        place,
        is_constant,
        code,
    ))
}

/// A number as one of a width, where it is no array.
fn sized_item(
    alloc: Global,
    place: Place,
    at: Place,
    width: u64,
    e: Typed,
) -> Result<Typed, Refusal>
    requires { width ≤ 64 }
    ensures { Gives result (values.one_item e ▷ (λ x. if types.is_integral x.ty then Good (operators.sized_as place width x) else broken_at 16 at)) }
{
    let t = one_item(e)?;
    if !t.ty.is_integral() {
        return Err(Refusal::Rule { rule: 16, at });
    }
    sized_as(alloc, place, width as u32, t)
}

/// E13, E16, E42: a cast to a width.
#[tactic(auto, using(crate::proofs::Judged::narrow))]
pub fn sized(alloc: Global, place: Place, at: Place, width: u64, t: Typed) -> Result<Typed, Refusal>
    ensures { Gives result (operators.sized place at width t) }
{
    match not_too_wide(place, width) {
        Ok(()) => sized_item(alloc, place, at, width, t),
        Err(e) => Err(e),
    }
}

/// A cast to an integral type, where its operand breaks no rule before.
pub fn cast_number(
    alloc: Global,
    to: Integral,
    bounds: Option<Bounds>,
    place: Place,
    at: Place,
    e: Result<Typed, Refusal>,
) -> Result<Typed, Refusal>
    ensures { (ar : around) (x : checked typed) → Gives e x
        → Gives result (x ▷ operators.cast_to ar (ty.Vector to bounds false) place at) }
{
    match e {
        Ok(t) => number_cast(
            alloc,
            Ty::Vector {
                integral: to,
                bounds,
                is_written: false,
            },
            to,
            place,
            at,
            t,
        ),
        Err(e) => Err(e),
    }
}
