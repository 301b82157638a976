// `$cast` (IEEE 1800-2017, 8.16): E16, E24, E25, E31, E42.
ghost use Rattle.std.specs.Prelude.{◌≡◌, ◌∷◌, [], IfOk, IfErr};
ghost use Rattle.sv_value.specs.declared.place.Place.{Place as place_of};
ghost use Rattle.sv_names.specs.declared.refusal.Refusal.TheVariants.{Memory};
ghost use Rattle.sv_names.specs.Calls as calls;
ghost use Rattle.sv_names.specs.Given.{Gives};
ghost use Rattle.sv_names.specs.Views.{around_in};
ghost use Rattle.sv_elab_call.specs.Casting as casting;

use std::alloc::Global;
use sv_elab_select::{Spot, lvalues};
use sv_elab_value::{call_stands, code_of, first_two, one_item, paired, values_stand};
use sv_flat::CallForm;
use sv_names::{Arg, Around, Called, Hoisted, Refusal, Ty, Typed, both, int_type, where_also};
use sv_value::{ClassId, Place, Seq};

/// A cast of a reference to a class.
fn cast_form(
    alloc: Global,
    around: &Around,
    answers: bool,
    class: ClassId,
    spots: Seq<Spot>,
    value: Typed,
) -> Result<Hoisted<CallForm>, Refusal>
    ensures ok { IfOk result (λ f. f ≡ casting.cast_form (around_in around.now) answers class spots value) }
    ensures err { IfErr result (λ e. e ≡ Memory) }
{
    let targets = lvalues(alloc, around, spots)?;
    let both = paired(targets, code_of(value))?;
    let (targets, value) = both.value;
    Ok(Hoisted {
        hidden: both.hidden,
        calls: both.calls,
        value: CallForm::Cast {
            targets,
            value,
            class,
            answers,
        },
    })
}

/// E16, E42: what is cast to a class is a reference.
fn cast_to_class(
    alloc: Global,
    around: &Around,
    answers: bool,
    at: Place,
    spots: Seq<Spot>,
    value: Typed,
    class: ClassId,
) -> Result<Hoisted<CallForm>, Refusal>
    ensures { Gives result (casting.cast_to_class (around_in around.now) answers at spots value class) }
{
    match one_item(value) {
        Ok(value) => {
            if value.ty.is_class() || value.ty.is_null() {
                let form = cast_form(alloc, around, answers, class, spots, value)?;
                Ok(form)
            } else {
                Err(Refusal::Rule { rule: 16, at })
            }
        }
        Err(e) => Err(e),
    }
}

/// E16, E42: the class of a variable, whose name stands at `name`.
#[tactic(auto, using(crate::proofs::CastLaws::class_other))]
fn class_of_type(around: &Around, at: Place, name: Place, ty: &Ty) -> Result<ClassId, Refusal>
    ensures { Gives result (casting.class_of_type (around_in around.now) at name ty.now) }
{
    match ty {
        Ty::Class(class) => Ok(around.numbers.class(class.as_slice())),
        _ => {
            if ty.is_array() {
                Err(Refusal::Rule { rule: 42, at: name })
            } else {
                Err(Refusal::Rule { rule: 16, at })
            }
        }
    }
}

/// E16, E42: the class of a target, which is one variable.
fn class_of_target(around: &Around, at: Place, spots: &[Spot]) -> Result<ClassId, Refusal>
    ensures { Gives result (casting.class_of_target (around_in around.now) at spots.now) }
{
    match spots {
        [spot] => class_of_type(around, at, spot.1.at, &spot.1.ty),
        _ => Err(Refusal::Rule { rule: 16, at }),
    }
}

/// E16, E42: a reference is cast to a target; the arguments stand at `at` and `place`.
fn cast_at(
    alloc: Global,
    around: &Around,
    answers: bool,
    at: Place,
    place: Place,
    spots: Seq<Spot>,
    value: Typed,
) -> Result<Hoisted<CallForm>, Refusal>
    ensures { Gives result (casting.cast_at (around_in around.now) answers at place spots value) }
{
    match class_of_target(around, at, spots.as_slice()) {
        Ok(class) => cast_to_class(alloc, around, answers, place, spots, value, class),
        Err(e) => Err(e),
    }
}

/// E16, E31, E42: a cast of two arguments.
fn cast_of_two(
    alloc: Global,
    around: &Around,
    answers: bool,
    target: Arg,
    value: Arg,
) -> Result<Hoisted<CallForm>, Refusal>
    ensures { Gives result (casting.cast_of_two (around_in around.now) answers target value) }
{
    let (at, place) = (target.at, value.at);
    match both(target.into_target(), value.into_value()) {
        Ok((spots, value)) => cast_at(alloc, around, answers, at, place, spots, value),
        Err(e) => Err(e),
    }
}

/// The same, as a call that gives a number.
fn cast(
    alloc: Global,
    around: &Around,
    answers: bool,
    target: Arg,
    value: Arg,
) -> Result<Called, Refusal>
    ensures { (at : place_of) → Gives result (casting.cast_of (around_in around.now) answers at (target ∷ value ∷ [])) }
{
    match cast_of_two(alloc, around, answers, target, value) {
        Ok(form) => Ok(Called::Call(form, int_type())),
        Err(e) => Err(e),
    }
}

/// E31: the same, where there are two arguments.
fn cast_of(
    alloc: Global,
    around: &Around,
    answers: bool,
    at: Place,
    args: Seq<Arg>,
) -> Result<Called, Refusal>
    ensures { Gives result (casting.cast_of (around_in around.now) answers at args) }
{
    if args.as_slice().len() != 2 {
        return where_also(
            Err(Refusal::Rule { rule: 31, at }),
            values_stand(args.as_slice()),
        );
    }
    match first_two(args) {
        Some((target, value)) => cast(alloc, around, answers, target, value),
        None => unreachable!(),
    }
}

/// `$cast` of a target and a reference; `answers` tells whether its result is asked for. E16 and E42: the target is no class variable, or
/// the value no reference; E24 and E25: no call may stand there; E31: not two arguments, or the first one is no target.
pub fn cast_called(
    alloc: Global,
    around: &Around,
    answers: bool,
    at: Place,
    args: Seq<Arg>,
) -> Result<Called, Refusal>
    ensures { Gives result (calls.cast_called (around_in around.now) answers at args) }
{
    where_also(
        cast_of(alloc, around, answers, at, args),
        call_stands(around, at),
    )
}
