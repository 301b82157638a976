// What may be written, and where (IEEE 1800-2017, 10.3, 10.4 and 14.16): E11, E13, E15 to E19, E21, E26, E42, E47.
ghost use Rattle.std.specs.Prelude.{◌≡◌, ℕ, List, IfOk, IfErr};
ghost use Rattle.sv_value.specs.declared.place.Place.{Place as place_of};
ghost use Rattle.sv_names.specs.declared.checked.Checked.{Checked as checked};
ghost use Rattle.sv_names.specs.declared.typed.Typed.{Typed as typed};
ghost use Rattle.sv_names.specs.declared.typed.Begin.TheVariants as begin;
ghost use Rattle.sv_names.specs.declared.refusal.Refusal.TheVariants.{Memory};
ghost use Rattle.sv_names.specs.Checked.{◌▷◌, all};
ghost use Rattle.sv_names.specs.Checked as rules;
ghost use Rattle.sv_names.specs.Types as types;
ghost use Rattle.sv_names.specs.Values as values;
ghost use Rattle.sv_names.specs.Targets as targets;
ghost use Rattle.sv_names.specs.Views.{around_in};
ghost use Rattle.sv_names.specs.Given.{Gives};
ghost use Rattle.sv_elab_select.specs.Written as written;

use crate::rules::guarded;
use std::alloc::Global;
use sv_elab_value::{assigned, expr_of, not_too_wide, pure, rule, value_typed};
use sv_flat::ExprForm;
use sv_names::{Around, Begin, How, Refusal, Ty, Typed};
use sv_value::{Place, Seq};

/// A part of a target: where it begins, and what it is as an expression.
pub type Spot = (Place, Typed);

// ---- what a target begins with

/// E21: a net is written by continuous assignments alone.
fn net_stands(how: How, at: Place) -> Result<(), Refusal>
    ensures { (t : typed) (p : types.Path) → Gives result (targets.may_begin how at t (begin.Net p)) }
{
    match how {
        How::Continuous => Ok(()),
        _ => Err(Refusal::Rule { rule: 21, at }),
    }
}

/// E47: a signal of a clocking block is driven, where it is an output.
fn signal_stands(how: How, t: &Typed, is_output: bool) -> Result<(), Refusal>
    ensures { (at : place_of) (b : types.Path) (i : ℕ)
        → Gives result (targets.may_begin how at t.now (begin.Signal b i is_output)) }
{
    match how {
        How::Drive => rule(47, t.at, !is_output || t.target.has_part()),
        _ => Err(Refusal::Rule { rule: 47, at: t.at }),
    }
}

/// E18, E26: an item of a static variable is written by statements alone, and at once.
fn variable_stands(how: How, at: Place, t: &Typed) -> Result<(), Refusal>
    ensures { (p : types.Path) → Gives result (targets.may_begin how at t.now (begin.Variable p)) }
{
    match how {
        How::Statement => Ok(()),
        How::Continuous => rule(18, at, t.target.is_item()),
        _ => rule(26, at, t.target.is_item()),
    }
}

/// E18, E26: the result of a static function is written by statements alone.
fn result_stands(how: How, at: Place, t: &Typed) -> Result<(), Refusal>
    ensures { Gives result (targets.may_begin how at t.now begin.Result) }
{
    match how {
        How::Statement => Ok(()),
        How::Continuous => Err(Refusal::Rule { rule: 18, at }),
        _ => rule(26, at, t.target.is_item()),
    }
}

/// E18, E26: what lasts no longer than an activation or an object is written by statements alone, and at once.
fn inner_stands(how: How, at: Place) -> Result<(), Refusal>
    ensures inner { (t : typed) → Gives result (targets.may_begin how at t begin.InActivation) }
    ensures property { (t : typed) (p : types.Path)
        → Gives result (targets.may_begin how at t (begin.StaticProperty p)) }
{
    match how {
        How::Statement => Ok(()),
        How::Continuous => Err(Refusal::Rule { rule: 18, at }),
        _ => Err(Refusal::Rule { rule: 26, at }),
    }
}

/// Whether what a target begins with may be written so. E18: it is none, or is not written continuously; E19: an input or a parameter;
/// E21: a net; E26: a nonblocking assignment writes to what may not last; E47: a signal of a clocking block that is not driven.
pub fn may_begin(how: How, at: Place, t: &Typed) -> Result<(), Refusal>
    ensures { Gives result (targets.may_begin how at t.now t.now.target.begins) }
{
    match t.target.begins() {
        Some(Begin::Variable(_)) => variable_stands(how, at, t),
        Some(Begin::Net(_)) => net_stands(how, at),
        Some(Begin::Input) => Err(Refusal::Rule { rule: 19, at }),
        Some(Begin::Parameter) => Err(Refusal::Rule { rule: 19, at }),
        Some(Begin::Item) => Err(Refusal::Rule { rule: 18, at }),
        Some(Begin::InActivation) => inner_stands(how, at),
        Some(Begin::StaticProperty(_)) => inner_stands(how, at),
        Some(Begin::Result) => result_stands(how, at, t),
        Some(Begin::Signal { is_output, .. }) => signal_stands(how, t, *is_output),
        Some(Begin::Object) => Err(Refusal::Rule { rule: 18, at }),
        Some(Begin::Value) | None => Err(Refusal::Rule { rule: 18, at }),
    }
}

/// E11: a select moves.
fn moves(at: Place) -> Result<(), Refusal>
    ensures { Gives result (rules.broken_at {A = Unit {0}} 11 at) }
{
    Err(Refusal::Rule { rule: 11, at })
}

/// E11: no select moves; the first that does is told.
fn none_moves(places: &[Place]) -> Result<(), Refusal>
    ensures { Gives result (all (λ p. rules.broken_at 11 p) places.now) }
{
    match places {
        [] => Ok(()),
        [place, rest @ ..] => guarded(moves(*place), none_moves(rest)),
    }
}

/// E11: the selects of a continuous target are constant.
pub fn selects_stand(how: How, moving: &[Place]) -> Result<(), Refusal>
    ensures { Gives result (targets.selects_stand how moving.now) }
{
    match how {
        How::Continuous => none_moves(moving),
        _ => Ok(()),
    }
}

/// E18, E19, E21, E26, E42, E47: what is written may be written.
fn begin_stands(how: How, at: Place, t: &Typed) -> Result<(), Refusal>
    ensures { Gives result (written.begin_stands how at t.now) }
{
    if t.ty.is_fixed() {
        Err(Refusal::Rule { rule: 42, at: t.at })
    } else {
        may_begin(how, at, t)
    }
}

/// The same, and E11 beside it: its selects too.
fn target_stands(how: How, at: Place, t: &Typed) -> Result<(), Refusal>
    ensures { Gives result (written.target_stands how at t.now) }
{
    let selects = selects_stand(how, t.target.moving());
    guarded(begin_stands(how, at, t), selects)
}

/// A target of one part, at its place. E42: no whole fixed array is written; E11: a select of a continuous target moves; E18, E19, E21,
/// E26 and E47 as `may_begin` tells.
#[tactic(auto, using(crate::proofs::Targeted::target_whole))]
pub fn may_be_written(how: How, at: Place, t: Typed) -> Result<Spot, Refusal>
    ensures { Gives result (targets.may_be_written how at t) }
{
    match target_stands(how, at, &t) {
        Ok(()) => Ok((at, t)),
        Err(e) => Err(e),
    }
}

// ---- concatenations

/// E15, E42: a part of a concatenation is a number.
fn in_concatenation(spot: &Spot) -> Result<(), Refusal>
    ensures { Gives result (targets.in_concatenation spot.now) }
{
    if spot.1.ty.is_array() {
        return Err(Refusal::Rule {
            rule: 42,
            at: spot.1.at,
        });
    }
    rule(15, spot.0, !spot.1.ty.is_integral())
}

/// E15, E42: all parts are numbers.
fn all_numbers(spots: &[Spot]) -> Result<(), Refusal>
    ensures { Gives result (all targets.in_concatenation spots.now) }
{
    match spots {
        [] => Ok(()),
        [spot, rest @ ..] => guarded(in_concatenation(spot), all_numbers(rest)),
    }
}

/// How many bits the parts have.
pub(crate) fn widths(spots: &[Spot]) -> Result<u64, Refusal>
    ensures ok { IfOk result (λ w. w ≡ targets.widths spots.now) }
    ensures err { IfErr result (λ e. e ≡ Memory) }
{
    match spots {
        [] => Ok(0),
        [spot, rest @ ..] => {
            let behind = widths(rest)?;
            match u64::from(spot.1.ty.width()).checked_add(behind) {
                Some(width) => Ok(width),
                None => Err(Refusal::Memory),
            }
        }
    }
}

/// E13: the parts have no more than 64 bits.
fn width_stands(at: Place, spots: &[Spot]) -> Result<(), Refusal>
    ensures { Gives result (values.not_too_wide at (targets.widths spots.now)) }
{
    let width = widths(spots)?;
    not_too_wide(at, width)
}

/// E13, E15, E42: the parts are numbers, and together no wider than a vector.
fn parts_stand(at: Place, spots: &[Spot]) -> Result<(), Refusal>
    ensures { Gives result (written.parts_stand at spots.now) }
{
    match all_numbers(spots) {
        Ok(()) => width_stands(at, spots),
        Err(e) => Err(e),
    }
}

/// A concatenation of targets that break no rule.
#[tactic(auto, using(crate::proofs::Targeted::parts_first, crate::proofs::Targeted::parts_whole))]
fn concatenation(at: Place, spots: Seq<Spot>) -> Result<Seq<Spot>, Refusal>
    ensures { Gives result (targets.concatenated at spots) }
{
    match parts_stand(at, spots.as_slice()) {
        Ok(()) => Ok(spots),
        Err(e) => Err(e),
    }
}

/// A concatenation of targets (11.4.12). E15 and E42: a part is no number; E13: it is wider than 64 bits.
pub fn concatenated(at: Place, spots: Result<Seq<Spot>, Refusal>) -> Result<Seq<Spot>, Refusal>
    ensures { (x : checked (List targets.Spot)) → Gives spots x → Gives result (x ▷ targets.concatenated at) }
{
    match spots {
        Ok(spots) => concatenation(at, spots),
        Err(e) => Err(e),
    }
}

// ---- values that are given to targets

/// E16, E17, E42: a value of a type can be given to a variable of another one.
fn type_takes(alloc: Global, around: &Around, at: Place, ty: &Ty, to: &Ty) -> Result<(), Refusal>
    ensures { Gives result (written.type_takes (around_in around.now) at ty.now to.now) }
{
    let ty = ty.copy(alloc)?;
    let handle = expr_of(alloc, ExprForm::Handle { key: None })?;
    let value = value_typed(alloc, ty, at, false, pure(alloc, handle));
    match assigned(alloc, around, to, at, value) {
        Ok(_) => Ok(()),
        Err(e) => Err(e),
    }
}

/// Whether a value of a type can be given to a target, as that of an output argument is (13.5). E16, E17 and E42 at `at` where it cannot.
pub fn takes(
    alloc: Global,
    around: &Around,
    at: Place,
    ty: &Ty,
    spots: &[Spot],
) -> Result<(), Refusal>
    ensures { Gives result (targets.takes (around_in around.now) at ty.now spots.now) }
{
    match spots {
        [spot] => type_takes(alloc, around, at, ty, &spot.1.ty),
        _ => rule(16, at, !ty.is_integral()),
    }
}
