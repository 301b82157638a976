// Casts, by what they are to (IEEE 1800-2017, 6.24.1): E6, E7, E11 to E13, E15 to E17, E42.
ghost use Rattle.std.specs.Prelude.{◌≡◌, ℕ, false};
ghost use Rattle.sv_value.specs.declared.place.Place.{Place as place_of};
ghost use Rattle.sv_names.specs.declared.checked.Checked.{Checked as checked};
ghost use Rattle.sv_names.specs.declared.named.Named.{Named as named};
ghost use Rattle.sv_names.specs.declared.typed.Typed.{Typed as typed};
ghost use Rattle.sv_names.specs.declared.ty.Ty.TheVariants as ty;
ghost use Rattle.sv_names.specs.Named.{Around as around_of};
ghost use Rattle.sv_names.specs.Checked.{◌▷◌};
ghost use Rattle.sv_names.specs.Operators as operators;
ghost use Rattle.sv_names.specs.Expressions as expressions;
ghost use Rattle.sv_names.specs.Views.{around_in, meaning_in};
ghost use Rattle.sv_names.specs.Given.{Gives, Fails};
ghost use Rattle.sv_elab_thing.specs.Casts as casts;

use crate::calls::AllCalls;
use std::alloc::Global;
use sv_elab_name::named_thing;
use sv_elab_operator::sv_elab_value::{assigned, constant_count, counted, value_typed};
use sv_elab_operator::{atom_type, cast_number, has_four_states, number, number_cast, sized};
use sv_names::{Around, Meaning, Named, Refusal, Ty, Typed, both, copy_path, first, whole};
use sv_tree::{AtomWord, CastType, Name, VectorWord};
use sv_value::{Integral, Place, Text};

// ---- to a type

/// E16, E17, E42: a value as one of a type that is no number.
fn assigned_as(
    alloc: Global,
    around: &Around,
    to: Ty,
    place: Place,
    at: Place,
    t: Typed,
) -> Result<Typed, Refusal>
    ensures { Gives result (casts.assigned_as (around_in around.now) to place at t) }
{
    if t.ty.is_array() {
        return Err(Refusal::Rule { rule: 42, at: t.at });
    }
    let is_constant = t.is_constant;
    match assigned(alloc, around, &to, at, t) {
        Ok(code) => Ok(value_typed(alloc, to, place, is_constant, code)),
        Err(e) => Err(e),
    }
}

/// E16, E17, E42: a value as one of a type.
fn cast_as(
    alloc: Global,
    around: &Around,
    to: Ty,
    place: Place,
    at: Place,
    t: Typed,
) -> Result<Typed, Refusal>
    ensures { Gives result (casts.cast_as (around_in around.now) to place at t) }
{
    if to.is_integral() {
        let integral = to.integral();
        number_cast(alloc, to, integral, place, at, t)
    } else {
        assigned_as(alloc, around, to, place, at, t)
    }
}

/// A cast to a type, where the operand breaks no rule before.
#[tactic(auto, using(crate::proofs::CastLaws::cast_is))]
fn to_type(
    alloc: Global,
    around: &Around,
    to: Ty,
    place: Place,
    at: Place,
    e: Result<Typed, Refusal>,
) -> Result<Typed, Refusal>
    ensures { (x : checked typed) → Gives e x
        → Gives result (x ▷ operators.cast_to (around_in around.now) to place at) }
{
    match e {
        Ok(t) => cast_as(alloc, around, to, place, at, t),
        Err(e) => Err(e),
    }
}

// ---- to a number

/// A cast to `bit`, `logic` or `reg`.
fn to_bit(
    alloc: Global,
    word: VectorWord,
    place: Place,
    at: Place,
    e: Result<Typed, Refusal>,
) -> Result<Typed, Refusal>
    ensures { (ar : around_of) (x : checked typed) → Gives e x
        → Gives result (x ▷ operators.cast_to ar (casts.word_type word) place at) }
{
    let to = Integral {
        width: 1,
        signed: false,
        four_state: has_four_states(word),
    };
    cast_number(alloc, to, None, place, at, e)
}

/// A cast to a type that has a width of its own.
fn to_atom(
    alloc: Global,
    word: AtomWord,
    place: Place,
    at: Place,
    e: Result<Typed, Refusal>,
) -> Result<Typed, Refusal>
    ensures { (ar : around_of) (x : checked typed) → Gives e x
        → Gives result (x ▷ operators.cast_to ar (casts.whole_type (operators.atom_type word)) place at) }
{
    let to = atom_type(word);
    cast_number(alloc, to, whole(to.width), place, at, e)
}

// ---- to a width

/// E12, E13, E16, E42: a cast to a width, where neither it nor the operand breaks a rule before.
fn sized_by(
    alloc: Global,
    place: Place,
    at: Place,
    width: Result<u64, Refusal>,
    e: Result<Typed, Refusal>,
) -> Result<Typed, Refusal>
    ensures { (n : checked ℕ) (x : checked typed) → Gives width n → Gives e x
        → Gives result (casts.sized_by place at n x) }
{
    match both(width, e) {
        Ok((width, t)) => sized(alloc, place, at, width, t),
        Err(e) => Err(e),
    }
}

/// E11, E12: the width that a number tells.
fn width_written(alloc: Global, at: Place, text: &[u8]) -> Result<u64, Refusal>
    ensures { Gives result (casts.width_written at text.now) }
{
    let t = number(alloc, at, text)?;
    constant_count(at, &t)
}

/// The width that a name tells. E11, E12, E15: it is no constant number of at least 1; or a rule that the name breaks as a value.
fn width_named(alloc: Global, around: &Around, at: Place, meaning: Meaning) -> Result<u64, Refusal>
    ensures { Gives result (casts.width_named (around_in around.now) at (meaning_in meaning.entry)) }
{
    match named_thing(alloc, around, at, meaning) {
        Ok(thing) => counted(at, thing.value::<AllCalls>(alloc, around, at)),
        Err(e) => Err(e),
    }
}

/// A cast to a width that a number tells.
fn to_width(
    alloc: Global,
    written: Place,
    text: &[u8],
    place: Place,
    at: Place,
    e: Result<Typed, Refusal>,
) -> Result<Typed, Refusal>
    ensures { (x : checked typed) → Gives e x
        → Gives result (casts.sized_by place at (casts.width_written written text.now) x) }
{
    sized_by(alloc, place, at, width_written(alloc, written, text), e)
}

// ---- to a name

/// A cast to the type that a name stands for.
fn to_copy(
    alloc: Global,
    around: &Around,
    ty: &Ty,
    place: Place,
    at: Place,
    e: Result<Typed, Refusal>,
) -> Result<Typed, Refusal>
    ensures { (x : checked typed) → Gives e x
        → Gives result (x ▷ operators.cast_to (around_in around.now) ty.now place at) }
{
    let to = ty.copy(alloc)?;
    to_type(alloc, around, to, place, at, e)
}

/// A cast to a class.
fn to_class(
    alloc: Global,
    around: &Around,
    class: &[Text],
    place: Place,
    at: Place,
    e: Result<Typed, Refusal>,
) -> Result<Typed, Refusal>
    ensures { (x : checked typed) → Gives e x
        → Gives result (x ▷ operators.cast_to (around_in around.now) (ty.Class class.now) place at) }
{
    let class = copy_path(alloc, class)?;
    to_type(alloc, around, Ty::Class(class), place, at, e)
}

/// A cast to a name, by what it stands for: a type, or a constant width.
fn by_meaning(
    alloc: Global,
    around: &Around,
    written: Place,
    meaning: Meaning,
    place: Place,
    at: Place,
    e: Result<Typed, Refusal>,
) -> Result<Typed, Refusal>
    ensures { (x : checked typed) → Gives e x
        → Gives result (expressions.cast_by_name (around_in around.now) place written at (meaning_in meaning.entry) x) }
{
    match meaning.named {
        Named::TypeName(ty) => to_copy(alloc, around, ty, place, at, e),
        Named::ClassName(class) => to_class(alloc, around, class.as_slice(), place, at, e),
        _ => {
            let width = width_named(alloc, around, written, meaning);
            sized_by(alloc, place, at, width, e)
        }
    }
}

/// What breaks a rule as a name to cast to, and what its operand breaks beside.
fn beside(name: Refusal, e: Result<Typed, Refusal>) -> Result<Typed, Refusal>
    ensures { (ar : around_of) (pe pn at : place_of) (m : checked named) (x : checked typed)
        → Fails name m → Gives e x → Gives result (expressions.named_cast ar pe pn at m x) }
{
    match e {
        Ok(_) => Err(name),
        Err(f) => Err(first(name, f)),
    }
}

/// A cast to a name. E6: it is not declared.
fn to_name(
    alloc: Global,
    around: &Around,
    name: &Name,
    place: Place,
    at: Place,
    e: Result<Typed, Refusal>,
) -> Result<Typed, Refusal>
    ensures { (x : checked typed) → Gives e x
        → Gives result (casts.cast_to_name (around_in around.now) name.now place at x) }
{
    match around.meaning(name) {
        Ok(meaning) => by_meaning(alloc, around, name.at, meaning, place, at, e),
        Err(f) => beside(f, e),
    }
}

// ---- the table

/// A cast, by what it is to, of an operand that may break a rule. E16, E17 and E42: the operand cannot be cast so; E13: it is cast to more
/// than 64 bits; E6, E7, E11, E12 and E15: what it is to is neither a type nor a constant number of at least 1.
pub fn cast(
    alloc: Global,
    to: &CastType,
    place: Place,
    at: Place,
    around: &Around,
    e: Result<Typed, Refusal>,
) -> Result<Typed, Refusal>
    ensures { (x : checked typed) → Gives e x
        → Gives result (expressions.cast_of (around_in around.now) to.now place at x) }
{
    match to {
        CastType::Vector(_, word) => to_bit(alloc, *word, place, at, e),
        CastType::Atom(_, word) => to_atom(alloc, *word, place, at, e),
        CastType::Width(written, text) => to_width(alloc, *written, text.bytes(), place, at, e),
        CastType::Text(_) => to_type(alloc, around, Ty::Text, place, at, e),
        CastType::Event(_) => to_type(alloc, around, Ty::Event, place, at, e),
        CastType::Semaphore(_) => to_type(alloc, around, Ty::Semaphore, place, at, e),
        CastType::Mailbox(_) => to_type(alloc, around, Ty::Mailbox, place, at, e),
        CastType::Named(name) => to_name(alloc, around, name, place, at, e),
    }
}
