// A value, or its part, over an old one (IEEE 1800-2017, 11.5.1).
ghost use Rattle.std.specs.Prelude.{◌≡◌, ◌-ℤ◌, neg_ℤ, pos, take, length, IfSome, IfNone};
ghost use Rattle.sv_value.specs.Vector.{vector};
ghost use Rattle.sv_flat.specs.Effects.Writes.{symbols_over, part_over, value_over};

use sv_value::{Bits, Range, Val};

/// The symbols of a part over those of a vector, whose first one is at this place of the part.
#[tactic(auto, using(sv_store::proofs::PartLaws::from_past, sv_store::proofs::PartLaws::from_within))]
fn over_from(old: Bits, place: u64, part: Bits) -> Bits
    ensures { result ≡ vector old.signed (symbols_over old.symbols (pos place) part.symbols) }
{
    let own = old.width();
    let count = part.width();
    if place >= u64::from(count) {
        return old;
    }
    let from = place as u32;
    let reached = own.min(count - from);
    old.with_part(0, part.slice(from, reached))
}

/// The symbols of a part over those of a vector, from this place of the vector on.
#[tactic(auto, using(sv_store::proofs::PartLaws::above_past, sv_store::proofs::PartLaws::above_within))]
fn over_above(old: Bits, low: u64, part: Bits) -> Bits
    ensures { result ≡ vector old.signed (symbols_over old.symbols (neg_ℤ (pos low)) part.symbols) }
{
    let own = old.width();
    let count = part.width();
    if low >= u64::from(own) {
        return old;
    }
    let low = low as u32;
    let reached = count.min(own - low);
    old.with_part(low, part.slice(0, reached))
}

/// A part over a vector, which may reach out of it on both sides.
fn over_at(old: Bits, low: i64, part: Bits) -> Bits
    ensures { result ≡ vector old.signed (symbols_over old.symbols (pos 0 -ℤ low) part.symbols) }
{
    let distance = low.unsigned_abs();
    if low < 0 {
        over_from(old, distance, part)
    } else {
        over_above(old, distance, part)
    }
}

/// The lowest symbols of a vector over a range of another one.
#[tactic(auto, using(sv_store::proofs::PartLaws::taken_is))]
fn overlaid(old: Bits, range: Range, given: Bits) -> Bits
    ensures { result ≡ vector old.signed (symbols_over old.symbols (pos 0 -ℤ range.low) (take range.width given.symbols)) }
{
    let count = given.width().min(range.width);
    if count == 0 {
        return old;
    }
    over_at(old, range.low, given.slice(0, count))
}

/// A value, or its part, over an old one; none where the old one stays.
pub fn value_over(old: &Val, part: Option<Range>, value: Val) -> Option<Val>
    ensures some { IfSome result (λ v. v ≡ value_over old.now part value) }
    ensures none { IfNone result (value_over old.now part value ≡ old.now) }
{
    match part {
        None => Some(value),
        Some(range) => part_over(old, range, &value),
    }
}

/// A part over an old value; none where the old one stays.
fn part_over(old: &Val, range: Range, value: &Val) -> Option<Val>
    ensures some { IfSome result (λ v. v ≡ part_over old.now range value.now) }
    ensures none { IfNone result (part_over old.now range value.now ≡ old.now) }
{
    match old {
        Val::Bits(old) => match value {
            Val::Bits(given) => Some(Val::Bits(overlaid(*old, range, *given))),
            Val::Text(_) | Val::Object(_) | Val::Event(_) => None,
        },
        Val::Text(_) | Val::Object(_) | Val::Event(_) => None,
    }
}
