// Selects, by the type of what is selected of (IEEE 1800-2017, 7.4 to 7.10 and 11.5.1): E11 to E17, E42, E51.
ghost use Rattle.std.specs.Prelude.{◌≡◌};
ghost use Rattle.sv_names.specs.declared.checked.Checked.{Checked as checked};
ghost use Rattle.sv_names.specs.declared.typed.Typed.{Typed as typed};
ghost use Rattle.sv_names.specs.Checked.{◌▷◌, broken_at, both as both_of};
ghost use Rattle.sv_names.specs.declared.checked.Checked.TheVariants.{Good};
ghost use Rattle.sv_names.specs.Selects as selects;
ghost use Rattle.sv_names.specs.Views.{around_in};
ghost use Rattle.sv_names.specs.Given.{Gives};

use crate::bits::{bit_of, part_of};
use crate::items::array_select;
use std::alloc::Global;
use sv_names::{Around, Refusal, Typed, both};
use sv_tree::PartWord;
use sv_value::Place;

/// `[i]` after what has items or bits: an item of a container, an element of a fixed array, or a bit of a vector. `at` is the bracket
/// and `place` the index. E14 where there are no bits, E42 where the index is no number, and of a key also E17; E51 where an item is
/// printed later.
pub fn select_of(
    alloc: Global,
    around: &Around,
    at: Place,
    place: Place,
    a: Typed,
    i: Result<Typed, Refusal>,
) -> Result<Typed, Refusal>
    ensures { (x : checked typed) → Gives i x → Gives result (selects.select_of (around_in around.now) at place a x) }
{
    if a.ty.is_array() {
        array_select(alloc, around, place, a, i)
    } else {
        bit_of(alloc, at, place, a, i)
    }
}

/// E14: there are no bits.
fn no_bits(at: Place) -> Result<Typed, Refusal>
    ensures { Gives result (broken_at {A = typed} 14 at) }
{
    Err(Refusal::Rule { rule: 14, at })
}

/// E14: an array has no parts.
fn no_part(
    at: Place,
    l: Result<Typed, Refusal>,
    r: Result<Typed, Refusal>,
) -> Result<Typed, Refusal>
    ensures { (x y : checked typed) → Gives l x → Gives r y
        → Gives result (both_of (broken_at 14 at) (both_of x y) ▷ (λ p. Good p.0)) }
{
    match both(no_bits(at), both(l, r)) {
        Ok((t, _)) => Ok(t),
        Err(e) => Err(e),
    }
}

/// `[l:r]`, `[b +: w]` or `[b -: w]`: several bits of a vector. `at` is the bracket, `whole` the expression, `left` and `right` are what
/// stands in the brackets. E14 where there are no bits or the ends run against the vector, E13 where the part is wider than 64 bits,
/// E11, E12 and E15 where an end or a width is no constant number, E42 where an index is no number.
pub fn part_select_of(
    alloc: Global,
    word: PartWord,
    at: Place,
    whole: Place,
    left: Place,
    right: Place,
    a: Typed,
    l: Result<Typed, Refusal>,
    r: Result<Typed, Refusal>,
) -> Result<Typed, Refusal>
    ensures { (x y : checked typed) → Gives l x → Gives r y
        → Gives result (selects.part_select_of word at whole left right a x y) }
{
    if a.ty.is_array() {
        no_part(at, l, r)
    } else {
        part_of(alloc, word, at, whole, left, right, a, l, r)
    }
}
