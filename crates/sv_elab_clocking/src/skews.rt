// When signals of clocking blocks are sampled and driven (IEEE 1800-2017, 14.3 and 14.4): E6, E11, E12, E15, E42, E52, E57.
ghost use Rattle.std.specs.Prelude.{◌≡◌, ◌≤ℤ◌, ◌*◌, ◌-◌, ◌^◌, map, pos};
ghost use Rattle.sv_tree.specs.UnitView.{skew as skew_in, sided, clocking_item};
ghost use Rattle.sv_tree.specs.View as view;
ghost use Rattle.sv_names.specs.Assignments as assignments;
ghost use Rattle.sv_names.specs.Checked.{◌▷◌};
ghost use Rattle.sv_names.specs.Clockings as clockings;
ghost use Rattle.sv_names.specs.Given.{Gives, GivesAs};
ghost use Rattle.sv_names.specs.Operators as operators;
ghost use Rattle.sv_names.specs.Views.{around_in};
ghost use Rattle.sv_elab_clocking.specs.Skews as words;
ghost use Rattle.sv_elab_clocking.specs.Skews.{skews_in};

use std::alloc::Global;
use sv_elab_expr::sv_elab_operator::ticks_in;
use sv_elab_expr::sv_elab_value::constant_number;
use sv_elab_expr::{expr, place_of};
use sv_elab_signal::is_input_side;
use sv_flat::Scale;
use sv_names::{Around, Refusal, first};
use sv_tree::{ClockingItem, Expr, Sided, Skew};
use sv_value::Place;

/// The most ticks of a skew.
const MOST_TICKS: u128 = 1 << 20;

/// The skews of inputs and of outputs in ticks; none is `1step`.
#[derive(Clone, Copy)]
pub struct Skews {
    pub input: Option<u64>,
    pub output: Option<u64>,
}

/// `1step` for inputs and 0 for outputs.
pub fn usual_skews() -> Skews
    ensures { skews_in result ≡ clockings.usual_skews }
{
    Skews {
        input: None,
        output: Some(0),
    }
}

// ---- one skew

/// E57: a skew has no more ticks than 2^20.
fn limited(at: Place, ticks: u128) -> Result<Option<u64>, Refusal>
    ensures { Gives result (words.limited at ticks) }
{
    if MOST_TICKS < ticks {
        return Err(Refusal::Rule { rule: 57, at });
    }
    Ok(Some(ticks as u64))
}

/// So many units of time, which are not negative. Memory is wanting for units above 100 s, which no scale has.
#[tactic(auto, using(crate::proofs::SkewLaws::units_are))]
fn units(scale: &Scale, at: Place, count: u64) -> Result<Option<u64>, Refusal>
    ensures { Gives result (words.limited at (count * clockings.unit_ticks scale.now)) }
{
    if 17 < scale.unit {
        return Err(Refusal::Memory);
    }
    limited(at, (count as u128) * (scale.unit_ticks() as u128))
}

/// So many units of time. E12: they are negative, which is told at their own place.
#[tactic(auto, using(crate::proofs::SkewLaws::negative_count, crate::proofs::SkewLaws::natural_count))]
fn counted(scale: &Scale, at: Place, place: Place, number: i128) -> Result<Option<u64>, Refusal>
    requires { number ≤ℤ pos (2 ^ 64 - 1) }
    ensures { Gives result (clockings.skew_count scale.now place number ▷ words.limited at) }
{
    if number < 0 {
        return Err(Refusal::Rule {
            rule: 12,
            at: place,
        });
    }
    match u64::try_from(number) {
        Ok(count) => units(scale, at, count),
        Err(_) => unreachable!(),
    }
}

/// A constant number of units.
fn in_units(alloc: Global, at: Place, e: &Expr, around: &Around) -> Result<Option<u64>, Refusal>
    ensures { Gives result (clockings.units_in (around_in around.now) (view.expr e.now) ▷ words.limited at) }
{
    let place = place_of(e);
    match expr(alloc, e, around) {
        Ok(t) => match constant_number(place, &t) {
            Ok(number) => counted(&around.scale, at, place, number),
            Err(f) => Err(f),
        },
        Err(f) => Err(f),
    }
}

/// A time literal, in ticks.
fn in_ticks(scale: &Scale, at: Place, place: Place, text: &[u8]) -> Result<Option<u64>, Refusal>
    ensures { Gives result (operators.ticks_in scale.now place text.now ▷ words.limited at) }
{
    match ticks_in(scale, place, text) {
        Ok(ticks) => limited(at, ticks as u128),
        Err(f) => Err(f),
    }
}

/// What stands in brackets right behind a `#`.
fn inner_of(e: &Expr) -> &Expr
    ensures { view.expr result.now ≡ assignments.amount_expr (view.expr e.now) }
{
    match e {
        Expr::Group(_, inner) => &**inner,
        _ => e,
    }
}

/// A skew that is written behind `#`. A time literal alone counts ticks (3.14.1).
fn amount(alloc: Global, at: Place, e: &Expr, around: &Around) -> Result<Option<u64>, Refusal>
    ensures { Gives result (clockings.skew_amount (around_in around.now) (view.expr e.now) ▷ words.limited at) }
{
    match e {
        Expr::Time(place, text) => in_ticks(&around.scale, at, *place, text.bytes()),
        _ => in_units(alloc, at, inner_of(e), around),
    }
}

/// A skew; none is `1step`.
fn skew_of(alloc: Global, skew: &Skew, around: &Around) -> Result<Option<u64>, Refusal>
    ensures { Gives result (clockings.skew_of (around_in around.now) (skew_in skew.now)) }
{
    match skew {
        Skew::OneStep(_) => Ok(None),
        Skew::Amount(at, e) => amount(alloc, *at, e, around),
    }
}

// ---- the skews of lists

/// A skew in place of the one before.
fn taken(before: Skews, is_input: bool, skew: Option<u64>) -> Skews
    ensures { skews_in result ≡ words.taken (skews_in before) is_input skew }
{
    if is_input {
        Skews {
            input: skew,
            output: before.output,
        }
    } else {
        Skews {
            input: before.input,
            output: skew,
        }
    }
}

/// The skew of a side in place of the one before, where one is written.
fn with_skew(alloc: Global, before: Skews, side: &Sided, around: &Around) -> Result<Skews, Refusal>
    ensures { GivesAs skews_in result (clockings.with_skew (around_in around.now) (skews_in before) (sided side.now)) }
{
    match &side.skew {
        None => Ok(before),
        Some(skew) => match skew_of(alloc, skew, around) {
            Ok(skew) => Ok(taken(before, is_input_side(side.direction), skew)),
            Err(f) => Err(f),
        },
    }
}

/// The skews of sides in place of those before.
#[tactic(auto, using(crate::proofs::SkewLaws::first_good, crate::proofs::SkewLaws::first_broken, crate::proofs::SkewLaws::both_broken))]
pub fn with_skews(
    alloc: Global,
    before: Skews,
    sides: &[Sided],
    around: &Around,
) -> Result<Skews, Refusal>
    ensures { GivesAs skews_in result (clockings.with_skews (around_in around.now) (skews_in before) (map sided sides.now)) }
{
    match sides {
        [] => Ok(before),
        [one, rest @ ..] => match with_skew(alloc, before, one, around) {
            Ok(next) => with_skews(alloc, next, rest, around),
            Err(f) => match with_skews(alloc, before, rest, around) {
                Ok(_) => Err(f),
                Err(g) => Err(first(f, g)),
            },
        },
    }
}

/// The skews behind an item, which may make others usual.
fn after_item(
    alloc: Global,
    before: Skews,
    item: &ClockingItem,
    around: &Around,
) -> Result<Skews, Refusal>
    ensures { GivesAs skews_in result (words.after_item (around_in around.now) (skews_in before) (clocking_item item.now)) }
{
    match item {
        ClockingItem::Default(sides) => with_skews(alloc, before, sides.as_slice(), around),
        ClockingItem::Signals(_, _) => Ok(before),
    }
}

/// The skews that a block makes usual.
#[tactic(auto, using(crate::proofs::SkewLaws::item_broken))]
pub fn defaults(
    alloc: Global,
    before: Skews,
    items: &[ClockingItem],
    around: &Around,
) -> Result<Skews, Refusal>
    ensures { GivesAs skews_in result (clockings.defaults (around_in around.now) (skews_in before) (map clocking_item items.now)) }
{
    match items {
        [] => Ok(before),
        [one, rest @ ..] => match after_item(alloc, before, one, around) {
            Ok(next) => defaults(alloc, next, rest, around),
            Err(f) => Err(f),
        },
    }
}
