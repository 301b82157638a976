// Vector types, with their ranges (IEEE 1800-2017, 6.9 and 6.11): E11 to E13, E15.
ghost use Rattle.std.specs.Prelude.{◌≡◌, ◌≤ℤ◌, pos, ◌-◌, ◌^◌, Some, IfOk, IfErr, option_map};
ghost use Rattle.sv_tree.specs.View.{expr as expr_in};
ghost use Rattle.sv_tree.specs.StmtView.{range as range_in};
ghost use Rattle.sv_names.specs.declared.refusal.Refusal.TheVariants.{Memory};
ghost use Rattle.sv_names.specs.Declarations as declarations;
ghost use Rattle.sv_names.specs.Views.{around_in};
ghost use Rattle.sv_names.specs.Given.{Gives};

use std::alloc::Global;
use sv_elab_expr::sv_elab_value::constant_number;
use sv_elab_expr::{expr, place_of};
use sv_flat::Bounds;
use sv_names::{Around, Refusal, Ty, both, plain_vector};
use sv_tree::{Expr, Range, Sign};
use sv_value::{Integral, Place};

/// The sign that is written, or the usual one.
pub fn is_signed(usual: bool, sign: Sign) -> bool
    ensures { result ≡ declarations.is_signed usual sign }
{
    match sign {
        Sign::Signed => true,
        Sign::Unsigned => false,
        Sign::Unwritten => usual,
    }
}

/// A number as a bound; want of memory stands for one that has more than 64 bits with its sign.
fn narrow(number: i128) -> Result<i64, Refusal>
    ensures ok { IfOk result (λ n. n ≡ number) }
    ensures err { IfErr result (λ e. e ≡ Memory) }
{
    match i64::try_from(number) {
        Ok(n) => Ok(n),
        Err(_) => Err(Refusal::Memory),
    }
}

/// The bounds of a range.
pub(crate) fn bounds(left: i128, right: i128) -> Result<Bounds, Refusal>
    ensures ok { IfOk result (λ b. b ≡ declarations.bounds left right) }
    ensures err { IfErr result (λ e. e ≡ Memory) }
{
    let left = narrow(left)?;
    let right = narrow(right)?;
    Ok(Bounds { left, right })
}

/// E13: a vector of the bits of a range.
fn ranged(signed: bool, four_state: bool, at: Place, left: i128, right: i128) -> Result<Ty, Refusal>
    ensures { Gives result (declarations.ranged signed four_state at left right) }
{
    let apart = left.abs_diff(right);
    if apart >= 64 {
        return Err(Refusal::Rule { rule: 13, at });
    }
    let bounds = bounds(left, right)?;
    let width = apart as u32 + 1;
    Ok(Ty::Vector {
        integral: Integral {
            width,
            signed,
            four_state,
        },
        bounds: Some(bounds),
        is_written: true,
    })
}

/// E11, E12, E15: a bound of a range, or a size.
pub fn bound(alloc: Global, around: &Around, e: &Expr) -> Result<i128, Refusal>
    ensures gives { Gives result (declarations.bound (around_in around.now) (expr_in e.now)) }
    ensures small { IfOk result (λ n. n ≤ℤ pos (2 ^ 64 - 1)) }
{
    let at = place_of(e);
    match expr(alloc, e, around) {
        Ok(t) => constant_number(at, &t),
        Err(e) => Err(e),
    }
}

/// A vector type with a range.
fn with_range(
    alloc: Global,
    around: &Around,
    signed: bool,
    four_state: bool,
    range: &Range,
) -> Result<Ty, Refusal>
    ensures { Gives result (declarations.vector_type (around_in around.now) signed four_state (Some (range_in range.now))) }
{
    let left = bound(alloc, around, &range.left);
    let right = bound(alloc, around, &range.right);
    match both(left, right) {
        Ok((left, right)) => ranged(signed, four_state, range.at, left, right),
        Err(e) => Err(e),
    }
}

/// A vector type with its range, if one is written.
pub fn vector_type(
    alloc: Global,
    around: &Around,
    signed: bool,
    four_state: bool,
    range: Option<&Range>,
) -> Result<Ty, Refusal>
    ensures { Gives result (declarations.vector_type (around_in around.now) signed four_state
        (option_map (λ r. range_in r.now) range.entry)) }
{
    match range {
        None => Ok(plain_vector(1, signed, four_state)),
        Some(range) => with_range(alloc, around, signed, four_state, range),
    }
}
