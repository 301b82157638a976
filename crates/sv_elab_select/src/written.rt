// Targets in the flat design, and how they are read (IEEE 1800-2017, 10.4, 11.4.1 and 11.4.12).
ghost use Rattle.std.specs.Prelude.{◌≡◌, ◌∷◌, IfOk, IfErr};
ghost use Rattle.sv_flat.specs.Expr as flat;
ghost use Rattle.sv_names.specs.declared.refusal.Refusal.TheVariants.{Memory};
ghost use Rattle.sv_names.specs.Hoisted as hoisted;
ghost use Rattle.sv_names.specs.Targets as targets;
ghost use Rattle.sv_names.specs.Views.{around_in};
ghost use Rattle.sv_elab_select.specs.Written as parts;

use crate::targets::{Spot, widths};
use std::alloc::Global;
use sv_elab_copies::{copy_base, copy_optional, copy_part};
use sv_elab_value::{code_of, expr_of, paired, pure, value_typed};
use sv_flat::{Base, Expr, ExprForm, Lvalue};
use sv_names::{Around, Hoisted, Refusal, Target, Ty, Typed, plain_vector};
use sv_value::{ObjId, Place, Seq};

// ---- what is written

/// What a part of a target writes to.
fn lvalue_value(alloc: Global, around: &Around, t: &Typed) -> Result<Lvalue, Refusal>
    ensures ok { IfOk result (λ l. l ≡ parts.lvalue_value (around_in around.now) t.now) }
    ensures err { IfErr result (λ e. e ≡ Memory) }
{
    match t.target.get() {
        Some(target) => lvalue_at(alloc, around, t.at, target),
        None => Ok(Lvalue {
            at: t.at,
            through: None,
            base: Base::Object(ObjId(0)),
            part: None,
            ty: around.numbers.data_of(&Ty::Text),
        }),
    }
}

/// What a target at a place writes to.
fn lvalue_at(alloc: Global, around: &Around, at: Place, target: &Target) -> Result<Lvalue, Refusal>
    ensures ok { IfOk result (λ l. l ≡ parts.lvalue_at (around_in around.now) at target.now) }
    ensures err { IfErr result (λ e. e ≡ Memory) }
{
    let through = copy_optional(alloc, &target.through)?;
    let base = copy_base(alloc, &target.base)?;
    let part = copy_part(alloc, &target.part)?;
    let ty = around.numbers.data_of(&target.whole);
    Ok(Lvalue {
        at,
        through,
        base,
        part,
        ty,
    })
}

/// A part of a target in the flat design, with its calls.
pub fn lvalue(alloc: Global, around: &Around, t: Typed) -> Result<Hoisted<Lvalue>, Refusal>
    ensures ok { IfOk result (λ l. l ≡ targets.lvalue (around_in around.now) t) }
    ensures err { IfErr result (λ e. e ≡ Memory) }
{
    let value = lvalue_value(alloc, around, &t)?;
    let code = code_of(t);
    Ok(Hoisted {
        hidden: code.hidden,
        calls: code.calls,
        value,
    })
}

/// A list with one part before it.
fn put_before(first: Lvalue, rest: Seq<Lvalue>) -> Result<Seq<Lvalue>, Refusal>
    ensures ok { IfOk result (λ ls. ls ≡ first ∷ rest) }
    ensures err { IfErr result (λ e. e ≡ Memory) }
{
    let mut items = rest.into_vec();
    if items.is_empty() {
        items.reserve_exact(1)?;
    }
    items.insert(0, first)?;
    Ok(Seq::from_vec(items))
}

/// A part, and those that stand behind it.
fn put_first(
    first: Hoisted<Lvalue>,
    rest: Hoisted<Seq<Lvalue>>,
) -> Result<Hoisted<Seq<Lvalue>>, Refusal>
    ensures ok { IfOk result (λ ls. ls ≡ parts.put_first first rest) }
    ensures err { IfErr result (λ e. e ≡ Memory) }
{
    let both = paired(first, rest)?;
    let (first, rest) = both.value;
    let value = put_before(first, rest)?;
    Ok(Hoisted {
        hidden: both.hidden,
        calls: both.calls,
        value,
    })
}

/// Parts, and those that stand behind them.
#[tactic(auto, using(crate::proofs::Targeted::written_last))]
fn written_before(
    alloc: Global,
    around: &Around,
    mut spots: Vec<Spot>,
    behind: Hoisted<Seq<Lvalue>>,
) -> Result<Hoisted<Seq<Lvalue>>, Refusal>
    ensures ok { IfOk result (λ ls. ls ≡ parts.written_before (around_in around.now) spots.items behind) }
    ensures err { IfErr result (λ e. e ≡ Memory) }
{
    let mut whole = behind;
    while let Some((_, part)) = spots.pop() {
        let first = lvalue(alloc, around, part)?;
        whole = put_first(first, whole)?;
    }
    Ok(whole)
}

/// All parts of a target in the flat design, with their calls.
#[tactic(auto, using(crate::proofs::Targeted::all_written))]
pub fn lvalues(
    alloc: Global,
    around: &Around,
    spots: Seq<Spot>,
) -> Result<Hoisted<Seq<Lvalue>>, Refusal>
    ensures ok { IfOk result (λ ls. ls ≡ targets.lvalues (around_in around.now) spots) }
    ensures err { IfErr result (λ e. e ≡ Memory) }
{
    let none = pure(alloc, Seq::new(alloc));
    written_before(alloc, around, spots.into_vec(), none)
}

/// The same without their calls, where these stand with the parts as they are read.
pub fn read_lvalues(alloc: Global, around: &Around, spots: &[Spot]) -> Result<Seq<Lvalue>, Refusal>
    ensures ok { IfOk result (λ ls. ls ≡ (targets.lvalues (around_in around.now) spots.now).value) }
    ensures err { IfErr result (λ e. e ≡ Memory) }
{
    match spots {
        [] => Ok(Seq::new(alloc)),
        [spot, rest @ ..] => {
            let rest = read_lvalues(alloc, around, rest)?;
            let first = lvalue_value(alloc, around, &spot.1)?;
            put_before(first, rest)
        }
    }
}

// ---- what is read

/// The type that a value is given to: that of a single part, or a vector of all.
pub fn type_of_target(alloc: Global, spots: &[Spot]) -> Result<Ty, Refusal>
    ensures ok { IfOk result (λ t. t ≡ targets.type_of_target spots.now) }
    ensures err { IfErr result (λ e. e ≡ Memory) }
{
    match spots {
        [spot] => {
            let ty = spot.1.ty.copy(alloc)?;
            Ok(ty)
        }
        _ => whole_type(spots),
    }
}

/// The type of a concatenation of targets. Its width was judged before.
fn whole_type(spots: &[Spot]) -> Result<Ty, Refusal>
    ensures ok { IfOk result (λ t. t ≡ parts.whole_type spots.now) }
    ensures err { IfErr result (λ e. e ≡ Memory) }
{
    let width = widths(spots)?;
    match u32::try_from(width) {
        Ok(width) => Ok(plain_vector(width, false, true)),
        Err(_) => Err(Refusal::Memory),
    }
}

/// The code of two parts.
fn code_of_two(alloc: Global, a: Hoisted<Expr>, b: Hoisted<Expr>) -> Result<Hoisted<Expr>, Refusal>
    ensures ok { IfOk result (λ c. c ≡ hoisted.paired flat.Join a b) }
    ensures err { IfErr result (λ e. e ≡ Memory) }
{
    let both = paired(a, b)?;
    let (high, low) = both.value;
    let value = expr_of(alloc, ExprForm::Join { high, low })?;
    Ok(Hoisted {
        hidden: both.hidden,
        calls: both.calls,
        value,
    })
}

/// Parts as they are read, and what stands to the right of them.
#[tactic(auto, using(crate::proofs::Targeted::reads_last))]
fn reads_before(
    alloc: Global,
    mut spots: Vec<Spot>,
    right: Hoisted<Expr>,
) -> Result<Hoisted<Expr>, Refusal>
    ensures ok { IfOk result (λ c. c ≡ parts.reads_before spots.items right) }
    ensures err { IfErr result (λ e. e ≡ Memory) }
{
    let mut whole = right;
    while let Some((_, part)) = spots.pop() {
        whole = code_of_two(alloc, code_of(part), whole)?;
    }
    Ok(whole)
}

/// Parts before a last one, which may be alone, as they are read.
fn read_row(
    alloc: Global,
    at: Place,
    ty: Ty,
    spots: Vec<Spot>,
    last: Typed,
) -> Result<Typed, Refusal>
    ensures ok { IfOk result (λ t. t ≡ parts.read_row at ty spots.items last) }
    ensures err { IfErr result (λ e. e ≡ Memory) }
{
    if spots.is_empty() {
        return Ok(last);
    }
    let code = reads_before(alloc, spots, code_of(last))?;
    Ok(value_typed(alloc, ty, at, false, code))
}

/// What is read where a target has no parts, which is never asked for.
fn read_nothing(alloc: Global, at: Place) -> Result<Typed, Refusal>
    ensures ok { IfOk result (λ t. t ≡ parts.read_nothing at) }
    ensures err { IfErr result (λ e. e ≡ Memory) }
{
    let handle = expr_of(alloc, ExprForm::Handle { key: None })?;
    let ty = plain_vector(1, false, false);
    Ok(value_typed(alloc, ty, at, false, pure(alloc, handle)))
}

/// The value that stands in a target, with the calls of its parts (11.4.1).
#[tactic(auto, using(crate::proofs::Targeted::read_is))]
pub fn read_of(alloc: Global, at: Place, spots: Seq<Spot>) -> Result<Typed, Refusal>
    ensures ok { IfOk result (λ t. t ≡ targets.read_of at spots) }
    ensures err { IfErr result (λ e. e ≡ Memory) }
{
    let ty = type_of_target(alloc, spots.as_slice())?;
    let mut spots = spots.into_vec();
    match spots.pop() {
        Some((_, last)) => read_row(alloc, at, ty, spots, last),
        None => read_nothing(alloc, at),
    }
}
