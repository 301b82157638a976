// Concatenations and replications (IEEE 1800-2017, 11.4.12): E13, E15, E42.
ghost use Rattle.std.specs.Prelude.{◌≡◌, ◌*◌, ℕ, List, IfOk, IfErr};
ghost use Rattle.sv_flat.specs.Expr as flat;
ghost use Rattle.sv_names.specs.declared.checked.Checked.{Checked as checked};
ghost use Rattle.sv_names.specs.declared.checked.Checked.TheVariants.{Good};
ghost use Rattle.sv_names.specs.declared.typed.Typed.{Typed as typed};
ghost use Rattle.sv_names.specs.declared.refusal.Refusal.TheVariants.{Memory};
ghost use Rattle.sv_names.specs.Checked.{◌▷◌};
ghost use Rattle.sv_names.specs.Hoisted as hoisted;
ghost use Rattle.sv_names.specs.Operators as operators;
ghost use Rattle.sv_names.specs.Types as types;
ghost use Rattle.sv_names.specs.Values as values;
ghost use Rattle.sv_names.specs.Given.{Gives};
ghost use Rattle.sv_elab_operator.specs.Concatenations.{type_of_two, join_two, joined_before, row_joined, whole_of, parts_stand, repeated_type};

use std::alloc::Global;
use sv_elab_value::{code_of, converted, expr_of, not_too_wide, paired, value_typed};
use sv_flat::{Expr, ExprForm};
use sv_names::{Hoisted, Refusal, Ty, Typed, both, plain_vector};
use sv_value::{Integral, Place, Seq};

// ---- how wide they are

/// How many bits the parts have.
fn widths_of(parts: &[(Place, Typed)]) -> Result<u64, Refusal>
    ensures ok { IfOk result (λ w. w ≡ operators.widths_of parts.now) }
    ensures err { IfErr result (λ e. e ≡ Memory) }
{
    match parts {
        [] => Ok(0),
        [part, rest @ ..] => {
            let behind = widths_of(rest)?;
            match u64::from(part.1.ty.width()).checked_add(behind) {
                Some(width) => Ok(width),
                None => Err(Refusal::Memory),
            }
        }
    }
}

// ---- from the right

/// The type of two parts. Their widths were judged before.
fn type_of_two(a: &Ty, b: &Ty) -> Result<Ty, Refusal>
    ensures ok { IfOk result (λ t. t ≡ type_of_two a.now b.now) }
    ensures err { IfErr result (λ e. e ≡ Memory) }
{
    if a.is_text() {
        return Ok(Ty::Text);
    }
    match a.width().checked_add(b.width()) {
        Some(width) => Ok(plain_vector(width, false, a.is_four_state() || b.is_four_state())),
        None => Err(Refusal::Memory),
    }
}

/// The code of two parts.
fn code_of_two(alloc: Global, a: Hoisted<Expr>, b: Hoisted<Expr>) -> Result<Hoisted<Expr>, Refusal>
    ensures ok { IfOk result (λ c. c ≡ hoisted.paired flat.Join a b) }
    ensures err { IfErr result (λ e. e ≡ Memory) }
{
    let both = paired(a, b)?;
    let (high, low) = both.value;
    let value = expr_of(alloc, ExprForm::Join { high, low })?;
    Ok(Hoisted {
        hidden: both.hidden,
        calls: both.calls,
        value,
    })
}

/// A part, and what stands to the right of it.
fn join_two(alloc: Global, a: Typed, b: Typed) -> Result<Typed, Refusal>
    ensures ok { IfOk result (λ t. t ≡ join_two a b) }
    ensures err { IfErr result (λ e. e ≡ Memory) }
{
    let ty = type_of_two(&a.ty, &b.ty)?;
    let at = a.at;
    let is_constant = a.is_constant && b.is_constant;
    let code = code_of_two(alloc, code_of(a), code_of(b))?;
    Ok(value_typed(alloc, ty, at, is_constant, code))
}

/// Parts, and what stands to the right of them.
#[tactic(auto, using(crate::proofs::InRow::last_before))]
fn joined_before(
    alloc: Global,
    mut parts: Vec<(Place, Typed)>,
    right: Typed,
) -> Result<Typed, Refusal>
    ensures ok { IfOk result (λ t. t ≡ joined_before parts.items right) }
    ensures err { IfErr result (λ e. e ≡ Memory) }
{
    let mut whole = right;
    while let Some((_, part)) = parts.pop() {
        whole = join_two(alloc, part, whole)?;
    }
    Ok(whole)
}

/// One part alone, which is unsigned too, and keeps its x and z.
fn unsigned_part(alloc: Global, a: Typed) -> Result<Typed, Refusal>
    ensures ok { IfOk result (λ t. t ≡ operators.unsigned_part a) }
    ensures err { IfErr result (λ e. e ≡ Memory) }
{
    if a.ty.is_text() {
        return Ok(a);
    }
    let (width, four_state) = (a.ty.width(), a.ty.is_four_state());
    let (at, is_constant) = (a.at, a.is_constant);
    let to = Integral {
        width,
        signed: false,
        four_state: true,
    };
    let code = converted(alloc, to, code_of(a))?;
    let ty = plain_vector(width, false, four_state);
    Ok(value_typed(alloc, ty, at, is_constant, code))
}

/// Parts before a last one, which may be alone.
fn join_row(alloc: Global, parts: Vec<(Place, Typed)>, last: Typed) -> Result<Typed, Refusal>
    ensures ok { IfOk result (λ t. t ≡ row_joined parts.items last) }
    ensures err { IfErr result (λ e. e ≡ Memory) }
{
    if parts.is_empty() {
        unsigned_part(alloc, last)
    } else {
        joined_before(alloc, parts, last)
    }
}

/// One part, or several.
#[tactic(auto, using(crate::proofs::InRow::whole_is))]
fn join_all(alloc: Global, parts: Seq<(Place, Typed)>) -> Result<Typed, Refusal>
    ensures ok { IfOk result (λ t. t ≡ whole_of parts) }
    ensures err { IfErr result (λ e. e ≡ Memory) }
{
    let mut parts = parts.into_vec();
    match parts.pop() {
        Some((_, last)) => join_row(alloc, parts, last),
        None => Err(Refusal::Memory),
    }
}

/// E13, E15: whether parts are one concatenation.
fn parts_stand(at: Place, parts: &[(Place, Typed)]) -> Result<(), Refusal>
    ensures { Gives result (parts_stand at parts.now) }
{
    match parts {
        [] => Err(Refusal::Rule { rule: 15, at }),
        _ => width_stands(at, parts),
    }
}

/// E13: the parts have no more than 64 bits.
fn width_stands(at: Place, parts: &[(Place, Typed)]) -> Result<(), Refusal>
    ensures { Gives result (values.not_too_wide at (operators.widths_of parts.now)) }
{
    let width = widths_of(parts)?;
    not_too_wide(at, width)
}

/// E13, E15: a concatenation.
pub fn join(
    alloc: Global,
    at: Place,
    parts: Result<Seq<(Place, Typed)>, Refusal>,
) -> Result<Typed, Refusal>
    ensures { (x : checked (List operators.Placed)) → Gives parts x → Gives result (x ▷ operators.join_of at) }
{
    match parts {
        Ok(parts) => join_of(alloc, at, parts),
        Err(e) => Err(e),
    }
}

/// E13, E15: a concatenation of parts that break no rule.
#[tactic(auto, using(crate::proofs::InRow::judged_first, crate::proofs::InRow::judged_whole))]
fn join_of(alloc: Global, at: Place, parts: Seq<(Place, Typed)>) -> Result<Typed, Refusal>
    ensures { Gives result (operators.join_of at parts) }
{
    match parts_stand(at, parts.as_slice()) {
        Ok(()) => join_all(alloc, parts),
        Err(e) => Err(e),
    }
}

// ---- replications

/// The code of a replication.
fn repeated_code(alloc: Global, count: u32, a: Hoisted<Expr>) -> Result<Hoisted<Expr>, Refusal>
    ensures ok { IfOk result (λ c. c ≡ hoisted.mapped (flat.Repeat count) a) }
    ensures err { IfErr result (λ e. e ≡ Memory) }
{
    let value = expr_of(
        alloc,
        ExprForm::Repeat {
            count,
            part: a.value,
        },
    )?;
    Ok(Hoisted {
        hidden: a.hidden,
        calls: a.calls,
        value,
    })
}

/// The type of a replication. Its width was judged before.
fn repeated_type(count: u32, a: &Ty) -> Result<Ty, Refusal>
    ensures ok { IfOk result (λ t. t ≡ repeated_type count a.now) }
    ensures err { IfErr result (λ e. e ≡ Memory) }
{
    if a.is_text() {
        return Ok(Ty::Text);
    }
    match count.checked_mul(a.width()) {
        Some(width) => Ok(plain_vector(width, false, a.is_four_state())),
        None => Err(Refusal::Memory),
    }
}

/// A replication.
fn repeated(alloc: Global, count: u32, a: Typed) -> Result<Typed, Refusal>
    ensures { Gives result (Good (operators.repeated count a)) }
{
    let ty = repeated_type(count, &a.ty)?;
    let (at, is_constant) = (a.at, a.is_constant);
    let code = repeated_code(alloc, count, code_of(a))?;
    Ok(value_typed(alloc, ty, at, is_constant, code))
}

/// E13: a replication has no more than 64 bits.
#[tactic(auto, using(crate::proofs::Judged::far_too_wide))]
fn repeat_stands(at: Place, count: u64, ty: &Ty) -> Result<(), Refusal>
    ensures { Gives result (values.not_too_wide at (count * types.width_of_type ty.now)) }
{
    match count.checked_mul(u64::from(ty.width())) {
        Some(width) => not_too_wide(at, width),
        None => Err(Refusal::Rule { rule: 13, at }),
    }
}

/// A replication that is not too wide. Memory is wanting for counts above 2^32 - 1, which E13 leaves to strings alone.
fn repeat_counted(alloc: Global, count: u64, a: Typed) -> Result<Typed, Refusal>
    ensures { Gives result (Good (operators.repeated count a)) }
{
    match u32::try_from(count) {
        Ok(count) => repeated(alloc, count, a),
        Err(_) => Err(Refusal::Memory),
    }
}

/// A replication that is judged.
fn repeat_judged(alloc: Global, at: Place, count: u64, a: Typed) -> Result<Typed, Refusal>
    ensures { Gives result (values.not_too_wide at (count * types.width_of_type a.ty) ▷ (λ _. Good (operators.repeated count a))) }
{
    match repeat_stands(at, count, &a.ty) {
        Ok(()) => repeat_counted(alloc, count, a),
        Err(e) => Err(e),
    }
}

/// E11 to E13, E15: a replication of a concatenation.
pub fn repeat(
    alloc: Global,
    at: Place,
    count: Result<u64, Refusal>,
    a: Result<Typed, Refusal>,
) -> Result<Typed, Refusal>
    ensures { (n : checked ℕ) (x : checked typed) → Gives count n → Gives a x
        → Gives result (operators.repeat_of at n x) }
{
    match both(count, a) {
        Ok((count, t)) => repeat_judged(alloc, at, count, t),
        Err(e) => Err(e),
    }
}
