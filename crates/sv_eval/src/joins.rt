// What concatenations, replications and selects give (IEEE 1800-2017, 11.4.12 and 11.5.1).
ghost use Rattle.std.specs.Prelude.{◌≡◌, IfOk};
ghost use Rattle.sv_value.specs.declared.val.Val.TheVariants as val;
ghost use Rattle.sv_value.specs.Operators as operators;
ghost use Rattle.sv_value.specs.Vector.{unsigned};
ghost use Rattle.sv_flat.specs.Eval as eval;
ghost use Rattle.sv_flat.specs.Eval.{Valued, with_result};
ghost use Rattle.sv_eval.specs.Evaluates.{Evaluates, selected_in};

use crate::Stopped;
use crate::forms::{index_in, vector_in, vector_value};
use crate::texts::{joined_texts, repeated_text};
use crate::vectors::selected;
use std::alloc::Global;
use sv_arith::join_bits;
use sv_flat::Context;
use sv_value::{Bits, NoMemory, Sym, Val, WIDEST};

// ---- concatenations

/// Two vectors behind each other. Memory is wanting where they are too wide together.
fn joined_bits(a: Bits, b: Bits) -> Result<Bits, NoMemory>
    ensures { IfOk result (λ x. x ≡ operators.joined a b) }
{
    if a.width() + b.width() <= WIDEST {
        Ok(join_bits(a, b))
    } else {
        Err(NoMemory::Memory)
    }
}

/// A concatenation of two values as vectors.
fn joined_vectors(context: Context, a: &Val, b: &Val) -> Result<Val, Stopped>
    ensures { Evaluates result
        (eval.bits context.width context.signed (operators.joined (eval.vector_in a.now) (eval.vector_in b.now))) }
{
    let value = joined_bits(vector_in(a), vector_in(b))?;
    vector_value(context, value)
}

/// A concatenation of a text with a value.
fn joined_with_text(
    alloc: Global,
    context: Context,
    a: &Val,
    text: &[u8],
    b: &Val,
) -> Result<Val, Stopped>
    requires { a.now ≡ val.Text text.now }
    ensures { Evaluates result (eval.joined_values context.width context.signed a.now b.now) }
{
    match b {
        Val::Text(other) => joined_texts(alloc, text, other.bytes()),
        Val::Bits(_) => joined_vectors(context, a, b),
        Val::Object(_) => joined_vectors(context, a, b),
        Val::Event(_) => joined_vectors(context, a, b),
    }
}

/// A concatenation of two values.
fn joined_values(alloc: Global, context: Context, a: &Val, b: &Val) -> Result<Val, Stopped>
    ensures { Evaluates result (eval.joined_values context.width context.signed a.now b.now) }
{
    match a {
        Val::Text(text) => joined_with_text(alloc, context, a, text.bytes(), b),
        Val::Bits(_) => joined_vectors(context, a, b),
        Val::Object(_) => joined_vectors(context, a, b),
        Val::Event(_) => joined_vectors(context, a, b),
    }
}

/// A concatenation (IEEE 1800-2017, 11.4.12).
pub fn joined(
    alloc: Global,
    context: Context,
    high: &Val,
    low: Result<Val, Stopped>,
) -> Result<Val, Stopped>
    ensures { (t : Valued) → Evaluates low t
        → Evaluates result (with_result t (λ y. eval.joined_values context.width context.signed high.now y)) }
{
    match low {
        Ok(y) => joined_values(alloc, context, high, &y),
        Err(e) => Err(e),
    }
}

/// So many copies of a vector, one at least. Memory is wanting where they are too wide together.
#[tactic(auto, using(crate::proofs::TextLaws::one_copy, crate::proofs::TextLaws::one_more_copy))]
fn repeated_bits(count: u32, part: Bits) -> Result<Bits, NoMemory>
    ensures { IfOk result (λ x. x.symbols ≡ eval.repeated count part.symbols) }
{
    if count == 0 {
        return Err(NoMemory::Memory);
    }
    let mut whole = part;
    for copy in 1..count {
        whole = joined_bits(part, whole)?;
    }
    Ok(whole)
}

/// A replication of a value as a vector.
fn repeated_vector(context: Context, count: u32, part: Bits) -> Result<Val, Stopped>
    ensures { Evaluates result (eval.bits context.width context.signed (unsigned (eval.repeated count part.symbols))) }
{
    let value = repeated_bits(count, part)?;
    vector_value(context, value)
}

/// A replication (IEEE 1800-2017, 11.4.12.1).
pub fn repeated(
    alloc: Global,
    context: Context,
    count: u32,
    part: Result<Val, Stopped>,
) -> Result<Val, Stopped>
    ensures { (r : Valued) → Evaluates part r
        → Evaluates result (with_result r (eval.repeated_value context.width context.signed count)) }
{
    match part {
        Ok(x) => match &x {
            Val::Text(text) => repeated_text(alloc, count, text.bytes()),
            Val::Bits(bits) => repeated_vector(context, count, *bits),
            Val::Object(_) => repeated_vector(context, count, vector_in(&x)),
            Val::Event(_) => repeated_vector(context, count, vector_in(&x)),
        },
        Err(e) => Err(e),
    }
}

// ---- selects

/// A select of a vector (IEEE 1800-2017, 11.5.1).
pub fn select(
    context: Context,
    width: u32,
    offset: i64,
    is_falling: bool,
    outside: Sym,
    base: &Val,
    index: Result<Val, Stopped>,
) -> Result<Val, Stopped>
    ensures { (t : Valued) → Evaluates index t
        → Evaluates result (with_result t (λ y. selected_in context width offset is_falling outside base.now y)) }
{
    match index {
        Ok(y) => {
            let value = selected(
                width,
                offset,
                is_falling,
                outside,
                vector_in(base),
                index_in(&y),
            )?;
            vector_value(context, value)
        }
        Err(e) => Err(e),
    }
}
