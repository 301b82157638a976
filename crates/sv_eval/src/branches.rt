// What `?:` gives under an unknown condition (IEEE 1800-2017, 11.4.11).
ghost use Rattle.std.specs.Prelude.{◌≡◌, None, Ok, if◌then◌else◌};
ghost use Rattle.sv_value.specs.declared.val.Val.TheVariants as val;
ghost use Rattle.sv_value.specs.Operators as operators;
ghost use Rattle.sv_flat.specs.Eval as eval;
ghost use Rattle.sv_flat.specs.Eval.{Valued, with_result};
ghost use Rattle.sv_eval.specs.Evaluates.{Evaluates};

use crate::Stopped;
use crate::forms::{copied, reference_in};
use crate::operators::same_reference;
use crate::texts::same_bytes;
use std::alloc::Global;
use sv_arith::merge;
use sv_value::{Bits, Text, Val};

/// Two branches that are vectors. Memory is wanting where they differ in width.
fn merged_bits(a: Bits, b: Bits) -> Result<Val, Stopped>
    ensures { Evaluates result (Ok (val.Bits (operators.merged a b))) }
{
    if a.width() == b.width() {
        Ok(Val::Bits(merge(a, b)))
    } else {
        Err(Stopped::Memory)
    }
}

/// Two branches that are texts: the text where they are equal, else an empty one.
fn merged_texts(alloc: Global, a: &[u8], b: &[u8]) -> Result<Val, Stopped>
    ensures { Evaluates result (Ok (eval.merged_values (val.Text a.now) (val.Text b.now))) }
{
    if same_bytes(a, b) {
        copied(alloc, a)
    } else {
        Ok(Val::Text(Text::new(alloc)))
    }
}

/// Two branches that are references: the reference where they are the same, else null.
fn merged_references(a: &Val, b: &Val) -> Val
    ensures { result ≡ val.Object (if eval.same_reference (eval.reference_in a.now) (eval.reference_in b.now)
        then eval.reference_in a.now else None) }
{
    let key = reference_in(a);
    if same_reference(key, reference_in(b)) {
        Val::Object(key)
    } else {
        Val::Object(None)
    }
}

/// Two branches, of which the first is a vector.
fn merged_with_bits(a: &Val, bits: Bits, b: &Val) -> Result<Val, Stopped>
    requires { a.now ≡ val.Bits bits }
    ensures { Evaluates result (Ok (eval.merged_values a.now b.now)) }
{
    match b {
        Val::Bits(other) => merged_bits(bits, *other),
        Val::Text(_) => Ok(merged_references(a, b)),
        Val::Object(_) => Ok(merged_references(a, b)),
        Val::Event(_) => Ok(merged_references(a, b)),
    }
}

/// Two branches, of which the first is a text.
fn merged_with_text(alloc: Global, a: &Val, text: &[u8], b: &Val) -> Result<Val, Stopped>
    requires { a.now ≡ val.Text text.now }
    ensures { Evaluates result (Ok (eval.merged_values a.now b.now)) }
{
    match b {
        Val::Text(other) => merged_texts(alloc, text, other.bytes()),
        Val::Bits(_) => Ok(merged_references(a, b)),
        Val::Object(_) => Ok(merged_references(a, b)),
        Val::Event(_) => Ok(merged_references(a, b)),
    }
}

/// Two branches under an unknown condition.
fn merged_values(alloc: Global, a: &Val, b: &Val) -> Result<Val, Stopped>
    ensures { Evaluates result (Ok (eval.merged_values a.now b.now)) }
{
    match a {
        Val::Bits(bits) => merged_with_bits(a, *bits, b),
        Val::Text(text) => merged_with_text(alloc, a, text.bytes(), b),
        Val::Object(_) => Ok(merged_references(a, b)),
        Val::Event(_) => Ok(merged_references(a, b)),
    }
}

/// Both branches under an unknown condition (IEEE 1800-2017, 11.4.11).
pub fn merged(alloc: Global, yes: &Val, no: Result<Val, Stopped>) -> Result<Val, Stopped>
    ensures { (t : Valued) → Evaluates no t
        → Evaluates result (with_result t (λ y. Ok (eval.merged_values yes.now y))) }
{
    match no {
        Ok(y) => merged_values(alloc, yes, &y),
        Err(e) => Err(e),
    }
}
