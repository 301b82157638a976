// Which values of an event expression make its edge (IEEE 1800-2017, 9.4.2, Table 9-2).
ghost use Rattle.std.specs.Prelude.{◌≡◌, IfOk, IsTrue, false};
ghost use Rattle.sv_value.specs.declared.val.Val.TheVariants as val;
ghost use Rattle.sv_flat.specs.Eval as eval;
ghost use Rattle.sv_flat.specs.Eval.{Valued};
ghost use Rattle.sv_flat.specs.Woken as woken;
ghost use Rattle.sv_eval.specs.Evaluates.{Evaluates};

use sv_eval::{Stopped, vector_in};
use sv_flat::Edge;
use sv_value::{Bits, Key, NoMemory, Sym, Val};

/// 0 to 1, x or z; x or z to 1.
fn rises(before: Sym, after: Sym) -> bool
    ensures { result ≡ woken.rises before after }
{
    match before {
        Sym::Zero => after != Sym::Zero,
        Sym::One => false,
        _ => after == Sym::One,
    }
}

/// 1 to 0, x or z; x or z to 0.
fn falls(before: Sym, after: Sym) -> bool
    ensures { result ≡ woken.falls before after }
{
    match before {
        Sym::One => after != Sym::One,
        Sym::Zero => false,
        _ => after == Sym::Zero,
    }
}

/// The least bit of a vector.
#[tactic(auto, using(crate::proofs::EdgeLaws::least_is))]
fn least_bit(bits: &Bits) -> Sym
    ensures { result ≡ woken.least_symbol (val.Bits bits.now) }
{
    let _width = bits.width();
    bits.bit(0)
}

/// The least bit of a value.
fn least_symbol(value: &Val) -> Sym
    ensures { result ≡ woken.least_symbol value.now }
{
    match value {
        Val::Bits(bits) => least_bit(bits),
        Val::Text(_) => Sym::X,
        Val::Object(_) => Sym::X,
        Val::Event(_) => Sym::X,
    }
}

/// The reference that a value is.
fn reference_in(value: &Val) -> Option<Key>
    ensures { result ≡ eval.reference_in value.now }
{
    match value {
        Val::Object(key) => *key,
        Val::Event(key) => Some(*key),
        Val::Bits(_) => None,
        Val::Text(_) => None,
    }
}

/// Whether two references are the same, or both null.
fn same_reference(a: Option<Key>, b: Option<Key>) -> bool
    ensures { result ≡ eval.same_reference a b }
{
    match a {
        None => match b {
            None => true,
            Some(_) => false,
        },
        Some(x) => match b {
            None => false,
            Some(y) => x.0 == y.0,
        },
    }
}

/// Whether two values that are not both vectors, nor both texts, are equal.
fn same_references(before: &Val, after: &Val) -> bool
    ensures { result ≡ eval.same_reference (eval.reference_in before.now) (eval.reference_in after.now) }
{
    same_reference(reference_in(before), reference_in(after))
}

/// Whether two vectors have the same symbols.
#[tactic(auto, using(sv_eval::proofs::TextLaws::other_lengths))]
fn same_bits(before: &Bits, after: &Bits) -> bool
    ensures { result ≡ woken.same_values (val.Bits before.now) (val.Bits after.now) }
{
    if before.width() != after.width() {
        return false;
    }
    before.same(after)
}

/// Whether a value equals a vector.
#[tactic(auto, using(crate::proofs::EdgeLaws::test_is))]
fn same_as_bits(before: &Bits, value: &Val, after: &Val) -> bool
    requires { value.now ≡ val.Bits before.now }
    ensures { result ≡ woken.same_values value.now after.now }
{
    match after {
        Val::Bits(bits) => same_bits(before, bits),
        Val::Text(_) => same_references(value, after),
        Val::Object(_) => same_references(value, after),
        Val::Event(_) => same_references(value, after),
    }
}

/// Whether two texts are equal.
#[tactic(auto, using(sv_eval::proofs::TextLaws::same_is))]
fn same_bytes(before: &[u8], after: &[u8]) -> bool
    ensures { result ≡ eval.same_bytes before.now after.now }
{
    before == after
}

/// Whether two texts are equal, as values.
#[tactic(auto, using(crate::proofs::EdgeLaws::same_texts))]
fn same_texts(before: &[u8], after: &[u8]) -> bool
    ensures { result ≡ woken.same_values (val.Text before.now) (val.Text after.now) }
{
    same_bytes(before, after)
}

/// Whether a value equals a text.
#[tactic(auto, using(crate::proofs::EdgeLaws::test_is))]
fn same_as_text(before: &[u8], value: &Val, after: &Val) -> bool
    requires { value.now ≡ val.Text before.now }
    ensures { result ≡ woken.same_values value.now after.now }
{
    match after {
        Val::Text(text) => same_texts(before, text.bytes()),
        Val::Bits(_) => same_references(value, after),
        Val::Object(_) => same_references(value, after),
        Val::Event(_) => same_references(value, after),
    }
}

/// Whether two values are equal.
#[tactic(auto, using(crate::proofs::EdgeLaws::test_is))]
fn same_values(before: &Val, after: &Val) -> bool
    ensures { result ≡ woken.same_values before.now after.now }
{
    match before {
        Val::Bits(bits) => same_as_bits(bits, before, after),
        Val::Text(text) => same_as_text(text.bytes(), before, after),
        Val::Object(_) => same_references(before, after),
        Val::Event(_) => same_references(before, after),
    }
}

/// Whether two vectors make an edge.
#[inline(always)]
pub(crate) fn vectors_make(edge: Edge, before: &Bits, after: &Bits) -> bool
    ensures { result ≡ woken.makes edge (val.Bits before.now) (val.Bits after.now) }
{
    match edge {
        Edge::Change => !same_bits(before, after),
        Edge::Posedge => rises(least_bit(before), least_bit(after)),
        Edge::Negedge => falls(least_bit(before), least_bit(after)),
        Edge::Trigger => false,
    }
}

/// Whether two values make an edge.
fn makes(edge: Edge, before: &Val, after: &Val) -> bool
    ensures { result ≡ woken.makes edge before.now after.now }
{
    match edge {
        Edge::Change => !same_values(before, after),
        Edge::Posedge => rises(least_symbol(before), least_symbol(after)),
        Edge::Negedge => falls(least_symbol(before), least_symbol(after)),
        Edge::Trigger => false,
    }
}

/// Whether two values make an edge, where there are two: a fault makes none.
pub(crate) fn both_make(
    edge: Edge,
    before: &Result<Val, Stopped>,
    after: &Result<Val, Stopped>,
) -> Result<bool, NoMemory>
    ensures { (t u : Valued) → Evaluates before.now t → Evaluates after.now u → IfOk result (λ b. b ≡ woken.both_make edge t u) }
{
    match before {
        Ok(before) => match after {
            Ok(after) => Ok(makes(edge, before, after)),
            Err(Stopped::Fault(_)) => Ok(false),
            Err(Stopped::Memory) => Err(NoMemory::Memory),
        },
        Err(Stopped::Fault(_)) => Ok(false),
        Err(Stopped::Memory) => Err(NoMemory::Memory),
    }
}

/// Whether no edge is made with this value, or this fault, whatever was before.
#[tactic(auto, using(crate::proofs::EdgeLaws::never_rises, crate::proofs::EdgeLaws::never_falls, crate::proofs::EdgeLaws::never_faults))]
pub(crate) fn makes_none(edge: Edge, after: &Result<Val, Stopped>) -> bool
    ensures { (t u : Valued) → Evaluates after.now u → IsTrue result → woken.both_make edge t u ≡ false }
{
    match after {
        Ok(after) => match edge {
            Edge::Posedge => matches!(least_symbol(after), Sym::Zero),
            Edge::Negedge => matches!(least_symbol(after), Sym::One),
            Edge::Change | Edge::Trigger => false,
        },
        Err(Stopped::Fault(_)) => true,
        Err(Stopped::Memory) => false,
    }
}
