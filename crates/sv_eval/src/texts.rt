// Texts: their length, how they compare, and the names of items (IEEE 1800-2017, 6.16, 6.19.5.6 and 11.4.12).
ghost use Rattle.std.specs.Prelude.{◌≡◌, ◌++◌, IfOk};
ghost use Rattle.sv_value.specs.Containers.{texts_below as bytes_below};
ghost use Rattle.sv_value.specs.Operators.{all_same};
ghost use Rattle.sv_flat.specs.Eval as eval;
ghost use Rattle.sv_eval.specs.Evaluates.{Evaluates};

use crate::Stopped;
use std::alloc::Global;
use sv_arith::case_matches;
use sv_flat::NamedItem;
use sv_value::{BinOp, Bits, CaseKind, FaultKind, NoMemory, Text, Val};

/// A string may have 65,535 bytes: `Length` beyond.
pub fn text_value(text: Text) -> Result<Val, Stopped>
    ensures { Evaluates result (eval.text text) }
{
    if text.bytes().len() < 1 << 16 {
        Ok(Val::Text(text))
    } else {
        Err(Stopped::Fault(FaultKind::Length))
    }
}

/// One text behind another.
fn joined(alloc: Global, a: &[u8], b: &[u8]) -> Result<Text, NoMemory>
    ensures { IfOk result (λ t. t ≡ a.now ++ b.now) }
{
    let mut text = Text::new(alloc);
    text.push_all(a)?;
    text.push_all(b)?;
    Ok(text)
}

/// A concatenation of strings.
pub fn joined_texts(alloc: Global, a: &[u8], b: &[u8]) -> Result<Val, Stopped>
    ensures { Evaluates result (eval.text (a.now ++ b.now)) }
{
    let text = joined(alloc, a, b)?;
    text_value(text)
}

/// So many copies of a text.
#[tactic(auto, using(crate::proofs::TextLaws::texts_more))]
fn copies(alloc: Global, count: u32, part: &[u8]) -> Result<Text, NoMemory>
    ensures { IfOk result (λ t. t ≡ eval.texts count part.now) }
{
    let mut text = Text::new(alloc);
    for copy in 0..count {
        text.push_all(part)?;
    }
    Ok(text)
}

/// A replication of a string: `Length` where it is too long, before a copy is made.
#[tactic(auto, using(crate::proofs::TextLaws::no_texts, crate::proofs::TextLaws::too_many_texts))]
pub fn repeated_text(alloc: Global, count: u32, part: &[u8]) -> Result<Val, Stopped>
    ensures { Evaluates result (eval.text (eval.texts count part.now)) }
{
    if part.is_empty() {
        return Ok(Val::Text(Text::new(alloc)));
    }
    let length = (count as u128) * (part.len() as u128);
    if length < 1 << 16 {
        let text = copies(alloc, count, part)?;
        text_value(text)
    } else {
        Err(Stopped::Fault(FaultKind::Length))
    }
}

// ---- comparisons

/// Whether two texts are equal.
#[tactic(auto, using(crate::proofs::TextLaws::same_is))]
pub fn same_bytes(a: &[u8], b: &[u8]) -> bool
    ensures { result ≡ eval.same_bytes a.now b.now }
{
    a == b
}

/// The order of bytes.
#[tactic(auto, using(crate::proofs::TextLaws::below_is))]
fn texts_below(a: &[u8], b: &[u8]) -> bool
    ensures { result ≡ bytes_below a.now b.now }
{
    a.cmp(b).is_lt()
}

/// A comparison of strings (IEEE 1800-2017, 6.16, Table 6-9).
pub fn text_test(op: BinOp, a: &[u8], b: &[u8]) -> bool
    ensures { result ≡ eval.text_test op a.now b.now }
{
    match op {
        BinOp::Equal | BinOp::CaseEqual => same_bytes(a, b),
        BinOp::NotEqual | BinOp::CaseNotEqual => !same_bytes(a, b),
        BinOp::Less => texts_below(a, b),
        BinOp::LessEqual => !texts_below(b, a),
        BinOp::Greater => texts_below(b, a),
        BinOp::GreaterEqual => !texts_below(a, b),
        _ => false,
    }
}

// ---- names

/// Whether two vectors have the same symbols.
#[tactic(auto, using(crate::proofs::TextLaws::other_lengths))]
fn same_symbols(a: Bits, b: Bits) -> bool
    ensures { result ≡ all_same a.symbols b.symbols }
{
    if a.width() == b.width() {
        case_matches(CaseKind::Exact, a, b)
    } else {
        false
    }
}

/// The name of the item with a value, or an empty text (IEEE 1800-2017, 6.19.5.6).
#[tactic(auto, using(crate::proofs::TextLaws::name_found, crate::proofs::TextLaws::name_passed))]
pub fn name_of<'a>(items: &'a [NamedItem], value: Bits) -> &'a [u8]
    ensures { result.now ≡ eval.name_of items.now value }
{
    for item in items {
        if same_symbols(item.value, value) {
            return item.name.as_slice();
        }
    }
    &[]
}
