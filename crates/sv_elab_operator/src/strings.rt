// String literals (IEEE 1800-2017, 5.9).
ghost use Rattle.std.specs.Prelude.{◌≡◌, ◌∷◌, ◌++◌, List, ℕ, false, true, IfOk, IfErr};
ghost use Rattle.sv_flat.specs.Expr as flat;
ghost use Rattle.sv_names.specs.declared.checked.Checked.TheVariants.{Good};
ghost use Rattle.sv_names.specs.declared.refusal.Refusal.TheVariants.{Memory};
ghost use Rattle.sv_names.specs.declared.ty.Ty.TheVariants as ty;
ghost use Rattle.sv_names.specs.Hoisted as hoisted;
ghost use Rattle.sv_names.specs.Literals as literals;
ghost use Rattle.sv_names.specs.Values as values;
ghost use Rattle.sv_names.specs.Given.{Gives};

use std::alloc::Global;
use sv_elab_value::{expr_of, pure, value_typed};
use sv_flat::ExprForm;
use sv_names::{Refusal, Ty, Typed};
use sv_value::{Place, Seq};

/// A literal without its quotes.
fn unquoted(text: &[u8]) -> &[u8]
    ensures { result.now ≡ literals.unquoted text.now }
{
    if text.len() < 2 {
        return &[];
    }
    &text[1..text.len() - 1]
}

/// The byte of an escape (Table 5-1).
fn escaped(byte: u8) -> u8
    ensures { result ≡ literals.escaped byte }
{
    if byte == b'n' {
        return b'\n';
    }
    if byte == b't' { b'\t' } else { byte }
}

/// One byte behind others; whether it is the `\` of an escape.
#[tactic(auto, using(crate::proofs::Escapes::one_more))]
fn add_byte(bytes: &mut Seq<u8>, is_escaped: bool, byte: u8) -> Result<bool, Refusal>
    ensures ok { IfOk result (λ b. (cs : List ℕ) → bytes.new ++ literals.unescaped b cs ≡ bytes.old ++ literals.unescaped is_escaped (byte ∷ cs)) }
    ensures err { IfErr result (λ e. e ≡ Memory) }
{
    if is_escaped {
        bytes.push(escaped(byte))?;
        return Ok(false);
    }
    if byte == b'\\' {
        return Ok(true);
    }
    bytes.push(byte)?;
    Ok(false)
}

/// The bytes that stand between the quotes.
fn unescaped(alloc: Global, text: &[u8]) -> Result<Seq<u8>, Refusal>
    ensures ok { IfOk result (λ t. t ≡ literals.unescaped false text.now) }
    ensures err { IfErr result (λ e. e ≡ Memory) }
{
    let mut bytes = Seq::new(alloc);
    let mut is_escaped = false;
    for byte in text {
        is_escaped = add_byte(&mut bytes, is_escaped, *byte)?;
    }
    Ok(bytes)
}

/// The bytes of a string literal.
pub fn text_of(alloc: Global, text: &[u8]) -> Result<Seq<u8>, Refusal>
    ensures ok { IfOk result (λ t. t ≡ literals.text_of text.now) }
    ensures err { IfErr result (λ e. e ≡ Memory) }
{
    unescaped(alloc, unquoted(text))
}

/// A string literal as it is written.
pub fn string(alloc: Global, at: Place, text: &[u8]) -> Result<Typed, Refusal>
    ensures { Gives result (Good (values.value_typed ty.Text at true (hoisted.pure (flat.Text (literals.text_of text.now))))) }
{
    let bytes = text_of(alloc, text)?;
    let value = expr_of(alloc, ExprForm::Text { bytes })?;
    Ok(value_typed(alloc, Ty::Text, at, true, pure(alloc, value)))
}
