// Literals (IEEE 1800-2017, 5.7).
ghost use Rattle.std.specs.Prelude.{◌≡◌, ◌==◌, true, None, IfOk, IfErr};
ghost use Rattle.sv_flat.specs.Expr as flat;
ghost use Rattle.sv_names.specs.declared.refusal.Refusal.TheVariants.{Memory};
ghost use Rattle.std.specs.List.{list_any};
ghost use Rattle.sv_names.specs.Literals as literals;
ghost use Rattle.sv_names.specs.Operators as operators;
ghost use Rattle.sv_names.specs.Hoisted as hoisted;
ghost use Rattle.sv_names.specs.Values as values;
ghost use Rattle.sv_names.specs.declared.ty.Ty.TheVariants as ty;
ghost use Rattle.sv_names.specs.declared.checked.Checked.TheVariants.{Good};
ghost use Rattle.sv_names.specs.Given.{Gives};

use std::alloc::Global;
use sv_digits::{Number, read_literal};
use sv_elab_value::{expr_of, is_known, pure, value_typed};
use sv_flat::{Expr, ExprForm};
use sv_names::{Refusal, Ty, Typed, plain_vector, selectable};
use sv_value::{Bits, Place, Sym};

/// The number of a token; one that cannot be is x.
fn number_of(text: &[u8]) -> Number
    ensures { result ≡ literals.number_of text.now }
{
    match read_literal(text) {
        Ok(number) => number,
        Err(_) => Number {
            bits: Bits::one_bit(Sym::X),
            sized: false,
            fills: false,
        },
    }
}

/// The bits of a number.
fn bits_in(number: &Number) -> Bits
    ensures { result ≡ number.now.bits }
{
    number.bits
}

/// The highest symbol.
fn top_symbol(value: Bits) -> Sym
    ensures { result ≡ literals.top_symbol value.symbols }
{
    let width = value.width();
    value.bit(width - 1)
}

/// The symbol that a literal repeats above its own where its context is wider.
fn fill_of(number: &Number) -> Option<Sym>
    ensures { result ≡ literals.fill_of_number number.now }
{
    if number.fills {
        Some(top_symbol(number.bits))
    } else {
        None
    }
}

/// `'0` and its kin.
fn fills_alone(text: &[u8]) -> bool
    ensures { result ≡ operators.fills_alone text.now }
{
    match text {
        [quote, _] => *quote == b'\'',
        _ => false,
    }
}

/// Whether a quote stands in a text.
fn has_quote(text: &[u8]) -> bool
    ensures { result ≡ list_any (λ c. c == 39) text.now }
{
    text.iter().any(|c| *c == b'\'')
}

/// Whether a number has a base.
fn has_base(text: &[u8]) -> bool
    ensures { result ≡ operators.has_base text.now }
{
    has_quote(text) && !fills_alone(text)
}

/// The type of a number as it is written.
fn type_of(text: &[u8], number: &Number) -> Ty
    ensures { result ≡ operators.literal_type text.now number.now }
{
    let four_state = has_base(text) || !is_known(number.bits);
    if fills_alone(text) {
        plain_vector(1, false, four_state)
    } else {
        selectable(number.bits.width(), number.bits.signed(), four_state)
    }
}

/// A number as it is written.
pub fn number(alloc: Global, at: Place, text: &[u8]) -> Result<Typed, Refusal>
    ensures { Gives result (Good (operators.literal_typed at text.now)) }
{
    let number = number_of(text);
    let own = type_of(text, &number);
    let bits = bits_in(&number);
    let fill = fill_of(&number);
    let value = literal(alloc, bits, fill)?;
    Ok(value_typed(alloc, own, at, true, pure(alloc, value)))
}

/// The expression of a literal.
fn literal(alloc: Global, value: Bits, fill: Option<Sym>) -> Result<Expr, Refusal>
    ensures ok { IfOk result (λ e. e ≡ flat.Literal value fill) }
    ensures err { IfErr result (λ e. e ≡ Memory) }
{
    expr_of(alloc, ExprForm::Literal { value, fill })
}

/// `null`
pub fn null(alloc: Global, at: Place) -> Result<Typed, Refusal>
    ensures { Gives result (Good (values.value_typed ty.Null at true (hoisted.pure (flat.Handle None)))) }
{
    let value = expr_of(alloc, ExprForm::Handle { key: None })?;
    Ok(value_typed(alloc, Ty::Null, at, true, pure(alloc, value)))
}
