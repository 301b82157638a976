// Whether an operand lies in what is written (IEEE 1800-2017, 9.2.2.2.1 and 11.5.3).
ghost use Rattle.std.specs.Prelude.{◌≡◌, ◌+ℤ◌, pos, map, IfOk};
ghost use Rattle.sv_flat.specs.Eval.{plain_width, type_width};
ghost use Rattle.sv_names.specs.Watched as watched;
ghost use Rattle.sv_elab_comb.specs.Spans.{range_in, span_in, lies_within, lies_among, is_covered};

use crate::spans::{Range, Span, span_of};
use sv_flat::{DataType, Expr, ExprForm};
use sv_value::{NoMemory, Plain};

/// Whether an element lies in an element or in the whole.
fn same_element(written: Option<i128>, element: Option<i128>) -> bool
    ensures { result ≡ watched.same_element written element }
{
    match written {
        None => true,
        Some(written) => match element {
            None => false,
            Some(element) => written <= element && element <= written,
        },
    }
}

/// The place behind the highest bit of a range.
fn end_of(range: Range) -> Result<i128, NoMemory>
    ensures { IfOk result (λ n. n ≡ range.low +ℤ pos range.width) }
{
    range
        .low
        .checked_add(i128::from(range.width))
        .ok_or(NoMemory::Memory)
}

/// Whether a part of something so wide lies in a part or in the whole.
fn lies_in(width: u32, part: Option<Range>, written: Option<Range>) -> Result<bool, NoMemory>
    ensures { IfOk result (λ b. b ≡ watched.lies_in width (range_in part) (range_in written)) }
{
    match written {
        None => Ok(true),
        Some(written) => match part {
            None => {
                let end = end_of(written)?;
                Ok(written.low <= 0 && i128::from(width) <= end)
            }
            Some(part) => {
                let end = end_of(written)?;
                let last = end_of(part)?;
                Ok(written.low <= part.low && last <= end)
            }
        },
    }
}

/// Whether a span, of an operand of such a width, lies in another one.
fn lies_within(width: u32, span: Span, written: Span) -> Result<bool, NoMemory>
    ensures { IfOk result (λ b. b ≡ lies_within width (span_in span) (span_in written)) }
{
    if span.object.0 == written.object.0 && same_element(written.element, span.element) {
        return lies_in(width, span.part, written.part);
    }
    Ok(false)
}

/// Whether a span, of an operand of such a width, lies in one of a list.
fn lies_among(width: u32, span: Span, written: &[Span]) -> Result<bool, NoMemory>
    ensures { IfOk result (λ b. b ≡ lies_among width (span_in span) (map span_in written.now)) }
{
    for one in written {
        if lies_within(width, span, *one)? {
            return Ok(true);
        }
    }
    Ok(false)
}

/// The width of a type, 0 where it has none.
fn plain_width(ty: Plain) -> u32
    ensures { result ≡ plain_width ty }
{
    match ty {
        Plain::Integral(integral) => integral.width,
        _ => 0,
    }
}

/// The width of a type of a variable, 0 where it has none.
fn type_width(ty: DataType) -> u32
    ensures { result ≡ type_width ty }
{
    match ty {
        DataType::Plain(plain) => plain_width(plain),
        _ => 0,
    }
}

/// The width of the whole that an operand names.
fn width_of_operand(e: &Expr) -> u32
    ensures { result ≡ watched.width_of_operand e.now }
{
    match &*e.form {
        ExprForm::Object { ty, .. } => type_width(*ty),
        ExprForm::Element { ty, .. } => plain_width(*ty),
        _ => 0,
    }
}

/// Whether an operand lies in one of a list of spans.
pub(crate) fn is_covered(e: &Expr, written: &[Span]) -> Result<bool, NoMemory>
    ensures { IfOk result (λ b. b ≡ is_covered (map span_in written.now) e.now) }
{
    match span_of(e)? {
        None => Ok(false),
        Some(span) => lies_among(width_of_operand(e), span, written),
    }
}
