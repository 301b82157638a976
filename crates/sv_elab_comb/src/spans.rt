// What operands and targets cover: an object, an element, or a part of one (IEEE 1800-2017, 11.5.3).
ghost use Rattle.std.specs.Prelude.{◌≡◌, IfOk, option_map};
ghost use Rattle.sv_flat.specs.Eval as eval;
ghost use Rattle.sv_names.specs.Watched as watched;
ghost use Rattle.sv_elab_comb.specs.Spans.{span_in};

use sv_eval::known_index;
use sv_flat::{Base, Expr, ExprForm, Lvalue, Part};
use sv_value::{NoMemory, ObjId};

/// Bits of a vector.
#[derive(Clone, Copy)]
pub(crate) struct Range {
    /// The lowest one.
    pub low: i128,
    /// How many.
    pub width: u32,
}

/// An object, an element or a part of one.
#[derive(Clone, Copy)]
pub(crate) struct Span {
    /// The object.
    pub object: ObjId,
    /// The index of the element.
    pub element: Option<i128>,
    /// The bits, where it is a part.
    pub part: Option<Range>,
}

/// A constant index that is known.
fn index_of(e: &Expr) -> Option<i128>
    ensures { result ≡ watched.index_of e.now }
{
    match &*e.form {
        ExprForm::Literal { value, .. } => known_index(*value),
        _ => None,
    }
}

/// The lowest place of a select.
fn low_place(offset: i64, is_falling: bool, index: i128) -> Result<i128, NoMemory>
    ensures { IfOk result (λ low. low ≡ eval.low_place offset is_falling index) }
{
    let offset = i128::from(offset);
    if is_falling {
        offset.checked_sub(index).ok_or(NoMemory::Memory)
    } else {
        offset.checked_add(index).ok_or(NoMemory::Memory)
    }
}

/// A whole object.
fn whole(object: ObjId) -> Span
    ensures { span_in result ≡ record { object = object; element = None; part = None } }
{
    Span {
        object,
        element: None,
        part: None,
    }
}

/// An element of an array, where its index is known.
fn element(object: ObjId, index: &Expr) -> Option<Span>
    ensures { option_map span_in result
        ≡ watched.with_index (watched.index_of index.now) (λ n. record { object = object; element = Some n; part = None }) }
{
    match index_of(index) {
        None => None,
        Some(number) => Some(Span {
            object,
            element: Some(number),
            part: None,
        }),
    }
}

/// A part of a span.
fn in_part(
    width: u32,
    offset: i64,
    is_falling: bool,
    index: &Expr,
    span: Option<Span>,
) -> Result<Option<Span>, NoMemory>
    ensures { IfOk result (λ s. option_map span_in s
        ≡ watched.in_part width offset is_falling (watched.index_of index.now) (option_map span_in span)) }
{
    let (Some(number), Some(span)) = (index_of(index), span) else {
        return Ok(None);
    };
    let low = low_place(offset, is_falling, number)?;
    Ok(Some(Span {
        object: span.object,
        element: span.element,
        part: Some(Range { low, width }),
    }))
}

/// What an operand covers.
pub(crate) fn span_of(e: &Expr) -> Result<Option<Span>, NoMemory>
    ensures { IfOk result (λ s. option_map span_in s ≡ watched.span_of e.now) }
{
    match &*e.form {
        ExprForm::Object { object, .. } => Ok(Some(whole(*object))),
        ExprForm::Element { object, index, .. } => Ok(element(*object, index)),
        ExprForm::Select {
            width,
            offset,
            is_falling,
            base,
            index,
            ..
        } => {
            let span = span_of(base)?;
            in_part(*width, *offset, *is_falling, index, span)
        }
        _ => Ok(None),
    }
}

/// What a target begins with.
fn span_of_base(base: &Base) -> Option<Span>
    ensures { option_map span_in result ≡ watched.span_of_base base.now }
{
    match base {
        Base::Object(object) => Some(whole(*object)),
        Base::Element { object, index, .. } => element(*object, index),
        _ => None,
    }
}

/// A part of it.
fn span_of_part(part: &Option<Part>, span: Option<Span>) -> Result<Option<Span>, NoMemory>
    ensures { IfOk result (λ s. option_map span_in s ≡ watched.span_of_part part.now (option_map span_in span)) }
{
    match part {
        None => Ok(span),
        Some(part) => in_part(part.width, part.offset, part.is_falling, &part.index, span),
    }
}

/// What a target covers.
pub(crate) fn span_of_target(target: &Lvalue) -> Result<Option<Span>, NoMemory>
    ensures { IfOk result (λ s. option_map span_in s ≡ watched.span_of_target target.now) }
{
    span_of_part(&target.part, span_of_base(&target.base))
}
