// Fields of formats with the values that they take (IEEE 1800-2017, 21.2.1): E31, E42, E50.
ghost use Rattle.std.specs.Prelude.{◌≡◌, List, [], ◌∷◌, ◌++◌, IfOk, IfErr};
ghost use Rattle.std.specs.Vec.Iter.{into_iter_items};
ghost use Rattle.sv_value.specs.declared.operator.Piece.{Piece as piece_of};
ghost use Rattle.sv_value.specs.declared.operator.Piece.TheVariants as pieces_of;
ghost use Rattle.sv_names.specs.declared.checked.Checked.{Checked as checked};
ghost use Rattle.sv_names.specs.declared.checked.Checked.TheVariants.{Good, Broken};
ghost use Rattle.sv_names.specs.declared.refusal.Refusal.TheVariants.{Memory};
ghost use Rattle.sv_names.specs.Formats as formats;
ghost use Rattle.sv_names.specs.Given.{Gives};
ghost use Rattle.sv_elab_print.specs.Printing as printing;

use std::alloc::Global;
use std::vec;
use sv_elab_value::alone;
use sv_flat::Expr;
use sv_names::{Arg, Checked, Fault, Hoisted, Refusal, Ty, Typed, judged};
use sv_value::{FormatField, Pad, Piece, Place, Seq};

/// The parts of what is printed, and the values of its fields.
pub type Printed = (Seq<Piece>, Seq<Hoisted<Expr>>);

// ---- one value

/// Whether a field takes values of a type.
fn takes(field: FormatField, ty: &Ty) -> bool
    ensures { result ≡ printing.takes field ty.now }
{
    match field {
        FormatField::Text => ty.is_text(),
        _ => ty.is_integral(),
    }
}

/// A value alone.
fn one_value(alloc: Global, t: Typed) -> Result<Seq<Hoisted<Expr>>, Refusal>
    ensures ok { IfOk result (λ es. es ≡ printing.one_value t) }
    ensures err { IfErr result (λ e. e ≡ Memory) }
{
    let value = alone(alloc, t)?;
    let mut values = Seq::new(alloc);
    values.push(value)?;
    Ok(values)
}

/// A field with its value.
pub fn one_field(alloc: Global, field: FormatField, pad: Pad, t: Typed) -> Result<Printed, Refusal>
    ensures { Gives result (Good (printing.one_field field pad t)) }
{
    let mut pieces = Seq::new(alloc);
    pieces.push(Piece::Field(field, pad))?;
    let values = one_value(alloc, t)?;
    Ok((pieces, values))
}

/// A value that prints nothing.
pub fn no_field(alloc: Global, t: Typed) -> Result<Printed, Refusal>
    ensures { Gives result (Good (printing.no_field t)) }
{
    let values = one_value(alloc, t)?;
    Ok((Seq::new(alloc), values))
}

/// E42, E50: a value for a field.
fn fitting(
    alloc: Global,
    field: FormatField,
    pad: Pad,
    at: Place,
    t: Typed,
) -> Result<Printed, Refusal>
    ensures { Gives result (printing.fitting field pad at t) }
{
    if t.ty.is_array() {
        return Err(Refusal::Rule { rule: 42, at: t.at });
    }
    if takes(field, &t.ty) {
        one_field(alloc, field, pad, t)
    } else {
        Err(Refusal::Rule { rule: 50, at })
    }
}

/// E31, E42, E50: an argument as the value of a field.
fn field_value(alloc: Global, field: FormatField, pad: Pad, a: Arg) -> Result<Printed, Refusal>
    ensures { Gives result (formats.field_value field pad a) }
{
    let at = a.at;
    match a.into_value() {
        Ok(t) => fitting(alloc, field, pad, at, t),
        Err(e) => Err(e),
    }
}

// ---- what is printed, and then more

/// Two parts that break no rule.
fn joined(first: Printed, second: Printed) -> Result<Printed, Refusal>
    ensures ok { IfOk result (λ p. p ≡ (first.0 ++ second.0, first.1 ++ second.1)) }
    ensures err { IfErr result (λ e. e ≡ Memory) }
{
    let (pieces, values) = first;
    let (more_pieces, more_values) = second;
    let mut pieces = pieces.into_vec();
    let mut more_pieces = more_pieces.into_vec();
    pieces.append(&mut more_pieces)?;
    let mut values = values.into_vec();
    let mut more_values = more_values.into_vec();
    values.append(&mut more_values)?;
    Ok((Seq::from_vec(pieces), Seq::from_vec(values)))
}

/// A broken rule, and what stands behind it.
fn broken_then(f: Fault, more: &Checked<Printed>) -> Checked<Printed>
    ensures { result ≡ formats.and_then (Broken f) more.now }
{
    match more {
        Checked::Good(_) => Checked::Broken(f),
        Checked::Broken(g) => Checked::Broken(f.earlier(*g)),
    }
}

/// What breaks no rule, and what stands behind it.
fn good_then(first: Printed, more: Checked<Printed>) -> Result<Checked<Printed>, Refusal>
    ensures ok { IfOk result (λ c. c ≡ formats.and_then (Good first) more) }
    ensures err { IfErr result (λ e. e ≡ Memory) }
{
    match more {
        Checked::Good(second) => {
            let both = joined(first, second)?;
            Ok(Checked::Good(both))
        }
        Checked::Broken(g) => Ok(Checked::Broken(g)),
    }
}

/// What is printed, and then more.
fn and_then(done: Checked<Printed>, more: Checked<Printed>) -> Result<Checked<Printed>, Refusal>
    ensures ok { IfOk result (λ c. c ≡ formats.and_then done more) }
    ensures err { IfErr result (λ e. e ≡ Memory) }
{
    match done {
        Checked::Good(first) => good_then(first, more),
        Checked::Broken(f) => Ok(broken_then(f, &more)),
    }
}

/// What is printed, and then what a function answers.
pub fn and_more(
    done: Checked<Printed>,
    more: Result<Printed, Refusal>,
) -> Result<Checked<Printed>, Refusal>
    ensures ok { (x : checked formats.Printed) → Gives more x → IfOk result (λ c. c ≡ formats.and_then done x) }
    ensures err { IfErr result (λ e. e ≡ Memory) }
{
    let more = judged(more)?;
    and_then(done, more)
}

/// Nothing.
pub fn nothing(alloc: Global) -> Checked<Printed>
    ensures { result ≡ Good ([], []) }
{
    Checked::Good((Seq::new(alloc), Seq::new(alloc)))
}

// ---- formats

/// Plain text.
fn plain(alloc: Global, text: Seq<u8>) -> Result<Printed, Refusal>
    ensures { Gives result (Good (pieces_of.Plain text ∷ [], [])) }
{
    let mut pieces = Seq::new(alloc);
    pieces.push(Piece::Plain(text))?;
    Ok((pieces, Seq::new(alloc)))
}

/// E50: one part of a format, with the argument that it takes, if any is left.
fn part_filled(
    alloc: Global,
    at: Place,
    piece: Piece,
    args: &mut vec::IntoIter<Arg>,
) -> Result<Printed, Refusal>
    ensures gives { Gives result (printing.part_filled at piece (into_iter_items args.old)) }
    ensures rest { into_iter_items args.new ≡ printing.left_behind piece (into_iter_items args.old) }
{
    match piece {
        Piece::Plain(text) => plain(alloc, text),
        Piece::Field(field, pad) => match args.next() {
            Some(a) => field_value(alloc, field, pad, a),
            None => Err(Refusal::Rule { rule: 50, at }),
        },
    }
}

/// The same, behind what is printed.
fn and_part(
    alloc: Global,
    at: Place,
    done: Checked<Printed>,
    piece: Piece,
    args: &mut vec::IntoIter<Arg>,
) -> Result<Checked<Printed>, Refusal>
    ensures ok { IfOk result (λ c. (ss : List piece_of)
        → formats.and_then c (formats.filled at ss (into_iter_items args.new))
        ≡ formats.and_then done (formats.filled at (piece ∷ ss) (into_iter_items args.old))) }
    ensures rest { (ss : List piece_of) → formats.rest_after ss (into_iter_items args.new)
        ≡ formats.rest_after (piece ∷ ss) (into_iter_items args.old) }
    ensures err { IfErr result (λ e. e ≡ Memory) }
{
    let more = part_filled(alloc, at, piece, args);
    let printed = and_more(done, more)?;
    Ok(printed)
}

/// The parts of a format with the arguments that its fields take, behind what is printed.
pub fn filled(
    alloc: Global,
    at: Place,
    done: Checked<Printed>,
    pieces: Seq<Piece>,
    args: &mut vec::IntoIter<Arg>,
) -> Result<Checked<Printed>, Refusal>
    ensures ok { IfOk result (λ c. c ≡ formats.and_then done (formats.filled at pieces (into_iter_items args.old))) }
    ensures rest { IfOk result (λ _. into_iter_items args.new ≡ formats.rest_after pieces (into_iter_items args.old)) }
    ensures err { IfErr result (λ e. e ≡ Memory) }
{
    let mut printed = done;
    for piece in pieces.into_vec() {
        printed = and_part(alloc, at, printed, piece, args)?;
    }
    Ok(printed)
}
