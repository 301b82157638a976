// What `$sformatf` gives (IEEE 1800-2017, 21.3.3): E42, E50.
ghost use Rattle.std.specs.Prelude.{◌≡◌, List, ◌∷◌, IfOk, IfErr};
ghost use Rattle.std.specs.Vec.Iter.{into_iter_items};
ghost use Rattle.sv_value.specs.declared.operator.Piece.{Piece as piece_of};
ghost use Rattle.sv_names.specs.declared.argument.Arg.{Arg as arg};
ghost use Rattle.sv_names.specs.declared.checked.Checked.{Checked as checked};
ghost use Rattle.sv_names.specs.declared.refusal.Refusal.TheVariants.{Memory};
ghost use Rattle.sv_names.specs.Arguments as arguments;
ghost use Rattle.sv_names.specs.Checked.{broken_at, ◌where_also◌, given};
ghost use Rattle.sv_names.specs.Formats as formats;
ghost use Rattle.sv_names.specs.Hoisted as hoisted;
ghost use Rattle.sv_names.specs.Given.{Gives};
ghost use Rattle.sv_elab_print.specs.Printing as printing;

use crate::fields::{Printed, and_more, filled, no_field, nothing};
use crate::prints::format_of_arg;
use std::alloc::Global;
use std::vec;
use sv_elab_value::{expr_of, paired, pure, value_typed, values_stand};
use sv_flat::{Expr, ExprForm};
use sv_names::{Arg, Checked, Hoisted, Refusal, Taken, Ty, Typed, answer, where_also};
use sv_value::{Piece, Place, Seq};

// ---- values in a row

/// A row of values, and one more.
fn row_with(row: Hoisted<Seq<Expr>>, part: Hoisted<Expr>) -> Result<Hoisted<Seq<Expr>>, Refusal>
    ensures ok { IfOk result (λ h. h ≡ printing.row_with row part) }
    ensures err { IfErr result (λ e. e ≡ Memory) }
{
    let both = paired(row, part)?;
    let (values, value) = both.value;
    let mut values = values;
    values.push(value)?;
    Ok(Hoisted {
        hidden: both.hidden,
        calls: both.calls,
        value: values,
    })
}

/// Values in a row, with their calls.
fn in_row(alloc: Global, parts: Seq<Hoisted<Expr>>) -> Result<Hoisted<Seq<Expr>>, Refusal>
    ensures ok { IfOk result (λ h. h ≡ hoisted.in_row parts) }
    ensures err { IfErr result (λ e. e ≡ Memory) }
{
    let mut row = pure(alloc, Seq::new(alloc));
    for part in parts.into_vec() {
        row = row_with(row, part)?;
    }
    Ok(row)
}

// ---- strings

/// The string of a part, where a value is left for it.
fn text_first(
    alloc: Global,
    piece: Piece,
    values: &mut vec::IntoIter<Expr>,
) -> Result<Option<Expr>, Refusal>
    ensures ok { IfOk result (λ e. e ≡ printing.text_first piece (into_iter_items values.old)) }
    ensures rest { IfOk result (λ _. into_iter_items values.new
        ≡ printing.left_behind piece (into_iter_items values.old)) }
    ensures err { IfErr result (λ e. e ≡ Memory) }
{
    match piece {
        Piece::Plain(bytes) => {
            let text = expr_of(alloc, ExprForm::Text { bytes })?;
            Ok(Some(text))
        }
        Piece::Field(field, pad) => match values.next() {
            Some(value) => {
                let text = expr_of(
                    alloc,
                    ExprForm::Printed {
                        field,
                        pad,
                        operand: value,
                    },
                )?;
                Ok(Some(text))
            }
            None => Ok(None),
        },
    }
}

/// The parts of a string, each a string.
fn text_pieces(alloc: Global, pieces: Seq<Piece>, values: Seq<Expr>) -> Result<Seq<Expr>, Refusal>
    ensures ok { IfOk result (λ es. es ≡ formats.text_pieces pieces values) }
    ensures err { IfErr result (λ e. e ≡ Memory) }
{
    let mut texts = Seq::new(alloc);
    let mut left = values.into_vec().into_iter();
    for piece in pieces.into_vec() {
        let Some(text) = text_first(alloc, piece, &mut left)? else {
            return Ok(texts);
        };
        texts.push(text)?;
    }
    Ok(texts)
}

/// Strings before what stands to the right of them.
fn texts_before(alloc: Global, texts: Vec<Expr>, right: Expr) -> Result<Expr, Refusal>
    ensures ok { IfOk result (λ e. e ≡ printing.texts_before texts.items right) }
    ensures err { IfErr result (λ e. e ≡ Memory) }
{
    let mut left = texts;
    let mut whole = right;
    while let Some(high) = left.pop() {
        whole = expr_of(alloc, ExprForm::Join { high, low: whole })?;
    }
    Ok(whole)
}

/// Strings one after another.
fn joined_texts(alloc: Global, texts: Seq<Expr>) -> Result<Expr, Refusal>
    ensures ok { IfOk result (λ e. e ≡ formats.joined_texts texts) }
    ensures err { IfErr result (λ e. e ≡ Memory) }
{
    let mut texts = texts.into_vec();
    match texts.pop() {
        Some(last) => texts_before(alloc, texts, last),
        None => {
            let bytes = Seq::new(alloc);
            expr_of(alloc, ExprForm::Text { bytes })
        }
    }
}

/// The string that is printed.
fn text_printed(alloc: Global, printed: Printed) -> Result<Hoisted<Expr>, Refusal>
    ensures ok { IfOk result (λ h. h ≡ formats.text_printed printed) }
    ensures err { IfErr result (λ e. e ≡ Memory) }
{
    let (pieces, values) = printed;
    let row = in_row(alloc, values)?;
    let texts = text_pieces(alloc, pieces, row.value)?;
    let value = joined_texts(alloc, texts)?;
    Ok(Hoisted {
        hidden: row.hidden,
        calls: row.calls,
        value,
    })
}

// ---- arguments that no field takes

/// E42: a value that prints nothing.
fn unprinted(alloc: Global, t: Typed) -> Result<Printed, Refusal>
    ensures { Gives result (printing.unprinted t) }
{
    if t.ty.is_array() {
        Err(Refusal::Rule { rule: 42, at: t.at })
    } else {
        no_field(alloc, t)
    }
}

/// E31, E42: an argument that prints nothing.
fn arg_unprinted(alloc: Global, a: Arg) -> Result<Printed, Refusal>
    ensures { Gives result (printing.arg_unprinted a) }
{
    match a.into_value() {
        Ok(t) => unprinted(alloc, t),
        Err(e) => Err(e),
    }
}

/// The same, behind what is printed.
fn and_unprinted(alloc: Global, done: Checked<Printed>, a: Arg) -> Result<Checked<Printed>, Refusal>
    ensures ok { IfOk result (λ c. (as' : List arg) → formats.and_then c (formats.left_over as')
        ≡ formats.and_then done (formats.left_over (a ∷ as'))) }
    ensures err { IfErr result (λ e. e ≡ Memory) }
{
    let more = arg_unprinted(alloc, a);
    let printed = and_more(done, more)?;
    Ok(printed)
}

/// Arguments that print nothing, behind what is printed.
fn left_over(
    alloc: Global,
    done: Checked<Printed>,
    args: vec::IntoIter<Arg>,
) -> Result<Checked<Printed>, Refusal>
    ensures ok { IfOk result (λ c. c ≡ formats.and_then done (formats.left_over (into_iter_items args))) }
    ensures err { IfErr result (λ e. e ≡ Memory) }
{
    let mut printed = done;
    let mut left = args;
    while let Some(a) = left.next() {
        printed = and_unprinted(alloc, printed, a)?;
    }
    Ok(printed)
}

// ---- `$sformatf`

/// Whether an argument is constant.
fn is_constant(a: &Arg) -> bool
    ensures { result ≡ printing.is_constant (arguments.value_of_arg a.now) }
{
    match &a.taken {
        Taken::Value(Checked::Good(t)) => t.is_constant,
        _ => false,
    }
}

/// Whether all arguments are constant.
fn all_constant(args: &[Arg]) -> bool
    ensures { result ≡ arguments.all_constant args.now }
{
    for a in args {
        if !is_constant(a) {
            return false;
        }
    }
    true
}

/// Whether all arguments behind the first one are constant.
fn rest_constant(args: &[Arg]) -> bool
    ensures { result ≡ printing.rest_constant args.now }
{
    match args.split_first() {
        None => true,
        Some((_, rest)) => all_constant(rest),
    }
}

/// E50: no format, and what arguments break by themselves.
fn no_format(at: Place, args: &[Arg]) -> Result<Seq<Piece>, Refusal>
    ensures { Gives result (broken_at {A = List piece_of} 50 at where_also arguments.values_stand args.now) }
{
    where_also(Err(Refusal::Rule { rule: 50, at }), values_stand(args))
}

/// E50: the one format of `$sformatf`, where its first argument is one.
fn known_format(at: Place, parts: Option<Seq<Piece>>, args: &[Arg]) -> Result<Seq<Piece>, Refusal>
    ensures { Gives result (printing.known_format at args.now parts) }
{
    match parts {
        None => no_format(at, args),
        Some(pieces) => Ok(pieces),
    }
}

/// E50: the one format of `$sformatf`, which is its first argument.
fn first_format(alloc: Global, at: Place, args: &[Arg]) -> Result<Seq<Piece>, Refusal>
    ensures { Gives result (printing.first_format at args.now) }
{
    match args.split_first() {
        None => Err(Refusal::Rule { rule: 50, at }),
        Some((a, rest)) => match format_of_arg(alloc, a)? {
            None => no_format(a.at, args),
            Some(parts) => known_format(a.at, parts, rest),
        },
    }
}

/// What is printed, as a string.
fn string_of(
    alloc: Global,
    at: Place,
    is_constant: bool,
    printed: Result<Printed, Refusal>,
) -> Result<Typed, Refusal>
    ensures { (x : checked formats.Printed) → Gives printed x
        → Gives result (given (printing.string_of at is_constant) x) }
{
    match printed {
        Ok(printed) => {
            let code = text_printed(alloc, printed)?;
            Ok(value_typed(alloc, Ty::Text, at, is_constant, code))
        }
        Err(e) => Err(e),
    }
}

/// A format with all arguments behind it.
fn all_filled(
    alloc: Global,
    at: Place,
    pieces: Seq<Piece>,
    args: vec::IntoIter<Arg>,
) -> Result<Printed, Refusal>
    ensures { Gives result (printing.all_filled at pieces (into_iter_items args)) }
{
    let mut args = args;
    let printed = filled(alloc, at, nothing(alloc), pieces, &mut args)?;
    let printed = left_over(alloc, printed, args)?;
    answer(printed)
}

/// What `$sformatf` gives, by its format.
fn formatted(alloc: Global, at: Place, pieces: Seq<Piece>, args: Seq<Arg>) -> Result<Typed, Refusal>
    ensures { Gives result (printing.made_of at args pieces) }
{
    let is_constant = rest_constant(args.as_slice());
    let mut args = args.into_vec().into_iter();
    match args.next() {
        Some(a) => string_of(
            alloc,
            at,
            is_constant,
            all_filled(alloc, a.at, pieces, args),
        ),
        None => Err(Refusal::Rule { rule: 50, at }),
    }
}

/// `$sformatf`. E50: its first argument is no string literal, or no format for those behind it; E42: a whole array.
pub fn sformatf(alloc: Global, at: Place, args: Seq<Arg>) -> Result<Typed, Refusal>
    ensures { Gives result (formats.sformatf at args) }
{
    match first_format(alloc, at, args.as_slice()) {
        Ok(pieces) => formatted(alloc, at, pieces, args),
        Err(e) => Err(e),
    }
}
