// What is printed (IEEE 1800-2017, 21.2.1): E42, E50.
ghost use Rattle.std.specs.Prelude.{◌≡◌, ◌≤◌, ◌∷◌, length, IfOk, IfErr};
ghost use Rattle.std.specs.Vec.Iter.{into_iter_items};
ghost use Rattle.sv_names.specs.declared.refusal.Refusal.TheVariants.{Memory};
ghost use Rattle.sv_names.specs.Formats as formats;
ghost use Rattle.sv_names.specs.Given.{Gives};
ghost use Rattle.sv_elab_print.specs.Printing as printing;

use crate::fields::{Printed, and_more, filled, nothing, one_field};
use crate::formats::format;
use std::alloc::Global;
use std::vec;
use sv_names::{Arg, Checked, Refusal, Typed, answer};
use sv_value::{FormatField, Pad, Piece, Place, Radix, Seq};

/// E42, E50: a value that no field takes.
fn fitting_alone(alloc: Global, at: Place, t: Typed) -> Result<Printed, Refusal>
    ensures { Gives result (printing.fitting_alone at t) }
{
    if t.ty.is_array() {
        return Err(Refusal::Rule { rule: 42, at: t.at });
    }
    if t.ty.is_text() {
        return one_field(alloc, FormatField::Text, Pad::Full, t);
    }
    if t.ty.is_integral() {
        one_field(alloc, FormatField::Number(Radix::Dec), Pad::Full, t)
    } else {
        Err(Refusal::Rule { rule: 50, at })
    }
}

/// E31, E42, E50: an argument that no field takes.
fn by_itself(alloc: Global, a: Arg) -> Result<Printed, Refusal>
    ensures { Gives result (formats.by_itself a) }
{
    let at = a.at;
    match a.into_value() {
        Ok(t) => fitting_alone(alloc, at, t),
        Err(e) => Err(e),
    }
}

/// A string literal as a format, if it is one.
pub fn format_of_arg(alloc: Global, a: &Arg) -> Result<Option<Option<Seq<Piece>>>, Refusal>
    ensures ok { IfOk result (λ f. f ≡ formats.format_of_arg a.now) }
    ensures err { IfErr result (λ e. e ≡ Memory) }
{
    match &a.text {
        None => Ok(None),
        Some(text) => {
            let parts = format(alloc, text.bytes())?;
            Ok(Some(parts))
        }
    }
}

/// E50: a format with the arguments that its fields take, behind what is printed.
fn and_format(
    alloc: Global,
    done: Checked<Printed>,
    at: Place,
    parts: Option<Seq<Piece>>,
    args: &mut vec::IntoIter<Arg>,
) -> Result<Checked<Printed>, Refusal>
    ensures ok { IfOk result (λ c. c
        ≡ formats.and_then done (printing.format_shown at (into_iter_items args.old) parts)) }
    ensures rest { IfOk result (λ _. into_iter_items args.new
        ≡ printing.behind_format (into_iter_items args.old) parts) }
    ensures err { IfErr result (λ e. e ≡ Memory) }
{
    match parts {
        None => {
            let printed = and_more(done, Err(Refusal::Rule { rule: 50, at }))?;
            Ok(printed)
        }
        Some(pieces) => filled(alloc, at, done, pieces, args),
    }
}

/// An argument that no field takes, behind what is printed. A string literal is a format.
fn shown_alone(
    alloc: Global,
    done: Checked<Printed>,
    a: Arg,
    format: Option<Option<Seq<Piece>>>,
    args: &mut vec::IntoIter<Arg>,
) -> Result<Checked<Printed>, Refusal>
    ensures ok { IfOk result (λ c. c
        ≡ formats.and_then done (printing.shown_alone a (into_iter_items args.old) format)) }
    ensures rest { IfOk result (λ _. into_iter_items args.new
        ≡ printing.behind_shown (into_iter_items args.old) format) }
    ensures err { IfErr result (λ e. e ≡ Memory) }
{
    match format {
        None => {
            let printed = and_more(done, by_itself(alloc, a))?;
            Ok(printed)
        }
        Some(parts) => and_format(alloc, done, a.at, parts, args),
    }
}

/// The same, with its own format.
fn and_shown(
    alloc: Global,
    done: Checked<Printed>,
    a: Arg,
    args: &mut vec::IntoIter<Arg>,
) -> Result<Checked<Printed>, Refusal>
    ensures ok { IfOk result (λ c. formats.and_then c (formats.all_printed (into_iter_items args.new))
        ≡ formats.and_then done (formats.all_printed (a ∷ into_iter_items args.old))) }
    ensures fewer { IfOk result (λ _. length (into_iter_items args.new) ≤ length (into_iter_items args.old)) }
    ensures err { IfErr result (λ e. e ≡ Memory) }
{
    let format = format_of_arg(alloc, &a)?;
    let printed = shown_alone(alloc, done, a, format, args)?;
    Ok(printed)
}

/// The parts of what arguments print, and their values. E50: a format has an unknown field, or a field no value of its kind; E42: a whole
/// array.
pub fn all_printed(alloc: Global, args: Seq<Arg>) -> Result<Printed, Refusal>
    ensures { Gives result (formats.all_printed args) }
{
    let mut printed = nothing(alloc);
    let mut left = args.into_vec().into_iter();
    while let Some(a) = left.next() {
        printed = and_shown(alloc, printed, a, &mut left)?;
    }
    answer(printed)
}
