// System tasks that print (IEEE 1800-2017, 21.2): E25, E42, E50, E51.
ghost use Rattle.std.specs.Prelude.{◌≡◌, ◌++◌, [], IfOk, IfErr};
ghost use Rattle.sv_flat.specs.declared.stmt.Form.{Form as form_of};
ghost use Rattle.sv_flat.specs.declared.stmt.Form.TheVariants as form;
ghost use Rattle.sv_flat.specs.declared.stmt.PrintKind.TheVariants as print;
ghost use Rattle.sv_tree.specs.View as view;
ghost use Rattle.sv_names.specs.declared.checked.Checked.{Checked as checked};
ghost use Rattle.sv_names.specs.declared.hoisted.Hoisted.{Hoisted as hoisted_of};
ghost use Rattle.sv_names.specs.declared.refusal.Refusal.TheVariants.{Memory};
ghost use Rattle.sv_names.specs.Checked as rules;
ghost use Rattle.sv_names.specs.Events as events;
ghost use Rattle.sv_names.specs.Expressions as expressions;
ghost use Rattle.sv_names.specs.Given.{Gives};
ghost use Rattle.sv_names.specs.Hoisted as hoisted;
ghost use Rattle.sv_names.specs.Views.{around_in};
ghost use Rattle.sv_elab_task.specs.Tasks as tasks;

use crate::actuals::actual_args;
use crate::rows::in_row;
use std::alloc::Global;
use sv_elab_expr::sv_elab_print::all_printed;
use sv_flat::{Expr, Form, PrintKind};
use sv_names::{Arg, Around, Hoisted, Refusal, where_also};
use sv_tree::Actuals;
use sv_value::{Piece, Seq, Text};

// ---- what is printed

/// The parts of a text with the end of its line.
fn with_newline(alloc: Global, pieces: Seq<Piece>) -> Result<Seq<Piece>, Refusal>
    ensures ok { IfOk result (λ ps. ps ≡ pieces ++ events.newline) }
    ensures err { IfErr result (λ e. e ≡ Memory) }
{
    let mut bytes = Text::new(alloc);
    bytes.push(b'\n')?;
    let mut pieces = pieces;
    pieces.push(Piece::Plain(bytes))?;
    Ok(pieces)
}

/// A statement that prints these parts.
fn print_form(
    alloc: Global,
    kind: PrintKind,
    pieces: Seq<Piece>,
    values: Seq<Hoisted<Expr>>,
) -> Result<Hoisted<Form>, Refusal>
    ensures ok { IfOk result (λ f. f ≡ hoisted.mapped (form.Print kind pieces) (hoisted.in_row values)) }
    ensures err { IfErr result (λ e. e ≡ Memory) }
{
    let row = in_row(alloc, values)?;
    Ok(Hoisted {
        hidden: row.hidden,
        calls: row.calls,
        value: Form::Print {
            kind,
            pieces,
            values: row.value,
        },
    })
}

/// A statement that prints its arguments as a line.
fn line(alloc: Global, kind: PrintKind, args: Seq<Arg>) -> Result<Hoisted<Form>, Refusal>
    ensures { Gives result (events.print_of kind events.newline args) }
{
    match all_printed(alloc, args) {
        Ok((pieces, values)) => {
            let pieces = with_newline(alloc, pieces)?;
            let form = print_form(alloc, kind, pieces, values)?;
            Ok(form)
        }
        Err(e) => Err(e),
    }
}

/// A statement that prints its arguments at once, and no end of a line.
#[tactic(auto, using(crate::proofs::TaskLaws::written_is))]
fn written(alloc: Global, args: Seq<Arg>) -> Result<Hoisted<Form>, Refusal>
    ensures { Gives result (events.print_of print.Now [] args) }
{
    match all_printed(alloc, args) {
        Ok((pieces, values)) => {
            let form = print_form(alloc, PrintKind::Now, pieces, values)?;
            Ok(form)
        }
        Err(e) => Err(e),
    }
}

// ---- the tasks

/// `$write` (21.2.1)
pub fn write(alloc: Global, actuals: &Actuals, around: &Around) -> Result<Hoisted<Form>, Refusal>
    ensures { Gives result (events.print_of print.Now []
        (expressions.actual_args (around_in around.now) [] (view.actuals actuals.now))) }
{
    let args = actual_args(alloc, &[], actuals, around)?;
    written(alloc, args)
}

/// A line of this kind: `$display` (21.2.1), and others, whose rules on where they stand are another matter.
pub fn print_line(
    alloc: Global,
    kind: PrintKind,
    actuals: &Actuals,
    around: &Around,
) -> Result<Hoisted<Form>, Refusal>
    ensures { Gives result (tasks.line kind (around_in around.now) (view.actuals actuals.now)) }
{
    let args = actual_args(alloc, &[], actuals, around)?;
    line(alloc, kind, args)
}

/// Where arguments stand that are printed later: no call stands in them.
fn without_calls<'a>(around: &Around<'a>) -> Around<'a>
    ensures { around_in result ≡ tasks.without_calls (around_in around.now) }
{
    Around {
        call_rule: Some(25),
        ..*around
    }
}

/// The same, where they name only what lasts.
fn lasting<'a>(around: &Around<'a>) -> Around<'a>
    ensures { around_in result ≡ tasks.lasting (around_in around.now) }
{
    Around {
        call_rule: Some(25),
        is_printed_later: true,
        ..*around
    }
}

/// Only whether a form breaks a rule.
fn only(form: Result<Hoisted<Form>, Refusal>) -> Result<(), Refusal>
    ensures { (x : checked (hoisted_of form_of)) → Gives form x → Gives result (rules.only x) }
{
    match form {
        Ok(_) => Ok(()),
        Err(e) => Err(e),
    }
}

/// `$strobe` and `$monitor` (21.2.2 and 21.2.3). E25: a call stands in an argument; E51: an argument names what does not last, which hides no
/// other rule.
pub fn print_later(
    alloc: Global,
    kind: PrintKind,
    actuals: &Actuals,
    around: &Around,
) -> Result<Hoisted<Form>, Refusal>
    ensures { Gives result (events.printed_later (events.print_of kind events.newline) (around_in around.now) (view.actuals actuals.now)) }
{
    let form = print_line(alloc, kind, actuals, &lasting(around));
    let whole = only(print_line(alloc, kind, actuals, &without_calls(around)));
    where_also(form, whole)
}
