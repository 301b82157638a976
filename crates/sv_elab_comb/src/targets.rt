// What statements write, and the calls before them (IEEE 1800-2017, 9.2.2.2.1, 10.4 and 13.5).
ghost use Rattle.std.specs.Prelude.{flat_map, map, OnOk};
ghost use Rattle.sv_flat.specs.Names as names;
ghost use Rattle.sv_names.specs.Watched as watched;
ghost use Rattle.sv_elab_comb.specs.Spans.{Spanned, spans_of, targets_in};

use crate::spans::{Span, span_of_target};
use sv_flat::{Argument, Call, CallForm, Form, Lvalue, Stmt};
use sv_value::{NoMemory, Seq};

/// Appends what a target covers, where that is known.
#[tactic(auto, using(crate::proofs::SpanLaws::spanned_none, crate::proofs::SpanLaws::spanned_one))]
fn add_target(target: &Lvalue, spans: &mut Seq<Span>) -> Result<(), NoMemory>
    ensures { OnOk result (Spanned spans.old spans.new (names.optional (watched.span_of_target target.now))) }
{
    match span_of_target(target)? {
        None => Ok(()),
        Some(span) => spans.push(span),
    }
}

/// Appends what targets cover.
#[tactic(auto, using(crate::proofs::SpanLaws::turn_spanned, crate::proofs::SpanLaws::all_spanned))]
fn add_targets(targets: &[Lvalue], spans: &mut Seq<Span>) -> Result<(), NoMemory>
    ensures { OnOk result (Spanned spans.old spans.new (spans_of targets.now)) }
{
    let mut left = targets;
    while let [one, rest @ ..] = left {
        add_target(one, spans)?;
        left = rest;
    }
    Ok(())
}

/// Appends what the targets of an output cover.
#[tactic(auto, using(crate::proofs::SpanLaws::spanned_none))]
fn add_optional(targets: &Option<Seq<Lvalue>>, spans: &mut Seq<Span>) -> Result<(), NoMemory>
    ensures { OnOk result (Spanned spans.old spans.new (spans_of (names.optional_targets targets.now))) }
{
    match targets {
        None => Ok(()),
        Some(targets) => add_targets(targets.as_slice(), spans),
    }
}

/// Appends what the targets of arguments cover.
#[tactic(auto, using(crate::proofs::SpanLaws::all_spanned))]
fn add_arguments(arguments: &[Argument], spans: &mut Seq<Span>) -> Result<(), NoMemory>
    ensures { OnOk result (Spanned spans.old spans.new
        (spans_of (flat_map (λ a. names.optional_targets a.targets) arguments.now))) }
{
    let mut left = arguments;
    while let [one, rest @ ..] = left {
        add_optional(&one.targets, spans)?;
        left = rest;
    }
    Ok(())
}

/// Appends what the targets of a call cover.
#[tactic(auto, using(crate::proofs::SpanLaws::spanned_none))]
fn add_call(form: &CallForm, spans: &mut Seq<Span>) -> Result<(), NoMemory>
    ensures { OnOk result (Spanned spans.old spans.new (spans_of (names.call_targets form.now))) }
{
    match form {
        CallForm::Routine { arguments, .. } => add_arguments(arguments.as_slice(), spans),
        CallForm::Method { arguments, .. } => add_arguments(arguments.as_slice(), spans),
        CallForm::New { arguments, .. } => add_arguments(arguments.as_slice(), spans),
        CallForm::Cast { targets, .. } => add_targets(targets.as_slice(), spans),
        CallForm::Walk { targets, .. } => add_targets(targets.as_slice(), spans),
        CallForm::Get { targets, .. } => add_targets(targets.as_slice(), spans),
        _ => Ok(()),
    }
}

/// Appends what the targets of the calls before a statement cover.
#[tactic(auto, using(crate::proofs::SpanLaws::all_spanned))]
fn add_calls(calls: &[Call], spans: &mut Seq<Span>) -> Result<(), NoMemory>
    ensures { OnOk result (Spanned spans.old spans.new (spans_of (flat_map (λ c. names.call_targets c.form) calls.now))) }
{
    let mut left = calls;
    while let [one, rest @ ..] = left {
        add_call(&one.form, spans)?;
        left = rest;
    }
    Ok(())
}

/// Appends what the targets of a form cover.
#[tactic(auto, using(crate::proofs::SpanLaws::spanned_none))]
fn add_form(form: &Form, spans: &mut Seq<Span>) -> Result<(), NoMemory>
    ensures { OnOk result (Spanned spans.old spans.new (spans_of (names.form_targets form.now))) }
{
    match form {
        Form::Assign { targets, .. } => add_targets(targets.as_slice(), spans),
        Form::AssignAfter { targets, .. } => add_targets(targets.as_slice(), spans),
        Form::Nonblocking { targets, .. } => add_targets(targets.as_slice(), spans),
        Form::Return { targets, .. } => add_targets(targets.as_slice(), spans),
        Form::Call(call) => add_call(&call.form, spans),
        _ => Ok(()),
    }
}

/// Appends what the targets of a statement cover, and of the calls before it.
#[tactic(auto, using(crate::proofs::SpanLaws::spanned_both))]
fn add_statement(statement: &Stmt, spans: &mut Seq<Span>) -> Result<(), NoMemory>
    ensures { OnOk result (Spanned spans.old spans.new (spans_of (targets_in statement.now))) }
{
    add_calls(statement.calls.as_slice(), spans)?;
    add_form(&statement.form, spans)
}

/// Appends what the targets of statements cover.
#[tactic(auto, using(crate::proofs::SpanLaws::all_spanned))]
pub(crate) fn add_statements(statements: &[&Stmt], spans: &mut Seq<Span>) -> Result<(), NoMemory>
    ensures { OnOk result (Spanned spans.old spans.new
        (spans_of (flat_map targets_in (map (λ s. s.now) statements.now)))) }
{
    let mut left = statements;
    while let [one, rest @ ..] = left {
        add_statement(one, spans)?;
        left = rest;
    }
    Ok(())
}
