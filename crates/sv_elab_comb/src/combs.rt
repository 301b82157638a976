// What one `always_comb` watches (IEEE 1800-2017, 9.2.2.2.1).
ghost use Rattle.std.specs.Prelude.{◌≡◌, ◌∷◌, [], ◌++◌, flat_map, filter, map, IfOk, OnOk, if◌then◌else◌};
ghost use Rattle.sv_names.specs.Design as design;
ghost use Rattle.sv_elab_comb.specs.Spans.{span_in, spans_of};
ghost use Rattle.sv_elab_comb.specs.Combs.{read_in, written_in, is_watched};

use crate::covers::is_covered;
use crate::outer::is_outer;
use crate::reached::reached;
use crate::spans::Span;
use crate::statements::{body_of, statements_of};
use crate::targets::add_statements;
use std::alloc::Global;
use sv_elab_watch::{on_changes, read_by};
use sv_flat::{Expr, Parts, Process, Watch};
use sv_value::{NoMemory, RoutineId, Seq};

/// Appends operands.
fn push_all(more: Seq<Expr>, list: &mut Seq<Expr>) -> Result<(), NoMemory>
    ensures { OnOk result (list.new ≡ list.old ++ more) }
{
    for operand in more.into_vec() {
        list.push(operand)?;
    }
    Ok(())
}

/// What a routine reads, with all that stands in it.
#[tactic(auto, using(crate::proofs::CombLaws::read_is))]
fn read_by_routine(alloc: Global, parts: &Parts, id: RoutineId) -> Result<Seq<Expr>, NoMemory>
    ensures { IfOk result (λ es. es ≡ read_in parts.now (id ∷ [])) }
{
    let routines = parts.routines.as_slice();
    read_by(alloc, 0, routines, body_of(parts, id))
}

/// What routines read.
#[tactic(auto, using(crate::proofs::CombLaws::turn_read, crate::proofs::CombLaws::all_read))]
fn read_in(alloc: Global, parts: &Parts, ids: &[RoutineId]) -> Result<Seq<Expr>, NoMemory>
    ensures { IfOk result (λ es. es ≡ read_in parts.now ids.now) }
{
    let mut list = Seq::new(alloc);
    let mut left = ids;
    while let [one, rest @ ..] = left {
        let more = read_by_routine(alloc, parts, *one)?;
        push_all(more, &mut list)?;
        left = rest;
    }
    Ok(list)
}

/// Appends what a routine writes, with all that stands in it.
#[tactic(auto, using(crate::proofs::CombLaws::written_is))]
fn add_written(
    alloc: Global,
    parts: &Parts,
    id: RoutineId,
    spans: &mut Seq<Span>,
) -> Result<(), NoMemory>
    ensures { OnOk result (map span_in spans.new ≡ map span_in spans.old ++ spans_of (written_in parts.now (id ∷ []))) }
{
    let Some(levels) = parts.routines.as_slice().len().checked_add(1) else {
        return Err(NoMemory::Memory);
    };
    let statements = statements_of(alloc, parts, levels, id)?;
    add_statements(statements.as_slice(), spans)
}

/// What routines write.
#[tactic(auto, using(crate::proofs::CombLaws::turn_written, crate::proofs::SpanLaws::all_spanned))]
fn written_in(alloc: Global, parts: &Parts, ids: &[RoutineId]) -> Result<Seq<Span>, NoMemory>
    ensures { IfOk result (λ ss. map span_in ss ≡ spans_of (written_in parts.now ids.now)) }
{
    let mut spans = Seq::new(alloc);
    let mut left = ids;
    while let [one, rest @ ..] = left {
        add_written(alloc, parts, *one, &mut spans)?;
        left = rest;
    }
    Ok(spans)
}

/// Whether an operand is watched, where this is written.
fn is_watched(
    parts: &Parts,
    written: &[Span],
    operand: &Expr,
    near: &mut usize,
) -> Result<bool, NoMemory>
    ensures { IfOk result (λ b. b ≡ is_watched parts.now (map span_in written.now) operand.now) }
{
    if !is_outer(parts, operand, near) {
        return Ok(false);
    }
    let covered = is_covered(operand, written)?;
    Ok(!covered)
}

/// Appends an operand, where it is watched.
#[tactic(auto, using(crate::proofs::CombLaws::none_kept))]
fn keep(
    parts: &Parts,
    written: &[Span],
    operand: Expr,
    near: &mut usize,
    kept: &mut Seq<Expr>,
) -> Result<(), NoMemory>
    ensures { OnOk result (kept.new ≡ kept.old
        ++ (if is_watched parts.now (map span_in written.now) operand then operand ∷ [] else [])) }
{
    if is_watched(parts, written, &operand, near)? {
        return kept.push(operand);
    }
    Ok(())
}

/// The operands that are watched, where this is written.
fn watched_of(
    alloc: Global,
    parts: &Parts,
    written: &[Span],
    operands: Seq<Expr>,
    near: &mut usize,
) -> Result<Seq<Expr>, NoMemory>
    ensures { IfOk result (λ es. es ≡ filter (is_watched parts.now (map span_in written.now)) operands) }
{
    let mut kept = Seq::new(alloc);
    for operand in operands.into_vec() {
        keep(parts, written, operand, near, &mut kept)?;
    }
    Ok(kept)
}

/// What one `always_comb` watches: what it and the routines that it runs read, but for what they write. Instances are
/// looked for near a place.
#[tactic(auto, using(crate::proofs::CombLaws::watches_are))]
pub(crate) fn comb_watches(
    alloc: Global,
    parts: &Parts,
    process: &Process,
    near: &mut usize,
) -> Result<Seq<Watch>, NoMemory>
    ensures { IfOk result (λ ws. ws ≡ design.comb_watches parts.now process.now) }
{
    let ids = reached(alloc, parts, process.body)?;
    let written = written_in(alloc, parts, ids.as_slice())?;
    let operands = read_in(alloc, parts, ids.as_slice())?;
    let watched = watched_of(alloc, parts, written.as_slice(), operands, near)?;
    on_changes(alloc, watched)
}
