// What the forms of statements read (IEEE 1800-2017, 9.4.2.2 and 12).
ghost use Rattle.std.specs.Prelude.{flat_map, OnOk};
ghost use Rattle.sv_flat.specs.Names.{optional, container_exprs, watch_exprs};
ghost use Rattle.sv_names.specs.Watched as watched;
ghost use Rattle.sv_elab_watch.specs.Reading.{Read};

use crate::calls::add_call;
use crate::operands::{add_all, add_expr, add_one, add_optional};
use crate::targets::{Extent, add_changed, add_targets};
use std::alloc::Global;
use sv_flat::{CaseItem, Container, Expr, Form, Watch};
use sv_value::{NoMemory, Seq};

/// Appends what the labels of a `case` read.
#[tactic(auto, using(crate::proofs::ReadLaws::all_added))]
fn add_labels(
    alloc: Global,
    depth: u128,
    items: &[CaseItem],
    list: &mut Seq<Expr>,
) -> Result<(), NoMemory>
    ensures { OnOk result (Read depth list.old list.new (flat_map (λ a. a.labels) items.now)) }
{
    let mut left = items;
    while let [one, rest @ ..] = left {
        add_all(alloc, depth, one.labels.as_slice(), list)?;
        left = rest;
    }
    Ok(())
}

/// Appends what an event expression reads.
#[tactic(auto, using(crate::proofs::ReadLaws::added_none, crate::proofs::ReadLaws::added_both))]
fn add_watch(
    alloc: Global,
    depth: u128,
    watch: &Watch,
    list: &mut Seq<Expr>,
) -> Result<(), NoMemory>
    ensures { OnOk result (Read depth list.old list.new (watch_exprs watch.now)) }
{
    match watch {
        Watch::On {
            expr,
            condition,
            ..
        } => {
            add_expr(alloc, depth, expr, list)?;
            add_optional(alloc, depth, condition, list)
        }
        Watch::Updates(_, _) => Ok(()),
    }
}

/// Appends what event expressions read.
#[tactic(auto, using(crate::proofs::ReadLaws::all_added))]
fn add_watches(
    alloc: Global,
    depth: u128,
    watches: &[Watch],
    list: &mut Seq<Expr>,
) -> Result<(), NoMemory>
    ensures { OnOk result (Read depth list.old list.new (flat_map watch_exprs watches.now)) }
{
    let mut left = watches;
    while let [one, rest @ ..] = left {
        add_watch(alloc, depth, one, list)?;
        left = rest;
    }
    Ok(())
}

/// Appends the container whose items come first, where there is one.
#[tactic(auto, using(crate::proofs::ReadLaws::added_none))]
fn add_source(
    alloc: Global,
    depth: u128,
    source: &Option<Container>,
    list: &mut Seq<Expr>,
) -> Result<(), NoMemory>
    ensures { OnOk result (Read depth list.old list.new (flat_map container_exprs (optional source.now))) }
{
    match source {
        None => Ok(()),
        Some(source) => add_one(alloc, depth, &source.holder, list),
    }
}

/// Appends what a form reads: what stands as a target alone is not read.
#[tactic(auto, using(crate::proofs::ReadLaws::added_none, crate::proofs::ReadLaws::added_both, crate::proofs::ReadLaws::read_both))]
pub(crate) fn add_form(
    alloc: Global,
    depth: u128,
    form: &Form,
    list: &mut Seq<Expr>,
) -> Result<(), NoMemory>
    ensures { OnOk result (Read depth list.old list.new (watched.exprs_read form.now)) }
{
    match form {
        Form::Assign { targets, value } => {
            add_expr(alloc, depth, value, list)?;
            add_targets(alloc, depth, Extent::Changed, targets.as_slice(), list)
        }
        Form::AssignAfter {
            targets,
            value,
            delay,
            ..
        } => {
            add_expr(alloc, depth, value, list)?;
            add_expr(alloc, depth, delay, list)?;
            add_targets(alloc, depth, Extent::Changed, targets.as_slice(), list)
        }
        Form::Nonblocking {
            targets,
            value,
            delay,
            ..
        } => {
            add_expr(alloc, depth, value, list)?;
            add_optional(alloc, depth, delay, list)?;
            add_targets(alloc, depth, Extent::Whole, targets.as_slice(), list)
        }
        Form::Return { targets, value } => {
            add_optional(alloc, depth, value, list)?;
            add_targets(alloc, depth, Extent::Whole, targets.as_slice(), list)
        }
        Form::CopyContainer { target, source } => {
            add_changed(alloc, depth, target, list)?;
            add_one(alloc, depth, &source.holder, list)
        }
        Form::Resize {
            target,
            size,
            source,
            ..
        } => {
            add_changed(alloc, depth, target, list)?;
            add_expr(alloc, depth, size, list)?;
            add_source(alloc, depth, source, list)
        }
        Form::Case { subject, items, .. } => {
            add_expr(alloc, depth, subject, list)?;
            add_labels(alloc, depth, items.as_slice(), list)
        }
        Form::Call(call) => add_call(alloc, depth, &call.form, list),
        Form::At { watches } => add_watches(alloc, depth, watches.as_slice(), list),
        Form::Print { values, .. } => add_all(alloc, depth, values.as_slice(), list),
        Form::If { condition, .. } => add_one(alloc, depth, condition, list),
        Form::While { condition, .. } => add_one(alloc, depth, condition, list),
        Form::Wait { condition } => add_one(alloc, depth, condition, list),
        Form::Repeat { count, .. } => add_one(alloc, depth, count, list),
        Form::Cycles { count, .. } => add_one(alloc, depth, count, list),
        Form::Foreach { container, .. } => add_one(alloc, depth, &container.holder, list),
        Form::Evaluate { value } => add_one(alloc, depth, value, list),
        Form::Drive { value, .. } => add_one(alloc, depth, value, list),
        Form::Delay { amount, .. } => add_one(alloc, depth, amount, list),
        Form::AtEvent { event } => add_one(alloc, depth, event, list),
        Form::Trigger { event } => add_one(alloc, depth, event, list),
        Form::Null | Form::Block { .. } | Form::Fork { .. } => Ok(()),
        Form::Do { .. } | Form::Forever { .. } | Form::ForeachElement { .. } => Ok(()),
        Form::Break | Form::Continue | Form::WaitFork | Form::DisableFork => Ok(()),
        Form::Finish | Form::Exit => Ok(()),
    }
}
