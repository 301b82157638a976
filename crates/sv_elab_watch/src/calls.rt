// What calls read (IEEE 1800-2017, 9.4.2.2 and 13.5).
ghost use Rattle.std.specs.Prelude.{flat_map, OnOk};
ghost use Rattle.sv_flat.specs.Names.{argument_exprs, call_exprs};
ghost use Rattle.sv_names.specs.Watched as watched;
ghost use Rattle.sv_elab_watch.specs.Reading.{Added, Read};

use crate::operands::{add_expr, add_one, add_optional, add_two};
use crate::targets::{Extent, add_targets};
use std::alloc::Global;
use sv_flat::{Argument, Call, CallForm, Expr};
use sv_value::{NoMemory, Seq};

/// Appends what an argument reads.
#[tactic(auto, using(crate::proofs::ReadLaws::read_both, crate::proofs::ReadLaws::read_only))]
fn add_argument(
    alloc: Global,
    depth: u128,
    argument: &Argument,
    list: &mut Seq<Expr>,
) -> Result<(), NoMemory>
    ensures { OnOk result (Read depth list.old list.new (argument_exprs argument.now)) }
{
    add_optional(alloc, depth, &argument.value, list)?;
    match &argument.targets {
        None => Ok(()),
        Some(targets) => add_targets(alloc, depth, Extent::Whole, targets.as_slice(), list),
    }
}

/// Appends what arguments read.
#[tactic(auto, using(crate::proofs::ReadLaws::all_added))]
fn add_arguments(
    alloc: Global,
    depth: u128,
    arguments: &[Argument],
    list: &mut Seq<Expr>,
) -> Result<(), NoMemory>
    ensures { OnOk result (Read depth list.old list.new (flat_map argument_exprs arguments.now)) }
{
    let mut left = arguments;
    while let [one, rest @ ..] = left {
        add_argument(alloc, depth, one, list)?;
        left = rest;
    }
    Ok(())
}

/// Appends what a call reads.
#[tactic(auto, using(crate::proofs::ReadLaws::added_both, crate::proofs::ReadLaws::read_both))]
pub(crate) fn add_call(
    alloc: Global,
    depth: u128,
    form: &CallForm,
    list: &mut Seq<Expr>,
) -> Result<(), NoMemory>
    ensures { OnOk result (Read depth list.old list.new (call_exprs form.now)) }
{
    match form {
        CallForm::Routine {
            through,
            arguments,
            ..
        } => {
            add_optional(alloc, depth, through, list)?;
            add_arguments(alloc, depth, arguments.as_slice(), list)
        }
        CallForm::Method { arguments, .. } => {
            add_arguments(alloc, depth, arguments.as_slice(), list)
        }
        CallForm::New { arguments, .. } => add_arguments(alloc, depth, arguments.as_slice(), list),
        CallForm::Copy { object } => add_one(alloc, depth, object, list),
        CallForm::Cast { targets, value, .. } => {
            add_expr(alloc, depth, value, list)?;
            add_targets(alloc, depth, Extent::Whole, targets.as_slice(), list)
        }
        CallForm::Push {
            container,
            value,
            ..
        } => add_two(alloc, depth, &container.holder, value, list),
        CallForm::Pop { container, .. } => add_one(alloc, depth, &container.holder, list),
        CallForm::Insert {
            container,
            index,
            value,
        } => {
            add_expr(alloc, depth, &container.holder, list)?;
            add_two(alloc, depth, index, value, list)
        }
        CallForm::Delete { container, index } => {
            add_expr(alloc, depth, &container.holder, list)?;
            add_optional(alloc, depth, index, list)
        }
        CallForm::Walk {
            container,
            from,
            targets,
            ..
        } => {
            add_expr(alloc, depth, &container.holder, list)?;
            add_expr(alloc, depth, from, list)?;
            add_targets(alloc, depth, Extent::Whole, targets.as_slice(), list)
        }
        CallForm::NewMailbox { bound } => add_one(alloc, depth, bound, list),
        CallForm::NewSemaphore { keys } => add_one(alloc, depth, keys, list),
        CallForm::Put { mailbox, value, .. } => add_two(alloc, depth, mailbox, value, list),
        CallForm::Get {
            mailbox,
            targets,
            ..
        } => {
            add_expr(alloc, depth, mailbox, list)?;
            add_targets(alloc, depth, Extent::Whole, targets.as_slice(), list)
        }
        CallForm::GetKeys {
            semaphore,
            keys,
            ..
        } => add_two(alloc, depth, semaphore, keys, list),
        CallForm::PutKeys { semaphore, keys } => add_two(alloc, depth, semaphore, keys, list),
    }
}

/// Appends what the calls before a statement read.
#[tactic(auto, using(crate::proofs::ReadLaws::all_added))]
pub(crate) fn add_calls(
    alloc: Global,
    depth: u128,
    calls: &[Call],
    list: &mut Seq<Expr>,
) -> Result<(), NoMemory>
    ensures { OnOk result (Added list.old list.new
        (flat_map (λ c. flat_map (watched.operands depth) (call_exprs c.form)) calls.now)) }
{
    let mut left = calls;
    while let [one, rest @ ..] = left {
        add_call(alloc, depth, &one.form, list)?;
        left = rest;
    }
    Ok(())
}
