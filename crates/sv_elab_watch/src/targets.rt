// What targets and containers read (IEEE 1800-2017, 9.4.2.2 and 10.4).
ghost use Rattle.std.specs.Prelude.{OnOk};
ghost use Rattle.sv_flat.specs.Names.{base_exprs, part_exprs};
ghost use Rattle.sv_names.specs.Watched as watched;
ghost use Rattle.sv_elab_watch.specs.Reading.{Read, base_of, target_of, targets_of};

use crate::operands::{add_one, add_optional, add_two};
use std::alloc::Global;
use sv_flat::{Base, Container, Expr, ExprForm, Lvalue, Part};
use sv_value::{NoMemory, Seq};

/// What of a target is read.
#[derive(Clone, Copy)]
pub(crate) enum Extent {
    /// Its references, its indices, and its containers.
    Whole,
    /// The same but for a container that is only changed.
    Changed,
}

/// Appends what leads to a container that is only changed.
#[tactic(auto, using(crate::proofs::ReadLaws::added_none))]
pub(crate) fn add_changed(
    alloc: Global,
    depth: u128,
    container: &Container,
    list: &mut Seq<Expr>,
) -> Result<(), NoMemory>
    ensures { OnOk result (Read depth list.old list.new (watched.looked_through container.now)) }
{
    match &container.property {
        Some(_) => add_one(alloc, depth, &container.holder, list),
        None => match &*container.holder.form {
            ExprForm::Static { reference, .. } => add_one(alloc, depth, reference, list),
            _ => Ok(()),
        },
    }
}

/// Appends what is read of that which a target begins with.
#[tactic(auto, using(crate::proofs::ReadLaws::added_none))]
fn add_whole(alloc: Global, depth: u128, base: &Base, list: &mut Seq<Expr>) -> Result<(), NoMemory>
    ensures { OnOk result (Read depth list.old list.new (base_exprs base.now)) }
{
    match base {
        Base::Object(_) | Base::Driver(_, _) | Base::Local { .. } => Ok(()),
        Base::Element { index, .. } => add_one(alloc, depth, index, list),
        Base::LocalElement { index, .. } => add_one(alloc, depth, index, list),
        Base::Field { object, .. } => add_one(alloc, depth, object, list),
        Base::FieldElement { object, index, .. } => add_two(alloc, depth, object, index, list),
        Base::Item { container, index } => add_two(alloc, depth, &container.holder, index, list),
    }
}

/// Appends what is read of that which a target begins with, of a container only what leads to it.
#[tactic(auto, using(crate::proofs::ReadLaws::read_both))]
fn add_base(
    alloc: Global,
    depth: u128,
    kind: Extent,
    base: &Base,
    list: &mut Seq<Expr>,
) -> Result<(), NoMemory>
    ensures { OnOk result (Read depth list.old list.new (base_of kind base.now)) }
{
    match kind {
        Extent::Whole => add_whole(alloc, depth, base, list),
        Extent::Changed => match base {
            Base::Item { container, index } => {
                add_changed(alloc, depth, container, list)?;
                add_one(alloc, depth, index, list)
            }
            _ => add_whole(alloc, depth, base, list),
        },
    }
}

/// Appends what the index of a part reads.
#[tactic(auto, using(crate::proofs::ReadLaws::added_none))]
fn add_part(
    alloc: Global,
    depth: u128,
    part: &Option<Part>,
    list: &mut Seq<Expr>,
) -> Result<(), NoMemory>
    ensures { OnOk result (Read depth list.old list.new (part_exprs part.now)) }
{
    match part {
        None => Ok(()),
        Some(part) => add_one(alloc, depth, &part.index, list),
    }
}

/// Appends what is read of a target.
#[tactic(auto, using(crate::proofs::ReadLaws::read_both))]
fn add_target(
    alloc: Global,
    depth: u128,
    kind: Extent,
    target: &Lvalue,
    list: &mut Seq<Expr>,
) -> Result<(), NoMemory>
    ensures { OnOk result (Read depth list.old list.new (target_of kind target.now)) }
{
    add_optional(alloc, depth, &target.through, list)?;
    add_base(alloc, depth, kind, &target.base, list)?;
    add_part(alloc, depth, &target.part, list)
}

/// Appends what is read of targets.
#[tactic(auto, using(crate::proofs::ReadLaws::all_added))]
pub(crate) fn add_targets(
    alloc: Global,
    depth: u128,
    kind: Extent,
    targets: &[Lvalue],
    list: &mut Seq<Expr>,
) -> Result<(), NoMemory>
    ensures { OnOk result (Read depth list.old list.new (targets_of kind targets.now)) }
{
    let mut left = targets;
    while let [one, rest @ ..] = left {
        add_target(alloc, depth, kind, one, list)?;
        left = rest;
    }
    Ok(())
}
