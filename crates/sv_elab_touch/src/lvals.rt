// Targets as statements write them (IEEE 1800-2017, 10.3, 10.4 and 11.4.12).
ghost use Rattle.std.specs.Prelude.{OnOk};
ghost use Rattle.sv_tree.specs.StmtView as view;
ghost use Rattle.sv_names.specs.Expressions.{as_expr, as_exprs};
ghost use Rattle.sv_names.specs.Writers as writers;
ghost use Rattle.sv_names.specs.Views.{around_in};
ghost use Rattle.sv_elab_touch.specs.Touched.{Touched};

use crate::exprs::add_name;
use crate::targets::add_part;
use std::alloc::Global;
use sv_elab_writers::Touch;
use sv_names::{Around, How};
use sv_tree::Lval;
use sv_value::{NoMemory, Seq};

/// Appends the objects of a target.
#[cycle(written)]
fn add_written(
    alloc: Global,
    how: How,
    target: &Lval,
    around: &Around,
    touches: &mut Seq<Touch>,
) -> Result<(), NoMemory>
    ensures { OnOk result (Touched touches.old touches.new
        (writers.target_touches how (around_in around.now) (as_expr (view.lval target.now)))) }
{
    match target {
        Lval::Post(root, suffixes) => add_part(alloc, how, root, suffixes, around, touches),
        Lval::Join(_, items) => add_all_written(alloc, how, items, around, touches),
    }
}

/// Appends the objects of the parts of a concatenation.
#[cycle(written)]
fn add_all_written(
    alloc: Global,
    how: How,
    items: &[Lval],
    around: &Around,
    touches: &mut Seq<Touch>,
) -> Result<(), NoMemory>
    ensures { OnOk result (Touched touches.old touches.new
        (writers.targets_touches how (around_in around.now) (as_exprs (view.lval_list items.now)))) }
{
    for item in items {
        add_written(alloc, how, item, around, touches)?;
    }
    Ok(())
}

/// Appends what the selects of a target write and call.
#[cycle(read)]
pub fn add_selects(
    alloc: Global,
    target: &Lval,
    around: &Around,
    touches: &mut Seq<Touch>,
) -> Result<(), NoMemory>
    ensures { OnOk result (Touched touches.old touches.new
        (writers.expr_touches (around_in around.now) (as_expr (view.lval target.now)))) }
{
    match target {
        Lval::Post(root, suffixes) => add_name(alloc, root, suffixes, around, touches),
        Lval::Join(_, items) => add_all_selects(alloc, items, around, touches),
    }
}

/// Appends what the selects of the parts of a concatenation write and call.
#[cycle(read)]
fn add_all_selects(
    alloc: Global,
    items: &[Lval],
    around: &Around,
    touches: &mut Seq<Touch>,
) -> Result<(), NoMemory>
    ensures { OnOk result (Touched touches.old touches.new
        (writers.exprs_touches (around_in around.now) (as_exprs (view.lval_list items.now)))) }
{
    for item in items {
        add_selects(alloc, item, around, touches)?;
    }
    Ok(())
}

/// Appends a target, and the calls in its selects.
#[tactic(auto, using(crate::proofs::TouchedLaws::touched_both))]
pub fn add_lval(
    alloc: Global,
    how: How,
    target: &Lval,
    around: &Around,
    touches: &mut Seq<Touch>,
) -> Result<(), NoMemory>
    ensures { OnOk result (Touched touches.old touches.new
        (writers.lval_touches how (around_in around.now) (view.lval target.now))) }
{
    add_written(alloc, how, target, around, touches)?;
    add_selects(alloc, target, around, touches)
}
