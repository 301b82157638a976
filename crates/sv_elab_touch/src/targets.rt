// Targets as they are written (IEEE 1800-2017, 10.3 and 10.4).
ghost use Rattle.std.specs.Prelude.{OnOk};
ghost use Rattle.sv_tree.specs.View as view;
ghost use Rattle.sv_names.specs.Writers as writers;
ghost use Rattle.sv_names.specs.Views.{around_in};
ghost use Rattle.sv_elab_touch.specs.Touched.{Touched, alone_touches, broken_touches};

use crate::before::{before_select, begun};
use crate::quiet::{Alone, written_alone};
use crate::written::{add_good, add_selected, add_write};
use std::alloc::Global;
use sv_elab_expr::{place_of_root, target_of_name};
use sv_elab_writers::Touch;
use sv_names::{Around, Checked, How};
use sv_tree::{Expr, Root, Suffix};
use sv_value::{NoMemory, Place, Seq};

/// Appends the object of a target with a select that breaks a rule.
fn add_before_select(
    alloc: Global,
    root: &Root,
    suffixes: &[Suffix],
    around: &Around,
    touches: &mut Seq<Touch>,
) -> Result<(), NoMemory>
    ensures { OnOk result (Touched touches.old touches.new
        (broken_touches (around_in around.now) root.now (view.suffix_list suffixes.now))) }
{
    let place = place_of_root(root);
    let thing = begun(alloc, root, around)?;
    let before = before_select(alloc, place, thing, suffixes, around)?;
    add_selected(alloc, place, &before, touches)
}

/// Appends the object of a name alone.
#[tactic(auto, using(crate::proofs::TouchedLaws::touched_none))]
fn add_alone(
    alloc: Global,
    at: Place,
    written: Alone,
    touches: &mut Seq<Touch>,
) -> Result<(), NoMemory>
    ensures { OnOk result (Touched touches.old touches.new (alone_touches at written.entry)) }
{
    match written {
        Alone::Variable(path) => add_write(alloc, at, path, touches),
        Alone::Nothing => Ok(()),
    }
}

/// Appends the objects of a target that is no concatenation, also where one of its selects breaks a rule.
pub(crate) fn add_part(
    alloc: Global,
    how: How,
    root: &Root,
    suffixes: &[Suffix],
    around: &Around,
    touches: &mut Seq<Touch>,
) -> Result<(), NoMemory>
    ensures { OnOk result (Touched touches.old touches.new
        (writers.part_touches how (around_in around.now) root.now (view.suffix_list suffixes.now))) }
{
    match suffixes {
        [] => match written_alone(root, around) {
            Some(written) => add_alone(alloc, place_of_root(root), written, touches),
            None => add_typed(alloc, how, root, suffixes, around, touches),
        },
        _ => add_typed(alloc, how, root, suffixes, around, touches),
    }
}

/// The same by the type of the target.
fn add_typed(
    alloc: Global,
    how: How,
    root: &Root,
    suffixes: &[Suffix],
    around: &Around,
    touches: &mut Seq<Touch>,
) -> Result<(), NoMemory>
    ensures { OnOk result (Touched touches.old touches.new
        (writers.part_touches how (around_in around.now) root.now (view.suffix_list suffixes.now))) }
{
    match target_of_name(alloc, how, root, suffixes, around) {
        Ok(spots) => match spots {
            Checked::Good(_) => add_good(alloc, &spots, touches),
            Checked::Broken(_) => add_before_select(alloc, root, suffixes, around, touches),
        },
        Err(_) => Err(NoMemory::Memory),
    }
}

/// Appends the objects of a target.
#[cycle(targets)]
#[tactic(auto, using(crate::proofs::TouchedLaws::touched_none))]
pub fn add_target(
    alloc: Global,
    how: How,
    e: &Expr,
    around: &Around,
    touches: &mut Seq<Touch>,
) -> Result<(), NoMemory>
    ensures { OnOk result (Touched touches.old touches.new
        (writers.target_touches how (around_in around.now) (view.expr e.now))) }
{
    match e {
        Expr::Post(root, suffixes) => add_part(alloc, how, root, suffixes, around, touches),
        Expr::Join(_, items) => add_targets(alloc, how, items, around, touches),
        _ => Ok(()),
    }
}

/// Appends the objects of the parts of a concatenation, whichever of them break a rule.
#[cycle(targets)]
fn add_targets(
    alloc: Global,
    how: How,
    items: &[Expr],
    around: &Around,
    touches: &mut Seq<Touch>,
) -> Result<(), NoMemory>
    ensures { OnOk result (Touched touches.old touches.new
        (writers.targets_touches how (around_in around.now) (view.expr_list items.now))) }
{
    for e in items {
        add_target(alloc, how, e, around, touches)?;
    }
    Ok(())
}
