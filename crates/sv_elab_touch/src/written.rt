// The objects that targets are of (IEEE 1800-2017, 10.3 and 10.4).
ghost use Rattle.std.specs.Prelude.{◌∷◌, [], flat_map, OnOk};
ghost use Rattle.sv_names.specs.Writers as writers;
ghost use Rattle.sv_elab_touch.specs.Touched.{Touched, good_touches};

use std::alloc::Global;
use sv_elab_expr::sv_elab_select::Spot;
use sv_elab_writers::Touch;
use sv_names::{AsTarget, Begin, Checked, Typed, copy_path};
use sv_value::{NoMemory, Place, Seq, Text};

/// Appends a write of an object.
#[tactic(auto, using(crate::proofs::TouchedLaws::touched_one))]
pub(crate) fn add_write(
    alloc: Global,
    at: Place,
    object: &[Text],
    touches: &mut Seq<Touch>,
) -> Result<(), NoMemory>
    ensures { OnOk result (Touched touches.old touches.new (writers.Writes at object.now ∷ [])) }
{
    let object = copy_path(alloc, object)?;
    touches.push(Touch::Writes { at, object })
}

/// Appends the object that a target is of.
#[tactic(auto, using(crate::proofs::TouchedLaws::touched_none))]
pub(crate) fn add_written(
    alloc: Global,
    at: Place,
    target: &AsTarget,
    touches: &mut Seq<Touch>,
) -> Result<(), NoMemory>
    ensures { OnOk result (Touched touches.old touches.new (writers.written_by at target.now.begins)) }
{
    match target.begins() {
        Some(Begin::Variable(path)) => add_write(alloc, at, path.as_slice(), touches),
        Some(Begin::StaticProperty(path)) => add_write(alloc, at, path.as_slice(), touches),
        _ => Ok(()),
    }
}

/// Appends the objects of a target.
#[tactic(auto, using(crate::proofs::TouchedLaws::turn_touched, crate::proofs::TouchedLaws::all_touched))]
fn add_spots(alloc: Global, spots: &[Spot], touches: &mut Seq<Touch>) -> Result<(), NoMemory>
    ensures { OnOk result (Touched touches.old touches.new (writers.spot_touches spots.now)) }
{
    let mut left = spots;
    while let [one, rest @ ..] = left {
        let (at, t) = one;
        add_written(alloc, *at, &t.target, touches)?;
        left = rest;
    }
    Ok(())
}

/// Appends the objects of a target that breaks no rule.
#[tactic(auto, using(crate::proofs::TouchedLaws::touched_none))]
pub(crate) fn add_good(
    alloc: Global,
    spots: &Checked<Seq<Spot>>,
    touches: &mut Seq<Touch>,
) -> Result<(), NoMemory>
    ensures { OnOk result (Touched touches.old touches.new (good_touches spots.now)) }
{
    match spots {
        Checked::Good(spots) => add_spots(alloc, spots.as_slice(), touches),
        Checked::Broken(_) => Ok(()),
    }
}

/// Appends the object before a broken select.
#[tactic(auto, using(crate::proofs::TouchedLaws::touched_none))]
pub(crate) fn add_selected(
    alloc: Global,
    at: Place,
    before: &Option<Typed>,
    touches: &mut Seq<Touch>,
) -> Result<(), NoMemory>
    ensures { OnOk result (Touched touches.old touches.new (writers.selected_touches at before.now)) }
{
    match before {
        None => Ok(()),
        Some(t) => add_written(alloc, at, &t.target, touches),
    }
}
