// Nonblocking assignments (IEEE 1800-2017, 10.4.2).
ghost use Rattle.std.specs.Prelude.{◌≡◌, ◌<◌, ◌∷◌, ◌++◌, [], None, Some, true, false, IfOk, OnOk, length, drop};
ghost use Rattle.sv_flat.specs.Eval as eval;
ghost use Rattle.sv_flat.specs.Statements.Delays as delays;
ghost use Rattle.sv_flat.specs.Statements.Shared.{from_result, value_in, computed, updates_for};
ghost use Rattle.sv_flat.specs.Targets as defined;
ghost use Rattle.sv_assign.specs.Places.{spot_in, spots_in};
ghost use Rattle.sv_stack.specs.Frames.{todos_of};
ghost use Rattle.sv_stack.specs.Effects.{Leaves, Does, IsKept};
ghost use Rattle.sv_process.specs.Parts.{updates, Reaches};

use crate::waits::{moment_after, ticks_in};
use std::alloc::Global;
use sv_assign::{Scoped, Spot, spot_of, spots_of, target_value, target_values};
use sv_built::Design;
use sv_eval::{Stopped, Values, value};
use sv_flat::{Expr, Lvalue};
use sv_stack::{Effect, Frames, Spare, pass_with};
use sv_value::{FaultKind, Job, NoMemory, Seq, Update, Val};

// ---- updates

/// The update of a place comes behind the others, where it is one of an object: a variable of an activation gets none.
fn push_update(list: &mut Vec<Update>, place: Spot, value: Val) -> Result<(), NoMemory>
    ensures { OnOk result (list.new.items ≡ list.old.items ++ updates_for (spot_in place ∷ []) (value ∷ [])) }
{
    match place {
        Spot::Cell(target) => {
            list.push(Update { target, value })?;
            Ok(())
        }
        Spot::Variable { .. } => Ok(()),
        Spot::Nowhere => Ok(()),
    }
}

/// The update of the first place.
#[tactic(auto, using(crate::proofs::LaterLemmas::first_updated))]
fn update_first(
    list: &mut Vec<Update>,
    places: &mut Vec<Spot>,
    values: &mut Vec<Val>,
) -> Result<(), NoMemory>
    requires places { 0 < length places.old.items }
    requires values { 0 < length values.old.items }
    ensures updated { OnOk result (list.new.items ++ updates_for (spots_in places.new.items) values.new.items
        ≡ list.old.items ++ updates_for (spots_in places.old.items) values.old.items) }
    ensures fewer { length places.new.items < length places.old.items }
{
    let place = places.remove(0);
    let value = values.remove(0);
    push_update(list, place, value)?;
    Ok(())
}

/// Whether a place and a value are left.
#[tactic(auto, using(crate::proofs::LaterLemmas::without_places, crate::proofs::LaterLemmas::without_values))]
fn has_both(places: &Vec<Spot>, values: &Vec<Val>) -> bool
    ensures places { result ≡ true → 0 < length places.now.items }
    ensures values { result ≡ true → 0 < length values.now.items }
    ensures none { result ≡ false → updates_for (spots_in places.now.items) values.now.items ≡ [] }
{
    if places.is_empty() {
        return false;
    }
    if values.is_empty() {
        return false;
    }
    true
}

/// The updates of places, from the left.
fn updates_of(
    alloc: Global,
    spare: &mut Spare,
    places: Vec<Spot>,
    values: Vec<Val>,
) -> Result<Vec<Update>, NoMemory>
    ensures { IfOk result (λ us. us.items ≡ updates_for (spots_in places.items) values.items) }
{
    let mut list = spare.take(alloc)?;
    let mut places = places;
    let mut values = values;
    while has_both(&places, &values) {
        update_first(&mut list, &mut places, &mut values)?;
    }
    Ok(list)
}

/// The job of an assignment.
fn job_of(
    alloc: Global,
    spare: &mut Spare,
    targets: &[Lvalue],
    places: Vec<Spot>,
    value: Val,
) -> Result<Vec<Update>, NoMemory>
    ensures { IfOk result (λ us. us.items ≡ updates_for (spots_in places.items) (defined.target_values targets.now value)) }
{
    let values = target_values(alloc, targets, value)?;
    updates_of(alloc, spare, places, values)
}

/// The job of an assignment to one target.
fn job_of_one(
    alloc: Global,
    spare: &mut Spare,
    target: &Lvalue,
    place: Spot,
    value: Val,
) -> Result<Vec<Update>, NoMemory>
    ensures { IfOk result (λ us. us.items ≡ updates_for (spot_in place ∷ []) (defined.target_values (target.now ∷ []) value)) }
{
    let value = target_value(target, value)?;
    let mut list = spare.take(alloc)?;
    push_update(&mut list, place, value)?;
    Ok(list)
}

/// The moment so many ticks from now, or the fault that it lies past the end of time.
fn moment_of<V: Values>(values: &V, ticks: u128) -> Result<u64, Stopped>
    ensures { Reaches result (V.view values.now) ticks }
{
    match moment_after(values.time(), ticks) {
        Some(moment) => Ok(moment),
        None => Err(Stopped::Fault(FaultKind::Time)),
    }
}

// ---- `a <= e`

/// A nonblocking assignment to one target, without a delay.
#[tactic(auto, using(crate::proofs::LaterLemmas::one_place, crate::proofs::LaterLemmas::no_place, crate::proofs::LaterLemmas::computed_no_place, crate::proofs::LaterLemmas::computed_no_value, crate::proofs::LaterLemmas::computed_too_late, crate::proofs::LaterLemmas::computed_is))]
fn update_one<V: Scoped>(
    frames: &mut Frames,
    alloc: Global,
    design: &Design,
    values: &V,
    out: &mut Vec<Effect>,
    spare: &mut Spare,
    target: &Lvalue,
    expr: &Expr,
) -> Result<(), Stopped>
    requires { out.old.items ≡ [] }
    ensures does { Does design.now result frames.new out.new.items (computed (target.now ∷ []) expr.now (V.view values.now)
        (λ ss x. updates (V.view values.now) (drop 1 (todos_of design.now frames.old)) (target.now ∷ []) x 0 ss)) }
    ensures kept { IsKept result frames.old frames.new }
{
    let place = spot_of(alloc, target, values)?;
    let x = value(alloc, values, expr)?;
    let moment = moment_of(values, 0)?;
    let list = job_of_one(alloc, spare, target, place, x)?;
    frames.leave_first(design)?;
    pass_with(
        frames,
        design,
        out,
        Effect::UpdateAt {
            time: moment,
            job: Job::Update(Seq::from_vec(list)),
        },
    )?;
    Ok(())
}

/// A nonblocking assignment to any number of targets, without a delay.
#[tactic(auto, using(crate::proofs::LaterLemmas::computed_no_place, crate::proofs::LaterLemmas::computed_no_value, crate::proofs::LaterLemmas::computed_too_late, crate::proofs::LaterLemmas::computed_is))]
fn update_all<V: Scoped>(
    frames: &mut Frames,
    alloc: Global,
    design: &Design,
    values: &V,
    out: &mut Vec<Effect>,
    spare: &mut Spare,
    targets: &[Lvalue],
    expr: &Expr,
) -> Result<(), Stopped>
    requires { out.old.items ≡ [] }
    ensures does { Does design.now result frames.new out.new.items (computed targets.now expr.now (V.view values.now)
        (λ ss x. updates (V.view values.now) (drop 1 (todos_of design.now frames.old)) targets.now x 0 ss)) }
    ensures kept { IsKept result frames.old frames.new }
{
    let places = spots_of(alloc, targets, values)?;
    let x = value(alloc, values, expr)?;
    let moment = moment_of(values, 0)?;
    let list = job_of(alloc, spare, targets, places, x)?;
    frames.leave_first(design)?;
    pass_with(
        frames,
        design,
        out,
        Effect::UpdateAt {
            time: moment,
            job: Job::Update(Seq::from_vec(list)),
        },
    )?;
    Ok(())
}

/// A nonblocking assignment without a delay.
pub fn run_nonblocking<V: Scoped>(
    frames: &mut Frames,
    alloc: Global,
    design: &Design,
    values: &V,
    out: &mut Vec<Effect>,
    spare: &mut Spare,
    targets: &[Lvalue],
    expr: &Expr,
) -> Result<(), Stopped>
    requires { out.old.items ≡ [] }
    ensures does { Does design.now result frames.new out.new.items (computed targets.now expr.now (V.view values.now)
        (λ ss x. updates (V.view values.now) (drop 1 (todos_of design.now frames.old)) targets.now x 0 ss)) }
    ensures kept { IsKept result frames.old frames.new }
{
    match targets {
        [target] => update_one(frames, alloc, design, values, out, spare, target, expr),
        _ => update_all(frames, alloc, design, values, out, spare, targets, expr),
    }
}

/// A nonblocking assignment after a delay.
#[tactic(auto, using(crate::proofs::LaterLemmas::delayed_no_amount, crate::proofs::LaterLemmas::delayed_no_value, crate::proofs::LaterLemmas::delayed_no_place, crate::proofs::LaterLemmas::delayed_too_late))]
pub fn run_nonblocking_after<V: Scoped>(
    frames: &mut Frames,
    alloc: Global,
    design: &Design,
    values: &V,
    out: &mut Vec<Effect>,
    spare: &mut Spare,
    targets: &[Lvalue],
    expr: &Expr,
    delay: &Expr,
    in_ticks: bool,
) -> Result<(), Stopped>
    requires { out.old.items ≡ [] }
    ensures does { Does design.now result frames.new out.new.items (value_in delay.now (V.view values.now) (λ n.
        value_in expr.now (V.view values.now) (λ x. from_result (defined.spots_of targets.now (V.view values.now))
        (updates (V.view values.now) (drop 1 (todos_of design.now frames.old)) targets.now x
        (delays.ticks_of in_ticks (eval.vector_in n) (V.view values.now)))))) }
    ensures kept { IsKept result frames.old frames.new }
{
    let n = value(alloc, values, delay)?;
    let x = value(alloc, values, expr)?;
    let places = spots_of(alloc, targets, values)?;
    let moment = moment_of(values, ticks_in(values, in_ticks, &n))?;
    let list = job_of(alloc, spare, targets, places, x)?;
    frames.leave_first(design)?;
    pass_with(
        frames,
        design,
        out,
        Effect::UpdateAt {
            time: moment,
            job: Job::Update(Seq::from_vec(list)),
        },
    )?;
    Ok(())
}
