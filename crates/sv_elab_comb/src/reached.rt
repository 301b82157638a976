// The routines that a procedure runs through calls (IEEE 1800-2017, 9.2.2.2.1).
ghost use Rattle.std.specs.Prelude.{◌≡◌, ◌∷◌, [], ◌++◌, flat_map, IfOk, OnOk};
ghost use Rattle.sv_flat.specs.Names as names;
ghost use Rattle.sv_elab_comb.specs.Standing.{reached_once};

use crate::calls::add_called_in;
use std::alloc::Global;
use sv_flat::Parts;
use sv_value::{NoMemory, RoutineId, Seq};

/// Whether a routine stands among others.
fn is_listed(id: RoutineId, ids: &[RoutineId]) -> bool
    ensures { result ≡ names.is_listed id ids.now }
{
    for one in ids {
        if id.0 == one.0 {
            return true;
        }
    }
    false
}

/// Appends a routine that is new.
fn add_new(id: RoutineId, ids: &mut Seq<RoutineId>) -> Result<(), NoMemory>
    ensures { OnOk result (ids.new ≡ names.with_new ids.old (id ∷ [])) }
{
    if is_listed(id, ids.as_slice()) {
        return Ok(());
    }
    ids.push(id)
}

/// Appends the routines that are new.
#[tactic(auto, using(crate::proofs::ReachedLaws::new_first))]
fn add_all_new(more: &[RoutineId], ids: &mut Seq<RoutineId>) -> Result<(), NoMemory>
    ensures { OnOk result (ids.new ≡ names.with_new ids.old more.now) }
{
    let mut left = more;
    while let [one, rest @ ..] = left {
        add_new(*one, ids)?;
        left = rest;
    }
    Ok(())
}

/// The routines that routines call.
#[tactic(auto, using(crate::proofs::StandingLaws::turn_behind, crate::proofs::StandingLaws::all_behind))]
fn called_from(
    alloc: Global,
    parts: &Parts,
    callers: &[RoutineId],
) -> Result<Seq<RoutineId>, NoMemory>
    ensures { IfOk result (λ rs. rs ≡ flat_map (names.called_in parts.now) callers.now) }
{
    let mut ids = Seq::new(alloc);
    let mut left = callers;
    while let [one, rest @ ..] = left {
        add_called_in(alloc, parts, *one, &mut ids)?;
        left = rest;
    }
    Ok(ids)
}

/// With the routines that are reached in one more call.
fn add_round(alloc: Global, parts: &Parts, ids: &mut Seq<RoutineId>) -> Result<(), NoMemory>
    ensures { OnOk result (ids.new ≡ reached_once parts.now ids.old) }
{
    let called = called_from(alloc, parts, ids.as_slice())?;
    add_all_new(called.as_slice(), ids)
}

/// The routines that are reached from some. The rounds end where one finds nothing new.
fn reached_from(
    alloc: Global,
    parts: &Parts,
    first: Seq<RoutineId>,
) -> Result<Seq<RoutineId>, NoMemory>
    ensures { IfOk result (λ rs. rs ≡ names.called_within (names.depth_of parts.now) parts.now first) }
{
    let mut ids = first;
    let mut left = parts.routines.as_slice().len();
    while left > 0 {
        let before = ids.as_slice().len();
        add_round(alloc, parts, &mut ids)?;
        if ids.as_slice().len() == before {
            return Ok(ids);
        }
        left -= 1;
    }
    Ok(ids)
}

/// Appends routines.
#[tactic(auto, using(crate::proofs::StandingLaws::turn_one, crate::proofs::StandingLaws::all_behind))]
fn push_all(more: &[RoutineId], ids: &mut Seq<RoutineId>) -> Result<(), NoMemory>
    ensures { OnOk result (ids.new ≡ ids.old ++ more.now) }
{
    let mut left = more;
    while let [one, rest @ ..] = left {
        ids.push(*one)?;
        left = rest;
    }
    Ok(())
}

/// A routine with those that it may call.
pub(crate) fn reached(
    alloc: Global,
    parts: &Parts,
    id: RoutineId,
) -> Result<Seq<RoutineId>, NoMemory>
    ensures { IfOk result (λ rs. rs ≡ names.reached parts.now id) }
{
    let mut called = Seq::new(alloc);
    add_called_in(alloc, parts, id, &mut called)?;
    let mut first = Seq::new(alloc);
    add_all_new(called.as_slice(), &mut first)?;
    let behind = reached_from(alloc, parts, first)?;
    let mut ids = Seq::new(alloc);
    ids.push(id)?;
    push_all(behind.as_slice(), &mut ids)?;
    Ok(ids)
}
