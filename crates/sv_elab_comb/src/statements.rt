// The statements of a routine, with all that stand in them (IEEE 1800-2017, 9.3 and 12).
ghost use Rattle.std.specs.Prelude.{◌≡◌, ◌++◌, flat_map, map, IfOk, OnOk};
ghost use Rattle.sv_flat.specs.Names.{inner_routines, forked, stmts_with_forks};
ghost use Rattle.sv_flat.specs.Process.{routine_of};
ghost use Rattle.sv_elab_comb.specs.Standing.{Found, stmts_in};

use std::alloc::Global;
use sv_elab_watch::inner_of;
use sv_flat::{Parts, Stmt};
use sv_value::{NoMemory, RoutineId, Seq};

/// The statements of a routine; none where there is no such routine.
#[tactic(auto, using(crate::proofs::StandingLaws::body_at, crate::proofs::StandingLaws::body_past))]
pub(crate) fn body_of<'a>(parts: &'a Parts, id: RoutineId) -> &'a [Stmt]
    ensures { result.now ≡ (routine_of parts.now id).body }
{
    let routines = parts.routines.as_slice();
    let place = id.0 as usize;
    if place < routines.len() {
        return routines[place].body.as_slice();
    }
    &[]
}

/// Appends the statements of a routine and of those that stand in it, so many levels deep.
#[cycle(within)]
#[tactic(auto, using(crate::proofs::StandingLaws::no_level, crate::proofs::StandingLaws::level_more))]
fn add_within<'a>(
    alloc: Global,
    parts: &'a Parts,
    levels: usize,
    id: RoutineId,
    list: &mut Seq<&'a Stmt>,
) -> Result<(), NoMemory>
    ensures { OnOk result (Found list.old list.new (stmts_with_forks levels parts.now id)) }
{
    if levels == 0 {
        return Ok(());
    }
    add_statements(alloc, parts, levels - 1, body_of(parts, id), list)
}

/// Appends statements, each with those that stand in it, so many levels deep.
#[cycle(within)]
#[tactic(auto, using(crate::proofs::StandingLaws::turn_found, crate::proofs::StandingLaws::one_found, crate::proofs::StandingLaws::all_found))]
fn add_statements<'a>(
    alloc: Global,
    parts: &'a Parts,
    levels: usize,
    statements: &'a [Stmt],
    list: &mut Seq<&'a Stmt>,
) -> Result<(), NoMemory>
    ensures { OnOk result (Found list.old list.new (stmts_in levels parts.now statements.now)) }
{
    let mut left = statements;
    while let [one, rest @ ..] = left {
        list.push(one)?;
        let ids = inner_of(alloc, &one.form)?;
        add_routines(alloc, parts, levels, ids.as_slice(), list)?;
        left = rest;
    }
    Ok(())
}

/// Appends the statements of routines and of those that stand in them, so many levels deep.
#[cycle(within)]
#[tactic(auto, using(crate::proofs::StandingLaws::turn_found, crate::proofs::StandingLaws::all_found))]
fn add_routines<'a>(
    alloc: Global,
    parts: &'a Parts,
    levels: usize,
    ids: &[RoutineId],
    list: &mut Seq<&'a Stmt>,
) -> Result<(), NoMemory>
    ensures { OnOk result (Found list.old list.new (flat_map (stmts_with_forks levels parts.now) ids.now)) }
{
    let mut left = ids;
    while let [one, rest @ ..] = left {
        add_within(alloc, parts, levels, *one, list)?;
        left = rest;
    }
    Ok(())
}

/// The statements of a routine and of those that stand in it, so many levels deep.
pub(crate) fn statements_of<'a>(
    alloc: Global,
    parts: &'a Parts,
    levels: usize,
    id: RoutineId,
) -> Result<Seq<&'a Stmt>, NoMemory>
    ensures { IfOk result (λ ss. map (λ s. s.now) ss ≡ stmts_with_forks levels parts.now id) }
{
    let mut list = Seq::new(alloc);
    add_within(alloc, parts, levels, id, &mut list)?;
    Ok(list)
}
