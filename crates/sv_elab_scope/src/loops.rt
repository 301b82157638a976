// Declarations that need themselves, through any number of others (own).
ghost use Rattle.std.specs.Prelude.{◌≡◌, length, IfOk};
ghost use Rattle.sv_elab_scope.specs.Loops as loops;

use crate::ids::{RowId, among, push_if};
use std::alloc::Global;
use sv_value::{NoMemory, Seq};

/// A declaration that waits, with those that need it directly.
#[derive(Drop)]
pub struct Needed {
    /// The declaration.
    pub one: RowId,
    /// Those that need it.
    pub by: Seq<RowId>,
}

/// Declarations with one more, unless it is one of them.
fn with_one(id: RowId, found: Seq<RowId>) -> Result<Seq<RowId>, NoMemory>
    ensures { IfOk result (λ is. is ≡ loops.with_one id found) }
{
    if among(id, found.as_slice()) {
        return Ok(found);
    }
    let mut items = found.into_vec();
    items.insert(0, id)?;
    Ok(Seq::from_vec(items))
}

/// Declarations with several more, each once.
fn with_new(more: &[RowId], found: Seq<RowId>) -> Result<Seq<RowId>, NoMemory>
    ensures { IfOk result (λ is. is ≡ loops.with_new more.now found) }
{
    let mut found = found;
    for id in more {
        found = with_one(*id, found)?;
    }
    Ok(found)
}

/// Declarations with those that need one, where it is one of them.
fn with_needed(one: &Needed, found: Seq<RowId>) -> Result<Seq<RowId>, NoMemory>
    ensures { IfOk result (λ is. is ≡ loops.with_needed one.now found) }
{
    if among(one.one, found.as_slice()) {
        with_new(one.by.as_slice(), found)
    } else {
        Ok(found)
    }
}

/// Declarations with those that need one of them.
fn grown(needed: &[Needed], found: Seq<RowId>) -> Result<Seq<RowId>, NoMemory>
    ensures { IfOk result (λ is. is ≡ loops.grown needed.now found) }
{
    let mut found = found;
    for one in needed {
        found = with_needed(one, found)?;
    }
    Ok(found)
}

/// Declarations with those that need one of them, through as many others as wait. A step that adds none is the last one.
#[tactic(auto, using(crate::proofs::LoopLaws::reached_more, crate::proofs::LoopLaws::reached_all, crate::proofs::LoopLaws::reached_still))]
fn reached(needed: &[Needed], found: Seq<RowId>) -> Result<Seq<RowId>, NoMemory>
    ensures { IfOk result (λ is. is ≡ loops.reached needed.now (length needed.now) found) }
{
    let mut found = found;
    let mut left = needed.len();
    while 0 < left {
        left -= 1;
        let before = found.as_slice().len();
        found = grown(needed, found)?;
        if found.as_slice().len() == before {
            return Ok(found);
        }
    }
    Ok(found)
}

/// Whether a declaration needs itself.
fn is_in_loop(alloc: Global, needed: &[Needed], one: &Needed) -> Result<bool, NoMemory>
    ensures { IfOk result (λ b. b ≡ loops.is_in_loop needed.now one.now) }
{
    let by = Seq::from_vec(Vec::from_slice(alloc, one.by.as_slice())?);
    let found = reached(needed, by)?;
    Ok(among(one.one, found.as_slice()))
}

/// Those that need themselves.
pub fn in_loops(alloc: Global, needed: &[Needed]) -> Result<Seq<RowId>, NoMemory>
    ensures { IfOk result (λ is. is ≡ loops.in_loops needed.now needed.now) }
{
    let mut found = Seq::new(alloc);
    for one in needed {
        let is_looped = is_in_loop(alloc, needed, one)?;
        push_if(is_looped, one.one, &mut found)?;
    }
    Ok(found)
}
