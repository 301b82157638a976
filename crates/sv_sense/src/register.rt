// Putting a process among the watchers of objects, and among those of variables of activations.
ghost use Rattle.std.specs.Prelude.{◌≡◌, ◌≤◌, OnOk, List, true, slice_index_or};
ghost use Rattle.sv_value.specs.declared.number.ProcessId.{ProcessId as process_id};
ghost use Rattle.sv_flat.specs.Effects.{is_in};
ghost use Rattle.sv_sense.specs.Scoped.{IsStaticWait};
ghost use Rattle.sv_sense.specs.Watchers.{Grows, Registered};

use crate::scoped::is_static;
use crate::watchers::Watchers;
use sv_built::{Design, Wait};
use sv_value::{NoMemory, ObjId, ProcessId};

/// Puts a process among the watchers of an object.
#[tactic(auto, using(crate::proofs::RegisterLaws::grows_self))]
fn register_one(
    lists: &mut Vec<Watchers>,
    process: ProcessId,
    object: ObjId,
) -> Result<(), NoMemory>
    ensures ok { OnOk result ((all : List process_id) → is_in process all ≡ true
        → is_in process (slice_index_or lists.new.items object.0 all) ≡ true) }
    ensures grows { Grows lists.old.items lists.new.items }
{
    let place = object.0 as usize;
    if place < lists.len() {
        return lists[place].add(process);
    }
    Ok(())
}

/// Puts a process among the watchers of objects.
#[tactic(auto, using(crate::proofs::RegisterLaws::grows_self))]
pub(crate) fn register(
    lists: &mut Vec<Watchers>,
    process: ProcessId,
    objects: &[ObjId],
) -> Result<(), NoMemory>
    ensures ok { OnOk result ((all : List process_id) → is_in process all ≡ true
        → Registered process objects.now lists.new.items all) }
    ensures grows { Grows lists.old.items lists.new.items }
{
    let mut left = objects;
    while let [one, rest @ ..] = left {
        register_one(lists, process, *one)?;
        left = rest;
    }
    Ok(())
}

/// Puts a process among those that watch variables of activations, unless what it will wait for is static.
pub(crate) fn register_scoped(
    scoped: &mut Watchers,
    design: &Design,
    process: ProcessId,
    wait: Wait,
) -> Result<(), NoMemory>
    ensures ok { OnOk result ((IsStaticWait design.now wait → ⊥) → is_in process scoped.new ≡ true) }
    ensures kept { (p : process_id) → is_in p scoped.old ≡ true → is_in p scoped.new ≡ true }
{
    if is_static(design, wait) {
        return Ok(());
    }
    scoped.add(process)
}
