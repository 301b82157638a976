// The moments after those in the rings, each with its queue.
ghost use Rattle.std.specs.Prelude.{◌≡◌, ◌≢◌, ◌<◌, ◌+◌, ◌∷◌, ◌++◌, [], OnOk, OnErr, IfSome, IfNone, length, Some, None, ℕ, List};
ghost use Rattle.std.specs.Ordering.{nat_cmp};
ghost use Rattle.std.specs.BTreeMap.{get};
ghost use Rattle.sv_value.specs.declared.schedule.Event.{Event as EventValue};
ghost use Rattle.sv_flat.specs.Steps.{least_time};
ghost use Rattle.sv_sched.specs.Rings.{in_queue, left_in, IsKept};

use crate::queue::Queue;
use crate::rings::put_near;
use std::alloc::Global;
use std::collections::BTreeMap;
use sv_value::{Event, NoMemory, ProcessId};

/// The first moment of the map.
pub fn first_later(later: &BTreeMap<u64, Queue>) -> Option<u64>
    ensures there { IfSome result (λ t. get nat_cmp later.now t ≢ None) }
    ensures least { IfSome result (λ t. (u : ℕ) → u < t → get nat_cmp later.now u ≡ None) }
    ensures none { IfNone result ((t : ℕ) → get nat_cmp later.now t ≡ None) }
{
    match later.first_key_value() {
        Some((time, _)) => Some(*time),
        None => None,
    }
}

/// The first moment of the map, if it is one of the 256 from this time on.
fn first_near(later: &BTreeMap<u64, Queue>, time: u64) -> Option<u64>
    ensures there { IfSome result (λ t. get nat_cmp later.now t ≢ None) }
    ensures within { IfSome result (λ t. t < time + 256) }
    ensures none { IfNone result ((t : ℕ) → t < time + 256 → get nat_cmp later.now t ≡ None) }
{
    let first = first_later(later)?;
    if first.saturating_sub(time) < 256 {
        return Some(first);
    }
    None
}

/// An event comes into the queue of its moment, behind what is there.
pub fn push_later(
    later: &mut BTreeMap<u64, Queue>,
    alloc: Global,
    event: Event,
) -> Result<(), NoMemory>
    ensures here { OnOk result (get nat_cmp later.new event.time ≡ Some (in_queue (get nat_cmp later.old event.time) ++ event ∷ [])) }
    ensures others { OnOk result ((t : ℕ) → t ≢ event.time → get nat_cmp later.new t ≡ get nat_cmp later.old t) }
    ensures err { OnErr result ((t : ℕ) → get nat_cmp later.new t ≡ get nat_cmp later.old t) }
{
    let time = event.time;
    if let Some(queue) = later.get_mut(&time) {
        return queue.push(event);
    }
    let mut queue = Queue::new(alloc);
    queue.push(event)?;
    later.insert(time, queue)?;
    Ok(())
}

/// The moments of the map that are among the 256 from this time on, which is the least, come into the rings. What was added
/// for such a moment while it was far stands there before what comes directly. Gives the latest moment of the rings.
pub fn come_near(
    rings: &mut Vec<Queue>,
    latest: u64,
    later: &mut BTreeMap<u64, Queue>,
    time: u64,
) -> u64
    requires { length rings.old.items ≡ 256 }
    ensures kept { (last : ℕ) (es : List EventValue) → IsKept rings.old.items latest (get nat_cmp later.old) last es
        → least_time es ≡ Some time → IsKept rings.new.items result (get nat_cmp later.new) time es }
    ensures count { length rings.new.items ≡ 256 }
{
    let mut reached = latest;
    while let Some(moment) = first_near(later, time) {
        let Some(queue) = later.remove(&moment) else {
            unreachable!()
        };
        put_near(rings, moment, queue);
        reached = reached.max(moment);
    }
    reached
}

/// What is scheduled in the map to resume a process goes, and the queues that are empty then.
pub fn remove_later(later: &mut BTreeMap<u64, Queue>, process: ProcessId)
    ensures { (t : ℕ) → get nat_cmp later.new t ≡ left_in process (get nat_cmp later.old t) }
{
    later.retain(|_, queue| {
        queue.remove(process);
        true
    });
    later.retain(|_, queue| !queue.is_empty());
}
