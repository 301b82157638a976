// The rings of the next 256 moments.
ghost use Rattle.std.specs.Prelude.{◌≡◌, ◌≢◌, ◌≤◌, ◌<◌, ◌+◌, ◌%◌, ◌∷◌, ◌++◌, [], OnOk, OnErr, IfOk, IfSome, IfNone, length, filter, get_or, set, ℕ};
ghost use Rattle.sv_flat.specs.Effects.Ends.{not_due_to};
ghost use Rattle.sv_sched.specs.Rings.{ring_at, IsFirstNear};

use crate::queue::Queue;
use std::alloc::Global;
use sv_value::{Event, NoMemory, ProcessId};

/// 256 rings without events.
pub fn empty_rings(alloc: Global) -> Result<Vec<Queue>, NoMemory>
    ensures count { IfOk result (λ v. length v.items ≡ 256) }
    ensures empty { IfOk result (λ v. (i : ℕ) → get_or v.items i [] ≡ []) }
{
    let mut rings = Vec::new(alloc);
    for _ in 0..256usize {
        rings.push(Queue::new(alloc))?;
    }
    Ok(rings)
}

/// Where the ring of a moment stands.
fn place_of(time: u64) -> usize
    ensures { result ≡ time % 256 }
{
    (time % 256) as usize
}

/// Where the ring stands of the moment that comes so many ticks later.
fn place_after(time: u64, ticks: u64) -> usize
    requires { ticks < 256 }
    ensures { result ≡ (time + ticks) % 256 }
{
    ((time % 256 + ticks) % 256) as usize
}

/// The time of what stands first in the rings. Those after the latest moment that came into one are empty.
pub fn near_time(rings: &[Queue], last: u64, latest: u64) -> Option<u64>
    requires count { length rings.now ≡ 256 }
    requires beyond { (t : ℕ) → last ≤ t → t < last + 256 → latest < t → ring_at rings.now t ≡ [] }
    ensures found { IfSome result (λ t. IsFirstNear rings.now last t) }
    ensures none { IfNone result ((t : ℕ) → last ≤ t → t < last + 256 → ring_at rings.now t ≡ []) }
{
    for ticks in 0..256u64 {
        if latest.saturating_sub(last) < ticks {
            return None;
        }
        let ring = &rings[place_after(last, ticks)];
        if let Some(time) = ring.first_time() {
            return Some(time);
        }
    }
    None
}

/// An event comes into the ring of its moment, behind what is there.
pub fn push_near(rings: &mut Vec<Queue>, event: Event) -> Result<(), NoMemory>
    requires { length rings.old.items ≡ 256 }
    ensures ok { OnOk result (rings.new.items ≡ set rings.old.items (event.time % 256) (ring_at rings.old.items event.time ++ event ∷ [])) }
    ensures err { OnErr result (rings.new.items ≡ rings.old.items) }
{
    let ring = &mut rings[place_of(event.time)];
    ring.push(event)
}

/// The first event of the ring of a moment goes.
pub fn pop_near(rings: &mut Vec<Queue>, time: u64) -> Event
    requires count { length rings.old.items ≡ 256 }
    requires some { ring_at rings.old.items time ≢ [] }
    ensures first { ring_at rings.old.items time ≡ result ∷ ring_at rings.new.items time }
    ensures left { rings.new.items ≡ set rings.old.items (time % 256) (ring_at rings.new.items time) }
{
    let ring = &mut rings[place_of(time)];
    let Some(event) = ring.pop() else {
        unreachable!()
    };
    event
}

/// A queue takes the place of the ring of a moment.
pub fn put_near(rings: &mut Vec<Queue>, time: u64, queue: Queue)
    requires { length rings.old.items ≡ 256 }
    ensures { rings.new.items ≡ set rings.old.items (time % 256) queue }
{
    rings[place_of(time)] = queue;
}

/// What is scheduled in the rings to resume a process goes.
pub fn remove_near(rings: &mut Vec<Queue>, process: ProcessId)
    ensures count { length rings.new.items ≡ length rings.old.items }
    ensures left { (i : ℕ) → get_or rings.new.items i [] ≡ filter (not_due_to process) (get_or rings.old.items i []) }
{
    for i in 0..rings.len() {
        let ring = &mut rings[i];
        ring.remove(process);
    }
}
