// The store: what each object of a design holds.
ghost use Rattle.std.specs.Prelude.{◌≡◌, ◌≢◌, ◌<◌, ◌∷◌, [], ℕ, length, IfOk, IfSome, IfNone, OnOk, OnErr, None};
ghost use Rattle.std.specs.List.{AllByRecursion};
ghost use Rattle.sv_value.specs.declared.val.Val.TheVariants.{Bits as bits};
ghost use Rattle.sv_flat.specs.State.{value_at, Elements};
ghost use Rattle.sv_flat.specs.Effects.Writes.{changed_at, stored_over};
ghost use Rattle.sv_store.specs.First.{first_store, IsStorable};
ghost use Rattle.sv_store.specs.Objects.{stored_at, IsBits, HasElement, HasDriver};
ghost use Rattle.sv_store.specs.Overwrites.{held_before, value_before, IsOver, IsSame};
ghost use Rattle.sv_store.specs.declared.change.Spot.TheVariants.{Object as object_spot};

use crate::change::{Change, Overwritten, Spot};
use crate::slot::Slot;
use std::alloc::Global;
use std::marker::Model;
use sv_flat::Object;
use sv_value::{Bits, NoMemory, ObjId, Range, Val};

/// What the objects of a design hold, by number.
#[derive(Drop)]
pub struct Store {
    slots: Vec<Slot>,
}

impl Model for Store {
    ghost use Rattle.sv_flat.specs.State.{Store as StoreOfObjects};

    ghost Value = { StoreOfObjects };

    ghost view = { λ s. s.slots.items };
}

impl Store {
    /// Each object with the first value of its type (IEEE 1800-2017, 6.8): x or 0 in each bit, the empty string, null; an
    /// event has the key 0, and a container, a mailbox and a semaphore are null, until the opening of a run makes them.
    /// Each driver of a net gives z (6.6.1).
    pub fn new(alloc: Global, objects: &[Object]) -> Result<Store, NoMemory>
        requires { AllByRecursion IsStorable objects.now }
        ensures { IfOk result (λ s. s ≡ first_store objects.now) }
    {
        let mut slots = Vec::new(alloc);
        for object in objects {
            slots.push(Slot::new(alloc, object)?)?;
        }
        Ok(Store { slots })
    }

    /// The vector that an element of a variable holds, or the value of a net, of an integral type.
    pub fn value(&self, o: ObjId, i: u32) -> Bits
        requires { IsBits (value_at self.now o i) }
        ensures { value_at self.now o i ≡ bits result }
    {
        match self.slots.get(o.0 as usize) {
            Some(slot) => slot.value(i),
            None => unreachable!(),
        }
    }

    /// Writes an element of a variable of an integral type.
    pub fn set(&mut self, o: ObjId, i: u32, v: Bits) -> Change
        requires { HasElement (stored_at self.old o) i }
        ensures new { self.new ≡ changed_at self.old o.0 (stored_over i None (bits v)) }
        ensures change { result ≡ record { spot = object_spot o; index = i; old = value_at self.old o i; new = value_at self.new o i } }
    {
        let old = set_at(&mut self.slots, o, i, Val::Bits(v));
        Change {
            spot: Spot::Object(o),
            index: i,
            old,
            new: Val::Bits(v),
        }
    }

    /// Writes a driver of a net, and tells how the value of the net changed.
    pub fn drive(&mut self, o: ObjId, driver: u32, v: Bits) -> Change
        requires { HasDriver (stored_at self.old o) driver (length v.symbols) }
        ensures new { self.new ≡ changed_at self.old o.0 (stored_over driver None (bits v)) }
        ensures change { result ≡ record { spot = object_spot o; index = 0; old = value_at self.old o 0; new = value_at self.new o 0 } }
    {
        let (old, new) = drive_at(&mut self.slots, o, driver, v);
        Change {
            spot: Spot::Object(o),
            index: 0,
            old: Val::Bits(old),
            new: Val::Bits(new),
        }
    }

    /// What an element of a variable holds.
    pub fn cell(&self, o: ObjId, i: u32) -> &Val
        requires { HasElement (stored_at self.now o) i }
        ensures { result.now ≡ value_at self.now o i }
    {
        match self.slots.get(o.0 as usize) {
            Some(slot) => slot.element(i),
            None => unreachable!(),
        }
    }

    /// Writes an element of a variable, and hands its old value back.
    pub fn set_cell(&mut self, o: ObjId, i: u32, v: Val) -> Val
        requires { HasElement (stored_at self.old o) i }
        ensures new { self.new ≡ changed_at self.old o.0 (stored_over i None v) }
        ensures old { result ≡ value_at self.old o i }
    {
        set_at(&mut self.slots, o, i, v)
    }

    /// What an element of a variable holds, or the value of a net; a null reference where there is no such element.
    pub fn read(&self, alloc: Global, o: ObjId, i: u64) -> Result<Val, NoMemory>
        ensures { IfOk result (λ v. v ≡ value_at self.now o i) }
    {
        match self.slots.get(o.0 as usize) {
            Some(slot) => slot.read(alloc, i),
            None => Ok(Val::Object(None)),
        }
    }

    /// What an element of the object that was overwritten held before the write, or what the net was.
    pub fn read_before(
        &self,
        alloc: Global,
        overwritten: &Overwritten,
        i: u64,
    ) -> Result<Val, NoMemory>
        ensures { IfOk result (λ v. v ≡ value_before overwritten.now self.now i) }
    {
        match self.slots.get(overwritten.object.0 as usize) {
            Some(slot) => slot.read_before(alloc, overwritten.element, &overwritten.old, i),
            None => missing_before(alloc, overwritten, i),
        }
    }

    /// Writes an element of a variable, or a driver of a net, or a part of it (IEEE 1800-2017, 10.4 and 11.5.1), and tells what was
    /// overwritten, where a value is another one then. Nothing changes where there is no such element. Memory is wanting where a whole
    /// driver has another width than the net, which no driver of an elaborated design has.
    pub fn write(
        &mut self,
        o: ObjId,
        i: u32,
        part: Option<Range>,
        value: Val,
    ) -> Result<Option<Overwritten>, NoMemory>
        ensures new { OnOk result (self.new ≡ changed_at self.old o.0 (stored_over i part value)) }
        ensures err { OnErr result (self.new ≡ self.old) }
        ensures object { IfOk result (λ r. IfSome r (λ w. w.object ≡ o)) }
        ensures some { IfOk result (λ r. IfSome r (λ w. (j : ℕ) → value_at self.old o j ≡ value_before w self.new j)) }
        ensures differs { IfOk result (λ r. IfSome r (λ w. w.old ≢ value_at self.new o w.element)) }
        ensures none { IfOk result (λ r. IfNone r ((j : ℕ) → value_at self.new o j ≡ value_at self.old o j)) }
    {
        match write_at(&mut self.slots, o, i, part, value) {
            Ok(Some(old)) => Ok(Some(Overwritten {
                object: o,
                element: i,
                old,
            })),
            Ok(None) => Ok(None),
            Err(e) => Err(e),
        }
    }

    /// A variable has this one element now.
    pub fn set_first(&mut self, alloc: Global, o: ObjId, value: Val) -> Result<(), NoMemory>
        ensures new { OnOk result (self.new ≡ changed_at self.old o.0 (λ _. Elements (value ∷ []))) }
        ensures err { OnErr result (self.new ≡ self.old) }
    {
        let slot = Slot::single(alloc, value)?;
        put_slot(&mut self.slots, o, slot);
        Ok(())
    }
}

/// The same of an object that is not there, which no write makes.
fn missing_before(alloc: Global, overwritten: &Overwritten, i: u64) -> Result<Val, NoMemory>
    ensures { IfOk result (λ v. v ≡ held_before (Elements []) overwritten.now.element overwritten.now.old i) }
{
    if i == u64::from(overwritten.element) {
        overwritten.old.copy(alloc)
    } else {
        Ok(Val::Object(None))
    }
}

/// Puts an object in the place of another one.
fn put_slot(slots: &mut Vec<Slot>, o: ObjId, slot: Slot)
    ensures { slots.new.items ≡ changed_at slots.old.items o.0 (λ _. slot) }
{
    if (o.0 as usize) < slots.len() {
        slots[o.0 as usize] = slot;
    }
}

/// Writes an element or a driver, or a part of it, and hands an old value back that is another one.
fn write_at(
    slots: &mut Vec<Slot>,
    o: ObjId,
    i: u32,
    part: Option<Range>,
    value: Val,
) -> Result<Option<Val>, NoMemory>
    ensures new { OnOk result (slots.new.items ≡ changed_at slots.old.items o.0 (stored_over i part value)) }
    ensures err { OnErr result (slots.new.items ≡ slots.old.items) }
    ensures some { IfOk result (λ r. IfSome r (λ old. IsOver (stored_at slots.old.items o) (stored_at slots.new.items o) i old)) }
    ensures differs { IfOk result (λ r. IfSome r (λ old. old ≢ value_at slots.new.items o i)) }
    ensures none { IfOk result (λ r. IfNone r (IsSame (stored_at slots.old.items o) (stored_at slots.new.items o))) }
{
    if o.0 as usize >= slots.len() {
        return Ok(None);
    }
    write_in(slots, o, i, part, value)
}

/// The same of an object that is there.
fn write_in(
    slots: &mut Vec<Slot>,
    o: ObjId,
    i: u32,
    part: Option<Range>,
    value: Val,
) -> Result<Option<Val>, NoMemory>
    requires { o.0 < length slots.old.items }
    ensures new { OnOk result (slots.new.items ≡ changed_at slots.old.items o.0 (stored_over i part value)) }
    ensures err { OnErr result (slots.new.items ≡ slots.old.items) }
    ensures some { IfOk result (λ r. IfSome r (λ old. IsOver (stored_at slots.old.items o) (stored_at slots.new.items o) i old)) }
    ensures differs { IfOk result (λ r. IfSome r (λ old. old ≢ value_at slots.new.items o i)) }
    ensures none { IfOk result (λ r. IfNone r (IsSame (stored_at slots.old.items o) (stored_at slots.new.items o))) }
{
    let slot = &mut slots[o.0 as usize];
    slot.write(i, part, value)
}

/// Writes an element of a variable, and hands its old value back.
fn set_at(slots: &mut Vec<Slot>, o: ObjId, i: u32, v: Val) -> Val
    requires { HasElement (stored_at slots.old.items o) i }
    ensures new { slots.new.items ≡ changed_at slots.old.items o.0 (stored_over i None v) }
    ensures old { result ≡ value_at slots.old.items o i }
    ensures now { value_at slots.new.items o i ≡ v }
{
    let slot = &mut slots[o.0 as usize];
    slot.set(i, v)
}

/// Writes a driver of a net, and gives the value of the net before and after.
fn drive_at(slots: &mut Vec<Slot>, o: ObjId, driver: u32, v: Bits) -> (Bits, Bits)
    requires { HasDriver (stored_at slots.old.items o) driver (length v.symbols) }
    ensures new { slots.new.items ≡ changed_at slots.old.items o.0 (stored_over driver None (bits v)) }
    ensures before { value_at slots.old.items o 0 ≡ bits result.0 }
    ensures after { value_at slots.new.items o 0 ≡ bits result.1 }
{
    let slot = &mut slots[o.0 as usize];
    slot.drive(driver, v)
}
