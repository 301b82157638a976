// What one object holds.
ghost use Rattle.std.specs.Prelude.{◌≡◌, ◌≢◌, ◌<◌, ◌≤◌, ◌∷◌, [], ℕ, false, length, replicate, slice_index_or, IfOk, IfSome, IfNone, OnOk, OnErr, None};
ghost use Rattle.std.specs.List.{AllByRecursion};
ghost use Rattle.sv_value.specs.declared.val.Val.TheVariants.{Bits as bits};
ghost use Rattle.sv_value.specs.declared.word.Sym.TheVariants.{Z};
ghost use Rattle.sv_value.specs.declared.word.TheConstants.{WIDEST};
ghost use Rattle.sv_value.specs.Vector.{vector};
ghost use Rattle.sv_flat.specs.State.{element_of, first_value, net_value, no_value};
ghost use Rattle.sv_flat.specs.State.{Elements as Elements_held, Net as Net_held};
ghost use Rattle.sv_flat.specs.Opening.{stored};
ghost use Rattle.sv_flat.specs.Effects.Writes.{changed_at, stored_over, value_over, vector_over};
ghost use Rattle.sv_flat.specs.Eval.{type_width};
ghost use Rattle.sv_flat.specs.Contexts.{IsWidth};
ghost use Rattle.sv_store.specs.First.{IsStorable};
ghost use Rattle.sv_store.specs.Objects.{IsBits, IsWide, HasElement, HasDriver};
ghost use Rattle.sv_store.specs.Overwrites.{held_before, IsOver, IsSame};

use crate::first::{element_count, first_elements};
use crate::net::{resolved_value, undriven};
use crate::part::{value_over, vector_over};
use std::alloc::Global;
use std::marker::Model;
use std::mem::replace;
use sv_flat::{DataType, Object, ObjectKind};
use sv_value::{Bits, NoMemory, Plain, Range, Val};

/// The elements of a variable; or the width of a net, a vector for each of its drivers, and what they resolve to.
#[derive(Drop)]
pub enum Form {
    Elements(Vec<Val>),
    Net {
        width: u32,
        drivers: Vec<Bits>,
        value: Bits,
    },
}

/// What an object holds.
#[derive(Drop)]
pub struct Slot {
    form: Form,
}

impl Model for Slot {
    ghost use Rattle.sv_flat.specs.State.{Stored};
    ghost use Rattle.sv_store.specs.Forms.{stored_in, IsKept};

    ghost Value = { Stored };

    ghost view = { λ s. stored_in s.form };

    ghost invariant = { λ s. IsKept s.form };
}

/// The width of a type, 0 where it has none.
fn width_of(ty: DataType) -> u32
    ensures { result ≡ type_width ty }
{
    match ty {
        DataType::Plain(Plain::Integral(integral)) => integral.width,
        _ => 0,
    }
}

impl Slot {
    /// An object with its first value.
    pub fn new(alloc: Global, object: &Object) -> Result<Slot, NoMemory>
        requires { IsStorable object.now }
        ensures { IfOk result (λ s. s ≡ stored object.now (first_value object.now.ty)) }
    {
        match object.kind {
            ObjectKind::Net(count) => Slot::net(alloc, width_of(object.ty), count),
            _ => {
                let count = element_count(object.array);
                let elements = first_elements(alloc, object.ty, count)?;
                Ok(Slot {
                    form: Form::Elements(elements),
                })
            }
        }
    }

    /// A net with so many drivers, each of which gives z.
    fn net(alloc: Global, width: u32, count: u32) -> Result<Slot, NoMemory>
        requires { IsWidth width }
        ensures { IfOk result (λ s. s ≡ Net_held width (replicate count (vector false (replicate width Z)))) }
    {
        let mut drivers = Vec::new(alloc);
        for i in 0..count {
            drivers.push(undriven(width))?;
        }
        let value = resolved_value(width, &drivers);
        Ok(Slot {
            form: Form::Net {
                width,
                drivers,
                value,
            },
        })
    }

    /// The vector that an element of a variable holds, or the value of a net.
    pub fn value(&self, i: u32) -> Bits
        requires { IsBits (element_of self.now i) }
        ensures { element_of self.now i ≡ bits result }
    {
        match &self.form {
            Form::Elements(elements) => match elements.get(i as usize) {
                Some(Val::Bits(value)) => *value,
                _ => unreachable!(),
            },
            Form::Net { value, .. } => *value,
        }
    }

    /// What an element of a variable holds.
    pub fn element(&self, i: u32) -> &Val
        requires { HasElement self.now i }
        ensures { result.now ≡ element_of self.now i }
    {
        match &self.form {
            Form::Elements(elements) => &elements[i as usize],
            Form::Net { .. } => unreachable!(),
        }
    }

    /// Writes an element of a variable, and hands its old value back.
    pub fn set(&mut self, i: u32, value: Val) -> Val
        requires { HasElement self.old i }
        ensures new { self.new ≡ stored_over i None value self.old }
        ensures old { result ≡ element_of self.old i }
        ensures now { element_of self.new i ≡ value }
    {
        match &mut self.form {
            Form::Elements(elements) => replace_at(elements, i, value),
            Form::Net { .. } => unreachable!(),
        }
    }

    /// Writes a driver of a net, and gives the value of the net before and after.
    pub fn drive(&mut self, driver: u32, given: Bits) -> (Bits, Bits)
        requires { HasDriver self.old driver (length given.symbols) }
        ensures new { self.new ≡ stored_over driver None (bits given) self.old }
        ensures before { element_of self.old 0 ≡ bits result.0 }
        ensures after { element_of self.new 0 ≡ bits result.1 }
    {
        match &mut self.form {
            Form::Net {
                width,
                drivers,
                value,
            } => {
                let before = *value;
                let after = driven_value(*width, drivers, driver, given);
                *value = after;
                (before, after)
            }
            Form::Elements(_) => unreachable!(),
        }
    }

    /// An object with a single element.
    pub fn single(alloc: Global, value: Val) -> Result<Slot, NoMemory>
        ensures { IfOk result (λ s. s ≡ Elements_held (value ∷ [])) }
    {
        let mut elements = Vec::new(alloc);
        elements.push(value)?;
        Ok(Slot {
            form: Form::Elements(elements),
        })
    }

    /// What an element holds, or the value of a net; a null reference where there is no such element.
    pub fn read(&self, alloc: Global, i: u64) -> Result<Val, NoMemory>
        ensures { IfOk result (λ v. v ≡ element_of self.now i) }
    {
        match &self.form {
            Form::Elements(elements) => copy_at(alloc, elements, i),
            Form::Net { value, .. } => Ok(Val::Bits(*value)),
        }
    }

    /// What an element held before its element i, or a driver, was written over this old value.
    pub fn read_before(&self, alloc: Global, i: u32, old: &Val, j: u64) -> Result<Val, NoMemory>
        ensures { IfOk result (λ v. v ≡ held_before self.now i old.now j) }
    {
        match &self.form {
            Form::Elements(elements) => {
                if j == u64::from(i) {
                    old.copy(alloc)
                } else {
                    copy_at(alloc, elements, j)
                }
            }
            Form::Net { .. } => old.copy(alloc),
        }
    }

    /// Writes an element, or a driver of a net, or a part of it. Where the element or the value of the net is another one then, hands
    /// the old value back. Memory is wanting where a whole driver has another width than the net.
    pub fn write(
        &mut self,
        i: u32,
        part: Option<Range>,
        value: Val,
    ) -> Result<Option<Val>, NoMemory>
        ensures new { OnOk result (self.new ≡ stored_over i part value self.old) }
        ensures err { OnErr result (self.new ≡ self.old) }
        ensures some { IfOk result (λ o. IfSome o (λ old. IsOver self.old self.new i old)) }
        ensures differs { IfOk result (λ o. IfSome o (λ old. old ≢ element_of self.new i)) }
        ensures none { IfOk result (λ o. IfNone o (IsSame self.old self.new)) }
    {
        match &mut self.form {
            Form::Elements(elements) => Ok(write_element(elements, i, part, value)),
            Form::Net {
                width,
                drivers,
                value: kept,
            } => write_driver(*width, drivers, kept, i, part, value),
        }
    }
}

/// What stands at a place; a null reference where nothing does.
fn copy_at(alloc: Global, elements: &[Val], i: u64) -> Result<Val, NoMemory>
    ensures { IfOk result (λ v. v ≡ slice_index_or elements.now i no_value) }
{
    match elements.get(i as usize) {
        Some(value) => value.copy(alloc),
        None => Ok(Val::Object(None)),
    }
}

/// Writes an element that is there, and hands its old value back where that is another one.
fn put_element(elements: &mut Vec<Val>, i: u32, value: Val) -> Option<Val>
    requires { i < length elements.old.items }
    ensures new { elements.new.items ≡ changed_at elements.old.items i (λ _. value) }
    ensures some { IfSome result (λ old. IsOver (Elements_held elements.old.items) (Elements_held elements.new.items) i old) }
    ensures differs { IfSome result (λ old. old ≢ slice_index_or elements.new.items i no_value) }
    ensures none { IfNone result (IsSame (Elements_held elements.old.items) (Elements_held elements.new.items)) }
{
    let old = replace_at(elements, i, value);
    if old.equals(&elements[i as usize]) {
        None
    } else {
        Some(old)
    }
}

/// Writes an element, or a part of it, and hands its old value back where that is another one.
fn write_element(elements: &mut Vec<Val>, i: u32, part: Option<Range>, value: Val) -> Option<Val>
    ensures new { elements.new.items ≡ changed_at elements.old.items i (λ v. value_over v part value) }
    ensures some { IfSome result (λ old. IsOver (Elements_held elements.old.items) (Elements_held elements.new.items) i old) }
    ensures differs { IfSome result (λ old. old ≢ slice_index_or elements.new.items i no_value) }
    ensures none { IfNone result (IsSame (Elements_held elements.old.items) (Elements_held elements.new.items)) }
{
    if i as usize >= elements.len() {
        return None;
    }
    match value_over(&elements[i as usize], part, value) {
        None => None,
        Some(value) => put_element(elements, i, value),
    }
}

/// Writes a driver of a net, or a part of it, and hands the old value of the net back where that is another one. Memory is wanting
/// where the driver would have another width.
fn write_driver(
    width: u32,
    drivers: &mut Vec<Bits>,
    kept: &mut Bits,
    i: u32,
    part: Option<Range>,
    value: Val,
) -> Result<Option<Val>, NoMemory>
    requires at_least_one { 1 ≤ width }
    requires fits { width ≤ WIDEST }
    requires each_wide { AllByRecursion (IsWide width) drivers.old.items }
    requires resolved { kept.old ≡ net_value width drivers.old.items }
    ensures new { OnOk result (drivers.new.items ≡ changed_at drivers.old.items i (λ v. vector_over v part value)) }
    ensures err { OnErr result (drivers.new.items ≡ drivers.old.items) }
    ensures each_wide { AllByRecursion (IsWide width) drivers.new.items }
    ensures resolved { kept.new ≡ net_value width drivers.new.items }
    ensures some { IfOk result (λ o. IfSome o (λ old. bits (net_value width drivers.old.items) ≡ old)) }
    ensures differs { IfOk result (λ o. IfSome o (λ old. old ≢ bits (net_value width drivers.new.items))) }
    ensures none { IfOk result (λ o. IfNone o (net_value width drivers.new.items ≡ net_value width drivers.old.items)) }
{
    if i as usize >= drivers.len() {
        return Ok(None);
    }
    match vector_over(drivers[i as usize], part, &value) {
        None => Ok(None),
        Some(given) => put_driver(width, drivers, kept, i, given),
    }
}

/// Writes a driver that is there, and hands the old value of the net back where that is another one.
fn put_driver(
    width: u32,
    drivers: &mut Vec<Bits>,
    kept: &mut Bits,
    i: u32,
    given: Bits,
) -> Result<Option<Val>, NoMemory>
    requires at_least_one { 1 ≤ width }
    requires fits { width ≤ WIDEST }
    requires there { i < length drivers.old.items }
    requires each_wide { AllByRecursion (IsWide width) drivers.old.items }
    requires resolved { kept.old ≡ net_value width drivers.old.items }
    ensures new { OnOk result (drivers.new.items ≡ changed_at drivers.old.items i (λ _. given)) }
    ensures err { OnErr result (drivers.new.items ≡ drivers.old.items) }
    ensures each_wide { AllByRecursion (IsWide width) drivers.new.items }
    ensures resolved { kept.new ≡ net_value width drivers.new.items }
    ensures some { IfOk result (λ o. IfSome o (λ old. bits (net_value width drivers.old.items) ≡ old)) }
    ensures differs { IfOk result (λ o. IfSome o (λ old. old ≢ bits (net_value width drivers.new.items))) }
    ensures none { IfOk result (λ o. IfNone o (net_value width drivers.new.items ≡ net_value width drivers.old.items)) }
{
    if given.width() != width {
        return Err(NoMemory::Memory);
    }
    let before = *kept;
    let after = driven_value(width, drivers, i, given);
    *kept = after;
    if before.equals(&after) {
        Ok(None)
    } else {
        Ok(Some(Val::Bits(before)))
    }
}

/// Writes an element, and hands its old value back.
fn replace_at(elements: &mut Vec<Val>, i: u32, value: Val) -> Val
    requires { i < length elements.old.items }
    ensures new { elements.new.items ≡ changed_at elements.old.items i (λ v. value_over v None value) }
    ensures old { result ≡ slice_index_or elements.old.items i no_value }
    ensures now { slice_index_or elements.new.items i no_value ≡ value }
{
    replace(&mut elements[i as usize], value)
}

/// Writes a driver, and gives what the drivers resolve to then.
fn driven_value(width: u32, drivers: &mut Vec<Bits>, driver: u32, given: Bits) -> Bits
    requires at_least_one { 1 ≤ width }
    requires fits { width ≤ WIDEST }
    requires there { driver < length drivers.old.items }
    requires wide { length given.symbols ≡ width }
    requires each_wide { AllByRecursion (IsWide width) drivers.old.items }
    ensures new { drivers.new.items ≡ changed_at drivers.old.items driver (λ v. vector_over v None (bits given)) }
    ensures each_wide { AllByRecursion (IsWide width) drivers.new.items }
    ensures value { result ≡ net_value width drivers.new.items }
{
    drivers[driver as usize] = given;
    resolved_value(width, drivers)
}
