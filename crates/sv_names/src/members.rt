// Members of classes, and the places of properties in objects (IEEE 1800-2017, 8.4, 8.13 and 8.20).
ghost use Rattle.std.specs.Prelude.{◌≡◌, ◌-◌, ◌^◌, ◌∷◌, List, map, min, option_map, IfOk, IfErr};
ghost use Rattle.sv_names.specs.declared.around.ClassInfo.{ClassInfo as class_info};
ghost use Rattle.sv_names.specs.declared.refusal.Refusal.TheVariants.{Memory};
ghost use Rattle.sv_names.specs.Calls as calls;
ghost use Rattle.sv_names.specs.Lines as lines;
ghost use Rattle.sv_names.specs.Named as names;
ghost use Rattle.sv_names.specs.Views.{around_in, found_in};

use crate::classes::{base_in, class_in};
use crate::{
    Around, Callee, Checked, ClassInfo, Found, Known, Named, Refusal, declared_in, same_bytes,
};
use sv_value::Text;

// ---- members by their names

/// The member that a class has itself.
fn own_member<'a>(class: &'a ClassInfo, name: &[u8]) -> Option<Found<'a>>
    ensures { option_map found_in result ≡ names.declared_in 0 0 name.now class.now.scope.known }
{
    declared_in(0, name, &class.scope.known)
}

/// The method that a class has itself.
fn own_method<'a>(class: &'a ClassInfo, name: &[u8]) -> Option<&'a Callee>
    ensures { (ks : List class_info) → names.method_in name.now (class.now ∷ ks)
        ≡ names.nearest (option_map (λ c. c.now) result) (names.method_in name.now ks) }
{
    let Some(found) = own_member(class, name) else {
        return None;
    };
    match &found.known.value {
        Checked::Good(Named::Subroutine(callee)) => Some(callee.get()),
        _ => None,
    }
}

/// A member of a class or of its bases.
fn member_in<'a>(classes: &[&'a ClassInfo], class: &[Text], name: &[u8]) -> Option<Found<'a>>
    ensures { option_map (λ f. names.value_found (found_in f)) result
        ≡ names.member_in name.now (names.line_of (map (λ k. k.now) classes.now) class.now) }
{
    let mut left = classes.len();
    let mut next = class_in(classes, class);
    while left > 0 {
        let Some(nearest) = next else {
            return None;
        };
        match own_member(nearest, name) {
            Some(found) => return Some(found),
            None => {}
        }
        left -= 1;
        next = base_in(classes, nearest);
    }
    None
}

/// A method of a class or of its bases.
fn method_in<'a>(classes: &[&'a ClassInfo], class: &[Text], name: &[u8]) -> Option<&'a Callee>
    ensures { option_map (λ c. c.now) result
        ≡ names.method_in name.now (names.line_of (map (λ k. k.now) classes.now) class.now) }
{
    let mut left = classes.len();
    let mut next = class_in(classes, class);
    while left > 0 {
        let Some(nearest) = next else {
            return None;
        };
        match own_method(nearest, name) {
            Some(method) => return Some(method),
            None => {}
        }
        left -= 1;
        next = base_in(classes, nearest);
    }
    None
}

impl<'a> Around<'a> {
    /// A member of a class or of its bases, by its name: that of the most derived class that has one (8.14). No variable of an activation
    /// is one.
    pub fn member_of(&self, class: &[Text], name: &[u8]) -> Option<Found<'a>>
        ensures { option_map (λ f. names.value_found (found_in f)) result ≡ names.member_of (around_in self.now) class.now name.now }
    {
        member_in(self.classes, class, name)
    }

    /// The most derived method of a name, of a class or of its bases (8.20).
    pub fn method_of(&self, class: &[Text], name: &[u8]) -> Option<&'a Callee>
        ensures { option_map (λ c. c.now) result
            ≡ names.method_in name.now (names.line_of (around_in self.now).classes class.now) }
    {
        method_in(self.classes, class, name)
    }
}

// ---- the places of properties

impl Known {
    /// How many variables of an object it takes; more than every limit are not told from others.
    fn property_size(&self) -> u32
        ensures { result ≡ min (names.property_size self.now.value) (2 ^ 32 - 1) }
    {
        match &self.value {
            Checked::Good(Named::Property { ty, .. }) => ty.size(),
            _ => 0,
        }
    }
}

/// How many variables of an object the properties of one class take that stand before a name.
fn properties_before(name: &[u8], known: &[Known]) -> u32
    ensures { result ≡ min (names.properties_before name.now known.now) (2 ^ 32 - 1) }
{
    let mut size: u32 = 0;
    for declaration in known {
        if same_bytes(name, declaration.name.text.bytes()) {
            return size;
        }
        size = size.saturating_add(declaration.property_size());
    }
    size
}

/// How many variables of an object the properties of one class take.
fn all_properties(known: &[Known]) -> u32
    ensures { result ≡ min (names.all_properties known.now) (2 ^ 32 - 1) }
{
    let mut size: u32 = 0;
    for declaration in known {
        size = size.saturating_add(declaration.property_size());
    }
    size
}

/// How many variables of an object the properties of a class and of its bases take, and no more than so many classes.
fn of_bases<'a>(classes: &[&'a ClassInfo], mut left: usize, class: Option<&'a ClassInfo>) -> u32
    ensures { result ≡ min (names.of_bases
        (lines.up_from left (map (λ k. k.now) classes.now) (option_map (λ k. k.now) class.entry))) (2 ^ 32 - 1) }
{
    let mut size: u32 = 0;
    let mut next = class;
    while left > 0 {
        let Some(nearest) = next else {
            return size;
        };
        size = size.saturating_add(all_properties(nearest.scope.known.as_slice()));
        left -= 1;
        next = base_in(classes, nearest);
    }
    size
}

/// The place of a property in an object of a class.
fn place_in<'a>(classes: &[&'a ClassInfo], class: &[Text], name: &[u8]) -> u32
    ensures { result ≡ min (names.before_in_line name.now (names.line_of (map (λ k. k.now) classes.now) class.now)) (2 ^ 32 - 1) }
{
    let left = classes.len();
    let Some(nearest) = class_in(classes, class) else {
        return 0;
    };
    if left == 0 {
        return 0;
    }
    let own = properties_before(name, nearest.scope.known.as_slice());
    own.saturating_add(of_bases(classes, left - 1, base_in(classes, nearest)))
}

impl Around<'_> {
    /// The place of a property in an object of its class: those of the bases stand before it. More than every limit are not told from
    /// others.
    pub fn property_place(&self, class: &[Text], name: &[u8]) -> u32
        ensures { result ≡ names.property_place (around_in self.now) class.now name.now }
    {
        place_in(self.classes, class, name)
    }
}

// ---- virtual methods

/// Where a name stands first in a list of names; their number, where it does not.
fn slot_among(name: &[u8], slots: &[Text]) -> usize
    ensures { result ≡ calls.slot_from 0 name.now slots.now }
{
    let mut slot: usize = 0;
    for other in slots {
        if same_bytes(name, other.bytes()) {
            return slot;
        }
        slot += 1;
    }
    slot
}

impl Around<'_> {
    /// The slot of a virtual method in a class (8.20).
    pub fn slot_of(&self, class: &[Text], name: &[u8]) -> Result<u32, Refusal>
        ensures ok { IfOk result (λ n. n ≡ calls.slot_of (around_in self.now) class.now name.now) }
        ensures err { IfErr result (λ e. e ≡ Memory) }
    {
        match class_in(self.classes, class) {
            None => Ok(0),
            Some(info) => match u32::try_from(slot_among(name, info.slots.as_slice())) {
                Ok(slot) => Ok(slot),
                Err(_) => Err(Refusal::Memory),
            },
        }
    }
}
