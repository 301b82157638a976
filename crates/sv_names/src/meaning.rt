// What a name stands for, and what it is declared as (IEEE 1800-2017, 23.9): E6, E7.
ghost use Rattle.std.specs.Prelude.{◌≡◌, not, option_map};
ghost use Rattle.sv_names.specs.declared.checked.Checked.{Checked as checked};
ghost use Rattle.sv_names.specs.declared.named.Named.{Named as named_of};
ghost use Rattle.sv_names.specs.Checked as rules;
ghost use Rattle.sv_names.specs.Checked.{◌where_also◌};
ghost use Rattle.sv_names.specs.Named as names;
ghost use Rattle.sv_names.specs.Views.{around_in, found_in, meaning_in};
ghost use Rattle.sv_names.specs.Given.{Gives, GivesAs, Fails};

use crate::{Around, Checked, Fault, Found, Kind, Named, Refusal, first, same_place};
use sv_tree::Name;
use sv_value::Place;

/// What a name stands for where it stands. Nothing is copied: a variable of an activation is the one at this level and place, whatever its
/// declaration says of these.
#[derive(Clone, Copy)]
pub struct Meaning<'a> {
    /// How many activations further out a variable of one stands.
    pub up: u32,
    /// Its place there.
    pub place: u32,
    /// What the declaration stands for.
    pub named: &'a Named,
}

/// E7: the rule that the declaration of a name breaks; where it needs itself, the rule is broken at the name.
pub fn told_at(name: &Name, fault: Fault) -> Refusal
    ensures { Fails result (names.told_at name.now fault) }
{
    let nowhere = Place {
        file: 0,
        line: 0,
        col: 0,
    };
    if same_place(fault.at, nowhere) && fault.rule == 7 {
        Refusal::Rule {
            rule: 7,
            at: name.at,
        }
    } else {
        fault.refusal()
    }
}

impl<'a> Found<'a> {
    /// What the declaration stands for, or the rule that it breaks; E7 at the name where it needs itself.
    pub fn told(&self, name: &Name) -> Result<Meaning<'a>, Refusal>
        ensures { GivesAs meaning_in result (names.told name.now (names.value_found (found_in self.now))) }
    {
        match &self.known.value {
            Checked::Good(named) => Ok(Meaning {
                up: self.up,
                place: self.place,
                named,
            }),
            Checked::Broken(fault) => Err(told_at(name, *fault)),
        }
    }
}

// ---- what a name is declared as

/// Whether a type or class.
pub fn is_type_kind(kind: Kind) -> bool
    ensures { result ≡ names.is_type_kind kind }
{
    match kind {
        Kind::TypeName => true,
        Kind::Object => false,
        Kind::Parameter => false,
        Kind::Item(_) => false,
        Kind::Subroutine => false,
        Kind::Another => false,
    }
}

/// Whether no type.
pub fn is_value_kind(kind: Kind) -> bool
    ensures { result ≡ names.is_value_kind kind }
{
    !is_type_kind(kind)
}

/// Whether an object.
pub fn is_object_kind(kind: Kind) -> bool
    ensures { result ≡ names.is_object_kind kind }
{
    match kind {
        Kind::Object => true,
        Kind::Parameter => false,
        Kind::Item(_) => false,
        Kind::TypeName => false,
        Kind::Subroutine => false,
        Kind::Another => false,
    }
}

/// The rule at a place that does not take the kind of a name.
fn taken(rule: u8, at: Place, takes: bool) -> Result<(), Refusal>
    ensures { Gives result (rules.rule rule at (not takes)) }
{
    if takes {
        Ok(())
    } else {
        Err(Refusal::Rule { rule, at })
    }
}

/// What a name stands for, where it is declared as what its place takes; else the earlier of the two rules.
fn guarded<'a>(
    meaning: Result<Meaning<'a>, Refusal>,
    stands: Result<(), Refusal>,
) -> Result<Meaning<'a>, Refusal>
    ensures { (x : checked named_of) (y : checked (Unit {0})) → GivesAs meaning_in meaning.entry x → Gives stands y
        → GivesAs meaning_in result (x where_also y) }
{
    match meaning {
        Ok(meaning) => match stands {
            Ok(()) => Ok(meaning),
            Err(e) => Err(e),
        },
        Err(e) => match stands {
            Ok(()) => Err(e),
            Err(f) => Err(first(e, f)),
        },
    }
}

impl<'a> Around<'a> {
    /// What a name stands for. E6: it is not declared. Otherwise the rule that its declaration breaks; E7 at the name where the declaration
    /// needs itself.
    pub fn meaning(&self, name: &Name) -> Result<Meaning<'a>, Refusal>
        ensures { GivesAs meaning_in result (names.meaning (around_in self.now) name.now) }
    {
        match self.find(name.text.bytes()) {
            None => Err(Refusal::Rule {
                rule: 6,
                at: name.at,
            }),
            Some(found) => found.told(name),
        }
    }

    /// What a name stands for that is to be a value. E7 where it is declared as a type or class; else what `meaning` tells.
    pub fn value_meaning(&self, name: &Name) -> Result<Meaning<'a>, Refusal>
        ensures { GivesAs meaning_in result (names.meaning (around_in self.now) name.now
            where_also names.kind_stands (around_in self.now) 7 name.now.at names.is_value_kind name.now.text) }
    {
        match self.find(name.text.bytes()) {
            None => Err(Refusal::Rule {
                rule: 6,
                at: name.at,
            }),
            Some(found) => {
                let stands = taken(7, name.at, is_value_kind(found.known.kind));
                guarded(found.told(name), stands)
            }
        }
    }

    /// What a name stands for that is to be a type or a class. E7 where it is declared as anything else; else what `meaning` tells.
    pub fn type_meaning(&self, name: &Name) -> Result<Meaning<'a>, Refusal>
        ensures { GivesAs meaning_in result (names.meaning (around_in self.now) name.now
            where_also names.kind_stands (around_in self.now) 7 name.now.at names.is_type_kind name.now.text) }
    {
        match self.find(name.text.bytes()) {
            None => Err(Refusal::Rule {
                rule: 6,
                at: name.at,
            }),
            Some(found) => {
                let stands = taken(7, name.at, is_type_kind(found.known.kind));
                guarded(found.told(name), stands)
            }
        }
    }

    /// What the nearest declaration of a name is, also where it breaks a rule.
    pub fn kind(&self, name: &[u8]) -> Option<Kind>
        ensures { result ≡ names.kind_from name.now (around_in self.now).scopes }
    {
        match self.find(name) {
            None => None,
            Some(found) => Some(found.known.kind),
        }
    }

    /// Whether a name is declared as a type or class.
    pub fn names_type(&self, name: &[u8]) -> bool
        ensures { result ≡ names.names_type (around_in self.now) name.now }
    {
        match self.kind(name) {
            None => false,
            Some(kind) => is_type_kind(kind),
        }
    }

    /// The rule at the place, where the name is declared as a type or class.
    pub fn value_stands(&self, rule: u8, at: Place, name: &[u8]) -> Result<(), Refusal>
        ensures { Gives result (names.kind_stands (around_in self.now) rule at names.is_value_kind name.now) }
    {
        match self.kind(name) {
            None => Ok(()),
            Some(kind) => taken(rule, at, is_value_kind(kind)),
        }
    }

    /// The rule at the place, where the name is declared as anything but a type or class.
    pub fn type_stands(&self, rule: u8, at: Place, name: &[u8]) -> Result<(), Refusal>
        ensures { Gives result (names.kind_stands (around_in self.now) rule at names.is_type_kind name.now) }
    {
        match self.kind(name) {
            None => Ok(()),
            Some(kind) => taken(rule, at, is_type_kind(kind)),
        }
    }

    /// The rule at the place, where the name is declared as anything but an object.
    pub fn object_stands(&self, rule: u8, at: Place, name: &[u8]) -> Result<(), Refusal>
        ensures { Gives result (names.kind_stands (around_in self.now) rule at names.is_object_kind name.now) }
    {
        match self.kind(name) {
            None => Ok(()),
            Some(kind) => taken(rule, at, is_object_kind(kind)),
        }
    }
}
