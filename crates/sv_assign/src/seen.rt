// What an expression reads from a store and from activations.
ghost use Rattle.std.specs.Prelude.{◌≡◌};
ghost use Rattle.sv_assign.specs.Seen.{is_name};

use crate::{Change, Scoped};
use std::alloc::Global;
use sv_arena::{Activations, Name};
use sv_eval::Values;
use sv_store::Store;
use sv_value::{NoMemory, ObjId, Val};

/// The values of a store, and of the activations from a scope on, at a time (IEEE 1800-2017, 6.5 and 6.21).
#[derive(Clone, Copy)]
pub struct Seen<'s, 'a> {
    pub store: &'s Store,
    pub activations: &'a Activations,
    /// The innermost activation, or none outside of all.
    pub scope: Option<Name>,
    /// The time, in ticks.
    pub time: u64,
    /// How many ticks a unit of time has.
    pub unit: u64,
}

impl Values for Seen<'_, '_> {
    ghost use Rattle.sv_assign.specs.Seen.{view_in};

    ghost view = { λ s. view_in s.store.now s.activations.now.activations s.time s.unit s.scope };

    fn object(&self, alloc: Global, object: ObjId, element: u64) -> Result<Val, NoMemory> {
        self.store.read(alloc, object, element)
    }

    fn variable(&self, alloc: Global, up: u32, place: u64) -> Result<Val, NoMemory> {
        self.activations.value(alloc, self.scope, up, place)
    }

    fn time(&self) -> u64 {
        self.time
    }

    fn unit(&self) -> u64 {
        self.unit
    }
}

impl Scoped for Seen<'_, '_> {
    fn name(&self, up: u32) -> Option<Name> {
        self.activations.name(self.scope, up)
    }
}

/// The same before a change, told by what was changed (IEEE 1800-2017, 9.4.2).
#[derive(Clone, Copy)]
pub struct Before<'s, 'a, 'o> {
    /// The store after the change.
    pub store: &'s Store,
    /// The activations after the change.
    pub activations: &'a Activations,
    pub scope: Option<Name>,
    pub time: u64,
    pub unit: u64,
    pub change: &'o Change<'o>,
}

/// Whether the name of an activation, if there is one, is this one.
fn is_name(found: Option<Name>, name: Name) -> bool
    ensures { result ≡ is_name found name }
{
    match found {
        Some(found) => found.process.0 == name.process.0 && found.place == name.place,
        None => false,
    }
}

impl<'s, 'a> Before<'s, 'a, '_> {
    /// The same, seen from another scope.
    pub fn within(&self, scope: Option<Name>) -> Self
        ensures { result ≡ record self.now { scope = scope } }
    {
        Before {
            store: self.store,
            activations: self.activations,
            scope,
            time: self.time,
            unit: self.unit,
            change: self.change,
        }
    }

    /// What is seen after the change.
    pub fn after(&self) -> Seen<'s, 'a>
        ensures { result ≡ record {
          store = self.now.store;
          activations = self.now.activations;
          scope = self.now.scope;
          time = self.now.time;
          unit = self.now.unit;
        } }
    {
        Seen {
            store: self.store,
            activations: self.activations,
            scope: self.scope,
            time: self.time,
            unit: self.unit,
        }
    }
}

impl Values for Before<'_, '_, '_> {
    ghost use Rattle.sv_assign.specs.Seen.{change_in, view_before};

    ghost view = { λ b. view_before (change_in b.change.now) b.store.now b.activations.now.activations b.time b.unit b.scope };

    fn object(&self, alloc: Global, object: ObjId, element: u64) -> Result<Val, NoMemory> {
        match *self.change {
            Change::Object(overwritten) => {
                if object.0 == overwritten.object.0 {
                    self.store.read_before(alloc, overwritten, element)
                } else {
                    self.store.read(alloc, object, element)
                }
            }
            Change::Variable { .. } => self.store.read(alloc, object, element),
        }
    }

    fn variable(&self, alloc: Global, up: u32, place: u64) -> Result<Val, NoMemory> {
        match *self.change {
            Change::Object(_) => self.activations.value(alloc, self.scope, up, place),
            Change::Variable {
                name,
                variable,
                old,
            } => {
                if is_name(self.activations.name(self.scope, up), name)
                    && place == u64::from(variable)
                {
                    old.copy(alloc)
                } else {
                    self.activations.value(alloc, self.scope, up, place)
                }
            }
        }
    }

    fn time(&self) -> u64 {
        self.time
    }

    fn unit(&self) -> u64 {
        self.unit
    }
}
