// What is seen from inside a new activation.

use std::alloc::Global;
use sv_arena::Name;
use sv_assign::Scoped;
use sv_eval::Values;
use sv_value::{NoMemory, ObjId, Val};

/// What is seen from inside a new activation, which has no value yet, by what is seen from around it (IEEE 1800-2017, 6.21).
#[derive(Clone, Copy)]
pub struct Inside<'a, V> {
    /// What is seen from around it.
    pub around: &'a V,
    /// Its name.
    pub name: Name,
}

impl<V: Values> Values for Inside<'_, V> {
    ghost use Rattle.sv_flat.specs.Micro.{just_inside};

    ghost view = { λ i. just_inside i.name (V.view i.around.now) };

    fn object(&self, alloc: Global, object: ObjId, element: u64) -> Result<Val, NoMemory> {
        self.around.object(alloc, object, element)
    }

    fn variable(&self, alloc: Global, up: u32, place: u64) -> Result<Val, NoMemory> {
        match up.checked_sub(1) {
            Some(up) => self.around.variable(alloc, up, place),
            None => Ok(Val::Object(None)),
        }
    }

    fn time(&self) -> u64 {
        self.around.time()
    }

    fn unit(&self) -> u64 {
        self.around.unit()
    }
}

impl<V: Scoped> Scoped for Inside<'_, V> {
    fn name(&self, up: u32) -> Option<Name> {
        match up.checked_sub(1) {
            Some(up) => self.around.name(up),
            None => Some(self.name),
        }
    }
}
