// What an expression reads.
ghost use Rattle.std.specs.Prelude.{◌≡◌, IfOk};
ghost use Rattle.sv_flat.specs.State.{View};

use std::alloc::Global;
use sv_value::{NoMemory, ObjId, Val};

/// A place that has values for what an expression names (IEEE 1800-2017, 6.5 and 6.21).
pub trait Values {
    ghost view: { Self → View };

    /// The value of an element of an object; a variable that is no array is one element.
    fn object(&self, alloc: Global, object: ObjId, element: u64) -> Result<Val, NoMemory>
        ensures { IfOk result (λ v. v ≡ (view self.now).object object element) };

    /// The value of a variable of the activation that is so many levels further out.
    fn variable(&self, alloc: Global, up: u32, place: u64) -> Result<Val, NoMemory>
        ensures { IfOk result (λ v. v ≡ (view self.now).variable up place) };

    /// The time, in ticks.
    fn time(&self) -> u64
        ensures { result ≡ (view self.now).now };

    /// How many ticks a unit of time has.
    fn unit(&self) -> u64
        ensures { result ≡ (view self.now).unit };
}

/// The place of constants, which name nothing (IEEE 1800-2017, 11.2.1).
#[derive(Clone, Copy)]
pub struct Nowhere;

impl Values for Nowhere {
    ghost use Rattle.sv_eval.specs.Evaluates.{nowhere};

    ghost view = { λ _. nowhere };

    fn object(&self, _: Global, _: ObjId, _: u64) -> Result<Val, NoMemory> {
        Ok(Val::Object(None))
    }

    fn variable(&self, _: Global, _: u32, _: u64) -> Result<Val, NoMemory> {
        Ok(Val::Object(None))
    }

    fn time(&self) -> u64 {
        0
    }

    fn unit(&self) -> u64 {
        1
    }
}
