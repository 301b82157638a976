// What stands in memory of its own.
ghost use Rattle.std.specs.Prelude.{◌≡◌, IfOk};

use std::alloc::Global;
use std::marker::Model;
use sv_value::NoMemory;

/// A large part of an enum that is seldom there, in memory of its own, so that the others are small. It is seen as that part.
#[derive(Drop)]
pub struct Apart<T> {
    item: Box<T>,
}

impl<T> Model for Apart<T> {
    ghost Value = { T };

    ghost view = { λ a. a.item.value };
}

impl<T: Drop> Apart<T> {
    /// This, in memory of its own.
    pub fn new(alloc: Global, item: T) -> Result<Self, NoMemory>
        ensures { IfOk result (λ a. a ≡ item) }
    {
        let item = Box::new(alloc, item)?;
        Ok(Apart { item })
    }

    /// What it is.
    pub fn get(&self) -> &T
        ensures { result.now ≡ self.now }
    {
        &self.item
    }
}
