// The types of keys of associative arrays (IEEE 1800-2017, 7.8).
ghost use Rattle.std.specs.Prelude.{◌≡◌, IfOk};

use crate::element::Element;
use std::alloc::Global;
use std::marker::Model;
use sv_value::NoMemory;

/// The type of the keys of an array, in memory of its own: else each type would be twice as large, for what is seldom.
#[derive(Drop)]
pub struct Key {
    element: Box<Element>,
}

impl Model for Key {
    ghost use Rattle.std.specs.Coded.{codes};
    ghost use Rattle.sv_names.specs.declared.element.Element.{Element};

    ghost Value = { Element };

    ghost coded = { Prim.hlevel (codes) };

    ghost view = { λ k. k.element.value };
}

impl Key {
    /// Keys of this type.
    pub fn new(alloc: Global, element: Element) -> Result<Self, NoMemory>
        ensures { IfOk result (λ k. k ≡ element) }
    {
        let element = Box::new(alloc, element)?;
        Ok(Key { element })
    }

    /// The type.
    pub fn get(&self) -> &Element
        ensures { result.now ≡ self.now }
    {
        &self.element
    }

    /// The same, in memory of its own.
    pub fn copy(&self, alloc: Global) -> Result<Key, NoMemory>
        ensures { IfOk result (λ k. k ≡ self.now) }
    {
        let element = self.element.copy(alloc)?;
        Key::new(alloc, element)
    }
}
