// Where the activations of one process stand.
ghost use Rattle.std.specs.Prelude.{◌≡◌, ◌∷◌, ◌++◌, [], ℕ, List, length, slice_get, OnOk, OnErr};

use std::alloc::Global;
use std::marker::Model;
use sv_value::NoMemory;

/// The places of the activations that a process made, in that order. It is seen as the list of these places.
#[derive(Drop)]
pub struct Row {
    places: Vec<u32>,
}

impl Model for Row {
    ghost use Rattle.std.specs.Prelude.{ℕ, List, length, ◌<◌, ◌^◌};

    ghost Value = { List ℕ };

    ghost view = { λ r. r.places.items };

    ghost invariant = { λ r. length r.places.items < 2 ^ 32 };
}

impl Row {
    /// No activation yet.
    pub fn new(alloc: Global) -> Self
        ensures { result ≡ [] }
    {
        Row {
            places: Vec::new(alloc),
        }
    }

    /// How many activations the process made.
    pub fn len(&self) -> u32
        ensures { result ≡ length self.now }
    {
        self.places.len() as u32
    }

    /// The place of an activation.
    pub fn get(&self, place: u32) -> Option<u32>
        ensures { result ≡ slice_get self.now place }
    {
        match self.places.get(place as usize) {
            Some(place) => Some(*place),
            None => None,
        }
    }

    /// An activation more. Memory is wanting where no number is left for it.
    pub fn push(&mut self, place: u32) -> Result<(), NoMemory>
        ensures ok { OnOk result (self.new ≡ self.old ++ place ∷ []) }
        ensures err { OnErr result (self.new ≡ self.old) }
    {
        if self.places.len() >= 0xFFFF_FFFF {
            return Err(NoMemory::Memory);
        }
        self.places.push(place)?;
        Ok(())
    }

    /// Without the last activation.
    pub fn pop(&mut self)
        ensures { (places : List ℕ) (k : ℕ) → self.old ≡ places ++ k ∷ [] → self.new ≡ places }
    {
        let _ = self.places.pop();
    }
}
