// A part of a list that only grows.
ghost use Rattle.std.specs.Prelude.{◌≡◌, ◌<◌, ◌∷◌, ◌++◌, [], length, slice_get, slice_set, Some, IfOk, OnOk, OnErr};
ghost use Rattle.std.specs.Option.{option_copied};
ghost use Rattle.std.specs.Borrow.{sem, Lends};

use std::alloc::Global;
use std::marker::Model;
use sv_value::NoMemory;

/// So many entries as are asked for at first: none of them moves while no more come. It is seen as the list of its entries.
#[derive(Drop)]
pub struct Chunk<T> {
    entries: Vec<T>,
}

impl<T> Model for Chunk<T> {
    ghost use Rattle.std.specs.Prelude.{List};

    ghost Value = { List T };

    ghost view = { λ a. a.entries.items };
}

impl<T> Chunk<T> {
    ghost use Rattle.sv_arena.specs.contracts.chunk.Chunk.{the_row};

    /// No entry, with memory for so many.
    pub fn new(alloc: Global, capacity: usize) -> Result<Self, NoMemory>
        ensures { IfOk result (λ c. c ≡ []) }
    {
        Ok(Chunk {
            entries: Vec::with_capacity(alloc, capacity)?,
        })
    }

    /// How many entries there are.
    pub fn len(&self) -> usize
        ensures { result ≡ length self.now }
    {
        self.entries.len()
    }

    /// An entry behind the others.
    pub fn push(&mut self, entry: T) -> Result<(), NoMemory>
    where
        T: Drop,
        ensures ok { OnOk result (self.new ≡ self.old ++ entry ∷ []) }
        ensures err { OnErr result (self.new ≡ self.old) }
    {
        self.entries.push(entry)?;
        Ok(())
    }

    /// The entry at a place, if there is one.
    pub fn get(&self, place: usize) -> Option<&T>
        ensures { option_copied result ≡ slice_get self.now place }
    {
        self.entries.get(place)
    }

    /// The entry at a place, to be changed.
    pub fn get_mut(&mut self, place: usize) -> &mut T
        requires { place < length self.old }
        ensures* writes_back { sem 𝓛 (Lends (the_row T.row) T.row self.entry result (slice_set self.old place)) }
        ensures value { slice_get self.old place ≡ Some result.now }
    {
        &mut self.entries[place]
    }
}
