// A list that only grows.
ghost use Rattle.std.specs.Prelude.{◌≡◌, ◌<◌, ◌∷◌, ◌++◌, [], true, length, slice_get, slice_set, Some, OnOk, OnErr};
ghost use Rattle.std.specs.Option.{option_copied};
ghost use Rattle.std.specs.Borrow.{sem, Lends};
ghost use Rattle.sv_arena.specs.Chunks.{entries_of, has_room, IsChunked};

use crate::chunk::Chunk;
use std::alloc::Global;
use std::marker::Model;
use sv_value::NoMemory;

/// How many entries a chunk has.
const SIZE: usize = 1024;

/// Entries that are found by their place, of which none goes. They lie in chunks of 1,024, so that none moves when more come. It is seen as
/// the list of its entries.
#[derive(Drop)]
pub struct Arena<T> {
    chunks: Vec<Chunk<T>>,
    /// How many entries there are.
    len: usize,
}

impl<T> Model for Arena<T> {
    ghost use Rattle.std.specs.Prelude.{List, ◌≡◌, length};
    ghost use Rattle.sv_arena.specs.Chunks.{entries_of, IsChunked};

    ghost Value = { List T };

    ghost view = { λ a. entries_of a.chunks.items };

    ghost invariant = { λ a. IsChunked 1024 a.chunks.items × (a.len ≡ length (entries_of a.chunks.items)) };
}

impl<T> Arena<T> {
    ghost use Rattle.sv_arena.specs.contracts.arena.Arena.{the_row};

    /// No entry.
    pub fn new(alloc: Global) -> Self
        ensures { result ≡ [] }
    {
        Arena {
            chunks: Vec::new(alloc),
            len: 0,
        }
    }

    /// How many entries there are.
    pub fn len(&self) -> usize
        ensures { result ≡ length self.now }
    {
        self.len
    }

    /// An entry behind the others.
    pub fn push(&mut self, entry: T) -> Result<(), NoMemory>
    where
        T: Drop,
        ensures ok { OnOk result (self.new ≡ self.old ++ entry ∷ []) }
        ensures err { OnErr result (self.new ≡ self.old) }
    {
        let Some(len) = self.len.checked_add(1) else {
            return Err(NoMemory::Memory);
        };
        push_in(&mut self.chunks, entry)?;
        self.len = len;
        Ok(())
    }

    /// The entry at a place, if there is one.
    pub fn get(&self, place: usize) -> Option<&T>
        ensures { option_copied result ≡ slice_get self.now place }
    {
        match chunk_at(&self.chunks, place / SIZE) {
            Some(chunk) => chunk.get(place % SIZE),
            None => None,
        }
    }

    /// The entry at a place, to be changed.
    pub fn get_mut(&mut self, place: usize) -> &mut T
        requires { place < length self.old }
        ensures* writes_back { sem 𝓛 (Lends (the_row T.row) T.row self.entry result (slice_set self.old place)) }
        ensures value { slice_get self.old place ≡ Some result.now }
    {
        let chunk = &mut self.chunks[place / SIZE];
        chunk.get_mut(place % SIZE)
    }
}

/// The chunk at a place, if there is one.
fn chunk_at<T>(chunks: &Vec<Chunk<T>>, place: usize) -> Option<&Chunk<T>>
    ensures { option_copied result ≡ slice_get chunks.now.items place }
{
    chunks.get(place)
}

/// Whether the last chunk has room for an entry.
#[tactic(auto, using(crate::proofs::ChunkLaws::room_last))]
fn has_room<T>(chunks: &Vec<Chunk<T>>) -> bool
    ensures { result ≡ has_room 1024 chunks.now.items }
{
    match chunks.last() {
        Some(chunk) => chunk.len() < SIZE,
        None => false,
    }
}

/// An entry behind the others, in the last chunk or a new one.
fn push_in<T: Drop>(chunks: &mut Vec<Chunk<T>>, entry: T) -> Result<(), NoMemory>
    requires { IsChunked 1024 chunks.old.items }
    ensures ok { OnOk result (entries_of chunks.new.items ≡ entries_of chunks.old.items ++ entry ∷ []) }
    ensures err { OnErr result (entries_of chunks.new.items ≡ entries_of chunks.old.items) }
    ensures chunked { IsChunked 1024 chunks.new.items }
{
    if has_room(chunks) {
        return push_last(chunks, entry);
    }
    let alloc = *chunks.allocator();
    let mut chunk = Chunk::new(alloc, SIZE)?;
    chunk.push(entry)?;
    chunks.push(chunk)?;
    Ok(())
}

/// An entry behind those of the last chunk.
fn push_last<T: Drop>(chunks: &mut Vec<Chunk<T>>, entry: T) -> Result<(), NoMemory>
    requires chunked { IsChunked 1024 chunks.old.items }
    requires room { has_room 1024 chunks.old.items ≡ true }
    ensures ok { OnOk result (entries_of chunks.new.items ≡ entries_of chunks.old.items ++ entry ∷ []) }
    ensures err { OnErr result (entries_of chunks.new.items ≡ entries_of chunks.old.items) }
    ensures chunked { IsChunked 1024 chunks.new.items }
{
    let last = chunks.len() - 1;
    let chunk = &mut chunks[last];
    chunk.push(entry)?;
    Ok(())
}
