// A shelf in memory that never fails.
ghost use Rattle.std.specs.Prelude.{◌≡◌, ◌≢◌, ◌<◌, ◌≤◌, ◌+◌, ◌++◌, ◌∷◌, [], Some, OnOk, OnErr, IfOk, IsErrOf, length, min};
ghost use Rattle.sv_io.specs.Kept.{GoodShelfState, bytes_or_none};

use crate::entry::{Entry, copy_within, found};
use crate::{Fetch, Shelf};
use std::alloc::Global;
use std::marker::Model;
use sv_value::NoMemory;

/// A shelf that never fails. A name that is not there is an empty file.
///
/// It is seen as its files, in the order in which they were added, and how many bytes its last call took.
#[derive(Drop)]
pub struct GoodShelf {
    alloc: Global,
    files: Vec<Entry>,
    taken: u64,
}

impl Model for GoodShelf {
    ghost use Rattle.sv_io.specs.Kept.{GoodShelfState};

    ghost Value = { GoodShelfState };

    ghost view = { λ s. record { files = s.files.items; taken = s.taken } };
}

impl GoodShelf {
    /// A shelf without files.
    pub fn new(alloc: Global) -> Self
        ensures { result ≡ record { files = []; taken = 0 } }
    {
        GoodShelf {
            alloc,
            files: Vec::new(alloc),
            taken: 0,
        }
    }

    /// Adds a file behind the others. Of two files of one name the first is found.
    pub fn add(&mut self, name: &str, bytes: &[u8]) -> Result<(), NoMemory>
        ensures ok { OnOk result (self.new ≡ record self.old { files = self.old.files ++ record { name = name.now; bytes = bytes.now } ∷ [] }) }
        ensures err { OnErr result (self.new ≡ self.old) }
    {
        let entry = Entry::new(self.alloc, name, bytes)?;
        self.files.push(entry)?;
        Ok(())
    }
}

impl Shelf for GoodShelf {
    ghost use Rattle.std.specs.Prelude.{Some, None};
    ghost use Rattle.sv_io.specs.Kept.{bytes_or_none};

    ghost files = { λ s. Some (λ name. Some (bytes_or_none s.files name)) };

    ghost faults = { λ _. 0 };

    ghost taken = { λ s. s.taken };

    ghost failed = { λ _. None };

    /// As every shelf, but it never answers `Failed`.
    fn fetch(&mut self, alloc: Global, name: &str, limit: u64) -> Result<Vec<u8>, Fetch>
        ensures never_fails { result ≢ Err Fetch.Failed }
        ensures bytes { IfOk result (λ text. text.items ≡ bytes_or_none self.old.files name.now) }
        ensures within { IfOk result (λ text. length text.items ≤ limit) }
        ensures long { IsErrOf result Fetch.Long → limit < length (bytes_or_none self.old.files name.now) }
        ensures taken { result ≢ Err Fetch.Memory
            → self.new ≡ record self.old { taken = min (limit + 1) (length (bytes_or_none self.old.files name.now)) } }
        ensures memory { IsErrOf result Fetch.Memory → self.new ≡ record self.old { taken = 0 } }
    {
        let bytes = found(&self.files, name).unwrap_or(&[]);
        let result = copy_within(alloc, bytes, limit);
        self.taken = match &result {
            Ok(text) => text.len() as u64,
            Err(Fetch::Long) => limit + 1,
            Err(_) => 0,
        };
        result
    }
}
