// A shelf in memory that fails where it is told to.
ghost use Rattle.std.specs.Prelude.{◌≡◌, ◌≢◌, ◌↔◌, ◌<◌, ◌≤◌, ◌++◌, ◌∷◌, [], Some, None, OnOk, OnErr, IfOk, IsErrOf, IsTrue, length};
ghost use Rattle.sv_io.specs.Faults.{raised};
ghost use Rattle.sv_io.specs.Kept.{look_up, bytes_or_none, fetched_from, failed_for, is_to_fail};

use crate::entry::{Entry, copy_within, found};
use crate::failing::failing_at;
use crate::{FailAt, Fetch, Shelf};
use std::alloc::Global;
use std::marker::Model;
use sv_value::NoMemory;

/// A shelf that fails at the calls that it is told to fail at, and at a name that is not there.
///
/// It is seen as its files, in the order in which they were added, the calls and faults so far, the list of the calls
/// that fail, how many bytes the last call took, and the name for which it failed last.
#[derive(Drop)]
pub struct MemShelf {
    alloc: Global,
    files: Vec<Entry>,
    failing: Vec<FailAt>,
    calls: u64,
    faults: u64,
    taken: u64,
    failed: Option<Vec<u8>>,
}

impl Model for MemShelf {
    ghost use Rattle.std.specs.Prelude.{option_map};
    ghost use Rattle.sv_io.specs.Kept.{ShelfState};

    ghost Value = { ShelfState };

    ghost view = { λ s. record {
      files = s.files.items;
      calls = s.calls;
      faults = s.faults;
      failing = s.failing.items;
      taken = s.taken;
      failed = option_map (λ v. v.items) s.failed;
    } };
}

impl MemShelf {
    /// A shelf without files that is to fail at no call.
    pub fn new(alloc: Global) -> Self
        ensures { result ≡ record { files = []; calls = 0; faults = 0; failing = []; taken = 0; failed = None } }
    {
        MemShelf {
            alloc,
            files: Vec::new(alloc),
            failing: Vec::new(alloc),
            calls: 0,
            faults: 0,
            taken: 0,
            failed: None,
        }
    }

    /// Adds a file behind the others. Of two files of one name the first is found.
    pub fn add(&mut self, name: &str, bytes: &[u8]) -> Result<(), NoMemory>
        ensures ok { OnOk result (self.new ≡ record self.old { files = self.old.files ++ record { name = name.now; bytes = bytes.now } ∷ [] }) }
        ensures err { OnErr result (self.new ≡ self.old) }
    {
        let entry = Entry::new(self.alloc, name, bytes)?;
        self.files.push(entry)?;
        Ok(())
    }

    /// Lets the call of that number fail, counted from 1, after it took `keep` bytes of the file, or all that are there
    /// or allowed. Where a number is named twice, its first entry holds.
    pub fn fail_at(&mut self, call: u64, keep: usize) -> Result<(), NoMemory>
        ensures ok { OnOk result (self.new ≡ record self.old { failing = self.old.failing ++ record { call = call; keep = keep } ∷ [] }) }
        ensures err { OnErr result (self.new ≡ self.old) }
    {
        self.failing.push(FailAt { call, keep })?;
        Ok(())
    }

    /// Fails for a name, after so many bytes were taken; or finds no memory for the name, and does not count.
    fn fail(&mut self, name: &str, taken: u64) -> Fetch
        ensures failed { result ≢ Fetch.Memory → (result ≡ Fetch.Failed) × (self.new ≡ failed_for name.now taken self.old) }
        ensures memory { result ≡ Fetch.Memory → self.new ≡ record self.old { taken = 0 } }
    {
        self.taken = 0;
        let Ok(copy) = name.as_bytes().to_vec(self.alloc) else {
            return Fetch::Memory;
        };
        self.failed = Some(copy);
        self.taken = taken;
        self.calls = self.calls.saturating_add(1);
        self.faults = self.faults.saturating_add(1);
        Fetch::Failed
    }
}

impl Shelf for MemShelf {
    ghost use Rattle.std.specs.Prelude.{Some};
    ghost use Rattle.sv_io.specs.Kept.{look_up};

    ghost files = { λ s. Some (look_up s.files) };

    ghost faults = { λ s. s.faults };

    ghost taken = { λ s. s.taken };

    ghost failed = { λ s. s.failed };

    /// As every shelf. It fails exactly at a call that stands in its list and at a name that is not there, and its count
    /// of faults rises there alone; a call that finds no memory is not counted.
    fn fetch(&mut self, alloc: Global, name: &str, limit: u64) -> Result<Vec<u8>, Fetch>
        ensures left { result ≢ Err Fetch.Memory → self.new ≡ fetched_from self.old name.now limit }
        ensures fails { result ≢ Err Fetch.Memory → (IsErrOf result Fetch.Failed ↔ IsTrue (is_to_fail self.old name.now)) }
        ensures bytes { IfOk result (λ text. look_up self.old.files name.now ≡ Some text.items) }
        ensures within { IfOk result (λ text. length text.items ≤ limit) }
        ensures long { IsErrOf result Fetch.Long → limit < length (bytes_or_none self.old.files name.now) }
        ensures memory { IsErrOf result Fetch.Memory → self.new ≡ record self.old { taken = 0 } }
        ensures never_falls { self.old.faults ≤ self.new.faults }
    {
        let call = self.calls.saturating_add(1);
        let bytes = found(&self.files, name);
        if let Some(fail) = failing_at(&self.failing, call) {
            let there = bytes.unwrap_or(&[]).len() as u64;
            let taken = (fail.keep as u64).min(limit).min(there);
            return Err(self.fail(name, taken));
        }
        let Some(bytes) = bytes else {
            return Err(self.fail(name, 0));
        };
        let result = copy_within(alloc, bytes, limit);
        match &result {
            Ok(text) => {
                self.calls = call;
                self.taken = text.len() as u64;
            }
            Err(Fetch::Long) => {
                self.calls = call;
                self.taken = limit + 1;
            }
            Err(_) => self.taken = 0,
        }
        result
    }
}
