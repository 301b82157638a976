// Files in memory.
ghost use Rattle.std.specs.Prelude.{◌≡◌, ◌<◌, ◌≤◌, ◌≢◌, List, ℕ, Some, None, IfSome, IfNone, IfOk, IsErrOf, length};
ghost use Rattle.std.specs.Str.{bytes_eq};
ghost use Rattle.sv_io.specs.Kept.{look_up};

use crate::Fetch;
use std::alloc::{AllocError, Global};
use std::marker::Model;

/// A file in memory: its name and its bytes.
#[derive(Drop)]
pub struct Entry {
    name: Vec<u8>,
    bytes: Vec<u8>,
}

impl Model for Entry {
    ghost use Rattle.sv_io.specs.Kept.{File};

    ghost Value = { File };

    ghost view = { λ e. record { name = e.name.items; bytes = e.bytes.items } };
}

impl Entry {
    /// A file with copies of a name and of bytes.
    pub fn new(alloc: Global, name: &str, bytes: &[u8]) -> Result<Self, AllocError>
        ensures { IfOk result (λ e. e ≡ record { name = name.now; bytes = bytes.now }) }
    {
        Ok(Entry {
            name: name.as_bytes().to_vec(alloc)?,
            bytes: bytes.to_vec(alloc)?,
        })
    }

    fn is_named(&self, name: &str) -> bool
        ensures { result ≡ bytes_eq self.now.name name.now }
    {
        self.name.as_slice() == name.as_bytes()
    }

    fn bytes(&self) -> &[u8]
        ensures { result.now ≡ self.now.bytes }
    {
        &self.bytes
    }
}

/// The bytes of the first file of a name.
pub fn found<'a>(files: &'a [Entry], name: &str) -> Option<&'a [u8]>
    ensures some { IfSome result (λ bytes. look_up files.now name.now ≡ Some bytes.now) }
    ensures none { IfNone result (look_up files.now name.now ≡ None) }
{
    for file in files {
        if file.is_named(name) {
            return Some(file.bytes());
        }
    }
    None
}

/// A copy of bytes of which there may be no more than `limit`.
pub fn copy_within(alloc: Global, bytes: &[u8], limit: u64) -> Result<Vec<u8>, Fetch>
    ensures bytes { IfOk result (λ text. text.items ≡ bytes.now) }
    ensures within { IfOk result (λ text. length text.items ≤ limit) }
    ensures long { IsErrOf result Fetch.Long → limit < length bytes.now }
    ensures not_failed { result ≢ Err Fetch.Failed }
{
    if bytes.len() as u64 > limit {
        return Err(Fetch::Long);
    }
    Ok(bytes.to_vec(alloc)?)
}
