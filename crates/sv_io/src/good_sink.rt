// A sink in memory that never fails.
ghost use Rattle.std.specs.Prelude.{◌≡◌, ◌≢◌, ◌++◌, [], Some, OnOk, OnErr};

use crate::{Sink, SinkError};
use std::alloc::Global;
use std::marker::Model;

/// A sink that keeps what it gets and never fails. It is seen as the bytes got.
#[derive(Drop)]
pub struct GoodSink {
    got: Vec<u8>,
}

impl Model for GoodSink {
    ghost use Rattle.std.specs.Prelude.{List, ℕ};

    ghost Value = { List ℕ };

    ghost view = { λ s. s.got.items };
}

impl GoodSink {
    /// A sink that got nothing.
    pub fn new(alloc: Global) -> Self
        ensures { result ≡ [] }
    {
        GoodSink {
            got: Vec::new(alloc),
        }
    }

    /// The bytes got so far.
    pub fn bytes(&self) -> &[u8]
        ensures { result.now ≡ self.now }
    {
        &self.got
    }
}

impl Sink for GoodSink {
    ghost bytes = { λ s. Some s };

    ghost faults = { λ _. 0 };

    /// As every sink, but it never answers `Failed`.
    fn put(&mut self, piece: &[u8]) -> Result<(), SinkError>
        ensures never_fails { result ≢ Err SinkError.Failed }
        ensures ok { OnOk result (self.new ≡ self.old ++ piece.now) }
        ensures err { OnErr result (self.new ≡ self.old) }
    {
        match self.got.extend_from_slice(piece) {
            Ok(()) => Ok(()),
            Err(_) => Err(SinkError::Memory),
        }
    }
}
