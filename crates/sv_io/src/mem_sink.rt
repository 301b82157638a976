// A sink in memory that fails where it is told to.
ghost use Rattle.std.specs.Prelude.{◌≡◌, ◌≢◌, ◌↔◌, ◌≤◌, ◌++◌, ◌∷◌, [], Some, IsErrOf, IsSome, OnOk, OnErr};
ghost use Rattle.sv_io.specs.Failing.{failing_at};
ghost use Rattle.sv_io.specs.Faults.{raised};
ghost use Rattle.sv_io.specs.Kept.{put_in};
ghost use Rattle.sv_io.specs.Outside.{AppendsPrefix};

use crate::failing::failing_at;
use crate::{FailAt, Sink, SinkError};
use std::alloc::Global;
use std::marker::Model;
use sv_value::NoMemory;

/// A sink that keeps what it gets, and fails at the calls that it is told to fail at.
///
/// It is seen as the bytes got, the calls and faults so far, and the list of the calls that fail.
#[derive(Drop)]
pub struct MemSink {
    got: Vec<u8>,
    failing: Vec<FailAt>,
    calls: u64,
    faults: u64,
}

impl Model for MemSink {
    ghost use Rattle.sv_io.specs.Kept.{SinkState};

    ghost Value = { SinkState };

    ghost view = { λ s. record { bytes = s.got.items; calls = s.calls; faults = s.faults; failing = s.failing.items } };
}

impl MemSink {
    /// A sink that got nothing, and is to fail at no call.
    pub fn new(alloc: Global) -> Self
        ensures { result ≡ record { bytes = []; calls = 0; faults = 0; failing = [] } }
    {
        MemSink {
            got: Vec::new(alloc),
            failing: Vec::new(alloc),
            calls: 0,
            faults: 0,
        }
    }

    /// Lets the call of that number fail, counted from 1, and take a prefix of its piece of at most `keep` bytes. Where a
    /// number is named twice, its first entry holds.
    pub fn fail_at(&mut self, call: u64, keep: usize) -> Result<(), NoMemory>
        ensures ok { OnOk result (self.new ≡ record self.old { failing = self.old.failing ++ record { call = call; keep = keep } ∷ [] }) }
        ensures err { OnErr result (self.new ≡ self.old) }
    {
        self.failing.push(FailAt { call, keep })?;
        Ok(())
    }

    /// The bytes got so far.
    pub fn bytes(&self) -> &[u8]
        ensures { result.now ≡ self.now.bytes }
    {
        &self.got
    }
}

impl Sink for MemSink {
    ghost bytes = { λ s. Some s.bytes };

    ghost faults = { λ s. s.faults };

    /// As every sink. It fails exactly at a call that stands in its list, and its count of faults rises there alone; a
    /// call that finds no memory changes nothing, and is not counted.
    fn put(&mut self, piece: &[u8]) -> Result<(), SinkError>
        ensures left { result ≢ Err SinkError.Memory → self.new ≡ put_in self.old piece.now }
        ensures fails { result ≢ Err SinkError.Memory → (IsErrOf result SinkError.Failed ↔ IsSome (failing_at self.old.failing (raised self.old.calls))) }
        ensures unchanged { IsErrOf result SinkError.Memory → self.new ≡ self.old }
        ensures part { IsErrOf result SinkError.Failed → AppendsPrefix (Some self.old.bytes) (Some self.new.bytes) piece.now }
        ensures never_falls { self.old.faults ≤ self.new.faults }
    {
        let call = self.calls.saturating_add(1);
        let fails = failing_at(&self.failing, call);
        let kept = match fails {
            None => piece.len(),
            Some(fail) => piece.len().min(fail.keep),
        };
        if self.got.extend_from_slice(&piece[..kept]).is_err() {
            return Err(SinkError::Memory);
        }
        self.calls = call;
        if fails.is_none() {
            return Ok(());
        }
        self.faults = self.faults.saturating_add(1);
        Err(SinkError::Failed)
    }
}
