// Sinks, seen by the bytes that they got and by their count of faults.
ghost use Rattle.std.specs.Prelude.{◌≡◌, ◌≢◌, ◌≤◌, List, ℕ, Option, OnOk, IsErrOf};
ghost use Rattle.sv_io.specs.Faults.{Rose};
ghost use Rattle.sv_io.specs.Outside.{appended, AppendsPrefix};

use thiserror::Error;

/// Why a piece was not put.
#[derive(Clone, Copy, Debug, PartialEq, Eq, Error)]
pub enum SinkError {
    /// The outside did not take the whole piece.
    #[error("the sink failed")]
    Failed,
    /// Memory ran out. Nothing of the piece was taken.
    #[error("out of memory")]
    Memory,
}

/// Takes pieces of text, in order.
///
/// The meaning of a sink is the list of the bytes that it got. A sink need not tell it, and no call changes whether it
/// is told. Its count of faults never falls, and rises in no call but one that answers `Failed`. A count has 64 bits;
/// one that stands at its last value stays there.
pub trait Sink {
    /// The bytes got, where the sink tells them.
    ghost bytes: { Self → Option (List ℕ) };

    /// How often the sink has failed.
    ghost faults: { Self → ℕ };

    /// Takes a piece.
    ///
    /// - Ok: the whole piece stands behind what was got before.
    /// - `Failed`: a prefix of the piece does, which may be empty; the count of faults rose.
    /// - `Memory`, which may come at any call: nothing changed.
    fn put(&mut self, piece: &[u8]) -> Result<(), SinkError>
        ensures whole { OnOk result (bytes self.new ≡ appended (bytes self.old) piece.now) }
        ensures part { IsErrOf result SinkError.Failed → AppendsPrefix (bytes self.old) (bytes self.new) piece.now }
        ensures nothing { IsErrOf result SinkError.Memory → bytes self.new ≡ bytes self.old }
        ensures cause { IsErrOf result SinkError.Failed → Rose (faults self.old) (faults self.new) }
        ensures only_cause { result ≢ Err SinkError.Failed → faults self.new ≡ faults self.old }
        ensures never_falls { faults self.old ≤ faults self.new };
}
