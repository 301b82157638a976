// The calls that sinks and shelves in memory are told to fail at.
ghost use Rattle.std.specs.Prelude.{◌≡◌};
ghost use Rattle.sv_io.specs.Failing.{failing_at};

/// The call of this number, counted from 1, fails after so many bytes.
#[derive(Clone, Copy, Debug, PartialEq, Eq)]
pub struct FailAt {
    /// Which call fails. The first one is 1.
    pub call: u64,
    /// How many bytes it still takes: of the piece that is put, or of the file that is fetched.
    pub keep: usize,
}

/// How a call fails, by the first entry of its number; none where it does not.
pub fn failing_at(failing: &[FailAt], call: u64) -> Option<FailAt>
    ensures { result ≡ failing_at failing.now call }
{
    for fail in failing {
        if fail.call == call {
            return Some(*fail);
        }
    }
    None
}
