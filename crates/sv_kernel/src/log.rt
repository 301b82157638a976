// What a step prints, and how it is put.
ghost use Rattle.std.specs.Prelude.{◌≡◌, ◌≢◌, ℕ, OnOk, OnErr, IsErrOf, take};
ghost use Rattle.sv_io.specs.Faults.{Rose};
ghost use Rattle.sv_io.specs.Outside.{appended, AppendsPrefix};
ghost use Rattle.sv_kernel.specs.Log.{texts_of};

use sv_io::{Sink, SinkError};
use sv_machine::Line;

/// Puts the texts of lines, in order, up to the first that is not taken.
pub fn put_lines<O: Sink>(out: &mut O, lines: &[Line]) -> Result<(), SinkError>
    ensures whole { OnOk result (O.bytes out.new ≡ appended (O.bytes out.old) (texts_of lines.now)) }
    ensures part { OnErr result (AppendsPrefix (O.bytes out.old) (O.bytes out.new) (texts_of lines.now)) }
    ensures lines { IsErrOf result SinkError.Memory
        → (n : ℕ) × (O.bytes out.new ≡ appended (O.bytes out.old) (texts_of (take n lines.now))) }
    ensures cause { IsErrOf result SinkError.Failed → Rose (O.faults out.old) (O.faults out.new) }
    ensures only_cause { result ≢ Err SinkError.Failed → O.faults out.new ≡ O.faults out.old }
{
    for line in lines {
        out.put(line.text.as_slice())?;
    }
    Ok(())
}
