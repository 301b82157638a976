// The top call: all that the program does.
ghost use Rattle.std.specs.Prelude.{◌≡◌, ◌≢◌, ◌⊎◌};
ghost use Rattle.sv_io.specs.Faults.{Rose};
ghost use Rattle.sv_simulate.specs.Said.{limits};
ghost use Rattle.sv_simulate.specs.Simulated.{texts, NoFault, PutsAll, PutsPrefix, IsCut, IsOutOfMemory, NamesFile, PutsNotRead};

use crate::answer::answer;
use crate::run::Cut;
use std::alloc::Global;
use sv_io::{Shelf, Sink, SinkError};
use sv_words::Limits;

/// The limits of the program.
const LIMITS: Limits = Limits {
    bytes: 8_388_608,
    most_steps: 1_099_511_627_776,
    usual_steps: 10_000_000,
};

/// Does all that the program does for the words after its name: it fetches the files from the shelf, runs their design, puts the records and then the closing
/// line into the log, and gives the status.
///
/// | Status | Comes | Closing line |
/// |---|---|---|
/// | 0 | the run is done | `svsim: done at T` |
/// | 1 | no token can be read at a place of a file, or none that goes on a file stands there; the first file that has such a place | `svsim: FILE:LINE:COL: refused: WHAT` |
/// | 1 | a rule of the language is broken: the first of those that are, E1 to E58, at its place | `svsim: FILE:LINE:COL: refused: E..` |
/// | 1 | no rule is broken, and the design has forms that do not run today | `svsim: FILE:1:1: refused: not yet` |
/// | 2 | the words have no meaning | `svsim: bad command line` |
/// | 3 | the run has made all the steps that it may have | `svsim: stopped after N steps at T` |
/// | 4 | the run has met a fault | `svsim: FILE:LINE:COL: FAULT at T` |
/// | 5 | the shelf failed for a file; or the files up to this one have more than 8 MiB | `svsim: FILE: not read`; `svsim: FILE: too long` |
/// | 6 | the log failed | none, or a prefix of it |
/// | 8 | memory ran out | `svsim: out of memory`, where there is memory to put it |
///
/// FILE is the one of the place, and for `not yet` the first. T is in ticks, lines and columns count from 1, columns in bytes.
pub fn simulate<F: Shelf, O: Sink>(
    alloc: Global,
    words: &Vec<String>,
    shelf: &mut F,
    out: &mut O,
) -> u8
    // With no fault and enough memory, all that is to be said is put, and the status is its own.
    ensures whole { result ≢ 8 → NoFault (F.faults shelf.old) (F.faults shelf.new) → NoFault (O.faults out.old) (O.faults out.new)
        → PutsAll limits (texts words.now) (F.files shelf.old) (O.bytes out.old) (O.bytes out.new) result }

    // Whatever happens, what is put is a prefix of the records, and then a prefix of one line.
    ensures prefix { PutsPrefix limits (texts words.now) (F.files shelf.old) (O.bytes out.old) (O.bytes out.new) }

    // Nothing is put behind a piece that was not put whole.
    ensures cut { result ≡ 6 → IsCut limits (texts words.now) (F.files shelf.old) (O.bytes out.old) (O.bytes out.new) }

    // Where memory ran out, the first records stand there, each whole, and behind them the line that says so, or nothing.
    ensures memory { result ≡ 8 → IsOutOfMemory limits (texts words.now) (F.files shelf.old) (O.bytes out.old) (O.bytes out.new) }

    // Where a file could not be read, the line that says so is put whole.
    ensures unread { result ≡ 5 → F.faults shelf.new ≢ F.faults shelf.old
        → PutsNotRead limits (texts words.now) (F.files shelf.old) (F.failed shelf.new) (O.bytes out.old) (O.bytes out.new) }

    // A fault of the log gives 6 and nothing else.
    ensures sink_failed { O.faults out.new ≢ O.faults out.old → result ≡ 6 }
    ensures six { result ≡ 6 → Rose (O.faults out.old) (O.faults out.new) }

    // A fault of the shelf gives 5, unless the log failed too or memory ran out; the shelf then names a file of the words, whose turn it was.
    ensures shelf_failed { NoFault (O.faults out.old) (O.faults out.new) → F.faults shelf.new ≢ F.faults shelf.old
        → (result ≡ 5) ⊎ (result ≡ 8) }
    ensures not_read { F.faults shelf.new ≢ F.faults shelf.old
        → Rose (F.faults shelf.old) (F.faults shelf.new) × NamesFile limits (texts words.now) (F.files shelf.old) (F.failed shelf.new) }
{
    match answer(alloc, words, LIMITS, shelf, out) {
        Ok(closing) => match out.put(closing.line.as_bytes()) {
            Ok(()) => closing.status,
            Err(SinkError::Failed) => 6,
            Err(SinkError::Memory) => 8,
        },
        Err(Cut::LogFailed) => 6,
        Err(Cut::Memory) => match out.put(b"svsim: out of memory\n") {
            Ok(()) => 8,
            Err(SinkError::Failed) => 6,
            Err(SinkError::Memory) => 8,
        },
    }
}
