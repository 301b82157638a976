// A sink over a writer, as the standard output.
ghost use Rattle.std.specs.Prelude.{◌≡◌, ◌≢◌, ◌<◌, ◌≤◌, ◌^◌, [], take, length, IsErrOf, IsTrue, OnOk};
ghost use Rattle.std.specs.Io.KnownBytes.{Appends};
ghost use Rattle.sv_io.specs.Faults.{Rose};
ghost use Rattle.sv_io.specs.Kept.{held};

use crate::{Sink, SinkError};
use std::alloc::Global;
use std::io::{ErrorKind, Write};
use std::marker::Model;

/// How many bytes wait at most before they are written.
const ROOM: usize = 65_536;

/// The standard output, or another writer. Pieces wait until there are 64 KiB of them, or until `finish`.
///
/// It is seen as the bytes that the writer tells, those that wait to be written, and the count of faults. As a sink it
/// tells no bytes, since a writer need not go on telling them.
#[derive(Drop)]
pub struct OutSink<W: Write + Drop> {
    writer: W,
    waiting: Vec<u8>,
    faults: u64,
}

impl<W: Write + Drop> Model for OutSink<W> {
    ghost use Rattle.sv_io.specs.Kept.{OutSinkState};

    ghost Value = { OutSinkState };

    ghost view = { λ s. record { written = W.contents s.writer; waiting = s.waiting.items; faults = s.faults } };
}

impl<W: Write + Drop> OutSink<W> {
    /// A sink over a writer that has not failed.
    pub fn new(alloc: Global, writer: W) -> Self
        ensures { result ≡ record { written = W.contents writer; waiting = []; faults = 0 } }
    {
        OutSink {
            writer,
            waiting: Vec::new(alloc),
            faults: 0,
        }
    }

    /// Writes all that waits.
    ///
    /// - Ok: nothing waits.
    /// - `Failed`: the writer did not take all; the rest waits, and the count of faults rose.
    pub fn finish(&mut self) -> Result<(), SinkError>
        ensures all { OnOk result (self.new.waiting ≡ []) }
        ensures kept { Appends (held self.old) (held self.new) [] }
        ensures cause { IsErrOf result SinkError.Failed → Rose self.old.faults self.new.faults }
        ensures only_cause { result ≢ Err SinkError.Failed → self.new.faults ≡ self.old.faults }
        ensures no_memory { result ≢ Err SinkError.Memory }
        ensures never_falls { self.old.faults ≤ self.new.faults }
    {
        if self.send() {
            return Ok(());
        }
        self.faults = self.faults.saturating_add(1);
        Err(SinkError::Failed)
    }

    /// Lets the writer take what waits; what it does not take goes on waiting. Whether it took all.
    fn send(&mut self) -> bool
        ensures all { IsTrue result → self.new.waiting ≡ [] }
        ensures kept { Appends (held self.old) (held self.new) [] }
        ensures faults { self.new.faults ≡ self.old.faults }
    {
        let sent = write_some(&mut self.writer, &self.waiting);
        self.waiting.rotate_left(sent);
        self.waiting.truncate(self.waiting.len() - sent);
        self.waiting.is_empty() && self.writer.flush().is_ok()
    }
}

/// Writes a text up to where the writer fails or takes nothing, and gives how many bytes it took.
fn write_some<W: Write>(writer: &mut W, text: &[u8]) -> usize
    ensures within { result ≤ length text.now }
    ensures written { Appends (W.contents writer.old) (W.contents writer.new) (take result text.now) }
{
    let mut sent = 0;
    while sent < text.len() {
        let count = write_part(writer, &text[sent..]);
        if count == 0 {
            break;
        }
        sent += count;
    }
    sent
}

/// Lets the writer take what it takes in one call that is not interrupted: nothing where it fails.
fn write_part<W: Write>(writer: &mut W, text: &[u8]) -> usize
    ensures within { result ≤ length text.now }
    ensures written { Appends (W.contents writer.old) (W.contents writer.new) (take result text.now) }
{
    for _ in 0..u64::MAX {
        match writer.write(text) {
            Ok(count) => return count,
            Err(e) if e.kind() == ErrorKind::Interrupted => {}
            Err(_) => return 0,
        }
    }
    0
}

impl<W: Write + Drop> Sink for OutSink<W> {
    ghost use Rattle.std.specs.Prelude.{None};

    ghost bytes = { λ _. None };

    ghost faults = { λ s. s.faults };

    /// As every sink. A piece that is taken stands behind what was written and what waits; `Failed` is answered where it is
    /// taken too, and what waits before it can't be written.
    fn put(&mut self, piece: &[u8]) -> Result<(), SinkError>
        ensures kept { result ≢ Err SinkError.Memory → Appends (held self.old) (held self.new) piece.now }
        ensures few { OnOk result (length self.new.waiting < 2 ^ 16) }
        ensures unchanged { IsErrOf result SinkError.Memory → self.new ≡ self.old }
        ensures cause { IsErrOf result SinkError.Failed → Rose self.old.faults self.new.faults }
        ensures only_cause { result ≢ Err SinkError.Failed → self.new.faults ≡ self.old.faults }
        ensures never_falls { self.old.faults ≤ self.new.faults }
    {
        if self.waiting.extend_from_slice(piece).is_err() {
            return Err(SinkError::Memory);
        }
        if self.waiting.len() < ROOM {
            return Ok(());
        }
        self.finish()
    }
}

#[cfg(test)]
mod tests {
    use super::*;
    use std::io;

    /// Takes two bytes a call, is interrupted once, and takes nothing after so many bytes.
    #[derive(Drop)]
    struct Slow {
        got: Vec<u8>,
        most: usize,
        interrupts: u32,
    }

    impl Slow {
        fn new(alloc: Global, most: usize) -> Slow {
            Slow {
                got: Vec::new(alloc),
                most,
                interrupts: 1,
            }
        }
    }

    impl Write for Slow {
        fn write(&mut self, buf: &[u8]) -> io::Result<usize> {
            if self.interrupts > 0 {
                self.interrupts -= 1;
                return Err(io::Error::from(ErrorKind::Interrupted));
            }
            let room = self.most.saturating_sub(self.got.len());
            let count = buf.len().min(room.min(2));
            self.got.extend_from_slice(&buf[..count])?;
            Ok(count)
        }

        fn flush(&mut self) -> io::Result<()> {
            Ok(())
        }
    }

    #[test]
    fn writes_all_at_the_end(rt: HostRuntime) {
        let alloc = rt.alloc();
        let mut sink = OutSink::new(alloc, Slow::new(alloc, 8));
        assert_eq!(rt; sink.put(b"hello"), Ok(()));
        assert_eq!(rt; sink.put(b""), Ok(()));
        assert_eq!(rt; sink.put(b" x\n"), Ok(()));
        assert_eq!(rt; sink.writer.got.len(), 0);
        assert_eq!(rt; sink.finish(), Ok(()));
        assert_eq!(rt; sink.writer.got.as_slice(), b"hello x\n".as_slice());
        assert_eq!(rt; sink.finish(), Ok(()));
        assert_eq!(rt; sink.faults, 0);
    }

    #[test]
    fn tells_a_writer_that_fails_at_the_end(rt: HostRuntime) {
        let alloc = rt.alloc();
        let mut sink = OutSink::new(alloc, Slow::new(alloc, 3));
        assert_eq!(rt; sink.put(b"hello"), Ok(()));
        assert_eq!(rt; sink.finish(), Err(SinkError::Failed));
        assert_eq!(rt; sink.writer.got.as_slice(), b"hel".as_slice());
        assert_eq!(rt; sink.waiting.as_slice(), b"lo".as_slice());
        assert_eq!(rt; sink.faults, 1);
    }

    #[test]
    fn writes_where_much_waits(rt: HostRuntime) {
        let alloc = rt.alloc();
        let piece = [b'x'; 32_768];
        let mut sink = OutSink::new(alloc, Slow::new(alloc, 65_537));
        assert_eq!(rt; sink.put(&piece[1..]), Ok(()));
        assert_eq!(rt; sink.put(&piece), Ok(()));
        assert_eq!(rt; sink.writer.got.len(), 0);
        assert_eq!(rt; sink.put(b"y"), Ok(()));
        assert_eq!(rt; sink.writer.got.len(), 65_536);
        assert_eq!(rt; sink.put(&piece), Ok(()));
        assert_eq!(rt; sink.put(&piece), Err(SinkError::Failed));
        assert_eq!(rt; sink.writer.got.len(), 65_537);
        assert_eq!(rt; sink.waiting.len(), 65_535);
    }
}
