// Logs and shelves that fail.
ghost use Rattle.std.specs.Prelude.{Some};

use super::words_of;
use std::marker::Model;
use std::test::Fail;
use sv_io::{GoodShelf, GoodSink, MemShelf, MemSink, Sink, SinkError};
use sv_simulate::simulate;

#[test]
fn puts_nothing_behind_a_failed_put(rt: HostRuntime) -> Result<(), Fail> {
    let alloc = rt.alloc();
    let text = b"module t; initial begin $display(\"a\"); $display(\"b\"); end endmodule";
    for (call, keep, log) in [
        (1, 0, ""),
        (1, 1, "a"),
        (1, 9, "a\n"),
        (2, 1, "a\nb"),
        (2, 9, "a\nb\n"),
        (3, 5, "a\nb\nsvsim"),
        (3, 99, "a\nb\nsvsim: done at 0\n"),
    ] {
        let mut shelf = GoodShelf::new(alloc);
        shelf.add("a.sv", text)?;
        let mut out = MemSink::new(alloc);
        out.fail_at(call, keep)?;
        let words = words_of(alloc, &["run", "a.sv"])?;
        assert_eq!(rt;
            simulate(alloc, &words, &mut shelf, &mut out),
            6,
            "at {call}, {keep}"
        );
        assert_eq!(rt; out.bytes(), log.as_bytes(), "at {call}, {keep}");
    }
    Ok(())
}

/// A sink that finds no memory at one call, counted from 1.
#[derive(Drop)]
struct ShortSink {
    got: GoodSink,
    calls: u32,
    short: u32,
}

impl Model for ShortSink {
    ghost use Rattle.std.specs.Prelude.{List, ℕ};

    ghost Value = { List ℕ };

    ghost view = { λ s. s.got };
}

impl Sink for ShortSink {
    ghost bytes = { λ s. Some s };

    ghost faults = { λ _. 0 };

    fn put(&mut self, piece: &[u8]) -> Result<(), SinkError> {
        self.calls = self.calls.saturating_add(1);
        if self.calls == self.short {
            return Err(SinkError::Memory);
        }
        self.got.put(piece)
    }
}

#[test]
fn tells_a_log_without_memory(rt: HostRuntime) -> Result<(), Fail> {
    let alloc = rt.alloc();
    let text = b"module t; initial begin $display(\"a\"); $display(\"b\"); end endmodule";
    for (short, log) in [
        (1, "svsim: out of memory\n"),
        (2, "a\nsvsim: out of memory\n"),
        (3, "a\nb\n"),
    ] {
        let mut shelf = GoodShelf::new(alloc);
        shelf.add("a.sv", text)?;
        let mut out = ShortSink {
            got: GoodSink::new(alloc),
            calls: 0,
            short,
        };
        let words = words_of(alloc, &["run", "a.sv"])?;
        assert_eq!(rt;
            simulate(alloc, &words, &mut shelf, &mut out),
            8,
            "at {short}"
        );
        assert_eq!(rt; out.got.bytes(), log.as_bytes(), "at {short}");
    }
    Ok(())
}

#[test]
fn tells_a_file_that_is_not_read(rt: HostRuntime) -> Result<(), Fail> {
    let alloc = rt.alloc();
    let mut shelf = MemShelf::new(alloc);
    shelf.add("a.sv", b"module t; endmodule")?;
    shelf.fail_at(2, 0)?;
    for (file, log) in [
        ("b.sv", "svsim: b.sv: not read\n"),
        ("a.sv", "svsim: a.sv: not read\n"),
    ] {
        let mut out = GoodSink::new(alloc);
        let words = words_of(alloc, &["run", file])?;
        assert_eq!(rt;
            simulate(alloc, &words, &mut shelf, &mut out),
            5,
            "at {file}"
        );
        assert_eq!(rt; out.bytes(), log.as_bytes(), "at {file}");
    }
    Ok(())
}
