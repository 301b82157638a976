// The objects that processes and subroutines write.
ghost use Rattle.std.specs.Prelude.{◌≡◌, flat_map, map, OnOk};
ghost use Rattle.sv_names.specs.Writers as writers;
ghost use Rattle.sv_elab_writers.specs.Views.{touch_in, writer_in, source_in, row_in, Written};

use crate::{Row, Source, Touch, Writer};
use sv_value::{NoMemory, Place, Seq, Text};

/// An object that a process writes.
#[derive(Clone, Copy)]
pub(crate) struct Write<'a> {
    /// The target.
    pub at: Place,
    /// The path of the object.
    pub object: &'a [Text],
    /// The number of the process.
    pub process: usize,
    /// How it writes.
    pub writer: Writer,
}

/// Appends the write that a touch is.
#[tactic(auto, using(crate::proofs::WrittenLaws::written_none, crate::proofs::WrittenLaws::written_one))]
fn add_write<'a>(
    process: usize,
    writer: Writer,
    touch: &'a Touch,
    writes: &mut Seq<Write<'a>>,
) -> Result<(), NoMemory>
    ensures { OnOk result (Written writes.old writes.new (writers.write_in process (writer_in writer) (touch_in touch.now))) }
{
    match touch {
        Touch::Writes { at, object } => writes.push(Write {
            at: *at,
            object: object.as_slice(),
            process,
            writer,
        }),
        Touch::Calls(_) => Ok(()),
        Touch::CallsVirtual { .. } => Ok(()),
        Touch::Declares { .. } => Ok(()),
    }
}

/// Appends the writes among touches.
#[tactic(auto, using(crate::proofs::WrittenLaws::turn_written, crate::proofs::WrittenLaws::all_written))]
pub(crate) fn add_writes<'a>(
    process: usize,
    writer: Writer,
    touches: &'a [Touch],
    writes: &mut Seq<Write<'a>>,
) -> Result<(), NoMemory>
    ensures { OnOk result (Written writes.old writes.new
        (flat_map (writers.write_in process (writer_in writer)) (map touch_in touches.now))) }
{
    let mut left = touches;
    while let [one, rest @ ..] = left {
        add_write(process, writer, one, writes)?;
        left = rest;
    }
    Ok(())
}

/// Appends what processes write themselves.
#[tactic(auto, using(crate::proofs::WrittenLaws::turn_written, crate::proofs::WrittenLaws::all_written))]
pub(crate) fn add_own_writes<'a>(
    sources: &[Source<'a>],
    writes: &mut Seq<Write<'a>>,
) -> Result<(), NoMemory>
    ensures { OnOk result (Written writes.old writes.new (flat_map writers.writes_of (map source_in sources.now))) }
{
    let mut left = sources;
    while let [one, rest @ ..] = left {
        add_writes(one.process, one.writer, one.touches, writes)?;
        left = rest;
    }
    Ok(())
}

/// Appends what all subroutines write, called or not.
#[tactic(auto, using(crate::proofs::WrittenLaws::turn_written, crate::proofs::WrittenLaws::all_written))]
pub(crate) fn add_table_writes<'a>(
    table: &[Row<'a>],
    writes: &mut Seq<Write<'a>>,
) -> Result<(), NoMemory>
    ensures { OnOk result (Written writes.old writes.new (writers.table_writes (map row_in table.now))) }
{
    let mut left = table;
    while let [one, rest @ ..] = left {
        add_writes(0, Writer::NoProcess, one.touches, writes)?;
        left = rest;
    }
    Ok(())
}
