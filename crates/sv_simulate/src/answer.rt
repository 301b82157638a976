// Does what the words ask, up to the closing line.
ghost use Rattle.std.specs.Prelude.{◌≡◌, ◌≤◌, ◌^◌, List, ℕ, Some, length, map, string_bytes};
ghost use Rattle.sv_simulate.specs.Answered.{Answers, Fetched, shelf_seen, log_seen};
ghost use Rattle.sv_simulate.specs.Simulated.{texts};
ghost use Rattle.sv_words.specs.Words.{MOST_FILES, asked, asked_for};
ghost use Rattle.sv_simulate.specs.declared.answer.FetchFault.TheVariants.{Memory};

use crate::lines::{not_read_line, too_long_line, usage_line};
use crate::run::{Closing, Cut, run_texts};
use std::alloc::{AllocFailed, Global};
use sv_io::{Fetch, Shelf, Sink};
use sv_words::{Limits, Simulation, Task, WordFault, read_words};

/// Does what the words ask, and gives the closing.
pub fn answer<F: Shelf, O: Sink>(
    alloc: Global,
    words: &Vec<String>,
    limits: Limits,
    shelf: &mut F,
    out: &mut O,
) -> Result<Closing, Cut>
    requires { limits.bytes ≤ 2 ^ 23 }
    ensures { Answers limits (texts words.now) (shelf_seen F.files F.faults F.failed shelf.old shelf.new)
        (log_seen O.bytes O.faults out.old out.new) result }
{
    match read_words(alloc, words, limits) {
        Ok(Task::Run(simulation)) => run_files(alloc, simulation, limits, shelf, out),
        Err(WordFault::Usage) => Ok(Closing {
            line: usage_line(alloc)?,
            status: 2,
        }),
        Err(WordFault::Memory) => Err(Cut::Memory),
    }
}

/// Fetches the files of a simulation and runs their texts, and gives the closing.
fn run_files<F: Shelf, O: Sink>(
    alloc: Global,
    simulation: Simulation<'_>,
    limits: Limits,
    shelf: &mut F,
    out: &mut O,
) -> Result<Closing, Cut>
    requires bytes { limits.bytes ≤ 2 ^ 23 }
    requires few { length simulation.files.now ≤ MOST_FILES }
    ensures { (words : List (List ℕ)) → asked limits words ≡ Some (asked_for simulation.entry) → Answers limits words
        (shelf_seen F.files F.faults F.failed shelf.old shelf.new) (log_seen O.bytes O.faults out.old out.new) result }
{
    match fetch_all(alloc, simulation.files, limits.bytes, shelf) {
        Ok(texts) => run_texts(alloc, simulation, &texts, out),
        Err(FetchFault::Long(name)) => Ok(Closing {
            line: too_long_line(alloc, name)?,
            status: 5,
        }),
        Err(FetchFault::Failed(name)) => Ok(Closing {
            line: not_read_line(alloc, name)?,
            status: 5,
        }),
        Err(FetchFault::Memory) => Err(Cut::Memory),
    }
}

/// Why the texts of files were not fetched.
#[derive(Clone, Copy)]
enum FetchFault<'a> {
    /// The file with this name has more bytes than are left.
    Long(&'a str),
    /// The shelf did not give the file with this name.
    Failed(&'a str),
    /// Memory ran out.
    Memory,
}

impl<'a, T: Drop> From<AllocFailed<T>> for FetchFault<'a> {
    ghost from_gives = { λ _ e. e ≡ Memory };

    fn from(_: AllocFailed<T>) -> Self {
        FetchFault::Memory
    }
}

/// Fetches files in their order, which may have so many bytes together.
fn fetch_all<'a, F: Shelf>(
    alloc: Global,
    names: &'a [String],
    limit: u64,
    shelf: &mut F,
) -> Result<Vec<Vec<u8>>, FetchFault<'a>>
    ensures { Fetched limit (map string_bytes names.now) (shelf_seen F.files F.faults F.failed shelf.old shelf.new) result }
{
    let mut texts = Vec::new(alloc);
    let mut left = limit;
    for file in names {
        let name = file.as_str();
        match shelf.fetch(alloc, name, left) {
            Ok(text) => {
                left -= text.len() as u64;
                texts.push(text)?;
            }
            Err(Fetch::Long) => return Err(FetchFault::Long(name)),
            Err(Fetch::Failed) => return Err(FetchFault::Failed(name)),
            Err(Fetch::Memory) => return Err(FetchFault::Memory),
        }
    }
    Ok(texts)
}
