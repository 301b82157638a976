// Runs the texts of files.
ghost use Rattle.std.specs.Prelude.{◌≡◌, ◌≢◌, ◌≤◌, ◌^◌, ◌<◌, List, IfOk, OnOk, IsErrOf, map, option_map, string_bytes, [], length, true};
ghost use mathlib.Core.List.{IsPrefix};
ghost use Rattle.sv_io.specs.Faults.{Rose};
ghost use Rattle.sv_io.specs.Outside.{appended, AppendsPrefix};
ghost use Rattle.sv_kernel.specs.Outcomes.{IsWhole, outcome_of};
ghost use Rattle.sv_flat.specs.Config.{Record};
ghost use Rattle.sv_flat.specs.Directed.{log_of, log_text};
ghost use Rattle.sv_simulate.specs.Answered.{Closes, Gives, PutsRecords, PutsWhole, log_seen};
ghost use Rattle.sv_simulate.specs.Said.{SaysOn, name_of, closing, status_of, run_of, refusal, first_place, IsLine};
ghost use Rattle.sv_simulate.specs.Source.{bytes_of, contents};
ghost use Rattle.sv_words.specs.Words.{asked_for};
ghost use Rattle.sv_simulate.specs.declared.run.Cut.TheVariants.{Memory};

use crate::front::{FrontFault, read_design, refusal_text, syntax_text};
use crate::lines::{broken_line, done_line, fault_line, refused_line, spent_line};
use std::alloc::{AllocError, Global};
use sv_built::Design;
use sv_flat::Choices;
use sv_io::Sink;
use sv_kernel::{Kernel, Outcome};
use sv_value::{NoMemory, Place, Seq};
use sv_words::Simulation;

/// What cut a call short.
#[derive(Clone, Copy, Debug, PartialEq, Eq)]
pub enum Cut {
    LogFailed,
    Memory,
}

impl From<AllocError> for Cut {
    ghost from_gives = { λ _ e. e ≡ Memory };

    fn from(_: AllocError) -> Self {
        Cut::Memory
    }
}

impl From<NoMemory> for Cut {
    ghost from_gives = { λ _ e. e ≡ Memory };

    fn from(_: NoMemory) -> Self {
        Cut::Memory
    }
}

/// The last line and the status.
#[derive(Drop)]
pub struct Closing {
    pub line: String,
    pub status: u8,
}

/// The name of the file with this number.
fn name_of(files: &[String], number: u16) -> &str
    ensures { result.now ≡ name_of (map string_bytes files.now) number }
{
    match files.get(number as usize) {
        Some(name) => name.as_str(),
        None => "",
    }
}

/// The closing of a run that ended so.
fn closing_of(
    alloc: Global,
    files: &[String],
    steps: u64,
    time: u64,
    outcome: Outcome,
) -> Result<Closing, Cut>
    ensures whole { IfOk result (λ _. IsWhole outcome) }
    ensures line { IfOk result (λ c. string_bytes c.line ≡ closing (map string_bytes files.now) steps time outcome) }
    ensures status { IfOk result (λ c. c.status ≡ status_of outcome) }
    ensures own { IfOk result (λ c. c.status < 6) }
    ensures is_line { IfOk result (λ c. IsLine (string_bytes c.line)) }
    ensures log_failed { IsErrOf result Cut.LogFailed → outcome ≡ Outcome.LogFailed }
    ensures no_other { result ≢ Err Cut.LogFailed → outcome ≢ Outcome.LogFailed }
{
    match outcome {
        Outcome::Done => Ok(Closing {
            line: done_line(alloc, time)?,
            status: 0,
        }),
        Outcome::Spent => Ok(Closing {
            line: spent_line(alloc, steps, time)?,
            status: 3,
        }),
        Outcome::Fault(fault) => Ok(Closing {
            line: fault_line(alloc, name_of(files, fault.at.file), &fault)?,
            status: 4,
        }),
        Outcome::LogFailed => Err(Cut::LogFailed),
        Outcome::Memory => Err(Cut::Memory),
    }
}

fn no_choices(alloc: Global) -> Choices
    ensures { result ≡ Choices.Listed [] }
{
    Choices::Listed(Seq::new(alloc))
}

/// Runs a design and puts the records, and gives the closing.
fn run_design<O: Sink>(
    alloc: Global,
    files: &[String],
    active: Seq<u32>,
    steps: u64,
    design: Design,
    out: &mut O,
) -> Result<Closing, Cut>
    ensures records { OnOk result (O.bytes out.new ≡ appended (O.bytes out.old) (log_text true (run_of active steps design))) }
    ensures line { IfOk result (λ c. string_bytes c.line
        ≡ closing (map string_bytes files.now) steps (run_of active steps design).time (outcome_of (run_of active steps design))) }
    ensures status { IfOk result (λ c. c.status ≡ status_of (outcome_of (run_of active steps design))) }
    ensures put { AppendsPrefix (O.bytes out.old) (O.bytes out.new) (log_text true (run_of active steps design)) }
    ensures memory { IsErrOf result Cut.Memory → (rs : List Record) × IsPrefix rs (run_of active steps design).records
        × (O.bytes out.new ≡ appended (O.bytes out.old) (log_of true rs)) }
    ensures own { IfOk result (λ c. c.status < 6) }
    ensures is_line { IfOk result (λ c. IsLine (string_bytes c.line)) }
    ensures cause { IsErrOf result Cut.LogFailed → Rose (O.faults out.old) (O.faults out.new) }
    ensures only_cause { result ≢ Err Cut.LogFailed → O.faults out.new ≡ O.faults out.old }
{
    let mut kernel = Kernel::new(alloc, design, Choices::Listed(active), no_choices(alloc))?;
    let end = kernel.run(steps, out);
    closing_of(alloc, files, steps, kernel.time(), end.outcome)
}

/// The first place of the first file.
fn first_place() -> Place
    ensures { result ≡ first_place }
{
    Place {
        file: 0,
        line: 1,
        col: 1,
    }
}

/// The closing of files that have no design.
fn refused(alloc: Global, files: &[String], fault: FrontFault) -> Result<Closing, Cut>
    ensures line { IfOk result (λ c. string_bytes c.line ≡ refusal (map string_bytes files.now) fault) }
    ensures status { IfOk result (λ c. c.status ≡ 1) }
    ensures is_line { IfOk result (λ c. IsLine (string_bytes c.line)) }
    ensures no_memory { IfOk result (λ c. fault ≢ FrontFault.Memory) }
    ensures no_cause { result ≢ Err Cut.LogFailed }
{
    let line = match fault {
        FrontFault::Lexical { at, kind } => {
            refused_line(alloc, name_of(files, at.file), at, refusal_text(kind))?
        }
        FrontFault::Syntax { at, kind } => {
            refused_line(alloc, name_of(files, at.file), at, syntax_text(kind))?
        }
        FrontFault::Rule { rule, at } => broken_line(alloc, name_of(files, at.file), at, rule)?,
        FrontFault::NotYet => refused_line(alloc, name_of(files, 0), first_place(), "not yet")?,
        FrontFault::Memory => return Err(Cut::Memory),
    };
    Ok(Closing { line, status: 1 })
}

/// The bytes of a name.
fn bytes_of_name(name: Option<&str>) -> Option<&[u8]>
    ensures { option_map (λ x. x.now) result ≡ option_map (λ x. x.now) name.entry }
{
    match name {
        Some(name) => Some(name.as_bytes()),
        None => None,
    }
}

/// Runs the texts of the files of a simulation and puts the records, and gives the closing.
pub fn run_texts<O: Sink>(
    alloc: Global,
    simulation: Simulation<'_>,
    texts: &[Vec<u8>],
    out: &mut O,
) -> Result<Closing, Cut>
    requires few { length texts.now < 2 ^ 16 }
    requires short { bytes_of (contents texts.now) ≤ 2 ^ 23 }
    ensures said { IfOk result (λ c. Gives (SaysOn (asked_for simulation.entry) (contents texts.now)) (log_seen O.bytes O.faults out.old out.new) c) }
    ensures put { PutsRecords (asked_for simulation.entry) (contents texts.now) (log_seen O.bytes O.faults out.old out.new) }
    ensures memory { IsErrOf result Cut.Memory
        → PutsWhole (asked_for simulation.entry) (contents texts.now) (log_seen O.bytes O.faults out.old out.new) }
    ensures closes { Closes (log_seen O.bytes O.faults out.old out.new) result }
{
    let Simulation {
        files,
        top,
        active,
        steps,
    } = simulation;
    match read_design(alloc, texts, bytes_of_name(top)) {
        Ok(design) => run_design(alloc, files, active, steps, design, out),
        Err(fault) => refused(alloc, files, fault),
    }
}
