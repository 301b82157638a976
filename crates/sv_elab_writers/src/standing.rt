// The rules on the writers of a design (IEEE 1800-2017, 6.5, 9.2.2 and 10.3).
ghost use Rattle.std.specs.Prelude.{◌≡◌, [], flat_map, map, IfOk, OnOk};
ghost use Rattle.sv_names.specs.Given.{Gives};
ghost use Rattle.sv_names.specs.Sources as sources;
ghost use Rattle.sv_names.specs.Writers as writers;
ghost use Rattle.sv_elab_writers.specs.Processes.{process_writes, reached_writes, own_and_table, met_stand};
ghost use Rattle.sv_elab_writers.specs.Views.{source_in, row_in, write_in, writer_in, initialized_in, met_in, Written};

use crate::clashes::{Law, all_stand, is_alone, none_initialized};
use crate::flattened::{sources_of, table_of};
use crate::limits::limits_stand;
use crate::reached::reached;
use crate::table::Table;
use crate::writes::{Write, add_own_writes, add_table_writes, add_writes};
use crate::{Initialized, Met, Row, Source, Writer};
use std::alloc::Global;
use sv_names::{Checked, ClassInfo, Path, Refusal, and_guard, answer, where_also};
use sv_value::{NoMemory, Seq};

/// Whether it is a procedure.
fn is_in_process(source: Source) -> bool
    ensures { result ≡ writers.is_in_process (source_in source.entry) }
{
    match source.writer {
        Writer::Alone | Writer::Shared => true,
        Writer::Continuously | Writer::NoProcess => false,
    }
}

/// Whether there is an `always_comb` or `always_ff`.
fn has_alone(sources: &[Source]) -> bool
    ensures { result ≡ writers.has_alone (map source_in sources.now) }
{
    for source in sources {
        if is_alone(source.writer) {
            return true;
        }
    }
    false
}

/// Appends what the subroutines that a process reaches write, as its own.
#[tactic(auto, using(crate::proofs::WrittenLaws::turn_written, crate::proofs::WrittenLaws::all_written))]
fn add_reached_writes<'a>(
    source: Source,
    table: &Table<'a>,
    paths: &[Path],
    writes: &mut Seq<Write<'a>>,
) -> Result<(), NoMemory>
    ensures { OnOk result (Written writes.old writes.new
        (flat_map (reached_writes (source_in source.entry) (map row_in table.now)) paths.now)) }
{
    let mut left = paths;
    while let [one, rest @ ..] = left {
        let touches = table.touches_at(one.as_slice());
        add_writes(source.process, source.writer, touches, writes)?;
        left = rest;
    }
    Ok(())
}

/// Appends what a process writes, what the subroutines that it can call write among it.
#[tactic(auto, using(crate::proofs::WrittenLaws::written_both))]
fn add_all_writes<'a>(
    alloc: Global,
    classes: &[&ClassInfo],
    table: &Table<'a>,
    source: Source<'a>,
    writes: &mut Seq<Write<'a>>,
) -> Result<(), NoMemory>
    ensures { OnOk result (Written writes.old writes.new
        (writers.all_writes (map (λ k. k.now) classes.now) (map row_in table.now) (source_in source.entry))) }
{
    let paths = reached(alloc, classes, table, source.touches)?;
    add_writes(source.process, source.writer, source.touches, writes)?;
    add_reached_writes(source, table, paths.as_slice(), writes)
}

/// Appends what a process writes, where it is a procedure.
#[tactic(auto, using(crate::proofs::WrittenLaws::written_none))]
fn add_procedure_writes<'a>(
    alloc: Global,
    classes: &[&ClassInfo],
    table: &Table<'a>,
    source: Source<'a>,
    writes: &mut Seq<Write<'a>>,
) -> Result<(), NoMemory>
    ensures { OnOk result (Written writes.old writes.new
        (process_writes (map (λ k. k.now) classes.now) (map row_in table.now) (source_in source.entry))) }
{
    if !is_in_process(source) {
        return Ok(());
    }
    add_all_writes(alloc, classes, table, source, writes)
}

/// Appends what all procedures write.
#[tactic(auto, using(crate::proofs::WrittenLaws::turn_written, crate::proofs::WrittenLaws::all_written))]
fn add_all_procedures<'a>(
    alloc: Global,
    classes: &[&ClassInfo],
    table: &Table<'a>,
    sources: &[Source<'a>],
    writes: &mut Seq<Write<'a>>,
) -> Result<(), NoMemory>
    ensures { OnOk result (Written writes.old writes.new
        (flat_map (process_writes (map (λ k. k.now) classes.now) (map row_in table.now)) (map source_in sources.now))) }
{
    let mut left = sources;
    while let [one, rest @ ..] = left {
        add_procedure_writes(alloc, classes, table, *one, writes)?;
        left = rest;
    }
    Ok(())
}

/// What all procedures write; nothing where none writes alone.
#[tactic(auto, using(crate::proofs::ProcessLaws::of_all, crate::proofs::ProcessLaws::of_none))]
fn procedures_write<'a>(
    alloc: Global,
    classes: &[&ClassInfo],
    table: &Table<'a>,
    sources: &[Source<'a>],
) -> Result<Seq<Write<'a>>, NoMemory>
    ensures { IfOk result (λ ws. map write_in ws ≡ writers.of_processes (writers.has_alone (map source_in sources.now))
        (map (λ k. k.now) classes.now) (map row_in table.now) (map source_in sources.now)) }
{
    let mut writes = Seq::new(alloc);
    if !has_alone(sources) {
        return Ok(writes);
    }
    add_all_procedures(alloc, classes, table, sources, &mut writes)?;
    Ok(writes)
}

/// What processes write themselves, and what subroutines write.
#[tactic(auto, using(crate::proofs::WrittenLaws::written_both))]
fn all_written<'a>(
    alloc: Global,
    table: &[Row<'a>],
    sources: &[Source<'a>],
) -> Result<Seq<Write<'a>>, NoMemory>
    ensures { IfOk result (λ ws. map write_in ws ≡ own_and_table (map row_in table.now) (map source_in sources.now)) }
{
    let mut writes = Seq::new(alloc);
    add_own_writes(sources, &mut writes)?;
    add_table_writes(table, &mut writes)?;
    Ok(writes)
}

/// The three rules.
fn writers_agree(
    alloc: Global,
    written: &[Write],
    by_procedures: &[Write],
    variables: &[Initialized],
) -> Result<Checked<()>, NoMemory>
    ensures { IfOk result (λ c. c ≡ writers.writers_agree (map write_in written.now) (map write_in by_procedures.now)
        (map initialized_in variables.now)) }
{
    let continuous = all_stand(alloc, Law::Continuous, written)?;
    let alone = all_stand(alloc, Law::Alone, by_procedures)?;
    let initialized = none_initialized(alloc, written, variables)?;
    Ok(and_guard(and_guard(continuous, alone), initialized))
}

/// The rules on the writers of a design.
pub fn writers_stand(
    alloc: Global,
    classes: &[&ClassInfo],
    table: &[Row],
    sources: &[Source],
    variables: &[Initialized],
) -> Result<(), Refusal>
    ensures { Gives result (writers.writers_stand (map (λ k. k.now) classes.now) (map row_in table.now) (map source_in sources.now)
        (map initialized_in variables.now)) }
{
    let written = all_written(alloc, table, sources)?;
    let table = Table::new(alloc, table)?;
    let by_procedures = procedures_write(alloc, classes, &table, sources)?;
    let stands = writers_agree(
        alloc,
        written.as_slice(),
        by_procedures.as_slice(),
        variables,
    )?;
    answer(stands)
}

/// The rules on writers and limits, over what is met.
pub fn met_stand(
    alloc: Global,
    classes: &[&ClassInfo],
    mets: &[Met],
    variables: &[Initialized],
) -> Result<(), Refusal>
    ensures { Gives result (met_stand (map (λ k. k.now) classes.now) (map met_in mets.now) (map initialized_in variables.now)) }
{
    let table = table_of(alloc, mets)?;
    let sources = sources_of(alloc, mets)?;
    let writers = writers_stand(
        alloc,
        classes,
        table.as_slice(),
        sources.as_slice(),
        variables,
    );
    where_also(writers, answer(limits_stand(mets)))
}
