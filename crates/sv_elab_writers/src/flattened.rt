// What is met on the walk, as the rules on writers take it.
ghost use Rattle.std.specs.Prelude.{◌≡◌, ◌++◌, [], length, flat_map, map, IfOk, OnOk};
ghost use Rattle.sv_names.specs.Sources as sources;
ghost use Rattle.sv_elab_writers.specs.Views.{routine_in, process_in, met_in, row_in, source_in};

use crate::{Met, Process, Routine, Row, Source};
use std::alloc::Global;
use sv_value::{NoMemory, Seq};

/// Appends subroutines to a table.
#[tactic(auto, using(crate::proofs::FlatLaws::row_turn, crate::proofs::FlatLaws::all_rows))]
fn add_rows<'a>(table: &'a [Routine], rows: &mut Seq<Row<'a>>) -> Result<(), NoMemory>
    ensures { OnOk result (map row_in rows.new ≡ map row_in rows.old ++ map routine_in table.now) }
{
    let mut left = table;
    while let [one, rest @ ..] = left {
        rows.push(Row {
            path: one.path.as_slice(),
            touches: one.touches.as_slice(),
        })?;
        left = rest;
    }
    Ok(())
}

/// The subroutines of what is met.
#[tactic(auto, using(crate::proofs::FlatLaws::rows_turn, crate::proofs::FlatLaws::all_rows))]
pub(crate) fn table_of<'a>(alloc: Global, mets: &'a [Met]) -> Result<Seq<Row<'a>>, NoMemory>
    ensures { IfOk result (λ rows. map row_in rows ≡ flat_map (λ m. m.table) (map met_in mets.now)) }
{
    let mut rows = Seq::new(alloc);
    let mut left = mets;
    while let [one, rest @ ..] = left {
        add_rows(one.table.as_slice(), &mut rows)?;
        left = rest;
    }
    Ok(rows)
}

/// Appends processes, which are numbered from those before on.
#[tactic(auto, using(crate::proofs::FlatLaws::source_turn, crate::proofs::FlatLaws::all_sources))]
fn add_sources<'a>(processes: &'a [Process], numbered: &mut Seq<Source<'a>>) -> Result<(), NoMemory>
    ensures { OnOk result (map source_in numbered.new
        ≡ map source_in numbered.old ++ sources.numbered (length numbered.old) (map process_in processes.now)) }
{
    let mut left = processes;
    while let [one, rest @ ..] = left {
        numbered.push(Source {
            process: numbered.as_slice().len(),
            writer: one.writer,
            touches: one.touches.as_slice(),
        })?;
        left = rest;
    }
    Ok(())
}

/// The processes of what is met, each with a number of its own.
pub(crate) fn sources_of<'a>(alloc: Global, mets: &'a [Met]) -> Result<Seq<Source<'a>>, NoMemory>
    ensures { IfOk result (λ ss. map source_in ss ≡ sources.numbered 0 (flat_map (λ m. m.processes) (map met_in mets.now))) }
{
    let mut numbered = Seq::new(alloc);
    let mut left = mets;
    while let [one, rest @ ..] = left {
        add_sources(one.processes.as_slice(), &mut numbered)?;
        left = rest;
    }
    Ok(numbered)
}
