// Small designs: processes that print a text.
ghost use Rattle.std.specs.Prelude.{IfOk};
ghost use Rattle.sv_flat.specs.Directed.{IsListed};

use std::alloc::Global;
use sv_built::{Design, is_built};
use sv_flat::{Choices, Form, Parts, PrintKind, Process, ProcessKind, Routine, Scale, Stmt};
use sv_value::{NoMemory, Piece, Place, RoutineId, Seq, Side};

/// Where all of a small design stands.
const HERE: Place = Place {
    file: 0,
    line: 1,
    col: 1,
};

fn print_of(alloc: Global, text: &str) -> Result<Stmt, NoMemory> {
    let mut pieces = Seq::new(alloc);
    pieces.push(Piece::Plain(Seq::from_vec(text.as_bytes().to_vec(alloc)?)))?;
    Ok(Stmt {
        at: HERE,
        hidden: Seq::new(alloc),
        calls: Seq::new(alloc),
        form: Form::Print {
            kind: PrintKind::Now,
            pieces,
            values: Seq::new(alloc),
        },
    })
}

fn routines_of(alloc: Global, bodies: &[&[&str]]) -> Result<Seq<Routine>, NoMemory> {
    let mut routines = Seq::new(alloc);
    for texts in bodies {
        let mut body = Seq::new(alloc);
        for text in *texts {
            body.push(print_of(alloc, text)?)?;
        }
        routines.push(Routine {
            at: HERE,
            body,
            subroutine: None,
        })?;
    }
    Ok(routines)
}

fn processes_of(alloc: Global, sides: &[Side]) -> Result<Seq<Process>, NoMemory> {
    let mut processes = Seq::new(alloc);
    for (number, side) in sides.iter().enumerate() {
        processes.push(Process {
            at: HERE,
            path: Seq::new(alloc),
            kind: ProcessKind::Initial,
            side: *side,
            program: None,
            body: RoutineId(number as u64),
            watched: Seq::new(alloc),
        })?;
    }
    Ok(processes)
}

/// Processes on these sides, each of which prints these texts.
pub fn design_of(
    alloc: Global,
    sides: &[Side],
    bodies: &[&[&str]],
) -> Result<Option<Design>, NoMemory> {
    let parts = Parts {
        objects: Seq::new(alloc),
        processes: processes_of(alloc, sides)?,
        classes: Seq::new(alloc),
        routines: routines_of(alloc, bodies)?,
        clockings: Seq::new(alloc),
        instances: Seq::new(alloc),
        scale: Scale {
            unit: 6,
            precision: 6,
        },
    };
    if is_built(&parts) {
        Ok(Some(Design::new(parts)))
    } else {
        Ok(None)
    }
}

/// A list of choices.
pub fn listed(alloc: Global, numbers: &[u32]) -> Result<Choices, NoMemory>
    ensures { IfOk result IsListed }
{
    Ok(Choices::Listed(Seq::from_vec(numbers.to_vec(alloc)?)))
}
