// What the strobes of a slot print (IEEE 1800-2017, 21.2.2).
ghost use Rattle.std.specs.Prelude.{◌≡◌, IfOk};
ghost use Rattle.sv_built.specs.Built.{IsBuilt};
ghost use Rattle.sv_machine.specs.Machine.{IsAt};
ghost use Rattle.sv_machine.specs.Machine as machines;
ghost use Rattle.sv_machine.specs.Strobes.{PrintsStrobe, PrintsStrobes};

use crate::line::Line;
use crate::machine::{Kept, Machine};
use sv_assign::Seen;
use sv_built::Design;
use sv_eval::Stopped;
use sv_flat::{Expr, Form};
use sv_process::printed;
use sv_value::{NoMemory, Piece, Place, RunFault};

/// What the strobes of a slot print, and the fault that the last of them meets.
#[derive(Drop)]
pub struct Printed {
    pub lines: Vec<Line>,
    pub fault: Option<RunFault>,
}

/// What is printed at the end of the slot.
#[derive(Clone, Copy)]
struct Strobe<'a> {
    at: Place,
    pieces: &'a [Piece],
    values: &'a [Expr],
}

/// What the statement prints that was kept.
fn strobe_at(design: &Design, kept: Kept) -> Strobe
    ensures at { result.at ≡ (machines.strobe_at design.now kept).at }
    ensures pieces { result.pieces.now ≡ (machines.strobe_at design.now kept).pieces }
    ensures values { result.values.now ≡ (machines.strobe_at design.now kept).values }
{
    match design.body(kept.position.routine).get(kept.position.place) {
        Some(stmt) => match &stmt.form {
            Form::Print { pieces, values, .. } => Strobe {
                at: kept.at,
                pieces: pieces.as_slice(),
                values: values.as_slice(),
            },
            _ => Strobe {
                at: kept.at,
                pieces: &[],
                values: &[],
            },
        },
        None => Strobe {
            at: kept.at,
            pieces: &[],
            values: &[],
        },
    }
}

/// Prints a strobe that was kept behind the others, or tells the fault that it meets.
fn print_strobe(
    machine: &Machine,
    design: &Design,
    kept: Kept,
    lines: &mut Vec<Line>,
) -> Result<Option<RunFault>, NoMemory>
    requires built { IsBuilt design.now }
    ensures { IfOk result (λ fault. PrintsStrobe design.now machine.now kept lines.old.items lines.new.items fault) }
{
    let seen = Seen {
        store: &machine.store,
        activations: &machine.activations,
        scope: None,
        time: machine.time,
        unit: design.scale().unit_ticks(),
    };
    let strobe = strobe_at(design, kept);
    match printed(machine.alloc, &seen, strobe.pieces, strobe.values) {
        Ok(text) => {
            lines.push(Line {
                side: kept.side,
                text,
            })?;
            Ok(None)
        }
        Err(Stopped::Fault(kind)) => Ok(Some(RunFault {
            kind,
            at: strobe.at,
            time: machine.time,
        })),
        Err(Stopped::Memory) => Err(NoMemory::Memory),
    }
}

/// What the strobes print that were kept, in the order of their calls, up to the first that meets a fault.
pub fn print_strobes(machine: &Machine, design: &Design) -> Result<Printed, NoMemory>
    requires at { IsAt design.now machine.now }
    requires built { IsBuilt design.now }
    ensures { IfOk result (λ p. PrintsStrobes design.now machine.now p) }
{
    let mut lines = Vec::new(machine.alloc);
    for kept in &machine.strobes {
        let fault = print_strobe(machine, design, *kept, &mut lines)?;
        if fault.is_some() {
            return Ok(Printed { lines, fault });
        }
    }
    Ok(Printed { lines, fault: None })
}
