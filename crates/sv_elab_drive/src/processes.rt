// Processes of one assignment (IEEE 1800-2017, 10.3.2 and 23.3.3).
ghost use Rattle.std.specs.Prelude.{◌≡◌, [], ◌∷◌, ◌++◌, length, IfOk, IfErr, OnOk};
ghost use Rattle.sv_names.specs.declared.refusal.Refusal.TheVariants.{Memory};
ghost use Rattle.sv_names.specs.Code as code;
ghost use Rattle.sv_names.specs.Connections as connections;
ghost use Rattle.sv_names.specs.Views.{around_in};

use crate::watched::watched_by;
use std::alloc::Global;
use sv_flat::{Form, Process, ProcessKind, Routine, Stmt};
use sv_names::{Around, Hoisted, Refusal, copy_path};
use sv_value::{Place, RoutineId, Seq, Side};

/// A list of one statement, whose calls stand before it.
fn statement(alloc: Global, at: Place, form: Hoisted<Form>) -> Result<Seq<Stmt>, Refusal>
    ensures ok { IfOk result (λ list. list ≡ code.statement at form ∷ []) }
    ensures err { IfErr result (λ e. e ≡ Memory) }
{
    let mut list = Seq::new(alloc);
    list.push(Stmt {
        at,
        hidden: form.hidden,
        calls: form.calls,
        form: form.value,
    })?;
    Ok(list)
}

/// A process whose body is one assignment, in a routine of its own.
pub fn assigning(
    alloc: Global,
    around: &Around,
    at: Place,
    kind: ProcessKind,
    form: Hoisted<Form>,
    routines: &mut Seq<Routine>,
) -> Result<Process, Refusal>
    ensures ok { IfOk result (λ p. p
        ≡ ((connections.assigning (around_in around.now) at kind (code.single at form)).make (length routines.old)).0) }
    ensures added { OnOk result (routines.new
        ≡ routines.old ++ ((connections.assigning (around_in around.now) at kind (code.single at form)).make (length routines.old)).1) }
    ensures err { IfErr result (λ e. e ≡ Memory) }
{
    let body = statement(alloc, at, form)?;
    let watched = watched_by(alloc, body.as_slice())?;
    let path = copy_path(alloc, around.unit)?;
    let id = RoutineId(routines.as_slice().len() as u64);
    routines.push(Routine {
        at,
        body,
        subroutine: None,
    })?;
    Ok(Process {
        at,
        path,
        kind,
        side: Side::Active,
        program: None,
        body: id,
        watched,
    })
}
