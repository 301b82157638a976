// Statements that rules guard.
ghost use Rattle.std.specs.Prelude.{List};
ghost use Rattle.sv_flat.specs.declared.class.Routine.{Routine as routine};
ghost use Rattle.sv_flat.specs.declared.object.Object.{Object as object};
ghost use Rattle.sv_names.specs.declared.checked.Checked.{Checked as checked};
ghost use Rattle.sv_names.specs.Checked.{◌where_also◌};
ghost use Rattle.sv_names.specs.Code as code;
ghost use Rattle.sv_names.specs.Emits.{Emits};
ghost use Rattle.sv_names.specs.Given.{Gives};

use sv_flat::Stmt;
use sv_names::{Refusal, first};
use sv_value::Seq;

/// Statements that a further rule guards.
pub fn guarded_code(
    body: Result<Seq<Stmt>, Refusal>,
    guard: Result<(), Refusal>,
) -> Result<Seq<Stmt>, Refusal>
    ensures { (rs rs' : List routine) (os os' : List object) (x : checked code.Code) (y : checked (Unit {0}))
        → Emits rs rs' os os' body x → Gives guard y → Emits rs rs' os os' result (x where_also y) }
{
    match body {
        Ok(body) => match guard {
            Ok(()) => Ok(body),
            Err(f) => Err(f),
        },
        Err(e) => match guard {
            Ok(()) => Err(e),
            Err(f) => Err(first(e, f)),
        },
    }
}
