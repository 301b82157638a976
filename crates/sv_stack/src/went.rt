// How far a step came.
ghost use Rattle.std.specs.Prelude.{◌≡◌, ◌∷◌, [], List, true, IfOk, OnOk};
ghost use Rattle.sv_flat.specs.declared.design.Parts.{Parts};
ghost use Rattle.sv_flat.specs.Process.{Enter};
ghost use Rattle.sv_flat.specs.Statements.Shared.{Effects};
ghost use Rattle.sv_built.specs.Entered.{types_at};
ghost use Rattle.sv_stack.specs.declared.frames.Frame.{Frame as Entry};
ghost use Rattle.sv_stack.specs.declared.effect.Effect.TheVariants.{Fail};
ghost use Rattle.sv_stack.specs.Effects.{Does, IsKept, effects_of, is_held};

use crate::Effect;
use crate::ends::put;
use sv_arena::Name;
use sv_built::Entered;
use sv_eval::Stopped;
use sv_value::{FaultKind, NoMemory};

/// Whether a step left something else to run.
#[derive(Clone, Copy, Debug, PartialEq, Eq)]
pub enum Went {
    /// What is left is what the stack tells.
    On,
    /// A fault came before, or nothing was left: all is left as it was.
    Held,
    /// An activation was made first, inside another one; then what is left is what the stack tells.
    Entered {
        entered: Entered,
        around: Option<Name>,
    },
    /// An activation was made first, inside another one; then a fault came, and all is left as it was.
    EnteredHeld {
        entered: Entered,
        around: Option<Name>,
    },
}

/// A fault is the only effect of the step that meets it.
#[cold]
#[inline(never)]
fn fail(out: &mut Vec<Effect>, kind: FaultKind) -> Result<(), NoMemory>
    ensures { OnOk result (out.new.items ≡ Fail kind ∷ []) }
{
    out.clear();
    put(out, Effect::Fail(kind))
}

/// What came of a step; a fault is its only effect.
#[inline(always)]
pub fn went_of(out: &mut Vec<Effect>, ran: Result<(), Stopped>) -> Result<Went, NoMemory>
    ensures does { IfOk result (λ w. (d : Parts) (fs : List Entry) (all : Effects)
        → Does d ran fs out.old.items all → all ≡ effects_of d w fs out.new.items) }
    ensures kept { IfOk result (λ w. (old : List Entry) (new : List Entry) → IsKept ran old new → is_held w ≡ true → new ≡ old) }
{
    match ran {
        Ok(_) => Ok(Went::On),
        Err(Stopped::Fault(kind)) => {
            fail(out, kind)?;
            Ok(Went::Held)
        }
        Err(Stopped::Memory) => Err(NoMemory::Memory),
    }
}

/// What came of a step before which an activation was made; a fault is its only other effect.
pub fn went_into(
    out: &mut Vec<Effect>,
    ran: Result<(), Stopped>,
    entered: Entered,
    around: Option<Name>,
) -> Result<Went, NoMemory>
    ensures does { IfOk result (λ w. (d : Parts) (fs : List Entry) (all : Effects)
        → Does d ran fs out.old.items all → Enter (types_at d entered) around ∷ all ≡ effects_of d w fs out.new.items) }
    ensures kept { IfOk result (λ w. (old : List Entry) (new : List Entry) → IsKept ran old new → is_held w ≡ true → new ≡ old) }
{
    match ran {
        Ok(_) => Ok(Went::Entered { entered, around }),
        Err(Stopped::Fault(kind)) => {
            fail(out, kind)?;
            Ok(Went::EnteredHeld { entered, around })
        }
        Err(Stopped::Memory) => Err(NoMemory::Memory),
    }
}
