// Subroutines that are put behind what stands so far of a design.
ghost use Rattle.std.specs.Prelude.{List};
ghost use Rattle.sv_names.specs.declared.checked.Checked.{Checked as checked};
ghost use Rattle.sv_names.specs.Joined.{joined};
ghost use Rattle.sv_names.specs.Subroutines.{MadeSubroutine};
ghost use Rattle.sv_elab_parts.specs.declared.so_far.SoFar.{SoFar as so_far};
ghost use Rattle.sv_elab_member.specs.Putting.{Putting};

use sv_names::{Refusal, first};

/// Subroutines, and further ones behind them.
#[tactic(auto, using(crate::proofs::PuttingLaws::put_behind))]
pub fn and_putting(done: Result<(), Refusal>, next: Result<(), Refusal>) -> Result<(), Refusal>
    ensures { (a b c : so_far) (xs ys : checked (List MadeSubroutine))
        → Putting a b done xs → Putting b c next ys → Putting a c result (joined xs ys) }
{
    match done {
        Ok(()) => next,
        Err(e) => match next {
            Ok(()) => Err(e),
            Err(f) => Err(first(e, f)),
        },
    }
}
