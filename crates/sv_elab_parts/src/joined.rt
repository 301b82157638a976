// What several items give, one after another.
ghost use Rattle.std.specs.Prelude.{List};
ghost use Rattle.sv_names.specs.declared.checked.Checked.{Checked as checked};
ghost use Rattle.sv_names.specs.Checked.{◌where_also◌};
ghost use Rattle.sv_names.specs.Given.{Gives};
ghost use Rattle.sv_names.specs.Items.{GivenParts};
ghost use Rattle.sv_elab_parts.specs.declared.so_far.SoFar.{SoFar as so_far};
ghost use Rattle.sv_elab_parts.specs.Adding.{Adding, AddingAll, behind};

use sv_names::{Refusal, first};

/// What items give, and one more behind them.
#[tactic(auto, using(crate::proofs::AddingLaws::added_behind))]
pub fn and_adding(done: Result<(), Refusal>, next: Result<(), Refusal>) -> Result<(), Refusal>
    ensures { (a b c : so_far) (xs : checked (List GivenParts)) (x : checked GivenParts)
        → AddingAll a b done xs → Adding b c next x → AddingAll a c result (behind xs x) }
{
    match done {
        Ok(()) => next,
        Err(e) => match next {
            Ok(()) => Err(e),
            Err(f) => Err(first(e, f)),
        },
    }
}

/// What an item gives, which a further rule guards.
pub fn guarded_adding(item: Result<(), Refusal>, guard: Result<(), Refusal>) -> Result<(), Refusal>
    ensures { (a b : so_far) (x : checked GivenParts) (y : checked (Unit {0}))
        → Adding a b item x → Gives guard y → Adding a b result (x where_also y) }
{
    match item {
        Ok(()) => guard,
        Err(e) => match guard {
            Ok(()) => Err(e),
            Err(f) => Err(first(e, f)),
        },
    }
}
