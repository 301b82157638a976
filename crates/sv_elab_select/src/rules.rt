// Values beside rules.
ghost use Rattle.sv_names.specs.declared.checked.Checked.{Checked as checked};
ghost use Rattle.sv_names.specs.Checked.{◌where_also◌};
ghost use Rattle.sv_names.specs.Given.{Gives};

use sv_names::{Refusal, both};

/// A value beside a rule.
pub(crate) fn guarded<A: Drop>(a: Result<A, Refusal>, r: Result<(), Refusal>) -> Result<A, Refusal>
    ensures { (x : checked A) (y : checked (Unit {0})) → Gives a x → Gives r y → Gives result (x where_also y) }
{
    match both(a, r) {
        Ok((value, _)) => Ok(value),
        Err(e) => Err(e),
    }
}
