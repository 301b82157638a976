// Rules on where a statement may wait (IEEE 1800-2017, 9.2.2.4 and 13.4.4): E27, E28.
ghost use Rattle.sv_names.specs.Calls as calls;
ghost use Rattle.sv_names.specs.Given.{Gives};
ghost use Rattle.sv_names.specs.Statements as statements;
ghost use Rattle.sv_names.specs.Views.{around_in};

use sv_elab_assign::timing_stands;
use sv_elab_expr::sv_elab_value::rule;
use sv_names::{Around, Refusal, where_also};
use sv_value::Place;

/// E27: what may wait stands where nothing may.
pub fn wait_stands(around: &Around, at: Place) -> Result<(), Refusal>
    ensures { Gives result (calls.wait_stands (around_in around.now) at) }
{
    rule(27, at, around.may_not_wait)
}

/// E27, E28: a timing control, where it stands (IEEE 1800-2017, 9.4).
pub fn may_wait_here(around: &Around, at: Place) -> Result<(), Refusal>
    ensures { Gives result (statements.may_wait_here (around_in around.now) at) }
{
    where_also(wait_stands(around, at), timing_stands(around))
}
