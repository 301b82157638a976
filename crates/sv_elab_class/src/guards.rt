// Rules that guard a value.
ghost use Rattle.std.specs.Prelude.{◌≡◌};
ghost use Rattle.sv_names.specs.Checked as rules;

use sv_names::{Checked, Fault};
use sv_value::Place;

/// The rule at a place, where it is broken there.
pub fn rule(rule: u8, at: Place, is_broken: bool) -> Checked<()>
    ensures { result ≡ rules.rule rule at is_broken }
{
    if is_broken {
        Checked::Broken(Fault { at, rule })
    } else {
        Checked::Good(())
    }
}
