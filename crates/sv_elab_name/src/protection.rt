// Who may name a member of a class (IEEE 1800-2017, 8.18): E37.
ghost use Rattle.std.specs.Prelude.{◌≡◌};
ghost use Rattle.sv_names.specs.Calls as calls;
ghost use Rattle.sv_names.specs.Given.{Gives};
ghost use Rattle.sv_names.specs.Views.{around_in};

use sv_names::{Around, Protection, Refusal, can_be_derived, same_path};
use sv_value::{Place, Text};

/// Whether a member of a class with this protection can be named here. What may be derived from the class behind a base that breaks a rule
/// may name what is protected.
pub fn is_within(around: &Around, protection: Protection, class: &[Text]) -> bool
    ensures { result ≡ calls.is_within (around_in around.now) protection class.now }
{
    match protection {
        Protection::Open => true,
        Protection::Local => match around.class {
            None => false,
            Some(own) => same_path(class, own),
        },
        Protection::Protected => match around.class {
            None => false,
            Some(own) => can_be_derived(around.classes, own, class),
        },
    }
}

/// E37: a member of a class is named where it may not be.
pub fn may_be_named(
    around: &Around,
    protection: Protection,
    class: &[Text],
    at: Place,
) -> Result<(), Refusal>
    ensures { Gives result (calls.may_be_named (around_in around.now) protection class.now at) }
{
    if is_within(around, protection, class) {
        Ok(())
    } else {
        Err(Refusal::Rule { rule: 37, at })
    }
}
