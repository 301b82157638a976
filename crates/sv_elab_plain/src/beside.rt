// Parts of an item that stand beside one another.
ghost use Rattle.std.specs.Prelude.{◌≡◌};
ghost use Rattle.sv_elab_plain.specs.Adding.{sooner};

use sv_names::{Refusal, first};

/// What two parts answer together: the first rule that one of them breaks.
pub fn sooner(a: Result<(), Refusal>, b: Result<(), Refusal>) -> Result<(), Refusal>
    ensures { result ≡ sooner a b }
{
    match a {
        Ok(()) => b,
        Err(e) => match b {
            Ok(()) => Err(e),
            Err(f) => Err(first(e, f)),
        },
    }
}
