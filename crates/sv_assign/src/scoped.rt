// The activations around what is run.
ghost use Rattle.std.specs.Prelude.{◌≡◌};

use sv_arena::Name;
use sv_eval::Values;

/// A place that has values, seen from a scope whose activations have names (IEEE 1800-2017, 6.21).
pub trait Scoped: Values {
    /// The name of the activation that is so many levels further out.
    fn name(&self, up: u32) -> Option<Name>
        ensures { result ≡ (Self.view self.now).name up };
}
