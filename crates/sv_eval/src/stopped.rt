// Why an expression has no value.
ghost use Rattle.std.specs.Prelude.{◌≡◌};
ghost use Rattle.sv_eval.specs.declared.stopped.Stopped.TheVariants.{Memory};

use sv_value::{FaultKind, NoMemory};

/// Why an expression has no value.
#[derive(Clone, Copy, Debug, PartialEq, Eq)]
pub enum Stopped {
    /// Memory ran out. No contract excludes it.
    Memory,
    /// The fault that the expression meets.
    Fault(FaultKind),
}

impl From<NoMemory> for Stopped {
    ghost from_gives = { λ _ e. e ≡ Memory };

    fn from(_: NoMemory) -> Self {
        Stopped::Memory
    }
}
