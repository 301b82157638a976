// What a process waits for, and where it stands.
ghost use Rattle.std.specs.Prelude.{◌≡◌};

use sv_arena::Name;
use sv_built::Wait;

/// What a process waits for, and the scope in which it sees it (IEEE 1800-2017, 6.21 and 9.4.2).
#[derive(Clone, Copy)]
pub struct Waiter {
    pub wait: Wait,
    /// The innermost activation, or none outside of all.
    pub scope: Option<Name>,
}
