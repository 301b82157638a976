// Processes and subroutines with their touches, as the rules on writers look them up.

use crate::{Touch, Writer};
use sv_value::Text;

/// The touches of a subroutine by its path.
#[derive(Clone, Copy)]
pub struct Row<'a> {
    /// Its name from the root.
    pub path: &'a [Text],
    /// What it does.
    pub touches: &'a [Touch],
}

/// The touches of a process, each process with a number of its own.
#[derive(Clone, Copy)]
pub struct Source<'a> {
    /// Its number.
    pub process: usize,
    /// How it writes.
    pub writer: Writer,
    /// What it does.
    pub touches: &'a [Touch],
}
