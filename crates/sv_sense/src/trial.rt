// A change for which processes are tried.
ghost use Rattle.std.specs.Prelude.{◌≡◌};
ghost use Rattle.sv_sense.specs.Told.{IsTold};

use crate::transition::{Transition, transition_of};
use std::alloc::Global;
use sv_assign::Before;

/// A change for which processes are tried. Where it is one of a vector, the vector before and after is found once for all of them.
#[derive(Clone, Copy)]
pub(crate) struct Trial<'b, 's, 'a, 'o> {
    pub before: &'b Before<'s, 'a, 'o>,
    pub transition: Option<Transition>,
    ghost is_told: { IsTold transition before.now },
}

impl<'b, 's, 'a, 'o> Trial<'b, 's, 'a, 'o> {
    /// The trial of a change.
    pub fn new(alloc: Global, before: &'b Before<'s, 'a, 'o>) -> Self
        ensures { result.before.now ≡ before.now }
    {
        Trial {
            before,
            transition: transition_of(alloc, before),
        }
    }
}
