// Names of activations (IEEE 1800-2017, 6.21).
use std::marker::Model;
use sv_value::ProcessId;

/// The name of an activation: who made it, and its place among those that this process made.
#[derive(Clone, Copy, Debug, PartialEq, Eq)]
pub struct Name {
    pub process: ProcessId,
    pub place: u32,
}

impl Model for Name {
    ghost use Rattle.sv_flat.specs.State.{Name as Named};

    ghost Value = { Named };

    ghost view = { λ n. record { process = n.process; place = n.place } };

    ghost inverse = { λ n. record { process = n.process; place = n.place } };
}
