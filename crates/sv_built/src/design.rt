// A flat design that can be run.
ghost use Rattle.std.specs.Prelude.{◌≡◌};

use std::marker::Model;
use sv_flat::{Class, Clocking, Instance, Object, Parts, Process, Routine, Scale, Stmt};
use sv_value::RoutineId;

/// A flat design that can be run: all of its forms are built.
#[derive(Drop)]
pub struct Design {
    parts: Parts,
}

impl Model for Design {
    ghost use Rattle.sv_flat.specs.declared.design.Parts.{Parts};
    ghost use Rattle.sv_flat.specs.contracts.expr.Expr as expr;
    ghost use Rattle.std.specs.Coded.{codes};

    ghost Value = { Parts };

    ghost coded = { Prim.hlevel (codes, expr.the_row.coded) };

    ghost view = { λ d. d.parts };

    ghost use Rattle.sv_built.specs.Built.{IsBuilt};

    ghost invariant = { λ d. IsBuilt d.parts };
}

impl Design {
    ghost use Rattle.sv_built.specs.Built.{IsBuilt};
    ghost use Rattle.sv_flat.specs.Process.{routine_of};

    /// The design of these parts, all of which must be built, as [`is_built`](crate::is_built) tells.
    pub fn new(parts: Parts) -> Self
        requires { IsBuilt parts }
        ensures { result ≡ parts }
    {
        Design { parts }
    }

    /// The nets and static variables, by number.
    pub fn objects(&self) -> &[Object]
        ensures { result.now ≡ self.now.objects }
    {
        self.parts.objects.as_slice()
    }

    /// The processes that a run begins with, by number.
    pub fn processes(&self) -> &[Process]
        ensures processes { result.now ≡ self.now.processes }
        ensures built { IsBuilt self.now }
    {
        self.parts.processes.as_slice()
    }

    /// The classes, by number.
    pub fn classes(&self) -> &[Class]
        ensures { result.now ≡ self.now.classes }
    {
        self.parts.classes.as_slice()
    }

    /// The routines, by number.
    pub fn routines(&self) -> &[Routine]
        ensures { result.now ≡ self.now.routines }
    {
        self.parts.routines.as_slice()
    }

    /// The statements of a routine; none where there is no such routine.
    pub fn body(&self, routine: RoutineId) -> &[Stmt]
        ensures { result.now ≡ (routine_of self.now routine).body }
    {
        match self.parts.routines.as_slice().get(routine.0 as usize) {
            Some(r) => r.body.as_slice(),
            None => &[],
        }
    }

    /// The clocking blocks, by number.
    pub fn clockings(&self) -> &[Clocking]
        ensures { result.now ≡ self.now.clockings }
    {
        self.parts.clockings.as_slice()
    }

    /// The instances, each before those in it.
    pub fn instances(&self) -> &[Instance]
        ensures { result.now ≡ self.now.instances }
    {
        self.parts.instances.as_slice()
    }

    /// The time unit and the time precision.
    pub fn scale(&self) -> Scale
        ensures { result ≡ self.now.scale }
    {
        self.parts.scale
    }
}
