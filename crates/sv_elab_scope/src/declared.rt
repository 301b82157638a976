// What scopes declare, as it is written (IEEE 1800-2017, 6, 8.4 and 23.9).
ghost use Rattle.std.specs.Prelude.{◌≡◌};
ghost use Rattle.sv_names.specs.Entries as entries;
ghost use Rattle.sv_elab_scope.specs.Views.{declared_in};

use crate::places::place_of_type;
use sv_names::{Checked, Kind, Protection, Ty, Typed};
use sv_tree::{
    ClockingItem, Dimension, Expr, Head, ImpliedType, Name, Qualifiers, Range, Routine, Sign,
    WrittenType,
};
use sv_value::{Place, Text};

/// The value of a parameter (IEEE 1800-2017, 6.20.1 and 23.10).
#[derive(Clone, Copy)]
pub enum Source<'a> {
    /// Its own.
    Own(&'a Expr),
    /// The one that an instance gives, and where.
    Given(Place, &'a Checked<Typed>),
}

/// What holds a variable (IEEE 1800-2017, 6.21 and 8.9).
#[derive(Clone, Copy)]
pub enum Storage<'a> {
    /// The design.
    Static,
    /// An activation.
    Activation,
    /// Each object of the class with this path.
    Object(&'a [Text], Protection),
    /// The class with this path.
    Class(&'a [Text], Protection),
}

/// The declaration of a subroutine (IEEE 1800-2017, 8.6 and 13).
#[derive(Drop)]
pub struct DeclaredRoutine<'a> {
    /// The words before a method; none of them of a subroutine that is no method.
    pub qualifiers: Qualifiers,
    /// The class of a method.
    pub class: Option<&'a [Text]>,
    /// What is written.
    pub routine: &'a Routine,
}

/// The declaration of a pure method (IEEE 1800-2017, 8.21).
#[derive(Drop)]
pub struct DeclaredPure<'a> {
    /// Its class.
    pub class: &'a [Text],
    /// What is written.
    pub head: &'a Head,
}

/// What a declaration declares.
#[derive(Drop)]
pub enum Declared<'a> {
    /// A variable whose type is written.
    Variable {
        held: Storage<'a>,
        ty: &'a WrittenType,
        dimension: &'a Option<Dimension>,
    },
    /// An argument of a subroutine, and whether it is automatic (13.5).
    Argument(&'a ImpliedType, bool),
    /// A variable of an activation whose type is not written.
    Given(&'a Checked<Ty>),
    /// A net (6.7).
    Net(Sign, &'a Option<Range>),
    /// A port (23.2.2).
    Port {
        is_input: bool,
        /// Whether a net type is written.
        is_wire: bool,
        ty: &'a ImpliedType,
    },
    /// A parameter (6.20).
    Parameter(&'a ImpliedType, Source<'a>),
    /// A type (6.18).
    Type(&'a WrittenType),
    /// An item of an enum: so many steps after the one with this value, or after 0 (6.19).
    Item {
        ty: &'a WrittenType,
        value: Option<&'a Expr>,
        steps: usize,
    },
    /// A class, in the scope with this path (8.3).
    Class(&'a [Text], &'a Name),
    /// `typedef class` (8.27).
    Announcement,
    /// A subroutine (13).
    Routine(Box<DeclaredRoutine<'a>>),
    /// A pure method (8.21).
    Pure(Box<DeclaredPure<'a>>),
    /// A clocking block (14.3).
    Clocking(&'a [ClockingItem]),
    /// The object of a method (8.11).
    ObjectOf(&'a [Text]),
    /// A unit, an instance or a block.
    Another,
}

/// A declared name.
#[derive(Drop)]
pub struct Entry<'a> {
    /// The name.
    pub name: &'a Name,
    /// What it is declared as.
    pub what: Declared<'a>,
}

impl Declared<'_> {
    /// What kind of declaration it is, which is known also where it breaks a rule.
    pub fn kind(&self) -> Kind
        ensures { result ≡ entries.kind_of (declared_in self.now) }
    {
        match self {
            Declared::Parameter(_, _) => Kind::Parameter,
            Declared::Item { ty, .. } => Kind::Item(place_of_type(ty)),
            Declared::Type(_) => Kind::TypeName,
            Declared::Class(_, _) => Kind::TypeName,
            Declared::Announcement => Kind::TypeName,
            Declared::Routine(_) => Kind::Subroutine,
            Declared::Pure(_) => Kind::Subroutine,
            Declared::Clocking(_) => Kind::Another,
            Declared::Another => Kind::Another,
            _ => Kind::Object,
        }
    }
}
