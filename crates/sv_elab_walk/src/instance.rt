// Instances with their settled scopes, and what is met on the walk (IEEE 1800-2017, 23.3).
use std::rc::Rc;
use sv_elab_scope::Group;
use sv_elab_unit::Definition;
use sv_names::{Checked, Path};
use sv_tree::{Connection, Item};
use sv_value::{Place, Seq};

/// An instance, with its settled scope.
#[derive(Drop)]
pub struct Inst<'t> {
    /// Its name from the root.
    pub path: Path,
    /// Its unit.
    pub unit: Definition<'t>,
    /// Where it is named.
    pub at: Place,
    /// The names of the units that it stands in, its own first.
    pub chain: Seq<&'t [u8]>,
    /// Its scope and its classes.
    pub group: Group,
    /// What its declarations break by their names.
    pub stands: Checked<()>,
}

/// What is met on the walk.
#[derive(Drop)]
pub enum Walked<'t> {
    /// An instance.
    Enter(Rc<Inst<'t>>),
    /// An item of an instance, behind so many blocks of its unit.
    Meet {
        of: Rc<Inst<'t>>,
        blocks: u32,
        item: &'t Item,
    },
    /// The port connections of an instance in another.
    Connect {
        outer: Rc<Inst<'t>>,
        inner: Rc<Inst<'t>>,
        list: &'t [Connection],
    },
    /// The instance that passes the limit, by its place.
    Pass(Place),
}
