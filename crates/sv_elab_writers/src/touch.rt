// What statements do to the objects of a design, and who does it (IEEE 1800-2017, 6.5, 9.2.2 and 10.3).
use sv_flat::Bounds;
use sv_names::Path;
use sv_value::{Place, Seq, Text};

/// What a statement does to the design.
pub enum Touch {
    /// It writes an object.
    Writes {
        /// The target.
        at: Place,
        /// The path of the object.
        object: Path,
    },
    /// It calls the subroutine of this path.
    Calls(Path),
    /// It calls a virtual method of a class, or what overrides it (8.20).
    CallsVirtual {
        /// The class.
        class: Path,
        /// The name of the method.
        name: Text,
    },
    /// It declares so many objects, and the elements of a fixed array.
    Declares {
        /// The name that is declared.
        at: Place,
        /// How many objects.
        objects: u32,
        /// The bounds of the array, where it is one.
        array: Option<Bounds>,
    },
}

impl Drop for Touch {
    fn drop(self) {
        match self {
            Touch::Writes { at: _, object: _ } => {}
            Touch::Calls(_) => {}
            Touch::CallsVirtual { class: _, name: _ } => {}
            Touch::Declares {
                at: _,
                objects: _,
                array: _,
            } => {}
        }
    }
}

/// How a process writes.
#[derive(Clone, Copy, Debug, PartialEq, Eq)]
pub enum Writer {
    /// By an `assign`, a net with a value or a port connection.
    Continuously,
    /// As an `always_comb` or `always_ff`, which lets no other process write.
    Alone,
    /// As another procedure.
    Shared,
    /// As a subroutine, or as the output of a clocking block.
    NoProcess,
}

/// A subroutine with what it declares, writes and calls.
#[derive(Drop)]
pub struct Routine {
    /// Its name from the root.
    pub path: Path,
    /// What it does.
    pub touches: Seq<Touch>,
}

/// A process with what it writes and calls; the outputs of a clocking block stand here too.
#[derive(Drop)]
pub struct Process {
    /// Where it stands.
    pub at: Place,
    /// How it writes.
    pub writer: Writer,
    /// What it does.
    pub touches: Seq<Touch>,
}

/// What an item declares, its processes and its subroutines.
#[derive(Drop)]
pub struct Met {
    /// What it declares.
    pub declared: Seq<Touch>,
    /// Its processes.
    pub processes: Seq<Process>,
    /// Its subroutines.
    pub table: Seq<Routine>,
}

/// A variable that is declared with an initializer (6.5).
#[derive(Drop)]
pub struct Initialized {
    /// Its name from the root.
    pub object: Path,
    /// The initializer.
    pub at: Place,
}
