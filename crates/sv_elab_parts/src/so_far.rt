// What stands so far of a design.
ghost use Rattle.std.specs.Prelude.{◌≡◌, ◌++◌, ◌∷◌, [], List, IfOk, OnOk};
ghost use Rattle.sv_flat.specs.declared.class.Class.{Class as class_type};
ghost use Rattle.sv_flat.specs.declared.object.Object.{Object as object_type};
ghost use Rattle.sv_flat.specs.declared.class.Routine.{Routine as routine_type};
ghost use Rattle.sv_names.specs.Design as design;
ghost use Rattle.sv_elab_parts.specs.Adding.{so_far_in};

use std::alloc::Global;
use sv_elab_drives::Drives;
use sv_flat::{Class, Clocking, Object, Process, Routine};
use sv_names::Path;
use sv_value::{NoMemory, Place, Seq};

/// What stands so far of a design, with the paths by which its parts are numbered.
#[derive(Drop)]
pub struct SoFar {
    /// Nets and static variables.
    pub objects: Seq<Object>,
    /// Objects that hold samples, which stand behind all others at the end.
    pub samples: Seq<Object>,
    /// Processes.
    pub processes: Seq<Process>,
    /// Classes.
    pub classes: Seq<Class>,
    /// The routines of subroutines.
    pub subroutines: Seq<Routine>,
    /// What the statements of subroutines and processes add, behind the places of all subroutines.
    pub routines: Seq<Routine>,
    /// Clocking blocks.
    pub clockings: Seq<Clocking>,
    /// The nets that are driven, each as often as it has drivers.
    pub drives: Drives,
    /// The paths of the classes.
    pub class_paths: Seq<Path>,
    /// The paths of the subroutines.
    pub subroutine_paths: Seq<Path>,
    /// The paths of the clocking blocks.
    pub clocking_paths: Seq<Path>,
}

impl SoFar {
    /// Before all items, where so many subroutines are to come.
    pub fn new(alloc: Global, subroutines: usize) -> Result<SoFar, NoMemory>
        ensures so_far { IfOk result (λ x. so_far_in x ≡ design.none_so_far subroutines) }
        ensures classes { IfOk result (λ x. x.class_paths ≡ []) }
        ensures subroutines { IfOk result (λ x. x.subroutine_paths ≡ []) }
        ensures clockings { IfOk result (λ x. x.clocking_paths ≡ []) }
    {
        let routines = no_routines(alloc, subroutines)?;
        Ok(SoFar {
            objects: Seq::new(alloc),
            samples: Seq::new(alloc),
            processes: Seq::new(alloc),
            classes: Seq::new(alloc),
            subroutines: Seq::new(alloc),
            routines,
            clockings: Seq::new(alloc),
            drives: Drives::new(alloc),
            class_paths: Seq::new(alloc),
            subroutine_paths: Seq::new(alloc),
            clocking_paths: Seq::new(alloc),
        })
    }

    /// Puts a routine behind those of the subroutines, by its path.
    pub fn add_subroutine(&mut self, path: Path, routine: Routine) -> Result<(), NoMemory>
        ensures { OnOk result (self.new ≡ record self.old {
          subroutines = self.old.subroutines ++ routine ∷ [];
          subroutine_paths = self.old.subroutine_paths ++ path ∷ [];
        }) }
    {
        self.subroutines.push(routine)?;
        self.subroutine_paths.push(path)
    }

    /// Puts a class behind the others, by its path.
    pub fn add_class(&mut self, path: Path, class: Class) -> Result<(), NoMemory>
        ensures { OnOk result (self.new ≡ record self.old {
          classes = self.old.classes ++ class ∷ [];
          class_paths = self.old.class_paths ++ path ∷ [];
        }) }
    {
        self.classes.push(class)?;
        self.class_paths.push(path)
    }
}

/// As many routines as there are places for subroutines.
fn no_routines(alloc: Global, count: usize) -> Result<Seq<Routine>, NoMemory>
    ensures { IfOk result (λ rs. rs ≡ (design.none_so_far count).routines) }
{
    let mut places = Seq::new(alloc);
    for _place in 0..count {
        places.push(Routine {
            at: Place {
                file: 0,
                line: 1,
                col: 1,
            },
            body: Seq::new(alloc),
            subroutine: None,
        })?;
    }
    Ok(places)
}
