// The numbers of parts, by their paths.
ghost use Rattle.std.specs.Prelude.{◌≡◌, IfOk};
ghost use Rattle.sv_names.specs.Views.{derived_in, numbers_in, stands_in};

use crate::{Numbers, Path, same_path};
use std::alloc::Global;
use sv_value::{ClassId, ClockId, NoMemory, ObjId, RoutineId, Seq, Text};

/// Whether a path stands in a list.
fn stands_in(path: &[Text], line: &[Path]) -> bool
    ensures { result ≡ stands_in path.now line.now }
{
    for one in line {
        if same_path(one.as_slice(), path) {
            return true;
        }
    }
    false
}

/// The numbers of the classes in whose lines a path stands.
fn derived_in(alloc: Global, path: &[Text], lines: &[Seq<Path>]) -> Result<Seq<ClassId>, NoMemory>
    ensures { IfOk result (λ ks. ks ≡ derived_in 0 path.now lines.now) }
{
    let mut found = Seq::new(alloc);
    for (number, line) in lines.iter().enumerate() {
        if stands_in(path, line.as_slice()) {
            found.push(ClassId(number as u64))?;
        }
    }
    Ok(found)
}

impl Numbers {
    /// The number of a net or a static variable.
    pub fn object(&self, path: &[Text]) -> ObjId
        ensures { result ≡ (numbers_in self.now).object path.now }
    {
        ObjId(self.objects.position(path) as u64)
    }

    /// The number of a task, a function, a method or a constructor.
    pub fn subroutine(&self, path: &[Text]) -> RoutineId
        ensures { result ≡ (numbers_in self.now).subroutine path.now }
    {
        RoutineId(self.subroutines.position(path) as u64)
    }

    /// The number of a clocking block.
    pub fn clocking(&self, path: &[Text]) -> ClockId
        ensures { result ≡ (numbers_in self.now).clocking path.now }
    {
        ClockId(self.clockings.position(path) as u64)
    }

    /// The number of an instance of a program.
    pub fn program(&self, path: &[Text]) -> u32
        ensures { result ≡ (numbers_in self.now).program path.now }
    {
        let position = self.programs.position(path);
        position.min(u32::MAX as usize) as u32
    }

    /// The numbers of a class and of all that are derived from it.
    pub fn derived(&self, alloc: Global, path: &[Text]) -> Result<Seq<ClassId>, NoMemory>
        ensures { IfOk result (λ ks. ks ≡ (numbers_in self.now).derived path.now) }
    {
        derived_in(alloc, path, self.lines.as_slice())
    }
}
