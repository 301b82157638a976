// The instances of a design, with their classes (IEEE 1800-2017, 8 and 23.3).
ghost use Rattle.std.specs.Prelude.{◌≡◌, ◌++◌, IfOk, OnOk, flat_map, map};
ghost use Rattle.sv_names.specs.Design as design;
ghost use Rattle.sv_elab_scope.specs.Rows.{group_in};
ghost use Rattle.sv_elab_walk.specs.Insts.{walked_in};
ghost use Rattle.sv_elab_whole.specs.Walks as words;

use crate::files::add_classes;
use std::alloc::Global;
use sv_elab_scope::Group;
use sv_elab_walk::{Inst, Walked};
use sv_flat::Instance;
use sv_names::{ClassInfo, Path, copy_path};
use sv_value::{NoMemory, Seq};

/// Appends an instance.
fn add_instance(alloc: Global, inst: &Inst, list: &mut Seq<Instance>) -> Result<(), NoMemory>
    ensures { OnOk result (list.new ≡ list.old ++ words.instance_in inst.now) }
{
    let path = copy_path(alloc, inst.path.as_slice())?;
    list.push(Instance {
        path,
        is_program: inst.unit.is_program,
    })
}

/// The instances in the order of the walk.
pub fn instances_in(alloc: Global, walked: &[Walked]) -> Result<Seq<Instance>, NoMemory>
    ensures { IfOk result (λ is. is ≡ flat_map design.instance_of (map walked_in walked.now)) }
{
    let mut list = Seq::new(alloc);
    let mut left = walked;
    while let [one, rest @ ..] = left {
        match one {
            Walked::Enter(inst) => add_instance(alloc, inst, &mut list)?,
            _ => {}
        }
        left = rest;
    }
    Ok(list)
}

/// Appends the path of an instance, where it is one of a program.
fn add_program(alloc: Global, inst: &Inst, list: &mut Seq<Path>) -> Result<(), NoMemory>
    ensures { OnOk result (list.new ≡ list.old ++ design.program_paths (words.instance_in inst.now)) }
{
    if !inst.unit.is_program {
        return Ok(());
    }
    let path = copy_path(alloc, inst.path.as_slice())?;
    list.push(path)
}

/// The paths of the instances of programs.
pub fn programs_in(alloc: Global, walked: &[Walked]) -> Result<Seq<Path>, NoMemory>
    ensures { IfOk result (λ ps. ps ≡ design.program_paths (flat_map design.instance_of (map walked_in walked.now))) }
{
    let mut list = Seq::new(alloc);
    let mut left = walked;
    while let [one, rest @ ..] = left {
        match one {
            Walked::Enter(inst) => add_program(alloc, inst, &mut list)?,
            _ => {}
        }
        left = rest;
    }
    Ok(list)
}

/// All classes: those of the files, and those of the units in the order of the walk.
#[tactic(auto, using(crate::proofs::InstanceLaws::of_files, crate::proofs::InstanceLaws::turn_unit, crate::proofs::FileLaws::all_classes))]
pub fn classes_in<'a>(
    alloc: Global,
    files: &'a Group,
    walked: &'a [Walked],
) -> Result<Vec<&'a ClassInfo>, NoMemory>
    ensures { IfOk result (λ ks. map (λ k. k.now) ks.items ≡ design.class_infos (group_in files.now) (map walked_in walked.now)) }
{
    let mut list = Vec::new(alloc);
    add_classes(files, &mut list)?;
    let mut left = walked;
    while let [one, rest @ ..] = left {
        match one {
            Walked::Enter(inst) => add_classes(&inst.group, &mut list)?,
            _ => {}
        }
        left = rest;
    }
    Ok(list)
}
