// The numbers of the parts of a design, by their paths.
ghost use Rattle.std.specs.Prelude.{◌≡◌, ◌++◌, [], List, IfOk, OnOk, map};
ghost use Rattle.sv_flat.specs.declared.design.Instance.{Instance as instance};
ghost use Rattle.sv_names.specs.declared.around.ClassInfo.{ClassInfo as class_info};
ghost use Rattle.sv_names.specs.Design as design;
ghost use Rattle.sv_names.specs.Views.{numbers_in};
ghost use Rattle.sv_elab_whole.specs.Numbering as words;

use std::alloc::Global;
use sv_elab_parts::SoFar;
use sv_flat::Object;
use sv_names::{ClassInfo, Numbers, Path, PathIndex, copy_path, line_of};
use sv_value::{NoMemory, Seq, Text};

/// No part has a number: each stands at the place 0 of an empty list.
pub fn no_numbers(alloc: Global) -> Result<Numbers, NoMemory>
    ensures { IfOk result (λ n. numbers_in n ≡ design.no_numbers) }
{
    Ok(Numbers {
        objects: PathIndex::new(alloc, Seq::new(alloc))?,
        classes: PathIndex::new(alloc, Seq::new(alloc))?,
        lines: Seq::new(alloc),
        subroutines: PathIndex::new(alloc, Seq::new(alloc))?,
        clockings: PathIndex::new(alloc, Seq::new(alloc))?,
        programs: PathIndex::new(alloc, Seq::new(alloc))?,
    })
}

/// Appends the paths of objects.
fn add_paths(alloc: Global, objects: &[Object], paths: &mut Seq<Path>) -> Result<(), NoMemory>
    ensures { OnOk result (paths.new ≡ paths.old ++ map (λ o. o.path) objects.now) }
{
    let mut left = objects;
    while let [one, rest @ ..] = left {
        paths.push(copy_path(alloc, one.path.as_slice())?)?;
        left = rest;
    }
    Ok(())
}

/// The paths of all objects, those that hold samples last.
fn object_paths(alloc: Global, so_far: &SoFar) -> Result<Seq<Path>, NoMemory>
    ensures { IfOk result (λ ps. ps ≡ (words.paths_so_far so_far.now).objects ++ (words.paths_so_far so_far.now).samples) }
{
    let mut paths = Seq::new(alloc);
    add_paths(alloc, so_far.objects.as_slice(), &mut paths)?;
    add_paths(alloc, so_far.samples.as_slice(), &mut paths)?;
    Ok(paths)
}

/// The paths of a class and of its bases.
fn line_in(alloc: Global, classes: &[&ClassInfo], path: &[Text]) -> Result<Seq<Path>, NoMemory>
    ensures { IfOk result (λ ps. ps ≡ words.line_paths (map (λ k. k.now) classes.now) path.now) }
{
    let line = line_of(alloc, classes, path)?;
    let mut paths = Seq::new(alloc);
    let mut left = line.as_slice();
    while let [one, rest @ ..] = left {
        paths.push(copy_path(alloc, one.path.as_slice())?)?;
        left = rest;
    }
    Ok(paths)
}

/// The paths of classes, each with those of its bases.
fn lines_in(
    alloc: Global,
    classes: &[&ClassInfo],
    paths: &[Path],
) -> Result<Seq<Seq<Path>>, NoMemory>
    ensures { IfOk result (λ ls. ls ≡ map (words.line_paths (map (λ k. k.now) classes.now)) paths.now) }
{
    let mut lines = Seq::new(alloc);
    let mut left = paths;
    while let [one, rest @ ..] = left {
        lines.push(line_in(alloc, classes, one.as_slice())?)?;
        left = rest;
    }
    Ok(lines)
}

/// The numbers of the parts of a design, whose paths stand so far, with these classes and paths of programs.
#[tactic(auto, using(crate::proofs::NumberLaws::numbers_are))]
pub fn numbers_of(
    alloc: Global,
    classes: &[&ClassInfo],
    programs: Seq<Path>,
    so_far: SoFar,
) -> Result<Numbers, NoMemory>
    ensures { IfOk result (λ n. numbers_in n ≡ words.numbers_by (map (λ k. k.now) classes.now) programs (words.paths_so_far so_far)) }
{
    let objects = object_paths(alloc, &so_far)?;
    let lines = lines_in(alloc, classes, so_far.class_paths.as_slice())?;
    let SoFar {
        class_paths,
        subroutine_paths,
        clocking_paths,
        ..
    } = so_far;
    Ok(Numbers {
        objects: PathIndex::new(alloc, objects)?,
        classes: PathIndex::new(alloc, class_paths)?,
        lines,
        subroutines: PathIndex::new(alloc, subroutine_paths)?,
        clockings: PathIndex::new(alloc, clocking_paths)?,
        programs: PathIndex::new(alloc, programs)?,
    })
}
