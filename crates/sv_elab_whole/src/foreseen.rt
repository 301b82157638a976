// The paths that the parts of a design have, as far as they can be told before anything is elaborated (IEEE 1800-2017, 23.6).
ghost use Rattle.std.specs.Prelude.{◌≡◌, ◌++◌, [], List, IfOk, OnOk, flat_map, map};
ghost use Rattle.sv_tree.specs.UnitView.{description, item as item_in, net_item, port};
ghost use Rattle.sv_tree.specs.StmtView.{declarator};
ghost use Rattle.sv_names.specs.Design as design;
ghost use Rattle.sv_names.specs.Instances as instances;
ghost use Rattle.sv_elab_walk.specs.Insts.{walked_in};
ghost use Rattle.sv_elab_whole.specs.Numbering as words;

use crate::instances::programs_in;
use std::alloc::Global;
use sv_elab_parts::SoFar;
use sv_elab_walk::Walked;
use sv_elab_walk::sv_elab_signal::within;
use sv_flat::Object;
use sv_names::{Numbers, Path, PathIndex, same_path};
use sv_tree::{Declarator, Description, Item, NetItem, Port};
use sv_value::{NoMemory, Seq, Text};

/// Appends the paths of ports.
fn add_ports(
    alloc: Global,
    path: &[Text],
    ports: &[Port],
    list: &mut Seq<Path>,
) -> Result<(), NoMemory>
    ensures { OnOk result (list.new ≡ list.old ++ design.within path.now (map (λ p. p.name) (map port ports.now))) }
{
    let mut left = ports;
    while let [one, rest @ ..] = left {
        list.push(within(alloc, path, &one.name)?)?;
        left = rest;
    }
    Ok(())
}

/// Appends the paths of variables.
fn add_variables(
    alloc: Global,
    path: &[Text],
    variables: &[Declarator],
    list: &mut Seq<Path>,
) -> Result<(), NoMemory>
    ensures { OnOk result (list.new ≡ list.old ++ design.within path.now (map (λ d. d.name) (map declarator variables.now))) }
{
    let mut left = variables;
    while let [one, rest @ ..] = left {
        list.push(within(alloc, path, &one.name)?)?;
        left = rest;
    }
    Ok(())
}

/// Appends the paths of nets.
fn add_nets(
    alloc: Global,
    path: &[Text],
    nets: &[NetItem],
    list: &mut Seq<Path>,
) -> Result<(), NoMemory>
    ensures { OnOk result (list.new ≡ list.old ++ design.within path.now (map (λ n. n.name) (map net_item nets.now))) }
{
    let mut left = nets;
    while let [one, rest @ ..] = left {
        list.push(within(alloc, path, &one.name)?)?;
        left = rest;
    }
    Ok(())
}

/// Appends the paths of the objects that are declared where a step of the walk is.
fn add_objects(alloc: Global, step: &Walked, list: &mut Seq<Path>) -> Result<(), NoMemory>
    ensures { OnOk result (list.new ≡ list.old ++ design.declared_objects (walked_in step.now)) }
{
    match step {
        Walked::Enter(inst) => {
            let ports = inst.unit.element.ports.as_slice();
            add_ports(alloc, inst.path.as_slice(), ports, list)
        }
        Walked::Meet { of, item, .. } => match *item {
            Item::Decl(decl) => {
                add_variables(alloc, of.path.as_slice(), decl.names.as_slice(), list)
            }
            Item::Net(net) => add_nets(alloc, of.path.as_slice(), net.names.as_slice(), list),
            _ => Ok(()),
        },
        _ => Ok(()),
    }
}

/// The paths of the objects of a design, where all of them are declared by units and none of them holds samples.
fn foreseen_objects(alloc: Global, walked: &[Walked]) -> Result<Seq<Path>, NoMemory>
    ensures { IfOk result (λ ps. ps ≡ flat_map design.declared_objects (map walked_in walked.now)) }
{
    let mut list = Seq::new(alloc);
    let mut left = walked;
    while let [one, rest @ ..] = left {
        add_objects(alloc, one, &mut list)?;
        left = rest;
    }
    Ok(list)
}

/// Appends the path of a subroutine, where an item is one.
fn add_subroutine(
    alloc: Global,
    path: &[Text],
    item: &Item,
    list: &mut Seq<Path>,
) -> Result<(), NoMemory>
    ensures { OnOk result (list.new ≡ list.old ++ design.declared_subroutines path.now (item_in item.now)) }
{
    match item {
        Item::Routine(routine) => list.push(within(alloc, path, &routine.head.name)?),
        _ => Ok(()),
    }
}

/// Appends the paths of the subroutines outside units.
fn add_outside(alloc: Global, units: &[Description], list: &mut Seq<Path>) -> Result<(), NoMemory>
    ensures { OnOk result (list.new
        ≡ list.old ++ flat_map (design.declared_subroutines []) (instances.outside (map description units.now))) }
{
    let mut left = units;
    while let [one, rest @ ..] = left {
        match one {
            Description::Item(item) => add_subroutine(alloc, &[], item, list)?,
            Description::Module(_) | Description::Program(_) => {}
        }
        left = rest;
    }
    Ok(())
}

/// Appends the paths of the subroutines of units, in the order of the walk.
fn add_subroutines(alloc: Global, walked: &[Walked], list: &mut Seq<Path>) -> Result<(), NoMemory>
    ensures { OnOk result (list.new ≡ list.old ++ flat_map design.walked_subroutines (map walked_in walked.now)) }
{
    let mut left = walked;
    while let [one, rest @ ..] = left {
        match one {
            Walked::Meet { of, item, .. } => {
                add_subroutine(alloc, of.path.as_slice(), *item, list)?
            }
            _ => {}
        }
        left = rest;
    }
    Ok(())
}

/// The paths of the subroutines of a design, where none of them is a method.
fn foreseen_subroutines(
    alloc: Global,
    units: &[Description],
    walked: &[Walked],
) -> Result<Seq<Path>, NoMemory>
    ensures { IfOk result (λ ps. ps ≡ (design.foreseen (map description units.now) (map walked_in walked.now)).subroutines) }
{
    let mut list = Seq::new(alloc);
    add_outside(alloc, units, &mut list)?;
    add_subroutines(alloc, walked, &mut list)?;
    Ok(list)
}

/// The numbers that parts have where these are all that are foreseen.
pub fn foreseen_numbers(
    alloc: Global,
    units: &[Description],
    walked: &[Walked],
) -> Result<Numbers, NoMemory>
    ensures { IfOk result (words.IsForeseen (map description units.now) (map walked_in walked.now)) }
{
    Ok(Numbers {
        objects: PathIndex::new(alloc, foreseen_objects(alloc, walked)?)?,
        classes: PathIndex::new(alloc, Seq::new(alloc))?,
        lines: Seq::new(alloc),
        subroutines: PathIndex::new(alloc, foreseen_subroutines(alloc, units, walked)?)?,
        clockings: PathIndex::new(alloc, Seq::new(alloc))?,
        programs: PathIndex::new(alloc, programs_in(alloc, walked)?)?,
    })
}

/// Whether two lists have the same paths.
fn same_list(paths: &[Path], others: &[Path]) -> bool
    ensures { result ≡ design.same_list paths.now others.now }
{
    let (mut left, mut right) = (paths, others);
    while let [one, rest @ ..] = left {
        match right {
            [] => return false,
            [other, more @ ..] => {
                if !same_path(one.as_slice(), other.as_slice()) {
                    return false;
                }
                left = rest;
                right = more;
            }
        }
    }
    right.is_empty()
}

/// Whether objects have these paths.
fn same_objects(paths: &[Path], objects: &[Object]) -> bool
    ensures { result ≡ design.same_list paths.now (map (λ o. o.path) objects.now) }
{
    let (mut left, mut right) = (paths, objects);
    while let [one, rest @ ..] = left {
        match right {
            [] => return false,
            [other, more @ ..] => {
                if !same_path(one.as_slice(), other.path.as_slice()) {
                    return false;
                }
                left = rest;
                right = more;
            }
        }
    }
    right.is_empty()
}

/// Whether the parts that stand so far have these paths of objects and of subroutines, and there are no others.
pub fn is_foreseen(objects: &[Path], subroutines: &[Path], so_far: &SoFar) -> bool
    ensures { result ≡ design.same_paths (words.plain_paths objects.now subroutines.now) (words.paths_so_far so_far.now) }
{
    so_far.samples.as_slice().is_empty()
        && so_far.class_paths.as_slice().is_empty()
        && so_far.clocking_paths.as_slice().is_empty()
        && same_objects(objects, so_far.objects.as_slice())
        && same_list(subroutines, so_far.subroutine_paths.as_slice())
}
