// What is met on the walk, and the rules on who writes what (IEEE 1800-2017, 6.5, 9.2.2 and 10.3): E20, E22, E23, E44.
ghost use Rattle.std.specs.Prelude.{◌≡◌, ◌++◌, [], ◌∷◌, List, IfOk, OnOk, flat_map, map};
ghost use Rattle.sv_tree.specs.Descriptions as tree;
ghost use Rattle.sv_tree.specs.UnitView.{description};
ghost use Rattle.sv_names.specs.Design as design;
ghost use Rattle.sv_names.specs.Given.{Gives};
ghost use Rattle.sv_names.specs.Instances as instances;
ghost use Rattle.sv_names.specs.Items as items;
ghost use Rattle.sv_names.specs.Sources as sources;
ghost use Rattle.sv_names.specs.Views.{around_in};
ghost use Rattle.sv_elab_scope.specs.Rows.{group_in};
ghost use Rattle.sv_elab_walk.specs.Insts.{walked_in};
ghost use Rattle.sv_elab_writers.specs.Views.{met_in, initialized_in};

use crate::instances::classes_in;
use std::alloc::Global;
use sv_elab_met::{add_initialized, met_connections, met_entered, met_item, met_outside};
use sv_elab_plain::{default_in, inst_of};
use sv_elab_scope::Group;
use sv_elab_walk::{Seen, Walked, around_unit, seen_in};
use sv_elab_writers::{Initialized, Met, met_stand};
use sv_names::{Around, Refusal};
use sv_tree::Description;
use sv_value::{NoMemory, Seq};

/// What is met in an instance, where this is seen in it.
fn met_step(alloc: Global, around: &Around, step: &Walked) -> Result<Met, NoMemory>
    ensures { IfOk result (λ m. met_in m ≡ sources.met (λ i. around_in around.now) (walked_in step.now)) }
{
    match step {
        Walked::Enter(inst) => met_entered(alloc, &inst.group, inst.unit.element),
        Walked::Meet { of, blocks, item } => met_item(
            alloc,
            around,
            *blocks,
            &of.group,
            of.path.as_slice(),
            *item,
        ),
        Walked::Connect { inner, list, .. } => {
            met_connections(alloc, around, inner.unit.element, *list)
        }
        Walked::Pass(_) => Ok(Met {
            declared: Seq::new(alloc),
            processes: Seq::new(alloc),
            table: Seq::new(alloc),
        }),
    }
}

/// What is met on the walk.
fn met_walked<'f>(alloc: Global, files: &'f Around<'f>, step: &'f Walked) -> Result<Met, NoMemory>
    ensures { IfOk result (λ m. (us : List tree.Description) → met_in m
        ≡ sources.met (items.around_inst us (around_in files.now)) (walked_in step.now)) }
{
    match inst_of(step) {
        None => met_step(alloc, files, step),
        Some(inst) => {
            let Seen { scopes, classes } = seen_in(alloc, files, &inst.group)?;
            let outer = around_unit(files, inst.unit, inst.path.as_slice());
            let around = Around {
                scopes: scopes.as_slice(),
                classes: classes.as_slice(),
                default_clocking: default_in(&inst.group, inst.unit.element.items.as_slice()),
                ..outer
            };
            met_step(alloc, &around, step)
        }
    }
}

/// Appends what is met of a description outside units.
fn add_description(
    alloc: Global,
    files: &Around,
    group: &Group,
    one: &Description,
    mets: &mut Seq<Met>,
) -> Result<(), NoMemory>
    ensures { OnOk result (map met_in mets.new ≡ map met_in mets.old
        ++ map (sources.met_outside (around_in files.now) (group_in group.now)) (instances.outside (description one.now ∷ []))) }
{
    match one {
        Description::Item(item) => mets.push(met_outside(alloc, files, group, item)?),
        Description::Module(_) | Description::Program(_) => Ok(()),
    }
}

/// Appends what is met outside units.
fn add_outside(
    alloc: Global,
    units: &[Description],
    files: &Around,
    group: &Group,
    mets: &mut Seq<Met>,
) -> Result<(), NoMemory>
    ensures { OnOk result (map met_in mets.new ≡ map met_in mets.old
        ++ map (sources.met_outside (around_in files.now) (group_in group.now)) (instances.outside (map description units.now))) }
{
    let mut left = units;
    while let [one, rest @ ..] = left {
        add_description(alloc, files, group, one, mets)?;
        left = rest;
    }
    Ok(())
}

/// Appends what is met on the walk.
fn add_walked<'f>(
    alloc: Global,
    files: &'f Around<'f>,
    walked: &'f [Walked],
    mets: &mut Seq<Met>,
) -> Result<(), NoMemory>
    ensures { (us : List tree.Description) → OnOk result (map met_in mets.new ≡ map met_in mets.old
        ++ map (sources.met (items.around_inst us (around_in files.now))) (map walked_in walked.now)) }
{
    let mut left = walked;
    while let [one, rest @ ..] = left {
        mets.push(met_walked(alloc, files, one)?)?;
        left = rest;
    }
    Ok(())
}

/// Appends the variables that are met with initializers.
fn add_step(alloc: Global, step: &Walked, list: &mut Seq<Initialized>) -> Result<(), NoMemory>
    ensures { OnOk result (map initialized_in list.new ≡ map initialized_in list.old ++ sources.initialized (walked_in step.now)) }
{
    match step {
        Walked::Meet { of, item, .. } => add_initialized(alloc, of.path.as_slice(), *item, list),
        _ => Ok(()),
    }
}

/// The variables with initializers, in the order of the walk.
fn all_initialized(alloc: Global, walked: &[Walked]) -> Result<Seq<Initialized>, NoMemory>
    ensures { IfOk result (λ is. map initialized_in is ≡ flat_map sources.initialized (map walked_in walked.now)) }
{
    let mut list = Seq::new(alloc);
    let mut left = walked;
    while let [one, rest @ ..] = left {
        add_step(alloc, one, &mut list)?;
        left = rest;
    }
    Ok(list)
}

/// The rules on writers and limits, over what is met outside units and on the walk.
pub fn all_met_stand<'f>(
    alloc: Global,
    units: &[Description],
    files: &'f Around<'f>,
    group: &Group,
    walked: &'f [Walked],
) -> Result<(), Refusal>
    ensures { Gives result (design.met_stand (group_in group.now) (map walked_in walked.now)
        (design.all_met (map description units.now) (around_in files.now) (group_in group.now) (map walked_in walked.now))) }
{
    let mut mets = Seq::new(alloc);
    add_outside(alloc, units, files, group, &mut mets)?;
    add_walked(alloc, files, walked, &mut mets)?;
    let classes = classes_in(alloc, group, walked)?;
    let initialized = all_initialized(alloc, walked)?;
    met_stand(
        alloc,
        classes.as_slice(),
        mets.as_slice(),
        initialized.as_slice(),
    )
}
