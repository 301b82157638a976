// All that is given outside units and on the walk (IEEE 1800-2017, 3.12 and 23.3).
ghost use Rattle.std.specs.Prelude.{◌≡◌, [], List, map};
ghost use Rattle.sv_tree.specs.UnitView.{description};
ghost use Rattle.sv_names.specs.Design as design;
ghost use Rattle.sv_names.specs.Views.{around_in};
ghost use Rattle.sv_elab_parts.specs.Adding.{Adding, AddingAll};
ghost use Rattle.sv_elab_scope.specs.Rows.{group_in};
ghost use Rattle.sv_elab_walk.specs.Insts.{walked_in};
ghost use Rattle.sv_elab_item.specs.Given as words;

use crate::common::add_common;
use crate::walked::add_walked;
use std::alloc::Global;
use sv_elab_parts::{SoFar, and_adding};
use sv_elab_plain::add_file_scope;
use sv_elab_scope::Group;
use sv_elab_unit::Units;
use sv_elab_walk::Walked;
use sv_names::{Around, Refusal};
use sv_tree::Description;

/// Puts what a description is outside units behind what stands so far: units themselves are met on the walk.
fn add_description(
    alloc: Global,
    files: &Around,
    one: &Description,
    before: Result<(), Refusal>,
    so_far: &mut SoFar,
) -> Result<(), Refusal>
    ensures { words.AddsBehind so_far.old so_far.new before result (words.described (around_in files.now) (description one.now)) }
{
    match one {
        Description::Item(item) => {
            let next = add_common(alloc, files, &[], item, so_far);
            and_adding(before, next)
        }
        Description::Module(_) | Description::Program(_) => before,
    }
}

/// Puts what stands outside units behind what stands so far.
fn add_outside(
    alloc: Global,
    units: &[Description],
    files: &Around,
    group: &Group,
    so_far: &mut SoFar,
) -> Result<(), Refusal>
    ensures { AddingAll so_far.old so_far.new result (words.outside_given (map description units.now) (around_in files.now) (group_in group.now)) }
{
    let scope = add_file_scope(alloc, units, group, so_far);
    let mut done = and_adding(Ok(()), scope);
    for one in units {
        done = add_description(alloc, files, one, done, so_far);
    }
    done
}

/// Puts what is met on the walk behind what stands so far.
fn add_all_walked<'f>(
    alloc: Global,
    units: &Units,
    files: &'f Around<'f>,
    all: &'f [Walked],
    before: Result<(), Refusal>,
    so_far: &mut SoFar,
) -> Result<(), Refusal>
    ensures { words.AddsBehind so_far.old so_far.new before result
        (words.walked_given (map description units.now) (around_in files.now) (map walked_in all.now)) }
{
    let mut done = before;
    for step in all {
        let next = add_walked(alloc, units, files, step, so_far);
        done = and_adding(done, next);
    }
    done
}

/// Puts all that items give, outside units and on the walk, behind what stands so far, or tells the first rule that is broken.
#[tactic(auto, using(crate::proofs::GivenListLaws::all_given))]
pub fn add_given<'f>(
    alloc: Global,
    units: &Units,
    files: &'f Around<'f>,
    group: &Group,
    walked: &'f [Walked],
    so_far: &mut SoFar,
) -> Result<(), Refusal>
    ensures { AddingAll so_far.old so_far.new result (design.given_parts (map description units.now) (around_in files.now) (group_in group.now)
        (map walked_in walked.now)) }
{
    let done = add_outside(alloc, units.all(), files, group, so_far);
    add_all_walked(alloc, units, files, walked, done, so_far)
}
