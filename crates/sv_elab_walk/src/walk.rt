// The walk over all roots (IEEE 1800-2017, 23.3.1).
ghost use Rattle.std.specs.Prelude.{◌≡◌, IfOk, map, option_map};
ghost use Rattle.sv_tree.specs.UnitView.{description};
ghost use Rattle.sv_names.specs.Instances as instances;
ghost use Rattle.sv_names.specs.Views.{around_in};
ghost use Rattle.sv_elab_unit.specs.Definitions.{definition_in};
ghost use Rattle.sv_elab_walk.specs.Insts.{inst_in, all_walked};
ghost use Rattle.sv_elab_walk.specs.Grounds.{units_in, files_in};
ghost use Rattle.sv_elab_walk.specs.Frames.{goes_on};

use crate::instance::{Inst, Walked};
use crate::making::{Ground, root_inst};
use crate::steps::{advance, enter, enter_next};
use std::alloc::Global;
use std::rc::Rc;
use sv_elab_unit::{Definition, Units, roots};
use sv_names::Around;
use sv_value::{NoMemory, Seq};

/// The most instances that a design has.
const MOST_INSTANCES: u32 = 16384;

/// Walks an instance and all that stand in it; so many may yet come, and the answer is how many are left then, if the limit is not passed.
fn walk_inst<'t>(
    alloc: Global,
    ground: &Ground<'_, 't>,
    most: u128,
    inst: Inst<'t>,
    limit: u32,
    walked: &mut Seq<Walked<'t>>,
) -> Result<Option<u32>, NoMemory>
    ensures { IfOk result (λ left. (all_walked walked.new, left) ≡ goes_on (all_walked walked.old) limit
        (instances.walk (units_in ground.now) (files_in ground.now) most (inst_in inst.entry))) }
{
    let mut frames = Vec::new(alloc);
    let root = Rc::new(alloc, inst)?;
    enter(most, root, walked, &mut frames)?;
    let mut left = limit;
    while let Some(next) = advance(ground.files, ground.units, walked, &mut frames)? {
        if left == 0 {
            walked.push(Walked::Pass(next.one.name.at))?;
            return Ok(None);
        }
        left -= 1;
        enter_next(alloc, ground, next, walked, &mut frames)?;
    }
    Ok(Some(left))
}

/// Walks the roots, of which and in which so many instances may come.
fn walk_roots<'t>(
    alloc: Global,
    ground: &Ground<'_, 't>,
    most: u128,
    all: &[Definition<'t>],
    limit: u32,
) -> Result<Seq<Walked<'t>>, NoMemory>
    ensures { IfOk result (λ ws. all_walked ws
        ≡ (instances.roots_walk (units_in ground.now) (files_in ground.now) most (map definition_in all.now) limit).0) }
{
    let mut walked = Seq::new(alloc);
    let mut allowed = limit;
    let mut left = all;
    while let [one, rest @ ..] = left {
        if allowed == 0 {
            walked.push(Walked::Pass(one.element.name.at))?;
            return Ok(walked);
        }
        let root = root_inst(alloc, ground, *one)?;
        let Some(after) = walk_inst(alloc, ground, most, root, allowed - 1, &mut walked)? else {
            return Ok(walked);
        };
        allowed = after;
        left = rest;
    }
    Ok(walked)
}

/// The instances of a design, from the roots inward, with their items and connections in the order of the text: those of the unit that is named, or
/// of all that are nowhere instantiated.
pub fn walked<'f, 't>(
    alloc: Global,
    units: &'f Units<'t>,
    files: &'f Around<'f>,
    top: Option<&[u8]>,
) -> Result<Seq<Walked<'t>>, NoMemory>
    ensures { IfOk result (λ ws. all_walked ws
        ≡ instances.walked (map description units.now) (around_in files.now) (option_map (λ x. x.now) top.entry)) }
{
    let ground = Ground { units, files };
    let all = roots(alloc, units, top)?;
    let most = units.all().len() as u128 + 1;
    walk_roots(alloc, &ground, most, all.as_slice(), MOST_INSTANCES)
}
