// From one instance to the next (IEEE 1800-2017, 23.3).
ghost use Rattle.std.specs.Prelude.{◌≡◌, ◌<◌, ◌+◌, ◌∷◌, [], ℕ, suc, List, Some, IfOk, OnOk, IfNone, map};
ghost use Rattle.sv_tree.specs.Descriptions as tree;
ghost use Rattle.sv_tree.specs.UnitView.{description};
ghost use Rattle.sv_names.specs.Instances as instances;
ghost use Rattle.sv_names.specs.Named.{Around as what_stands_around};
ghost use Rattle.sv_elab_walk.specs.Insts.{inst_in, all_walked};
ghost use Rattle.sv_elab_walk.specs.Grounds.{units_in, files_in};
ghost use Rattle.sv_elab_walk.specs.Frames.{goes_on, behind, frame_walk, next_walk, turns_in, turns};

use crate::frames::{Frame, Next, blocks_behind, instances_of};
use crate::instance::{Inst, Walked};
use crate::making::{Ground, child};
use std::alloc::Global;
use std::rc::Rc;
use sv_elab_unit::Units;
use sv_names::Around;
use sv_tree::Item;
use sv_value::{NoMemory, Seq};

/// Enters an instance: it is met, and then its items are left.
pub(crate) fn enter<'t>(
    most: u128,
    inst: Rc<Inst<'t>>,
    walked: &mut Seq<Walked<'t>>,
    frames: &mut Vec<Frame<'t>>,
) -> Result<(), NoMemory>
    ensures { OnOk result ((units : List tree.Description) (files : what_stands_around) (n : ℕ) (last : instances.Walk)
        → goes_on (all_walked walked.new) n (behind units files frames.new.items last)
        ≡ goes_on (all_walked walked.old) n (instances.and_then (instances.walk units files most (inst_in inst.entry.value))
        (behind units files frames.old.items last))) }
{
    if most == 0 {
        return Ok(());
    }
    walked.push(Walked::Enter(inst.clone()?))?;
    let unit = inst.unit;
    frames.push(Frame {
        of: inst,
        most: most - 1,
        unit,
        params: &[],
        list: &[],
        before: 0,
        items: unit.element.items.as_slice(),
    })?;
    Ok(())
}

/// Meets an item: then its instances are left.
fn meet_item<'t>(
    around: &Around,
    units: &Units<'t>,
    frame: Frame<'t>,
    one: &'t Item,
    rest: &'t [Item],
    walked: &mut Seq<Walked<'t>>,
    frames: &mut Vec<Frame<'t>>,
) -> Result<(), NoMemory>
    requires none { frame.list.now ≡ [] }
    requires first { frame.items.now ≡ one.now ∷ rest.now }
    ensures met { OnOk result ((files : what_stands_around) (n : ℕ) (last : instances.Walk)
        → goes_on (all_walked walked.new) n (behind (map description units.now) files frames.new.items last)
        ≡ goes_on (all_walked walked.old) n (instances.and_then (frame_walk (map description units.now) files frame.entry)
        (behind (map description units.now) files frames.old.items last))) }
    ensures fewer { OnOk result (turns frames.new.items < turns frames.old.items + turns_in frame.entry) }
{
    let Frame {
        of,
        most,
        before,
        ..
    } = frame;
    let after = blocks_behind(around, before, one)?;
    let next = instances_of(units, &of, one);
    walked.push(Walked::Meet {
        of: of.clone()?,
        blocks: before,
        item: one,
    })?;
    frames.push(Frame {
        of,
        most,
        unit: next.unit,
        params: next.params,
        list: next.list,
        before: after,
        items: rest,
    })?;
    Ok(())
}

/// One turn at an instance: the instance in it that comes next, or an item is met, or it has nothing left.
fn turn<'t>(
    around: &Around,
    units: &Units<'t>,
    frame: Frame<'t>,
    walked: &mut Seq<Walked<'t>>,
    frames: &mut Vec<Frame<'t>>,
) -> Result<Option<Next<'t>>, NoMemory>
    ensures met { IfOk result (λ next. (files : what_stands_around) (n : ℕ) (last : instances.Walk)
        → goes_on (all_walked walked.new) n (next_walk (map description units.now) files next
        (behind (map description units.now) files frames.new.items last))
        ≡ goes_on (all_walked walked.old) n (instances.and_then (frame_walk (map description units.now) files frame.entry)
        (behind (map description units.now) files frames.old.items last))) }
    ensures fewer { IfOk result (λ next. IfNone next (turns frames.new.items < turns frames.old.items + turns_in frame.entry)) }
{
    match frame.list {
        [one, rest @ ..] => {
            let next = Next {
                of: frame.of.clone()?,
                most: frame.most,
                unit: frame.unit,
                params: frame.params,
                one,
            };
            frames.push(Frame {
                list: rest,
                ..frame
            })?;
            Ok(Some(next))
        }
        [] => match frame.items {
            [one, rest @ ..] => {
                meet_item(around, units, frame, one, rest, walked, frames)?;
                Ok(None)
            }
            [] => Ok(None),
        },
    }
}

/// The instance that comes next; the items before it are met.
pub(crate) fn advance<'t>(
    around: &Around,
    units: &Units<'t>,
    walked: &mut Seq<Walked<'t>>,
    frames: &mut Vec<Frame<'t>>,
) -> Result<Option<Next<'t>>, NoMemory>
    ensures met { IfOk result (λ next. (files : what_stands_around) (n : ℕ) (last : instances.Walk)
        → goes_on (all_walked walked.new) n (next_walk (map description units.now) files next
        (behind (map description units.now) files frames.new.items last))
        ≡ goes_on (all_walked walked.old) n (behind (map description units.now) files frames.old.items last)) }
    ensures none { IfOk result (λ next. IfNone next (frames.new.items ≡ [])) }
{
    while let Some(frame) = frames.pop() {
        match turn(around, units, frame, walked, frames)? {
            Some(next) => return Ok(Some(next)),
            None => {}
        }
    }
    Ok(None)
}

/// Enters the instance that comes next: its connections are met, and then the instance itself.
pub(crate) fn enter_next<'t>(
    alloc: Global,
    ground: &Ground<'_, 't>,
    next: Next<'t>,
    walked: &mut Seq<Walked<'t>>,
    frames: &mut Vec<Frame<'t>>,
) -> Result<(), NoMemory>
    ensures { OnOk result ((n : ℕ) (last : instances.Walk)
        → goes_on (all_walked walked.new) n (behind (units_in ground.now) (files_in ground.now) frames.new.items last)
        ≡ goes_on (all_walked walked.old) (suc n) (next_walk (units_in ground.now) (files_in ground.now) (Some next.entry)
        (behind (units_in ground.now) (files_in ground.now) frames.old.items last))) }
{
    let inst = child(alloc, ground, &next.of, next.unit, next.params, next.one)?;
    let inner = Rc::new(alloc, inst)?;
    walked.push(Walked::Connect {
        outer: next.of,
        inner: inner.clone()?,
        list: next.one.connections.as_slice(),
    })?;
    enter(next.most, inner, walked, frames)?;
    Ok(())
}
