// The subroutines that a process can call, and those that they call (IEEE 1800-2017, 9.2.2.2.1 and 8.20).
ghost use Rattle.std.specs.Prelude.{◌≡◌, ◌++◌, ◌∷◌, [], flat_map, map, length, IfOk, OnOk};
ghost use Rattle.sv_names.specs.Types as types;
ghost use Rattle.sv_names.specs.Writers as writers;
ghost use Rattle.sv_elab_writers.specs.Views.{touch_in, row_in};
ghost use Rattle.sv_elab_writers.specs.Reaching.{overridden_in, called_at, reached_once, reached_by};

use crate::Touch;
use crate::table::Table;
use std::alloc::Global;
use sv_names::{ClassInfo, Path, copy_path, is_derived, same_path};
use sv_value::{NoMemory, Seq, Text};

/// Whether a path stands in a list.
fn has_path(path: &[Text], paths: &[Path]) -> bool
    ensures { result ≡ types.has_path path.now paths.now }
{
    for one in paths {
        if same_path(path, one.as_slice()) {
            return true;
        }
    }
    false
}

/// Appends the method that a class has in place of one of a class that it may be derived from.
#[tactic(auto, using(crate::proofs::ListLaws::joined_none))]
fn add_override(
    alloc: Global,
    classes: &[&ClassInfo],
    derived: &ClassInfo,
    class: &[Text],
    name: &Text,
    paths: &mut Seq<Path>,
) -> Result<(), NoMemory>
    ensures { OnOk result (paths.new ≡ paths.old ++ overridden_in (map (λ k. k.now) classes.now) derived.now class.now name.now) }
{
    if !is_derived(classes, derived.path.as_slice(), class) {
        return Ok(());
    }
    let mut path = copy_path(alloc, derived.path.as_slice())?;
    path.push(name.copy(alloc)?)?;
    paths.push(path)
}

/// Appends the methods that a call of a virtual method can be of.
#[tactic(auto, using(crate::proofs::ListLaws::turn_joined, crate::proofs::ListLaws::all_joined))]
fn add_overriding(
    alloc: Global,
    classes: &[&ClassInfo],
    class: &[Text],
    name: &Text,
    paths: &mut Seq<Path>,
) -> Result<(), NoMemory>
    ensures { OnOk result (paths.new ≡ paths.old
        ++ writers.overriding (map (λ k. k.now) classes.now) (map (λ k. k.now) classes.now) class.now name.now) }
{
    let mut left = classes;
    while let [one, rest @ ..] = left {
        add_override(alloc, classes, one, class, name, paths)?;
        left = rest;
    }
    Ok(())
}

/// Appends the subroutines that a touch calls.
#[tactic(auto, using(crate::proofs::ListLaws::joined_none))]
fn add_called(
    alloc: Global,
    classes: &[&ClassInfo],
    touch: &Touch,
    paths: &mut Seq<Path>,
) -> Result<(), NoMemory>
    ensures { OnOk result (paths.new ≡ paths.old ++ writers.called_by (map (λ k. k.now) classes.now) (touch_in touch.now)) }
{
    match touch {
        Touch::Writes { .. } => Ok(()),
        Touch::Calls(path) => paths.push(copy_path(alloc, path.as_slice())?),
        Touch::CallsVirtual { class, name } => {
            add_overriding(alloc, classes, class.as_slice(), name, paths)
        }
        Touch::Declares { .. } => Ok(()),
    }
}

/// Appends the subroutines that touches call.
#[tactic(auto, using(crate::proofs::ListLaws::turn_joined, crate::proofs::ListLaws::all_joined))]
fn add_all_called(
    alloc: Global,
    classes: &[&ClassInfo],
    touches: &[Touch],
    paths: &mut Seq<Path>,
) -> Result<(), NoMemory>
    ensures { OnOk result (paths.new ≡ paths.old
        ++ flat_map (writers.called_by (map (λ k. k.now) classes.now)) (map touch_in touches.now)) }
{
    let mut left = touches;
    while let [one, rest @ ..] = left {
        add_called(alloc, classes, one, paths)?;
        left = rest;
    }
    Ok(())
}

/// The subroutines that subroutines call.
#[tactic(auto, using(crate::proofs::ListLaws::turn_joined, crate::proofs::ListLaws::all_joined))]
fn called_from(
    alloc: Global,
    classes: &[&ClassInfo],
    table: &Table,
    callers: &[Path],
) -> Result<Seq<Path>, NoMemory>
    ensures { IfOk result (λ ps. ps ≡ flat_map (called_at (map (λ k. k.now) classes.now) (map row_in table.now)) callers.now) }
{
    let mut paths = Seq::new(alloc);
    let mut left = callers;
    while let [one, rest @ ..] = left {
        add_all_called(alloc, classes, table.touches_at(one.as_slice()), &mut paths)?;
        left = rest;
    }
    Ok(paths)
}

/// Appends a path that is new.
fn add_new(path: Path, paths: &mut Seq<Path>) -> Result<(), NoMemory>
    ensures { OnOk result (paths.new ≡ writers.with_new paths.old (path ∷ [])) }
{
    if has_path(path.as_slice(), paths.as_slice()) {
        return Ok(());
    }
    paths.push(path)
}

/// Appends the paths that are new.
fn add_all_new(more: Seq<Path>, paths: &mut Seq<Path>) -> Result<(), NoMemory>
    ensures { OnOk result (paths.new ≡ writers.with_new paths.old more) }
{
    let mut left = more.into_vec().into_iter();
    while let Some(path) = left.next() {
        add_new(path, paths)?;
    }
    Ok(())
}

/// With the subroutines that are reached in one more call.
fn add_round(
    alloc: Global,
    classes: &[&ClassInfo],
    table: &Table,
    paths: &mut Seq<Path>,
) -> Result<(), NoMemory>
    ensures { OnOk result (paths.new ≡ reached_once (map (λ k. k.now) classes.now) (map row_in table.now) paths.old) }
{
    let called = called_from(alloc, classes, table, paths.as_slice())?;
    add_all_new(called, paths)
}

/// The subroutines that are reached from some. The rounds end where one finds nothing new.
fn reached_from(
    alloc: Global,
    classes: &[&ClassInfo],
    table: &Table,
    first: Seq<Path>,
) -> Result<Seq<Path>, NoMemory>
    ensures { IfOk result (λ ps. ps ≡ writers.reached_within (length table.now) (map (λ k. k.now) classes.now) (map row_in table.now) first) }
{
    let mut paths = first;
    let mut left = table.len();
    while left > 0 {
        let before = paths.as_slice().len();
        add_round(alloc, classes, table, &mut paths)?;
        if paths.as_slice().len() == before {
            return Ok(paths);
        }
        left -= 1;
    }
    Ok(paths)
}

/// The subroutines that a process can call, and those that they call.
pub(crate) fn reached(
    alloc: Global,
    classes: &[&ClassInfo],
    table: &Table,
    touches: &[Touch],
) -> Result<Seq<Path>, NoMemory>
    ensures { IfOk result (λ ps. ps ≡ reached_by (map (λ k. k.now) classes.now) (map row_in table.now) (map touch_in touches.now)) }
{
    let mut called = Seq::new(alloc);
    add_all_called(alloc, classes, touches, &mut called)?;
    let mut first = Seq::new(alloc);
    add_all_new(called, &mut first)?;
    reached_from(alloc, classes, table, first)
}
