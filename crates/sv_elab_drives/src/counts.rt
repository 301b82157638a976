// How often nets stand in a list: it is told without a walk along the list.
ghost use Rattle.std.specs.Prelude.{◌≡◌, ◌+◌, ◌++◌, ◌∷◌, [], List, Some, IfOk, OnOk, option_map};
ghost use Rattle.std.specs.Ordering.{nat_cmp};
ghost use Rattle.std.specs.BTreeMap.{Updates};
ghost use Rattle.sv_names.specs.Clockings as clockings;
ghost use Rattle.sv_names.specs.Types.{Path as path_of};
ghost use Rattle.sv_elab_drives.specs.Counts.{CountsOf, times_at};

use std::alloc::Global;
use std::collections::BTreeMap;
use sv_names::{Path, copy_path, mark_of, same_path};
use sv_value::{NoMemory, Seq, Text};

/// A net, and how often it is counted.
#[derive(Drop)]
pub(crate) struct Counted {
    net: Path,
    times: u32,
}

/// The first net with each mark.
pub(crate) type Counts = BTreeMap<u64, Counted>;

/// How often a path stands in a list.
#[tactic(auto, using(crate::proofs::CountLaws::other_path, crate::proofs::CountLaws::same_paths))]
fn times_in(path: &[Text], list: &[Path]) -> Result<u32, NoMemory>
    ensures { IfOk result (λ n. n ≡ clockings.times_in path.now list.now) }
{
    match list {
        [] => Ok(0),
        [one, rest @ ..] => {
            let behind = times_in(path, rest)?;
            if !same_path(path, one.as_slice()) {
                return Ok(behind);
            }
            match behind.checked_add(1) {
                Some(times) => Ok(times),
                None => Err(NoMemory::Memory),
            }
        }
    }
}

/// How often a net is counted at its mark.
fn times_at(net: &[Text], counted: Option<&Counted>) -> u32
    ensures { result ≡ times_at net.now (option_map (λ c. c.now) counted.entry) }
{
    match counted {
        None => 0,
        Some(counted) => {
            if same_path(net, counted.net.as_slice()) {
                counted.times
            } else {
                0
            }
        }
    }
}

/// How often a net stands in the list that is counted; others have the mark of another net.
pub(crate) fn times_of(net: &[Text], counts: &Counts, others: &[Path]) -> Result<u32, NoMemory>
    ensures { (ps : List path_of) → CountsOf counts.now others.now ps → IfOk result (λ n. n ≡ clockings.times_in net.now ps) }
{
    let others = times_in(net, others)?;
    let here = times_at(net, counts.get(&mark_of(net)));
    match here.checked_add(others) {
        Some(times) => Ok(times),
        None => Err(NoMemory::Memory),
    }
}

/// A net is counted once more.
fn count_again(counted: &mut Counted) -> Result<(), NoMemory>
    ensures { OnOk result (counted.new ≡ record counted.old { times = counted.old.times + 1 }) }
{
    match counted.times.checked_add(1) {
        Some(times) => {
            counted.times = times;
            Ok(())
        }
        None => Err(NoMemory::Memory),
    }
}

/// A net is counted for the first time, where no other has its mark.
fn count_first(alloc: Global, mark: u64, net: &[Text], counts: &mut Counts) -> Result<(), NoMemory>
    ensures { OnOk result (Updates nat_cmp counts.old counts.new mark (Some (record { net = net.now; times = 1 }))) }
{
    let net = copy_path(alloc, net)?;
    counts.insert(mark, Counted { net, times: 1 })?;
    Ok(())
}

/// A net more is counted.
pub(crate) fn count(
    alloc: Global,
    net: &[Text],
    counts: &mut Counts,
    others: &mut Seq<Path>,
) -> Result<(), NoMemory>
    ensures { (ps : List path_of) → CountsOf counts.old others.old ps
        → OnOk result (CountsOf counts.new others.new (ps ++ net.now ∷ [])) }
{
    let mark = mark_of(net);
    if let Some(counted) = counts.get_mut(&mark) {
        if same_path(net, counted.net.as_slice()) {
            count_again(counted)?;
            return Ok(());
        }
        let net = copy_path(alloc, net)?;
        others.push(net)?;
        return Ok(());
    }
    count_first(alloc, mark, net, counts)?;
    Ok(())
}
