// The nets that a target drives, each driver with its number (IEEE 1800-2017, 6.6.1 and 10.3.2).
ghost use Rattle.std.specs.Prelude.{◌≡◌, [], ◌++◌, IfOk, OnOk, map, option_map};
ghost use Rattle.sv_names.specs.Connections as connections;
ghost use Rattle.sv_names.specs.Types as types;
ghost use Rattle.sv_names.specs.Writers as writers;
ghost use Rattle.sv_elab_drive.specs.Driven as driven;

use std::alloc::Global;
use std::mem;
use sv_elab_drives::Drives;
use sv_elab_select::Spot;
use sv_flat::Base;
use sv_names::{AsTarget, Begin, Path, copy_path, same_path};
use sv_value::{NoMemory, Seq, Text};

/// The net that a part of a target drives.
fn net_driven(spot: &Spot) -> Option<&[Text]>
    ensures { driven.paths_of (option_map (λ p. p.now) result) ≡ connections.net_driven spot.now }
{
    match spot.1.target.begins() {
        Some(Begin::Net(path)) => Some(path.as_slice()),
        _ => None,
    }
}

/// Whether a path stands in a list.
fn has_path(path: &[Text], list: &[Path]) -> bool
    ensures { result ≡ types.has_path path.now list.now }
{
    match list {
        [] => false,
        [one, rest @ ..] => same_path(path, one.as_slice()) || has_path(path, rest),
    }
}

/// Appends the net that a part of a target drives, where it is a further one.
#[tactic(auto, using(crate::proofs::CountLaws::no_path, crate::proofs::CountLaws::known_path, crate::proofs::CountLaws::new_path))]
fn add_net(alloc: Global, spot: &Spot, nets: &mut Seq<Path>) -> Result<(), NoMemory>
    ensures { OnOk result (nets.new ≡ writers.with_new nets.old (connections.net_driven spot.now)) }
{
    match net_driven(spot) {
        None => Ok(()),
        Some(path) => {
            if has_path(path, nets.as_slice()) {
                return Ok(());
            }
            let path = copy_path(alloc, path)?;
            nets.push(path)
        }
    }
}

/// Appends the nets that the parts of a target drive, each once.
fn add_nets(alloc: Global, spots: &[Spot], nets: &mut Seq<Path>) -> Result<(), NoMemory>
    ensures { OnOk result (nets.new ≡ connections.nets_driven nets.old spots.now) }
{
    match spots {
        [] => Ok(()),
        [one, rest @ ..] => {
            add_net(alloc, one, nets)?;
            add_nets(alloc, rest, nets)
        }
    }
}

/// The nets that the parts of a target drive, each once.
fn all_nets(alloc: Global, spots: &[Spot]) -> Result<Seq<Path>, NoMemory>
    ensures { IfOk result (λ ps. ps ≡ connections.nets_driven [] spots.now) }
{
    let mut nets = Seq::new(alloc);
    add_nets(alloc, spots, &mut nets)?;
    Ok(nets)
}

/// The nets that a process drives which writes this target: none where it copies a container.
pub fn nets_of(alloc: Global, spots: &[Spot]) -> Result<Seq<Path>, NoMemory>
    ensures { IfOk result (λ ps. ps ≡ driven.nets_of spots.now) }
{
    match spots {
        [] => Ok(Seq::new(alloc)),
        [one] => {
            if one.1.ty.is_container() {
                Ok(Seq::new(alloc))
            } else {
                all_nets(alloc, spots)
            }
        }
        [_, _, ..] => all_nets(alloc, spots),
    }
}

// ---- drivers

/// Turns what is written to into the driver of this number, where it is a net.
fn set_driver(number: u32, base: &mut Base)
    ensures { base.new ≡ connections.as_driver number base.old }
{
    match base {
        Base::Object(object) => {
            let object = *object;
            *base = Base::Driver(object, number);
        }
        Base::Driver(_, _) | Base::Element { .. } | Base::Local { .. } => {}
        Base::LocalElement { .. } | Base::Field { .. } => {}
        Base::FieldElement { .. } | Base::Item { .. } => {}
    }
}

/// A target, which is written to as the driver of this number.
fn as_driver(alloc: Global, number: u32, target: AsTarget) -> Result<AsTarget, NoMemory>
    ensures { IfOk result (λ t. t ≡ driven.as_numbered number target) }
{
    let mut target = target.into_box(alloc)?;
    set_driver(number, &mut target.base);
    Ok(AsTarget::from_box(target))
}

/// Turns a part of a target, which drives its net behind these drivers.
#[tactic(auto, using(crate::proofs::CountLaws::drives_none, crate::proofs::CountLaws::drives_net))]
fn drive(alloc: Global, before: &Drives, spot: &mut Spot) -> Result<(), NoMemory>
    ensures { OnOk result (spot.new ≡ driven.driving before.now spot.old) }
{
    match net_driven(spot) {
        None => Ok(()),
        Some(path) => {
            let number = before.times(path)?;
            let target = mem::replace(&mut spot.1.target, AsTarget::none());
            spot.1.target = as_driver(alloc, number, target)?;
            Ok(())
        }
    }
}

/// The parts of a target, which drive their nets behind these drivers.
pub fn all_driving(alloc: Global, before: &Drives, spots: Seq<Spot>) -> Result<Seq<Spot>, NoMemory>
    ensures { IfOk result (λ ss. ss ≡ map (driven.driving before.now) spots) }
{
    let mut done = Seq::new(alloc);
    for spot in spots.into_vec() {
        let mut spot = spot;
        drive(alloc, before, &mut spot)?;
        done.push(spot)?;
    }
    Ok(done)
}
