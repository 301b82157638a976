// The objects that hold the samples of inputs (IEEE 1800-2017, 14.13).
ghost use Rattle.std.specs.Prelude.{◌≡◌, ◌++◌, OnOk};
ghost use Rattle.sv_names.specs.Clockings as clockings;
ghost use Rattle.sv_names.specs.Views.{around_in};

use std::alloc::Global;
use sv_elab_object::{Flags, object_at};
use sv_flat::{Object, ObjectKind};
use sv_names::{Around, Checked, SignalInfo};
use sv_value::{NoMemory, Seq};

/// Appends the object that holds the sample of a signal, where that is an input.
fn add_sample(
    alloc: Global,
    around: &Around,
    info: &SignalInfo,
    objects: &mut Seq<Object>,
) -> Result<(), NoMemory>
    ensures { OnOk result (objects.new ≡ objects.old ++ clockings.sample_of (around_in around.now) info.now) }
{
    if !info.is_input {
        return Ok(());
    }
    let flags = Flags {
        is_port: false,
        is_property: false,
        is_traced: false,
    };
    let object = object_at(
        alloc,
        around,
        ObjectKind::Sample,
        flags,
        info.name.at,
        info.sample.as_slice(),
        &info.ty,
        None,
    )?;
    objects.push(object)
}

/// Appends the objects that hold the samples of all inputs.
#[tactic(auto, using(crate::proofs::SampleLaws::one_more, crate::proofs::SampleLaws::one_broken))]
pub fn add_samples(
    alloc: Global,
    around: &Around,
    infos: &[Checked<SignalInfo>],
    objects: &mut Seq<Object>,
) -> Result<(), NoMemory>
    ensures { OnOk result (objects.new ≡ objects.old ++ clockings.sample_objects (around_in around.now) infos.now) }
{
    let mut left = infos;
    while let [one, rest @ ..] = left {
        match one {
            Checked::Good(info) => add_sample(alloc, around, info, objects)?,
            Checked::Broken(_) => {}
        }
        left = rest;
    }
    Ok(())
}
