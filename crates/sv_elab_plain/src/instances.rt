// The rules on items with instances (IEEE 1800-2017, 23.3 and 23.10): E2, E3, E10.
ghost use Rattle.std.specs.Prelude.{◌≡◌, map, option_map};
ghost use Rattle.sv_tree.specs.UnitView.{instance, instances as instances_in};
ghost use Rattle.sv_names.specs.Connections as connections;
ghost use Rattle.sv_names.specs.Given.{Gives};
ghost use Rattle.sv_names.specs.Instances as instances;
ghost use Rattle.sv_names.specs.Items as items;
ghost use Rattle.sv_names.specs.Views.{around_in};
ghost use Rattle.sv_elab_unit.specs.Definitions.{definition_in, names_in};
ghost use Rattle.sv_elab_plain.specs.Parts as parts;

use std::alloc::Global;
use sv_elab_connect::{connections_stand, values_name};
use sv_elab_unit::{Definition, is_among, param_names};
use sv_names::{Around, Checked, Refusal, and_guard, answer, judged, where_also};
use sv_tree::{Instance, Instances};

/// What the connections of an instance break by themselves.
fn instance_alone(alloc: Global, around: &Around, one: &Instance) -> Result<(), Refusal>
    ensures { Gives result (connections.connections_stand (around_in around.now) (instance one.now).connections) }
{
    connections_stand(alloc, around, one.connections.as_slice())
}

/// What the connections of instances break by themselves.
fn ports_alone(alloc: Global, around: &Around, of: &Instances) -> Result<(), Refusal>
    ensures { Gives result (items.ports_alone (around_in around.now) (instances_in of.now).list) }
{
    let mut guards = Checked::Good(());
    let mut left = of.list.as_slice();
    while let [one, rest @ ..] = left {
        let alone = judged(instance_alone(alloc, around, one))?;
        guards = and_guard(guards, alone);
        left = rest;
    }
    answer(guards)
}

/// The unit of instances breaks this rule, and they are not walked.
fn refused(alloc: Global, around: &Around, rule: u8, of: &Instances) -> Result<(), Refusal>
    ensures { Gives result (parts.refused (around_in around.now) rule (instances_in of.now)) }
{
    let broken = Err(Refusal::Rule { rule, at: of.of.at });
    where_also(broken, ports_alone(alloc, around, of))
}

/// E3: a unit contains itself.
fn not_contained(
    alloc: Global,
    around: &Around,
    chain: &[&[u8]],
    of: &Instances,
) -> Result<(), Refusal>
    ensures { Gives result (parts.not_contained (around_in around.now) (names_in chain.now) (instances_in of.now)) }
{
    if is_among(of.of.text.bytes(), chain) {
        refused(alloc, around, 3, of)
    } else {
        Ok(())
    }
}

/// The rules on an item with instances of a unit, in an instance that stands in units of these names. E2: it names no unit; E3: the unit contains
/// itself; E10: a value names no parameter, names one twice, or there are too many.
pub fn instances_stand(
    alloc: Global,
    around: &Around,
    chain: &[&[u8]],
    of: &Instances,
    unit: Option<Definition>,
) -> Result<(), Refusal>
    ensures { (i : instances.Inst) → i.chain ≡ names_in chain.now → Gives result (items.instances_stand (around_in around.now) i
        (instances_in of.now) (option_map definition_in unit.entry)) }
{
    match unit {
        None => refused(alloc, around, 2, of),
        Some(unit) => {
            let names = param_names(alloc, unit.element)?;
            let contained = not_contained(alloc, around, chain, of);
            where_also(
                contained,
                values_name(alloc, names.as_slice(), of.params.as_slice()),
            )
        }
    }
}
