// Net declarations with a value, which count as continuous assignments (IEEE 1800-2017, 10.3.1): E16 to E18.
ghost use Rattle.std.specs.Prelude.{◌≡◌, IfOk};
ghost use Rattle.sv_tree.specs.declared.expr.Root.TheVariants as root;
ghost use Rattle.sv_tree.specs.UnitView.{net_item};
ghost use Rattle.sv_tree.specs.View as view;
ghost use Rattle.sv_names.specs.Connections as connections;
ghost use Rattle.sv_names.specs.Views.{around_in};
ghost use Rattle.sv_elab_connect.specs.Nets as nets;
ghost use Rattle.sv_elab_drive.specs.Making.{EmitsProcess, EmitsAny};

use crate::giving::{continuous, one_made};
use std::alloc::Global;
use sv_elab_drives::Drives;
use sv_elab_expr::{expr, target_of_name};
use sv_flat::{Process, ProcessKind, Routine};
use sv_names::{Around, How, Refusal, answer};
use sv_tree::{Expr, Name, NetItem, Root};
use sv_value::{NoMemory, Seq};

/// The name of a net as what a target begins with.
fn root_of(name: &Name) -> Result<Root, NoMemory>
    ensures { IfOk result (λ r. r ≡ root.Plain name.now) }
{
    let text = name.text.share()?;
    Ok(Root::Plain(Name { at: name.at, text }))
}

/// The process that gives a value to a net.
fn net_process(
    alloc: Global,
    around: &Around,
    name: &Name,
    e: &Expr,
    before: &mut Drives,
    routines: &mut Seq<Routine>,
) -> Result<Process, Refusal>
    ensures { EmitsProcess before.old before.new routines.old routines.new result
        (nets.net_process (around_in around.now) name.now (view.expr e.now)) }
{
    let root = root_of(name)?;
    let target = target_of_name(alloc, How::Continuous, &root, &[], around)?;
    let value = expr(alloc, e, around);
    let kind = ProcessKind::Assign;
    let spots = answer(target);
    continuous(
        alloc, around, name.at, kind, spots, e, value, before, routines,
    )
}

/// The process of a net that has a value.
pub fn net_made(
    alloc: Global,
    around: &Around,
    net: &NetItem,
    before: &mut Drives,
    routines: &mut Seq<Routine>,
) -> Result<Option<Process>, Refusal>
    ensures { EmitsAny before.old before.new routines.old routines.new result
        (connections.net_made (around_in around.now) (net_item net.now)) }
{
    match &net.value {
        None => Ok(None),
        Some(e) => one_made(net_process(alloc, around, &net.name, e, before, routines)),
    }
}
