// Continuous assignments, nets with values and port connections as processes (IEEE 1800-2017, 10.3 and 23.3).
ghost use Rattle.std.specs.Prelude.{◌≡◌, ◌∷◌, [], List, map};
ghost use Rattle.sv_flat.specs.declared.class.Routine.{Routine as routine};
ghost use Rattle.sv_flat.specs.declared.process.Process.{Process as process};
ghost use Rattle.sv_tree.specs.UnitView.{assign_item, connection, net_item};
ghost use Rattle.sv_names.specs.declared.checked.Checked.{Checked as checked};
ghost use Rattle.sv_names.specs.Checked.{given};
ghost use Rattle.sv_names.specs.Connections as connections;
ghost use Rattle.sv_names.specs.Connections.{Made as made_type};
ghost use Rattle.sv_names.specs.Instances as instances;
ghost use Rattle.sv_names.specs.Joined.{joined};
ghost use Rattle.sv_names.specs.Types.{Path as path_of};
ghost use Rattle.sv_names.specs.Views.{around_in};
ghost use Rattle.sv_elab_drive.specs.Making.{EmitsAny, EmitsProcess};
ghost use Rattle.sv_elab_unit.specs.Definitions.{names_in};
ghost use Rattle.sv_elab_unit.specs.Ports.{port_in};
ghost use Rattle.sv_elab_plain.specs.Adding.{AddsProcesses};
ghost use Rattle.sv_elab_plain.specs.Parts as parts;

use std::alloc::Global;
use sv_elab_connect::sv_elab_expr::expr;
use sv_elab_connect::{continuous, net_made, port_link};
use sv_elab_drives::Drives;
use sv_elab_unit::PortInfo;
use sv_elab_variable::sv_elab_write::{place_of_target, target_of};
use sv_flat::{Process, ProcessKind, Routine};
use sv_names::{Around, How, Refusal, Scope, answer, first};
use sv_tree::{AssignItem, Connection, NetItem};
use sv_value::Seq;

// ---- one process

/// Appends a process that is made.
#[tactic(auto, using(crate::proofs::ProcessLaws::one_process))]
fn add_made(made: Result<Process, Refusal>, processes: &mut Seq<Process>) -> Result<(), Refusal>
    ensures { (rs rs' : List routine) (b b' : List path_of) (c : checked made_type) → EmitsProcess b b' rs rs' made c
        → AddsProcesses processes.old processes.new rs rs' b b' result (given (λ m. m ∷ []) c) }
{
    match made {
        Ok(process) => {
            processes.push(process)?;
            Ok(())
        }
        Err(e) => Err(e),
    }
}

/// Appends a process, if one is made.
#[tactic(auto, using(crate::proofs::ProcessLaws::one_process, crate::proofs::ProcessLaws::no_process))]
fn add_any(
    made: Result<Option<Process>, Refusal>,
    processes: &mut Seq<Process>,
) -> Result<(), Refusal>
    ensures { (rs rs' : List routine) (b b' : List path_of) (c : checked (List made_type)) → EmitsAny b b' rs rs' made c
        → AddsProcesses processes.old processes.new rs rs' b b' result c }
{
    match made {
        Ok(Some(process)) => {
            processes.push(process)?;
            Ok(())
        }
        Ok(None) => Ok(()),
        Err(e) => Err(e),
    }
}

/// Processes, and more behind them.
#[tactic(auto, using(crate::proofs::ProcessLaws::processes_behind))]
fn and_processes(done: Result<(), Refusal>, next: Result<(), Refusal>) -> Result<(), Refusal>
    ensures { (ps ps' ps'' : List process) (rs rs' rs'' : List routine) (b b' b'' : List path_of) (xs ys : checked (List made_type))
        → AddsProcesses ps ps' rs rs' b b' done xs → AddsProcesses ps' ps'' rs' rs'' b' b'' next ys
        → AddsProcesses ps ps'' rs rs'' b b'' result (joined xs ys) }
{
    match done {
        Ok(()) => next,
        Err(e) => match next {
            Ok(()) => Err(e),
            Err(f) => Err(first(e, f)),
        },
    }
}

// ---- `assign`

/// The process of an `assign` (10.3.2).
fn assign_made(
    alloc: Global,
    around: &Around,
    of: &AssignItem,
    before: &mut Drives,
    routines: &mut Seq<Routine>,
) -> Result<Process, Refusal>
    ensures { EmitsProcess before.old before.new routines.old routines.new result
        (connections.assign_made (around_in around.now) (assign_item of.now)) }
{
    let target = answer(target_of(alloc, How::Continuous, &of.target, around)?);
    let value = expr(alloc, &of.value, around);
    let (at, kind) = (place_of_target(&of.target), ProcessKind::Assign);
    continuous(
        alloc, around, at, kind, target, &of.value, value, before, routines,
    )
}

/// Appends the processes of continuous assignments.
pub fn add_assigns(
    alloc: Global,
    around: &Around,
    all: &[AssignItem],
    processes: &mut Seq<Process>,
    before: &mut Drives,
    routines: &mut Seq<Routine>,
) -> Result<(), Refusal>
    ensures { AddsProcesses processes.old processes.new routines.old routines.new before.old before.new result
        (parts.assign_processes (around_in around.now) (map assign_item all.now)) }
{
    let mut done = Ok(());
    for one in all {
        let made = assign_made(alloc, around, one, before, routines);
        done = and_processes(done, add_made(made, processes));
    }
    done
}

// ---- nets with values

/// Appends the processes of net declarations with values.
pub fn add_net_values(
    alloc: Global,
    around: &Around,
    all: &[NetItem],
    processes: &mut Seq<Process>,
    before: &mut Drives,
    routines: &mut Seq<Routine>,
) -> Result<(), Refusal>
    ensures { AddsProcesses processes.old processes.new routines.old routines.new before.old before.new result
        (parts.net_processes (around_in around.now) (map net_item all.now)) }
{
    let mut done = Ok(());
    for one in all {
        let made = net_made(alloc, around, one, before, routines);
        done = and_processes(done, add_any(made, processes));
    }
    done
}

// ---- port connections

/// Appends the processes of port connections, of an instance with this scope and ports of these names.
pub fn add_links(
    alloc: Global,
    around: &Around,
    scope: &Scope,
    names: &[&[u8]],
    all: &[Connection],
    ports: &[PortInfo],
    processes: &mut Seq<Process>,
    before: &mut Drives,
    routines: &mut Seq<Routine>,
) -> Result<(), Refusal>
    ensures { (c : instances.Inst) → c.group.scope ≡ scope.now → names_in names.now ≡ instances.port_names c.unit.element
        → AddsProcesses processes.old processes.new routines.old routines.new before.old before.new result
        (parts.link_processes (around_in around.now) c (map connection all.now) (map port_in ports.now)) }
{
    let mut done = Ok(());
    for port in ports {
        let made = port_link(alloc, around, scope, names, all, port, before, routines);
        done = and_processes(done, add_any(made, processes));
    }
    done
}
