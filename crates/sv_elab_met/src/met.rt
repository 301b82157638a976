// What is met on the walk through a design (IEEE 1800-2017, 6.5, 9.2, 10.3, 13 and 23.3).
ghost use Rattle.std.specs.Prelude.{◌≡◌, map, IfOk};
ghost use Rattle.sv_tree.specs.UnitView as view;
ghost use Rattle.sv_names.specs.Sources as sources;
ghost use Rattle.sv_names.specs.Views.{around_in};
ghost use Rattle.sv_elab_scope.specs.Rows.{group_in};
ghost use Rattle.sv_elab_writers.specs.Views.{met_in};
ghost use Rattle.sv_elab_met.specs.Met as words;

use crate::classes::item_table;
use crate::declares::{add_item, add_ports};
use crate::ports::port_processes;
use crate::processes::item_processes;
use std::alloc::Global;
use sv_elab_scope::Group;
use sv_elab_unit::ports_of;
use sv_elab_writers::Met;
use sv_names::Around;
use sv_tree::{Connection, DesignElement, ImpliedType, Item};
use sv_value::{NoMemory, Seq, Text};

/// Behind so many scopes.
fn behind<'a>(around: &Around<'a>, blocks: u32) -> Around<'a>
    ensures { around_in result ≡ words.behind blocks (around_in around.now) }
{
    Around {
        blocks: around.blocks.saturating_add(blocks),
        ..*around
    }
}

/// What an instance of a unit with this scope declares by its ports.
pub fn met_entered(alloc: Global, group: &Group, of: &DesignElement) -> Result<Met, NoMemory>
    ensures { IfOk result (λ m. met_in m ≡ words.entered (group_in group.now) (view.design_element of.now)) }
{
    let unwritten = ImpliedType::Unwritten;
    let ports = ports_of(alloc, of, &unwritten)?;
    let mut declared = Seq::new(alloc);
    add_ports(group, ports.as_slice(), &mut declared)?;
    Ok(Met {
        declared,
        processes: Seq::new(alloc),
        table: Seq::new(alloc),
    })
}

/// What an item of the instance with this path and scope declares, its processes, which stand behind so many blocks of the unit, and its
/// subroutines.
pub fn met_item(
    alloc: Global,
    around: &Around,
    blocks: u32,
    group: &Group,
    path: &[Text],
    item: &Item,
) -> Result<Met, NoMemory>
    ensures { IfOk result (λ m. met_in m
        ≡ words.item_met (around_in around.now) blocks (group_in group.now) path.now (view.item item.now)) }
{
    let mut declared = Seq::new(alloc);
    add_item(alloc, around, group, path, item, &mut declared)?;
    let processes = item_processes(alloc, &behind(around, blocks), path, item)?;
    let table = item_table(alloc, around, path, item)?;
    Ok(Met {
        declared,
        processes,
        table,
    })
}

/// The processes of the port connections of an instance of this unit.
pub fn met_connections(
    alloc: Global,
    around: &Around,
    of: &DesignElement,
    all: &[Connection],
) -> Result<Met, NoMemory>
    ensures { IfOk result (λ m. met_in m
        ≡ words.connected (around_in around.now) (view.design_element of.now) (map view.connection all.now)) }
{
    let processes = port_processes(alloc, around, of, all)?;
    Ok(Met {
        declared: Seq::new(alloc),
        processes,
        table: Seq::new(alloc),
    })
}

/// What an item outside units declares, and its subroutines.
pub fn met_outside(
    alloc: Global,
    files: &Around,
    group: &Group,
    item: &Item,
) -> Result<Met, NoMemory>
    ensures { IfOk result (λ m. met_in m
        ≡ sources.met_outside (around_in files.now) (group_in group.now) (view.item item.now)) }
{
    let mut declared = Seq::new(alloc);
    add_item(alloc, files, group, &[], item, &mut declared)?;
    let table = item_table(alloc, files, &[], item)?;
    Ok(Met {
        declared,
        processes: Seq::new(alloc),
        table,
    })
}
