// The processes of port connections (IEEE 1800-2017, 23.3.3).
ghost use Rattle.std.specs.Prelude.{◌≡◌, map, option_map, IfOk, OnOk};
ghost use Rattle.sv_tree.specs.Items.{DesignElement as element};
ghost use Rattle.sv_tree.specs.UnitView as view;
ghost use Rattle.sv_names.specs.Instances as instances;
ghost use Rattle.sv_names.specs.Sources as sources;
ghost use Rattle.sv_names.specs.Views.{around_in};
ghost use Rattle.sv_elab_connect.specs.Links.{linked_in};
ghost use Rattle.sv_elab_unit.specs.Definitions.{names_in};
ghost use Rattle.sv_elab_unit.specs.Ports.{port_in};
ghost use Rattle.sv_elab_writers.specs.Views.{touch_in, process_in};
ghost use Rattle.sv_elab_met.specs.Behind.{Run};
ghost use Rattle.sv_elab_met.specs.Met as words;

use crate::targets::{expr_written, name_written};
use std::alloc::Global;
use sv_elab_connect::{Linked, linked_port};
use sv_elab_unit::{PortInfo, port_names, ports_of};
use sv_elab_writers::{Process, Touch, Writer};
use sv_names::Around;
use sv_tree::{Connection, DesignElement, ImpliedType};
use sv_value::{NoMemory, Place, Seq};

/// Where a connection stands.
fn place_of_link(link: &Linked) -> Place
    ensures { result ≡ sources.place_of_link (linked_in link.now) }
{
    match link {
        Linked::To(at, _) => *at,
        Linked::Same(at, _) => *at,
    }
}

/// What the connection of an output writes.
fn output_written(
    alloc: Global,
    around: &Around,
    port: &PortInfo,
    link: &Linked,
) -> Result<Seq<Touch>, NoMemory>
    ensures { IfOk result (λ ts. map touch_in ts
        ≡ words.output_written (around_in around.now) (port_in port.now) (linked_in link.now)) }
{
    match link {
        Linked::To(_, e) => expr_written(alloc, e, around),
        Linked::Same(_, named) => name_written(alloc, *named, &port.name.text, around),
    }
}

/// What a connection writes: that of an input nothing.
fn link_written(
    alloc: Global,
    around: &Around,
    port: &PortInfo,
    link: &Linked,
) -> Result<Seq<Touch>, NoMemory>
    ensures { IfOk result (λ ts. map touch_in ts
        ≡ words.link_written (around_in around.now) (port_in port.now) (linked_in link.now)) }
{
    if port.is_input {
        Ok(Seq::new(alloc))
    } else {
        output_written(alloc, around, port, link)
    }
}

/// Appends the process of a port, where it is connected.
#[tactic(auto, using(crate::proofs::BehindLaws::run_none, crate::proofs::BehindLaws::run_one))]
fn add_link(
    alloc: Global,
    around: &Around,
    port: &PortInfo,
    link: &Option<Linked>,
    list: &mut Seq<Process>,
) -> Result<(), NoMemory>
    ensures { OnOk result (Run list.old list.new
        (sources.port_process (around_in around.now) (port_in port.now) (option_map linked_in link.now))) }
{
    match link {
        None => Ok(()),
        Some(link) => {
            let touches = link_written(alloc, around, port, link)?;
            list.push(Process {
                at: place_of_link(link),
                writer: Writer::Continuously,
                touches,
            })
        }
    }
}

/// Appends the process of a port of the unit with these names of ports.
fn add_port(
    alloc: Global,
    around: &Around,
    names: &[&[u8]],
    all: &[Connection],
    port: &PortInfo,
    list: &mut Seq<Process>,
) -> Result<(), NoMemory>
    ensures { (u : element) → names_in names.now ≡ instances.port_names u → OnOk result (Run list.old list.new
        (words.port_process (around_in around.now) u (map view.connection all.now) (port_in port.now))) }
{
    let link = linked_port(names, all, port)?;
    add_link(alloc, around, port, &link, list)
}

/// The processes of the ports of a unit.
#[tactic(auto, using(crate::proofs::BehindLaws::all_run))]
pub(crate) fn port_processes(
    alloc: Global,
    around: &Around,
    of: &DesignElement,
    all: &[Connection],
) -> Result<Seq<Process>, NoMemory>
    ensures { IfOk result (λ ps. map process_in ps
        ≡ words.port_processes (around_in around.now) (view.design_element of.now) (map view.connection all.now)
        (instances.ports_of (view.design_element of.now))) }
{
    let unwritten = ImpliedType::Unwritten;
    let ports = ports_of(alloc, of, &unwritten)?;
    let names = port_names(alloc, of)?;
    let mut done = Seq::new(alloc);
    let list = ports.as_slice();
    for port in list {
        add_port(alloc, around, names.as_slice(), all, port, &mut done)?;
    }
    Ok(done)
}
