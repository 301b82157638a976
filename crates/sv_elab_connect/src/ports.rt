// The processes of port connections (IEEE 1800-2017, 23.3.3): E6, E9, E16 to E19, E21.
ghost use Rattle.std.specs.Prelude.{◌≡◌, Some, IfOk, map, option_map};
ghost use Rattle.sv_tree.specs.Expr as tree;
ghost use Rattle.sv_tree.specs.View as view;
ghost use Rattle.sv_names.specs.Connections as connections;
ghost use Rattle.sv_names.specs.Instances as instances;
ghost use Rattle.sv_names.specs.declared.typed.How.TheVariants.{Continuous};
ghost use Rattle.sv_names.specs.Given.{Fails};
ghost use Rattle.sv_names.specs.Checked.{broken_at, only, ◌where_also◌};
ghost use Rattle.sv_names.specs.Expressions as expressions;
ghost use Rattle.sv_names.specs.Views.{around_in};
ghost use Rattle.sv_tree.specs.UnitView.{connection};
ghost use Rattle.sv_elab_unit.specs.Definitions.{names_in};
ghost use Rattle.sv_elab_unit.specs.Ports.{port_in};
ghost use Rattle.sv_elab_connect.specs.Links.{linked_in};
ghost use Rattle.sv_elab_drive.specs.Making.{EmitsProcess, EmitsAny};

use crate::giving::{continuous, one_made};
use crate::links::{Linked, linked_port};
use crate::objects::{finds_object, port_target, port_value};
use crate::stands::expr_stands;
use std::alloc::Global;
use sv_elab_drives::Drives;
use sv_elab_expr::{expr, place_of, target_in};
use sv_elab_unit::PortInfo;
use sv_flat::{Process, ProcessKind, Routine};
use sv_names::{Around, How, Refusal, Scope, answer, first};
use sv_tree::{Connection, Expr, Name, Root};
use sv_value::{Excerpt, NoMemory, Place, Seq};

/// A connection of a port: where it stands, and the instance that has the port.
#[derive(Clone, Copy)]
pub struct Link<'a> {
    /// The scope of the instance.
    pub scope: &'a Scope,
    /// The port.
    pub port: &'a PortInfo<'a>,
    /// Where the connection stands.
    pub at: Place,
}

/// E18: an expression that is no target stands for an output.
fn no_target(alloc: Global, around: &Around, e: &Expr) -> Refusal
    ensures { Fails {A = connections.Made} result (broken_at 18 (tree.place_of (view.expr e.now))
        where_also only (expressions.expr (around_in around.now) (view.expr e.now))) }
{
    let refused = Refusal::Rule {
        rule: 18,
        at: place_of(e),
    };
    match expr_stands(alloc, around, e) {
        Ok(()) => refused,
        Err(f) => first(refused, f),
    }
}

/// An input gets the value of an expression.
fn input_link(
    alloc: Global,
    around: &Around,
    link: Link,
    e: &Expr,
    before: &mut Drives,
    routines: &mut Seq<Routine>,
) -> Result<Process, Refusal>
    ensures { (c : instances.Inst) → c.group.scope ≡ link.entry.scope.now → EmitsProcess before.old before.new routines.old routines.new result
        (connections.input_link (around_in around.now) c (port_in link.entry.port.now) link.entry.at (view.expr e.now)) }
{
    let target = port_target(alloc, around, link.at, link.scope, link.port);
    let value = expr(alloc, e, around);
    continuous(
        alloc,
        around,
        link.at,
        ProcessKind::Port,
        target,
        e,
        value,
        before,
        routines,
    )
}

/// An output writes a target.
fn output_link(
    alloc: Global,
    around: &Around,
    link: Link,
    e: &Expr,
    before: &mut Drives,
    routines: &mut Seq<Routine>,
) -> Result<Process, Refusal>
    ensures { (c : instances.Inst) → c.group.scope ≡ link.entry.scope.now → EmitsProcess before.old before.new routines.old routines.new result
        (connections.output_link (around_in around.now) c (port_in link.entry.port.now) link.entry.at (view.expr e.now)
        (expressions.target_in Continuous (around_in around.now) (view.expr e.now))) }
{
    let target = target_in(alloc, How::Continuous, e, around)?;
    match target {
        None => Err(no_target(alloc, around, e)),
        Some(target) => {
            let value = port_value(alloc, around, link.at, link.scope, link.port);
            let spots = answer(target);
            let kind = ProcessKind::Port;
            continuous(
                alloc, around, link.at, kind, spots, e, value, before, routines,
            )
        }
    }
}

/// A connection to an expression, by the direction of its port.
fn link_to(
    alloc: Global,
    around: &Around,
    link: Link,
    e: &Expr,
    before: &mut Drives,
    routines: &mut Seq<Routine>,
) -> Result<Process, Refusal>
    ensures { (c : instances.Inst) → c.group.scope ≡ link.entry.scope.now → EmitsProcess before.old before.new routines.old routines.new result
        (connections.link (around_in around.now) c (port_in link.entry.port.now) link.entry.at (view.expr e.now)) }
{
    if link.port.is_input {
        input_link(alloc, around, link, e, before, routines)
    } else {
        output_link(alloc, around, link, e, before, routines)
    }
}

/// A name as an expression.
fn plain_name(alloc: Global, at: Place, text: &Excerpt) -> Result<Expr, NoMemory>
    ensures { IfOk result (λ e. view.expr e ≡ instances.plain_name (record { at = at; text = text.now })) }
{
    let text = text.share()?;
    let name = Name { at, text };
    Ok(Expr::Post(Root::Plain(name), Vec::new(alloc)))
}

/// A connection to the object of the same name.
fn same_link(
    alloc: Global,
    around: &Around,
    link: Link,
    place: Place,
    before: &mut Drives,
    routines: &mut Seq<Routine>,
) -> Result<Process, Refusal>
    ensures { (c : instances.Inst) → c.group.scope ≡ link.entry.scope.now → EmitsProcess before.old before.new routines.old routines.new result
        (connections.link (around_in around.now) c (port_in link.entry.port.now) link.entry.at
        (instances.plain_name (record { at = place; text = link.entry.port.now.name.now.text }))) }
{
    let e = plain_name(alloc, place, &link.port.name.text)?;
    link_to(alloc, around, link, &e, before, routines)
}

/// The process of a port that is connected to this; E9: `.name` or `.*` finds no object.
fn made_link(
    alloc: Global,
    around: &Around,
    scope: &Scope,
    port: &PortInfo,
    linked: Linked,
    before: &mut Drives,
    routines: &mut Seq<Routine>,
) -> Result<Option<Process>, Refusal>
    ensures { (c : instances.Inst) → c.group.scope ≡ scope.now → EmitsAny before.old before.new routines.old routines.new result
        (connections.link_of (around_in around.now) c (port_in port.now) (Some (linked_in linked.entry))) }
{
    match linked {
        Linked::To(at, e) => {
            let link = Link { scope, port, at };
            one_made(link_to(alloc, around, link, e, before, routines))
        }
        Linked::Same(at, place) => {
            let link = Link { scope, port, at };
            match finds_object(around, at, port.name.text.bytes()) {
                Ok(()) => one_made(same_link(alloc, around, link, place, before, routines)),
                Err(e) => Err(e),
            }
        }
    }
}

/// The same, where it is connected.
fn link_of(
    alloc: Global,
    around: &Around,
    scope: &Scope,
    port: &PortInfo,
    linked: Option<Linked>,
    before: &mut Drives,
    routines: &mut Seq<Routine>,
) -> Result<Option<Process>, Refusal>
    ensures { (c : instances.Inst) → c.group.scope ≡ scope.now → EmitsAny before.old before.new routines.old routines.new result
        (connections.link_of (around_in around.now) c (port_in port.now) (option_map linked_in linked.entry)) }
{
    match linked {
        None => Ok(None),
        Some(linked) => made_link(alloc, around, scope, port, linked, before, routines),
    }
}

/// The process of the connection of a port among those of an instance, where there is one. E9: `.name` or `.*` finds no object.
pub fn port_link(
    alloc: Global,
    around: &Around,
    scope: &Scope,
    names: &[&[u8]],
    all: &[Connection],
    port: &PortInfo,
    before: &mut Drives,
    routines: &mut Seq<Routine>,
) -> Result<Option<Process>, Refusal>
    ensures { (c : instances.Inst) → c.group.scope ≡ scope.now → names_in names.now ≡ instances.port_names c.unit.element
        → EmitsAny before.old before.new routines.old routines.new result
        (connections.port_link (around_in around.now) c (map connection all.now) (port_in port.now)) }
{
    let linked = linked_port(names, all, port)?;
    link_of(alloc, around, scope, port, linked, before, routines)
}
