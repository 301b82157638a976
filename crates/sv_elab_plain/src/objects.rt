// Variables, nets and ports as objects (IEEE 1800-2017, 6.5, 6.8 and 23.2.2): E6, and the rules on initial values.
ghost use Rattle.std.specs.Prelude.{◌≡◌, ◌++◌, [], List, map, option_map, OnOk};
ghost use Rattle.sv_flat.specs.declared.object.Object.{Object as object_type};
ghost use Rattle.sv_tree.specs.StmtView as view;
ghost use Rattle.sv_tree.specs.UnitView.{net_item};
ghost use Rattle.sv_names.specs.declared.checked.Checked.{Checked as checked};
ghost use Rattle.sv_names.specs.Checked.{given};
ghost use Rattle.sv_names.specs.Given.{Gives};
ghost use Rattle.sv_names.specs.Groups.{Group as group};
ghost use Rattle.sv_names.specs.Items as items;
ghost use Rattle.sv_names.specs.Joined.{joined};
ghost use Rattle.sv_names.specs.Views.{around_in, meaning_in};
ghost use Rattle.sv_elab_unit.specs.Ports.{port_in};
ghost use Rattle.sv_elab_plain.specs.Adding.{AddsObjects};
ghost use Rattle.sv_elab_plain.specs.Parts as parts;

use std::alloc::Global;
use sv_elab_object::{Flags, object_at};
use sv_elab_unit::PortInfo;
use sv_elab_variable::{initial_broken, initial_of};
use sv_flat::{Initial, Object, ObjectKind};
use sv_names::{Around, Checked, Fault, Meaning, Named, Refusal, Scope, Ty, declared_in, first};
use sv_tree::{Declarator, Name, NetItem};
use sv_value::{NoMemory, Place, Seq, Text};

/// What a name stands for in the scope of its unit.
fn known_as<'a>(scope: &'a Scope, name: &Name) -> Checked<Meaning<'a>>
    ensures { (g : group) → g.scope ≡ scope.now → given meaning_in result ≡ items.known_as g name.now }
{
    match declared_in(0, name.text.bytes(), &scope.known) {
        None => Checked::Broken(Fault {
            at: name.at,
            rule: 6,
        }),
        Some(found) => match &found.known.value {
            Checked::Good(named) => Checked::Good(Meaning {
                up: found.up,
                place: found.place,
                named,
            }),
            Checked::Broken(f) => Checked::Broken(*f),
        },
    }
}

/// Appends an object of a unit, which the waveform shows where it is integral.
fn add_object(
    alloc: Global,
    around: &Around,
    kind: ObjectKind,
    is_port: bool,
    at: Place,
    path: &[Text],
    ty: &Ty,
    initial: Option<Initial>,
    objects: &mut Seq<Object>,
) -> Result<(), NoMemory>
    ensures { OnOk result (objects.new ≡ objects.old ++ parts.traced (around_in around.now) kind is_port at path.now ty.now initial) }
{
    let flags = Flags {
        is_port,
        is_property: false,
        is_traced: true,
    };
    let object = object_at(alloc, around, kind, flags, at, path, ty, initial)?;
    objects.push(object)
}

// ---- variables

/// Appends the object of a variable or a net, by what its name stands for.
fn add_named(
    alloc: Global,
    around: &Around,
    name: &Name,
    initial: Option<Initial>,
    meaning: &Meaning,
    objects: &mut Seq<Object>,
) -> Result<(), NoMemory>
    ensures { OnOk result (objects.new
        ≡ objects.old ++ items.object_named (around_in around.now) name.now initial (meaning_in meaning.now)) }
{
    match meaning.named {
        Named::Variable(path, ty) => {
            let (kind, path) = (ObjectKind::Variable, path.as_slice());
            add_object(
                alloc, around, kind, false, name.at, path, ty, initial, objects,
            )
        }
        Named::Net(path, ty) => {
            let (kind, path) = (ObjectKind::Net(0), path.as_slice());
            add_object(
                alloc, around, kind, false, name.at, path, ty, initial, objects,
            )
        }
        _ => Ok(()),
    }
}

/// The initial value of a variable, by what its name stands for.
fn initial_named(
    alloc: Global,
    around: &Around,
    of: &Declarator,
    meaning: &Meaning,
) -> Result<Option<Initial>, Refusal>
    ensures { Gives result (parts.initial_named (around_in around.now) (view.declarator of.now) (meaning_in meaning.now)) }
{
    match meaning.named {
        Named::Variable(_, ty) => initial_of(alloc, of.name.at, ty, &of.init, around),
        Named::Net(_, ty) => initial_of(alloc, of.name.at, ty, &of.init, around),
        _ => initial_of(alloc, of.name.at, &Ty::Nothing, &of.init, around),
    }
}

/// Appends the object of a variable with its initial value.
fn add_variable(
    alloc: Global,
    around: &Around,
    scope: &Scope,
    of: &Declarator,
    objects: &mut Seq<Object>,
) -> Result<(), Refusal>
    ensures { (g : group) → g.scope ≡ scope.now → AddsObjects objects.old objects.new result
        (items.variable_object (around_in around.now) g (view.declarator of.now)) }
{
    match known_as(scope, &of.name) {
        Checked::Good(meaning) => match initial_named(alloc, around, of, &meaning) {
            Ok(initial) => {
                add_named(alloc, around, &of.name, initial, &meaning, objects)?;
                Ok(())
            }
            Err(e) => Err(e),
        },
        Checked::Broken(f) => Err(first(f.refusal(), initial_broken(alloc, f, &of.init, around))),
    }
}

// ---- nets and ports

/// Appends the object of a net.
fn add_net(
    alloc: Global,
    around: &Around,
    scope: &Scope,
    of: &NetItem,
    objects: &mut Seq<Object>,
) -> Result<(), Refusal>
    ensures { (g : group) → g.scope ≡ scope.now → AddsObjects objects.old objects.new result
        (items.net_object (around_in around.now) g (net_item of.now)) }
{
    match known_as(scope, &of.name) {
        Checked::Good(meaning) => {
            add_named(alloc, around, &of.name, None, &meaning, objects)?;
            Ok(())
        }
        Checked::Broken(f) => Err(f.refusal()),
    }
}

/// Appends the object of a port, by what its name stands for.
fn add_port_named(
    alloc: Global,
    around: &Around,
    port: &PortInfo,
    meaning: &Meaning,
    objects: &mut Seq<Object>,
) -> Result<(), NoMemory>
    ensures { OnOk result (objects.new
        ≡ objects.old ++ items.port_object (around_in around.now) (port_in port.now) (meaning_in meaning.now)) }
{
    let at = port.name.at;
    match meaning.named {
        Named::Variable(path, ty) => {
            let (kind, path) = (ObjectKind::Variable, path.as_slice());
            add_object(alloc, around, kind, true, at, path, ty, None, objects)
        }
        Named::Net(path, ty) => {
            let (kind, path) = (ObjectKind::Net(0), path.as_slice());
            add_object(alloc, around, kind, true, at, path, ty, None, objects)
        }
        Named::Input { path, is_net, ty } => {
            let kind = if *is_net {
                ObjectKind::Net(0)
            } else {
                ObjectKind::Variable
            };
            let path = path.as_slice();
            add_object(alloc, around, kind, true, at, path, ty, None, objects)
        }
        _ => Ok(()),
    }
}

/// Appends the object of a port.
fn add_port(
    alloc: Global,
    around: &Around,
    scope: &Scope,
    port: &PortInfo,
    objects: &mut Seq<Object>,
) -> Result<(), Refusal>
    ensures { (g : group) → g.scope ≡ scope.now → AddsObjects objects.old objects.new result
        (parts.port_of (around_in around.now) g (port_in port.now)) }
{
    match known_as(scope, port.name) {
        Checked::Good(meaning) => {
            add_port_named(alloc, around, port, &meaning, objects)?;
            Ok(())
        }
        Checked::Broken(f) => Err(f.refusal()),
    }
}

// ---- one after another

/// Objects, and more behind them.
#[tactic(auto, using(crate::proofs::ObjectLaws::objects_behind))]
fn and_objects(done: Result<(), Refusal>, next: Result<(), Refusal>) -> Result<(), Refusal>
    ensures { (a b c : List object_type) (xs ys : checked (List object_type)) → AddsObjects a b done xs → AddsObjects b c next ys
        → AddsObjects a c result (joined xs ys) }
{
    match done {
        Ok(()) => next,
        Err(e) => match next {
            Ok(()) => Err(e),
            Err(f) => Err(first(e, f)),
        },
    }
}

/// Appends the objects of the variables of a declaration.
pub fn add_variables(
    alloc: Global,
    around: &Around,
    scope: &Scope,
    all: &[Declarator],
    objects: &mut Seq<Object>,
) -> Result<(), Refusal>
    ensures { (g : group) → g.scope ≡ scope.now → AddsObjects objects.old objects.new result
        (parts.variables_of (around_in around.now) g (map view.declarator all.now)) }
{
    let mut done = Ok(());
    for one in all {
        let next = add_variable(alloc, around, scope, one, objects);
        done = and_objects(done, next);
    }
    done
}

/// Appends the objects of nets.
pub fn add_nets(
    alloc: Global,
    around: &Around,
    scope: &Scope,
    all: &[NetItem],
    objects: &mut Seq<Object>,
) -> Result<(), Refusal>
    ensures { (g : group) → g.scope ≡ scope.now → AddsObjects objects.old objects.new result
        (parts.nets_of (around_in around.now) g (map net_item all.now)) }
{
    let mut done = Ok(());
    for one in all {
        let next = add_net(alloc, around, scope, one, objects);
        done = and_objects(done, next);
    }
    done
}

/// Appends the objects of ports.
pub fn add_ports(
    alloc: Global,
    around: &Around,
    scope: &Scope,
    all: &[PortInfo],
    objects: &mut Seq<Object>,
) -> Result<(), Refusal>
    ensures { (g : group) → g.scope ≡ scope.now → AddsObjects objects.old objects.new result
        (parts.ports_in (around_in around.now) g (map port_in all.now)) }
{
    let mut done = Ok(());
    for one in all {
        let next = add_port(alloc, around, scope, one, objects);
        done = and_objects(done, next);
    }
    done
}
