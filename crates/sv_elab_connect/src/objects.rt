// Ports as they are seen from outside their unit, and objects of the same name (IEEE 1800-2017, 23.3.2 and 23.3.3): E6, E9.
ghost use Rattle.std.specs.Prelude.{◌≡◌, ◌∷◌, [], IfOk, IfErr};
ghost use Rattle.sv_tree.specs.declared.word.Name.{Name as name_of};
ghost use Rattle.sv_names.specs.declared.refusal.Refusal.TheVariants.{Memory};
ghost use Rattle.sv_names.specs.declared.checked.Checked.TheVariants.{Broken};
ghost use Rattle.sv_names.specs.declared.ty.Ty.TheVariants.{Nothing};
ghost use Rattle.sv_names.specs.Checked.{given, ◌where_also◌};
ghost use Rattle.sv_names.specs.Connections as connections;
ghost use Rattle.sv_names.specs.Given.{Gives, GivesAs};
ghost use Rattle.sv_names.specs.Instances as instances;
ghost use Rattle.sv_names.specs.declared.typed.Begin.TheVariants as begin;
ghost use Rattle.sv_names.specs.Named as names;
ghost use Rattle.sv_names.specs.Things as things;
ghost use Rattle.sv_names.specs.Views.{around_in, meaning_in};
ghost use Rattle.sv_elab_unit.specs.Ports.{port_in};

use std::alloc::Global;
use sv_elab_expr::sv_elab_name::object_typed;
use sv_elab_expr::sv_elab_select::Spot;
use sv_elab_unit::PortInfo;
use sv_names::{
    Around, Begin, Checked, Fault, Meaning, Named, Refusal, Scope, SharedPath, Ty, Typed,
    declared_in, where_also,
};
use sv_value::{Place, Seq, Text};

/// A variable, as a target of its own.
fn variable_thing(
    alloc: Global,
    around: &Around,
    at: Place,
    path: &SharedPath,
    ty: &Ty,
) -> Result<Typed, Refusal>
    ensures ok { IfOk result (λ t. t ≡ things.object_typed (around_in around.now) at path.now ty.now (begin.Variable path.now)) }
    ensures err { IfErr result (λ e. e ≡ Memory) }
{
    let begins = Begin::Variable(path.share()?);
    object_typed(alloc, around, at, path.as_slice(), ty, begins)
}

/// A net, as a target of its own.
fn net_thing(
    alloc: Global,
    around: &Around,
    at: Place,
    path: &SharedPath,
    ty: &Ty,
) -> Result<Typed, Refusal>
    ensures ok { IfOk result (λ t. t ≡ things.object_typed (around_in around.now) at path.now ty.now (begin.Net path.now)) }
    ensures err { IfErr result (λ e. e ≡ Memory) }
{
    let begins = Begin::Net(path.share()?);
    object_typed(alloc, around, at, path.as_slice(), ty, begins)
}

/// What is no object.
fn no_thing(alloc: Global, around: &Around, at: Place) -> Result<Typed, Refusal>
    ensures ok { IfOk result (λ t. t ≡ things.object_typed (around_in around.now) at [] Nothing begin.Value) }
    ensures err { IfErr result (λ e. e ≡ Memory) }
{
    object_typed(alloc, around, at, &[], &Ty::Nothing, Begin::Value)
}

/// A port, from outside its unit.
#[tactic(auto, using(crate::proofs::ObjectLaws::level_thing))]
fn port_thing(
    alloc: Global,
    around: &Around,
    at: Place,
    meaning: &Meaning,
) -> Result<Typed, Refusal>
    ensures ok { IfOk result (λ t. t ≡ connections.port_thing (around_in around.now) at (meaning_in meaning.now)) }
    ensures err { IfErr result (λ e. e ≡ Memory) }
{
    match meaning.named {
        Named::Variable(path, ty) => variable_thing(alloc, around, at, path, ty),
        Named::Net(path, ty) => net_thing(alloc, around, at, path, ty),
        Named::Input { path, is_net, ty } => {
            if *is_net {
                net_thing(alloc, around, at, path, ty)
            } else {
                variable_thing(alloc, around, at, path, ty)
            }
        }
        Named::Local { .. } | Named::Property { .. } | Named::StaticProperty { .. } => {
            no_thing(alloc, around, at)
        }
        Named::Constant(_, _) | Named::TypeName(_) | Named::ClassName(_) => {
            no_thing(alloc, around, at)
        }
        Named::Subroutine(_) | Named::Itself(_, _) => no_thing(alloc, around, at),
        Named::ClockingBlock(_, _) | Named::Other => no_thing(alloc, around, at),
    }
}

/// What a port stands for in its unit, in an instance with this scope.
fn port_known<'a>(scope: &'a Scope, port: &PortInfo) -> Result<Meaning<'a>, Refusal>
    ensures { (c : instances.Inst) → c.group.scope ≡ scope.now → GivesAs meaning_in result (connections.port_known c (port_in port.now)) }
{
    match declared_in(0, port.name.text.bytes(), &scope.known) {
        None => Err(Refusal::Rule {
            rule: 6,
            at: port.name.at,
        }),
        Some(found) => match &found.known.value {
            Checked::Good(named) => Ok(Meaning {
                up: found.up,
                place: found.place,
                named,
            }),
            Checked::Broken(fault) => Err(fault.refusal()),
        },
    }
}

/// A port as a value, from outside its unit.
pub(crate) fn port_value(
    alloc: Global,
    around: &Around,
    at: Place,
    scope: &Scope,
    port: &PortInfo,
) -> Result<Typed, Refusal>
    ensures { (c : instances.Inst) → c.group.scope ≡ scope.now
        → Gives result (given (connections.port_thing (around_in around.now) at) (connections.port_known c (port_in port.now))) }
{
    match port_known(scope, port) {
        Ok(meaning) => {
            let thing = port_thing(alloc, around, at, &meaning)?;
            Ok(thing)
        }
        Err(e) => Err(e),
    }
}

/// A port as a target, from outside its unit.
pub(crate) fn port_target(
    alloc: Global,
    around: &Around,
    at: Place,
    scope: &Scope,
    port: &PortInfo,
) -> Result<Seq<Spot>, Refusal>
    ensures { (c : instances.Inst) → c.group.scope ≡ scope.now
        → Gives result (given (λ n. (at, connections.port_thing (around_in around.now) at n) ∷ []) (connections.port_known c (port_in port.now))) }
{
    match port_known(scope, port) {
        Ok(meaning) => {
            let thing = port_thing(alloc, around, at, &meaning)?;
            let mut list = Seq::new(alloc);
            list.push((at, thing))?;
            Ok(list)
        }
        Err(e) => Err(e),
    }
}

// ---- the object of the same name

/// E9: it is no object.
fn is_object(at: Place, named: &Named) -> Result<(), Refusal>
    ensures { Gives result (connections.is_object at named.now) }
{
    match named {
        Named::Variable(_, _) => Ok(()),
        Named::Net(_, _) => Ok(()),
        Named::Input { .. } => Ok(()),
        Named::Local { .. } | Named::Property { .. } | Named::StaticProperty { .. } => {
            Err(Refusal::Rule { rule: 9, at })
        }
        Named::Constant(_, _) | Named::TypeName(_) | Named::ClassName(_) => {
            Err(Refusal::Rule { rule: 9, at })
        }
        Named::Subroutine(_) | Named::Itself(_, _) => Err(Refusal::Rule { rule: 9, at }),
        Named::ClockingBlock(_, _) | Named::Other => Err(Refusal::Rule { rule: 9, at }),
    }
}

/// A name that breaks a rule, and E9: it is declared as no object.
fn broken_object(around: &Around, at: Place, name: &[u8], fault: Fault) -> Result<(), Refusal>
    ensures { Gives result (Broken fault where_also names.kind_stands (around_in around.now) 9 at names.is_object_kind name.now) }
{
    where_also(Err(fault.refusal()), around.object_stands(9, at, name))
}

/// E9: the name of a port finds no object where `.name` or `.*` stands.
pub(crate) fn finds_object(around: &Around, at: Place, name: &[u8]) -> Result<(), Refusal>
    ensures { (n : name_of) → n.text ≡ name.now → Gives result (connections.finds_object (around_in around.now) at n) }
{
    match around.find(name) {
        None => Err(Refusal::Rule { rule: 9, at }),
        Some(found) => match &found.known.value {
            Checked::Good(named) => is_object(at, named),
            Checked::Broken(fault) => broken_object(around, at, name, *fault),
        },
    }
}
