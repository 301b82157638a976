// Things that may break a rule, and which of their arguments are targets.
ghost use Rattle.std.specs.Prelude.{◌≡◌, IfOk, IfErr};
ghost use Rattle.sv_names.specs.declared.checked.Checked.{Checked as checked};
ghost use Rattle.sv_names.specs.declared.checked.Checked.TheVariants.{Good};
ghost use Rattle.sv_names.specs.declared.refusal.Refusal.TheVariants.{Memory};
ghost use Rattle.sv_names.specs.Checked.{given};
ghost use Rattle.sv_names.specs.Calls as calls;
ghost use Rattle.sv_names.specs.Given.{GivesAs};
ghost use Rattle.sv_names.specs.Things as things;
ghost use Rattle.sv_names.specs.Things.{Thing as thing_of};
ghost use Rattle.sv_elab_name.specs.Things.{thing_in};

use crate::Thing;
use std::alloc::Global;
use sv_names::{Action, Checked, Fault, Formal, Refusal};
use sv_tree::Direction;
use sv_value::Seq;

/// What a function answers, as a thing that may break a rule.
pub fn judged_thing(thing: Result<Thing, Refusal>) -> Result<Checked<Thing>, Refusal>
    ensures ok { (x : checked thing_of) → GivesAs thing_in thing.entry x → IfOk result (λ c. given thing_in c ≡ x) }
    ensures err { IfErr result (λ e. e ≡ Memory) }
{
    match thing {
        Ok(thing) => Ok(Checked::Good(thing)),
        Err(Refusal::Rule { rule, at }) => Ok(Checked::Broken(Fault { at, rule })),
        Err(Refusal::Memory) => Err(Refusal::Memory),
    }
}

/// How many hidden variables stand before the arguments of what is called.
pub fn hidden_behind(thing: &Checked<Thing>) -> usize
    ensures { result ≡ things.hidden_before (given thing_in thing.now) }
{
    match thing {
        Checked::Good(thing) => thing.hidden_before(),
        Checked::Broken(_) => 0,
    }
}

// ---- which arguments are targets

/// Whether an argument is written.
fn is_output(direction: Direction) -> bool
    ensures { result ≡ calls.is_output direction }
{
    match direction {
        Direction::Input => false,
        _ => true,
    }
}

/// Which arguments of a subroutine are taken as targets, from the first on.
pub fn outputs_of(alloc: Global, formals: &[Formal]) -> Result<Seq<bool>, Refusal>
    ensures ok { IfOk result (λ os. os ≡ calls.outputs_of formals.now) }
    ensures err { IfErr result (λ e. e ≡ Memory) }
{
    let mut outputs = Seq::new(alloc);
    for formal in formals {
        outputs.push(is_output(formal.direction))?;
    }
    Ok(outputs)
}

/// Which arguments of a method of the language are.
fn outputs_of_action(alloc: Global, action: Action) -> Result<Seq<bool>, Refusal>
    ensures ok { IfOk result (λ os. os ≡ calls.outputs_of_action action) }
    ensures err { IfErr result (λ e. e ≡ Memory) }
{
    let mut outputs = Seq::new(alloc);
    match action {
        Action::Walk(_) => outputs.push(true)?,
        Action::Get { .. } => outputs.push(true)?,
        _ => {}
    }
    Ok(outputs)
}

/// Which arguments of what is called are.
fn outputs_of_thing(alloc: Global, thing: &Thing) -> Result<Seq<bool>, Refusal>
    ensures ok { IfOk result (λ os. os ≡ things.outputs_of_thing (Good (thing_in thing.now))) }
    ensures err { IfErr result (λ e. e ≡ Memory) }
{
    match thing {
        Thing::Subroutine { callee, .. } => outputs_of(alloc, callee.formals.as_slice()),
        Thing::Method { method, .. } => outputs_of_action(alloc, method.action),
        Thing::ItsResult { callee, .. } => outputs_of(alloc, callee.formals.as_slice()),
        Thing::Value(_) => Ok(Seq::new(alloc)),
        Thing::Block { .. } => Ok(Seq::new(alloc)),
        Thing::Signal { .. } => Ok(Seq::new(alloc)),
        Thing::TypeName { .. } => Ok(Seq::new(alloc)),
    }
}

/// Which arguments of what is called are taken as targets, from the first on; none where it breaks a rule.
pub fn outputs_behind(alloc: Global, thing: &Checked<Thing>) -> Result<Seq<bool>, Refusal>
    ensures ok { IfOk result (λ os. os ≡ things.outputs_of_thing (given thing_in thing.now)) }
    ensures err { IfErr result (λ e. e ≡ Memory) }
{
    match thing {
        Checked::Good(thing) => outputs_of_thing(alloc, thing),
        Checked::Broken(_) => Ok(Seq::new(alloc)),
    }
}
