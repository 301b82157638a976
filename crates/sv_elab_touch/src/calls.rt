// What calls write and call (IEEE 1800-2017, 7.5, 7.9, 7.10, 8.20, 13.5 and 15.4).
ghost use Rattle.std.specs.Prelude.{◌≡◌, ◌∷◌, [], OnOk};
ghost use Rattle.sv_tree.specs.Expr as tree;
ghost use Rattle.sv_tree.specs.View as view;
ghost use Rattle.sv_names.specs.Calls as calls;
ghost use Rattle.sv_names.specs.Checked.{given};
ghost use Rattle.sv_names.specs.declared.checked.Checked.TheVariants.{Good};
ghost use Rattle.sv_names.specs.Writers as writers;
ghost use Rattle.sv_names.specs.Views.{around_in};
ghost use Rattle.sv_elab_name.specs.Things.{thing_in};
ghost use Rattle.sv_elab_touch.specs.Touched.{Touched, output_touch, virtual_touches, is_result};

use crate::targets::add_target;
use crate::written::add_written;
use std::alloc::Global;
use sv_elab_name::Thing;
use sv_elab_writers::Touch;
use sv_names::{
    Action, Around, Callee, Checked, Formal, How, Method, System, Ty, Typed, copy_path,
};
use sv_tree::{Actuals, Direction, Expr};
use sv_value::{NoMemory, Seq, Text};

// ---- who is called

/// Appends a call of a subroutine.
#[tactic(auto, using(crate::proofs::TouchedLaws::touched_one))]
fn add_called(alloc: Global, path: &[Text], touches: &mut Seq<Touch>) -> Result<(), NoMemory>
    ensures { OnOk result (Touched touches.old touches.new (writers.Calls path.now ∷ [])) }
{
    let path = copy_path(alloc, path)?;
    touches.push(Touch::Calls(path))
}

/// Appends what may override a method of this class, where a call of it is virtual.
#[tactic(auto, using(crate::proofs::TouchedLaws::touched_none, crate::proofs::TouchedLaws::touched_one))]
fn add_virtual(
    alloc: Global,
    callee: &Callee,
    class: &[Text],
    is_direct: bool,
    touches: &mut Seq<Touch>,
) -> Result<(), NoMemory>
    ensures { OnOk result (Touched touches.old touches.new (virtual_touches callee.now class.now is_direct)) }
{
    if !(callee.is_virtual && !is_direct && !callee.is_static) {
        return Ok(());
    }
    let class = copy_path(alloc, class)?;
    let mut name = Text::new(alloc);
    name.push_all(callee.name.text.bytes())?;
    touches.push(Touch::CallsVirtual { class, name })
}

/// Appends the subroutine that is called; of a virtual one, what overrides it too.
#[tactic(auto, using(crate::proofs::TouchedLaws::touched_both, crate::proofs::TouchedLaws::touched_first))]
fn add_callee(
    alloc: Global,
    callee: &Callee,
    object: &Option<Typed>,
    is_direct: bool,
    touches: &mut Seq<Touch>,
) -> Result<(), NoMemory>
    ensures { OnOk result (Touched touches.old touches.new (writers.callee_touches callee.now object.now is_direct)) }
{
    add_called(alloc, callee.path.as_slice(), touches)?;
    match object {
        None => Ok(()),
        Some(o) => match &o.ty {
            Ty::Class(class) => add_virtual(alloc, callee, class.as_slice(), is_direct, touches),
            _ => Ok(()),
        },
    }
}

// ---- which arguments are written

/// Whether an argument is written.
fn is_output(direction: Direction) -> bool
    ensures { result ≡ calls.is_output direction }
{
    match direction {
        Direction::Input => false,
        _ => true,
    }
}

/// Appends an argument, where it is a target.
#[tactic(auto, using(crate::proofs::TouchedLaws::touched_none))]
fn add_output(
    alloc: Global,
    formal: &Formal,
    e: &Expr,
    around: &Around,
    touches: &mut Seq<Touch>,
) -> Result<(), NoMemory>
    ensures { OnOk result (Touched touches.old touches.new (output_touch (around_in around.now) formal.now (view.expr e.now))) }
{
    if !is_output(formal.direction) {
        return Ok(());
    }
    add_target(alloc, How::Statement, e, around, touches)
}

/// Appends the targets among arguments.
fn add_outputs(
    alloc: Global,
    formals: &[Formal],
    actuals: &[Expr],
    around: &Around,
    touches: &mut Seq<Touch>,
) -> Result<(), NoMemory>
    ensures { OnOk result (Touched touches.old touches.new
        (writers.output_touches (around_in around.now) formals.now (view.expr_list actuals.now))) }
{
    let mut left = formals;
    for e in actuals {
        let [formal, rest @ ..] = left else {
            return Ok(());
        };
        add_output(alloc, formal, e, around, touches)?;
        left = rest;
    }
    Ok(())
}

/// Appends the first argument as a target.
#[tactic(auto, using(crate::proofs::TouchedLaws::touched_none))]
fn add_first_target(
    alloc: Global,
    actuals: &[Expr],
    around: &Around,
    touches: &mut Seq<Touch>,
) -> Result<(), NoMemory>
    ensures { OnOk result (Touched touches.old touches.new
        (writers.first_target (around_in around.now) (view.expr_list actuals.now))) }
{
    match actuals {
        [] => Ok(()),
        [e, ..] => add_target(alloc, How::Statement, e, around, touches),
    }
}

/// Appends a container that a method changes.
fn add_container(alloc: Global, object: &Typed, touches: &mut Seq<Touch>) -> Result<(), NoMemory>
    ensures { OnOk result (Touched touches.old touches.new (writers.container_touches object.now)) }
{
    add_written(alloc, object.at, &object.target, touches)
}

/// Appends what a method of the language writes.
#[tactic(auto, using(crate::proofs::TouchedLaws::touched_none))]
fn add_method(
    alloc: Global,
    method: &Method,
    object: &Typed,
    actuals: &[Expr],
    around: &Around,
    touches: &mut Seq<Touch>,
) -> Result<(), NoMemory>
    ensures { OnOk result (Touched touches.old touches.new
        (writers.action_touches (around_in around.now) method.now.action object.now (view.expr_list actuals.now))) }
{
    match method.action {
        Action::Push(_) => add_container(alloc, object, touches),
        Action::Pop(_) => add_container(alloc, object, touches),
        Action::Insert => add_container(alloc, object, touches),
        Action::Delete => add_container(alloc, object, touches),
        Action::Walk(_) => add_first_target(alloc, actuals, around, touches),
        Action::Get { .. } => add_first_target(alloc, actuals, around, touches),
        _ => Ok(()),
    }
}

// ---- calls

/// Appends what a call of a thing writes and calls.
#[tactic(auto, using(crate::proofs::TouchedLaws::touched_none, crate::proofs::TouchedLaws::touched_both))]
fn add_thing_call(
    alloc: Global,
    thing: &Thing,
    actuals: &[Expr],
    around: &Around,
    touches: &mut Seq<Touch>,
) -> Result<(), NoMemory>
    ensures { OnOk result (Touched touches.old touches.new
        (writers.call_touches (around_in around.now) (Good (thing_in thing.now)) (view.expr_list actuals.now))) }
{
    match thing {
        Thing::Subroutine {
            callee,
            object,
            is_direct,
            ..
        } => {
            add_callee(alloc, callee, object, *is_direct, touches)?;
            add_outputs(alloc, callee.formals.as_slice(), actuals, around, touches)
        }
        Thing::ItsResult { callee, object, .. } => {
            add_callee(alloc, callee, object, false, touches)?;
            add_outputs(alloc, callee.formals.as_slice(), actuals, around, touches)
        }
        Thing::Method { method, object, .. } => {
            add_method(alloc, method, object, actuals, around, touches)
        }
        Thing::Value(_) => Ok(()),
        Thing::Block { .. } => Ok(()),
        Thing::Signal { .. } => Ok(()),
        Thing::TypeName { .. } => Ok(()),
    }
}

/// Appends what a call writes and calls.
#[tactic(auto, using(crate::proofs::TouchedLaws::touched_none))]
pub(crate) fn add_call(
    alloc: Global,
    thing: &Checked<Thing>,
    actuals: &[Expr],
    around: &Around,
    touches: &mut Seq<Touch>,
) -> Result<(), NoMemory>
    ensures { OnOk result (Touched touches.old touches.new
        (writers.call_touches (around_in around.now) (given thing_in thing.now) (view.expr_list actuals.now))) }
{
    match thing {
        Checked::Good(thing) => add_thing_call(alloc, thing, actuals, around, touches),
        Checked::Broken(_) => Ok(()),
    }
}

/// Whether a thing is a function inside itself, which a name alone does not call.
fn is_result(thing: &Checked<Thing>) -> bool
    ensures { result ≡ is_result (given thing_in thing.now) }
{
    match thing {
        Checked::Good(Thing::ItsResult { .. }) => true,
        _ => false,
    }
}

/// Appends what a name without brackets writes and calls.
#[tactic(auto, using(crate::proofs::StepLaws::bare_none, crate::proofs::StepLaws::bare_some))]
pub(crate) fn add_bare(
    alloc: Global,
    thing: &Checked<Thing>,
    around: &Around,
    touches: &mut Seq<Touch>,
) -> Result<(), NoMemory>
    ensures { OnOk result (Touched touches.old touches.new
        (writers.bare_touches (around_in around.now) (given thing_in thing.now))) }
{
    if is_result(thing) {
        return Ok(());
    }
    add_call(alloc, thing, &[], around, touches)
}

/// Appends the first argument of `$cast`.
#[tactic(auto, using(crate::proofs::TouchedLaws::touched_none))]
pub(crate) fn add_cast(
    alloc: Global,
    system: System,
    actuals: &Actuals,
    around: &Around,
    touches: &mut Seq<Touch>,
) -> Result<(), NoMemory>
    ensures { OnOk result (Touched touches.old touches.new
        (writers.cast_touches (around_in around.now) system (view.actuals actuals.now))) }
{
    match system {
        System::Cast => match actuals {
            Actuals::Written(items) => add_first_target(alloc, items, around, touches),
            Actuals::Unwritten => Ok(()),
        },
        _ => Ok(()),
    }
}
