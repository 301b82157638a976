// The end of a call: the outputs are copied back, and the result is given (IEEE 1800-2017, 13.4.1 and 13.5).
ghost use Rattle.std.specs.Prelude.{◌≡◌, ◌++◌, [], drop, IfOk, OnOk};
ghost use Rattle.sv_flat.specs.Statements.Routines.{copied_out, left, output, outputs_of, result_given};
ghost use Rattle.sv_flat.specs.Statements.Routines as routines;
ghost use Rattle.sv_flat.specs.Statements.Shared.{result_write};
ghost use Rattle.sv_stack.specs.Calls.{output_writes, return_of};
ghost use Rattle.sv_stack.specs.Frames.{todos_of};
ghost use Rattle.sv_stack.specs.Effects.{Does, IsKept, Puts, effects_in};

use crate::assigns::write_all;
use std::alloc::Global;
use sv_arena::Name;
use sv_assign::{Scoped, Spot, spots_of, target_values};
use sv_built::Design;
use sv_eval::{Stopped, Values};
use sv_flat::{Argument, Formal, Lvalue, Subroutine, Variable};
use sv_stack::{Effect, Frames, go_on, put};
use sv_value::{NoMemory, Val};

/// The value of a variable of the subroutine.
fn variable_value<V: Values>(alloc: Global, callee: &V, variable: Variable) -> Result<Val, NoMemory>
    ensures { IfOk result (λ x. x ≡ routines.variable_value variable (V.view callee.now)) }
{
    match variable {
        Variable::Object(object) => callee.object(alloc, object, 0),
        Variable::Local(place) => callee.variable(alloc, 0, u64::from(place)),
    }
}

/// The value that a call gives: that of its result variable.
fn given_value<V: Values>(
    alloc: Global,
    callee: &V,
    formal: &Option<Formal>,
) -> Result<Val, NoMemory>
    ensures { IfOk result (λ x. x ≡ routines.given_value (result_given formal.now) (V.view callee.now)) }
{
    match formal {
        Some(formal) => variable_value(alloc, callee, formal.variable),
        None => Ok(Val::Object(None)),
    }
}

/// The copies of an output come behind the other effects.
#[tactic(auto, using(crate::proofs::LeaveLemmas::output_put, crate::proofs::LeaveLemmas::output_fault))]
fn put_output<V: Values, W: Scoped>(
    alloc: Global,
    design: &Design,
    callee: &V,
    caller: &W,
    out: &mut Vec<Effect>,
    formal: &Formal,
    targets: &[Lvalue],
) -> Result<(), Stopped>
    ensures { Puts design.now result out.old.items out.new.items
        (output_writes formal.now.variable targets.now (V.view callee.now) (W.view caller.now)) }
{
    let _ = design;
    let places = spots_of(alloc, targets, caller)?;
    let x = variable_value(alloc, callee, formal.variable)?;
    let values = target_values(alloc, targets, x)?;
    write_all(out, places, values)?;
    Ok(())
}

/// The same, where the argument is an output.
#[tactic(auto, using(crate::proofs::LeaveLemmas::no_output, crate::proofs::LeaveLemmas::is_output))]
fn put_argument<V: Values, W: Scoped>(
    alloc: Global,
    design: &Design,
    callee: &V,
    caller: &W,
    out: &mut Vec<Effect>,
    formal: &Formal,
    argument: &Argument,
) -> Result<(), Stopped>
    ensures { Puts design.now result out.old.items out.new.items
        (copied_out (output formal.now.variable argument.now.targets) (V.view callee.now) (W.view caller.now)) }
{
    match &argument.targets {
        Some(targets) => put_output(
            alloc,
            design,
            callee,
            caller,
            out,
            formal,
            targets.as_slice(),
        ),
        None => Ok(()),
    }
}

/// The copies of the outputs come behind the other effects, from the left.
#[tactic(auto, using(crate::proofs::CallLemmas::nothing_put, crate::proofs::LeaveLemmas::outputs_more, crate::proofs::LeaveLemmas::outputs_fault, crate::proofs::LeaveLemmas::outputs_later_fault))]
fn put_outputs<V: Values, W: Scoped>(
    alloc: Global,
    design: &Design,
    callee: &V,
    caller: &W,
    out: &mut Vec<Effect>,
    formals: &[Formal],
    arguments: &[Argument],
) -> Result<(), Stopped>
    ensures { Puts design.now result out.old.items out.new.items
        (copied_out (outputs_of formals.now arguments.now) (V.view callee.now) (W.view caller.now)) }
{
    match formals {
        [] => Ok(()),
        [formal, formals @ ..] => match arguments {
            [] => Ok(()),
            [argument, arguments @ ..] => {
                put_argument(alloc, design, callee, caller, out, formal, argument)?;
                put_outputs(alloc, design, callee, caller, out, formals, arguments)
            }
        },
    }
}

/// The write of the result comes behind the other effects, where a hidden variable takes it.
#[tactic(auto, using(crate::proofs::LeaveLemmas::no_result, crate::proofs::LeaveLemmas::no_caller, crate::proofs::LeaveLemmas::a_result))]
fn put_result<V: Values>(
    alloc: Global,
    design: &Design,
    callee: &V,
    out: &mut Vec<Effect>,
    formal: &Option<Formal>,
    hidden: Option<u32>,
    caller: Option<Name>,
) -> Result<(), NoMemory>
    ensures { OnOk result (effects_in design.now out.new.items ≡ effects_in design.now out.old.items
        ++ result_write hidden caller (routines.given_value (result_given formal.now) (V.view callee.now))) }
{
    let _ = design;
    let Some(variable) = hidden else {
        return Ok(());
    };
    let Some(name) = caller else {
        return Ok(());
    };
    let value = given_value(alloc, callee, formal)?;
    let spot = Spot::Variable {
        name,
        variable,
        part: None,
    };
    put(out, Effect::Write { spot, value })
}

/// The end of a call of a subroutine, as its activation and as its caller see it.
#[tactic(auto, using(crate::proofs::LeaveLemmas::left_is, crate::proofs::LeaveLemmas::left_fault))]
pub fn run_leave<V: Values, W: Scoped>(
    frames: &mut Frames,
    alloc: Global,
    design: &Design,
    callee: &V,
    caller: &W,
    out: &mut Vec<Effect>,
    subroutine: &Subroutine,
    arguments: &[Argument],
    hidden: Option<u32>,
    callee_name: Option<Name>,
    caller_name: Option<Name>,
) -> Result<(), Stopped>
    requires { out.old.items ≡ [] }
    ensures does { Does design.now result frames.new out.new.items
        (left (return_of subroutine.now arguments.now hidden callee_name caller_name) (V.view callee.now) (W.view caller.now)
        (drop 1 (todos_of design.now frames.old))) }
    ensures kept { IsKept result frames.old frames.new }
{
    let _ = callee_name;
    let formals = subroutine.formals.as_slice();
    put_outputs(alloc, design, callee, caller, out, formals, arguments)?;
    put_result(
        alloc,
        design,
        callee,
        out,
        &subroutine.result,
        hidden,
        caller_name,
    )?;
    frames.leave_first(design)?;
    go_on(frames, design, out)?;
    Ok(())
}
