// Calls of tasks and functions: an activation, the inputs, and the body (IEEE 1800-2017, 13.3 to 13.5).
ghost use Rattle.std.specs.Prelude.{◌≡◌, ◌∷◌, ◌++◌, [], None, Some, drop, OnOk};
ghost use Rattle.sv_value.specs.declared.number.ProcessId.{ProcessId};
ghost use Rattle.sv_flat.specs.declared.call.CallForm.TheVariants as form;
ghost use Rattle.sv_flat.specs.Process.{Leave, body_in, routine_of};
ghost use Rattle.sv_flat.specs.Statements.Calls.{called};
ghost use Rattle.sv_flat.specs.Statements.Jumps.{open_calls};
ghost use Rattle.sv_flat.specs.Statements.Routines.{activation_entered, argument_write, argument_writes, callee_name, of_subroutine, subroutine_called, variable_spot};
ghost use Rattle.sv_flat.specs.Statements.Routines as routines;
ghost use Rattle.sv_assign.specs.Places.{spot_in};
ghost use Rattle.sv_built.specs.Positions.{stmt_at};
ghost use Rattle.sv_stack.specs.Calls.{call_in, left_after, return_of, site_of};
ghost use Rattle.sv_stack.specs.Frames.{todos_of};
ghost use Rattle.sv_stack.specs.Effects.{Does, IsKept, Puts, effects_in};

use std::alloc::Global;
use sv_arena::Name;
use sv_assign::{Scoped, Spot, as_type};
use sv_built::{Design, Entered, Position};
use sv_eval::{Stopped, Values, value};
use sv_flat::{Argument, Call, CallForm, Formal, Stmt, Subroutine, Variable};
use sv_stack::{Effect, Frame, Frames, go_on, put, subroutine_of};
use sv_value::{FaultKind, NoMemory, ObjectTarget, RoutineId};

/// Where a call runs.
#[derive(Clone, Copy)]
pub struct Site {
    /// Where its statement stands.
    pub at: Position,
    /// Its number among the calls before the statement, or none where it is the statement itself.
    pub number: Option<usize>,
    /// What the branches and bodies of the statement see.
    pub outer: Option<Name>,
    /// What its arguments see.
    pub caller: Option<Name>,
    /// The name that the next activation gets.
    pub next: Name,
}

// ---- the variables of the subroutine

/// Whether a call makes an activation: that of an automatic subroutine, or of one with automatic variables.
fn needs_activation(subroutine: &Subroutine) -> bool
    ensures { result ≡ routines.needs_activation subroutine.now }
{
    subroutine.is_automatic || 0 < subroutine.locals.as_slice().len()
}

/// The activation of a call, if it has one.
fn callee_of(subroutine: &Subroutine, next: Name) -> Option<Name>
    ensures { result ≡ callee_name subroutine.now next }
{
    if needs_activation(subroutine) {
        Some(next)
    } else {
        None
    }
}

/// Where a variable of a subroutine is written.
fn spot_of(variable: Variable, callee: Option<Name>) -> Spot
    ensures { spot_in result ≡ variable_spot variable callee }
{
    match variable {
        Variable::Object(object) => Spot::Cell(ObjectTarget {
            object,
            element: 0,
            part: None,
        }),
        Variable::Local(variable) => match callee {
            Some(name) => Spot::Variable {
                name,
                variable,
                part: None,
            },
            None => Spot::Nowhere,
        },
    }
}

// ---- the effects before the body

/// The activation of a call comes behind the other effects, if it has one.
#[tactic(auto, using(crate::proofs::CallLemmas::with_activation, crate::proofs::CallLemmas::without_activation))]
fn put_activation(
    out: &mut Vec<Effect>,
    design: &Design,
    routine: RoutineId,
    subroutine: &Subroutine,
) -> Result<(), NoMemory>
    requires { (routine_of design.now routine).subroutine ≡ Some subroutine.now }
    ensures { OnOk result (effects_in design.now out.new.items ≡ effects_in design.now out.old.items ++ activation_entered subroutine.now) }
{
    let _ = design;
    if needs_activation(subroutine) {
        let effect = Effect::Enter {
            entered: Entered::Call(routine),
            around: None,
        };
        return put(out, effect);
    }
    Ok(())
}

/// The copy of an input comes behind the other effects.
#[tactic(auto, using(crate::proofs::CallLemmas::no_input, crate::proofs::CallLemmas::an_input, crate::proofs::CallLemmas::input_fault))]
fn put_argument<V: Values>(
    alloc: Global,
    design: &Design,
    values: &V,
    out: &mut Vec<Effect>,
    formal: &Formal,
    argument: &Argument,
    callee: Option<Name>,
) -> Result<(), Stopped>
    ensures { Puts design.now result out.old.items out.new.items (argument_write formal.now argument.now.value (V.view values.now) callee) }
{
    let _ = design;
    match &argument.value {
        Some(input) => {
            let x = value(alloc, values, input)?;
            let x = as_type(formal.ty, x)?;
            let spot = spot_of(formal.variable, callee);
            put(out, Effect::Write { spot, value: x })?;
            Ok(())
        }
        None => Ok(()),
    }
}

/// The copies of the inputs come behind the other effects, from the left.
#[tactic(auto, using(crate::proofs::CallLemmas::nothing_put, crate::proofs::CallLemmas::inputs_more, crate::proofs::CallLemmas::inputs_fault, crate::proofs::CallLemmas::inputs_later_fault))]
fn put_arguments<V: Values>(
    alloc: Global,
    design: &Design,
    values: &V,
    out: &mut Vec<Effect>,
    formals: &[Formal],
    arguments: &[Argument],
    callee: Option<Name>,
) -> Result<(), Stopped>
    ensures { Puts design.now result out.old.items out.new.items (argument_writes formals.now arguments.now (V.view values.now) callee) }
{
    match formals {
        [] => Ok(()),
        [formal, formals @ ..] => match arguments {
            [] => Ok(()),
            [argument, arguments @ ..] => {
                let of_rest = callee;
                put_argument(alloc, design, values, out, formal, argument, callee)?;
                put_arguments(alloc, design, values, out, formals, arguments, of_rest)
            }
        },
    }
}

// ---- what is left to run

/// What is left of the statement of a call comes before the others. Memory is wanting where no number is left for its next call.
fn push_rest(frames: &mut Frames, design: &Design, site: &Site) -> Result<(), NoMemory>
    ensures { OnOk result (todos_of design.now frames.new
        ≡ left_after (stmt_at design.now site.now.at) site.now.number site.now.outer site.now.caller ++ todos_of design.now frames.old) }
{
    let _ = design;
    match site.number {
        Some(number) => {
            let Some(made) = number.checked_add(1) else {
                return Err(NoMemory::Memory);
            };
            frames.push(Frame::Called {
                at: site.at,
                made,
                outer: site.outer,
                hidden: site.caller,
            })
        }
        None => Ok(()),
    }
}

/// The body of a subroutine, the end of the call, and what is left of its statement come before the others.
fn enter_call(
    frames: &mut Frames,
    design: &Design,
    site: &Site,
    stmt: &Stmt,
    call: &Call,
    routine: RoutineId,
    arguments: &[Argument],
    subroutine: &Subroutine,
    callee: Option<Name>,
) -> Result<(), NoMemory>
    requires at { stmt_at design.now site.now.at ≡ Some stmt.now }
    requires number { call_in stmt.now site.now.number ≡ Some call.now }
    requires is { call.now.form ≡ form.Routine routine None arguments.now }
    requires subroutine { (routine_of design.now routine).subroutine ≡ Some subroutine.now }
    ensures { OnOk result (todos_of design.now frames.new ≡ body_in design.now routine callee
        ++ Leave stmt.now.at (return_of subroutine.now arguments.now call.now.result callee site.now.caller)
        ∷ (left_after (stmt_at design.now site.now.at) site.now.number site.now.outer site.now.caller ++ todos_of design.now frames.old)) }
{
    let _ = stmt;
    let _ = call;
    let _ = arguments;
    let _ = subroutine;
    let scope = callee;
    push_rest(frames, design, site)?;
    frames.push(Frame::Leave {
        at: site.at,
        number: site.number,
        callee,
        caller: site.caller,
    })?;
    frames.enter(routine, scope)
}

// ---- the call

/// A call of a subroutine: the fault `Depth` where too many calls are open.
fn call_subroutine<V: Scoped>(
    frames: &mut Frames,
    alloc: Global,
    design: &Design,
    values: &V,
    out: &mut Vec<Effect>,
    site: &Site,
    stmt: &Stmt,
    call: &Call,
    routine: RoutineId,
    arguments: &[Argument],
    subroutine: &Subroutine,
) -> Result<(), Stopped>
    requires first { out.old.items ≡ [] }
    requires at { stmt_at design.now site.now.at ≡ Some stmt.now }
    requires number { call_in stmt.now site.now.number ≡ Some call.now }
    requires is { call.now.form ≡ form.Routine routine None arguments.now }
    requires subroutine { (routine_of design.now routine).subroutine ≡ Some subroutine.now }
    requires no_end { open_calls (drop 1 (todos_of design.now frames.old)) ≡ open_calls (todos_of design.now frames.old) }
    ensures does { Does design.now result frames.new out.new.items (subroutine_called design.now
        (site_of stmt.now call.now (V.view values.now) site.now.caller site.now.next
        (left_after (stmt_at design.now site.now.at) site.now.number site.now.outer site.now.caller ++ drop 1 (todos_of design.now frames.old)))
        routine arguments.now None [] subroutine.now) }
    ensures kept { IsKept result frames.old frames.new }
{
    if frames.is_deep(design) {
        return Err(Stopped::Fault(FaultKind::Depth));
    }
    let callee = callee_of(subroutine, site.next);
    let of_body = callee;
    let formals = subroutine.formals.as_slice();
    put_activation(out, design, routine, subroutine)?;
    put_arguments(alloc, design, values, out, formals, arguments, callee)?;
    frames.leave_first(design)?;
    enter_call(
        frames, design, site, stmt, call, routine, arguments, subroutine, of_body,
    )?;
    go_on(frames, design, out)?;
    Ok(())
}

/// A call of a routine; one that is no subroutine does nothing.
fn call_routine<V: Scoped>(
    frames: &mut Frames,
    alloc: Global,
    design: &Design,
    values: &V,
    out: &mut Vec<Effect>,
    site: &Site,
    stmt: &Stmt,
    call: &Call,
    routine: RoutineId,
    arguments: &[Argument],
) -> Result<(), Stopped>
    requires first { out.old.items ≡ [] }
    requires at { stmt_at design.now site.now.at ≡ Some stmt.now }
    requires number { call_in stmt.now site.now.number ≡ Some call.now }
    requires is { call.now.form ≡ form.Routine routine None arguments.now }
    requires no_end { open_calls (drop 1 (todos_of design.now frames.old)) ≡ open_calls (todos_of design.now frames.old) }
    ensures does { Does design.now result frames.new out.new.items (of_subroutine design.now
        (site_of stmt.now call.now (V.view values.now) site.now.caller site.now.next
        (left_after (stmt_at design.now site.now.at) site.now.number site.now.outer site.now.caller ++ drop 1 (todos_of design.now frames.old)))
        routine arguments.now None [] (routine_of design.now routine).subroutine) }
    ensures kept { IsKept result frames.old frames.new }
{
    match subroutine_of(design, routine) {
        Some(subroutine) => call_subroutine(
            frames, alloc, design, values, out, site, stmt, call, routine, arguments, subroutine,
        ),
        None => {
            frames.leave_first(design)?;
            push_rest(frames, design, site)?;
            go_on(frames, design, out)?;
            Ok(())
        }
    }
}

/// A call. Memory is wanting for calls of another form, and for methods that are named through a reference.
pub fn run_call<V: Scoped>(
    frames: &mut Frames,
    alloc: Global,
    design: &Design,
    values: &V,
    out: &mut Vec<Effect>,
    site: &Site,
    stmt: &Stmt,
    call: &Call,
) -> Result<(), Stopped>
    requires first { out.old.items ≡ [] }
    requires at { stmt_at design.now site.now.at ≡ Some stmt.now }
    requires number { call_in stmt.now site.now.number ≡ Some call.now }
    requires no_end { open_calls (drop 1 (todos_of design.now frames.old)) ≡ open_calls (todos_of design.now frames.old) }
    ensures does { (p : ProcessId) → Does design.now result frames.new out.new.items (called design.now p
        (site_of stmt.now call.now (V.view values.now) site.now.caller site.now.next
        (left_after (stmt_at design.now site.now.at) site.now.number site.now.outer site.now.caller ++ drop 1 (todos_of design.now frames.old)))
        call.now.form) }
    ensures kept { IsKept result frames.old frames.new }
{
    match &call.form {
        CallForm::Routine {
            routine,
            through,
            arguments,
        } => match through {
            None => call_routine(
                frames,
                alloc,
                design,
                values,
                out,
                site,
                stmt,
                call,
                *routine,
                arguments.as_slice(),
            ),
            Some(_) => Err(Stopped::Memory),
        },
        _ => Err(Stopped::Memory),
    }
}
