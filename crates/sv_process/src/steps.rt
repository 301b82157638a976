// The step of a process by each kind of entry that may come first (IEEE 1800-2017, 4.4.2 and 9.2).
ghost use Rattle.std.specs.Prelude.{◌≡◌, [], Option, None, Some, true, unwrap_or, IfOk, IfSome, IfNone, OnOk};
ghost use Rattle.sv_flat.specs.declared.call.CallForm.TheVariants as form;
ghost use Rattle.sv_stack.specs.declared.went.Went.TheVariants.{On};
ghost use Rattle.sv_value.specs.declared.number.ProcessId.{ProcessId};
ghost use Rattle.sv_value.specs.declared.val.Message.{Message};
ghost use Rattle.sv_flat.specs.Micro.{Looks, run_first, place_of_step};
ghost use Rattle.sv_flat.specs.Process.{no_place};
ghost use Rattle.sv_assign.specs.Seen.{view_in};
ghost use Rattle.sv_built.specs.Built.{IsBuilt};
ghost use Rattle.sv_built.specs.Positions.{stmt_at};
ghost use Rattle.sv_stack.specs.declared.frames.Frame.TheVariants as frame;
ghost use Rattle.sv_stack.specs.Calls.{call_in};
ghost use Rattle.sv_stack.specs.Frames.{todos_of, IsFirst, SeesAll};
ghost use Rattle.sv_stack.specs.Effects.{effects_of, is_held};

use crate::assigns::run_put;
use crate::elements::run_elements;
use crate::leaves::run_leave;
use crate::loops::run_turns;
use crate::statement::run_stmt;
use std::alloc::Global;
use sv_arena::Name;
use sv_assign::{Scoped, Seen};
use sv_built::{Design, Position};
use sv_flat::{Argument, Call, CallForm, Form, Stmt};
use sv_stack::{Effect, Frames, Spare, Went, call_of, subroutine_of, went_of};
use sv_value::{NoMemory, Place, RoutineId, Val};

/// What a step tells beside its effects.
#[derive(Clone, Copy, Debug, PartialEq, Eq)]
pub struct Stepped {
    /// Whether it left something else to run.
    pub went: Went,
    /// Where the statement stands that was run.
    pub at: Place,
}

/// The statement at a position, if there is one.
pub fn stmt_of<'a>(design: &'a Design, at: Position) -> Option<&'a Stmt>
    ensures some { IfSome result (λ s. stmt_at design.now at ≡ Some s.now) }
    ensures none { IfNone result (stmt_at design.now at ≡ None) }
{
    design.body(at.routine).get(at.place)
}

// ---- what comes first

/// The step that runs the statement at a position, or the first of the calls before it.
pub fn step_stmt(
    frames: &mut Frames,
    alloc: Global,
    design: &Design,
    seen: &Seen,
    out: &mut Vec<Effect>,
    spare: &mut Spare,
    at: Position,
    scope: Option<Name>,
    next: Name,
    stepped: &mut Stepped,
) -> Result<(), NoMemory>
    requires empty { out.old.items ≡ [] }
    requires built { IsBuilt design.now }
    requires comes { IsFirst design.now (frame.Rest at scope) (todos_of design.now frames.old) }
    ensures does { OnOk result ((look : Looks) (p : ProcessId) (handed : Option Message)
        → SeesAll look (view_in seen.now.store.now seen.now.activations.now.activations seen.now.time seen.now.unit)
        → run_first design.now look p next handed (todos_of design.now frames.old) ≡ effects_of design.now stepped.new.went frames.new out.new.items) }
    ensures at { OnOk result (stepped.new.at ≡ unwrap_or (place_of_step (todos_of design.now frames.old)) no_place) }
    ensures held { OnOk result (is_held stepped.new.went ≡ true → frames.new ≡ frames.old) }
{
    match stmt_of(design, at) {
        Some(stmt) => {
            let went = run_stmt(
                frames, alloc, design, seen, out, spare, at, stmt, 0, scope, None, next,
            )?;
            *stepped = Stepped { went, at: stmt.at };
            Ok(())
        }
        None => Err(NoMemory::Memory),
    }
}

/// The step that makes the next test of the loop at a position, or the first of the calls before it.
pub fn step_loop(
    frames: &mut Frames,
    alloc: Global,
    design: &Design,
    seen: &Seen,
    out: &mut Vec<Effect>,
    spare: &mut Spare,
    at: Position,
    scope: Option<Name>,
    next: Name,
    stepped: &mut Stepped,
) -> Result<(), NoMemory>
    requires empty { out.old.items ≡ [] }
    requires built { IsBuilt design.now }
    requires comes { IsFirst design.now (frame.Loop at scope) (todos_of design.now frames.old) }
    ensures does { OnOk result ((look : Looks) (p : ProcessId) (handed : Option Message)
        → SeesAll look (view_in seen.now.store.now seen.now.activations.now.activations seen.now.time seen.now.unit)
        → run_first design.now look p next handed (todos_of design.now frames.old) ≡ effects_of design.now stepped.new.went frames.new out.new.items) }
    ensures at { OnOk result (stepped.new.at ≡ unwrap_or (place_of_step (todos_of design.now frames.old)) no_place) }
    ensures held { OnOk result (is_held stepped.new.went ≡ true → frames.new ≡ frames.old) }
{
    match stmt_of(design, at) {
        Some(stmt) => {
            let went = run_stmt(
                frames, alloc, design, seen, out, spare, at, stmt, 0, scope, None, next,
            )?;
            *stepped = Stepped { went, at: stmt.at };
            Ok(())
        }
        None => Err(NoMemory::Memory),
    }
}

/// The step that runs the statement at a position of whose calls so many were made, or the next of them.
pub fn step_called(
    frames: &mut Frames,
    alloc: Global,
    design: &Design,
    seen: &Seen,
    out: &mut Vec<Effect>,
    spare: &mut Spare,
    at: Position,
    made: usize,
    outer: Option<Name>,
    hidden: Option<Name>,
    next: Name,
    stepped: &mut Stepped,
) -> Result<(), NoMemory>
    requires empty { out.old.items ≡ [] }
    requires built { IsBuilt design.now }
    requires comes { IsFirst design.now (frame.Called at made outer hidden) (todos_of design.now frames.old) }
    ensures does { OnOk result ((look : Looks) (p : ProcessId) (handed : Option Message)
        → SeesAll look (view_in seen.now.store.now seen.now.activations.now.activations seen.now.time seen.now.unit)
        → run_first design.now look p next handed (todos_of design.now frames.old) ≡ effects_of design.now stepped.new.went frames.new out.new.items) }
    ensures at { OnOk result (stepped.new.at ≡ unwrap_or (place_of_step (todos_of design.now frames.old)) no_place) }
    ensures held { OnOk result (is_held stepped.new.went ≡ true → frames.new ≡ frames.old) }
{
    match stmt_of(design, at) {
        Some(stmt) => {
            let went = run_stmt(
                frames, alloc, design, seen, out, spare, at, stmt, made, outer, hidden, next,
            )?;
            *stepped = Stepped { went, at: stmt.at };
            Ok(())
        }
        None => Err(NoMemory::Memory),
    }
}

/// The step that takes the next of the turns that are left of the `repeat` at a position.
pub fn step_turns(
    frames: &mut Frames,
    design: &Design,
    out: &mut Vec<Effect>,
    at: Position,
    left: u64,
    scope: Option<Name>,
    stepped: &mut Stepped,
) -> Result<(), NoMemory>
    requires empty { out.old.items ≡ [] }
    requires comes { IsFirst design.now (frame.Turns at left scope) (todos_of design.now frames.old) }
    ensures does { OnOk result ((look : Looks) (p : ProcessId) (next : Name) (handed : Option Message)
        → run_first design.now look p next handed (todos_of design.now frames.old) ≡ effects_of design.now stepped.new.went frames.new out.new.items) }
    ensures at { OnOk result (stepped.new.at ≡ unwrap_or (place_of_step (todos_of design.now frames.old)) no_place) }
    ensures on { OnOk result (stepped.new.went ≡ On) }
{
    match stmt_of(design, at) {
        Some(stmt) => match &stmt.form {
            Form::Repeat { count, body } => {
                run_turns(frames, design, out, at, stmt, count, *body, left, scope)?;
                *stepped = Stepped {
                    went: Went::On,
                    at: stmt.at,
                };
                Ok(())
            }
            _ => Err(NoMemory::Memory),
        },
        None => Err(NoMemory::Memory),
    }
}

/// The step that takes the next element in the walk of the `foreach` at a position. Memory is wanting where no such `foreach` stands there.
pub fn step_elements(
    frames: &mut Frames,
    design: &Design,
    out: &mut Vec<Effect>,
    at: Position,
    walked: u64,
    scope: Option<Name>,
    next: Name,
    stepped: &mut Stepped,
) -> Result<(), NoMemory>
    requires empty { out.old.items ≡ [] }
    requires comes { IsFirst design.now (frame.Elements at walked scope) (todos_of design.now frames.old) }
    ensures does { OnOk result ((look : Looks) (p : ProcessId) (handed : Option Message)
        → run_first design.now look p next handed (todos_of design.now frames.old) ≡ effects_of design.now stepped.new.went frames.new out.new.items) }
    ensures at { OnOk result (stepped.new.at ≡ unwrap_or (place_of_step (todos_of design.now frames.old)) no_place) }
    ensures on { OnOk result (stepped.new.went ≡ On) }
{
    match stmt_of(design, at) {
        Some(stmt) => match &stmt.form {
            Form::ForeachElement { bounds, body } => {
                let name = scope.unwrap_or(next);
                run_elements(frames, design, out, at, stmt, *bounds, *body, walked, name)?;
                *stepped = Stepped {
                    went: Went::On,
                    at: stmt.at,
                };
                Ok(())
            }
            _ => Err(NoMemory::Memory),
        },
        None => Err(NoMemory::Memory),
    }
}

/// The step that does what is left of the `a = #d e` at a position, as its scope sees it.
pub fn step_put<V: Scoped>(
    frames: &mut Frames,
    alloc: Global,
    design: &Design,
    values: &V,
    out: &mut Vec<Effect>,
    at: Position,
    value: Val,
    scope: Option<Name>,
    stepped: &mut Stepped,
) -> Result<(), NoMemory>
    requires empty { out.old.items ≡ [] }
    requires comes { IsFirst design.now (frame.Put at value scope) (todos_of design.now frames.old) }
    ensures does { OnOk result ((look : Looks) (p : ProcessId) (next : Name) (handed : Option Message) → look scope ≡ V.view values.now
        → run_first design.now look p next handed (todos_of design.now frames.old) ≡ effects_of design.now stepped.new.went frames.new out.new.items) }
    ensures at { OnOk result (stepped.new.at ≡ unwrap_or (place_of_step (todos_of design.now frames.old)) no_place) }
    ensures held { OnOk result (is_held stepped.new.went ≡ true → frames.new ≡ frames.old) }
{
    match stmt_of(design, at) {
        Some(stmt) => match &stmt.form {
            Form::AssignAfter { targets, .. } => {
                let targets = targets.as_slice();
                let ran = run_put(frames, alloc, design, values, out, targets, value);
                let went = went_of(out, ran)?;
                *stepped = Stepped { went, at: stmt.at };
                Ok(())
            }
            _ => Err(NoMemory::Memory),
        },
        None => Err(NoMemory::Memory),
    }
}

/// The end of a call, as its activation and as its caller see it.
fn end_call<V: Scoped, W: Scoped>(
    frames: &mut Frames,
    alloc: Global,
    design: &Design,
    inner: &V,
    outer: &W,
    out: &mut Vec<Effect>,
    at: Position,
    number: Option<usize>,
    stmt: &Stmt,
    call: &Call,
    routine: RoutineId,
    arguments: &[Argument],
    callee: Option<Name>,
    caller: Option<Name>,
) -> Result<Went, NoMemory>
    requires empty { out.old.items ≡ [] }
    requires at { stmt_at design.now at ≡ Some stmt.now }
    requires number { call_in stmt.now number ≡ Some call.now }
    requires is { call.now.form ≡ form.Routine routine None arguments.now }
    requires comes { IsFirst design.now (frame.Leave at number callee caller) (todos_of design.now frames.old) }
    ensures does { IfOk result (λ w. (look : Looks) (p : ProcessId) (next : Name) (handed : Option Message)
        → look callee ≡ V.view inner.now → look caller ≡ W.view outer.now
        → run_first design.now look p next handed (todos_of design.now frames.old) ≡ effects_of design.now w frames.new out.new.items) }
    ensures at { IfOk result (λ _. stmt.now.at ≡ unwrap_or (place_of_step (todos_of design.now frames.old)) no_place) }
    ensures held { IfOk result (λ w. is_held w ≡ true → frames.new ≡ frames.old) }
{
    let _ = stmt;
    let Some(subroutine) = subroutine_of(design, routine) else {
        return Err(NoMemory::Memory);
    };
    let ran = run_leave(
        frames,
        alloc,
        design,
        inner,
        outer,
        out,
        subroutine,
        arguments,
        call.result,
        callee,
        caller,
    );
    let went = went_of(out, ran)?;
    Ok(went)
}

/// The step that ends a call of the statement at a position.
pub fn step_leave(
    frames: &mut Frames,
    alloc: Global,
    design: &Design,
    seen: &Seen,
    out: &mut Vec<Effect>,
    at: Position,
    number: Option<usize>,
    callee: Option<Name>,
    caller: Option<Name>,
    stepped: &mut Stepped,
) -> Result<(), NoMemory>
    requires empty { out.old.items ≡ [] }
    requires comes { IsFirst design.now (frame.Leave at number callee caller) (todos_of design.now frames.old) }
    ensures does { OnOk result ((look : Looks) (p : ProcessId) (next : Name) (handed : Option Message)
        → SeesAll look (view_in seen.now.store.now seen.now.activations.now.activations seen.now.time seen.now.unit)
        → run_first design.now look p next handed (todos_of design.now frames.old) ≡ effects_of design.now stepped.new.went frames.new out.new.items) }
    ensures at { OnOk result (stepped.new.at ≡ unwrap_or (place_of_step (todos_of design.now frames.old)) no_place) }
    ensures held { OnOk result (is_held stepped.new.went ≡ true → frames.new ≡ frames.old) }
{
    let Some(stmt) = stmt_of(design, at) else {
        return Err(NoMemory::Memory);
    };
    let Some(call) = call_of(stmt, number) else {
        return Err(NoMemory::Memory);
    };
    let CallForm::Routine {
        routine,
        through,
        arguments,
    } = &call.form
    else {
        return Err(NoMemory::Memory);
    };
    let None = through else {
        return Err(NoMemory::Memory);
    };
    let (of_callee, of_caller) = (callee, caller);
    let inner = Seen {
        scope: of_callee,
        ..*seen
    };
    let outer = Seen {
        scope: of_caller,
        ..*seen
    };
    let went = end_call(
        frames,
        alloc,
        design,
        &inner,
        &outer,
        out,
        at,
        number,
        stmt,
        call,
        *routine,
        arguments.as_slice(),
        callee,
        caller,
    )?;
    *stepped = Stepped { went, at: stmt.at };
    Ok(())
}
