// A statement: the calls before it, one after another, and then what it does by its form (IEEE 1800-2017, 9.3.1 and 13.4).
ghost use Rattle.std.specs.Prelude.{◌≡◌, ◌+◌, [], None, Some, true, drop, slice_get, IfOk};
ghost use Rattle.sv_value.specs.declared.number.ProcessId.{ProcessId};
ghost use Rattle.sv_flat.specs.Micro.{Looks, statement_run};
ghost use Rattle.sv_flat.specs.Statements.Jumps.{open_calls};
ghost use Rattle.sv_assign.specs.Seen.{view_in};
ghost use Rattle.sv_built.specs.Built.{IsBuilt};
ghost use Rattle.sv_built.specs.Positions.{stmt_at};
ghost use Rattle.sv_stack.specs.Calls.{seen_from};
ghost use Rattle.sv_stack.specs.Frames.{todos_of, SeesAll};
ghost use Rattle.sv_stack.specs.Effects.{effects_of, is_held};

use crate::calls::{Site, run_call};
use crate::forms::run_form;
use std::alloc::Global;
use sv_arena::Name;
use sv_assign::Seen;
use sv_built::{Design, Entered, Position};
use sv_flat::{Call, Stmt};
use sv_stack::{Effect, Frames, Inside, Spare, Went, went_into, went_of};
use sv_value::NoMemory;

/// Where the first of the calls before a statement runs: inside the activation that is made for it. Memory is wanting where no name is left
/// for the next one.
fn first_site(at: Position, made: usize, outer: Option<Name>, next: Name) -> Result<Site, NoMemory>
    ensures { IfOk result (λ s. s
        ≡ record { at = at; number = Some made; outer = outer; caller = Some next; next = record next { place = next.place + 1 } }) }
{
    let hidden = next;
    match next.place.checked_add(1) {
        Some(place) => Ok(Site {
            at,
            number: Some(made),
            outer,
            caller: Some(hidden),
            next: Name {
                process: next.process,
                place,
            },
        }),
        None => Err(NoMemory::Memory),
    }
}

/// The first of the calls before a statement, for which the activation of its hidden variables is made.
fn run_first_call(
    frames: &mut Frames,
    alloc: Global,
    design: &Design,
    seen: &Seen,
    out: &mut Vec<Effect>,
    at: Position,
    stmt: &Stmt,
    call: &Call,
    made: usize,
    outer: Option<Name>,
    next: Name,
) -> Result<Went, NoMemory>
    requires empty { out.old.items ≡ [] }
    requires at { stmt_at design.now at ≡ Some stmt.now }
    requires number { slice_get stmt.now.calls made ≡ Some call.now }
    requires no_end { open_calls (drop 1 (todos_of design.now frames.old)) ≡ open_calls (todos_of design.now frames.old) }
    ensures does { IfOk result (λ w. (look : Looks) (p : ProcessId)
        → SeesAll look (view_in seen.now.store.now seen.now.activations.now.activations seen.now.time seen.now.unit)
        → statement_run design.now look p next stmt.now (drop made stmt.now.calls) outer None (drop 1 (todos_of design.now frames.old))
        ≡ effects_of design.now w frames.new out.new.items) }
    ensures held { IfOk result (λ w. is_held w ≡ true → frames.new ≡ frames.old) }
{
    let of_call = next;
    let of_around = outer;
    let site = first_site(at, made, outer, next)?;
    let around = Seen {
        scope: of_around,
        ..*seen
    };
    let values = Inside {
        around: &around,
        name: of_call,
    };
    let ran = run_call(frames, alloc, design, &values, out, &site, stmt, call);
    let went = went_into(out, ran, Entered::Hidden(at), site.outer)?;
    Ok(went)
}

/// Another one of the calls before a statement.
fn run_next_call(
    frames: &mut Frames,
    alloc: Global,
    design: &Design,
    seen: &Seen,
    out: &mut Vec<Effect>,
    at: Position,
    stmt: &Stmt,
    call: &Call,
    made: usize,
    outer: Option<Name>,
    hidden: Name,
    next: Name,
) -> Result<Went, NoMemory>
    requires empty { out.old.items ≡ [] }
    requires at { stmt_at design.now at ≡ Some stmt.now }
    requires number { slice_get stmt.now.calls made ≡ Some call.now }
    requires no_end { open_calls (drop 1 (todos_of design.now frames.old)) ≡ open_calls (todos_of design.now frames.old) }
    ensures does { IfOk result (λ w. (look : Looks) (p : ProcessId)
        → SeesAll look (view_in seen.now.store.now seen.now.activations.now.activations seen.now.time seen.now.unit)
        → statement_run design.now look p next stmt.now (drop made stmt.now.calls) outer (Some hidden) (drop 1 (todos_of design.now frames.old))
        ≡ effects_of design.now w frames.new out.new.items) }
    ensures held { IfOk result (λ w. is_held w ≡ true → frames.new ≡ frames.old) }
{
    let caller = Some(hidden);
    let scope = caller;
    let values = Seen { scope, ..*seen };
    let site = Site {
        at,
        number: Some(made),
        outer,
        caller,
        next,
    };
    let ran = run_call(frames, alloc, design, &values, out, &site, stmt, call);
    let went = went_of(out, ran)?;
    Ok(went)
}

/// One of the calls before a statement, of which so many were made: the first of them where the activation of its hidden variables is not
/// made yet.
#[inline(never)]
fn run_one_call(
    frames: &mut Frames,
    alloc: Global,
    design: &Design,
    seen: &Seen,
    out: &mut Vec<Effect>,
    at: Position,
    stmt: &Stmt,
    call: &Call,
    made: usize,
    outer: Option<Name>,
    hidden: Option<Name>,
    next: Name,
) -> Result<Went, NoMemory>
    requires empty { out.old.items ≡ [] }
    requires at { stmt_at design.now at ≡ Some stmt.now }
    requires number { slice_get stmt.now.calls made ≡ Some call.now }
    requires no_end { open_calls (drop 1 (todos_of design.now frames.old)) ≡ open_calls (todos_of design.now frames.old) }
    ensures does { IfOk result (λ w. (look : Looks) (p : ProcessId)
        → SeesAll look (view_in seen.now.store.now seen.now.activations.now.activations seen.now.time seen.now.unit)
        → statement_run design.now look p next stmt.now (drop made stmt.now.calls) outer hidden (drop 1 (todos_of design.now frames.old))
        ≡ effects_of design.now w frames.new out.new.items) }
    ensures held { IfOk result (λ w. is_held w ≡ true → frames.new ≡ frames.old) }
{
    match hidden {
        Some(hidden) => run_next_call(
            frames, alloc, design, seen, out, at, stmt, call, made, outer, hidden, next,
        ),
        None => run_first_call(
            frames, alloc, design, seen, out, at, stmt, call, made, outer, next,
        ),
    }
}

/// A statement, of whose calls so many were made: the next of them, or what it does by its form.
pub fn run_stmt(
    frames: &mut Frames,
    alloc: Global,
    design: &Design,
    seen: &Seen,
    out: &mut Vec<Effect>,
    spare: &mut Spare,
    at: Position,
    stmt: &Stmt,
    made: usize,
    outer: Option<Name>,
    hidden: Option<Name>,
    next: Name,
) -> Result<Went, NoMemory>
    requires empty { out.old.items ≡ [] }
    requires built { IsBuilt design.now }
    requires at { stmt_at design.now at ≡ Some stmt.now }
    requires no_end { open_calls (drop 1 (todos_of design.now frames.old)) ≡ open_calls (todos_of design.now frames.old) }
    ensures does { IfOk result (λ w. (look : Looks) (p : ProcessId)
        → SeesAll look (view_in seen.now.store.now seen.now.activations.now.activations seen.now.time seen.now.unit)
        → statement_run design.now look p next stmt.now (drop made stmt.now.calls) outer hidden (drop 1 (todos_of design.now frames.old))
        ≡ effects_of design.now w frames.new out.new.items) }
    ensures held { IfOk result (λ w. is_held w ≡ true → frames.new ≡ frames.old) }
{
    if let Some(call) = stmt.calls.as_slice().get(made) {
        return run_one_call(
            frames, alloc, design, seen, out, at, stmt, call, made, outer, hidden, next,
        );
    }
    let of_form = outer;
    let scope = seen_from(outer, hidden);
    let of_scope = scope;
    let values = Seen { scope, ..*seen };
    let ran = run_form(
        frames, alloc, design, &values, out, spare, at, stmt, of_form, of_scope, next,
    );
    let went = went_of(out, ran)?;
    Ok(went)
}

/// What the expressions of a statement see.
fn seen_from(outer: Option<Name>, hidden: Option<Name>) -> Option<Name>
    ensures { result ≡ seen_from outer hidden }
{
    match hidden {
        Some(name) => Some(name),
        None => outer,
    }
}
