// `foreach` over the elements of a fixed array (IEEE 1800-2017, 12.7.3).
ghost use Rattle.std.specs.Prelude.{◌≡◌, ◌∷◌, [], true, Some, drop, nat_lt, OnOk};
ghost use Rattle.sv_value.specs.Operators.{integer_symbols};
ghost use Rattle.sv_value.specs.Vector.{vector};
ghost use Rattle.sv_flat.specs.Eval.{element_count};
ghost use Rattle.sv_flat.specs.Process.{Enter};
ghost use Rattle.sv_flat.specs.Statements.Loops.{element_index, element_turn, int_type};
ghost use Rattle.sv_built.specs.Positions.{stmt_at};
ghost use Rattle.sv_stack.specs.Frames.{todos_of};
ghost use Rattle.sv_stack.specs.Effects.{Leaves, effects_in};

use sv_arena::Name;
use sv_assign::Spot;
use sv_built::{Design, Entered, Position};
use sv_flat::{Bounds, Stmt};
use sv_stack::{Effect, Frame, Frames, go_on, put};
use sv_value::{Bits, NoMemory, RoutineId, Val};

/// Whether an element is left after so many.
fn is_left(bounds: Bounds, walked: u64) -> bool
    ensures { result ≡ nat_lt walked (element_count bounds) }
{
    let distance = i128::from(bounds.left) - i128::from(bounds.right);
    u128::from(walked) <= distance.unsigned_abs()
}

/// The declared index of an element, from the left bound on.
fn element_index(bounds: Bounds, place: u64) -> i128
    ensures { result ≡ element_index bounds place }
{
    if bounds.left <= bounds.right {
        i128::from(bounds.left) + i128::from(place)
    } else {
        i128::from(bounds.left) - i128::from(place)
    }
}

/// A number as a value of type `int`.
fn int_value(number: i128) -> Bits
    ensures { result ≡ vector true (integer_symbols 32 number) }
{
    Bits::truncated(32, true, number.rem_euclid(1 << 32) as u64, 0)
}

/// The next turn of a `foreach`, or its end, after effects that came before. Memory is wanting where no number is left for the turn.
#[tactic(auto, using(crate::proofs::ElementLemmas::no_element, crate::proofs::ElementLemmas::one_element))]
fn take_element(
    frames: &mut Frames,
    design: &Design,
    out: &mut Vec<Effect>,
    at: Position,
    stmt: &Stmt,
    bounds: Bounds,
    body: RoutineId,
    walked: u64,
    name: Name,
) -> Result<(), NoMemory>
    requires { stmt_at design.now at ≡ Some stmt.now }
    ensures { OnOk result (Leaves design.now frames.new out.new.items
        (element_turn design.now stmt.now bounds body walked name (todos_of design.now frames.old) (effects_in design.now out.old.items))) }
{
    let _ = stmt;
    if !is_left(bounds, walked) {
        return go_on(frames, design, out);
    }
    let Some(next) = walked.checked_add(1) else {
        return Err(NoMemory::Memory);
    };
    let index = Val::Bits(int_value(element_index(bounds, walked)));
    let spot = Spot::Variable {
        name,
        variable: 0,
        part: None,
    };
    put(out, Effect::Write { spot, value: index })?;
    let scope = Some(name);
    let of_body = scope;
    frames.push(Frame::Elements { at, next, scope })?;
    frames.enter(body, of_body)?;
    go_on(frames, design, out)
}

/// A `foreach` over a fixed array, with an activation of its index.
pub fn run_foreach(
    frames: &mut Frames,
    design: &Design,
    out: &mut Vec<Effect>,
    at: Position,
    stmt: &Stmt,
    bounds: Bounds,
    body: RoutineId,
    scope: Option<Name>,
    next: Name,
) -> Result<(), NoMemory>
    requires first { out.old.items ≡ [] }
    requires at { stmt_at design.now at ≡ Some stmt.now }
    ensures { OnOk result (Leaves design.now frames.new out.new.items
        (element_turn design.now stmt.now bounds body 0 next (drop 1 (todos_of design.now frames.old)) (Enter (int_type ∷ []) scope ∷ []))) }
{
    frames.leave_first(design)?;
    let entered = Entered::Index;
    put(
        out,
        Effect::Enter {
            entered,
            around: scope,
        },
    )?;
    take_element(frames, design, out, at, stmt, bounds, body, 0, next)
}

/// The next turn of the walk of a `foreach` that was entered.
pub fn run_elements(
    frames: &mut Frames,
    design: &Design,
    out: &mut Vec<Effect>,
    at: Position,
    stmt: &Stmt,
    bounds: Bounds,
    body: RoutineId,
    walked: u64,
    name: Name,
) -> Result<(), NoMemory>
    requires first { out.old.items ≡ [] }
    requires at { stmt_at design.now at ≡ Some stmt.now }
    ensures { OnOk result (Leaves design.now frames.new out.new.items
        (element_turn design.now stmt.now bounds body walked name (drop 1 (todos_of design.now frames.old)) [])) }
{
    frames.leave_first(design)?;
    take_element(frames, design, out, at, stmt, bounds, body, walked, name)
}
