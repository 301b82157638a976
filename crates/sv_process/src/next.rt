// The next step of a process, by the entry that comes first (IEEE 1800-2017, 4.4.2 and 9.2).
ghost use Rattle.std.specs.Prelude.{◌≡◌, ◌∷◌, [], Option, None, Some, true, unwrap_or, OnOk};
ghost use Rattle.sv_stack.specs.declared.went.Went.TheVariants.{Held};
ghost use Rattle.sv_value.specs.declared.number.ProcessId.{ProcessId};
ghost use Rattle.sv_value.specs.declared.val.Message.{Message};
ghost use Rattle.sv_flat.specs.Micro.{Looks, run_first, place_of_step};
ghost use Rattle.sv_flat.specs.Process.{no_place};
ghost use Rattle.sv_assign.specs.Seen.{view_in};
ghost use Rattle.sv_built.specs.Built.{IsBuilt};
ghost use Rattle.sv_stack.specs.declared.effect.Effect.TheVariants.{End};
ghost use Rattle.sv_stack.specs.Frames.{todos_of, SeesAll};
ghost use Rattle.sv_stack.specs.Effects.{effects_of, is_held};

use crate::forks::step_children;
use crate::steps::{
    Stepped, step_called, step_elements, step_leave, step_loop, step_put, step_stmt, step_turns,
};
use std::alloc::Global;
use sv_arena::Name;
use sv_assign::Seen;
use sv_built::Design;
use sv_stack::{Effect, Frame, Frames, Spare, Went, put};
use sv_value::{NoMemory, Place};

/// A place in no source.
const NOWHERE: Place = Place {
    file: 0,
    line: 0,
    col: 0,
};

/// The step of a process of which nothing is left.
fn step_over(out: &mut Vec<Effect>, stepped: &mut Stepped) -> Result<(), NoMemory>
    requires { out.old.items ≡ [] }
    ensures stepped { OnOk result (stepped.new ≡ record { went = Held; at = no_place }) }
    ensures out { OnOk result (out.new.items ≡ End ∷ []) }
{
    put(out, Effect::End)?;
    *stepped = Stepped {
        went: Went::Held,
        at: NOWHERE,
    };
    Ok(())
}

/// The step of the entry that comes first, whatever it is.
#[inline(never)]
fn step_first(
    frames: &mut Frames,
    alloc: Global,
    design: &Design,
    seen: &Seen,
    out: &mut Vec<Effect>,
    spare: &mut Spare,
    next: Name,
    stepped: &mut Stepped,
) -> Result<(), NoMemory>
    requires built { IsBuilt design.now }
    requires empty { out.old.items ≡ [] }
    ensures does { OnOk result ((look : Looks) (p : ProcessId) (handed : Option Message)
        → SeesAll look (view_in seen.now.store.now seen.now.activations.now.activations seen.now.time seen.now.unit)
        → run_first design.now look p next handed (todos_of design.now frames.old) ≡ effects_of design.now stepped.new.went frames.new out.new.items) }
    ensures at { OnOk result (stepped.new.at ≡ unwrap_or (place_of_step (todos_of design.now frames.old)) no_place) }
    ensures held { OnOk result (is_held stepped.new.went ≡ true → todos_of design.now frames.new ≡ todos_of design.now frames.old) }
{
    match frames.first() {
        None => step_over(out, stepped),
        Some(Frame::Rest { at, scope }) => {
            let (at, scope) = (*at, *scope);
            step_stmt(
                frames, alloc, design, seen, out, spare, at, scope, next, stepped,
            )
        }
        Some(Frame::Loop { at, scope }) => {
            let (at, scope) = (*at, *scope);
            step_loop(
                frames, alloc, design, seen, out, spare, at, scope, next, stepped,
            )
        }
        Some(Frame::Turns { at, left, scope }) => {
            let (at, left, scope) = (*at, *left, *scope);
            step_turns(frames, design, out, at, left, scope, stepped)
        }
        Some(
            Frame::Elements {
                at,
                next: walked,
                scope,
            },
        ) => {
            let (at, walked, scope) = (*at, *walked, *scope);
            step_elements(frames, design, out, at, walked, scope, next, stepped)
        }
        Some(Frame::Put { at, value, scope }) => {
            let (at, scope) = (*at, *scope);
            let value = value.copy(alloc)?;
            let of_values = scope;
            let values = Seen {
                scope: of_values,
                ..*seen
            };
            step_put(
                frames, alloc, design, &values, out, at, value, scope, stepped,
            )
        }
        Some(Frame::Children { at, scope }) => {
            let (at, scope) = (*at, *scope);
            step_children(frames, design, out, at, scope, stepped)
        }
        Some(
            Frame::Called {
                at,
                made,
                outer,
                hidden,
            },
        ) => {
            let (at, made, outer, hidden) = (*at, *made, *outer, *hidden);
            step_called(
                frames, alloc, design, seen, out, spare, at, made, outer, hidden, next, stepped,
            )
        }
        Some(
            Frame::Leave {
                at,
                number,
                callee,
                caller,
            },
        ) => {
            let (at, number, callee, caller) = (*at, *number, *callee, *caller);
            step_leave(
                frames, alloc, design, seen, out, at, number, callee, caller, stepped,
            )
        }
    }
}

/// The next step of a process: what it does, in order, and what it leaves to run. It sees what `seen` has, from the scope of what comes
/// first. The next activation that is made gets the name `next`, and the one after it the name that follows.
///
/// After an error nothing is said. Memory is wanting, too, for forms that are not run.
pub fn step(
    frames: &mut Frames,
    alloc: Global,
    design: &Design,
    seen: &Seen,
    out: &mut Vec<Effect>,
    spare: &mut Spare,
    next: Name,
    stepped: &mut Stepped,
) -> Result<(), NoMemory>
    requires built { IsBuilt design.now }
    requires empty { out.old.items ≡ [] }
    ensures does { OnOk result ((look : Looks) (p : ProcessId) (handed : Option Message)
        → SeesAll look (view_in seen.now.store.now seen.now.activations.now.activations seen.now.time seen.now.unit)
        → run_first design.now look p next handed (todos_of design.now frames.old) ≡ effects_of design.now stepped.new.went frames.new out.new.items) }
    ensures at { OnOk result (stepped.new.at ≡ unwrap_or (place_of_step (todos_of design.now frames.old)) no_place) }
    ensures held { OnOk result (is_held stepped.new.went ≡ true → todos_of design.now frames.new ≡ todos_of design.now frames.old) }
{
    frames.settle(design);
    if let Some(Frame::Rest { at, scope }) = frames.first() {
        let (at, scope) = (*at, *scope);
        return step_stmt(
            frames, alloc, design, seen, out, spare, at, scope, next, stepped,
        );
    }
    step_first(frames, alloc, design, seen, out, spare, next, stepped)
}
