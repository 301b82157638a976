// How a statement ends.
ghost use Rattle.std.specs.Prelude.{◌≡◌, ◌∷◌, ◌++◌, [], OnOk};
ghost use Rattle.sv_flat.specs.Statements.Shared.{goes_on, waits};
ghost use Rattle.sv_stack.specs.Frames.{todos_of};
ghost use Rattle.sv_stack.specs.Effects.{Leaves, effect_in, effects_in};

use crate::{Effect, Frames};
use sv_built::Design;
use sv_value::NoMemory;

/// An effect comes behind the others.
#[inline(always)]
pub fn put(out: &mut Vec<Effect>, effect: Effect) -> Result<(), NoMemory>
    ensures { OnOk result (out.new.items ≡ out.old.items ++ effect ∷ []) }
{
    out.push(effect)?;
    Ok(())
}

/// The process runs on, or is at its end where nothing is left.
#[inline(always)]
#[tactic(auto, using(crate::proofs::EndLemmas::ended, crate::proofs::EndLemmas::not_ended))]
pub fn go_on(frames: &mut Frames, design: &Design, out: &mut Vec<Effect>) -> Result<(), NoMemory>
    ensures { OnOk result (Leaves design.now frames.new out.new.items
        (goes_on (todos_of design.now frames.old) (effects_in design.now out.old.items))) }
{
    if frames.is_more(design) {
        return Ok(());
    }
    put(out, Effect::End)
}

/// The process runs on without an effect.
#[inline(always)]
pub fn pass(frames: &mut Frames, design: &Design, out: &mut Vec<Effect>) -> Result<(), NoMemory>
    requires { out.old.items ≡ [] }
    ensures { OnOk result (Leaves design.now frames.new out.new.items (goes_on (todos_of design.now frames.old) [])) }
{
    go_on(frames, design, out)
}

/// The process runs on after one effect.
#[inline(always)]
pub fn pass_with(
    frames: &mut Frames,
    design: &Design,
    out: &mut Vec<Effect>,
    effect: Effect,
) -> Result<(), NoMemory>
    requires { out.old.items ≡ [] }
    ensures { OnOk result (Leaves design.now frames.new out.new.items
        (goes_on (todos_of design.now frames.old) (effect_in design.now effect ∷ []))) }
{
    put(out, effect)?;
    go_on(frames, design, out)
}

/// The process waits after one effect.
#[inline(always)]
pub fn wait_with(
    frames: &mut Frames,
    design: &Design,
    out: &mut Vec<Effect>,
    effect: Effect,
) -> Result<(), NoMemory>
    requires { out.old.items ≡ [] }
    ensures { OnOk result (Leaves design.now frames.new out.new.items
        (waits (todos_of design.now frames.old) (effect_in design.now effect ∷ []))) }
{
    let _ = design;
    let _ = &*frames;
    put(out, effect)
}
