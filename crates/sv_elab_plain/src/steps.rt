// The instance in which a step of the walk stands (IEEE 1800-2017, 23.3).
ghost use Rattle.std.specs.Prelude.{◌≡◌, option_map};
ghost use Rattle.sv_elab_walk.specs.Insts.{inst_in, walked_in};
ghost use Rattle.sv_elab_plain.specs.Steps as words;

use sv_elab_walk::{Inst, Walked};

/// The instance in which a step stands; none where the walk passes its limit.
pub fn inst_of<'f, 't>(step: &'f Walked<'t>) -> Option<&'f Inst<'t>>
    ensures { option_map (λ i. inst_in i.now) result ≡ words.inst_of (walked_in step.now) }
{
    match step {
        Walked::Enter(inst) => Some(&**inst),
        Walked::Meet { of, .. } => Some(&**of),
        Walked::Connect { outer, .. } => Some(&**outer),
        Walked::Pass(_) => None,
    }
}
