// Types that may break a rule.
ghost use Rattle.sv_names.specs.Given.{Gives};

use std::alloc::Global;
use sv_names::{Checked, Refusal, Ty};

/// A type, or the rule that it breaks.
pub(crate) fn type_of(alloc: Global, ty: &Checked<Ty>) -> Result<Ty, Refusal>
    ensures { Gives result ty.now }
{
    match ty {
        Checked::Good(ty) => {
            let ty = ty.copy(alloc)?;
            Ok(ty)
        }
        Checked::Broken(f) => Err(f.refusal()),
    }
}
