// Hidden variables of statements, and values that stand alone (IEEE 1800-2017, 12.4 and 13.4.1).
ghost use Rattle.std.specs.Prelude.{◌≡◌};
ghost use Rattle.sv_names.specs.declared.checked.Checked.{Checked as checked};
ghost use Rattle.sv_names.specs.declared.typed.Typed.{Typed as typed};
ghost use Rattle.sv_names.specs.Checked.{given};
ghost use Rattle.sv_names.specs.Given.{Gives};
ghost use Rattle.sv_names.specs.Values as values;
ghost use Rattle.sv_elab_flow.specs.Parts.{has_hidden};

use std::alloc::Global;
use sv_elab_value::alone;
use sv_flat::Expr as FlatExpr;
use sv_names::{Hoisted, Refusal, Typed};

/// Whether a part of a statement has hidden variables, which make an activation.
pub fn needs_activation<A>(part: &Result<Hoisted<A>, Refusal>) -> bool
    ensures { result ≡ has_hidden part.now }
{
    match part {
        Ok(part) => match part.hidden.as_slice() {
            [] => false,
            [_, ..] => true,
        },
        Err(_) => false,
    }
}

/// A value that stands alone, where it breaks no rule.
pub fn alone_given(
    alloc: Global,
    value: Result<Typed, Refusal>,
) -> Result<Hoisted<FlatExpr>, Refusal>
    ensures { (x : checked typed) → Gives value x → Gives result (given values.alone x) }
{
    match value {
        Ok(value) => {
            let code = alone(alloc, value)?;
            Ok(code)
        }
        Err(e) => Err(e),
    }
}
