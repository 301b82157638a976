// Declarations that are tried for whether they need themselves, and what of them is told (own): E7, E11.
ghost use Rattle.std.specs.Prelude.{◌≡◌, IfOk};
ghost use Rattle.sv_names.specs.declared.checked.Checked.TheVariants.{Broken};
ghost use Rattle.sv_names.specs.Rounds as rounds;

use crate::waiting::nowhere_yet;
use std::alloc::Global;
use sv_flat::{Expr, ExprForm};
use sv_names::{Apart, AsTarget, Checked, Fault, Hoisted, Named, Typed, int_type};
use sv_value::{NoMemory, Place, Seq};

/// A constant that is tried: a value that is not constant.
fn tried_constant(alloc: Global, at: Place) -> Result<Checked<Named>, NoMemory>
    ensures { IfOk result (λ c. c ≡ rounds.tried_value (Some at)) }
{
    let value = Expr::new(alloc, ExprForm::Handle { key: None })?;
    let typed = Typed {
        ty: int_type(),
        at,
        code: Hoisted {
            hidden: Seq::new(alloc),
            calls: Seq::new(alloc),
            value,
        },
        is_constant: false,
        target: AsTarget::none(),
    };
    let typed = Apart::new(alloc, typed)?;
    Ok(Checked::Good(Named::Constant(typed, true)))
}

/// A declaration that is tried, by the place of its value where it is a constant.
pub fn tried_value(alloc: Global, at: Option<Place>) -> Result<Checked<Named>, NoMemory>
    ensures { IfOk result (λ c. c ≡ rounds.tried_value at) }
{
    match at {
        None => {
            Ok(Checked::Broken(Fault {
                at: nowhere_yet(),
                rule: 7,
            }))
        }
        Some(at) => tried_constant(alloc, at),
    }
}

/// The first of two broken rules, of which one is E7 in its own right.
fn needs_other(at: Place, fault: Fault) -> Fault
    ensures { rounds.needs_itself (Some at) (Broken fault) ≡ Broken result }
{
    if fault.rule == 7 {
        return fault;
    }
    fault.earlier(Fault { at, rule: 11 })
}

/// What needs itself. E11: a constant is not constant, at its value; E7: as it was told where it was evaluated.
pub fn needs_itself(at: Option<Place>, value: Checked<Named>) -> Checked<Named>
    ensures { result ≡ rounds.needs_itself at value }
{
    match at {
        None => value,
        Some(at) => {
            match value {
                Checked::Good(_) => Checked::Broken(Fault { at, rule: 11 }),
                Checked::Broken(fault) => Checked::Broken(needs_other(at, fault)),
            }
        }
    }
}
