// What arrays and mailboxes hold, and the keys of arrays (IEEE 1800-2017, 7.4 to 7.10 and 15.4.9): E43.
ghost use Rattle.std.specs.Prelude.{◌≡◌};
ghost use Rattle.sv_names.specs.declared.checked.Checked.{Checked as checked};
ghost use Rattle.sv_names.specs.declared.ty.Ty.{Ty as ty};
ghost use Rattle.sv_names.specs.Checked.{◌▷◌};
ghost use Rattle.sv_names.specs.Declarations as declarations;
ghost use Rattle.sv_names.specs.Given.{Gives};

use std::alloc::Global;
use sv_names::{Element, Refusal, Ty, copy_path};
use sv_value::Place;

/// E43: what an array or a mailbox holds is a number, a string or a reference.
pub fn may_be_item(alloc: Global, at: Place, t: &Ty) -> Result<Element, Refusal>
    ensures { Gives result (declarations.may_be_item at t.now) }
{
    match t {
        Ty::Vector {
            integral,
            bounds,
            is_written,
        } => Ok(Element::Vector {
            integral: *integral,
            bounds: *bounds,
            is_written: *is_written,
        }),
        Ty::Enum {
            scope,
            at,
            integral,
            bounds,
            is_written,
        } => {
            let scope = scope.share()?;
            Ok(Element::Enum {
                scope,
                at: *at,
                integral: *integral,
                bounds: *bounds,
                is_written: *is_written,
            })
        }
        Ty::Text => Ok(Element::Text),
        Ty::Class(class) => {
            let class = copy_path(alloc, class.as_slice())?;
            Ok(Element::Class(class))
        }
        _ => Err(Refusal::Rule { rule: 43, at }),
    }
}

/// E43: the keys of an array are numbers or strings.
pub fn may_be_key(alloc: Global, at: Place, t: &Ty) -> Result<Element, Refusal>
    ensures { Gives result (declarations.may_be_key at t.now) }
{
    match t {
        Ty::Class(_) => Err(Refusal::Rule { rule: 43, at }),
        t => may_be_item(alloc, at, t),
    }
}

/// What an array or a mailbox holds, where it breaks no rule before.
pub(crate) fn item_of(alloc: Global, at: Place, t: Result<Ty, Refusal>) -> Result<Element, Refusal>
    ensures { (x : checked ty) → Gives t x → Gives result (x ▷ declarations.may_be_item at) }
{
    match t {
        Ok(t) => may_be_item(alloc, at, &t),
        Err(e) => Err(e),
    }
}
