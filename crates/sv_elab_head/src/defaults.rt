// The default values of arguments (IEEE 1800-2017, 13.5.3): E11, E16, E17, E42.
ghost use Rattle.std.specs.Prelude.{◌≡◌, IfOk, option_map};
ghost use Rattle.sv_tree.specs.View as view;
ghost use Rattle.sv_names.specs.declared.checked.Checked.{Checked as checked};
ghost use Rattle.sv_names.specs.declared.typed.Typed.{Typed as typed};
ghost use Rattle.sv_names.specs.Scopes as scopes;
ghost use Rattle.sv_names.specs.Views.{around_in};
ghost use Rattle.sv_names.specs.Given.{Gives};
ghost use Rattle.sv_elab_head.specs.Formals as formals;

use std::alloc::Global;
use sv_elab_copies::copy_typed;
use sv_elab_signal::known;
use sv_elab_type::sv_elab_expr::{expr, place_of};
use sv_elab_type::sv_elab_value::{assigned, constant};
use sv_names::{Around, Checked, Refusal, Ty, Typed, first};
use sv_tree::Expr;
use sv_value::{NoMemory, Place};

/// E11: a constant.
fn constant_in(alloc: Global, around: &Around, e: &Expr) -> Result<Typed, Refusal>
    ensures { Gives result (formals.constant_in (around_in around.now) (view.expr e.now)) }
{
    let at = place_of(e);
    match expr(alloc, e, around) {
        Ok(t) => constant(at, t),
        Err(e) => Err(e),
    }
}

/// E16, E17, E42: a default that its argument takes; an argument may be an event.
fn fitting(alloc: Global, around: &Around, ty: &Ty, at: Place, t: Typed) -> Result<Typed, Refusal>
    ensures { Gives result (formals.fitting (around_in around.now) ty.now at t) }
{
    let copy = copy_typed(alloc, &t)?;
    let inside = Around {
        takes_events: true,
        ..*around
    };
    match assigned(alloc, &inside, ty, at, copy) {
        Ok(_) => Ok(t),
        Err(e) => Err(e),
    }
}

/// A default that an argument of this type takes, where neither breaks a rule before.
fn fitting_both(
    alloc: Global,
    around: &Around,
    ty: &Checked<Ty>,
    at: Place,
    value: Result<Typed, Refusal>,
) -> Result<Typed, Refusal>
    ensures { (x : checked typed) → Gives value x → Gives result (formals.fitting_both (around_in around.now) ty.now at x) }
{
    match ty {
        Checked::Good(ty) => match value {
            Ok(t) => fitting(alloc, around, ty, at, t),
            Err(e) => Err(e),
        },
        Checked::Broken(f) => match value {
            Ok(_) => Err(f.refusal()),
            Err(e) => Err(first(f.refusal(), e)),
        },
    }
}

/// E11, E16: a default is constant, and fits its argument.
fn default_of(
    alloc: Global,
    around: &Around,
    ty: &Checked<Ty>,
    default: &Expr,
) -> Result<Typed, Refusal>
    ensures { Gives result (scopes.default_of (around_in around.now) ty.now (view.expr default.now)) }
{
    let at = place_of(default);
    let value = constant_in(alloc, around, default);
    fitting_both(alloc, around, ty, at, value)
}

/// The default of an argument of this type, where one is written.
pub(crate) fn default_in(
    alloc: Global,
    around: &Around,
    ty: &Checked<Ty>,
    default: &Option<Expr>,
) -> Result<Option<Checked<Typed>>, NoMemory>
    ensures { IfOk result (λ d. d
        ≡ option_map (scopes.default_of (around_in around.now) ty.now) (option_map view.expr default.now)) }
{
    match default {
        None => Ok(None),
        Some(default) => {
            let value = known(default_of(alloc, around, ty, default))?;
            Ok(Some(value))
        }
    }
}
