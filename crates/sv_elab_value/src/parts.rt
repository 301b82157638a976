// Parts of a statement, one behind another.
ghost use Rattle.std.specs.Prelude.{◌≡◌, ◌++◌, IfOk, IfErr};
ghost use Rattle.sv_flat.specs.Expr as flat;
ghost use Rattle.sv_flat.specs.ExprView.{of_form};
ghost use Rattle.sv_names.specs.declared.refusal.Refusal.TheVariants.{Memory};
ghost use Rattle.sv_names.specs.Hoisted as hoisted;
ghost use Rattle.sv_names.specs.Values as values;

use std::alloc::Global;
use sv_flat::{Expr, ExprForm};
use sv_names::{AsTarget, Hoisted, Refusal, Ty, Typed};
use sv_value::{Integral, Place, Seq};

/// What has no calls.
pub fn pure<T: Drop>(alloc: Global, value: T) -> Hoisted<T>
    ensures { result ≡ hoisted.pure value }
{
    Hoisted {
        hidden: Seq::new(alloc),
        calls: Seq::new(alloc),
        value,
    }
}

/// The items of two lists.
fn joined<T: Drop>(a: Seq<T>, b: Seq<T>) -> Result<Seq<T>, Refusal>
    ensures ok { IfOk result (λ c. c ≡ a ++ b) }
    ensures err { IfErr result (λ e. e ≡ Memory) }
{
    let mut items = a.into_vec();
    let mut more = b.into_vec();
    items.append(&mut more)?;
    Ok(Seq::from_vec(items))
}

/// One part, and then another.
pub fn paired<A: Drop, B: Drop>(a: Hoisted<A>, b: Hoisted<B>) -> Result<Hoisted<(A, B)>, Refusal>
    ensures ok { IfOk result (λ c. c ≡ hoisted.paired (λ x y. (x, y)) a b) }
    ensures err { IfErr result (λ e. e ≡ Memory) }
{
    let hidden = joined(a.hidden, b.hidden)?;
    let calls = joined(a.calls, b.calls)?;
    Ok(Hoisted {
        hidden,
        calls,
        value: (a.value, b.value),
    })
}

/// An expression that is no target.
pub fn value_typed(
    alloc: Global,
    ty: Ty,
    at: Place,
    is_constant: bool,
    code: Hoisted<Expr>,
) -> Typed
    ensures { result ≡ values.value_typed ty at is_constant code }
{
    let _ = alloc;
    Typed {
        ty,
        at,
        code,
        is_constant,
        target: AsTarget::none(),
    }
}

/// The expression of the flat design, with its calls.
pub fn code_of(t: Typed) -> Hoisted<Expr>
    ensures { result ≡ t.code }
{
    t.code
}

/// The expression of a form.
pub fn expr_of(alloc: Global, form: ExprForm) -> Result<Expr, Refusal>
    ensures ok { IfOk result (λ e. e ≡ of_form form) }
    ensures err { IfErr result (λ e. e ≡ Memory) }
{
    Ok(Expr::new(alloc, form)?)
}

/// The code of a conversion.
pub fn converted(alloc: Global, to: Integral, code: Hoisted<Expr>) -> Result<Hoisted<Expr>, Refusal>
    ensures ok { IfOk result (λ c. c ≡ hoisted.mapped (flat.Convert to) code) }
    ensures err { IfErr result (λ e. e ≡ Memory) }
{
    let value = expr_of(
        alloc,
        ExprForm::Convert {
            to,
            operand: code.value,
        },
    )?;
    Ok(Hoisted {
        hidden: code.hidden,
        calls: code.calls,
        value,
    })
}
