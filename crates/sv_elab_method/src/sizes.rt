// Operators over containers (IEEE 1800-2017, 7.5.2, 7.9.1, 7.9.3 and 7.10.2.1).
ghost use Rattle.std.specs.Prelude.{◌≡◌, Some, IfOk, IfErr};
ghost use Rattle.sv_names.specs.declared.refusal.Refusal.TheVariants.{Memory};
ghost use Rattle.sv_names.specs.Calls as calls;
ghost use Rattle.sv_names.specs.Hoisted as hoisted;

use std::alloc::Global;
use sv_elab_copies::copy_expr;
use sv_elab_value::{expr_of, paired};
use sv_flat::{Expr, ExprForm};
use sv_names::{Hoisted, Refusal};

/// The number of items of a container.
pub fn size_expr(alloc: Global, container: &Expr) -> Result<Expr, Refusal>
    ensures ok { IfOk result (λ e. e ≡ calls.size_expr container.now) }
    ensures err { IfErr result (λ e. e ≡ Memory) }
{
    match &*container.form {
        ExprForm::Field { place, object, .. } => {
            let container = copy_expr(alloc, object)?;
            let property = Some(*place);
            expr_of(
                alloc,
                ExprForm::Size {
                    property,
                    container,
                },
            )
        }
        _ => {
            let container = copy_expr(alloc, container)?;
            let property = None;
            expr_of(
                alloc,
                ExprForm::Size {
                    property,
                    container,
                },
            )
        }
    }
}

/// The same, with its calls.
pub(crate) fn size_code(alloc: Global, code: Hoisted<Expr>) -> Result<Hoisted<Expr>, Refusal>
    ensures ok { IfOk result (λ c. c ≡ hoisted.mapped calls.size_expr code) }
    ensures err { IfErr result (λ e. e ≡ Memory) }
{
    let value = size_expr(alloc, &code.value)?;
    Ok(Hoisted {
        hidden: code.hidden,
        calls: code.calls,
        value,
    })
}

/// Whether a container has a key.
fn exists_expr(alloc: Global, container: Expr, index: Expr) -> Result<Expr, Refusal>
    ensures ok { IfOk result (λ e. e ≡ calls.exists_expr container index) }
    ensures err { IfErr result (λ e. e ≡ Memory) }
{
    match &*container.form {
        ExprForm::Field { place, object, .. } => {
            let container = copy_expr(alloc, object)?;
            let property = Some(*place);
            expr_of(
                alloc,
                ExprForm::Exists {
                    property,
                    container,
                    index,
                },
            )
        }
        _ => expr_of(
            alloc,
            ExprForm::Exists {
                property: None,
                container,
                index,
            },
        ),
    }
}

/// The same, with its calls.
pub(crate) fn exists_code(
    alloc: Global,
    container: Hoisted<Expr>,
    key: Hoisted<Expr>,
) -> Result<Hoisted<Expr>, Refusal>
    ensures ok { IfOk result (λ c. c ≡ hoisted.paired calls.exists_expr container key) }
    ensures err { IfErr result (λ e. e ≡ Memory) }
{
    let both = paired(container, key)?;
    let (container, index) = both.value;
    let value = exists_expr(alloc, container, index)?;
    Ok(Hoisted {
        hidden: both.hidden,
        calls: both.calls,
        value,
    })
}
