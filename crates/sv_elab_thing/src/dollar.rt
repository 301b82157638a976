// What `$` stands for in an index behind a thing (IEEE 1800-2017, 7.10.1).
ghost use Rattle.std.specs.Prelude.{◌≡◌, IfOk, IfErr};
ghost use Rattle.sv_names.specs.declared.checked.Checked.TheVariants.{Good};
ghost use Rattle.sv_names.specs.declared.refusal.Refusal.TheVariants.{Memory};
ghost use Rattle.sv_names.specs.Checked.{given};
ghost use Rattle.sv_names.specs.Things as things;
ghost use Rattle.sv_elab_name.specs.Things.{thing_in};

use std::alloc::Global;
use sv_elab_method::size_expr;
use sv_elab_name::Thing;
use sv_elab_operator::sv_elab_value::expr_of;
use sv_flat::{Expr, ExprForm};
use sv_names::{Checked, Dollar, Refusal, Typed};
use sv_value::{BinOp, Bits};

/// The index of the last item of a queue.
fn last_index(alloc: Global, queue: &Expr) -> Result<Expr, Refusal>
    ensures ok { IfOk result (λ e. e ≡ things.last_index queue.now) }
    ensures err { IfErr result (λ e. e ≡ Memory) }
{
    let left = size_expr(alloc, queue)?;
    let value = Bits::new(32, true, 1, 0);
    let right = expr_of(alloc, ExprForm::Literal { value, fill: None })?;
    let op = BinOp::Sub;
    expr_of(alloc, ExprForm::Binary { op, left, right })
}

/// What `$` stands for in an index of a value.
fn dollar_of(alloc: Global, t: &Typed) -> Result<Dollar, Refusal>
    ensures ok { IfOk result (λ d. d ≡ things.dollar_in (Good (things.A_value t.now))) }
    ensures err { IfErr result (λ e. e ≡ Memory) }
{
    if t.ty.is_queue() {
        let index = last_index(alloc, &t.code.value)?;
        Ok(Dollar::LastIndex(index))
    } else {
        Ok(Dollar::NoDollar)
    }
}

/// What `$` stands for in an index behind a thing (7.10.1): the index of the last item of a queue; nothing behind another thing.
pub fn dollar_in(alloc: Global, thing: &Thing) -> Result<Dollar, Refusal>
    ensures ok { IfOk result (λ d. d ≡ things.dollar_in (Good (thing_in thing.now))) }
    ensures err { IfErr result (λ e. e ≡ Memory) }
{
    match thing {
        Thing::Value(t) => dollar_of(alloc, t),
        Thing::Subroutine { .. } => Ok(Dollar::NoDollar),
        Thing::Method { .. } => Ok(Dollar::NoDollar),
        Thing::ItsResult { .. } => Ok(Dollar::NoDollar),
        Thing::Block { .. } => Ok(Dollar::NoDollar),
        Thing::Signal { .. } => Ok(Dollar::NoDollar),
        Thing::TypeName { .. } => Ok(Dollar::NoDollar),
    }
}

/// What `$` stands for in an index behind a thing.
pub fn dollar_behind(alloc: Global, thing: &Checked<Thing>) -> Result<Dollar, Refusal>
    ensures ok { IfOk result (λ d. d ≡ things.dollar_in (given thing_in thing.now)) }
    ensures err { IfErr result (λ e. e ≡ Memory) }
{
    match thing {
        Checked::Good(thing) => dollar_in(alloc, thing),
        Checked::Broken(f) => Ok(Dollar::UnknownDollar(*f)),
    }
}
