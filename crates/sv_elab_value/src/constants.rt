// The values of constant expressions (IEEE 1800-2017, 11.2.1, 11.6 and 11.8).
ghost use Rattle.sv_flat.specs.Eval as eval;
ghost use Rattle.sv_names.specs.Values.{nowhere};
ghost use Rattle.sv_eval.specs.Evaluates.{Evaluates};

use std::alloc::Global;
use sv_eval::{Nowhere, Stopped, value};
use sv_flat::Expr;
use sv_value::Val;

/// The value of a constant expression that stands alone, or the fault that it meets.
pub fn constant_value(alloc: Global, e: &Expr) -> Result<Val, Stopped>
    ensures { Evaluates result (eval.value_of e.now nowhere) }
{
    value(alloc, &Nowhere, e)
}

/// The allocator of an expression.
pub fn allocator_of(e: &Expr) -> Global {
    *Box::allocator(&e.form)
}
