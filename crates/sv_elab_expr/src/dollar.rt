// `$` in the index of a queue (IEEE 1800-2017, 7.10.1): E7.
ghost use Rattle.sv_names.specs.Expressions as expressions;
ghost use Rattle.sv_names.specs.Given.{Gives};

use std::alloc::Global;
use sv_elab_copies::copy_expr;
use sv_elab_name::sv_elab_value::{pure, value_typed};
use sv_names::{Dollar, Refusal, Typed, int_type};
use sv_value::Place;

/// E7: `$` stands in the index of a queue.
pub fn last_index(alloc: Global, at: Place, dollar: &Dollar) -> Result<Typed, Refusal>
    ensures { Gives result (expressions.dollar_typed at dollar.now) }
{
    match dollar {
        Dollar::NoDollar => Err(Refusal::Rule { rule: 7, at }),
        Dollar::UnknownDollar(f) => Err(f.refusal()),
        Dollar::LastIndex(e) => {
            let e = copy_expr(alloc, e)?;
            Ok(value_typed(alloc, int_type(), at, false, pure(alloc, e)))
        }
    }
}
