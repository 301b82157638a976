// Arguments in their brackets (IEEE 1800-2017, 13.5).
ghost use Rattle.std.specs.Prelude.{◌≡◌, IfOk, IfErr};
ghost use Rattle.sv_tree.specs.View as view;
ghost use Rattle.sv_names.specs.declared.refusal.Refusal.TheVariants.{Memory};
ghost use Rattle.sv_names.specs.Expressions as expressions;
ghost use Rattle.sv_names.specs.Views.{around_in};

use std::alloc::Global;
use sv_elab_expr::args;
use sv_names::{Arg, Around, Refusal};
use sv_tree::Actuals;
use sv_value::Seq;

/// The arguments between brackets, where some are written; `outputs` tells from the first on which are taken as targets.
pub fn actual_args(
    alloc: Global,
    outputs: &[bool],
    actuals: &Actuals,
    around: &Around,
) -> Result<Seq<Arg>, Refusal>
    ensures ok { IfOk result (λ as'. as'
        ≡ expressions.actual_args (around_in around.now) outputs.now (view.actuals actuals.now)) }
    ensures err { IfErr result (λ e. e ≡ Memory) }
{
    match actuals {
        Actuals::Unwritten => Ok(Seq::new(alloc)),
        Actuals::Written(items) => args(alloc, outputs, items, around),
    }
}
