// What stands in a target before a suffix (IEEE 1800-2017, 10.3 and 11.5).
ghost use Rattle.std.specs.Prelude.{◌≡◌, IfOk, IfErr};
ghost use Rattle.sv_tree.specs.Expr as tree;
ghost use Rattle.sv_tree.specs.View as view;
ghost use Rattle.sv_names.specs.declared.refusal.Refusal.TheVariants.{Memory};
ghost use Rattle.sv_names.specs.Checked.{given};
ghost use Rattle.sv_names.specs.Views.{around_in};
ghost use Rattle.sv_elab_name.specs.Things.{thing_in};
ghost use Rattle.sv_elab_expr.specs.Walk.{before_suffix, is_end};

use std::alloc::Global;
use sv_elab_name::Thing;
use sv_elab_step::{called_before, selected_before};
use sv_names::{Around, Checked, Refusal, Typed};
use sv_tree::Suffix;
use sv_value::Place;

/// What stands in a target before a suffix, as what the rules on a broken target are told of; `is_last` tells whether nothing follows the
/// suffix.
pub fn before_suffix(
    alloc: Global,
    around: &Around,
    place: Place,
    thing: &Checked<Thing>,
    suffix: &Suffix,
    is_last: bool,
) -> Result<Option<Typed>, Refusal>
    ensures ok { IfOk result (λ t. (rest : tree.Suffixes) → is_last ≡ is_end rest
        → t ≡ before_suffix (around_in around.now) place (given thing_in thing.now) (view.suffix suffix.now rest)) }
    ensures err { IfErr result (λ e. e ≡ Memory) }
{
    match suffix {
        Suffix::Member(_) => Ok(None),
        Suffix::Call(_, _) => called_before(alloc, place, thing, is_last),
        Suffix::Select(_, _) => selected_before(alloc, around, thing),
        Suffix::Part { .. } => selected_before(alloc, around, thing),
    }
}
