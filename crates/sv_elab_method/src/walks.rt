// Methods that go from key to key (IEEE 1800-2017, 7.9.4 to 7.9.7): E16, E31.
ghost use Rattle.std.specs.Prelude.{◌≡◌, IfOk, IfErr};
ghost use Rattle.sv_names.specs.declared.refusal.Refusal.TheVariants.{Memory};
ghost use Rattle.sv_names.specs.Given.{Gives};
ghost use Rattle.sv_names.specs.Views.{around_in};
ghost use Rattle.sv_elab_method.specs.Steps as steps;

use crate::given::key_of;
use std::alloc::Global;
use sv_elab_select::{Spot, container_of, read_lvalues, read_of};
use sv_elab_value::{code_of, paired, rule};
use sv_flat::{CallForm, Expr, WalkStep};
use sv_names::{Arg, Around, Called, Hoisted, Refusal, Ty, Typed, int_type};
use sv_value::{Place, Seq};

/// E16: the variable that gets a key has the type of the keys.
fn walk_stands(at: Place, key: &Ty, spots: &[Spot]) -> Result<(), Refusal>
    ensures { Gives result (steps.walk_stands at key.now spots.now) }
{
    match spots {
        [spot] => rule(16, at, !spot.1.ty.is_same(key)),
        _ => Err(Refusal::Rule { rule: 16, at }),
    }
}

/// A step from the key in a variable to another one.
fn walk_form(
    alloc: Global,
    around: &Around,
    step: WalkStep,
    at: Place,
    array: Hoisted<Expr>,
    spots: Seq<Spot>,
) -> Result<Hoisted<CallForm>, Refusal>
    ensures ok { IfOk result (λ f. f ≡ steps.walk_form (around_in around.now) step at array spots) }
    ensures err { IfErr result (λ e. e ≡ Memory) }
{
    let targets = read_lvalues(alloc, around, spots.as_slice())?;
    let from = code_of(read_of(alloc, at, spots)?);
    let both = paired(array, from)?;
    let (array, from) = both.value;
    let container = container_of(alloc, &array)?;
    Ok(Hoisted {
        hidden: both.hidden,
        calls: both.calls,
        value: CallForm::Walk {
            step,
            container,
            from,
            targets,
        },
    })
}

/// E16: the same, where the target is one.
fn walked(
    alloc: Global,
    around: &Around,
    step: WalkStep,
    array: Typed,
    at: Place,
    spots: Seq<Spot>,
) -> Result<Hoisted<CallForm>, Refusal>
    ensures { Gives result (steps.walked (around_in around.now) step array at spots) }
{
    let key = key_of(alloc, &array.ty)?;
    match walk_stands(at, &key, spots.as_slice()) {
        Ok(()) => {
            let form = walk_form(alloc, around, step, at, code_of(array), spots)?;
            Ok(form)
        }
        Err(e) => Err(e),
    }
}

/// The same, where the argument is a target.
fn walk_argument(
    alloc: Global,
    around: &Around,
    step: WalkStep,
    array: Typed,
    arg: Arg,
) -> Result<Hoisted<CallForm>, Refusal>
    ensures { Gives result (steps.walk_argument (around_in around.now) step array arg) }
{
    let at = arg.at;
    match arg.into_target() {
        Ok(spots) => walked(alloc, around, step, array, at, spots),
        Err(e) => Err(e),
    }
}

/// `first`, `last`, `next` and `prev` of an associative array. E16: the argument has not the type of the keys; E31: it is no target.
pub(crate) fn walk(
    alloc: Global,
    around: &Around,
    step: WalkStep,
    array: Typed,
    arg: Arg,
) -> Result<Called, Refusal>
    ensures { Gives result (steps.walk (around_in around.now) step array arg) }
{
    match walk_argument(alloc, around, step, array, arg) {
        Ok(form) => Ok(Called::Call(form, int_type())),
        Err(e) => Err(e),
    }
}
