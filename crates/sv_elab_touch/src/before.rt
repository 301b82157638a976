// What stands in a target before a select that breaks a rule (IEEE 1800-2017, 10.3 and 11.5).
ghost use Rattle.std.specs.Prelude.{◌≡◌, IfOk};
ghost use Rattle.sv_tree.specs.Expr as tree;
ghost use Rattle.sv_tree.specs.View as view;
ghost use Rattle.sv_names.specs.Checked.{given};
ghost use Rattle.sv_names.specs.Expressions as expressions;
ghost use Rattle.sv_names.specs.Things.{root_thing};
ghost use Rattle.sv_names.specs.Views.{around_in};
ghost use Rattle.sv_elab_name.specs.Things.{thing_in};
ghost use Rattle.sv_elab_expr.specs.Walk.{before_suffix, stepped, is_end};
ghost use Rattle.sv_elab_touch.specs.Touched.{stops};

use std::alloc::Global;
use std::slice;
use sv_elab_expr::behind_root;
use sv_elab_expr::sv_elab_step::{called_before, selected_before};
use sv_elab_name::{Thing, judged_thing, root_thing};
use sv_names::{Around, Checked, Typed};
use sv_tree::{Root, Suffix};
use sv_value::{NoMemory, Place};

/// The thing that a name begins with.
pub(crate) fn begun<'a>(
    alloc: Global,
    root: &Root,
    around: &Around<'a>,
) -> Result<Checked<Thing<'a>>, NoMemory>
    ensures { IfOk result (λ c. given thing_in c ≡ root_thing (around_in around.now) root.now) }
{
    match judged_thing(root_thing(alloc, around, root)) {
        Ok(thing) => Ok(thing),
        Err(_) => Err(NoMemory::Memory),
    }
}

/// A thing behind one more suffix.
#[tactic(auto, using(crate::proofs::StepLaws::one_step))]
pub(crate) fn stepped<'a>(
    alloc: Global,
    place: Place,
    thing: Checked<Thing<'a>>,
    suffix: &Suffix,
    around: &Around<'a>,
) -> Result<Checked<Thing<'a>>, NoMemory>
    ensures { IfOk result (λ c. (rest : tree.Suffixes) → given thing_in c
        ≡ stepped (around_in around.now) place (given thing_in thing.entry) (view.suffix suffix.now rest)) }
{
    match behind_root(alloc, place, thing, slice::from_ref(suffix), around) {
        Ok(next) => Ok(next),
        Err(_) => Err(NoMemory::Memory),
    }
}

/// What stands in a target before a suffix; `is_last` tells whether nothing follows it.
fn before_suffix(
    alloc: Global,
    place: Place,
    thing: &Checked<Thing>,
    suffix: &Suffix,
    is_last: bool,
    around: &Around,
) -> Result<Option<Typed>, NoMemory>
    ensures { IfOk result (λ t. (rest : tree.Suffixes) → is_last ≡ is_end rest
        → t ≡ before_suffix (around_in around.now) place (given thing_in thing.now) (view.suffix suffix.now rest)) }
{
    let before = match suffix {
        Suffix::Member(_) => return Ok(None),
        Suffix::Call(_, _) => called_before(alloc, place, thing, is_last),
        Suffix::Select(_, _) => selected_before(alloc, around, thing),
        Suffix::Part { .. } => selected_before(alloc, around, thing),
    };
    match before {
        Ok(before) => Ok(before),
        Err(_) => Err(NoMemory::Memory),
    }
}

/// A thing as a target, where it is one.
fn as_target(
    alloc: Global,
    thing: &Checked<Thing>,
    around: &Around,
) -> Result<Option<Typed>, NoMemory>
    ensures { IfOk result (λ t. t ≡ expressions.as_target (around_in around.now) (given thing_in thing.now)) }
{
    match thing {
        Checked::Good(thing) => match thing.to_target(alloc, around) {
            Ok(t) => Ok(t),
            Err(_) => Err(NoMemory::Memory),
        },
        Checked::Broken(_) => Ok(None),
    }
}

/// Whether a part breaks a rule, with something before it.
fn stops(before: &Option<Typed>, next: &Checked<Thing>) -> bool
    ensures { result ≡ stops before.now (given thing_in next.now) }
{
    match before {
        None => false,
        Some(_) => match next {
            Checked::Good(_) => false,
            Checked::Broken(_) => true,
        },
    }
}

/// A target as far as it breaks no rule: before its first broken select, or whole.
pub(crate) fn before_select<'a>(
    alloc: Global,
    place: Place,
    thing: Checked<Thing<'a>>,
    suffixes: &[Suffix],
    around: &Around<'a>,
) -> Result<Option<Typed>, NoMemory>
    ensures { IfOk result (λ t. t ≡ expressions.before_select (around_in around.now) place (given thing_in thing.entry)
        (view.suffix_list suffixes.now)) }
{
    match suffixes {
        [] => as_target(alloc, &thing, around),
        [suffix, rest @ ..] => {
            let before = before_suffix(alloc, place, &thing, suffix, rest.is_empty(), around)?;
            let next = stepped(alloc, place, thing, suffix, around)?;
            if stops(&before, &next) {
                return Ok(before);
            }
            before_select(alloc, place, next, rest, around)
        }
    }
}
