// What a call that stands as a statement calls: a name with what follows it (IEEE 1800-2017, 8, 13 and 15): E7, and the rules of calls.
ghost use Rattle.std.specs.Prelude.{◌≡◌, IfSome, IfNone};
ghost use Rattle.sv_value.specs.declared.place.Place.{Place as place_of};
ghost use Rattle.sv_tree.specs.View as view;
ghost use Rattle.sv_names.specs.declared.checked.Checked.{Checked as checked};
ghost use Rattle.sv_names.specs.Checked.{◌▷◌, given};
ghost use Rattle.sv_names.specs.Expressions as expressions;
ghost use Rattle.sv_names.specs.Given.{Gives};
ghost use Rattle.sv_names.specs.Named.{raised};
ghost use Rattle.sv_names.specs.Things as things;
ghost use Rattle.sv_names.specs.Views.{around_in};
ghost use Rattle.sv_elab_name.specs.Things.{thing_in};
ghost use Rattle.sv_elab_task.specs.Calling as calling;

use crate::forms::call_form;
use std::alloc::Global;
use sv_elab_expr::sv_elab_step::behind_object;
use sv_elab_expr::sv_elab_thing::AllCalls;
use sv_elab_expr::sv_elab_value::values_stand;
use sv_elab_expr::{args, behind_root, place_of_root};
use sv_elab_flow::{needs_activation, raised};
use sv_elab_name::{Thing, judged_thing, outputs_behind, root_thing};
use sv_flat::Form;
use sv_names::{Arg, Around, Called, Checked, Hoisted, Refusal, earlier_in, judged};
use sv_tree::{Expr, Root, Suffix};
use sv_value::{Place, Seq};

// ---- things that are called

/// The place of the name of a function inside itself.
fn own_name(thing: &Thing) -> Option<Place>
    ensures { result ≡ calling.own_name (thing_in thing.now) }
{
    match thing {
        Thing::ItsResult { at, .. } => Some(*at),
        _ => None,
    }
}

/// A call without brackets. E7: it is the name of a function inside itself, or no subroutine and no method.
#[tactic(auto, using(crate::proofs::CallLaws::bare_is))]
fn bare_thing(
    alloc: Global,
    around: &Around,
    place: Place,
    is_value: bool,
    thing: Thing,
) -> Result<Called, Refusal>
    ensures { Gives result (expressions.called_bare (around_in around.now) place is_value (thing_in thing.entry)) }
{
    match own_name(&thing) {
        Some(at) => Err(Refusal::Rule { rule: 7, at }),
        None => thing.called::<AllCalls>(alloc, around, place, is_value, Seq::new(alloc)),
    }
}

/// The same of a thing that may break a rule.
fn bare(
    alloc: Global,
    around: &Around,
    place: Place,
    is_value: bool,
    thing: Checked<Thing>,
) -> Result<Called, Refusal>
    ensures { Gives result (given thing_in thing.entry ▷ expressions.called_bare (around_in around.now) place is_value) }
{
    match thing {
        Checked::Good(thing) => bare_thing(alloc, around, place, is_value, thing),
        Checked::Broken(f) => Err(f.refusal()),
    }
}

/// A call over its arguments.
fn over_arguments(
    alloc: Global,
    around: &Around,
    place: Place,
    is_value: bool,
    thing: Checked<Thing>,
    args: Seq<Arg>,
) -> Result<Called, Refusal>
    ensures { Gives result
        (expressions.last_call (around_in around.now) place is_value (given thing_in thing.entry) args) }
{
    match thing {
        Checked::Good(thing) => thing.called::<AllCalls>(alloc, around, place, is_value, args),
        Checked::Broken(f) => {
            let stands = judged(values_stand(args.as_slice()))?;
            Err(earlier_in(f, &stands).refusal())
        }
    }
}

/// A call with its arguments.
fn with_arguments(
    alloc: Global,
    around: &Around,
    place: Place,
    is_value: bool,
    thing: Checked<Thing>,
    actuals: &[Expr],
) -> Result<Called, Refusal>
    ensures { Gives result
        (calling.last_call (around_in around.now) place is_value (given thing_in thing.entry) (view.expr_list actuals.now)) }
{
    let outputs = outputs_behind(alloc, &thing)?;
    let inner = behind_object(around, &thing);
    let args = args(alloc, outputs.as_slice(), actuals, &inner)?;
    over_arguments(alloc, around, place, is_value, thing, args)
}

// ---- names with what follows them

/// What stands before a call that comes last, and its arguments.
fn last_call(suffixes: &[Suffix]) -> Option<(&[Suffix], &[Expr])>
    ensures call { IfSome result (λ p. calling.EndsWithCall (view.suffix_list suffixes.now)
        (view.suffix_list p.0.now) (view.expr_list p.1.now)) }
    ensures bare { IfNone result (calling.EndsBare (view.suffix_list suffixes.now)) }
{
    match suffixes.split_last() {
        None => None,
        Some((last, front)) => match last {
            Suffix::Call(_, actuals) => Some((front, actuals.as_slice())),
            Suffix::Member(_) => None,
            Suffix::Select(_, _) => None,
            Suffix::Part { .. } => None,
        },
    }
}

/// What is called.
#[tactic(auto, using(crate::proofs::CallLaws::called_with_last, crate::proofs::CallLaws::called_without))]
fn called(
    alloc: Global,
    is_value: bool,
    root: &Root,
    suffixes: &[Suffix],
    around: &Around,
) -> Result<Called, Refusal>
    ensures { Gives result (calling.called_of (around_in around.now) is_value root.now (view.suffix_list suffixes.now)) }
{
    let place = place_of_root(root);
    let thing = judged_thing(root_thing(alloc, around, root))?;
    match last_call(suffixes) {
        Some((front, actuals)) => {
            let thing = behind_root(alloc, place, thing, front, around)?;
            with_arguments(alloc, around, place, is_value, thing, actuals)
        }
        None => {
            let thing = behind_root(alloc, place, thing, suffixes, around)?;
            bare(alloc, around, place, is_value, thing)
        }
    }
}

/// A call of a subroutine or a method, in variables of this activation.
fn called_once(
    alloc: Global,
    is_value: bool,
    root: &Root,
    suffixes: &[Suffix],
    around: &Around,
) -> Result<Hoisted<Form>, Refusal>
    ensures { Gives result (calling.call_once is_value root.now (view.suffix_list suffixes.now) (around_in around.now)) }
{
    call_form(alloc, called(alloc, is_value, root, suffixes, around))
}

/// A call of a subroutine or a method; `is_value` tells whether its value is asked for. E7: what is named cannot be called.
#[tactic(auto, using(sv_elab_flow::proofs::RaisedLaws::raised_once, sv_elab_flow::proofs::RaisedLaws::raised_again))]
pub fn name_called(
    alloc: Global,
    is_value: bool,
    root: &Root,
    suffixes: &[Suffix],
    around: &Around,
) -> Result<Hoisted<Form>, Refusal>
    ensures { Gives result (raised (around_in around.now) (calling.call_once is_value root.now (view.suffix_list suffixes.now))) }
{
    let form = called_once(alloc, is_value, root, suffixes, around);
    if needs_activation(&form) {
        return called_once(alloc, is_value, root, suffixes, &raised(around));
    }
    form
}
