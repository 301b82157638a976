// Names with what follows them as targets, or the rules that they break (IEEE 1800-2017, 10.3, 10.4 and 13.5): E7, E11, E18, E19, E21,
// E26, E42, E47.
ghost use Rattle.std.specs.Prelude.{◌≡◌, ◌∷◌, [], None as none, false, option_map, if◌then◌else◌, IfOk, IfErr};
ghost use Rattle.sv_flat.specs.Expr as flat;
ghost use Rattle.sv_tree.specs.Expr as tree;
ghost use Rattle.sv_names.specs.declared.checked.Checked.TheVariants.{Good};
ghost use Rattle.sv_names.specs.declared.refusal.Refusal.TheVariants.{Memory};
ghost use Rattle.sv_names.specs.declared.ty.Ty.TheVariants as ty;
ghost use Rattle.sv_names.specs.Checked.{given, also_broken};
ghost use Rattle.sv_names.specs.Expressions as expressions;
ghost use Rattle.sv_names.specs.Hoisted as hoisted;
ghost use Rattle.sv_names.specs.Targets as targets;
ghost use Rattle.sv_names.specs.Values as values;
ghost use Rattle.sv_names.specs.Views.{around_in};
ghost use Rattle.sv_names.specs.Given.{Gives};
ghost use Rattle.sv_elab_name.specs.Things.{thing_in};
ghost use Rattle.sv_elab_step.specs.Before as parts;
ghost use Rattle.sv_elab_step.specs.Before.{or_else, kept};

use std::alloc::Global;
use sv_elab_call::sv_elab_select::{Spot, may_be_written, may_begin, selects_stand};
use sv_elab_name::Thing;
use sv_elab_operator::sv_elab_value::{expr_of, pure, value_typed};
use sv_flat::{Expr, ExprForm, Part};
use sv_names::{
    Around, AsTarget, Checked, Fault, How, Refusal, Ty, Typed, earlier_in, judged, where_also,
};
use sv_value::{NoMemory, Place, Seq};

// ---- what stands before a part that breaks a rule

/// A thing as a target, in memory of its own; none where it is no target.
fn as_target(
    alloc: Global,
    around: &Around,
    thing: &Checked<Thing>,
) -> Result<Option<Typed>, Refusal>
    ensures ok { IfOk result (λ t. t ≡ expressions.as_target (around_in around.now) (given thing_in thing.now)) }
    ensures err { IfErr result (λ e. e ≡ Memory) }
{
    match thing {
        Checked::Good(thing) => thing.to_target(alloc, around),
        Checked::Broken(_) => Ok(None),
    }
}

/// A target of which one bit is written.
fn one_bit_of(
    alloc: Global,
    target: AsTarget,
    is_item: bool,
    index: Expr,
) -> Result<AsTarget, NoMemory>
    ensures { IfOk result (λ t. t ≡ parts.one_bit_of is_item index target) }
{
    let mut target = target.into_box(alloc)?;
    target.is_item = is_item;
    target.part = Some(Part {
        width: 1,
        offset: 0,
        is_falling: false,
        index,
    });
    Ok(AsTarget::from_box(target))
}

/// What stands for no expression, without calls.
fn no_expr(alloc: Global) -> Result<Expr, Refusal>
    ensures ok { IfOk result (λ e. e ≡ flat.Handle none) }
    ensures err { IfErr result (λ e. e ≡ Memory) }
{
    expr_of(alloc, ExprForm::Handle { key: None })
}

/// A target of which some item or part is written.
fn as_selected(alloc: Global, t: Typed) -> Result<Typed, Refusal>
    ensures ok { IfOk result (λ s. s ≡ expressions.as_selected t) }
    ensures err { IfErr result (λ e. e ≡ Memory) }
{
    let index = no_expr(alloc)?;
    let is_item = t.target.is_item() || t.ty.is_container();
    let Typed {
        ty,
        at,
        code,
        is_constant,
        target,
    } = t;
    let target = one_bit_of(alloc, target, is_item, index)?;
    Ok(Typed {
        ty,
        at,
        code,
        is_constant,
        target,
    })
}

/// What a select selects from, as a target of which some item or part is written; none where it is no target.
pub fn selected_before(
    alloc: Global,
    around: &Around,
    thing: &Checked<Thing>,
) -> Result<Option<Typed>, Refusal>
    ensures ok { IfOk result (λ t. t ≡ option_map expressions.as_selected
        (expressions.as_target (around_in around.now) (given thing_in thing.now))) }
    ensures err { IfErr result (λ e. e ≡ Memory) }
{
    match as_target(alloc, around, thing)? {
        Some(t) => {
            let t = as_selected(alloc, t)?;
            Ok(Some(t))
        }
        None => Ok(None),
    }
}

/// Whether a thing can be called.
fn is_callable(thing: &Checked<Thing>) -> bool
    ensures { result ≡ expressions.is_callable (given thing_in thing.now) }
{
    match thing {
        Checked::Good(thing) => thing.is_callable(),
        Checked::Broken(_) => false,
    }
}

/// What a call gives, which is no target.
fn nothing_given(alloc: Global, place: Place) -> Result<Typed, Refusal>
    ensures ok { IfOk result (λ t. t ≡ values.value_typed ty.Nothing place false (hoisted.pure (flat.Handle none))) }
    ensures err { IfErr result (λ e. e ≡ Memory) }
{
    let handle = no_expr(alloc)?;
    Ok(value_typed(alloc, Ty::Nothing, place, false, pure(alloc, handle)))
}

/// What a call gives, which is no target; none where nothing is called.
fn as_called(alloc: Global, place: Place, thing: &Checked<Thing>) -> Result<Option<Typed>, Refusal>
    ensures ok { IfOk result (λ t. t ≡ expressions.as_called place (given thing_in thing.now) tree.NoSuffix) }
    ensures err { IfErr result (λ e. e ≡ Memory) }
{
    if is_callable(thing) {
        let t = nothing_given(alloc, place)?;
        Ok(Some(t))
    } else {
        Ok(None)
    }
}

/// What a call gives, which is no target, where nothing follows it; none where nothing is called.
pub fn called_before(
    alloc: Global,
    place: Place,
    thing: &Checked<Thing>,
    is_last: bool,
) -> Result<Option<Typed>, Refusal>
    ensures ok { IfOk result (λ t. t
        ≡ (if is_last then expressions.as_called place (given thing_in thing.now) tree.NoSuffix else none)) }
    ensures err { IfErr result (λ e. e ≡ Memory) }
{
    if is_last {
        as_called(alloc, place, thing)
    } else {
        Ok(None)
    }
}

/// What stood before a part that broke a rule, or stands before the next one where that breaks one.
pub fn kept(before: Option<Typed>, made: Option<Typed>, next: &Checked<Thing>) -> Option<Typed>
    ensures { result ≡ kept before made (given thing_in next.now) }
{
    match before {
        Some(t) => Some(t),
        None => match next {
            Checked::Broken(_) => made,
            Checked::Good(_) => None,
        },
    }
}

// ---- what a target breaks

/// E11, E18, E19, E21, E26, E47: the rules on a target that need its name alone.
fn name_stands(how: How, at: Place, t: &Typed) -> Result<(), Refusal>
    ensures { Gives result (parts.name_stands how at t.now) }
{
    let selects = selects_stand(how, t.target.moving());
    where_also(may_begin(how, at, t), selects)
}

/// The same of what stands before a part that breaks a rule, or else of the whole.
fn first_stands(how: How, at: Place, before: &Option<Typed>, whole: &Typed) -> Result<(), Refusal>
    ensures { Gives result (parts.first_stands how at before.now whole.now) }
{
    match before {
        Some(t) => name_stands(how, at, t),
        None => name_stands(how, at, whole),
    }
}

/// A target that breaks a rule, and what stands beside it.
fn also(f: Fault, stands: &Checked<()>) -> Checked<Seq<Spot>>
    ensures { result ≡ also_broken f stands.now }
{
    Checked::Broken(earlier_in(f, stands))
}

/// A target that breaks a rule, and what stands before its first broken part.
fn broken_step(
    how: How,
    place: Place,
    f: Fault,
    before: &Option<Typed>,
) -> Result<Checked<Seq<Spot>>, Refusal>
    ensures ok { IfOk result (λ c. c ≡ expressions.also_before how place f (or_else before.now none)) }
    ensures err { IfErr result (λ e. e ≡ Memory) }
{
    match before {
        Some(t) => {
            let stands = judged(name_stands(how, place, t))?;
            Ok(also(f, &stands))
        }
        None => Ok(Checked::Broken(f)),
    }
}

// ---- targets

/// A list of one part.
fn alone(alloc: Global, spot: Spot) -> Result<Seq<Spot>, Refusal>
    ensures ok { IfOk result (λ s. s ≡ spot ∷ []) }
    ensures err { IfErr result (λ e. e ≡ Memory) }
{
    let mut spots = Seq::new(alloc);
    spots.push(spot)?;
    Ok(spots)
}

/// A target of one part, and what a broken one breaks beside.
fn one_or(
    alloc: Global,
    spot: Checked<Spot>,
    stands: &Checked<()>,
) -> Result<Checked<Seq<Spot>>, Refusal>
    ensures ok { IfOk result (λ c. c ≡ parts.one_or spot stands.now) }
    ensures err { IfErr result (λ e. e ≡ Memory) }
{
    match spot {
        Checked::Good(spot) => {
            let spots = alone(alloc, spot)?;
            Ok(Checked::Good(spots))
        }
        Checked::Broken(f) => Ok(also(f, stands)),
    }
}

/// What is a target, as it is written.
fn written_step(
    alloc: Global,
    how: How,
    place: Place,
    t: Typed,
    before: &Option<Typed>,
) -> Result<Checked<Seq<Spot>>, Refusal>
    ensures ok { IfOk result (λ c. c
        ≡ parts.one_or (targets.may_be_written how place t) (parts.first_stands how place before.now t)) }
    ensures err { IfErr result (λ e. e ≡ Memory) }
{
    let stands = judged(first_stands(how, place, before, &t))?;
    let spot = judged(may_be_written(how, place, t))?;
    one_or(alloc, spot, &stands)
}

/// What is a target, as it is written, or else the rule that is broken.
#[tactic(auto, using(crate::proofs::BeforeLaws::written_is))]
fn spot_step(
    alloc: Global,
    how: How,
    place: Place,
    no_target: Fault,
    target: Option<Typed>,
    before: &Option<Typed>,
) -> Result<Checked<Seq<Spot>>, Refusal>
    ensures ok { IfOk result (λ c. c ≡ parts.spot_step how place no_target target before.now) }
    ensures err { IfErr result (λ e. e ≡ Memory) }
{
    match target {
        Some(t) => written_step(alloc, how, place, t, before),
        None => broken_step(how, place, no_target, before),
    }
}

/// A thing that breaks no rule, as a target.
fn thing_step(
    alloc: Global,
    around: &Around,
    how: How,
    place: Place,
    thing: Thing,
    before: &Option<Typed>,
) -> Result<Checked<Seq<Spot>>, Refusal>
    ensures ok { IfOk result (λ c. c
        ≡ parts.target_step (around_in around.now) how place (Good (thing_in thing.entry)) before.now) }
    ensures err { IfErr result (λ e. e ≡ Memory) }
{
    let no_target = thing.no_target(place);
    let target = thing.into_target(alloc, around)?;
    spot_step(alloc, how, place, no_target, target, before)
}

/// A thing as a target, or the rules that it breaks; `before` is what stood before a part that broke a rule.
pub fn target_step(
    alloc: Global,
    around: &Around,
    how: How,
    place: Place,
    thing: Checked<Thing>,
    before: Option<Typed>,
) -> Result<Checked<Seq<Spot>>, Refusal>
    ensures ok { IfOk result (λ c. c
        ≡ parts.target_step (around_in around.now) how place (given thing_in thing.entry) before) }
    ensures err { IfErr result (λ e. e ≡ Memory) }
{
    match thing {
        Checked::Good(thing) => thing_step(alloc, around, how, place, thing, &before),
        Checked::Broken(f) => broken_step(how, place, f, &before),
    }
}
