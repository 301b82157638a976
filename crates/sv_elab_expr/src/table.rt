// The table of expressions and of targets (IEEE 1800-2017, 10.3, 11 and 13.5).
ghost use Rattle.std.specs.Prelude.{◌≡◌, [], IfOk, IfErr};
ghost use Rattle.sv_tree.specs.Expr as tree;
ghost use Rattle.sv_tree.specs.View as view;
ghost use Rattle.sv_names.specs.declared.refusal.Refusal.TheVariants.{Memory};
ghost use Rattle.sv_names.specs.Arguments as arguments;
ghost use Rattle.sv_names.specs.Checked.{given};
ghost use Rattle.sv_names.specs.Expressions as expressions;
ghost use Rattle.sv_names.specs.Views.{around_in};
ghost use Rattle.sv_names.specs.Given.{Gives};
ghost use Rattle.sv_elab_name.specs.Things.{thing_in};
ghost use Rattle.sv_elab_expr.specs.Walk.{stepped, arg_of, taken_of, target_if, name_as_target, name_as_value};

use crate::before::before_suffix;
use crate::dollar::last_index;
use crate::operands::{right_of, without_calls};
use crate::places::{place_of, place_of_cast, place_of_root};
use std::alloc::Global;
use sv_elab_name::sv_elab_value::counted;
use sv_elab_name::{Thing, judged_thing, outputs_behind, root_thing};
use sv_elab_step::{
    after, as_concatenation, behind_arg, behind_object, behind_spots, fault_of, first_output,
    first_type, in_index, kept, literal_text, more_outputs, no_constructor, outputs_of_system,
    part_step, select_step, system_of, system_value, target_step,
};
use sv_elab_thing::sv_elab_operator::{
    binary, choose, join, null, number, parts, repeat, string, time, unary,
};
use sv_elab_thing::sv_elab_select::Spot;
use sv_elab_thing::{call_step, cast, dollar_behind, member_step, value_step};
use sv_names::{Arg, Around, Checked, How, Refusal, Taken, Typed, answer, judged};
use sv_tree::{Actuals, Expr, Name, Root, Suffix};
use sv_value::{Place, Seq};

/// An expression with its type. Numbers and names, which come most often, stand here, and the others apart: a call clears the room for
/// what all forms that stand in one function keep.
#[cycle(elaborate)]
pub fn expr(alloc: Global, e: &Expr, around: &Around) -> Result<Typed, Refusal>
    ensures { Gives result (expressions.expr (around_in around.now) (view.expr e.now)) }
{
    match e {
        Expr::Number(at, text) => number(alloc, *at, text.bytes()),
        Expr::Post(root, suffixes) => named(alloc, root, suffixes, around),
        _ => apart(alloc, e, around),
    }
}

/// The same, for all other forms.
#[cycle(elaborate)]
#[inline(never)]
fn apart(alloc: Global, e: &Expr, around: &Around) -> Result<Typed, Refusal>
    ensures { Gives result (expressions.expr (around_in around.now) (view.expr e.now)) }
{
    match e {
        Expr::Time(at, text) => time(alloc, &around.scale, *at, text.bytes()),
        Expr::Join(at, items) => join(alloc, *at, joined(alloc, items, around)),
        Expr::Repeat {
            at,
            count,
            inner,
            items,
        } => {
            let n = counted(place_of(count), expr(alloc, count, around));
            let part = join(alloc, *inner, joined(alloc, items, around));
            repeat(alloc, *at, n, part)
        }
        Expr::Text(at, text) => string(alloc, *at, text.bytes()),
        Expr::Null(at) => null(alloc, *at),
        Expr::Dollar(at) => last_index(alloc, *at, around.dollar),
        Expr::Group(_, inner) => expr(alloc, inner, around),
        Expr::Cast(to, operand) => {
            let e = expr(alloc, operand, around);
            cast(alloc, to, place_of_cast(to), place_of(operand), around, e)
        }
        Expr::Unary { at, word, operand } => {
            let a = expr(alloc, operand, around);
            unary(alloc, *at, *word, place_of(operand), a)
        }
        Expr::Binary {
            word,
            at,
            left,
            right,
        } => {
            let a = expr(alloc, left, around);
            let place = right_of(*word, around);
            let place = after(&place, &a)?;
            let b = expr(alloc, right, &place);
            binary(
                alloc,
                around.classes,
                *word,
                *at,
                place_of(left),
                place_of(right),
                a,
                b,
            )
        }
        Expr::Choose { condition, yes, no } => {
            let c = expr(alloc, condition, around);
            let first = after(&without_calls(around), &c)?;
            let a = expr(alloc, yes, &first);
            let second = after(&first, &a)?;
            let b = expr(alloc, no, &second);
            choose(
                alloc,
                around.classes,
                place_of(condition),
                place_of(yes),
                place_of(no),
                c,
                a,
                b,
            )
        }
        Expr::System(name, actuals) => system(alloc, name, actuals, around),
        Expr::SuperNew { at, actuals, .. } => super_new(alloc, *at, actuals, around),
        Expr::Number(_, _) | Expr::Post(_, _) => Err(Refusal::Memory),
    }
}

// ---- names with what follows them

/// A name with what follows it, as a value.
#[cycle(elaborate)]
pub fn named(
    alloc: Global,
    root: &Root,
    suffixes: &[Suffix],
    around: &Around,
) -> Result<Typed, Refusal>
    ensures { Gives result (name_as_value (around_in around.now) root.now (view.suffix_list suffixes.now)) }
{
    match suffixes {
        [] => value_alone(alloc, root, around),
        _ => followed(alloc, root, suffixes, around),
    }
}

/// A name alone, as a value.
#[inline(never)]
fn value_alone(alloc: Global, root: &Root, around: &Around) -> Result<Typed, Refusal>
    ensures { Gives result (name_as_value (around_in around.now) root.now tree.NoSuffix) }
{
    let thing = judged_thing(root_thing(alloc, around, root))?;
    let value = value_step(alloc, around, place_of_root(root), thing)?;
    answer(value)
}

/// A name with what follows it, as a value.
#[cycle(elaborate)]
#[inline(never)]
fn followed(
    alloc: Global,
    root: &Root,
    suffixes: &[Suffix],
    around: &Around,
) -> Result<Typed, Refusal>
    ensures { Gives result (name_as_value (around_in around.now) root.now (view.suffix_list suffixes.now)) }
{
    let place = place_of_root(root);
    let thing = judged_thing(root_thing(alloc, around, root))?;
    let thing = behind_root(alloc, place, thing, suffixes, around)?;
    let value = value_step(alloc, around, place, thing)?;
    answer(value)
}

/// A thing, and what follows it, from the left, in an expression that begins at the place.
#[cycle(elaborate)]
pub fn behind_root<'a>(
    alloc: Global,
    place: Place,
    thing: Checked<Thing<'a>>,
    suffixes: &[Suffix],
    around: &Around<'a>,
) -> Result<Checked<Thing<'a>>, Refusal>
    ensures ok { IfOk result (λ c. given thing_in c
        ≡ expressions.things (around_in around.now) place (given thing_in thing.entry) (view.suffix_list suffixes.now)) }
    ensures err { IfErr result (λ e. e ≡ Memory) }
{
    let mut thing = thing;
    for suffix in suffixes {
        thing = step(alloc, place, thing, suffix, around)?;
    }
    Ok(thing)
}

/// One more suffix.
#[cycle(elaborate)]
fn step<'a>(
    alloc: Global,
    place: Place,
    thing: Checked<Thing<'a>>,
    suffix: &Suffix,
    around: &Around<'a>,
) -> Result<Checked<Thing<'a>>, Refusal>
    ensures ok { IfOk result (λ c. (rest : tree.Suffixes) → given thing_in c
        ≡ stepped (around_in around.now) place (given thing_in thing.entry) (view.suffix suffix.now rest)) }
    ensures err { IfErr result (λ e. e ≡ Memory) }
{
    match suffix {
        Suffix::Member(name) => member_step(alloc, around, place, thing, name),
        Suffix::Call(_, actuals) => call(alloc, place, thing, actuals, around),
        Suffix::Select(at, index) => select(alloc, place, thing, *at, index, around),
        Suffix::Part {
            at,
            word,
            left,
            right,
        } => {
            let dollar = dollar_behind(alloc, &thing)?;
            let fault = fault_of(&thing);
            let value = value_step(alloc, around, place, thing)?;
            let inner = in_index(&dollar, &value, around);
            let l = judged(expr(alloc, left, &inner))?;
            let r = judged(expr(alloc, right, &inner))?;
            let (pl, pr) = (place_of(left), place_of(right));
            part_step(alloc, *word, *at, place, pl, pr, fault, value, l, r)
        }
    }
}

/// A call of what stands before it.
#[cycle(elaborate)]
fn call<'a>(
    alloc: Global,
    place: Place,
    thing: Checked<Thing<'a>>,
    actuals: &[Expr],
    around: &Around<'a>,
) -> Result<Checked<Thing<'a>>, Refusal>
    ensures ok { IfOk result (λ c. given thing_in c
        ≡ expressions.called_with (around_in around.now) place (given thing_in thing.entry) (view.expr_list actuals.now)) }
    ensures err { IfErr result (λ e. e ≡ Memory) }
{
    let outputs = outputs_behind(alloc, &thing)?;
    let inner = behind_object(around, &thing);
    let args = args(alloc, outputs.as_slice(), actuals, &inner)?;
    call_step(alloc, around, place, thing, args)
}

/// `[i]`: a bit, or an item of an array.
#[cycle(elaborate)]
fn select<'a>(
    alloc: Global,
    place: Place,
    thing: Checked<Thing<'a>>,
    at: Place,
    index: &Expr,
    around: &Around<'a>,
) -> Result<Checked<Thing<'a>>, Refusal>
    ensures ok { IfOk result (λ c. given thing_in c
        ≡ expressions.selected_by (around_in around.now) place (given thing_in thing.entry) at (view.expr index.now)) }
    ensures err { IfErr result (λ e. e ≡ Memory) }
{
    let dollar = dollar_behind(alloc, &thing)?;
    let fault = fault_of(&thing);
    let value = value_step(alloc, around, place, thing)?;
    let inner = in_index(&dollar, &value, around);
    let i = judged(expr(alloc, index, &inner))?;
    select_step(alloc, around, at, place_of(index), fault, value, i)
}

// ---- system names

/// A system name as a value.
#[cycle(elaborate)]
fn system(alloc: Global, name: &Name, actuals: &Actuals, around: &Around) -> Result<Typed, Refusal>
    ensures { Gives result (expressions.expr (around_in around.now) (tree.System name.now (view.actuals actuals.now))) }
{
    let system = system_of(name.text.bytes());
    let ty = first_type(alloc, around, actuals)?;
    let args = actual_args(alloc, outputs_of_system(system, actuals), actuals, around)?;
    system_value(alloc, around, name.at, ty, args, system)
}

/// E38: `super.new` is no value.
#[cycle(elaborate)]
fn super_new(alloc: Global, at: Place, actuals: &Actuals, around: &Around) -> Result<Typed, Refusal>
    ensures { Gives result (expressions.no_constructor at
        (arguments.parts_of (expressions.actual_args (around_in around.now) [] (view.actuals actuals.now)))) }
{
    let args = actual_args(alloc, &[], actuals, around)?;
    no_constructor(at, parts(alloc, args))
}

/// The arguments between brackets, where some are written.
#[cycle(elaborate)]
fn actual_args(
    alloc: Global,
    outputs: &[bool],
    actuals: &Actuals,
    around: &Around,
) -> Result<Seq<Arg>, Refusal>
    ensures ok { IfOk result (λ as'. as'
        ≡ expressions.actual_args (around_in around.now) outputs.now (view.actuals actuals.now)) }
    ensures err { IfErr result (λ e. e ≡ Memory) }
{
    match actuals {
        Actuals::Unwritten => Ok(Seq::new(alloc)),
        Actuals::Written(items) => args(alloc, outputs, items, around),
    }
}

// ---- arguments and concatenations

/// The parts of a concatenation.
#[cycle(elaborate)]
fn joined(alloc: Global, items: &[Expr], around: &Around) -> Result<Seq<(Place, Typed)>, Refusal>
    ensures { Gives result (arguments.parts_of (expressions.args (around_in around.now) [] (view.expr_list items.now))) }
{
    let args = args(alloc, &[], items, around)?;
    parts(alloc, args)
}

/// The arguments of a call, each behind those before it; `outputs` tells from the first on which are taken as targets.
#[cycle(elaborate)]
pub fn args(
    alloc: Global,
    outputs: &[bool],
    actuals: &[Expr],
    around: &Around,
) -> Result<Seq<Arg>, Refusal>
    ensures ok { IfOk result (λ as'. as' ≡ expressions.args (around_in around.now) outputs.now (view.expr_list actuals.now)) }
    ensures err { IfErr result (λ e. e ≡ Memory) }
{
    let mut done = Seq::new(alloc);
    let mut place = *around;
    let mut outputs = outputs;
    for e in actuals {
        let a = arg(alloc, first_output(outputs), e, &place)?;
        place = behind_arg(&place, &a.taken);
        outputs = more_outputs(outputs);
        done.push(a)?;
    }
    Ok(done)
}

/// An argument, as it is taken.
#[cycle(elaborate)]
fn arg(alloc: Global, is_output: bool, e: &Expr, around: &Around) -> Result<Arg, Refusal>
    ensures ok { IfOk result (λ a. a ≡ arg_of (around_in around.now) is_output (view.expr e.now)) }
    ensures err { IfErr result (λ e. e ≡ Memory) }
{
    let text = literal_text(alloc, e)?;
    let taken = taken(alloc, is_output, e, around)?;
    Ok(Arg {
        at: place_of(e),
        text,
        taken,
    })
}

/// A target where one is wanted and can be, or a value.
#[cycle(elaborate)]
fn taken(alloc: Global, is_output: bool, e: &Expr, around: &Around) -> Result<Taken, Refusal>
    ensures ok { IfOk result (λ t. t ≡ taken_of (around_in around.now) is_output (view.expr e.now)) }
    ensures err { IfErr result (λ e. e ≡ Memory) }
{
    let target = target_where(alloc, is_output, e, around)?;
    match target {
        Some(target) => Ok(Taken::Target(target)),
        None => {
            let value = judged(expr(alloc, e, around))?;
            Ok(Taken::Value(value))
        }
    }
}

/// A target where one is wanted and can be.
#[cycle(elaborate)]
fn target_where(
    alloc: Global,
    is_wanted: bool,
    e: &Expr,
    around: &Around,
) -> Result<Option<Checked<Seq<Spot>>>, Refusal>
    ensures ok { IfOk result (λ t. t ≡ target_if (around_in around.now) is_wanted (view.expr e.now)) }
    ensures err { IfErr result (λ e. e ≡ Memory) }
{
    if is_wanted {
        target_in(alloc, How::Statement, e, around)
    } else {
        Ok(None)
    }
}

// ---- targets

/// An expression as a target; none where it can be none.
#[cycle(elaborate)]
pub fn target_in(
    alloc: Global,
    how: How,
    e: &Expr,
    around: &Around,
) -> Result<Option<Checked<Seq<Spot>>>, Refusal>
    ensures ok { IfOk result (λ t. t ≡ expressions.target_in how (around_in around.now) (view.expr e.now)) }
    ensures err { IfErr result (λ e. e ≡ Memory) }
{
    match e {
        Expr::Post(root, suffixes) => {
            let target = target_of_name(alloc, how, root, suffixes, around)?;
            Ok(Some(target))
        }
        Expr::Join(at, items) => {
            let parts = targets_in(alloc, how, items, around)?;
            as_concatenation(alloc, *at, parts)
        }
        _ => Ok(None),
    }
}

/// A name with what follows it, as a target.
#[cycle(elaborate)]
pub fn target_of_name(
    alloc: Global,
    how: How,
    root: &Root,
    suffixes: &[Suffix],
    around: &Around,
) -> Result<Checked<Seq<Spot>>, Refusal>
    ensures ok { IfOk result (λ c. c ≡ name_as_target how (around_in around.now) root.now (view.suffix_list suffixes.now)) }
    ensures err { IfErr result (λ e. e ≡ Memory) }
{
    match suffixes {
        [] => target_alone(alloc, how, root, around),
        _ => target_followed(alloc, how, root, suffixes, around),
    }
}

/// A name alone, as a target.
#[inline(never)]
fn target_alone(
    alloc: Global,
    how: How,
    root: &Root,
    around: &Around,
) -> Result<Checked<Seq<Spot>>, Refusal>
    ensures ok { IfOk result (λ c. c ≡ name_as_target how (around_in around.now) root.now tree.NoSuffix) }
    ensures err { IfErr result (λ e. e ≡ Memory) }
{
    let thing = judged_thing(root_thing(alloc, around, root))?;
    target_step(alloc, around, how, place_of_root(root), thing, None)
}

/// A name with what follows it, as a target.
#[cycle(elaborate)]
#[inline(never)]
fn target_followed(
    alloc: Global,
    how: How,
    root: &Root,
    suffixes: &[Suffix],
    around: &Around,
) -> Result<Checked<Seq<Spot>>, Refusal>
    ensures ok { IfOk result (λ c. c ≡ name_as_target how (around_in around.now) root.now (view.suffix_list suffixes.now)) }
    ensures err { IfErr result (λ e. e ≡ Memory) }
{
    let place = place_of_root(root);
    let mut thing = judged_thing(root_thing(alloc, around, root))?;
    let mut before = None;
    let mut left = suffixes.len();
    for suffix in suffixes {
        left -= 1;
        let made = before_suffix(alloc, around, place, &thing, suffix, left == 0)?;
        thing = step(alloc, place, thing, suffix, around)?;
        before = kept(before, made, &thing);
    }
    target_step(alloc, around, how, place, thing, before)
}

/// The parts of a concatenation as targets, each behind those before it.
#[cycle(elaborate)]
fn targets_in(
    alloc: Global,
    how: How,
    items: &[Expr],
    around: &Around,
) -> Result<Vec<Option<Checked<Seq<Spot>>>>, Refusal>
    ensures ok { IfOk result (λ ts. ts.items
        ≡ expressions.targets_in how (around_in around.now) (view.expr_list items.now)) }
    ensures err { IfErr result (λ e. e ≡ Memory) }
{
    let mut done = Vec::new(alloc);
    let mut place = *around;
    for e in items {
        let target = target_in(alloc, how, e, &place)?;
        place = behind_spots(&place, &target);
        done.push(target)?;
    }
    Ok(done)
}
