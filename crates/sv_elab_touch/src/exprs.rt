// What expressions write and call (IEEE 1800-2017, 8.7, 10.3, 11 and 13).
ghost use Rattle.std.specs.Prelude.{◌≡◌, IfOk, OnOk};
ghost use Rattle.sv_tree.specs.Expr as tree;
ghost use Rattle.sv_tree.specs.View as view;
ghost use Rattle.sv_names.specs.Checked.{given};
ghost use Rattle.sv_names.specs.Expressions as expressions;
ghost use Rattle.sv_names.specs.Things.{dollar_in};
ghost use Rattle.sv_names.specs.Writers as writers;
ghost use Rattle.sv_names.specs.Views.{around_in};
ghost use Rattle.sv_elab_name.specs.Things.{thing_in};
ghost use Rattle.sv_elab_touch.specs.Touched.{Touched, name_touches, step_touches};

use crate::before::{begun, stepped};
use crate::calls::{add_bare, add_call, add_cast};
use crate::quiet::{are_numbers, is_object};
use std::alloc::Global;
use sv_elab_expr::place_of_root;
use sv_elab_expr::sv_elab_step::system_of;
use sv_elab_expr::sv_elab_thing::dollar_behind;
use sv_elab_name::Thing;
use sv_elab_writers::Touch;
use sv_names::{Around, Checked, Dollar};
use sv_tree::{Actuals, Expr, Root, Suffix};
use sv_value::{NoMemory, Place, Seq};

/// Where `$` stands for this.
fn with_dollar<'b, 'a: 'b>(dollar: &'b Dollar, around: &Around<'a>) -> Around<'b>
    ensures { around_in result ≡ expressions.with_dollar dollar.now (around_in around.now) }
{
    let outer = *around;
    Around { dollar, ..outer }
}

/// What `$` stands for behind a thing.
fn dollar_of(alloc: Global, thing: &Checked<Thing>) -> Result<Dollar, NoMemory>
    ensures { IfOk result (λ d. d ≡ dollar_in (given thing_in thing.now)) }
{
    match dollar_behind(alloc, thing) {
        Ok(dollar) => Ok(dollar),
        Err(_) => Err(NoMemory::Memory),
    }
}

/// Appends what an expression writes and calls.
#[cycle(exprs)]
#[tactic(auto, using(crate::proofs::TouchedLaws::touched_none, crate::proofs::TouchedLaws::touched_both))]
pub fn add_expr(
    alloc: Global,
    e: &Expr,
    around: &Around,
    touches: &mut Seq<Touch>,
) -> Result<(), NoMemory>
    ensures { OnOk result (Touched touches.old touches.new (writers.expr_touches (around_in around.now) (view.expr e.now))) }
{
    match e {
        Expr::Group(_, inner) => add_expr(alloc, inner, around, touches),
        Expr::Post(root, suffixes) => add_name(alloc, root, suffixes, around, touches),
        Expr::System(name, actuals) => {
            add_cast(
                alloc,
                system_of(name.text.bytes()),
                actuals,
                around,
                touches,
            )?;
            add_actuals(alloc, actuals, around, touches)
        }
        Expr::SuperNew { actuals, .. } => add_actuals(alloc, actuals, around, touches),
        Expr::Join(_, items) => add_exprs(alloc, items, around, touches),
        Expr::Repeat { items, .. } => add_exprs(alloc, items, around, touches),
        Expr::Cast(_, operand) => add_expr(alloc, operand, around, touches),
        Expr::Unary { operand, .. } => add_expr(alloc, operand, around, touches),
        Expr::Binary { left, right, .. } => {
            add_expr(alloc, left, around, touches)?;
            add_expr(alloc, right, around, touches)
        }
        Expr::Choose { condition, yes, no } => {
            add_expr(alloc, condition, around, touches)?;
            add_expr(alloc, yes, around, touches)?;
            add_expr(alloc, no, around, touches)
        }
        Expr::Number(_, _) | Expr::Time(_, _) | Expr::Text(_, _) => Ok(()),
        Expr::Null(_) | Expr::Dollar(_) => Ok(()),
    }
}

/// Appends what arguments write and call, where brackets are written.
#[cycle(exprs)]
#[tactic(auto, using(crate::proofs::TouchedLaws::touched_none))]
pub fn add_actuals(
    alloc: Global,
    actuals: &Actuals,
    around: &Around,
    touches: &mut Seq<Touch>,
) -> Result<(), NoMemory>
    ensures { OnOk result (Touched touches.old touches.new
        (writers.actuals_touches (around_in around.now) (view.actuals actuals.now))) }
{
    match actuals {
        Actuals::Unwritten => Ok(()),
        Actuals::Written(items) => add_exprs(alloc, items, around, touches),
    }
}

/// Appends what expressions write and call.
#[cycle(exprs)]
pub fn add_exprs(
    alloc: Global,
    items: &[Expr],
    around: &Around,
    touches: &mut Seq<Touch>,
) -> Result<(), NoMemory>
    ensures { OnOk result (Touched touches.old touches.new
        (writers.exprs_touches (around_in around.now) (view.expr_list items.now))) }
{
    for e in items {
        add_expr(alloc, e, around, touches)?;
    }
    Ok(())
}

/// Appends what a name with what follows it writes and calls.
#[cycle(exprs)]
#[tactic(auto, using(crate::proofs::TouchedLaws::touched_none))]
pub(crate) fn add_name(
    alloc: Global,
    root: &Root,
    suffixes: &[Suffix],
    around: &Around,
    touches: &mut Seq<Touch>,
) -> Result<(), NoMemory>
    ensures { OnOk result (Touched touches.old touches.new
        (name_touches (around_in around.now) root.now (view.suffix_list suffixes.now))) }
{
    if are_numbers(suffixes) && is_object(root, around) {
        return Ok(());
    }
    let thing = begun(alloc, root, around)?;
    add_suffixes(alloc, place_of_root(root), thing, suffixes, around, touches)
}

/// Appends what a thing with what follows it writes and calls, in an expression that begins at the place.
#[cycle(exprs)]
fn add_suffixes<'a>(
    alloc: Global,
    place: Place,
    thing: Checked<Thing<'a>>,
    suffixes: &[Suffix],
    around: &Around<'a>,
    touches: &mut Seq<Touch>,
) -> Result<(), NoMemory>
    ensures { OnOk result (Touched touches.old touches.new
        (writers.suffix_touches (around_in around.now) place (given thing_in thing.entry) (view.suffix_list suffixes.now))) }
{
    let mut thing = thing;
    for suffix in suffixes {
        add_suffix(alloc, &thing, suffix, around, touches)?;
        thing = stepped(alloc, place, thing, suffix, around)?;
    }
    add_bare(alloc, &thing, around, touches)
}

/// Appends what one suffix behind a thing writes and calls.
#[cycle(exprs)]
#[tactic(auto, using(crate::proofs::TouchedLaws::touched_both))]
fn add_suffix(
    alloc: Global,
    thing: &Checked<Thing>,
    suffix: &Suffix,
    around: &Around,
    touches: &mut Seq<Touch>,
) -> Result<(), NoMemory>
    ensures { OnOk result ((rest : tree.Suffixes) → Touched touches.old touches.new
        (step_touches (around_in around.now) (given thing_in thing.now) (view.suffix suffix.now rest))) }
{
    match suffix {
        Suffix::Member(_) => add_bare(alloc, thing, around, touches),
        Suffix::Call(_, actuals) => {
            add_call(alloc, thing, actuals, around, touches)?;
            add_exprs(alloc, actuals, around, touches)
        }
        Suffix::Select(_, index) => {
            add_bare(alloc, thing, around, touches)?;
            let dollar = dollar_of(alloc, thing)?;
            let inner = with_dollar(&dollar, around);
            add_expr(alloc, index, &inner, touches)
        }
        Suffix::Part { left, .. } => {
            add_bare(alloc, thing, around, touches)?;
            add_expr(alloc, left, around, touches)
        }
    }
}
