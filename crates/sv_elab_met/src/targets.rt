// What continuous assignments write (IEEE 1800-2017, 10.3 and 23.3.3).
ghost use Rattle.std.specs.Prelude.{◌≡◌, ◌-◌, Some, length, map, take, IfOk};
ghost use Rattle.sv_tree.specs.StmtView as stmt_view;
ghost use Rattle.sv_tree.specs.UnitView as unit_view;
ghost use Rattle.sv_tree.specs.View as view;
ghost use Rattle.sv_names.specs.Assignments as assignments;
ghost use Rattle.sv_names.specs.Instances as instances;
ghost use Rattle.sv_names.specs.Sources as sources;
ghost use Rattle.sv_names.specs.Views.{around_in};
ghost use Rattle.sv_elab_writers.specs.Views.{touch_in, process_in};
ghost use Rattle.sv_elab_met.specs.Met as words;

use std::alloc::Global;
use sv_elab_touch::sv_elab_expr::place_of_root;
use sv_elab_touch::{add_lval, add_selects, add_target};
use sv_elab_writers::{Process, Touch, Writer};
use sv_names::{Around, How};
use sv_tree::{AssignItem, Expr, Lval, Name, Root};
use sv_value::{Excerpt, NoMemory, Place, Seq};

/// The first token of a target.
fn place_of_target(target: &Lval) -> Place
    ensures { result ≡ assignments.place_of_lval (stmt_view.lval target.now) }
{
    match target {
        Lval::Post(root, _) => place_of_root(root),
        Lval::Join(at, _) => *at,
    }
}

/// The first of touches, behind which so many stand.
fn before_last(touches: Seq<Touch>, behind: usize) -> Seq<Touch>
    ensures { result ≡ take (length touches - behind) touches }
{
    let count = touches.as_slice().len().saturating_sub(behind);
    let mut items = touches.into_vec();
    items.truncate(count);
    Seq::from_vec(items)
}

/// What a target writes, without what its selects do.
#[tactic(auto, using(crate::proofs::TargetLaws::front_alone))]
fn written_by(alloc: Global, target: &Lval, around: &Around) -> Result<Seq<Touch>, NoMemory>
    ensures { IfOk result (λ ts. map touch_in ts ≡ words.lval_written (around_in around.now) (stmt_view.lval target.now)) }
{
    let mut whole = Seq::new(alloc);
    add_lval(alloc, How::Continuous, target, around, &mut whole)?;
    let mut selects = Seq::new(alloc);
    add_selects(alloc, target, around, &mut selects)?;
    Ok(before_last(whole, selects.as_slice().len()))
}

/// The process of one assignment.
pub(crate) fn assigning(alloc: Global, a: &AssignItem, around: &Around) -> Result<Process, NoMemory>
    ensures { IfOk result (λ p. process_in p ≡ words.assigning (around_in around.now) (unit_view.assign_item a.now)) }
{
    let touches = written_by(alloc, &a.target, around)?;
    Ok(Process {
        at: place_of_target(&a.target),
        writer: Writer::Continuously,
        touches,
    })
}

/// A name as an expression.
fn plain_name(alloc: Global, at: Place, text: &Excerpt) -> Result<Expr, NoMemory>
    ensures { IfOk result (λ e. view.expr e ≡ instances.plain_name (record { at = at; text = text.now })) }
{
    let text = text.share()?;
    let name = Name { at, text };
    Ok(Expr::Post(Root::Plain(name), Vec::new(alloc)))
}

/// What a connection writes that is written as an expression.
pub(crate) fn expr_written(alloc: Global, e: &Expr, around: &Around) -> Result<Seq<Touch>, NoMemory>
    ensures { IfOk result (λ ts. map touch_in ts ≡ sources.expr_written (around_in around.now) (Some (view.expr e.now))) }
{
    let mut touches = Seq::new(alloc);
    add_target(alloc, How::Continuous, e, around, &mut touches)?;
    Ok(touches)
}

/// What a connection writes that is a name.
pub(crate) fn name_written(
    alloc: Global,
    at: Place,
    text: &Excerpt,
    around: &Around,
) -> Result<Seq<Touch>, NoMemory>
    ensures { IfOk result (λ ts. map touch_in ts ≡ sources.expr_written (around_in around.now)
        (Some (instances.plain_name (record { at = at; text = text.now })))) }
{
    let e = plain_name(alloc, at, text)?;
    expr_written(alloc, &e, around)
}
