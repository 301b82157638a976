// Statements that hold no other one (IEEE 1800-2017, 9.6, 10.4, 12.8, 13 and 15.5.1).
ghost use Rattle.std.specs.Prelude.{OnOk};
ghost use Rattle.sv_tree.specs.StmtView as view;
ghost use Rattle.sv_names.specs.Writers as writers;
ghost use Rattle.sv_names.specs.Views.{around_in};
ghost use Rattle.sv_elab_touch.specs.Touched.{Touched};

use crate::inits::add_optional;
use crate::parts::{add_blocking, add_nonblocking, add_operated};
use std::alloc::Global;
use sv_elab_touch::{add_expr, add_lval, add_selects};
use sv_elab_writers::Touch;
use sv_names::{Around, How};
use sv_tree::{Body, Stmt};
use sv_value::{NoMemory, Seq};

/// Appends what a statement without expressions writes and calls, or another one that holds none.
#[tactic(auto, using(sv_elab_touch::proofs::TouchedLaws::touched_none))]
pub(crate) fn add_single(
    alloc: Global,
    s: &Stmt,
    around: &Around,
    touches: &mut Seq<Touch>,
) -> Result<(), NoMemory>
    ensures { OnOk result (Touched touches.old touches.new (writers.stmt_touches (around_in around.now) (view.stmt s.now))) }
{
    match &s.body {
        Body::Null => Ok(()),
        Body::WaitFork => Ok(()),
        Body::DisableFork => Ok(()),
        Body::Break => Ok(()),
        Body::Continue => Ok(()),
        _ => add_form(alloc, s, around, touches),
    }
}

/// Appends what a statement of one form with expressions writes and calls.
fn add_form(
    alloc: Global,
    s: &Stmt,
    around: &Around,
    touches: &mut Seq<Touch>,
) -> Result<(), NoMemory>
    ensures { OnOk result (Touched touches.old touches.new (writers.stmt_touches (around_in around.now) (view.stmt s.now))) }
{
    match &s.body {
        Body::Blocking(a) => add_blocking(alloc, a, around, touches),
        Body::Nonblocking(a) => add_nonblocking(alloc, a, around, touches),
        Body::Operator(a) => add_operated(alloc, a, around, touches),
        Body::Step(target, _) => add_lval(alloc, How::Statement, target, around, touches),
        Body::Call(e) => add_expr(alloc, e, around, touches),
        Body::Ignore(_, e) => add_expr(alloc, e, around, touches),
        Body::Trigger(target) => add_selects(alloc, target, around, touches),
        Body::Return(e) => add_optional(alloc, e, around, touches),
        _ => Err(NoMemory::Memory),
    }
}
