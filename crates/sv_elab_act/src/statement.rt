// The table of statements (IEEE 1800-2017, 9 and 12).
ghost use Rattle.std.specs.Prelude.{map, OnOk};
ghost use Rattle.sv_tree.specs.Stmt as tree;
ghost use Rattle.sv_tree.specs.StmtView as view;
ghost use Rattle.sv_tree.specs.View as tree_view;
ghost use Rattle.sv_names.specs.Blocks as blocks;
ghost use Rattle.sv_names.specs.Writers as writers;
ghost use Rattle.sv_names.specs.Views.{around_in};
ghost use Rattle.sv_elab_touch.specs.Touched.{Touched};
ghost use Rattle.sv_elab_act.specs.Acts as acts;

use crate::declarations::add_declarations;
use crate::declared::add_scope;
use crate::parts::{add_assigned, add_event, add_step};
use crate::scopes::{block_scope, for_scope, foreach_scope, within};
use crate::single::add_single;
use std::alloc::Global;
use sv_elab_flow::{after, after_item, inside};
use sv_elab_touch::{add_expr, add_exprs};
use sv_elab_writers::Touch;
use sv_names::{Around, Scope};
use sv_tree::{Body, CaseItem, Decl, Expr, ForInit, ForStep, Stmt};
use sv_value::{NoMemory, Seq};

// ---- lists

/// Appends what statements write, call and declare (9.3).
#[cycle(stmt)]
pub fn add_stmts(
    alloc: Global,
    list: &[Stmt],
    around: &Around,
    touches: &mut Seq<Touch>,
) -> Result<(), NoMemory>
    ensures { OnOk result (Touched touches.old touches.new
        (writers.stmts_touches (around_in around.now) (view.stmt_list list.now))) }
{
    let mut place = *around;
    for x in list {
        add_stmt(alloc, x, &place, touches)?;
        place = after(&place, x);
    }
    Ok(())
}

/// Appends what the items of a `case` write, call and declare (12.5).
#[cycle(stmt)]
fn add_items(
    alloc: Global,
    list: &[CaseItem],
    around: &Around,
    touches: &mut Seq<Touch>,
) -> Result<(), NoMemory>
    ensures { OnOk result (Touched touches.old touches.new
        (writers.items_touches (around_in around.now) (view.case_item_list list.now))) }
{
    let mut place = *around;
    for x in list {
        add_item(alloc, x, &place, touches)?;
        place = after_item(&place, x);
    }
    Ok(())
}

/// Appends what an item of a `case` writes, calls and declares.
#[cycle(stmt)]
#[tactic(auto, using(sv_elab_touch::proofs::TouchedLaws::touched_both))]
fn add_item(
    alloc: Global,
    x: &CaseItem,
    around: &Around,
    touches: &mut Seq<Touch>,
) -> Result<(), NoMemory>
    ensures { OnOk result (Touched touches.old touches.new
        (acts.item_touches (around_in around.now) (view.case_item x.now tree.NoCaseItem))) }
{
    match x {
        CaseItem::Labels(labels, s) => {
            add_exprs(alloc, labels.as_slice(), around, touches)?;
            add_stmt(alloc, s, around, touches)
        }
        CaseItem::Default(s) => add_stmt(alloc, s, around, touches),
    }
}

// ---- the table

/// Appends what a statement writes, calls and declares: a branch (12.4 and 12.5), or another one.
#[cycle(stmt)]
#[tactic(auto, using(sv_elab_touch::proofs::TouchedLaws::touched_both))]
pub fn add_stmt(
    alloc: Global,
    s: &Stmt,
    around: &Around,
    touches: &mut Seq<Touch>,
) -> Result<(), NoMemory>
    ensures { OnOk result (Touched touches.old touches.new
        (writers.stmt_touches (around_in around.now) (view.stmt s.now))) }
{
    match &s.body {
        Body::If(e, x) => {
            add_expr(alloc, e, around, touches)?;
            add_stmt(alloc, x, around, touches)
        }
        Body::IfElse { condition, yes, no } => {
            add_expr(alloc, condition, around, touches)?;
            add_stmt(alloc, yes, around, touches)?;
            add_stmt(alloc, no, &after(around, yes), touches)
        }
        Body::Case { subject, items, .. } => {
            add_expr(alloc, subject, around, touches)?;
            add_items(alloc, items.as_slice(), around, touches)
        }
        _ => add_loop(alloc, s, around, touches),
    }
}

/// Appends the same of a loop (12.7), or of another statement.
#[cycle(stmt)]
#[tactic(auto, using(sv_elab_touch::proofs::TouchedLaws::touched_both))]
fn add_loop(
    alloc: Global,
    s: &Stmt,
    around: &Around,
    touches: &mut Seq<Touch>,
) -> Result<(), NoMemory>
    ensures { OnOk result (Touched touches.old touches.new
        (writers.stmt_touches (around_in around.now) (view.stmt s.now))) }
{
    match &s.body {
        Body::While(e, x) => {
            add_expr(alloc, e, around, touches)?;
            add_stmt(alloc, x, around, touches)
        }
        Body::Do(x, e) => {
            add_stmt(alloc, x, around, touches)?;
            add_expr(alloc, e, around, touches)
        }
        Body::Repeat(e, x) => {
            add_expr(alloc, e, around, touches)?;
            add_stmt(alloc, x, around, touches)
        }
        Body::Forever(x) => add_stmt(alloc, x, around, touches),
        _ => add_waiting(alloc, s, around, touches),
    }
}

/// Appends the same of a statement that waits before another one (9.4), or of any other.
#[cycle(stmt)]
#[tactic(auto, using(sv_elab_touch::proofs::TouchedLaws::touched_both))]
fn add_waiting(
    alloc: Global,
    s: &Stmt,
    around: &Around,
    touches: &mut Seq<Touch>,
) -> Result<(), NoMemory>
    ensures { OnOk result (Touched touches.old touches.new
        (writers.stmt_touches (around_in around.now) (view.stmt s.now))) }
{
    match &s.body {
        Body::After(delay, x) => {
            add_expr(alloc, &delay.amount, around, touches)?;
            add_stmt(alloc, x, around, touches)
        }
        Body::On(event, x) => {
            add_event(alloc, event, around, touches)?;
            add_stmt(alloc, x, around, touches)
        }
        Body::Cycles { amount, body, .. } => {
            add_expr(alloc, amount, around, touches)?;
            add_stmt(alloc, body, around, touches)
        }
        Body::Wait {
            condition,
            body,
            ..
        } => {
            add_expr(alloc, condition, around, touches)?;
            add_stmt(alloc, body, around, touches)
        }
        _ => add_scoped(alloc, s, around, touches),
    }
}

// ---- statements with a scope

/// Appends the same of a block, a fork (9.3), a `for` or a `foreach` (12.7), or of any other statement.
#[cycle(stmt)]
fn add_scoped(
    alloc: Global,
    s: &Stmt,
    around: &Around,
    touches: &mut Seq<Touch>,
) -> Result<(), NoMemory>
    ensures { OnOk result (Touched touches.old touches.new
        (writers.stmt_touches (around_in around.now) (view.stmt s.now))) }
{
    match &s.body {
        Body::Block {
            name,
            decls,
            stmts,
            ..
        } => {
            let (decls, list) = (decls.as_slice(), stmts.as_slice());
            let scope = block_scope(alloc, s, name, decls, list, around)?;
            add_block(alloc, list, decls, &scope, around, touches)
        }
        Body::Fork {
            name,
            decls,
            stmts,
            ..
        } => {
            let (decls, list) = (decls.as_slice(), stmts.as_slice());
            let scope = block_scope(alloc, s, name, decls, list, around)?;
            add_block(alloc, list, decls, &scope, around, touches)
        }
        Body::For {
            init,
            condition,
            step,
            body,
        } => add_for(alloc, body, init, condition, step, around, touches),
        Body::Foreach { array, index, body } => {
            let scope = foreach_scope(alloc, array, index, body, around)?;
            add_foreach(alloc, body, &scope, around, touches)
        }
        _ => add_single(alloc, s, around, touches),
    }
}

/// Appends what a block with its scope declares, and what it writes and calls.
#[cycle(stmt)]
fn add_block(
    alloc: Global,
    list: &[Stmt],
    decls: &[Decl],
    scope: &Scope,
    around: &Around,
    touches: &mut Seq<Touch>,
) -> Result<(), NoMemory>
    ensures { OnOk result (Touched touches.old touches.new
        (acts.block_touches (blocks.inside scope.now (around_in around.now)) (map view.decl decls.now) (view.stmt_list list.now))) }
{
    add_scope(scope, touches)?;
    let outer = *around;
    let scopes = within(alloc, &*scope, outer.scopes)?;
    let inner = inside(&outer, scopes.as_slice());
    add_declarations(alloc, decls, &inner, touches)?;
    add_stmts(alloc, list, &inner, touches)
}

/// Appends what a `for` declares, writes and calls.
#[cycle(stmt)]
#[tactic(auto, using(sv_elab_touch::proofs::TouchedLaws::touched_both))]
fn add_for(
    alloc: Global,
    body: &Stmt,
    init: &ForInit,
    condition: &Expr,
    step: &ForStep,
    around: &Around,
    touches: &mut Seq<Touch>,
) -> Result<(), NoMemory>
    ensures { OnOk result (Touched touches.old touches.new (acts.for_touches (around_in around.now)
        (view.for_init init.now) (tree_view.expr condition.now) (view.for_step step.now) (view.stmt body.now))) }
{
    match init {
        ForInit::Declare { of, name, value } => {
            let scope = for_scope(alloc, of, name, body, around)?;
            add_for_within(alloc, body, value, condition, step, &scope, around, touches)
        }
        ForInit::Assign(target, value) => {
            add_assigned(alloc, target, value, around, touches)?;
            add_turns(alloc, body, condition, step, around, touches)
        }
    }
}

/// Appends the same of a `for` with its scope.
#[cycle(stmt)]
fn add_for_within(
    alloc: Global,
    body: &Stmt,
    value: &Expr,
    condition: &Expr,
    step: &ForStep,
    scope: &Scope,
    around: &Around,
    touches: &mut Seq<Touch>,
) -> Result<(), NoMemory>
    ensures { OnOk result (Touched touches.old touches.new
        (acts.for_inside (blocks.inside scope.now (around_in around.now)) (tree_view.expr value.now)
        (tree_view.expr condition.now) (view.for_step step.now) (view.stmt body.now))) }
{
    add_scope(scope, touches)?;
    let outer = *around;
    let scopes = within(alloc, &*scope, outer.scopes)?;
    let inner = inside(&outer, scopes.as_slice());
    add_expr(alloc, value, &inner, touches)?;
    add_turns(alloc, body, condition, step, &inner, touches)
}

/// Appends what the turns of a `for` write, call and declare.
#[cycle(stmt)]
#[tactic(auto, using(sv_elab_touch::proofs::TouchedLaws::touched_both))]
fn add_turns(
    alloc: Global,
    body: &Stmt,
    condition: &Expr,
    step: &ForStep,
    around: &Around,
    touches: &mut Seq<Touch>,
) -> Result<(), NoMemory>
    ensures { OnOk result (Touched touches.old touches.new (acts.turn_touches (around_in around.now)
        (tree_view.expr condition.now) (view.for_step step.now) (view.stmt body.now))) }
{
    add_expr(alloc, condition, around, touches)?;
    add_step(alloc, step, around, touches)?;
    add_stmt(alloc, body, around, touches)
}

/// Appends what a `foreach` with its scope declares, writes and calls.
#[cycle(stmt)]
fn add_foreach(
    alloc: Global,
    body: &Stmt,
    scope: &Scope,
    around: &Around,
    touches: &mut Seq<Touch>,
) -> Result<(), NoMemory>
    ensures { OnOk result (Touched touches.old touches.new
        (acts.foreach_touches (blocks.inside scope.now (around_in around.now)) (view.stmt body.now))) }
{
    add_scope(scope, touches)?;
    let outer = *around;
    let scopes = within(alloc, &*scope, outer.scopes)?;
    let inner = inside(&outer, scopes.as_slice());
    add_stmt(alloc, body, &inner, touches)
}
