// The table of statements (IEEE 1800-2017, 9 to 12).
ghost use Rattle.std.specs.Prelude.{◌≡◌, List, map};
ghost use Rattle.sv_flat.specs.declared.class.Routine.{Routine as routine_type};
ghost use Rattle.sv_flat.specs.declared.object.Object.{Object as object};
ghost use Rattle.sv_flat.specs.declared.stmt.Form.{Form as form_of};
ghost use Rattle.sv_tree.specs.Stmt as tree;
ghost use Rattle.sv_tree.specs.StmtView as view;
ghost use Rattle.sv_tree.specs.View as tree_view;
ghost use Rattle.sv_names.specs.declared.checked.Checked.{Checked as checked};
ghost use Rattle.sv_names.specs.declared.hoisted.Hoisted.{Hoisted as hoisted};
ghost use Rattle.sv_names.specs.Blocks as blocks;
ghost use Rattle.sv_names.specs.Emits.{Emits};
ghost use Rattle.sv_names.specs.Given.{Gives};
ghost use Rattle.sv_names.specs.Statements as statements;
ghost use Rattle.sv_names.specs.Views.{around_in};
ghost use Rattle.sv_elab_flow.specs.Forks as forks;
ghost use Rattle.sv_elab_stmt.specs.Lists as lists;
ghost use Rattle.sv_elab_flow.specs.Parts as parts;
ghost use Rattle.sv_elab_flow.specs.Parts.{EmitsRoutine, EmitsOf};

use crate::delays::{cycles, delay};
use crate::events::at_event;
use crate::foreach::walked_array;
use crate::fors::step_routine;
use crate::single::single_statement;
use std::alloc::Global;
use sv_elab_block::{
    block_scope, block_stands, for_scope, for_stands, foreach_scope, foreach_stands,
};
use sv_elab_control::{case_heads, condition, may_wait_here};
use sv_elab_flow::{
    after, after_item, and_routine, block, case_made, do_loop, do_turn, enclosed, end_label,
    first_routine, for_loop, foreach_loop, forever, fork, fork_parts, fork_stands, guarded_code,
    if_else, if_only, in_event, in_fork, in_loop, in_sequence, inside, no_routine, nothing, place,
    repeat_loop, routine, then, two_routines, wait_form, while_loop,
};
use sv_elab_object::locals_of;
use sv_elab_variable::declarations;
use sv_elab_variable::sv_elab_write::{assign_value, first_value};
use sv_flat::{Declared, Form, Object, Routine, Stmt as FlatStmt};
use sv_names::{Around, Checked, Hoisted, Refusal, Returns, Scope, Typed, answer, both};
use sv_tree::{Body, CaseItem, Decl, Expr, ForInit, ForStep, JoinWord, Name, Stmt};
use sv_value::{RoutineId, Seq};

// ---- lists

/// Statements one after the other (9.3.1).
#[cycle(stmt)]
pub fn stmts(
    alloc: Global,
    list: &[Stmt],
    around: &Around,
    routines: &mut Seq<Routine>,
    objects: &mut Seq<Object>,
) -> Result<Seq<FlatStmt>, Refusal>
    ensures { Emits routines.old routines.new objects.old objects.new result
        (statements.stmts (around_in around.now) (view.stmt_list list.now)) }
{
    let mut done = nothing(alloc);
    let mut place = *around;
    for x in list {
        let one = stmt(alloc, x, &place, routines, objects);
        done = in_sequence(done, one);
        place = after(&place, x);
    }
    done
}

/// The children of a fork, each a routine (9.3.2).
#[cycle(stmt)]
fn children(
    alloc: Global,
    list: &[Stmt],
    whole: &Stmt,
    around: &Around,
    routines: &mut Seq<Routine>,
    objects: &mut Seq<Object>,
) -> Result<Seq<RoutineId>, Refusal>
    ensures { Emits routines.old routines.new objects.old objects.new result
        (statements.children (around_in around.now) (parts.place_of whole.now) (view.stmt_list list.now)) }
{
    let mut done = no_routine(alloc);
    let mut place = *around;
    for x in list {
        let one = branch(alloc, x, whole, &place, routines, objects);
        done = and_routine(done, one);
        place = after(&place, x);
    }
    done
}

/// The statements of the items of a `case`, each a routine (12.5).
#[cycle(stmt)]
fn items(
    alloc: Global,
    list: &[CaseItem],
    whole: &Stmt,
    around: &Around,
    routines: &mut Seq<Routine>,
    objects: &mut Seq<Object>,
) -> Result<Seq<RoutineId>, Refusal>
    ensures { EmitsOf (parts.routines_of (parts.place_of whole.now)) routines.old routines.new objects.old objects.new result
        (statements.items (around_in around.now) (view.case_item_list list.now)) }
{
    let mut done = no_routine(alloc);
    let mut place = *around;
    for x in list {
        let one = item(alloc, x, whole, &place, routines, objects);
        done = and_routine(done, one);
        place = after_item(&place, x);
    }
    done
}

/// The statement of an item of a `case`, a routine.
#[cycle(stmt)]
fn item(
    alloc: Global,
    x: &CaseItem,
    whole: &Stmt,
    around: &Around,
    routines: &mut Seq<Routine>,
    objects: &mut Seq<Object>,
) -> Result<RoutineId, Refusal>
    ensures { EmitsRoutine (parts.place_of whole.now) routines.old routines.new objects.old objects.new result
        (lists.item_code (around_in around.now) (view.case_item x.now tree.NoCaseItem)) }
{
    match x {
        CaseItem::Labels(_, s) => branch(alloc, s, whole, around, routines, objects),
        CaseItem::Default(s) => branch(alloc, s, whole, around, routines, objects),
    }
}

/// A routine of its own for a statement, at the place of the whole.
#[cycle(stmt)]
fn branch(
    alloc: Global,
    s: &Stmt,
    whole: &Stmt,
    around: &Around,
    routines: &mut Seq<Routine>,
    objects: &mut Seq<Object>,
) -> Result<RoutineId, Refusal>
    ensures { EmitsRoutine (parts.place_of whole.now) routines.old routines.new objects.old objects.new result
        (statements.stmt (around_in around.now) (view.stmt s.now)) }
{
    let body = stmt(alloc, s, around, routines, objects);
    routine(whole, body, routines)
}

// ---- the table

/// A statement, behind the routines and objects that stand so far: branches (12.4 and 12.5), or another one.
#[cycle(stmt)]
pub fn stmt(
    alloc: Global,
    s: &Stmt,
    around: &Around,
    routines: &mut Seq<Routine>,
    objects: &mut Seq<Object>,
) -> Result<Seq<FlatStmt>, Refusal>
    ensures { Emits routines.old routines.new objects.old objects.new result
        (statements.stmt (around_in around.now) (view.stmt s.now)) }
{
    match &s.body {
        Body::If(e, x) => {
            let test = condition(alloc, e, around);
            let yes = branch(alloc, x, s, around, routines, objects);
            if_only(alloc, s, test, yes)
        }
        Body::IfElse {
            condition: e,
            yes: x,
            no: y,
        } => {
            let test = condition(alloc, e, around);
            let yes = branch(alloc, x, s, around, routines, objects);
            let no = branch(alloc, y, s, &after(around, x), routines, objects);
            if_else(alloc, s, test, two_routines(yes, no))
        }
        Body::Case {
            word,
            subject,
            items: list,
        } => {
            let list = list.as_slice();
            let heads = case_heads(alloc, subject, list, around);
            let bodies = items(alloc, list, s, around, routines, objects);
            case_made(alloc, s, *word, list, heads, bodies)
        }
        _ => block_statement(alloc, s, around, routines, objects),
    }
}

/// A loop (12.7), or another statement.
#[cycle(stmt)]
fn loop_statement(
    alloc: Global,
    s: &Stmt,
    around: &Around,
    routines: &mut Seq<Routine>,
    objects: &mut Seq<Object>,
) -> Result<Seq<FlatStmt>, Refusal>
    ensures { Emits routines.old routines.new objects.old objects.new result
        (statements.stmt (around_in around.now) (view.stmt s.now)) }
{
    match &s.body {
        Body::While(e, x) => {
            let test = condition(alloc, e, around);
            let turn = branch(alloc, x, s, &in_loop(around), routines, objects);
            while_loop(alloc, s, test, turn)
        }
        Body::Do(x, e) => {
            let body = branch(alloc, x, s, &in_loop(around), routines, objects);
            let turn = do_turn(alloc, s, body, condition(alloc, e, around));
            do_loop(alloc, s, turn, routines)
        }
        Body::Repeat(e, x) => {
            let count = condition(alloc, e, around);
            let turn = branch(alloc, x, s, &in_loop(around), routines, objects);
            repeat_loop(alloc, s, count, turn)
        }
        Body::Forever(x) => {
            let turn = branch(alloc, x, s, &in_loop(around), routines, objects);
            forever(alloc, s, turn)
        }
        _ => waiting_statement(alloc, s, around, routines, objects),
    }
}

/// A statement that waits before another one (9.4), or any other.
#[cycle(stmt)]
fn waiting_statement(
    alloc: Global,
    s: &Stmt,
    around: &Around,
    routines: &mut Seq<Routine>,
    objects: &mut Seq<Object>,
) -> Result<Seq<FlatStmt>, Refusal>
    ensures { Emits routines.old routines.new objects.old objects.new result
        (statements.stmt (around_in around.now) (view.stmt s.now)) }
{
    match &s.body {
        Body::After(d, x) => {
            let control = delay(alloc, d, around);
            let body = stmt(alloc, x, around, routines, objects);
            guarded_code(then(alloc, s, control, body), may_wait_here(around, d.at))
        }
        Body::On(event, x) => {
            let first = routines.as_slice().len();
            let body = stmt(alloc, x, around, routines, objects);
            let waits = at_event(alloc, s, event, around, first, routines, body);
            guarded_code(waits, may_wait_here(around, s.at))
        }
        Body::Cycles {
            at,
            amount,
            body: x,
        } => {
            let control = cycles(alloc, *at, amount, around);
            let body = stmt(alloc, x, around, routines, objects);
            guarded_code(then(alloc, s, control, body), may_wait_here(around, *at))
        }
        Body::Wait {
            at,
            condition: e,
            body: x,
        } => {
            let control = wait_form(condition(alloc, e, &in_event(around)));
            let body = stmt(alloc, x, around, routines, objects);
            guarded_code(then(alloc, s, control, body), may_wait_here(around, *at))
        }
        _ => single_statement(alloc, s, around),
    }
}

// ---- blocks and forks

/// A block or a fork (9.3), or another statement.
#[cycle(stmt)]
fn block_statement(
    alloc: Global,
    s: &Stmt,
    around: &Around,
    routines: &mut Seq<Routine>,
    objects: &mut Seq<Object>,
) -> Result<Seq<FlatStmt>, Refusal>
    ensures { Emits routines.old routines.new objects.old objects.new result
        (statements.stmt (around_in around.now) (view.stmt s.now)) }
{
    match &s.body {
        Body::Block {
            name,
            decls,
            stmts: list,
            label,
        } => {
            let (decls, list) = (decls.as_slice(), list.as_slice());
            let block = block_in(alloc, list, s, name, decls, around, routines, objects);
            guarded_code(block, end_label(name, &s.label, label))
        }
        Body::Fork {
            name,
            decls,
            stmts: list,
            join,
            label,
        } => {
            let (decls, list) = (decls.as_slice(), list.as_slice());
            let fork = fork_in(
                alloc, list, s, name, decls, *join, around, routines, objects,
            );
            let labelled = guarded_code(fork, end_label(name, &s.label, label));
            guarded_code(labelled, fork_stands(around, s.at, *join))
        }
        _ => scoped_loop(alloc, s, around, routines, objects),
    }
}

/// A block in its scope.
#[cycle(stmt)]
fn block_in(
    alloc: Global,
    list: &[Stmt],
    s: &Stmt,
    name: &Option<Name>,
    decls: &[Decl],
    around: &Around,
    routines: &mut Seq<Routine>,
    objects: &mut Seq<Object>,
) -> Result<Seq<FlatStmt>, Refusal>
    ensures { Emits routines.old routines.new objects.old objects.new result
        (lists.block_in (around_in around.now) (parts.place_of s.now) (blocks.first_name name.now s.now.label)
        (map view.decl decls.now) (view.stmt_list list.now)) }
{
    let scope = block_scope(alloc, s, name, decls, list, around)?;
    let locals = locals_of(alloc, &scope, around)?;
    let body = block_body(alloc, list, decls, &scope, around, routines, objects);
    let held = block(alloc, s, locals, routine(s, body, routines));
    guarded_code(held, block_stands(alloc, &scope, decls, list, around))
}

/// The initializers and statements of a block.
#[cycle(stmt)]
fn block_body(
    alloc: Global,
    list: &[Stmt],
    decls: &[Decl],
    scope: &Scope,
    around: &Around,
    routines: &mut Seq<Routine>,
    objects: &mut Seq<Object>,
) -> Result<Seq<FlatStmt>, Refusal>
    ensures { Emits routines.old routines.new objects.old objects.new result
        (lists.block_body (blocks.inside scope.now (around_in around.now)) (map view.decl decls.now) (view.stmt_list list.now)) }
{
    let outer = *around;
    let scopes = enclosed(alloc, &*scope, outer.scopes)?;
    let inner = inside(&outer, scopes.as_slice());
    let first = declarations(alloc, decls, &inner, objects);
    let rest = stmts(alloc, list, &inner, routines, objects);
    in_sequence(first, rest)
}

/// A fork in its scope.
#[cycle(stmt)]
fn fork_in(
    alloc: Global,
    list: &[Stmt],
    s: &Stmt,
    name: &Option<Name>,
    decls: &[Decl],
    join: JoinWord,
    around: &Around,
    routines: &mut Seq<Routine>,
    objects: &mut Seq<Object>,
) -> Result<Seq<FlatStmt>, Refusal>
    ensures { Emits routines.old routines.new objects.old objects.new result
        (lists.fork_in (around_in around.now) (parts.place_of s.now) (blocks.first_name name.now s.now.label)
        (map view.decl decls.now) (view.stmt_list list.now) join) }
{
    let scope = block_scope(alloc, s, name, decls, list, around)?;
    let locals = locals_of(alloc, &scope, around)?;
    let made = fork_body(alloc, list, s, decls, &scope, around, routines, objects);
    let held = fork(alloc, s, locals, join, made);
    guarded_code(held, block_stands(alloc, &scope, decls, list, around))
}

/// The initializers and the children of a fork.
#[cycle(stmt)]
fn fork_body(
    alloc: Global,
    list: &[Stmt],
    s: &Stmt,
    decls: &[Decl],
    scope: &Scope,
    around: &Around,
    routines: &mut Seq<Routine>,
    objects: &mut Seq<Object>,
) -> Result<(Option<RoutineId>, Seq<RoutineId>), Refusal>
    ensures { EmitsOf (forks.fork_parts (parts.place_of s.now)) routines.old routines.new objects.old objects.new result
        (lists.fork_body (blocks.inside scope.now (around_in around.now)) (parts.place_of s.now) (map view.decl decls.now)
        (view.stmt_list list.now)) }
{
    let outer = *around;
    let scopes = enclosed(alloc, &*scope, outer.scopes)?;
    let inner = inside(&outer, scopes.as_slice());
    let first = declarations(alloc, decls, &inner, objects);
    let initializers = first_routine(s, first, routines);
    let outside = Returns::Outside;
    let place = in_fork(&inner, &outside);
    let rest = children(alloc, list, s, &place, routines, objects);
    fork_parts(initializers, rest)
}

// ---- loops with a scope

/// A `for` or a `foreach` (12.7.1 and 12.7.3), or another statement.
#[cycle(stmt)]
fn scoped_loop(
    alloc: Global,
    s: &Stmt,
    around: &Around,
    routines: &mut Seq<Routine>,
    objects: &mut Seq<Object>,
) -> Result<Seq<FlatStmt>, Refusal>
    ensures { Emits routines.old routines.new objects.old objects.new result
        (statements.stmt (around_in around.now) (view.stmt s.now)) }
{
    match &s.body {
        Body::For {
            init,
            condition,
            step,
            body,
        } => {
            let step = &**step;
            let body = &**body;
            match &**init {
                ForInit::Declare { of, name, value } => {
                    let scope = for_scope(alloc, of, name, body, around)?;
                    let held = for_in(
                        alloc, body, s, name, value, condition, step, &scope, around, routines,
                        objects,
                    );
                    guarded_code(held, for_stands(alloc, &scope, of, name, body))
                }
                ForInit::Assign(target, value) => {
                    let first = assign_value(alloc, target, value, around);
                    let none = Seq::new(alloc);
                    for_from(
                        alloc, body, s, none, first, condition, step, around, routines, objects,
                    )
                }
            }
        }
        Body::Foreach { array, index, body } => {
            let walked = walked_array(alloc, array, around)?;
            let scope = foreach_scope(alloc, &walked, index, body, around)?;
            let stands = foreach_stands(alloc, &scope, &walked, index, body);
            let held = foreach_in(alloc, body, s, walked, &scope, around, routines, objects);
            guarded_code(held, stands)
        }
        _ => loop_statement(alloc, s, around, routines, objects),
    }
}

/// A `for` in its scope.
#[cycle(stmt)]
fn for_in(
    alloc: Global,
    body: &Stmt,
    s: &Stmt,
    name: &Name,
    value: &Expr,
    test: &Expr,
    step: &ForStep,
    scope: &Scope,
    around: &Around,
    routines: &mut Seq<Routine>,
    objects: &mut Seq<Object>,
) -> Result<Seq<FlatStmt>, Refusal>
    ensures { Emits routines.old routines.new objects.old objects.new result
        (lists.for_in (around_in around.now) (parts.place_of s.now) scope.now name.now (tree_view.expr value.now)
        (tree_view.expr test.now) (view.for_step step.now) (view.stmt body.now)) }
{
    let locals = locals_of(alloc, &*scope, around)?;
    let outer = *around;
    let scopes = enclosed(alloc, &*scope, outer.scopes)?;
    let inner = inside(&outer, scopes.as_slice());
    let first = first_value(alloc, place(s), name, value, &inner);
    for_from(
        alloc, body, s, locals, first, test, step, &inner, routines, objects,
    )
}

/// A `for` behind its first assignment.
#[cycle(stmt)]
fn for_from(
    alloc: Global,
    body: &Stmt,
    s: &Stmt,
    locals: Seq<Declared>,
    first: Result<Hoisted<Form>, Refusal>,
    test: &Expr,
    step: &ForStep,
    around: &Around,
    routines: &mut Seq<Routine>,
    objects: &mut Seq<Object>,
) -> Result<Seq<FlatStmt>, Refusal>
    ensures { (x : checked (hoisted form_of)) → Gives first x
        → Emits routines.old routines.new objects.old objects.new result
        (lists.for_from (around_in around.now) (parts.place_of s.now) locals x (tree_view.expr test.now)
        (view.for_step step.now) (view.stmt body.now)) }
{
    let head = both(first, condition(alloc, test, around));
    let turn = branch(alloc, body, s, &in_loop(around), routines, objects);
    let next = step_routine(alloc, s, step, around, routines);
    for_loop(alloc, s, locals, head, two_routines(turn, next), routines)
}

/// A `foreach` in its scope.
#[cycle(stmt)]
fn foreach_in(
    alloc: Global,
    body: &Stmt,
    s: &Stmt,
    walked: Checked<Typed>,
    scope: &Scope,
    around: &Around,
    routines: &mut Seq<Routine>,
    objects: &mut Seq<Object>,
) -> Result<Seq<FlatStmt>, Refusal>
    ensures { Emits routines.old routines.new objects.old objects.new result
        (lists.foreach_in (around_in around.now) (parts.place_of s.now) scope.now walked (view.stmt body.now)) }
{
    let outer = *around;
    let scopes = enclosed(alloc, &*scope, outer.scopes)?;
    let inner = inside(&outer, scopes.as_slice());
    let turn = branch(alloc, body, s, &in_loop(&inner), routines, objects);
    foreach_loop(alloc, s, around, answer(walked), turn)
}
