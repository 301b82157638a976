// Calls that are statements (IEEE 1800-2017, 13, 20 and 21): E7, E38, and the rules of what is called.
ghost use Rattle.std.specs.Prelude.{List, []};
ghost use Rattle.sv_flat.specs.declared.class.Routine.{Routine as routine};
ghost use Rattle.sv_flat.specs.declared.object.Object.{Object as object};
ghost use Rattle.sv_tree.specs.Expr as tree;
ghost use Rattle.sv_tree.specs.View as view;
ghost use Rattle.sv_names.specs.Arguments as arguments;
ghost use Rattle.sv_names.specs.Checked.{broken_at, ◌where_also◌};
ghost use Rattle.sv_names.specs.Emits.{Emits};
ghost use Rattle.sv_names.specs.Expressions as expressions;
ghost use Rattle.sv_names.specs.Statements as statements;
ghost use Rattle.sv_names.specs.Views.{around_in};
ghost use Rattle.sv_elab_flow.specs.Parts as parts;

use crate::actuals::actual_args;
use crate::called::name_called;
use crate::tasks::{ignored_task, task};
use std::alloc::Global;
use sv_elab_expr::place_of;
use sv_elab_expr::sv_elab_value::values_stand;
use sv_elab_flow::single;
use sv_flat::Stmt;
use sv_names::{Around, Refusal, first};
use sv_tree::{Actuals, Expr, Stmt as TreeStmt};
use sv_value::{Place, Seq};

/// E38: `super.new` stands only as the first statement of a constructor.
fn no_constructor(
    alloc: Global,
    at: Place,
    actuals: &Actuals,
    around: &Around,
) -> Result<Seq<Stmt>, Refusal>
    ensures { (rs : List routine) (os : List object) → Emits rs rs os os result
        (broken_at 38 at where_also arguments.values_stand (expressions.actual_args (around_in around.now) [] (view.actuals actuals.now))) }
{
    let args = actual_args(alloc, &[], actuals, around)?;
    match values_stand(args.as_slice()) {
        Ok(()) => Err(Refusal::Rule { rule: 38, at }),
        Err(e) => Err(first(Refusal::Rule { rule: 38, at }, e)),
    }
}

/// A call that is a statement (13.3 and 13.4). E7: it is no call, or names what cannot be called; E38: it is `super.new`.
pub fn call(alloc: Global, s: &TreeStmt, e: &Expr, around: &Around) -> Result<Seq<Stmt>, Refusal>
    ensures { (rs : List routine) (os : List object)
        → Emits rs rs os os result (statements.call_of (around_in around.now) (parts.place_of s.now) (view.expr e.now)) }
{
    match e {
        Expr::Post(root, suffixes) => {
            single(alloc, s, name_called(alloc, false, root, suffixes, around))
        }
        Expr::System(name, actuals) => single(alloc, s, task(alloc, name, actuals, around)),
        Expr::SuperNew { at, actuals, .. } => no_constructor(alloc, *at, actuals, around),
        Expr::Number(_, _) | Expr::Time(_, _) | Expr::Text(_, _) | Expr::Null(_) => no_call(e),
        Expr::Dollar(_) | Expr::Group(_, _) | Expr::Join(_, _) => no_call(e),
        Expr::Repeat { .. } | Expr::Cast(_, _) | Expr::Unary { .. } => no_call(e),
        Expr::Binary { .. } | Expr::Choose { .. } => no_call(e),
    }
}

/// E7: no call.
fn no_call(e: &Expr) -> Result<Seq<Stmt>, Refusal>
    ensures { (rs : List routine) (os : List object) → Emits rs rs os os result (broken_at 7 (tree.place_of (view.expr e.now))) }
{
    Err(Refusal::Rule {
        rule: 7,
        at: place_of(e),
    })
}

/// `void'(..)`, which drops the value of a call (13.4.1). E7: it is no call, or names what cannot be called; E32: the call gives no value;
/// E38: it is `super.new`.
pub fn ignored_call(
    alloc: Global,
    s: &TreeStmt,
    e: &Expr,
    around: &Around,
) -> Result<Seq<Stmt>, Refusal>
    ensures { (rs : List routine) (os : List object)
        → Emits rs rs os os result (statements.ignored (around_in around.now) (parts.place_of s.now) (view.expr e.now)) }
{
    match e {
        Expr::Post(root, suffixes) => {
            single(alloc, s, name_called(alloc, true, root, suffixes, around))
        }
        Expr::System(name, actuals) => {
            single(alloc, s, ignored_task(alloc, name, actuals, around))
        }
        Expr::SuperNew { at, actuals, .. } => no_constructor(alloc, *at, actuals, around),
        Expr::Number(_, _) | Expr::Time(_, _) | Expr::Text(_, _) | Expr::Null(_) => no_call(e),
        Expr::Dollar(_) | Expr::Group(_, _) | Expr::Join(_, _) => no_call(e),
        Expr::Repeat { .. } | Expr::Cast(_, _) | Expr::Unary { .. } => no_call(e),
        Expr::Binary { .. } | Expr::Choose { .. } => no_call(e),
    }
}
