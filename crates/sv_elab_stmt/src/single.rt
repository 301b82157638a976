// Statements that hold no other one (IEEE 1800-2017, 9.6, 10.4, 12.8, 13, 15.5.1 and 20).
ghost use Rattle.std.specs.Prelude.{List};
ghost use Rattle.sv_flat.specs.declared.class.Routine.{Routine as routine};
ghost use Rattle.sv_flat.specs.declared.object.Object.{Object as object};
ghost use Rattle.sv_tree.specs.StmtView as view;
ghost use Rattle.sv_names.specs.Emits.{Emits};
ghost use Rattle.sv_names.specs.Statements as statements;
ghost use Rattle.sv_names.specs.Views.{around_in};

use std::alloc::Global;
use sv_elab_control::{may_wait_here, return_form, trigger};
use sv_elab_flow::{guarded_code, plain_code, plain_guarded, single};
use sv_elab_task::{call, ignored_call};
use sv_elab_value::rule;
use sv_elab_variable::sv_elab_write::{assigned, later, operated, stepped, timed};
use sv_flat::{Form, Stmt as FlatStmt};
use sv_names::{Around, Refusal};
use sv_tree::{Body, Stmt};
use sv_value::Seq;

/// A statement without expressions, or another one that holds none. E27: it waits where nothing may; E29: it leaves no loop.
pub fn single_statement(alloc: Global, s: &Stmt, around: &Around) -> Result<Seq<FlatStmt>, Refusal>
    ensures { (rs : List routine) (os : List object)
        → Emits rs rs os os result (statements.stmt (around_in around.now) (view.stmt s.now)) }
{
    match &s.body {
        Body::Null => plain_code(alloc, s, Form::Null),
        Body::WaitFork => plain_guarded(alloc, s, Form::WaitFork, may_wait_here(around, s.at)),
        Body::DisableFork => plain_code(alloc, s, Form::DisableFork),
        Body::Break => plain_guarded(alloc, s, Form::Break, rule(29, s.at, !around.is_loop)),
        Body::Continue => plain_guarded(alloc, s, Form::Continue, rule(29, s.at, !around.is_loop)),
        _ => form_statement(alloc, s, around),
    }
}

/// A statement of one form with expressions.
fn form_statement(alloc: Global, s: &Stmt, around: &Around) -> Result<Seq<FlatStmt>, Refusal>
    ensures { (rs : List routine) (os : List object)
        → Emits rs rs os os result (statements.stmt (around_in around.now) (view.stmt s.now)) }
{
    match &s.body {
        Body::Blocking(a) => {
            let a = &**a;
            let form = assigned(alloc, a, around);
            guarded_code(single(alloc, s, form), timed(around, &a.delay))
        }
        Body::Nonblocking(a) => single(alloc, s, later(alloc, a, around)),
        Body::Operator(a) => single(alloc, s, operated(alloc, a, around)),
        Body::Step(target, word) => single(alloc, s, stepped(alloc, target, *word, around)),
        Body::Call(e) => call(alloc, s, e, around),
        Body::Ignore(_, e) => ignored_call(alloc, s, e, around),
        Body::Trigger(target) => single(alloc, s, trigger(alloc, target, around)),
        Body::Return(e) => single(alloc, s, return_form(alloc, s, e, around)),
        _ => Err(Refusal::Memory),
    }
}
