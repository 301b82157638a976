// `return` and `->` (IEEE 1800-2017, 12.8 and 15.5.1): E15, E16, E17, E29, E30, E42.
ghost use Rattle.std.specs.Prelude.{Some, option_map};
ghost use Rattle.sv_tree.specs.StmtView as view;
ghost use Rattle.sv_tree.specs.View as tree_view;
ghost use Rattle.sv_names.specs.Given.{Gives};
ghost use Rattle.sv_names.specs.Named.{raised};
ghost use Rattle.sv_names.specs.Statements as statements;
ghost use Rattle.sv_names.specs.Views.{around_in};
ghost use Rattle.sv_elab_flow.specs.Parts as parts;
ghost use Rattle.sv_elab_flow.specs.Returned as returned;

use std::alloc::Global;
use sv_elab_expr::{expr, named, place_of, place_of_root};
use sv_elab_flow::{
    bare, beside, needs_activation, place, raised, result_given, trigger_form, type_of,
};
use sv_flat::Form;
use sv_names::{Around, Checked, Fault, Hoisted, Refusal, Returns, Ty, answer, both, judged};
use sv_tree::{Expr, Lval, Stmt as TreeStmt};
use sv_value::{Place, Text};

// ---- `->`

/// `->e`, in variables of this activation.
fn trigger_once(alloc: Global, target: &Lval, around: &Around) -> Result<Hoisted<Form>, Refusal>
    ensures { Gives result (statements.triggered (around_in around.now) (view.lval target.now)) }
{
    match target {
        Lval::Post(root, suffixes) => match named(alloc, root, suffixes, around) {
            Ok(event) => trigger_form(place_of_root(root), event),
            Err(e) => Err(e),
        },
        Lval::Join(at, _) => Err(Refusal::Rule { rule: 15, at: *at }),
    }
}

/// `->e` (15.5.1). E15, E42: e is not one event.
#[tactic(auto, using(sv_elab_flow::proofs::RaisedLaws::raised_once, sv_elab_flow::proofs::RaisedLaws::raised_again))]
pub fn trigger(alloc: Global, target: &Lval, around: &Around) -> Result<Hoisted<Form>, Refusal>
    ensures { Gives result (raised (around_in around.now) (λ i. statements.triggered i (view.lval target.now))) }
{
    let form = trigger_once(alloc, target, around);
    if needs_activation(&form) {
        return trigger_once(alloc, target, &raised(around));
    }
    form
}

// ---- `return`

/// `return e` in a function.
fn result_of(
    alloc: Global,
    at: Place,
    function: &[Text],
    ty: &Checked<Ty>,
    e: &Expr,
    around: &Around,
) -> Result<Hoisted<Form>, Refusal>
    ensures { Gives result (returned.result_of (around_in around.now) at function.now ty.now (tree_view.expr e.now)) }
{
    match both(type_of(alloc, ty), expr(alloc, e, around)) {
        Ok((to, value)) => result_given(alloc, at, function, &to, place_of(e), value, around),
        Err(e) => Err(e),
    }
}

/// `return` with a value.
fn with_value(
    alloc: Global,
    at: Place,
    word: Place,
    e: &Expr,
    around: &Around,
) -> Result<Hoisted<Form>, Refusal>
    ensures { Gives result (statements.return_of (around_in around.now) at word (Some (tree_view.expr e.now)) around.now.returns.now) }
{
    match around.returns {
        Returns::Outside => {
            let value = judged(expr(alloc, e, around))?;
            beside(Fault { at: word, rule: 29 }, &value)
        }
        Returns::NoValue => {
            let value = judged(expr(alloc, e, around))?;
            beside(Fault { at: word, rule: 30 }, &value)
        }
        Returns::SomeValue(function, ty) => {
            result_of(alloc, at, function.as_slice(), ty, e, around)
        }
    }
}

/// `return`, in variables of this activation.
fn return_once(
    alloc: Global,
    s: &TreeStmt,
    value: &Option<Expr>,
    around: &Around,
) -> Result<Hoisted<Form>, Refusal>
    ensures { Gives result (statements.return_of (around_in around.now) (parts.place_of s.now) s.now.at
        (option_map tree_view.expr value.now) (around_in around.now).returns) }
{
    match value {
        None => bare(alloc, s.at, around.returns),
        Some(e) => with_value(alloc, place(s), s.at, e, around),
    }
}

/// `return` (12.8). E29: it stands in no subroutine, or in a fork; E30: a value where none is given, or none; E16, E17 and E42: it does not
/// fit by type.
#[tactic(auto, using(sv_elab_flow::proofs::RaisedLaws::raised_once, sv_elab_flow::proofs::RaisedLaws::raised_again))]
pub fn return_form(
    alloc: Global,
    s: &TreeStmt,
    value: &Option<Expr>,
    around: &Around,
) -> Result<Hoisted<Form>, Refusal>
    ensures { Gives result (raised (around_in around.now)
        (λ i. statements.return_of i (parts.place_of s.now) s.now.at (option_map tree_view.expr value.now) i.returns)) }
{
    let form = return_once(alloc, s, value, around);
    if needs_activation(&form) {
        return return_once(alloc, s, value, &raised(around));
    }
    form
}
