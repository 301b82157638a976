// Forms that hold no statement (IEEE 1800-2017, A.6).
ghost use Rattle.std.specs.Prelude.{◌≡◌, ℕ, ◌<◌};
ghost use Rattle.sv_grammar.specs.Code.Code.{Map};
ghost use Rattle.sv_tree.specs.declared.kind.Kind.TheVariants as k;
ghost use Rattle.sv_tree.specs.Codes.{toks};
ghost use Rattle.sv_tree.specs.Forms as forms;
ghost use Rattle.sv_tree.specs.StmtGrammar as grammar;
ghost use Rattle.sv_tree.specs.StmtView as view;
ghost use Rattle.sv_tree.specs.Grammar.{reads};
ghost use Rattle.sv_parse_stmt.specs.Fronts.{Begun};

use crate::assignments::{assignment, post_end};
use crate::for_parts::place_of_target;
use crate::front::{Front, Placed, ReadFront};
use std::alloc::Global;
use sv_parse::{Budget, Part, expect, expect_word, is_next, maybe, name, name_of};
use sv_parse_expr::{Exprs, call, lval, maybe_actuals, suffixes, targets};
use sv_tree::{Body, Expr, Kind, Root, StepWord, Token};

// ---- words alone

/// A word and `";"`, which stand for this form.
pub fn word_alone<'a>(tokens: &'a [Token], word: Kind, body: Body) -> ReadFront<'a>
    ensures { (d : ℕ) → Begun d result (reads d (grammar.form word (Map (λ t. view.body body) (forms.tok k.Semicolon))) (toks tokens.now)) }
{
    let (token, rest) = read!(expect(tokens, word));
    let (_, rest) = read!(expect(rest, Kind::Semicolon));
    Ok(Front::Whole(Placed { at: token.at, body }, rest))
}

/// `";"`
#[tactic(auto, unfolding(sv_tree::specs::StmtGrammar::null_statement))]
pub fn null<'a>(tokens: &'a [Token]) -> ReadFront<'a>
    ensures { (d : ℕ) → Begun d result (reads d grammar.null_statement (toks tokens.now)) }
{
    let (sign, rest) = read!(expect(tokens, Kind::Semicolon));
    let form = Placed {
        at: sign.at,
        body: Body::Null,
    };
    Ok(Front::Whole(form, rest))
}

/// `"disable" "fork" ";"`
#[tactic(auto, unfolding(sv_tree::specs::StmtGrammar::disable))]
pub fn disable<'a>(tokens: &'a [Token]) -> ReadFront<'a>
    ensures { (d : ℕ) → Begun d result (reads d grammar.disable (toks tokens.now)) }
{
    let (word, rest) = read!(expect(tokens, Kind::Disable));
    let (_, rest) = read!(expect(rest, Kind::Fork));
    let (_, rest) = read!(expect(rest, Kind::Semicolon));
    let form = Placed {
        at: word.at,
        body: Body::DisableFork,
    };
    Ok(Front::Whole(form, rest))
}

/// `"return" [expr] ";"`
#[tactic(auto, unfolding(sv_tree::specs::StmtGrammar::return_))]
pub fn return_from<'a>(alloc: Global, tokens: &'a [Token], budget: Budget) -> ReadFront<'a>
    ensures { Begun budget result (reads budget grammar.return_ (toks tokens.now)) }
{
    let (word, rest) = read!(expect(tokens, Kind::Return));
    let (value, rest) = read!(maybe::<Exprs>(alloc, rest, budget));
    let (_, rest) = read!(expect(rest, Kind::Semicolon));
    let form = Placed {
        at: word.at,
        body: Body::Return(value),
    };
    Ok(Front::Whole(form, rest))
}

// ---- a target after a word

/// `("++" | "--") lval ";"`
#[tactic(auto, unfolding(sv_tree::specs::StmtGrammar::step_statement))]
pub fn step<'a>(alloc: Global, tokens: &'a [Token], budget: Budget) -> ReadFront<'a>
    ensures { Begun budget result (reads budget grammar.step_statement (toks tokens.now)) }
{
    let ((sign, word), rest) = read!(expect_word::<StepWord>(tokens));
    let (target, rest) = read!(lval(alloc, rest, budget));
    let (_, rest) = read!(expect(rest, Kind::Semicolon));
    let form = Placed {
        at: sign.at,
        body: Body::Step(target, word),
    };
    Ok(Front::Whole(form, rest))
}

/// `"->" lval ";"`
#[tactic(auto, unfolding(sv_tree::specs::StmtGrammar::trigger))]
pub fn trigger<'a>(alloc: Global, tokens: &'a [Token], budget: Budget) -> ReadFront<'a>
    ensures { Begun budget result (reads budget grammar.trigger (toks tokens.now)) }
{
    let (sign, rest) = read!(expect(tokens, Kind::Arrow));
    let (target, rest) = read!(lval(alloc, rest, budget));
    let (_, rest) = read!(expect(rest, Kind::Semicolon));
    let form = Placed {
        at: sign.at,
        body: Body::Trigger(target),
    };
    Ok(Front::Whole(form, rest))
}

// ---- calls, and assignments that begin with no name

/// `"void" "'" "(" call ")" ";"`
#[tactic(auto, unfolding(sv_tree::specs::StmtGrammar::ignore))]
pub fn ignore<'a>(alloc: Global, tokens: &'a [Token], budget: Budget) -> ReadFront<'a>
    ensures { Begun budget result (reads budget grammar.ignore (toks tokens.now)) }
{
    let (word, rest) = read!(expect(tokens, Kind::Void));
    let (_, rest) = read!(expect(rest, Kind::Apostrophe));
    let (_, rest) = read!(expect(rest, Kind::LeftParenthesis));
    let (call, rest) = read!(call(alloc, rest, budget));
    let (_, rest) = read!(expect(rest, Kind::RightParenthesis));
    let (_, rest) = read!(expect(rest, Kind::Semicolon));
    let form = Placed {
        at: word.at,
        body: Body::Ignore(word.at, call),
    };
    Ok(Front::Whole(form, rest))
}

/// `sysname ["(" [list(expr)] ")"] ";"`
#[tactic(auto, unfolding(sv_tree::specs::StmtGrammar::system_statement, sv_tree::specs::ExprGrammar::system_call))]
pub fn system_statement<'a>(alloc: Global, tokens: &'a [Token], budget: Budget) -> ReadFront<'a>
    ensures { Begun budget result (reads budget grammar.system_statement (toks tokens.now)) }
{
    let (word, rest) = read!(expect(tokens, Kind::SystemName));
    let name = held!(name_of(word));
    let (actuals, rest) = read!(maybe_actuals(alloc, rest, budget));
    let (_, rest) = read!(expect(rest, Kind::Semicolon));
    let form = Placed {
        at: word.at,
        body: Body::Call(Expr::System(name, actuals)),
    };
    Ok(Front::Whole(form, rest))
}

/// `"this" {..}`, and an assignment to it or the end of a call
#[tactic(auto, using(crate::proofs::SimpleLaws::this_is))]
pub fn this_statement<'a>(alloc: Global, tokens: &'a [Token], budget: Budget) -> ReadFront<'a>
    ensures { Begun budget result (reads budget grammar.this_statement (toks tokens.now)) }
{
    let (word, rest) = read!(expect(tokens, Kind::This));
    let (list, rest) = read!(suffixes(alloc, rest, budget));
    let (body, rest) = read!(post_end(alloc, Root::This(word.at), list, rest, budget));
    Ok(Front::Whole(Placed { at: word.at, body }, rest))
}

/// `"super" "."` and `"new" [actuals] ";"`, or a member with what follows it
#[tactic(auto, using(crate::proofs::SimpleLaws::super_is, crate::proofs::SimpleLaws::super_new, crate::proofs::SimpleLaws::super_member))]
pub fn super_statement<'a>(alloc: Global, tokens: &'a [Token], budget: Budget) -> ReadFront<'a>
    ensures { Begun budget result (reads budget grammar.super_statement (toks tokens.now)) }
{
    let (word, rest) = read!(expect(tokens, Kind::Super));
    let (_, rest) = read!(expect(rest, Kind::Dot));
    let at = word.at;
    if is_next(rest, Kind::New) {
        let (new, rest) = read!(expect(rest, Kind::New));
        let (actuals, rest) = read!(maybe_actuals(alloc, rest, budget));
        let (_, rest) = read!(expect(rest, Kind::Semicolon));
        let new = new.at;
        let body = Body::Call(Expr::SuperNew { at, new, actuals });
        return Ok(Front::Whole(Placed { at, body }, rest));
    }
    let (name, rest) = read!(name(rest));
    let (list, rest) = read!(suffixes(alloc, rest, budget));
    let (body, rest) = read!(post_end(alloc, Root::Super(at, name), list, rest, budget));
    Ok(Front::Whole(Placed { at, body }, rest))
}

/// An assignment to targets in braces
#[tactic(auto, using(crate::proofs::SimpleLaws::targets_is))]
pub fn targets_statement<'a>(alloc: Global, tokens: &'a [Token], budget: Budget) -> ReadFront<'a>
    requires { 0 < budget }
    ensures { Begun budget result (reads budget grammar.targets_statement (toks tokens.now)) }
{
    let (target, rest) = read!(targets(alloc, tokens, budget));
    let at = place_of_target(&target);
    let (body, rest) = read!(assignment(alloc, target, rest, budget));
    Ok(Front::Whole(Placed { at, body }, rest))
}
