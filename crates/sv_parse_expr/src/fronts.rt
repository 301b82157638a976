// The parts of operands before their first expression, and what is made once that is read.
ghost use Rattle.std.specs.Prelude.{◌≡◌, ℕ, ◌+◌, ◌<◌, ◌≤◌, IfOk, map};
ghost use Rattle.sv_tree.specs.Codes.{toks};
ghost use Rattle.sv_tree.specs.Depth.{actuals_depth, depth, most_depth, suffixes_depth};
ghost use Rattle.sv_tree.specs.View as view;
ghost use Rattle.sv_tree.specs.Expr as tree;
ghost use Rattle.sv_tree.specs.Forms.{stacked};
ghost use Rattle.sv_tree.specs.Grammar.{reads};
ghost use Rattle.sv_tree.specs.ExprGrammar as grammar;
ghost use Rattle.sv_parse_expr.specs.Fronts.{Begun, Fits, bracketed, called};

use crate::begins::begins_cast;
use crate::casts::cast_word;
use crate::measured::Measured;
use crate::posts::{named_root, scope};
use std::alloc::Global;
use sv_parse::{Budget, Read, ReadError, expect, is_next, name, name_of};
use sv_tree::{Actuals, CastType, Expr, Kind, Name, Root, Token};
use sv_value::{NoMemory, Place};

/// What stands before an expression in parentheses.
#[derive(Drop)]
pub enum Opening {
    Group(Place),
    Cast(CastType),
}

/// What is called with arguments that may be left out.
#[derive(Drop)]
pub enum Callee {
    System(Name),
    SuperNew { at: Place, new: Place },
}

/// The part of an operand before its first expression.
#[derive(Drop)]
pub enum Front {
    /// All of the operand.
    Whole(Expr),
    /// An expression and `)` are left, with this budget.
    Bracket(Opening, Budget),
    /// Arguments that may be left out are left.
    Call(Callee),
    /// What may follow a name is left.
    Post(Root),
    /// Braces are left, for what stands in them with this budget.
    Braces(Budget),
}

// ---- fronts

/// A number, or one that is the width of a cast.
#[tactic(auto, using(crate::proofs::Known::cast_low, crate::proofs::Budgets::reach_one), unfolding(sv_tree::specs::ExprGrammar::number, sv_tree::specs::ExprGrammar::cast))]
fn number(tokens: &[Token], budget: Budget) -> Read<Front>
    ensures reads { Begun budget result (reads budget grammar.number (toks tokens.now)) }
    ensures fits { IfOk result (λ x. Fits budget x.0) }
{
    let (token, rest) = read!(expect(tokens, Kind::Number));
    let text = held!(token.text.share());
    if !is_next(rest, Kind::Apostrophe) {
        return Ok((Front::Whole(Expr::Number(token.at, text)), rest));
    }
    let inner = read!(budget.deeper(rest));
    let (_, rest) = read!(expect(rest, Kind::Apostrophe));
    let (_, rest) = read!(expect(rest, Kind::LeftParenthesis));
    Ok((
        Front::Bracket(Opening::Cast(CastType::Width(token.at, text)), inner),
        rest,
    ))
}

/// A name, before a cast or what may follow it.
#[tactic(auto, using(crate::proofs::Known::cast_low, crate::proofs::Known::post_rest_low, crate::proofs::Budgets::reach_one), unfolding(sv_tree::specs::ExprGrammar::named, sv_tree::specs::ExprGrammar::cast, sv_tree::specs::ExprGrammar::post_rest, sv_tree::specs::ExprGrammar::suffixes))]
fn named(tokens: &[Token], budget: Budget) -> Read<Front>
    ensures reads { Begun budget result (reads budget grammar.named (toks tokens.now)) }
    ensures fits { IfOk result (λ x. Fits budget x.0) }
{
    let (first, rest) = read!(name(tokens));
    if !is_next(rest, Kind::Apostrophe) {
        let (second, rest) = read!(scope(rest));
        return Ok((Front::Post(named_root(first, second)), rest));
    }
    let inner = read!(budget.deeper(rest));
    let (_, rest) = read!(expect(rest, Kind::Apostrophe));
    let (_, rest) = read!(expect(rest, Kind::LeftParenthesis));
    Ok((
        Front::Bracket(Opening::Cast(CastType::Named(first)), inner),
        rest,
    ))
}

/// `(` before an expression, for which this budget is left.
#[tactic(auto, unfolding(sv_tree::specs::ExprGrammar::group))]
fn group<'a>(tokens: &'a [Token], inner: Budget) -> Read<'a, Front>
    requires { inner < most_depth }
    ensures reads { Begun (inner + 1) result (reads (inner + 1) grammar.group (toks tokens.now)) }
    ensures fits { IfOk result (λ x. Fits (inner + 1) x.0) }
{
    let (open, rest) = read!(expect(tokens, Kind::LeftParenthesis));
    Ok((Front::Bracket(Opening::Group(open.at), inner), rest))
}

/// A type word before an expression that is cast to it, for which this budget is left.
#[tactic(auto, unfolding(sv_tree::specs::ExprGrammar::word_cast, sv_tree::specs::ExprGrammar::cast))]
fn word<'a>(tokens: &'a [Token], inner: Budget) -> Read<'a, Front>
    requires { inner < most_depth }
    ensures reads { Begun (inner + 1) result (reads (inner + 1) grammar.word_cast (toks tokens.now)) }
    ensures fits { IfOk result (λ x. Fits (inner + 1) x.0) }
{
    let (to, rest) = read!(cast_word(tokens));
    let (_, rest) = read!(expect(rest, Kind::Apostrophe));
    let (_, rest) = read!(expect(rest, Kind::LeftParenthesis));
    Ok((Front::Bracket(Opening::Cast(to), inner), rest))
}

/// `this`
#[tactic(auto, unfolding(sv_tree::specs::ExprGrammar::this, sv_tree::specs::ExprGrammar::this_post, sv_tree::specs::ExprGrammar::suffixes))]
fn this(tokens: &[Token]) -> Read<Front>
    ensures reads { (d : ℕ) → Begun d result (reads d grammar.this (toks tokens.now)) }
    ensures fits { (d : ℕ) → IfOk result (λ x. Fits d x.0) }
{
    let (word, rest) = read!(expect(tokens, Kind::This));
    Ok((Front::Post(Root::This(word.at)), rest))
}

/// A system name, before its arguments.
#[tactic(auto, unfolding(sv_tree::specs::ExprGrammar::system_call))]
fn system(tokens: &[Token]) -> Read<Front>
    ensures reads { (d : ℕ) → Begun d result (reads d grammar.system_call (toks tokens.now)) }
    ensures fits { (d : ℕ) → IfOk result (λ x. Fits d x.0) }
{
    let (token, rest) = read!(expect(tokens, Kind::SystemName));
    let name = held!(name_of(token));
    Ok((Front::Call(Callee::System(name)), rest))
}

/// `super`, before a member or the constructor of the base class.
#[tactic(auto, unfolding(sv_tree::specs::ExprGrammar::super_call, sv_tree::specs::ExprGrammar::suffixes))]
fn super_call(tokens: &[Token]) -> Read<Front>
    ensures reads { (d : ℕ) → Begun d result (reads d grammar.super_call (toks tokens.now)) }
    ensures fits { (d : ℕ) → IfOk result (λ x. Fits d x.0) }
{
    let (word, rest) = read!(expect(tokens, Kind::Super));
    let (_, rest) = read!(expect(rest, Kind::Dot));
    if !is_next(rest, Kind::New) {
        let (member, rest) = read!(name(rest));
        return Ok((Front::Post(Root::Super(word.at, member)), rest));
    }
    let (new, rest) = read!(expect(rest, Kind::New));
    let callee = Callee::SuperNew {
        at: word.at,
        new: new.at,
    };
    Ok((Front::Call(callee), rest))
}

/// A time.
#[tactic(auto, unfolding(sv_tree::specs::ExprGrammar::time))]
fn time(tokens: &[Token]) -> Read<Front>
    ensures reads { (d : ℕ) → Begun d result (reads d grammar.time (toks tokens.now)) }
    ensures fits { (d : ℕ) → IfOk result (λ x. Fits d x.0) }
{
    let (token, rest) = read!(expect(tokens, Kind::TimeLiteral));
    let text = held!(token.text.share());
    Ok((Front::Whole(Expr::Time(token.at, text)), rest))
}

/// A string literal.
#[tactic(auto, unfolding(sv_tree::specs::ExprGrammar::text))]
fn text(tokens: &[Token]) -> Read<Front>
    ensures reads { (d : ℕ) → Begun d result (reads d grammar.text (toks tokens.now)) }
    ensures fits { (d : ℕ) → IfOk result (λ x. Fits d x.0) }
{
    let (token, rest) = read!(expect(tokens, Kind::StringLiteral));
    let text = held!(token.text.share());
    Ok((Front::Whole(Expr::Text(token.at, text)), rest))
}

/// `null`
#[tactic(auto, unfolding(sv_tree::specs::ExprGrammar::null_))]
fn null(tokens: &[Token]) -> Read<Front>
    ensures reads { (d : ℕ) → Begun d result (reads d grammar.null_ (toks tokens.now)) }
    ensures fits { (d : ℕ) → IfOk result (λ x. Fits d x.0) }
{
    let (token, rest) = read!(expect(tokens, Kind::Null));
    Ok((Front::Whole(Expr::Null(token.at)), rest))
}

/// `$`
#[tactic(auto, unfolding(sv_tree::specs::ExprGrammar::dollar))]
fn dollar(tokens: &[Token]) -> Read<Front>
    ensures reads { (d : ℕ) → Begun d result (reads d grammar.dollar (toks tokens.now)) }
    ensures fits { (d : ℕ) → IfOk result (λ x. Fits d x.0) }
{
    let (token, rest) = read!(expect(tokens, Kind::Dollar));
    Ok((Front::Whole(Expr::Dollar(token.at)), rest))
}

/// The part of an operand before its first expression.
#[tactic(auto, using(crate::proofs::Prims::prim_number, crate::proofs::Prims::prim_time, crate::proofs::Prims::prim_text, crate::proofs::Prims::prim_null, crate::proofs::Prims::prim_dollar, crate::proofs::Prims::prim_named, crate::proofs::Prims::prim_this, crate::proofs::Prims::prim_super, crate::proofs::Prims::prim_system, crate::proofs::Prims::prim_group, crate::proofs::Prims::prim_braces, crate::proofs::Prims::prim_cast, crate::proofs::Prims::deep_group, crate::proofs::Prims::deep_braces, crate::proofs::Prims::deep_cast, crate::proofs::Prims::prim_none))]
pub fn operand(tokens: &[Token], budget: Budget) -> Read<Front>
    ensures reads { Begun budget result (reads budget grammar.prim (toks tokens.now)) }
    ensures fits { IfOk result (λ x. Fits budget x.0) }
{
    if begins_cast(tokens) {
        let inner = read!(budget.deeper(tokens));
        return word(tokens, inner);
    }
    if is_next(tokens, Kind::Number) {
        return number(tokens, budget);
    }
    if is_next(tokens, Kind::TimeLiteral) {
        return time(tokens);
    }
    if is_next(tokens, Kind::StringLiteral) {
        return text(tokens);
    }
    if is_next(tokens, Kind::Null) {
        return null(tokens);
    }
    if is_next(tokens, Kind::Dollar) {
        return dollar(tokens);
    }
    if is_next(tokens, Kind::Name) {
        return named(tokens, budget);
    }
    if is_next(tokens, Kind::This) {
        return this(tokens);
    }
    if is_next(tokens, Kind::Super) {
        return super_call(tokens);
    }
    if is_next(tokens, Kind::SystemName) {
        return system(tokens);
    }
    if is_next(tokens, Kind::LeftParenthesis) {
        let inner = read!(budget.deeper(tokens));
        return group(tokens, inner);
    }
    if is_next(tokens, Kind::LeftBrace) {
        let inner = read!(budget.deeper(tokens));
        return Ok((Front::Braces(inner), tokens));
    }
    Err(ReadError::Unexpected(tokens))
}

// ---- what is made once the rest is read

/// A group or a cast, of the expression that was read.
pub fn bracket_of(
    alloc: Global,
    opening: Opening,
    inner: Measured<Expr>,
) -> Result<Measured<Expr>, NoMemory>
    requires low { inner.depth < most_depth }
    requires depth { inner.depth ≡ depth (view.expr inner.tree) }
    ensures tree { IfOk result (λ m. view.expr m.tree ≡ bracketed opening (view.expr inner.tree)) }
    ensures depth { IfOk result (λ m. (m.depth ≡ depth (view.expr m.tree)) × (m.depth ≡ inner.depth + 1)) }
{
    let depth = inner.depth + 1;
    let inner = Box::new(alloc, inner.tree)?;
    let tree = match opening {
        Opening::Group(at) => Expr::Group(at, inner),
        Opening::Cast(to) => Expr::Cast(to, inner),
    };
    Ok(Measured { tree, depth })
}

/// A call with the arguments that were read.
pub fn call_of(callee: Callee, actuals: Measured<Actuals>) -> Measured<Expr>
    requires { actuals.depth ≡ actuals_depth (view.actuals actuals.tree) }
    ensures tree { view.expr result.tree ≡ called callee (view.actuals actuals.tree) }
    ensures depth { (result.depth ≡ depth (view.expr result.tree)) × (result.depth ≡ actuals.depth) }
{
    let Measured {
        tree: actuals,
        depth,
    } = actuals;
    let tree = match callee {
        Callee::System(name) => Expr::System(name, actuals),
        Callee::SuperNew { at, new } => Expr::SuperNew { at, new, actuals },
    };
    Measured { tree, depth }
}
