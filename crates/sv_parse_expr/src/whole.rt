// Reading an expression from a place in a list of tokens.
ghost use Rattle.std.specs.Prelude.{ℕ, ◌-◌, ◌≤◌, length};
ghost use Rattle.sv_tree.specs.Codes.{toks};
ghost use Rattle.sv_tree.specs.Depth.{most_depth};
ghost use Rattle.sv_tree.specs.Expr as tree;
ghost use Rattle.sv_tree.specs.Grammar.{texts_of};
ghost use Rattle.sv_tree.specs.ExprGrammar as grammar;
ghost use Rattle.sv_tree.specs.View as view;
ghost use Rattle.sv_parse.specs.Tells.{ReadsTo, Tells};
ghost use Rattle.sv_parse_expr.specs.Answers.{Answers};

use crate::values::value;
use std::alloc::Global;
use sv_parse::{Budget, SyntaxFault, fault_of};
use sv_tree::{Expr, Token};

/// Reads an expression from the place `from` of a list of tokens on (IEEE 1800-2017, A.8).
///
/// An expression fits where its own depth and `depth` are at most 200 together. The run is the longest list of tokens from that place
/// on that begins an expression that fits. Where some deeper expression begins with the run and the token after it, the answer is
/// `Depth` at that token. Where not, and the run is an expression that fits, the answer is that expression, with the place of the token
/// after it. Otherwise the answer is `Unexpected` at that token.
pub fn expr(
    alloc: Global,
    tokens: &[Token],
    from: usize,
    depth: u32,
) -> Result<(Expr, usize), SyntaxFault>
    requires place { from ≤ length tokens.now }
    requires depth { depth ≤ most_depth }
    ensures told { Tells view.expr (texts_of grammar.expr) (most_depth - depth) (toks tokens.now) from result }
    ensures only { (e : tree.Expr) (end : ℕ) → ReadsTo (texts_of grammar.expr) (most_depth - depth) (toks tokens.now) from e end
        → Answers view.expr e end result }
{
    match value(alloc, &tokens[from..], Budget::at(depth)) {
        Ok((tree, rest)) => Ok((tree, tokens.len() - rest.len())),
        Err(error) => Err(fault_of(error)),
    }
}
