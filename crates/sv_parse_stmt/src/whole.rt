// Reading a statement from a place in a list of tokens.
ghost use Rattle.std.specs.Prelude.{ℕ, ◌-◌, ◌≤◌, ◌<◌, length};
ghost use Rattle.sv_tree.specs.Codes.{toks};
ghost use Rattle.sv_tree.specs.Depth.{most_depth};
ghost use Rattle.sv_tree.specs.Forms.{statement};
ghost use Rattle.sv_tree.specs.Grammar.{texts_of};
ghost use Rattle.sv_tree.specs.Stmt as tree;
ghost use Rattle.sv_tree.specs.StmtView as view;
ghost use Rattle.sv_parse.specs.Tells.{ReadsTo, Tells};
ghost use Rattle.sv_parse_expr.specs.Answers.{Answers};

use crate::reader::statement;
use std::alloc::Global;
use sv_parse::{Budget, SyntaxFault, fault_of};
use sv_tree::{Stmt, Token};

/// Reads a statement from the place `from` of a list of tokens on (IEEE 1800-2017, A.6.4).
///
/// A statement is as deep as what stands in it and one more. It fits where its depth and `depth` are at most 200 together. The run is
/// the longest list of tokens from that place on that begins a statement that fits. Where some deeper statement begins with the run and
/// the token after it, the answer is `Depth` at that token. Where not, and the run is a statement that fits, the answer is that
/// statement, with the place of the token after it. Otherwise the answer is `Unexpected` at that token.
pub fn stmt(
    alloc: Global,
    tokens: &[Token],
    from: usize,
    depth: u32,
) -> Result<(Stmt, usize), SyntaxFault>
    requires place { from ≤ length tokens.now }
    requires depth { depth < most_depth }
    ensures told { Tells view.stmt (texts_of statement) (most_depth - depth) (toks tokens.now) from result }
    ensures only { (s : tree.Stmt) (end : ℕ) → ReadsTo (texts_of statement) (most_depth - depth) (toks tokens.now) from s end
        → Answers view.stmt s end result }
{
    match statement(alloc, &tokens[from..], Budget::at(depth)) {
        Ok((tree, rest)) => Ok((tree, tokens.len() - rest.len())),
        Err(error) => Err(fault_of(error)),
    }
}
