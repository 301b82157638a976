// Expressions as parts of others.
ghost use Rattle.sv_tree.specs.ExprGrammar as grammar;
ghost use Rattle.sv_tree.specs.View as view;
ghost use Rattle.sv_parse.specs.Outcome.{Reads};

use crate::reader::expression;
use std::alloc::Global;
use sv_parse::{Budget, Read};
use sv_tree::{Expr, Token};

/// `expr` (IEEE 1800-2017, A.8.3)
pub fn value<'a>(alloc: Global, tokens: &'a [Token], budget: Budget) -> Read<'a, Expr>
    ensures { Reads view.expr budget grammar.expr tokens.now result }
{
    let (value, rest) = read!(expression(alloc, tokens, budget));
    Ok((value.tree, rest))
}
