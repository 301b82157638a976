// Expressions in lists, options and brackets.
ghost use Rattle.std.specs.Prelude.{[], ◌∷◌};
ghost use Rattle.sv_tree.specs.declared.kind.Kind.TheVariants as k;
ghost use Rattle.sv_tree.specs.Codes.{code};
ghost use Rattle.sv_tree.specs.Expr as tree;
ghost use Rattle.sv_tree.specs.ExprGrammar as grammar;
ghost use Rattle.sv_tree.specs.Forms.{◌▸◌, in_parentheses};
ghost use Rattle.sv_tree.specs.Grammar.{expr_first};
ghost use Rattle.sv_tree.specs.View as view;
ghost use Rattle.sv_parse.proofs.ExprParts.{enclosed_known, expr_known, expr_listed, value_known};

use crate::begins::expr_first;
use crate::values::value;
use std::alloc::Global;
use sv_parse::{Budget, Listed, Part, Read, expect};
use sv_tree::{Expr, Kind, Token};

/// `expr`
pub struct Exprs;

impl Part for Exprs {
    type Tree = Expr;

    ghost Seen = { tree.Expr };

    ghost production = { grammar.expr };

    ghost view = { view.expr };

    ghost first = { expr_first };

    fn begins(kind: Kind) -> bool {
        expr_first(kind)
    }

    fn read<'a>(alloc: Global, tokens: &'a [Token], budget: Budget) -> Read<'a, Expr> {
        value(alloc, tokens, budget)
    }

    ghost is_known = { expr_known };
}

impl Listed for Exprs {
    ghost is_listed = { expr_listed };
}

/// `"=" expr`
pub struct Values;

impl Part for Values {
    type Tree = Expr;

    ghost Seen = { tree.Expr };

    ghost production = { k.Equals ▸ grammar.expr };

    ghost view = { view.expr };

    ghost first = { code k.Equals ∷ [] };

    fn begins(kind: Kind) -> bool {
        kind == Kind::Equals
    }

    fn read<'a>(alloc: Global, tokens: &'a [Token], budget: Budget) -> Read<'a, Expr> {
        let (_, rest) = read!(expect(tokens, Kind::Equals));
        value(alloc, rest, budget)
    }

    ghost is_known = { value_known };
}

/// `"(" expr ")"`, where the pair of brackets does not count
pub struct Enclosed;

impl Part for Enclosed {
    type Tree = Expr;

    ghost Seen = { tree.Expr };

    ghost production = { in_parentheses grammar.expr };

    ghost view = { view.expr };

    ghost first = { code k.LeftParenthesis ∷ [] };

    fn begins(kind: Kind) -> bool {
        kind == Kind::LeftParenthesis
    }

    fn read<'a>(alloc: Global, tokens: &'a [Token], budget: Budget) -> Read<'a, Expr> {
        let (_, rest) = read!(expect(tokens, Kind::LeftParenthesis));
        let (inner, rest) = read!(value(alloc, rest, budget));
        let (_, rest) = read!(expect(rest, Kind::RightParenthesis));
        Ok((inner, rest))
    }

    ghost is_known = { enclosed_known };
}
