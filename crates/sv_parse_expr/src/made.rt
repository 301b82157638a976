// Trees with lists in them.
ghost use Rattle.std.specs.Prelude.{◌≡◌};
ghost use Rattle.sv_tree.specs.StmtView.{lval, lval_list};
ghost use Rattle.sv_tree.specs.View as view;
ghost use Rattle.sv_tree.specs.Expr as tree;

use sv_tree::{Actuals, Expr, Lval, Root, Suffix};
use sv_value::Place;

/// A name with what follows it, as an expression.
pub fn post_of(root: Root, suffixes: Vec<Suffix>) -> Expr
    ensures { view.expr result ≡ tree.Expr.Post root (view.suffix_list suffixes.items) }
{
    Expr::Post(root, suffixes)
}

/// Arguments in brackets after a name.
pub fn call_suffix(at: Place, list: Vec<Expr>) -> Suffix
    ensures { (rest : tree.Suffixes) → view.suffix result rest ≡ tree.Call at (view.expr_list list.items) rest }
{
    Suffix::Call(at, list)
}

/// Arguments in brackets.
pub fn written(list: Vec<Expr>) -> Actuals
    ensures { view.actuals result ≡ tree.Written (view.expr_list list.items) }
{
    Actuals::Written(list)
}

/// A concatenation.
pub fn join(at: Place, list: Vec<Expr>) -> Expr
    ensures { view.expr result ≡ tree.Expr.Join at (view.expr_list list.items) }
{
    Expr::Join(at, list)
}

/// A replication.
pub fn repeat(at: Place, count: Box<Expr>, inner: Place, items: Vec<Expr>) -> Expr
    ensures { view.expr result ≡ tree.Repeat at (view.expr count.value) inner (view.expr_list items.items) }
{
    Expr::Repeat {
        at,
        count,
        inner,
        items,
    }
}

/// Targets in braces.
pub fn join_targets(at: Place, list: Vec<Lval>) -> Lval
    ensures { lval result ≡ tree.Lval.Join at (lval_list list.items) }
{
    Lval::Join(at, list)
}
