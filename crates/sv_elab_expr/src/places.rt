// The first tokens of expressions.
ghost use Rattle.std.specs.Prelude.{◌≡◌};
ghost use Rattle.sv_tree.specs.Expr as tree;
ghost use Rattle.sv_tree.specs.View as view;

use sv_tree::{CastType, Expr, Root};
use sv_value::Place;

/// The place of the first token of a root.
pub fn place_of_root(root: &Root) -> Place
    ensures { result ≡ tree.place_of_root root.now }
{
    match root {
        Root::This(at) => *at,
        Root::Super(at, _) => *at,
        Root::Plain(name) => name.at,
        Root::Scoped(scope, _) => scope.at,
    }
}

/// The place of the first token of a cast.
pub fn place_of_cast(to: &CastType) -> Place
    ensures { result ≡ tree.place_of_cast to.now }
{
    match to {
        CastType::Vector(at, _) => *at,
        CastType::Atom(at, _) => *at,
        CastType::Text(at) => *at,
        CastType::Event(at) => *at,
        CastType::Semaphore(at) => *at,
        CastType::Mailbox(at) => *at,
        CastType::Named(name) => name.at,
        CastType::Width(at, _) => *at,
    }
}

/// The place of the first token.
pub fn place_of(e: &Expr) -> Place
    ensures { result ≡ tree.place_of (view.expr e.now) }
{
    match e {
        Expr::Number(at, _) => *at,
        Expr::Time(at, _) => *at,
        Expr::Text(at, _) => *at,
        Expr::Null(at) => *at,
        Expr::Dollar(at) => *at,
        Expr::Group(at, _) => *at,
        Expr::Post(root, _) => place_of_root(root),
        Expr::System(name, _) => name.at,
        Expr::SuperNew { at, .. } => *at,
        Expr::Join(at, _) => *at,
        Expr::Repeat { at, .. } => *at,
        Expr::Cast(to, _) => place_of_cast(to),
        Expr::Unary { at, .. } => *at,
        Expr::Binary { left, .. } => place_of(left),
        Expr::Choose { condition, .. } => place_of(condition),
    }
}
