// What the expressions of connections break by themselves (IEEE 1800-2017, 23.3.2).
ghost use Rattle.std.specs.Prelude.{map};
ghost use Rattle.sv_tree.specs.View as view;
ghost use Rattle.sv_tree.specs.UnitView.{connection};
ghost use Rattle.sv_names.specs.Checked.{only};
ghost use Rattle.sv_names.specs.Connections as connections;
ghost use Rattle.sv_names.specs.Expressions as expressions;
ghost use Rattle.sv_names.specs.Given.{Gives};
ghost use Rattle.sv_names.specs.Views.{around_in};
ghost use Rattle.sv_elab_connect.specs.Fits as fits;

use std::alloc::Global;
use sv_elab_expr::expr;
use sv_names::{Around, Refusal, where_also};
use sv_tree::{Connection, Expr};

/// What an expression breaks.
pub fn expr_stands(alloc: Global, around: &Around, e: &Expr) -> Result<(), Refusal>
    ensures { Gives result (only (expressions.expr (around_in around.now) (view.expr e.now))) }
{
    match expr(alloc, e, around) {
        Ok(_) => Ok(()),
        Err(e) => Err(e),
    }
}

/// What a connection breaks by itself.
fn one_stands(alloc: Global, around: &Around, one: &Connection) -> Result<(), Refusal>
    ensures { Gives result (fits.connection_stands (around_in around.now) (connection one.now)) }
{
    match one {
        Connection::Value(e) => expr_stands(alloc, around, e),
        Connection::Named(_, _) => Ok(()),
        Connection::Given { value, .. } => match value {
            None => Ok(()),
            Some(e) => expr_stands(alloc, around, e),
        },
        Connection::All(_) => Ok(()),
    }
}

/// What connections break by themselves.
pub fn connections_stand(alloc: Global, around: &Around, all: &[Connection]) -> Result<(), Refusal>
    ensures { Gives result (connections.connections_stand (around_in around.now) (map connection all.now)) }
{
    match all {
        [] => Ok(()),
        [one, rest @ ..] => {
            let here = one_stands(alloc, around, one);
            where_also(here, connections_stand(alloc, around, rest))
        }
    }
}
