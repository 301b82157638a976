// Connections of ports, and values of parameters (IEEE 1800-2017, A.4.1.1).
ghost use Rattle.std.specs.Prelude.{option_map};
ghost use Rattle.sv_tree.specs.Units as units;
ghost use Rattle.sv_tree.specs.UnitGrammar as grammar;
ghost use Rattle.sv_tree.specs.UnitView as view;
ghost use Rattle.sv_tree.specs.View.{expr};
ghost use Rattle.sv_parse.specs.Outcome.{Reads};
ghost use Rattle.sv_parse.proofs.UnitParts.{connection_known, connection_listed};
ghost use Rattle.sv_parse_unit.specs.First.{connection_first};

use std::alloc::Global;
use sv_parse::{Budget, Listed, Part, Read, expect, is_next, maybe, name};
use sv_parse_expr::{Exprs, value};
use sv_tree::{Connection, Expr, Kind, Token};

/// `"(" [expr] ")"`
#[tactic(auto, unfolding(sv_tree::specs::UnitGrammar::given))]
fn given<'a>(alloc: Global, tokens: &'a [Token], budget: Budget) -> Read<'a, Option<Expr>>
    ensures { Reads (option_map expr) budget grammar.given tokens.now result }
{
    let (_, rest) = read!(expect(tokens, Kind::LeftParenthesis));
    let (value, rest) = read!(maybe::<Exprs>(alloc, rest, budget));
    let (_, rest) = read!(expect(rest, Kind::RightParenthesis));
    Ok((value, rest))
}

/// `"." id ["(" [expr] ")"]`
#[tactic(auto, using(crate::proofs::InstanceLaws::given_written, crate::proofs::InstanceLaws::given_unwritten), unfolding(sv_tree::specs::UnitGrammar::dotted))]
fn dotted<'a>(alloc: Global, tokens: &'a [Token], budget: Budget) -> Read<'a, Connection>
    ensures { Reads view.connection budget grammar.dotted tokens.now result }
{
    let (dot, rest) = read!(expect(tokens, Kind::Dot));
    let at = dot.at;
    let (name, rest) = read!(name(rest));
    if !is_next(rest, Kind::LeftParenthesis) {
        return Ok((Connection::Named(at, name), rest));
    }
    let (value, rest) = read!(given(alloc, rest, budget));
    Ok((Connection::Given { at, name, value }, rest))
}

/// `conn`
pub struct Connections;

impl Part for Connections {
    type Tree = Connection;

    ghost Seen = { units.Connection };

    ghost production = { grammar.connection };

    ghost view = { view.connection };

    ghost first = { connection_first };

    #[tactic(auto, using(sv_parse::proofs::ExprParts::mem_both))]
    fn begins(kind: Kind) -> bool {
        matches!(kind, Kind::Dot | Kind::DotStar) || Exprs::begins(kind)
    }

    #[tactic(auto, using(crate::proofs::InstanceLaws::connection_dotted, crate::proofs::InstanceLaws::connection_all, crate::proofs::InstanceLaws::connection_value))]
    fn read<'a>(alloc: Global, tokens: &'a [Token], budget: Budget) -> Read<'a, Connection> {
        if is_next(tokens, Kind::Dot) {
            return dotted(alloc, tokens, budget);
        }
        if is_next(tokens, Kind::DotStar) {
            let (sign, rest) = read!(expect(tokens, Kind::DotStar));
            return Ok((Connection::All(sign.at), rest));
        }
        let (value, rest) = read!(value(alloc, tokens, budget));
        Ok((Connection::Value(value), rest))
    }

    ghost is_known = { connection_known };
}

impl Listed for Connections {
    ghost is_listed = { connection_listed };
}
