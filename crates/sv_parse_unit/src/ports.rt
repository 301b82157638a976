// Ports (IEEE 1800-2017, A.1.3).
ghost use Rattle.std.specs.Prelude.{[]};
ghost use Rattle.sv_tree.specs.Forms.{otherwise};
ghost use Rattle.sv_tree.specs.Units as units;
ghost use Rattle.sv_tree.specs.UnitGrammar as grammar;
ghost use Rattle.sv_tree.specs.UnitView as view;
ghost use Rattle.sv_parse.specs.Outcome.{Reads, seen};
ghost use Rattle.sv_parse.proofs.UnitParts.{next_port_known, next_port_listed};
ghost use Rattle.sv_parse_unit.specs.First.{next_port_first};

use crate::nets::maybe_net;
use crate::typed::{TypedName, typed_name};
use std::alloc::Global;
use sv_parse::{
    Budget, Listed, Part, Read, Word, expect, expect_word, is_next, is_next_word, list_after, name,
};
use sv_tree::{ImpliedType, Kind, Port, PortDirection, Token};

/// `("input" | "output") ["wire" | "tri"] [itype] id`
#[tactic(auto, using(crate::proofs::ElementLaws::written), unfolding(sv_tree::specs::UnitGrammar::directed_port))]
fn directed_port<'a>(alloc: Global, tokens: &'a [Token], budget: Budget) -> Read<'a, Port>
    ensures { Reads view.port budget grammar.directed_port tokens.now result }
{
    let ((_, direction), rest) = read!(expect_word::<PortDirection>(tokens));
    let (is_net, rest) = maybe_net(rest);
    let (TypedName { of, name }, rest) = read!(typed_name(alloc, rest, budget));
    let port = Port {
        direction: Some(direction),
        is_net,
        of,
        name,
    };
    Ok((port, rest))
}

/// `port`, behind the first
pub struct NextPorts;

impl Part for NextPorts {
    type Tree = Port;

    ghost Seen = { units.Port };

    ghost production = { grammar.next_port };

    ghost view = { view.port };

    ghost first = { next_port_first };

    #[tactic(auto, using(sv_parse::proofs::ExprParts::mem_both))]
    fn begins(kind: Kind) -> bool {
        PortDirection::of(kind).is_some() || kind == Kind::Name
    }

    #[tactic(auto, using(crate::proofs::ElementLaws::next_directed, crate::proofs::ElementLaws::next_plain), unfolding(sv_tree::specs::UnitGrammar::plain_port))]
    fn read<'a>(alloc: Global, tokens: &'a [Token], budget: Budget) -> Read<'a, Port> {
        if is_next_word::<PortDirection>(tokens) {
            return directed_port(alloc, tokens, budget);
        }
        let (name, rest) = read!(name(tokens));
        let port = Port {
            direction: None,
            is_net: false,
            of: ImpliedType::Unwritten,
            name,
        };
        Ok((port, rest))
    }

    ghost is_known = { next_port_known };
}

impl Listed for NextPorts {
    ghost is_listed = { next_port_listed };
}

/// `[ports]`, whose first port has a direction
#[tactic(auto, using(crate::proofs::ElementLaws::ports_some, crate::proofs::ElementLaws::ports_none, crate::proofs::ElementLaws::list_some, crate::proofs::ElementLaws::list_none), unfolding(sv_tree::specs::UnitGrammar::ports))]
pub fn maybe_ports<'a>(alloc: Global, tokens: &'a [Token], budget: Budget) -> Read<'a, Vec<Port>>
    ensures { Reads (seen view.port) budget (otherwise [] grammar.ports) tokens.now result }
{
    if !is_next(tokens, Kind::LeftParenthesis) {
        return Ok((Vec::new(alloc), tokens));
    }
    let (_, rest) = read!(expect(tokens, Kind::LeftParenthesis));
    if !is_next_word::<PortDirection>(rest) {
        let (_, rest) = read!(expect(rest, Kind::RightParenthesis));
        return Ok((Vec::new(alloc), rest));
    }
    let (first, rest) = read!(directed_port(alloc, rest, budget));
    let (ports, rest) = read!(list_after::<NextPorts>(alloc, first, rest, budget));
    let (_, rest) = read!(expect(rest, Kind::RightParenthesis));
    Ok((ports, rest))
}
