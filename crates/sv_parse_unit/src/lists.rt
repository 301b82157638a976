// Lists in parentheses.
ghost use Rattle.sv_tree.specs.Forms.{in_parentheses, list, list_or_none};
ghost use Rattle.sv_parse.specs.Outcome.{Reads, seen};

use std::alloc::Global;
use sv_parse::{Budget, Listed, Read, expect, list, list_or_none};
use sv_tree::{Kind, Token};

/// `"(" list(part) ")"`, and the tokens after it.
pub fn enclosed_list<'a, P: Listed>(
    alloc: Global,
    tokens: &'a [Token],
    budget: Budget,
) -> Read<'a, Vec<P::Tree>>
    ensures { Reads (seen P.view) budget (in_parentheses (list P.production)) tokens.now result }
{
    let (_, rest) = read!(expect(tokens, Kind::LeftParenthesis));
    let (parts, rest) = read!(list::<P>(alloc, rest, budget));
    let (_, rest) = read!(expect(rest, Kind::RightParenthesis));
    Ok((parts, rest))
}

/// `"(" [list(part)] ")"`, and the tokens after it.
pub fn enclosed_list_or_none<'a, P: Listed>(
    alloc: Global,
    tokens: &'a [Token],
    budget: Budget,
) -> Read<'a, Vec<P::Tree>>
    ensures { Reads (seen P.view) budget (in_parentheses (list_or_none P.production)) tokens.now result }
{
    let (_, rest) = read!(expect(tokens, Kind::LeftParenthesis));
    let (parts, rest) = read!(list_or_none::<P>(alloc, rest, budget));
    let (_, rest) = read!(expect(rest, Kind::RightParenthesis));
    Ok((parts, rest))
}
