// Nets and continuous assignments (IEEE 1800-2017, A.2.1.3, A.2.4 and A.6.1).
ghost use Rattle.std.specs.Prelude.{◌≡◌, [], ◌∷◌, Ok};
ghost use Rattle.sv_grammar.specs.Reading.{one_of};
ghost use Rattle.sv_tree.specs.declared.kind.Kind.TheVariants as k;
ghost use Rattle.sv_tree.specs.Codes.{code, tok, toks};
ghost use Rattle.sv_tree.specs.Forms.{any_of, codes_of, optional};
ghost use Rattle.sv_tree.specs.Grammar.{reads};
ghost use Rattle.sv_tree.specs.Units as units;
ghost use Rattle.sv_tree.specs.UnitGrammar as grammar;
ghost use Rattle.sv_tree.specs.UnitView as view;
ghost use Rattle.sv_parse.specs.Outcome.{Gives, Reads};
ghost use Rattle.sv_parse.specs.Parts.{if_next};
ghost use Rattle.sv_parse.proofs.UnitParts.{net_item_known, net_item_listed, assign_item_known, assign_item_listed};
ghost use Rattle.sv_parse_unit.specs.First.{target_first};

use std::alloc::Global;
use sv_parse::{Budget, Listed, Part, Read, ReadError, expect, list, maybe, name, skip, word_or};
use sv_parse_expr::{Values, lval};
use sv_parse_type::Ranges;
use sv_tree::{AssignItem, Item, Kind, NetDecl, NetItem, Sign, Token};

// ---- words

/// `"wire" | "tri"`, and the tokens after it.
fn net_word<'a>(tokens: &'a [Token]) -> Read<'a, &'a Token>
    ensures { Gives (λ x. (tok x.0.now, toks x.1.now)) result (one_of (codes_of grammar.net_words) (toks tokens.now)) }
{
    match tokens {
        [first, rest @ ..] if matches!(first.kind, Kind::Wire | Kind::Tri) => Ok((first, rest)),
        _ => Err(ReadError::Unexpected(tokens)),
    }
}

/// `["wire" | "tri"]`: whether it is written, and the tokens after it.
pub fn maybe_net(tokens: &[Token]) -> (bool, &[Token])
    ensures { reads 0 (optional (any_of grammar.net_words)) (toks tokens.now) ≡ Ok (if_next result.0 (toks tokens.now), toks result.1.now) }
{
    match tokens {
        [first, rest @ ..] if matches!(first.kind, Kind::Wire | Kind::Tri) => (true, rest),
        _ => (false, tokens),
    }
}

// ---- nets

/// `id ["=" expr]`
pub struct NetItems;

impl Part for NetItems {
    type Tree = NetItem;

    ghost Seen = { units.NetItem };

    ghost production = { grammar.net_item };

    ghost view = { view.net_item };

    ghost first = { code k.Name ∷ [] };

    fn begins(kind: Kind) -> bool {
        kind == Kind::Name
    }

    #[tactic(auto, unfolding(sv_tree::specs::UnitGrammar::net_item))]
    fn read<'a>(alloc: Global, tokens: &'a [Token], budget: Budget) -> Read<'a, NetItem> {
        let (name, rest) = read!(name(tokens));
        let (value, rest) = read!(maybe::<Values>(alloc, rest, budget));
        Ok((NetItem { name, value }, rest))
    }

    ghost is_known = { net_item_known };
}

impl Listed for NetItems {
    ghost is_listed = { net_item_listed };
}

/// `net`
#[tactic(auto, unfolding(sv_tree::specs::UnitGrammar::net, sv_tree::specs::UnitGrammar::net_word))]
pub fn net<'a>(alloc: Global, tokens: &'a [Token], budget: Budget) -> Read<'a, Item>
    ensures { Reads view.item budget grammar.net tokens.now result }
{
    let (word, rest) = read!(net_word(tokens));
    let (_, rest) = skip(rest, Kind::Logic);
    let (sign, rest) = word_or::<Sign>(rest, Sign::Unwritten);
    let (range, rest) = read!(maybe::<Ranges>(alloc, rest, budget));
    let (names, rest) = read!(list::<NetItems>(alloc, rest, budget));
    let (_, rest) = read!(expect(rest, Kind::Semicolon));
    let net = NetDecl {
        at: word.at,
        sign,
        range,
        names,
    };
    Ok((Item::Net(held!(Box::new(alloc, net))), rest))
}

// ---- continuous assignments

/// `lval "=" expr`
pub struct AssignItems;

impl Part for AssignItems {
    type Tree = AssignItem;

    ghost Seen = { units.AssignItem };

    ghost production = { grammar.assign_item };

    ghost view = { view.assign_item };

    ghost first = { target_first };

    fn begins(kind: Kind) -> bool {
        matches!(
            kind,
            Kind::Name | Kind::This | Kind::Super | Kind::LeftBrace
        )
    }

    #[tactic(auto, unfolding(sv_tree::specs::UnitGrammar::assign_item))]
    fn read<'a>(alloc: Global, tokens: &'a [Token], budget: Budget) -> Read<'a, AssignItem> {
        let (target, rest) = read!(lval(alloc, tokens, budget));
        let (value, rest) = read!(Values::read(alloc, rest, budget));
        Ok((AssignItem { target, value }, rest))
    }

    ghost is_known = { assign_item_known };
}

impl Listed for AssignItems {
    ghost is_listed = { assign_item_listed };
}

/// `"assign" list(lval "=" expr) ";"`
#[tactic(auto, unfolding(sv_tree::specs::UnitGrammar::assign))]
pub fn assign<'a>(alloc: Global, tokens: &'a [Token], budget: Budget) -> Read<'a, Item>
    ensures { Reads view.item budget grammar.assign tokens.now result }
{
    let (_, rest) = read!(expect(tokens, Kind::Assign));
    let (items, rest) = read!(list::<AssignItems>(alloc, rest, budget));
    let (_, rest) = read!(expect(rest, Kind::Semicolon));
    Ok((Item::Assign(items), rest))
}
