// Instances, and what else begins with a name in a module (IEEE 1800-2017, A.4.1.1).
ghost use Rattle.std.specs.Prelude.{[], ◌∷◌};
ghost use Rattle.sv_tree.specs.declared.kind.Kind.TheVariants as k;
ghost use Rattle.sv_tree.specs.Codes.{code};
ghost use Rattle.sv_tree.specs.Units as units;
ghost use Rattle.sv_tree.specs.UnitGrammar as grammar;
ghost use Rattle.sv_tree.specs.UnitView as view;
ghost use Rattle.sv_parse.specs.Outcome.{Reads};
ghost use Rattle.sv_parse.proofs.UnitParts.{instance_known, instance_listed};
ghost use Rattle.sv_parse_type.specs.Applied.{ReadsAfter};
ghost use Rattle.sv_parse_unit.specs.After.{ReadsAfterTwo};

use crate::connections::Connections;
use crate::lists::{enclosed_list, enclosed_list_or_none};
use std::alloc::Global;
use sv_parse::{Budget, Listed, Part, Read, expect, is_next, list, list_after, name};
use sv_parse_type::more_declarators;
use sv_tree::{Decl, Instance, Instances, Item, Kind, Life, Name, Token, WrittenType};

/// `id "(" [list(conn)] ")"`
pub struct InstanceParts;

impl Part for InstanceParts {
    type Tree = Instance;

    ghost Seen = { units.Instance };

    ghost production = { grammar.instance };

    ghost view = { view.instance };

    ghost first = { code k.Name ∷ [] };

    fn begins(kind: Kind) -> bool {
        kind == Kind::Name
    }

    #[tactic(auto, unfolding(sv_tree::specs::UnitGrammar::instance, sv_tree::specs::UnitGrammar::connections))]
    fn read<'a>(alloc: Global, tokens: &'a [Token], budget: Budget) -> Read<'a, Instance> {
        let (name, rest) = read!(name(tokens));
        let (connections, rest) = read!(enclosed_list_or_none::<Connections>(alloc, rest, budget));
        Ok((Instance { name, connections }, rest))
    }

    ghost is_known = { instance_known };
}

impl Listed for InstanceParts {
    ghost is_listed = { instance_listed };
}

/// `"#" "(" list(conn) ")" list(id "(" [list(conn)] ")") ";"` after the name of what is instantiated
#[tactic(auto, unfolding(sv_tree::specs::UnitGrammar::valued_instances))]
fn valued_instances<'a>(
    alloc: Global,
    of: Name,
    tokens: &'a [Token],
    budget: Budget,
) -> Read<'a, Item>
    ensures { ReadsAfter view.item of budget grammar.valued_instances tokens.now result }
{
    let (_, rest) = read!(expect(tokens, Kind::Hash));
    let (params, rest) = read!(enclosed_list::<Connections>(alloc, rest, budget));
    let (list, rest) = read!(list::<InstanceParts>(alloc, rest, budget));
    let (_, rest) = read!(expect(rest, Kind::Semicolon));
    let instances = Instances { of, params, list };
    Ok((Item::Instances(held!(Box::new(alloc, instances))), rest))
}

/// After two names: the connections of an instance, and further instances.
#[tactic(auto, using(crate::proofs::InstanceLaws::instances_rest_is), unfolding(sv_tree::specs::UnitGrammar::connections))]
fn instances_rest<'a>(
    alloc: Global,
    of: Name,
    first: Name,
    tokens: &'a [Token],
    budget: Budget,
) -> Read<'a, Item>
    ensures { ReadsAfterTwo view.item of first budget grammar.instances_rest tokens.now result }
{
    let (connections, rest) = read!(enclosed_list_or_none::<Connections>(alloc, tokens, budget));
    let instance = Instance {
        name: first,
        connections,
    };
    let (list, rest) = read!(list_after::<InstanceParts>(alloc, instance, rest, budget));
    let (_, rest) = read!(expect(rest, Kind::Semicolon));
    let params = Vec::new(alloc);
    let instances = Instances { of, params, list };
    Ok((Item::Instances(held!(Box::new(alloc, instances))), rest))
}

/// After two names: the rest of a declaration.
#[tactic(auto, using(crate::proofs::InstanceLaws::decl_rest_is))]
fn decl_rest<'a>(
    alloc: Global,
    of: Name,
    first: Name,
    tokens: &'a [Token],
    budget: Budget,
) -> Read<'a, Item>
    ensures { ReadsAfterTwo view.item of first budget grammar.decl_rest tokens.now result }
{
    let (names, rest) = read!(more_declarators(alloc, first, tokens, budget));
    let (_, rest) = read!(expect(rest, Kind::Semicolon));
    let decl = Decl {
        life: Life::Unwritten,
        of: WrittenType::Named(of),
        names,
    };
    Ok((Item::Decl(held!(Box::new(alloc, decl))), rest))
}

/// `inst`, or a declaration that a name begins
#[tactic(auto, using(crate::proofs::InstanceLaws::named_item_is, crate::proofs::InstanceLaws::rest_valued, crate::proofs::InstanceLaws::rest_named, crate::proofs::InstanceLaws::second_instance, crate::proofs::InstanceLaws::second_decl))]
pub fn named_item<'a>(alloc: Global, tokens: &'a [Token], budget: Budget) -> Read<'a, Item>
    ensures { Reads view.item budget grammar.named_item tokens.now result }
{
    let (of, rest) = read!(name(tokens));
    if is_next(rest, Kind::Hash) {
        return valued_instances(alloc, of, rest, budget);
    }
    let (first, rest) = read!(name(rest));
    if is_next(rest, Kind::LeftParenthesis) {
        return instances_rest(alloc, of, first, rest, budget);
    }
    decl_rest(alloc, of, first, rest, budget)
}
