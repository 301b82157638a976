// Parameters (IEEE 1800-2017, A.1.3 and A.2.1.1).
ghost use Rattle.std.specs.Prelude.{[], ◌∷◌, option_map};
ghost use Rattle.sv_tree.specs.declared.kind.Kind.TheVariants as k;
ghost use Rattle.sv_tree.specs.Codes.{code};
ghost use Rattle.sv_tree.specs.Forms.{optional};
ghost use Rattle.sv_tree.specs.Units as units;
ghost use Rattle.sv_tree.specs.UnitGrammar as grammar;
ghost use Rattle.sv_tree.specs.UnitView as view;
ghost use Rattle.sv_parse.specs.Outcome.{Reads, seen};
ghost use Rattle.sv_parse.proofs.UnitParts.{param_item_known, param_item_listed, element_param_known, element_param_listed};
ghost use Rattle.sv_parse_unit.specs.First.{element_param_first};

use crate::lists::enclosed_list;
use crate::typed::{ImpliedTypes, TypedName, typed_name};
use std::alloc::Global;
use sv_parse::{Budget, Listed, Part, Read, expect, expect_word, is_next, list_after, name, skip};
use sv_parse_expr::Values;
use sv_tree::{Kind, Param, ParamItem, ParamWord, Token};

// ---- parameters of one type

/// `id "=" expr`
pub struct ParamItems;

impl Part for ParamItems {
    type Tree = ParamItem;

    ghost Seen = { units.ParamItem };

    ghost production = { grammar.param_item };

    ghost view = { view.param_item };

    ghost first = { code k.Name ∷ [] };

    fn begins(kind: Kind) -> bool {
        kind == Kind::Name
    }

    #[tactic(auto, unfolding(sv_tree::specs::UnitGrammar::param_item))]
    fn read<'a>(alloc: Global, tokens: &'a [Token], budget: Budget) -> Read<'a, ParamItem> {
        let (name, rest) = read!(name(tokens));
        let (value, rest) = read!(Values::read(alloc, rest, budget));
        Ok((ParamItem { name, value }, rest))
    }

    ghost is_known = { param_item_known };
}

impl Listed for ParamItems {
    ghost is_listed = { param_item_listed };
}

/// `param`
#[tactic(auto, using(crate::proofs::ElementLaws::param_is))]
pub fn param<'a>(alloc: Global, tokens: &'a [Token], budget: Budget) -> Read<'a, Param>
    ensures { Reads view.param budget grammar.param tokens.now result }
{
    let ((_, word), rest) = read!(expect_word::<ParamWord>(tokens));
    let (TypedName { of, name }, rest) = read!(typed_name(alloc, rest, budget));
    let (value, rest) = read!(Values::read(alloc, rest, budget));
    let first = ParamItem { name, value };
    let (names, rest) = read!(list_after::<ParamItems>(alloc, first, rest, budget));
    Ok((Param { word, of, names }, rest))
}

// ---- parameters of a design element

/// `["parameter"] [itype] id "=" expr`
pub struct ElementParams;

impl Part for ElementParams {
    type Tree = Param;

    ghost Seen = { units.Param };

    ghost production = { grammar.element_param };

    ghost view = { view.param };

    ghost first = { element_param_first };

    #[tactic(auto, using(sv_parse::proofs::ExprParts::mem_both))]
    fn begins(kind: Kind) -> bool {
        kind == Kind::Parameter || ImpliedTypes::begins(kind) || kind == Kind::Name
    }

    #[tactic(auto, unfolding(sv_tree::specs::UnitGrammar::element_param))]
    fn read<'a>(alloc: Global, tokens: &'a [Token], budget: Budget) -> Read<'a, Param> {
        let (_, rest) = skip(tokens, Kind::Parameter);
        let (TypedName { of, name }, rest) = read!(typed_name(alloc, rest, budget));
        let (value, rest) = read!(Values::read(alloc, rest, budget));
        let mut names = Vec::new(alloc);
        held!(names.push(ParamItem { name, value }));
        let word = ParamWord::Parameter;
        Ok((Param { word, of, names }, rest))
    }

    ghost is_known = { element_param_known };
}

impl Listed for ElementParams {
    ghost is_listed = { element_param_listed };
}

/// `[pports]`
#[tactic(auto, using(crate::proofs::ElementLaws::params_some, crate::proofs::ElementLaws::params_none), unfolding(sv_tree::specs::UnitGrammar::element_params))]
pub fn maybe_params<'a>(
    alloc: Global,
    tokens: &'a [Token],
    budget: Budget,
) -> Read<'a, Option<Vec<Param>>>
    ensures { Reads (option_map (seen view.param)) budget (optional grammar.element_params) tokens.now result }
{
    if !is_next(tokens, Kind::Hash) {
        return Ok((None, tokens));
    }
    let (_, rest) = read!(expect(tokens, Kind::Hash));
    let (params, rest) = read!(enclosed_list::<ElementParams>(alloc, rest, budget));
    Ok((Some(params), rest))
}
