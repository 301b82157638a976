// Items that stand in modules, in programs and outside both (IEEE 1800-2017, A.1.2, A.1.4 and A.1.7).
ghost use Rattle.sv_tree.specs.Items as items;
ghost use Rattle.sv_tree.specs.UnitGrammar as grammar;
ghost use Rattle.sv_tree.specs.UnitView as view;
ghost use Rattle.sv_parse.proofs.UnitParts.{named_items_known};
ghost use Rattle.sv_parse_unit.specs.First.{named_items_first};

use crate::classes::class;
use crate::params::param;
use crate::routines::routine;
use crate::typedefs::item_typedef;
use std::alloc::Global;
use sv_parse::{Budget, Part, Read, Word, expect, is_next, is_next_word};
use sv_tree::{Item, Kind, ParamWord, Token};

/// `typedef | class | param ";" | routine`
pub struct NamedItems;

impl Part for NamedItems {
    type Tree = Item;

    ghost Seen = { items.Item };

    ghost production = { grammar.named_items };

    ghost view = { view.item };

    ghost first = { named_items_first };

    #[tactic(auto, using(sv_parse::proofs::ExprParts::mem_both))]
    fn begins(kind: Kind) -> bool {
        matches!(kind, Kind::Typedef | Kind::Virtual | Kind::Class)
            || ParamWord::of(kind).is_some()
            || matches!(kind, Kind::Function | Kind::Task)
    }

    #[tactic(auto, using(crate::proofs::ItemLaws::items_typedef, crate::proofs::ItemLaws::items_class, crate::proofs::ItemLaws::items_param, crate::proofs::ItemLaws::items_routine))]
    fn read<'a>(alloc: Global, tokens: &'a [Token], budget: Budget) -> Read<'a, Item> {
        if is_next(tokens, Kind::Typedef) {
            return item_typedef(alloc, tokens, budget);
        }
        if is_next(tokens, Kind::Virtual) || is_next(tokens, Kind::Class) {
            let (class, rest) = read!(class(alloc, tokens, budget));
            return Ok((Item::Class(held!(Box::new(alloc, class))), rest));
        }
        if is_next_word::<ParamWord>(tokens) {
            let (param, rest) = read!(param(alloc, tokens, budget));
            let (_, rest) = read!(expect(rest, Kind::Semicolon));
            return Ok((Item::Param(held!(Box::new(alloc, param))), rest));
        }
        let (routine, rest) = read!(routine(alloc, tokens, budget));
        Ok((Item::Routine(held!(Box::new(alloc, routine))), rest))
    }

    ghost is_known = { named_items_known };
}
