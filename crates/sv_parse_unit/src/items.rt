// Items of modules and programs (IEEE 1800-2017, A.1.4 and A.1.7).
ghost use Rattle.sv_tree.specs.Items as items;
ghost use Rattle.sv_tree.specs.UnitGrammar as grammar;
ghost use Rattle.sv_tree.specs.UnitView as view;
ghost use Rattle.sv_parse.specs.Outcome.{Reads};
ghost use Rattle.sv_parse.proofs.UnitParts.{common_known, program_item_known, program_item_repeated, module_item_known, module_item_repeated};
ghost use Rattle.sv_parse_unit.specs.First.{common_first, program_item_first, module_item_first};

use crate::clocking::clocking;
use crate::instances::named_item;
use crate::named_items::NamedItems;
use crate::nets::{assign, net};
use crate::typed::is_type_word;
use std::alloc::Global;
use sv_parse::{
    Budget, Part, Read, Repeated, Word, begins, expect, expect_word, is_next, is_next_word, name,
};
use sv_parse_stmt::statement;
use sv_parse_type::{begins_word_decl, named_decl_rest, word_decl};
use sv_tree::{Item, Kind, Life, Procedure, ProcedureWord, Token};

// ---- items that stand in modules and programs

/// `"initial" stmt`
#[tactic(auto, unfolding(sv_tree::specs::UnitGrammar::initial))]
fn initial<'a>(alloc: Global, tokens: &'a [Token], budget: Budget) -> Read<'a, Item>
    ensures { Reads view.item budget grammar.initial tokens.now result }
{
    let (first, rest) = read!(expect(tokens, Kind::Initial));
    let (body, rest) = read!(statement(alloc, rest, budget));
    let procedure = Procedure {
        at: first.at,
        word: ProcedureWord::Initial,
        body,
    };
    Ok((Item::Procedure(held!(Box::new(alloc, procedure))), rest))
}

/// What modules and programs have in common, but for declarations that a name begins
pub struct CommonItems;

impl Part for CommonItems {
    type Tree = Item;

    ghost Seen = { items.Item };

    ghost production = { grammar.common };

    ghost view = { view.item };

    ghost first = { common_first };

    #[tactic(auto, using(sv_parse::proofs::ExprParts::mem_both))]
    fn begins(kind: Kind) -> bool {
        Life::of(kind).is_some()
            || kind == Kind::Var
            || is_type_word(kind)
            || NamedItems::begins(kind)
            || matches!(
                kind,
                Kind::Clocking | Kind::Default | Kind::Initial | Kind::Semicolon
            )
    }

    #[tactic(auto, using(crate::proofs::ItemLaws::common_decl, crate::proofs::ItemLaws::common_named, crate::proofs::ItemLaws::common_clocking, crate::proofs::ItemLaws::common_initial, crate::proofs::ItemLaws::common_deep, crate::proofs::ItemLaws::common_null))]
    fn read<'a>(alloc: Global, tokens: &'a [Token], budget: Budget) -> Read<'a, Item> {
        if begins_word_decl(tokens) {
            let (decl, rest) = read!(word_decl(alloc, tokens, budget));
            return Ok((Item::Decl(held!(Box::new(alloc, decl))), rest));
        }
        if begins::<NamedItems>(tokens) {
            return NamedItems::read(alloc, tokens, budget);
        }
        if is_next(tokens, Kind::Clocking) || is_next(tokens, Kind::Default) {
            return clocking(alloc, tokens, budget);
        }
        if is_next(tokens, Kind::Initial) {
            read!(budget.deeper(tokens));
            return initial(alloc, tokens, budget);
        }
        let (_, rest) = read!(expect(tokens, Kind::Semicolon));
        Ok((Item::Null, rest))
    }

    ghost is_known = { common_known };
}

// ---- items of programs

/// `pitem`
pub struct ProgramItems;

impl Part for ProgramItems {
    type Tree = Item;

    ghost Seen = { items.Item };

    ghost production = { grammar.program_item };

    ghost view = { view.item };

    ghost first = { program_item_first };

    #[tactic(auto, using(sv_parse::proofs::ExprParts::mem_both))]
    fn begins(kind: Kind) -> bool {
        CommonItems::begins(kind) || kind == Kind::Name
    }

    #[tactic(auto, using(crate::proofs::ItemLaws::program_common, crate::proofs::ItemLaws::program_named))]
    fn read<'a>(alloc: Global, tokens: &'a [Token], budget: Budget) -> Read<'a, Item> {
        if begins::<CommonItems>(tokens) {
            return CommonItems::read(alloc, tokens, budget);
        }
        let (of, rest) = read!(name(tokens));
        let (decl, rest) = read!(named_decl_rest(alloc, of, rest, budget));
        Ok((Item::Decl(held!(Box::new(alloc, decl))), rest))
    }

    ghost is_known = { program_item_known };
}

impl Repeated for ProgramItems {
    ghost is_repeated = { program_item_repeated };
}

// ---- items of modules

/// `("always" | "always_comb" | "always_ff") stmt`
#[tactic(auto, unfolding(sv_tree::specs::UnitGrammar::always))]
fn always<'a>(alloc: Global, tokens: &'a [Token], budget: Budget) -> Read<'a, Item>
    ensures { Reads view.item budget grammar.always tokens.now result }
{
    let ((first, word), rest) = read!(expect_word::<ProcedureWord>(tokens));
    let (body, rest) = read!(statement(alloc, rest, budget));
    let procedure = Procedure {
        at: first.at,
        word,
        body,
    };
    Ok((Item::Procedure(held!(Box::new(alloc, procedure))), rest))
}

/// `mitem`
pub struct ModuleItems;

impl Part for ModuleItems {
    type Tree = Item;

    ghost Seen = { items.Item };

    ghost production = { grammar.module_item };

    ghost view = { view.item };

    ghost first = { module_item_first };

    #[tactic(auto, using(sv_parse::proofs::ExprParts::mem_both))]
    fn begins(kind: Kind) -> bool {
        CommonItems::begins(kind)
            || matches!(kind, Kind::Wire | Kind::Tri | Kind::Assign)
            || ProcedureWord::of(kind).is_some()
            || kind == Kind::Name
    }

    #[tactic(auto, using(crate::proofs::ItemLaws::module_common, crate::proofs::ItemLaws::module_net, crate::proofs::ItemLaws::module_assign, crate::proofs::ItemLaws::module_always, crate::proofs::ItemLaws::module_deep, crate::proofs::ItemLaws::module_named))]
    fn read<'a>(alloc: Global, tokens: &'a [Token], budget: Budget) -> Read<'a, Item> {
        if begins::<CommonItems>(tokens) {
            return CommonItems::read(alloc, tokens, budget);
        }
        if is_next(tokens, Kind::Wire) || is_next(tokens, Kind::Tri) {
            return net(alloc, tokens, budget);
        }
        if is_next(tokens, Kind::Assign) {
            return assign(alloc, tokens, budget);
        }
        if is_next_word::<ProcedureWord>(tokens) {
            read!(budget.deeper(tokens));
            return always(alloc, tokens, budget);
        }
        named_item(alloc, tokens, budget)
    }

    ghost is_known = { module_item_known };
}

impl Repeated for ModuleItems {
    ghost is_repeated = { module_item_repeated };
}
