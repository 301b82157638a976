// Files and what they consist of (IEEE 1800-2017, A.1.2).
ghost use Rattle.sv_tree.specs.Descriptions as descriptions;
ghost use Rattle.sv_tree.specs.UnitGrammar as grammar;
ghost use Rattle.sv_tree.specs.UnitView as view;
ghost use Rattle.sv_parse.specs.Outcome.{Reads, seen};
ghost use Rattle.sv_parse.proofs.UnitParts.{description_known, description_repeated};
ghost use Rattle.sv_parse_unit.specs.First.{description_first};

use crate::elements::{Modules, Programs, element};
use crate::named_items::NamedItems;
use std::alloc::Global;
use sv_parse::{Budget, Part, Read, Repeated, begins, expect, is_next, items};
use sv_tree::{Description, Item, Kind, Token};

/// `unit`
pub struct Descriptions;

impl Part for Descriptions {
    type Tree = Description;

    ghost Seen = { descriptions.Description };

    ghost production = { grammar.description };

    ghost view = { view.description };

    ghost first = { description_first };

    #[tactic(auto, using(sv_parse::proofs::ExprParts::mem_both))]
    fn begins(kind: Kind) -> bool {
        matches!(kind, Kind::Module | Kind::Program)
            || NamedItems::begins(kind)
            || kind == Kind::Semicolon
    }

    #[tactic(auto, using(crate::proofs::ElementLaws::a_module, crate::proofs::ElementLaws::a_program, crate::proofs::ElementLaws::an_item, crate::proofs::ElementLaws::nothing))]
    fn read<'a>(alloc: Global, tokens: &'a [Token], budget: Budget) -> Read<'a, Description> {
        if is_next(tokens, Kind::Module) {
            let (word, rest) = read!(expect(tokens, Kind::Module));
            let (module, rest) = read!(element::<Modules>(alloc, word, rest, budget));
            return Ok((Description::Module(held!(Box::new(alloc, module))), rest));
        }
        if is_next(tokens, Kind::Program) {
            let (word, rest) = read!(expect(tokens, Kind::Program));
            let (program, rest) = read!(element::<Programs>(alloc, word, rest, budget));
            return Ok((Description::Program(held!(Box::new(alloc, program))), rest));
        }
        if begins::<NamedItems>(tokens) {
            let (item, rest) = read!(NamedItems::read(alloc, tokens, budget));
            return Ok((Description::Item(item), rest));
        }
        let (_, rest) = read!(expect(tokens, Kind::Semicolon));
        Ok((Description::Item(Item::Null), rest))
    }

    ghost is_known = { description_known };
}

impl Repeated for Descriptions {
    ghost is_repeated = { description_repeated };
}

/// `file`: descriptions, and the end
#[tactic(auto, unfolding(sv_tree::specs::UnitGrammar::file))]
pub fn file<'a>(alloc: Global, tokens: &'a [Token], budget: Budget) -> Read<'a, Vec<Description>>
    ensures { Reads (seen view.description) budget grammar.file tokens.now result }
{
    let (list, rest) = read!(items::<Descriptions>(alloc, tokens, budget));
    let (_, rest) = read!(expect(rest, Kind::EndOfText));
    Ok((list, rest))
}
