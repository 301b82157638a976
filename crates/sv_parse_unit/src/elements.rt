// Modules and programs (IEEE 1800-2017, A.1.2).
ghost use Rattle.std.specs.Prelude.{◌≡◌};
ghost use Rattle.sv_grammar.specs.Code.Code.{Rep};
ghost use Rattle.sv_tree.specs.declared.kind.Kind.{Kind};
ghost use Rattle.sv_tree.specs.declared.kind.Kind.TheVariants as k;
ghost use Rattle.sv_tree.specs.Codes.{tok};
ghost use Rattle.sv_tree.specs.Forms.{C};
ghost use Rattle.sv_tree.specs.Items as items;
ghost use Rattle.sv_tree.specs.UnitGrammar as grammar;
ghost use Rattle.sv_tree.specs.UnitView as view;
ghost use Rattle.sv_parse.specs.Outcome.{Reads, seen};
ghost use Rattle.sv_parse_type.specs.Applied.{ReadsAfter};
ghost use Rattle.sv_parse_unit.specs.Elements.{element_rest};
ghost use Rattle.sv_parse_unit.specs.Views.{element_head};

use crate::items::{ModuleItems, ProgramItems};
use crate::params::maybe_params;
use crate::ports::maybe_ports;
use std::alloc::Global;
use sv_parse::{Budget, Read, expect, items, label, name, word_or};
use sv_tree::{DesignElement, Item, Kind, Life, Param, Port, Token};

/// The parameters of a design element, where brackets for them are written, and its ports.
#[derive(Drop)]
pub struct ElementHead {
    pub params: Option<Vec<Param>>,
    pub ports: Vec<Port>,
}

/// `[pports] [ports] ";"`
#[tactic(auto, unfolding(sv_tree::specs::UnitGrammar::element_head))]
fn element_head<'a>(alloc: Global, tokens: &'a [Token], budget: Budget) -> Read<'a, ElementHead>
    ensures { Reads element_head budget grammar.element_head tokens.now result }
{
    let (params, rest) = read!(maybe_params(alloc, tokens, budget));
    let (ports, rest) = read!(maybe_ports(alloc, rest, budget));
    let (_, rest) = read!(expect(rest, Kind::Semicolon));
    Ok((ElementHead { params, ports }, rest))
}

/// What tells modules from programs: their items, and the word at their end.
pub trait ElementKind {
    /// The production of an item.
    ghost item: { C items.Item };

    /// The word at the end.
    ghost end: { Kind };

    /// The word at the end.
    fn end() -> Kind
        ensures { result ≡ end };

    /// Reads the items, and tells the tokens after them.
    fn items<'a>(alloc: Global, tokens: &'a [Token], budget: Budget) -> Read<'a, Vec<Item>>
        ensures { Reads (seen view.item) budget (Rep item) tokens.now result };
}

/// `module`
pub struct Modules;

impl ElementKind for Modules {
    ghost item = { grammar.module_item };

    ghost end = { k.Endmodule };

    fn end() -> Kind {
        Kind::Endmodule
    }

    fn items<'a>(alloc: Global, tokens: &'a [Token], budget: Budget) -> Read<'a, Vec<Item>> {
        items::<ModuleItems>(alloc, tokens, budget)
    }
}

/// `program`
pub struct Programs;

impl ElementKind for Programs {
    ghost item = { grammar.program_item };

    ghost end = { k.Endprogram };

    fn end() -> Kind {
        Kind::Endprogram
    }

    fn items<'a>(alloc: Global, tokens: &'a [Token], budget: Budget) -> Read<'a, Vec<Item>> {
        items::<ProgramItems>(alloc, tokens, budget)
    }
}

/// `[life] id [pports] [ports] ";" {item} end [":" id]` after the word of a design element
pub fn element<'a, K: ElementKind>(
    alloc: Global,
    word: &Token,
    tokens: &'a [Token],
    budget: Budget,
) -> Read<'a, DesignElement>
    ensures { ReadsAfter view.design_element (tok word.now) budget (element_rest K.item K.end) tokens.now result }
{
    let (life, rest) = word_or::<Life>(tokens, Life::Unwritten);
    let (name, rest) = read!(name(rest));
    let (ElementHead { params, ports }, rest) = read!(element_head(alloc, rest, budget));
    let (items, rest) = read!(K::items(alloc, rest, budget));
    let (_, rest) = read!(expect(rest, K::end()));
    let (label, rest) = read!(label(rest));
    let element = DesignElement {
        at: word.at,
        life,
        name,
        params,
        ports,
        items,
        label,
    };
    Ok((element, rest))
}
