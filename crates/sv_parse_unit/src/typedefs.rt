// Names of types (IEEE 1800-2017, A.2.1.3).
ghost use Rattle.sv_tree.specs.Classes as classes;
ghost use Rattle.sv_tree.specs.Items as items;
ghost use Rattle.sv_tree.specs.UnitGrammar as grammar;
ghost use Rattle.sv_tree.specs.UnitView as view;
ghost use Rattle.sv_parse.specs.Outcome.{Reads};
ghost use Rattle.sv_parse_unit.specs.Views.{typedef_item, typedef_class_item};

use std::alloc::Global;
use sv_parse::{Budget, Read, expect, is_next, name};
use sv_parse_type::written_type;
use sv_tree::{ClassItem, Item, Kind, Name, Token, Typedef};

/// A name of a type: it stands for a type that is written, or a class will have it.
#[derive(Drop)]
pub enum TypeName {
    Defined(Box<Typedef>),
    Announced(Name),
}

/// `type id | "class" id`
#[tactic(auto, using(crate::proofs::TypedLaws::typedef_class, crate::proofs::TypedLaws::typedef_type))]
fn type_name<'a>(alloc: Global, tokens: &'a [Token], budget: Budget) -> Read<'a, TypeName>
    ensures item { Reads typedef_item budget (grammar.typedef_rest items.Typedef items.Announce) tokens.now result }
    ensures class_item { Reads typedef_class_item budget (grammar.typedef_rest classes.Typedef classes.Announce) tokens.now result }
{
    if is_next(tokens, Kind::Class) {
        let (_, rest) = read!(expect(tokens, Kind::Class));
        let (name, rest) = read!(name(rest));
        return Ok((TypeName::Announced(name), rest));
    }
    let (of, rest) = read!(written_type(alloc, tokens, budget));
    let (name, rest) = read!(name(rest));
    let typedef = held!(Box::new(alloc, Typedef { of, name }));
    Ok((TypeName::Defined(typedef), rest))
}

/// `typedef`
#[tactic(auto, unfolding(sv_tree::specs::UnitGrammar::typedef))]
fn typedef<'a>(alloc: Global, tokens: &'a [Token], budget: Budget) -> Read<'a, TypeName>
    ensures item { Reads typedef_item budget (grammar.typedef items.Typedef items.Announce) tokens.now result }
    ensures class_item { Reads typedef_class_item budget (grammar.typedef classes.Typedef classes.Announce) tokens.now result }
{
    let (_, rest) = read!(expect(tokens, Kind::Typedef));
    let (name, rest) = read!(type_name(alloc, rest, budget));
    let (_, rest) = read!(expect(rest, Kind::Semicolon));
    Ok((name, rest))
}

/// `typedef`, among items
pub fn item_typedef<'a>(alloc: Global, tokens: &'a [Token], budget: Budget) -> Read<'a, Item>
    ensures { Reads view.item budget (grammar.typedef items.Typedef items.Announce) tokens.now result }
{
    let (name, rest) = read!(typedef(alloc, tokens, budget));
    match name {
        TypeName::Defined(typedef) => Ok((Item::Typedef(typedef), rest)),
        TypeName::Announced(name) => Ok((Item::Announce(name), rest)),
    }
}

/// `typedef`, in a class
pub fn class_typedef<'a>(alloc: Global, tokens: &'a [Token], budget: Budget) -> Read<'a, ClassItem>
    ensures { Reads view.class_item budget (grammar.typedef classes.Typedef classes.Announce) tokens.now result }
{
    let (name, rest) = read!(typedef(alloc, tokens, budget));
    match name {
        TypeName::Defined(typedef) => Ok((ClassItem::Typedef(typedef), rest)),
        TypeName::Announced(name) => Ok((ClassItem::Announce(name), rest)),
    }
}
