// Clocking blocks (IEEE 1800-2017, A.6.11).
ghost use Rattle.std.specs.Prelude.{◌≡◌, [], ◌∷◌, Option, IfOk, option_map};
ghost use Rattle.sv_grammar.specs.Tokens.{mem, next};
ghost use Rattle.sv_tree.specs.declared.kind.Kind.TheVariants as k;
ghost use Rattle.sv_tree.specs.Codes.{code, toks};
ghost use Rattle.sv_tree.specs.Forms as forms;
ghost use Rattle.sv_tree.specs.Forms.{◌◂◌, kinds_of, list, pair};
ghost use Rattle.sv_tree.specs.Units as units;
ghost use Rattle.sv_tree.specs.UnitGrammar as grammar;
ghost use Rattle.sv_tree.specs.UnitView as view;
ghost use Rattle.sv_parse.specs.Outcome.{Reads, seen};
ghost use Rattle.sv_parse.proofs.UnitParts.{skew_known, default_skew_known, default_skew_repeated, output_side_known, clocking_item_known, clocking_item_repeated};
ghost use Rattle.sv_parse_unit.specs.After.{ReadsAfterTwo};
ghost use Rattle.sv_parse_unit.specs.First.{amount_first, clocking_item_first};

use std::alloc::Global;
use sv_parse::{
    Budget, Names, Part, Read, Repeated, Word, begins, expect, expect_word, is_next, items, label,
    list, maybe, name, word_or,
};
use sv_parse_stmt::amount;
use sv_tree::{
    ClockingBlock, ClockingItem, Direction, EdgeWord, Item, Kind, Name, PortDirection, Sided, Skew,
    Token,
};
use sv_value::{NoMemory, Place};

// ---- skews

/// Whether an amount of time begins with the next token.
fn begins_amount(tokens: &[Token]) -> bool
    ensures { result ≡ mem (next (toks tokens.now)).code amount_first }
{
    match tokens {
        [] => false,
        [first, ..] => matches!(
            first.kind,
            Kind::Number | Kind::TimeLiteral | Kind::Name | Kind::LeftParenthesis
        ),
    }
}

/// `skew`
pub struct Skews;

impl Part for Skews {
    type Tree = Skew;

    ghost Seen = { units.Skew };

    ghost production = { grammar.skew };

    ghost view = { view.skew };

    ghost first = { code k.Hash ∷ [] };

    fn begins(kind: Kind) -> bool {
        kind == Kind::Hash
    }

    #[tactic(auto, using(crate::proofs::ClockingLaws::skew_step, crate::proofs::ClockingLaws::skew_amount), unfolding(sv_tree::specs::UnitGrammar::skew))]
    fn read<'a>(alloc: Global, tokens: &'a [Token], budget: Budget) -> Read<'a, Skew> {
        let (sign, rest) = read!(expect(tokens, Kind::Hash));
        if begins_amount(rest) {
            let (amount, rest) = read!(amount(alloc, rest, budget));
            return Ok((Skew::Amount(sign.at, amount), rest));
        }
        let (_, rest) = read!(expect(rest, Kind::OneStep));
        Ok((Skew::OneStep(sign.at), rest))
    }

    ghost is_known = { skew_known };
}

// ---- directions with their skews

/// A direction of ports, among those of clocking signals.
fn direction_of(direction: PortDirection) -> Direction
    ensures { result ≡ grammar.direction_of direction }
{
    match direction {
        PortDirection::Input => Direction::Input,
        PortDirection::Output => Direction::Output,
    }
}

/// `("input" | "output") skew`
pub struct DefaultSkews;

impl Part for DefaultSkews {
    type Tree = Sided;

    ghost Seen = { units.Sided };

    ghost production = { grammar.default_skew };

    ghost view = { view.sided };

    ghost first = { kinds_of grammar.port_directions };

    fn begins(kind: Kind) -> bool {
        PortDirection::of(kind).is_some()
    }

    #[tactic(auto, unfolding(sv_tree::specs::UnitGrammar::default_skew))]
    fn read<'a>(alloc: Global, tokens: &'a [Token], budget: Budget) -> Read<'a, Sided> {
        let ((_, direction), rest) = read!(expect_word::<PortDirection>(tokens));
        let (skew, rest) = read!(Skews::read(alloc, rest, budget));
        let sided = Sided {
            direction: direction_of(direction),
            skew: Some(skew),
        };
        Ok((sided, rest))
    }

    ghost is_known = { default_skew_known };
}

impl Repeated for DefaultSkews {
    ghost is_repeated = { default_skew_repeated };
}

/// `"output" [skew]`
pub struct Outputs;

impl Part for Outputs {
    type Tree = Option<Skew>;

    ghost Seen = { Option units.Skew };

    ghost production = { grammar.output_side };

    ghost view = { option_map view.skew };

    ghost first = { code k.Output ∷ [] };

    fn begins(kind: Kind) -> bool {
        kind == Kind::Output
    }

    #[tactic(auto, unfolding(sv_tree::specs::UnitGrammar::output_side))]
    fn read<'a>(alloc: Global, tokens: &'a [Token], budget: Budget) -> Read<'a, Option<Skew>> {
        let (_, rest) = read!(expect(tokens, Kind::Output));
        maybe::<Skews>(alloc, rest, budget)
    }

    ghost is_known = { output_side_known };
}

/// One direction alone.
fn one_side(alloc: Global, direction: Direction, skew: Option<Skew>) -> Result<Vec<Sided>, NoMemory>
    ensures { IfOk result (λ v. v.items ≡ record { direction = direction; skew = skew } ∷ []) }
{
    let mut sides = Vec::new(alloc);
    sides.push(Sided { direction, skew })?;
    Ok(sides)
}

/// `"input" [skew] ["output" [skew]]`
#[tactic(auto, unfolding(sv_tree::specs::UnitGrammar::input_side))]
fn input_side<'a>(alloc: Global, tokens: &'a [Token], budget: Budget) -> Read<'a, Vec<Sided>>
    ensures { Reads (seen view.sided) budget grammar.input_side tokens.now result }
{
    let (_, rest) = read!(expect(tokens, Kind::Input));
    let (input, rest) = read!(maybe::<Skews>(alloc, rest, budget));
    let (output, rest) = read!(maybe::<Outputs>(alloc, rest, budget));
    let mut sides = held!(one_side(alloc, Direction::Input, input));
    match output {
        None => Ok((sides, rest)),
        Some(skew) => {
            let direction = Direction::Output;
            held!(sides.push(Sided { direction, skew }));
            Ok((sides, rest))
        }
    }
}

/// `"input" [skew] | "output" [skew] | "input" [skew] "output" [skew] | "inout"`
#[tactic(auto, using(crate::proofs::ClockingLaws::sides_input, crate::proofs::ClockingLaws::sides_output, crate::proofs::ClockingLaws::sides_inout))]
fn sides<'a>(alloc: Global, tokens: &'a [Token], budget: Budget) -> Read<'a, Vec<Sided>>
    ensures { Reads (seen view.sided) budget grammar.sides tokens.now result }
{
    if is_next(tokens, Kind::Input) {
        return input_side(alloc, tokens, budget);
    }
    if begins::<Outputs>(tokens) {
        let (skew, rest) = read!(Outputs::read(alloc, tokens, budget));
        return Ok((held!(one_side(alloc, Direction::Output, skew)), rest));
    }
    let (_, rest) = read!(expect(tokens, Kind::Inout));
    Ok((held!(one_side(alloc, Direction::Inout, None)), rest))
}

// ---- items

/// Directions, and `list(id) ";"`
fn signals<'a>(alloc: Global, tokens: &'a [Token], budget: Budget) -> Read<'a, ClockingItem>
    ensures { Reads view.clocking_item budget (pair units.Signals grammar.sides (list forms.name ◂ k.Semicolon)) tokens.now result }
{
    let (sides, rest) = read!(sides(alloc, tokens, budget));
    let (names, rest) = read!(list::<Names>(alloc, rest, budget));
    let (_, rest) = read!(expect(rest, Kind::Semicolon));
    Ok((ClockingItem::Signals(sides, names), rest))
}

/// `citems`
pub struct ClockingItems;

impl Part for ClockingItems {
    type Tree = ClockingItem;

    ghost Seen = { units.ClockingItem };

    ghost production = { grammar.clocking_item };

    ghost view = { view.clocking_item };

    ghost first = { clocking_item_first };

    #[tactic(auto, using(sv_parse::proofs::ExprParts::mem_both))]
    fn begins(kind: Kind) -> bool {
        kind == Kind::Default || Direction::of(kind).is_some()
    }

    #[tactic(auto, using(crate::proofs::ClockingLaws::item_default, crate::proofs::ClockingLaws::item_signals), unfolding(sv_tree::specs::UnitGrammar::default_skews))]
    fn read<'a>(alloc: Global, tokens: &'a [Token], budget: Budget) -> Read<'a, ClockingItem> {
        if is_next(tokens, Kind::Default) {
            let (_, rest) = read!(expect(tokens, Kind::Default));
            let (skews, rest) = read!(items::<DefaultSkews>(alloc, rest, budget));
            let (_, rest) = read!(expect(rest, Kind::Semicolon));
            return Ok((ClockingItem::Default(skews), rest));
        }
        signals(alloc, tokens, budget)
    }

    ghost is_known = { clocking_item_known };
}

impl Repeated for ClockingItems {
    ghost is_repeated = { clocking_item_repeated };
}

// ---- blocks

/// `"@" "(" ["posedge" | "negedge"] id ")" ";" {citems} "endclocking" [":" id]` after the name of the block; `default` is the place of that
/// word, where it is written.
#[tactic(auto, unfolding(sv_tree::specs::UnitGrammar::clocking_rest))]
fn block<'a>(
    alloc: Global,
    default: Option<Place>,
    block: Name,
    tokens: &'a [Token],
    budget: Budget,
) -> Read<'a, ClockingBlock>
    ensures { ReadsAfterTwo view.clocking block default budget grammar.clocking_rest tokens.now result }
{
    let (_, rest) = read!(expect(tokens, Kind::At));
    let (_, rest) = read!(expect(rest, Kind::LeftParenthesis));
    let (edge, rest) = word_or::<EdgeWord>(rest, EdgeWord::Unwritten);
    let (event, rest) = read!(name(rest));
    let (_, rest) = read!(expect(rest, Kind::RightParenthesis));
    let (_, rest) = read!(expect(rest, Kind::Semicolon));
    let (items, rest) = read!(items::<ClockingItems>(alloc, rest, budget));
    let (_, rest) = read!(expect(rest, Kind::Endclocking));
    let (label, rest) = read!(label(rest));
    let block = ClockingBlock {
        default,
        name: block,
        edge,
        event,
        items,
        label,
    };
    Ok((block, rest))
}

/// `"clocking" id "@" ..`
#[tactic(auto, using(crate::proofs::ClockingLaws::plain_is))]
fn plain_clocking<'a>(alloc: Global, tokens: &'a [Token], budget: Budget) -> Read<'a, Item>
    ensures { Reads view.item budget grammar.plain_clocking tokens.now result }
{
    let (_, rest) = read!(expect(tokens, Kind::Clocking));
    let (name, rest) = read!(name(rest));
    let (block, rest) = read!(block(alloc, None, name, rest, budget));
    Ok((Item::Clocking(held!(Box::new(alloc, block))), rest))
}

/// `"default" "clocking" id (";" | "@" ..)`
#[tactic(auto, using(crate::proofs::ClockingLaws::default_is, crate::proofs::ClockingLaws::default_alone, crate::proofs::ClockingLaws::default_block))]
fn default_clocking<'a>(alloc: Global, tokens: &'a [Token], budget: Budget) -> Read<'a, Item>
    ensures { Reads view.item budget grammar.default_clocking tokens.now result }
{
    let (word, rest) = read!(expect(tokens, Kind::Default));
    let (_, rest) = read!(expect(rest, Kind::Clocking));
    let (name, rest) = read!(name(rest));
    if is_next(rest, Kind::Semicolon) {
        let (_, rest) = read!(expect(rest, Kind::Semicolon));
        return Ok((Item::DefaultClocking(word.at, name), rest));
    }
    let (block, rest) = read!(block(alloc, Some(word.at), name, rest, budget));
    Ok((Item::Clocking(held!(Box::new(alloc, block))), rest))
}

/// `clocking`
#[tactic(auto, using(crate::proofs::ClockingLaws::clocking_plain, crate::proofs::ClockingLaws::clocking_default))]
pub fn clocking<'a>(alloc: Global, tokens: &'a [Token], budget: Budget) -> Read<'a, Item>
    ensures { Reads view.item budget grammar.clocking tokens.now result }
{
    if is_next(tokens, Kind::Clocking) {
        return plain_clocking(alloc, tokens, budget);
    }
    default_clocking(alloc, tokens, budget)
}
