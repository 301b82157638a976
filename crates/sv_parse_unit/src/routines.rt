// Subroutines (IEEE 1800-2017, A.2.6 and A.2.7).
ghost use Rattle.std.specs.Prelude.{◌≡◌, ℕ, [], ◌∷◌, IfOk};
ghost use Rattle.sv_grammar.specs.Reading.{one_of};
ghost use Rattle.sv_tree.specs.declared.kind.Kind.TheVariants as k;
ghost use Rattle.sv_tree.specs.Codes.{tok, toks};
ghost use Rattle.sv_tree.specs.Forms.{codes_of};
ghost use Rattle.sv_tree.specs.Units as units;
ghost use Rattle.sv_tree.specs.UnitGrammar as grammar;
ghost use Rattle.sv_tree.specs.UnitView as view;
ghost use Rattle.sv_parse.specs.Outcome.{Gives, Reads, seen};
ghost use Rattle.sv_parse.proofs.UnitParts.{argument_known, argument_listed};
ghost use Rattle.sv_parse_unit.specs.First.{argument_first};
ghost use Rattle.sv_parse_unit.specs.Views.{called};

use crate::lists::enclosed_list_or_none;
use crate::typed::{ImpliedTypes, TypedName, typed_name};
use std::alloc::Global;
use sv_parse::{
    Budget, Listed, Part, Read, ReadError, Word, expect, is_next, maybe, maybe_word, name, word_or,
};
use sv_parse_expr::Values;
use sv_parse_stmt::{BlockItems, items};
use sv_tree::{Argument, Direction, Head, ImpliedType, Kind, Life, Name, Returns, Routine, Token};
use sv_value::{Excerpt, NoMemory};

// ---- arguments

/// `[dir] [itype] id ["=" expr]`
pub struct Arguments;

impl Part for Arguments {
    type Tree = Argument;

    ghost Seen = { units.Argument };

    ghost production = { grammar.argument };

    ghost view = { view.argument };

    ghost first = { argument_first };

    #[tactic(auto, using(sv_parse::proofs::ExprParts::mem_both))]
    fn begins(kind: Kind) -> bool {
        Direction::of(kind).is_some() || ImpliedTypes::begins(kind) || kind == Kind::Name
    }

    #[tactic(auto, unfolding(sv_tree::specs::UnitGrammar::argument))]
    fn read<'a>(alloc: Global, tokens: &'a [Token], budget: Budget) -> Read<'a, Argument> {
        let (direction, rest) = maybe_word::<Direction>(tokens);
        let (TypedName { of, name }, rest) = read!(typed_name(alloc, rest, budget));
        let (default, rest) = read!(maybe::<Values>(alloc, rest, budget));
        let argument = Argument {
            direction,
            of,
            name,
            default,
        };
        Ok((argument, rest))
    }

    ghost is_known = { argument_known };
}

impl Listed for Arguments {
    ghost is_listed = { argument_listed };
}

/// `[args]`
#[tactic(auto, using(crate::proofs::RoutineLaws::arguments_written, crate::proofs::RoutineLaws::arguments_unwritten), unfolding(sv_tree::specs::UnitGrammar::arguments))]
fn maybe_arguments<'a>(
    alloc: Global,
    tokens: &'a [Token],
    budget: Budget,
) -> Read<'a, Vec<Argument>>
    ensures { Reads (seen view.argument) budget grammar.maybe_arguments tokens.now result }
{
    if !is_next(tokens, Kind::LeftParenthesis) {
        return Ok((Vec::new(alloc), tokens));
    }
    enclosed_list_or_none::<Arguments>(alloc, tokens, budget)
}

// ---- heads

/// What a function gives, and its name.
#[derive(Drop)]
pub struct FunctionName {
    pub returns: Returns,
    pub name: Name,
}

/// The name of a constructor, at its word.
fn new_name(alloc: Global, word: &Token) -> Result<Name, NoMemory>
    ensures { IfOk result (λ n. n ≡ grammar.new_name (tok word.now)) }
{
    let text = Excerpt::new(alloc, b"new")?;
    Ok(Name { at: word.at, text })
}

/// `"new" | ["void" | itype] id`
#[tactic(auto, using(crate::proofs::RoutineLaws::called_new, crate::proofs::RoutineLaws::called_void, crate::proofs::RoutineLaws::called_typed))]
fn called<'a>(alloc: Global, tokens: &'a [Token], budget: Budget) -> Read<'a, FunctionName>
    ensures { Reads called budget grammar.called tokens.now result }
{
    if is_next(tokens, Kind::New) {
        let (word, rest) = read!(expect(tokens, Kind::New));
        let name = held!(new_name(alloc, word));
        let returns = Returns::Value(ImpliedType::Unwritten);
        return Ok((FunctionName { returns, name }, rest));
    }
    if is_next(tokens, Kind::Void) {
        let (_, rest) = read!(expect(tokens, Kind::Void));
        let (name, rest) = read!(name(rest));
        let returns = Returns::Void;
        return Ok((FunctionName { returns, name }, rest));
    }
    let (TypedName { of, name }, rest) = read!(typed_name(alloc, tokens, budget));
    let returns = Returns::Value(of);
    Ok((FunctionName { returns, name }, rest))
}

/// `"function" [life] ("new" | ["void" | itype] id) [args]`
#[tactic(auto, unfolding(sv_tree::specs::UnitGrammar::function_head))]
fn function_head<'a>(alloc: Global, tokens: &'a [Token], budget: Budget) -> Read<'a, Head>
    ensures { Reads view.head budget grammar.function_head tokens.now result }
{
    let (word, rest) = read!(expect(tokens, Kind::Function));
    let (life, rest) = word_or::<Life>(rest, Life::Unwritten);
    let (FunctionName { returns, name }, rest) = read!(called(alloc, rest, budget));
    let (arguments, rest) = read!(maybe_arguments(alloc, rest, budget));
    let head = Head {
        at: word.at,
        life,
        returns,
        name,
        arguments,
    };
    Ok((head, rest))
}

/// `"task" [life] id [args]`
#[tactic(auto, unfolding(sv_tree::specs::UnitGrammar::task_head))]
fn task_head<'a>(alloc: Global, tokens: &'a [Token], budget: Budget) -> Read<'a, Head>
    ensures { Reads view.head budget grammar.task_head tokens.now result }
{
    let (word, rest) = read!(expect(tokens, Kind::Task));
    let (life, rest) = word_or::<Life>(rest, Life::Unwritten);
    let (name, rest) = read!(name(rest));
    let (arguments, rest) = read!(maybe_arguments(alloc, rest, budget));
    let head = Head {
        at: word.at,
        life,
        returns: Returns::Task,
        name,
        arguments,
    };
    Ok((head, rest))
}

/// `head`
#[tactic(auto, using(crate::proofs::RoutineLaws::head_function, crate::proofs::RoutineLaws::head_task))]
pub fn head<'a>(alloc: Global, tokens: &'a [Token], budget: Budget) -> Read<'a, Head>
    ensures { Reads view.head budget grammar.head tokens.now result }
{
    if is_next(tokens, Kind::Function) {
        return function_head(alloc, tokens, budget);
    }
    task_head(alloc, tokens, budget)
}

// ---- subroutines

/// `id | "new"`
#[tactic(auto, unfolding(sv_tree::specs::UnitGrammar::routine_name))]
fn routine_name<'a>(alloc: Global, tokens: &'a [Token]) -> Read<'a, Name>
    ensures { (d : ℕ) → Reads (λ n. n) d grammar.routine_name tokens.now result }
{
    if is_next(tokens, Kind::Name) {
        return name(tokens);
    }
    let (word, rest) = read!(expect(tokens, Kind::New));
    Ok((held!(new_name(alloc, word)), rest))
}

/// `"endfunction" | "endtask"`, and the tokens after it.
fn last_word<'a>(tokens: &'a [Token]) -> Read<'a, &'a Token>
    ensures { Gives (λ x. (tok x.0.now, toks x.1.now)) result (one_of (codes_of (k.Endfunction ∷ k.Endtask ∷ [])) (toks tokens.now)) }
{
    match tokens {
        [first, rest @ ..] if matches!(first.kind, Kind::Endfunction | Kind::Endtask) => {
            Ok((first, rest))
        }
        _ => Err(ReadError::Unexpected(tokens)),
    }
}

/// `("endfunction" | "endtask") [":" (id | "new")]`
#[tactic(auto, using(crate::proofs::RoutineLaws::routine_name_low), unfolding(sv_tree::specs::UnitGrammar::routine_end))]
fn routine_end<'a>(alloc: Global, tokens: &'a [Token]) -> Read<'a, Option<Name>>
    ensures { (d : ℕ) → Reads (λ n. n) d grammar.routine_end tokens.now result }
{
    let (_, rest) = read!(last_word(tokens));
    if !is_next(rest, Kind::Colon) {
        return Ok((None, rest));
    }
    let (_, rest) = read!(expect(rest, Kind::Colon));
    let (name, rest) = read!(routine_name(alloc, rest));
    Ok((Some(name), rest))
}

/// `routine`
#[tactic(auto, using(crate::proofs::RoutineLaws::decls_are, crate::proofs::RoutineLaws::stmts_are), unfolding(sv_tree::specs::UnitGrammar::routine))]
pub fn routine<'a>(alloc: Global, tokens: &'a [Token], budget: Budget) -> Read<'a, Routine>
    ensures { Reads view.routine budget grammar.routine tokens.now result }
{
    let (head, rest) = read!(head(alloc, tokens, budget));
    let (_, rest) = read!(expect(rest, Kind::Semicolon));
    let (BlockItems { decls, stmts }, rest) = read!(items(alloc, rest, budget));
    let (label, rest) = read!(routine_end(alloc, rest));
    let routine = Routine {
        head,
        decls,
        stmts,
        label,
    };
    Ok((routine, rest))
}
