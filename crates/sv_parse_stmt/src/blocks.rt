// Blocks, up to their first statement and from their last one on (IEEE 1800-2017, A.2.8 and A.6.3).
ghost use Rattle.std.specs.Prelude.{◌≡◌, ℕ, map, true, false};
ghost use Rattle.sv_tree.specs.Codes.{toks};
ghost use Rattle.sv_tree.specs.Stmt as tree;
ghost use Rattle.sv_tree.specs.StmtGrammar as grammar;
ghost use Rattle.sv_tree.specs.StmtGrammar.{Declared};
ghost use Rattle.sv_tree.specs.StmtView as view;
ghost use Rattle.sv_tree.specs.Grammar.{reads};
ghost use Rattle.sv_parse.specs.Outcome.{Gives};
ghost use Rattle.sv_parse_stmt.specs.Begins.{is_decl};
ghost use Rattle.sv_parse_stmt.specs.Blocks.{Closes, Declares, Opens};
ghost use Rattle.sv_parse_stmt.specs.Fronts.{Begun, block_ended, placed};

use crate::begins::{begins_decl, begins_stmt, goes_on_named};
use crate::front::{BlockHead, BlockWord, Front, Placed, ReadFront};
use std::alloc::Global;
use sv_parse::{Budget, Read, ReadError, expect, expect_word, is_next, label, name};
use sv_parse_type::{begins_word_decl, named_decl_rest, word_decl};
use sv_tree::{Body, Decl, JoinWord, Kind, Name, Stmt, Token};

/// The declarations and the statements of a block or of a subroutine.
#[derive(Drop)]
pub struct BlockItems {
    pub decls: Vec<Decl>,
    pub stmts: Vec<Stmt>,
}

// ---- declarations

/// `decl`, where one comes next.
#[tactic(auto, using(crate::proofs::BlockLaws::early_word, crate::proofs::BlockLaws::early_named))]
fn declaration<'a>(alloc: Global, tokens: &'a [Token], budget: Budget) -> Read<'a, Decl>
    requires { is_decl (toks tokens.now) ≡ true }
    ensures { Gives (λ x. (Declared (view.decl x.0), toks x.1.now)) result (reads budget grammar.early (toks tokens.now)) }
{
    if begins_word_decl(tokens) {
        return word_decl(alloc, tokens, budget);
    }
    let (first, rest) = read!(name(tokens));
    named_decl_rest(alloc, first, rest, budget)
}

/// `{decl}` at the front of the items of a block.
#[tactic(auto, using(crate::proofs::BlockLaws::items_start))]
fn declarations<'a>(alloc: Global, tokens: &'a [Token], budget: Budget) -> Read<'a, Vec<Decl>>
    ensures { Declares budget result (toks tokens.now) }
{
    let mut list = Vec::new(alloc);
    let mut rest = tokens;
    'decls: while begins_decl(rest) {
        let (item, after) = read!(declaration(alloc, rest, budget));
        held!(list.push(item));
        rest = after;
    }
    Ok((list, rest))
}

/// What stops the items of a block after its declarations where nothing may stand inside: a statement that comes there is too deep.
#[tactic(auto, using(crate::proofs::BlockLaws::low_name, crate::proofs::BlockLaws::low_other))]
fn no_statement<'a>(tokens: &'a [Token]) -> Result<(), ReadError<'a>>
    requires { is_decl (toks tokens.now) ≡ false }
    ensures { Closes result (toks tokens.now) }
{
    if is_next(tokens, Kind::Name) {
        let (_, rest) = read!(expect(tokens, Kind::Name));
        if goes_on_named(rest) {
            return Err(ReadError::TooDeep(rest));
        }
        return Err(ReadError::Unexpected(rest));
    }
    if begins_stmt(tokens) {
        return Err(ReadError::TooDeep(tokens));
    }
    Ok(())
}

/// `{decl}` at the front of the items of a block, after which statements alone are left.
pub fn opening<'a>(alloc: Global, tokens: &'a [Token], budget: Budget) -> Read<'a, Vec<Decl>>
    ensures { Opens budget result (toks tokens.now) }
{
    let (decls, rest) = read!(declarations(alloc, tokens, budget));
    if budget.left() > 0 {
        return Ok((decls, rest));
    }
    read!(no_statement(rest));
    Ok((decls, rest))
}

// ---- fronts

/// `"begin" [":" id] {decl}`
#[tactic(auto, using(crate::proofs::BlockLaws::block_is))]
pub fn block<'a>(alloc: Global, tokens: &'a [Token], budget: Budget) -> ReadFront<'a>
    ensures { Begun budget result (reads budget grammar.block (toks tokens.now)) }
{
    let (word, rest) = read!(expect(tokens, Kind::Begin));
    let (name, rest) = read!(label(rest));
    let (decls, rest) = read!(opening(alloc, rest, budget));
    let head = BlockHead {
        at: word.at,
        word: BlockWord::Begin,
        name,
        decls,
    };
    Ok(Front::Block(head, rest))
}

/// `"fork" [":" id] {decl}`
#[tactic(auto, using(crate::proofs::BlockLaws::fork_is))]
pub fn fork<'a>(alloc: Global, tokens: &'a [Token], budget: Budget) -> ReadFront<'a>
    ensures { Begun budget result (reads budget grammar.fork (toks tokens.now)) }
{
    let (word, rest) = read!(expect(tokens, Kind::Fork));
    let (name, rest) = read!(label(rest));
    let (decls, rest) = read!(opening(alloc, rest, budget));
    let head = BlockHead {
        at: word.at,
        word: BlockWord::Fork,
        name,
        decls,
    };
    Ok(Front::Block(head, rest))
}

// ---- ends

/// A block, as a form.
fn block_of(name: Option<Name>, decls: Vec<Decl>, stmts: Vec<Stmt>, label: Option<Name>) -> Body
    ensures { view.body result ≡ tree.Block name (map view.decl decls.items) (view.stmt_list stmts.items) label }
{
    Body::Block {
        name,
        decls,
        stmts,
        label,
    }
}

/// A fork, as a form.
fn fork_of(
    name: Option<Name>,
    decls: Vec<Decl>,
    stmts: Vec<Stmt>,
    join: JoinWord,
    label: Option<Name>,
) -> Body
    ensures { view.body result ≡ tree.Fork name (map view.decl decls.items) (view.stmt_list stmts.items) join label }
{
    Body::Fork {
        name,
        decls,
        stmts,
        join,
        label,
    }
}

/// A block of this head and these statements: `"end" [":" id]` ends it, or `("join" | "join_any" | "join_none") [":" id]`.
#[tactic(auto, using(crate::proofs::BlockParts::decls_of_items, crate::proofs::BlockParts::stmts_of_items))]
pub fn block_end<'a>(head: BlockHead, stmts: Vec<Stmt>, tokens: &'a [Token]) -> Read<'a, Placed>
    ensures { Gives (λ x. (placed x.0, toks x.1.now)) result (block_ended head (map view.stmt stmts.items, toks tokens.now)) }
{
    let BlockHead {
        at,
        word,
        name,
        decls,
    } = head;
    match word {
        BlockWord::Begin => {
            let (_, rest) = read!(expect(tokens, Kind::End));
            let (label, rest) = read!(label(rest));
            let body = block_of(name, decls, stmts, label);
            Ok((Placed { at, body }, rest))
        }
        BlockWord::Fork => {
            let ((_, join), rest) = read!(expect_word::<JoinWord>(tokens));
            let (label, rest) = read!(label(rest));
            let body = fork_of(name, decls, stmts, join, label);
            Ok((Placed { at, body }, rest))
        }
    }
}
