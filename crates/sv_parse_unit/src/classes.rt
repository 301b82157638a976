// Classes (IEEE 1800-2017, A.1.2 and A.1.9).
ghost use Rattle.std.specs.Prelude.{◌≡◌, ◌≤◌, length};
ghost use Rattle.std.specs.List.{prefix_len};
ghost use Rattle.sv_grammar.specs.Tokens.{mem};
ghost use Rattle.sv_grammar.specs.Code.Code.{Rep};
ghost use Rattle.sv_tree.specs.declared.kind.Kind.TheVariants as k;
ghost use Rattle.sv_tree.specs.Codes.{code, tok, toks};
ghost use Rattle.sv_tree.specs.Forms as forms;
ghost use Rattle.sv_tree.specs.Forms.{◌▸◌, any_of, optional, then_};
ghost use Rattle.sv_tree.specs.Classes as classes;
ghost use Rattle.sv_tree.specs.Stmt as stmts;
ghost use Rattle.sv_tree.specs.StmtView as decls;
ghost use Rattle.sv_tree.specs.UnitGrammar as grammar;
ghost use Rattle.sv_tree.specs.UnitView as view;
ghost use Rattle.sv_parse.specs.Outcome.{Reads};
ghost use Rattle.sv_parse.proofs.UnitParts.{class_decl_known, class_item_known, class_item_repeated};
ghost use Rattle.sv_parse_type.specs.Applied.{ReadsAfter};
ghost use Rattle.sv_parse_unit.specs.After.{ReadsAfterTwo};
ghost use Rattle.sv_parse_unit.specs.First.{class_decl_first, class_item_first, qualifier_first};

use crate::routines::{head, routine};
use crate::typed::is_type_word;
use crate::typedefs::class_typedef;
use std::alloc::Global;
use sv_parse::{
    Budget, Part, Read, Repeated, begins, code_of, expect, is_next, items, label, name, skip,
};
use sv_parse_type::typed;
use sv_tree::{
    Class, ClassItem, Decl, Kind, Life, Method, Name, Property, PureMethod, Qualifiers, Token,
};

// ---- declarations

/// A declaration in a class, in which `static` is no life.
pub struct ClassDecls;

impl Part for ClassDecls {
    type Tree = Decl;

    ghost Seen = { stmts.Decl };

    ghost production = { grammar.class_decl };

    ghost view = { decls.decl };

    ghost first = { class_decl_first };

    #[tactic(auto, using(sv_parse::proofs::ExprParts::mem_both))]
    fn begins(kind: Kind) -> bool {
        matches!(kind, Kind::Automatic | Kind::Var) || is_type_word(kind) || kind == Kind::Name
    }

    #[tactic(auto, using(crate::proofs::ClassLaws::decl_automatic, crate::proofs::ClassLaws::decl_var, crate::proofs::ClassLaws::decl_typed))]
    fn read<'a>(alloc: Global, tokens: &'a [Token], budget: Budget) -> Read<'a, Decl> {
        if is_next(tokens, Kind::Automatic) {
            let (_, rest) = read!(expect(tokens, Kind::Automatic));
            let (_, rest) = skip(rest, Kind::Var);
            return typed(alloc, Life::Automatic, rest, budget);
        }
        if is_next(tokens, Kind::Var) {
            let (_, rest) = read!(expect(tokens, Kind::Var));
            return typed(alloc, Life::Unwritten, rest, budget);
        }
        typed(alloc, Life::Unwritten, tokens, budget)
    }

    ghost is_known = { class_decl_known };
}

// ---- qualifiers

/// Whether a kind is a qualifier of an item of a class.
fn is_qualifier(kind: Kind) -> bool
    ensures { result ≡ mem (code kind) qualifier_first }
{
    matches!(
        kind,
        Kind::Local | Kind::Protected | Kind::Static | Kind::Virtual
    )
}

/// How many qualifiers come next.
fn qualifier_count(tokens: &[Token]) -> usize
    ensures value { result ≡ prefix_len (λ t. mem (code t.kind) qualifier_first) tokens.now }
    ensures within { result ≤ length tokens.now }
{
    match tokens {
        [] => 0,
        [first, rest @ ..] => {
            if is_qualifier(first.kind) {
                1 + qualifier_count(rest)
            } else {
                0
            }
        }
    }
}

/// Whether a word is among tokens.
fn has_word(tokens: &[Token], kind: Kind) -> bool
    ensures { result ≡ grammar.has_word kind (toks tokens.now) }
{
    match tokens {
        [] => false,
        [first, rest @ ..] => code_of(first.kind) == code_of(kind) || has_word(rest, kind),
    }
}

/// The qualifiers that words stand for.
fn qualifiers_of(words: &[Token]) -> Qualifiers
    ensures { result ≡ grammar.qualifiers_of (toks words.now) }
{
    Qualifiers {
        is_local: has_word(words, Kind::Local),
        is_protected: has_word(words, Kind::Protected),
        is_static: has_word(words, Kind::Static),
        is_virtual: has_word(words, Kind::Virtual),
    }
}

// ---- items

/// `decl | routine`, after the words before it
#[tactic(auto, using(crate::proofs::ClassLaws::member_decl, crate::proofs::ClassLaws::member_routine))]
fn member<'a>(
    alloc: Global,
    words: &[Token],
    tokens: &'a [Token],
    budget: Budget,
) -> Read<'a, ClassItem>
    ensures { ReadsAfter view.class_item (toks words.now) budget grammar.member tokens.now result }
{
    let qualifiers = qualifiers_of(words);
    if begins::<ClassDecls>(tokens) {
        let (decl, rest) = read!(ClassDecls::read(alloc, tokens, budget));
        let property = held!(Box::new(alloc, Property { qualifiers, decl }));
        return Ok((ClassItem::Property(property), rest));
    }
    let (routine, rest) = read!(routine(alloc, tokens, budget));
    let method = Method {
        qualifiers,
        routine,
    };
    Ok((ClassItem::Method(held!(Box::new(alloc, method))), rest))
}

/// `{"local" | "protected" | "static" | "virtual"} (decl | routine)`
fn qualified<'a>(alloc: Global, tokens: &'a [Token], budget: Budget) -> Read<'a, ClassItem>
    ensures { Reads view.class_item budget (then_ (Rep (any_of grammar.qualifier_words)) grammar.member) tokens.now result }
{
    let count = qualifier_count(tokens);
    member(alloc, &tokens[..count], &tokens[count..], budget)
}

/// `"pure" "virtual" head ";"`
#[tactic(auto, unfolding(sv_tree::specs::UnitGrammar::pure_method))]
fn pure_method<'a>(alloc: Global, tokens: &'a [Token], budget: Budget) -> Read<'a, ClassItem>
    ensures { Reads view.class_item budget grammar.pure_method tokens.now result }
{
    let (word, rest) = read!(expect(tokens, Kind::Pure));
    let (_, rest) = read!(expect(rest, Kind::Virtual));
    let (head, rest) = read!(head(alloc, rest, budget));
    let (_, rest) = read!(expect(rest, Kind::Semicolon));
    let method = PureMethod { at: word.at, head };
    Ok((ClassItem::Pure(held!(Box::new(alloc, method))), rest))
}

/// `citem`
pub struct ClassItems;

impl Part for ClassItems {
    type Tree = ClassItem;

    ghost Seen = { classes.ClassItem };

    ghost production = { grammar.class_item };

    ghost view = { view.class_item };

    ghost first = { class_item_first };

    #[tactic(auto, using(sv_parse::proofs::ExprParts::mem_both))]
    fn begins(kind: Kind) -> bool {
        matches!(kind, Kind::Pure | Kind::Typedef | Kind::Semicolon)
            || is_qualifier(kind)
            || ClassDecls::begins(kind)
            || matches!(kind, Kind::Function | Kind::Task)
    }

    #[tactic(auto, using(crate::proofs::ClassLaws::item_pure, crate::proofs::ClassLaws::item_typedef, crate::proofs::ClassLaws::item_null, crate::proofs::ClassLaws::item_member))]
    fn read<'a>(alloc: Global, tokens: &'a [Token], budget: Budget) -> Read<'a, ClassItem> {
        if is_next(tokens, Kind::Pure) {
            return pure_method(alloc, tokens, budget);
        }
        if is_next(tokens, Kind::Typedef) {
            return class_typedef(alloc, tokens, budget);
        }
        if is_next(tokens, Kind::Semicolon) {
            let (_, rest) = read!(expect(tokens, Kind::Semicolon));
            return Ok((ClassItem::Null, rest));
        }
        qualified(alloc, tokens, budget)
    }

    ghost is_known = { class_item_known };
}

impl Repeated for ClassItems {
    ghost is_repeated = { class_item_repeated };
}

// ---- classes

/// `["extends" id]`
fn base(tokens: &[Token]) -> Read<Option<Name>>
    ensures { Reads (λ n. n) 0 (optional (k.Extends ▸ forms.name)) tokens.now result }
{
    if !is_next(tokens, Kind::Extends) {
        return Ok((None, tokens));
    }
    let (_, rest) = read!(expect(tokens, Kind::Extends));
    let (name, rest) = read!(name(rest));
    Ok((Some(name), rest))
}

/// `id ["extends" id] ";" {citem} "endclass" [":" id]` after the first words of a class, which stands at the first
#[tactic(auto, unfolding(sv_tree::specs::UnitGrammar::class_rest))]
fn class_rest<'a>(
    alloc: Global,
    is_virtual: bool,
    word: &Token,
    tokens: &'a [Token],
    budget: Budget,
) -> Read<'a, Class>
    ensures { ReadsAfterTwo view.class is_virtual (tok word.now) budget grammar.class_rest tokens.now result }
{
    let (name, rest) = read!(name(tokens));
    let (base, rest) = read!(base(rest));
    let (_, rest) = read!(expect(rest, Kind::Semicolon));
    let (items, rest) = read!(items::<ClassItems>(alloc, rest, budget));
    let (_, rest) = read!(expect(rest, Kind::Endclass));
    let (label, rest) = read!(label(rest));
    let class = Class {
        at: word.at,
        is_virtual,
        name,
        base,
        items,
        label,
    };
    Ok((class, rest))
}

/// `class`
#[tactic(auto, using(crate::proofs::ClassLaws::class_virtual, crate::proofs::ClassLaws::class_plain))]
pub fn class<'a>(alloc: Global, tokens: &'a [Token], budget: Budget) -> Read<'a, Class>
    ensures { Reads view.class budget grammar.class tokens.now result }
{
    if is_next(tokens, Kind::Virtual) {
        let (word, rest) = read!(expect(tokens, Kind::Virtual));
        let (_, rest) = read!(expect(rest, Kind::Class));
        return class_rest(alloc, true, word, rest, budget);
    }
    let (word, rest) = read!(expect(tokens, Kind::Class));
    class_rest(alloc, false, word, rest, budget)
}
