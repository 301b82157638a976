// The part of a statement before its first inner statement (IEEE 1800-2017, A.6.4).
ghost use Rattle.std.specs.Prelude.{◌≡◌};
ghost use Rattle.sv_tree.specs.Codes.{toks};
ghost use Rattle.sv_tree.specs.StmtView as view;
ghost use Rattle.sv_parse.specs.Outcome.{Gives};
ghost use Rattle.sv_parse_stmt.specs.Fronts.{headed, placed};
ghost use Rattle.sv_parse_stmt.specs.declared.front.Head.TheVariants as head;

use std::alloc::Global;
use sv_parse::{Budget, Part, Read, ReadError, expect};
use sv_parse_expr::Enclosed;
use sv_tree::{
    Body, CaseWord, Decl, Delay, Event, Expr, ForInit, ForStep, Kind, Name, Stmt, Token,
};
use sv_value::Place;

/// A form and its place, before it has a label or not.
#[derive(Drop)]
pub struct Placed {
    pub at: Place,
    pub body: Body,
}

/// What stands before the one statement of a form.
pub enum Head {
    /// `"for" "(" (type id "=" expr | lval "=" expr) ";" expr ";" step ")"`
    For {
        init: Box<ForInit>,
        condition: Expr,
        step: Box<ForStep>,
    },
    /// `"while" "(" expr ")"`
    While(Expr),
    /// `"do"`; its condition stands after the statement
    Do,
    /// `"repeat" "(" expr ")"`
    Repeat(Expr),
    /// `"forever"`
    Forever,
    /// `"foreach" "(" id "[" id "]" ")"`
    Foreach {
        array: Name,
        index: Name,
    },
    /// `delay`
    After(Delay),
    /// `"@" event`
    On(Event),
    /// `"##" (number | id | "(" expr ")")`
    Cycles(Expr),
    /// `"wait" "(" expr ")"`
    Wait(Expr),
}

impl Drop for Head {
    fn drop(self) {
        match self {
            Head::For {
                init: _,
                condition: _,
                step: _,
            } => {}
            Head::While(_) => {}
            Head::Do => {}
            Head::Repeat(_) => {}
            Head::Forever => {}
            Head::Foreach { array: _, index: _ } => {}
            Head::After(_) => {}
            Head::On(_) => {}
            Head::Cycles(_) => {}
            Head::Wait(_) => {}
        }
    }
}

/// What a block begins with: `begin` or `fork`.
#[derive(Clone, Copy)]
pub enum BlockWord {
    Begin,
    Fork,
}

/// A block up to its first statement.
#[derive(Drop)]
pub struct BlockHead {
    pub at: Place,
    pub word: BlockWord,
    pub name: Option<Name>,
    pub decls: Vec<Decl>,
}

/// The part of a statement before its first inner statement, and the tokens after it.
#[derive(Drop)]
pub enum Front<'a> {
    /// All of the statement.
    Whole(Placed, &'a [Token]),
    /// One statement is left, and for `do` the end after it.
    Head {
        at: Place,
        head: Head,
        rest: &'a [Token],
    },
    /// The statements of a block and its end are left.
    Block(BlockHead, &'a [Token]),
    /// A statement is left, and an `else` with another, or none.
    If {
        at: Place,
        condition: Expr,
        rest: &'a [Token],
    },
    /// The items of a `case` and its end are left.
    Case {
        at: Place,
        word: CaseWord,
        subject: Expr,
        rest: &'a [Token],
    },
}

/// The front of a statement, or why there is none.
pub type ReadFront<'a> = Result<Front<'a>, ReadError<'a>>;

impl Head {
    /// A form of this head and its statement, and the tokens after it: `"while" "(" expr ")" ";"` ends a `do`.
    pub fn completed<'a>(
        self,
        alloc: Global,
        at: Place,
        inner: Stmt,
        tokens: &'a [Token],
        budget: Budget,
    ) -> Read<'a, Placed>
        ensures { Gives (λ x. (placed x.0, toks x.1.now)) result (headed budget at self (view.stmt inner, toks tokens.now)) }
    {
        let inner = held!(Box::new(alloc, inner));
        let body = match self {
            Head::Do => return do_end(alloc, at, inner, tokens, budget),
            Head::For {
                init,
                condition,
                step,
            } => Body::For {
                init,
                condition,
                step,
                body: inner,
            },
            Head::While(condition) => Body::While(condition, inner),
            Head::Repeat(count) => Body::Repeat(count, inner),
            Head::Forever => Body::Forever(inner),
            Head::Foreach { array, index } => Body::Foreach {
                array,
                index,
                body: inner,
            },
            Head::After(delay) => Body::After(delay, inner),
            Head::On(event) => Body::On(event, inner),
            Head::Cycles(amount) => Body::Cycles {
                at,
                amount,
                body: inner,
            },
            Head::Wait(condition) => Body::Wait {
                at,
                condition,
                body: inner,
            },
        };
        Ok((Placed { at, body }, tokens))
    }
}

/// `"while" "(" expr ")" ";"`, after the statement of a `do`
fn do_end<'a>(
    alloc: Global,
    at: Place,
    inner: Box<Stmt>,
    tokens: &'a [Token],
    budget: Budget,
) -> Read<'a, Placed>
    ensures { Gives (λ x. (placed x.0, toks x.1.now)) result (headed budget at head.Do (view.stmt inner.value, toks tokens.now)) }
{
    let (_, rest) = read!(expect(tokens, Kind::While));
    let (condition, rest) = read!(Enclosed::read(alloc, rest, budget));
    let (_, rest) = read!(expect(rest, Kind::Semicolon));
    let body = Body::Do(inner, condition);
    Ok((Placed { at, body }, rest))
}
