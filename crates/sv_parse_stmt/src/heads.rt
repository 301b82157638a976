// Forms that hold statements, up to the first of these (IEEE 1800-2017, A.6).
ghost use Rattle.std.specs.Prelude.{◌≡◌, ℕ};
ghost use Rattle.sv_tree.specs.Codes.{toks};
ghost use Rattle.sv_tree.specs.StmtGrammar as grammar;
ghost use Rattle.sv_tree.specs.Grammar.{reads};
ghost use Rattle.sv_parse_stmt.specs.Fronts.{Begun};

use crate::delays::{Delays, cycles_amount};
use crate::events::event;
use crate::for_parts::{for_init, for_step};
use crate::front::{Front, Head, Placed, ReadFront};
use std::alloc::Global;
use sv_parse::{Budget, Part, expect, expect_word, is_next, name};
use sv_parse_expr::{Enclosed, value};
use sv_tree::{Body, CaseWord, Kind, Token};

// ---- choices

/// `"if" "(" expr ")"`
#[tactic(auto, unfolding(sv_tree::specs::StmtGrammar::if_))]
pub fn if_else<'a>(alloc: Global, tokens: &'a [Token], budget: Budget) -> ReadFront<'a>
    ensures { Begun budget result (reads budget grammar.if_ (toks tokens.now)) }
{
    let (word, rest) = read!(expect(tokens, Kind::If));
    let (condition, rest) = read!(Enclosed::read(alloc, rest, budget));
    Ok(Front::If {
        at: word.at,
        condition,
        rest,
    })
}

/// `("case" | "casez" | "casex") "(" expr ")"`
#[tactic(auto, using(crate::proofs::HeadLaws::case_is))]
pub fn case<'a>(alloc: Global, tokens: &'a [Token], budget: Budget) -> ReadFront<'a>
    ensures { Begun budget result (reads budget grammar.case_ (toks tokens.now)) }
{
    let ((token, word), rest) = read!(expect_word::<CaseWord>(tokens));
    let (subject, rest) = read!(Enclosed::read(alloc, rest, budget));
    Ok(Front::Case {
        at: token.at,
        word,
        subject,
        rest,
    })
}

// ---- loops

/// `"while" "(" expr ")"`
#[tactic(auto, unfolding(sv_tree::specs::StmtGrammar::while_))]
pub fn while_loop<'a>(alloc: Global, tokens: &'a [Token], budget: Budget) -> ReadFront<'a>
    ensures { Begun budget result (reads budget grammar.while_ (toks tokens.now)) }
{
    let (word, rest) = read!(expect(tokens, Kind::While));
    let (condition, rest) = read!(Enclosed::read(alloc, rest, budget));
    Ok(Front::Head {
        at: word.at,
        head: Head::While(condition),
        rest,
    })
}

/// `"do"`
#[tactic(auto, using(crate::proofs::HeadLaws::do_is))]
pub fn do_loop<'a>(tokens: &'a [Token]) -> ReadFront<'a>
    ensures { (d : ℕ) → Begun d result (reads d grammar.do_ (toks tokens.now)) }
{
    let (word, rest) = read!(expect(tokens, Kind::Do));
    Ok(Front::Head {
        at: word.at,
        head: Head::Do,
        rest,
    })
}

/// `"repeat" "(" expr ")"`
#[tactic(auto, unfolding(sv_tree::specs::StmtGrammar::repeat))]
pub fn repeat<'a>(alloc: Global, tokens: &'a [Token], budget: Budget) -> ReadFront<'a>
    ensures { Begun budget result (reads budget grammar.repeat (toks tokens.now)) }
{
    let (word, rest) = read!(expect(tokens, Kind::Repeat));
    let (count, rest) = read!(Enclosed::read(alloc, rest, budget));
    Ok(Front::Head {
        at: word.at,
        head: Head::Repeat(count),
        rest,
    })
}

/// `"forever"`
#[tactic(auto, unfolding(sv_tree::specs::StmtGrammar::forever))]
pub fn forever<'a>(tokens: &'a [Token]) -> ReadFront<'a>
    ensures { (d : ℕ) → Begun d result (reads d grammar.forever (toks tokens.now)) }
{
    let (word, rest) = read!(expect(tokens, Kind::Forever));
    Ok(Front::Head {
        at: word.at,
        head: Head::Forever,
        rest,
    })
}

/// `"foreach" "(" id "[" id "]" ")"`
#[tactic(auto, unfolding(sv_tree::specs::StmtGrammar::foreach))]
pub fn foreach<'a>(tokens: &'a [Token]) -> ReadFront<'a>
    ensures { (d : ℕ) → Begun d result (reads d grammar.foreach (toks tokens.now)) }
{
    let (word, rest) = read!(expect(tokens, Kind::Foreach));
    let (_, rest) = read!(expect(rest, Kind::LeftParenthesis));
    let (array, rest) = read!(name(rest));
    let (_, rest) = read!(expect(rest, Kind::LeftBracket));
    let (index, rest) = read!(name(rest));
    let (_, rest) = read!(expect(rest, Kind::RightBracket));
    let (_, rest) = read!(expect(rest, Kind::RightParenthesis));
    Ok(Front::Head {
        at: word.at,
        head: Head::Foreach { array, index },
        rest,
    })
}

/// `"for" "(" (type id "=" expr | lval "=" expr) ";" expr ";" step ")"`
#[tactic(auto, unfolding(sv_tree::specs::StmtGrammar::for_))]
pub fn for_loop<'a>(alloc: Global, tokens: &'a [Token], budget: Budget) -> ReadFront<'a>
    ensures { Begun budget result (reads budget grammar.for_ (toks tokens.now)) }
{
    let (word, rest) = read!(expect(tokens, Kind::For));
    let (_, rest) = read!(expect(rest, Kind::LeftParenthesis));
    let (init, rest) = read!(for_init(alloc, rest, budget));
    let init = held!(Box::new(alloc, init));
    let (_, rest) = read!(expect(rest, Kind::Semicolon));
    let (condition, rest) = read!(value(alloc, rest, budget));
    let (_, rest) = read!(expect(rest, Kind::Semicolon));
    let (step, rest) = read!(for_step(alloc, rest, budget));
    let step = held!(Box::new(alloc, step));
    let (_, rest) = read!(expect(rest, Kind::RightParenthesis));
    let head = Head::For {
        init,
        condition,
        step,
    };
    Ok(Front::Head {
        at: word.at,
        head,
        rest,
    })
}

// ---- waits

/// `delay`
#[tactic(auto, unfolding(sv_tree::specs::StmtGrammar::after))]
pub fn after<'a>(alloc: Global, tokens: &'a [Token], budget: Budget) -> ReadFront<'a>
    ensures { Begun budget result (reads budget grammar.after (toks tokens.now)) }
{
    let (delay, rest) = read!(Delays::read(alloc, tokens, budget));
    Ok(Front::Head {
        at: delay.at,
        head: Head::After(delay),
        rest,
    })
}

/// `"@" event`
#[tactic(auto, unfolding(sv_tree::specs::StmtGrammar::on_event))]
pub fn on_event<'a>(alloc: Global, tokens: &'a [Token], budget: Budget) -> ReadFront<'a>
    ensures { Begun budget result (reads budget grammar.on_event (toks tokens.now)) }
{
    let (sign, rest) = read!(expect(tokens, Kind::At));
    let (event, rest) = read!(event(alloc, rest, budget));
    Ok(Front::Head {
        at: sign.at,
        head: Head::On(event),
        rest,
    })
}

/// `"##" (number | id | "(" expr ")")`
#[tactic(auto, unfolding(sv_tree::specs::StmtGrammar::cycles))]
pub fn cycles<'a>(alloc: Global, tokens: &'a [Token], budget: Budget) -> ReadFront<'a>
    ensures { Begun budget result (reads budget grammar.cycles (toks tokens.now)) }
{
    let (sign, rest) = read!(expect(tokens, Kind::HashHash));
    let (amount, rest) = read!(cycles_amount(alloc, rest, budget));
    Ok(Front::Head {
        at: sign.at,
        head: Head::Cycles(amount),
        rest,
    })
}

/// `"wait" "(" expr ")"`, or all of `"wait" "fork" ";"`
#[tactic(auto, using(crate::proofs::HeadLaws::wait_is, crate::proofs::HeadLaws::wait_enclosed, crate::proofs::HeadLaws::wait_fork, crate::proofs::HeadLaws::wait_deep))]
pub fn wait<'a>(alloc: Global, tokens: &'a [Token], budget: Budget) -> ReadFront<'a>
    ensures { Begun budget result (reads budget grammar.wait (toks tokens.now)) }
{
    let (word, rest) = read!(expect(tokens, Kind::Wait));
    if is_next(rest, Kind::LeftParenthesis) {
        read!(budget.deeper(rest));
        let (condition, rest) = read!(Enclosed::read(alloc, rest, budget));
        return Ok(Front::Head {
            at: word.at,
            head: Head::Wait(condition),
            rest,
        });
    }
    let (_, rest) = read!(expect(rest, Kind::Fork));
    let (_, rest) = read!(expect(rest, Kind::Semicolon));
    let form = Placed {
        at: word.at,
        body: Body::WaitFork,
    };
    Ok(Front::Whole(form, rest))
}
