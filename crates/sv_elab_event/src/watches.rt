// What is watched of event expressions (IEEE 1800-2017, 9.4.2, 14.10 and 15.5.2): E7, E15, E42.
ghost use Rattle.std.specs.Prelude.{◌≡◌, IfOk, IfErr};
ghost use Rattle.sv_names.specs.declared.refusal.Refusal.TheVariants.{Memory};
ghost use Rattle.sv_names.specs.Events as events;
ghost use Rattle.sv_names.specs.Given.{Gives};
ghost use Rattle.sv_names.specs.Hoisted as hoisted;
ghost use Rattle.sv_names.specs.Views.{around_in};
ghost use Rattle.sv_elab_event.specs.Occasions as occasions;

use std::alloc::Global;
use sv_elab_expr::sv_elab_value::{alone, code_of, one_item, paired, pure};
use sv_flat::{Edge, Expr, Watch};
use sv_names::{Around, Hoisted, Refusal, Typed};
use sv_tree::EdgeWord;
use sv_value::{Place, Text};

// ---- edges

/// The edge that is written.
fn edge_of(word: EdgeWord) -> Edge
    ensures { result ≡ events.edge_of word }
{
    match word {
        EdgeWord::Posedge => Edge::Posedge,
        EdgeWord::Negedge => Edge::Negedge,
        EdgeWord::Unwritten => Edge::Change,
    }
}

/// Whether an edge is written.
fn has_edge(word: EdgeWord) -> bool
    ensures { result ≡ events.has_edge word }
{
    match word {
        EdgeWord::Posedge => true,
        EdgeWord::Negedge => true,
        EdgeWord::Unwritten => false,
    }
}

// ---- values

/// What is watched of one item. E15: an edge is one of a number.
fn item_watched(
    alloc: Global,
    word: EdgeWord,
    at: Place,
    t: Typed,
) -> Result<(Edge, Hoisted<Expr>), Refusal>
    ensures { Gives result (occasions.item_watched word at t) }
{
    if t.ty.is_event() {
        if has_edge(word) {
            return Err(Refusal::Rule { rule: 15, at });
        }
        return Ok((Edge::Trigger, code_of(t)));
    }
    if has_edge(word) && !t.ty.is_integral() {
        return Err(Refusal::Rule { rule: 15, at });
    }
    let code = alone(alloc, t)?;
    Ok((edge_of(word), code))
}

/// What is watched of a value. E42: a whole array; E15: an edge is one of a number.
fn value_watched(
    alloc: Global,
    word: EdgeWord,
    at: Place,
    t: Typed,
) -> Result<(Edge, Hoisted<Expr>), Refusal>
    ensures { Gives result (occasions.value_watched word at t) }
{
    match one_item(t) {
        Ok(t) => item_watched(alloc, word, at, t),
        Err(e) => Err(e),
    }
}

/// A condition, if there is one.
fn if_any(alloc: Global, condition: Option<Hoisted<Expr>>) -> Hoisted<Option<Expr>>
    ensures { result ≡ hoisted.if_any condition }
{
    match condition {
        None => pure(alloc, None),
        Some(condition) => Hoisted {
            hidden: condition.hidden,
            calls: condition.calls,
            value: Some(condition.value),
        },
    }
}

/// What fires, and what must be true then.
fn watch_form(
    alloc: Global,
    edge: Edge,
    code: Hoisted<Expr>,
    condition: Option<Hoisted<Expr>>,
) -> Result<Hoisted<Watch>, Refusal>
    ensures ok { IfOk result (λ w. w ≡ events.watch_form edge code condition) }
    ensures err { IfErr result (λ e. e ≡ Memory) }
{
    let condition = if_any(alloc, condition);
    let both = paired(code, condition)?;
    let (expr, condition) = both.value;
    Ok(Hoisted {
        hidden: both.hidden,
        calls: both.calls,
        value: Watch::On {
            expr,
            edge,
            condition,
        },
    })
}

/// The change of a value that is waited for. E42: a whole array; E15: an edge is one of a number.
pub(crate) fn value_watch(
    alloc: Global,
    word: EdgeWord,
    at: Place,
    condition: Option<Hoisted<Expr>>,
    t: Typed,
) -> Result<Hoisted<Watch>, Refusal>
    ensures { Gives result (occasions.value_watch word at condition t) }
{
    match value_watched(alloc, word, at, t) {
        Ok((edge, code)) => {
            let watch = watch_form(alloc, edge, code, condition)?;
            Ok(watch)
        }
        Err(e) => Err(e),
    }
}

// ---- clocking blocks

/// An update of a clocking block. E7: it has neither edge nor `iff`.
pub(crate) fn block_watch(
    alloc: Global,
    word: EdgeWord,
    has_condition: bool,
    block: &[Text],
    at: Place,
    around: &Around,
) -> Result<Hoisted<Watch>, Refusal>
    ensures { Gives result (occasions.block_watch (around_in around.now) word has_condition block.now at) }
{
    if has_edge(word) || has_condition {
        return Err(Refusal::Rule { rule: 7, at });
    }
    let clock = around.numbers.clocking(block);
    Ok(pure(alloc, Watch::Updates(clock, 1)))
}
