// `case`, `casez` and `casex` over their parts (IEEE 1800-2017, 12.5).
ghost use Rattle.std.specs.Prelude.{◌≡◌, List, [], ◌∷◌, ◌++◌, Option, IfOk, IfErr};
ghost use Rattle.sv_value.specs.declared.number.RoutineId.{RoutineId as routine_id};
ghost use Rattle.sv_flat.specs.declared.class.Routine.{Routine as routine};
ghost use Rattle.sv_flat.specs.declared.object.Object.{Object as object};
ghost use Rattle.sv_flat.specs.declared.stmt.Form.TheVariants as form;
ghost use Rattle.sv_tree.specs.Stmt as tree;
ghost use Rattle.sv_tree.specs.StmtView as view;
ghost use Rattle.sv_names.specs.declared.checked.Checked.{Checked as checked};
ghost use Rattle.sv_names.specs.declared.hoisted.Hoisted.{Hoisted as hoisted};
ghost use Rattle.sv_names.specs.declared.refusal.Refusal.TheVariants.{Memory};
ghost use Rattle.sv_names.specs.Cases as cases;
ghost use Rattle.sv_names.specs.Code as code;
ghost use Rattle.sv_names.specs.Emits.{Emits};
ghost use Rattle.sv_names.specs.Given.{Gives};
ghost use Rattle.sv_names.specs.Hoisted.{mapped};
ghost use Rattle.sv_names.specs.Statements as statements;
ghost use Rattle.sv_elab_flow.specs.Parts as parts;
ghost use Rattle.sv_elab_flow.specs.Parts.{EmitsOf};
ghost use Rattle.sv_elab_flow.specs.CaseSteps as steps;

use crate::around::place;
use crate::code::statement;
use crate::heads::Heads;
use crate::list::put_last;
use std::alloc::Global;
use sv_flat::{CaseItem, Expr, Form, Stmt};
use sv_names::{Hoisted, Refusal, first};
use sv_tree::{CaseItem as TreeItem, CaseWord, Stmt as TreeStmt};
use sv_value::{CaseKind, Place, RoutineId, Seq};

/// Which bits are ignored (12.5.1).
fn case_of(word: CaseWord) -> CaseKind
    ensures { result ≡ cases.case_of word }
{
    match word {
        CaseWord::Exact => CaseKind::Exact,
        CaseWord::Z => CaseKind::Z,
        CaseWord::X => CaseKind::X,
    }
}

// ---- the routines of items

/// The statements of one more item, where it has labels.
fn and_labelled(
    ids: Seq<RoutineId>,
    item: &TreeItem,
    id: RoutineId,
) -> Result<Seq<RoutineId>, Refusal>
    ensures ok { IfOk result (λ all. (rest : tree.CaseItems) (rs : List routine_id) → all ++ cases.with_labels rest rs
        ≡ ids ++ cases.with_labels (view.case_item item.now rest) (id ∷ rs)) }
    ensures err { IfErr result (λ e. e ≡ Memory) }
{
    match item {
        TreeItem::Labels(_, _) => put_last(ids, id),
        TreeItem::Default(_) => Ok(ids),
    }
}

/// The statements of the items with labels.
fn with_labels(
    alloc: Global,
    items: &[TreeItem],
    bodies: &[RoutineId],
) -> Result<Seq<RoutineId>, Refusal>
    ensures ok { IfOk result (λ ids. ids ≡ cases.with_labels (view.case_item_list items.now) bodies.now) }
    ensures err { IfErr result (λ e. e ≡ Memory) }
{
    let mut ids = Seq::new(alloc);
    let mut rest = bodies;
    for item in items {
        let [id, more @ ..] = rest else {
            return Ok(ids);
        };
        ids = and_labelled(ids, item, *id)?;
        rest = more;
    }
    Ok(ids)
}

/// The statements of the last default so far.
fn or_default(default: Option<RoutineId>, item: &TreeItem, id: RoutineId) -> Option<RoutineId>
    ensures { (rest : tree.CaseItems) (rs : List routine_id) → steps.or_later result (cases.default_in rest rs)
        ≡ steps.or_later default (cases.default_in (view.case_item item.now rest) (id ∷ rs)) }
{
    match item {
        TreeItem::Labels(_, _) => default,
        TreeItem::Default(_) => Some(id),
    }
}

/// The statements of the last default.
fn default_in(items: &[TreeItem], bodies: &[RoutineId]) -> Option<RoutineId>
    ensures { result ≡ cases.default_in (view.case_item_list items.now) bodies.now }
{
    let mut default = None;
    let mut rest = bodies;
    for item in items {
        let [id, more @ ..] = rest else {
            return default;
        };
        default = or_default(default, item, *id);
        rest = more;
    }
    default
}

// ---- the whole

/// The items of the flat design: labels with their statements.
#[tactic(auto, using(crate::proofs::CaseLaws::items_none))]
fn items_of(
    alloc: Global,
    labels: Seq<Seq<Expr>>,
    bodies: &[RoutineId],
) -> Result<Seq<CaseItem>, Refusal>
    ensures ok { IfOk result (λ items. items ≡ cases.items_of labels bodies.now) }
    ensures err { IfErr result (λ e. e ≡ Memory) }
{
    let mut items = Seq::new(alloc);
    let mut rest = bodies;
    for labels in labels.into_vec() {
        if let [id, more @ ..] = rest {
            items.push(CaseItem { labels, body: *id })?;
            rest = more;
        }
    }
    Ok(items)
}

/// A `case` over its subject with its labels, and the routines of its items.
fn case_form(
    alloc: Global,
    word: CaseWord,
    items: &[TreeItem],
    heads: Hoisted<Heads>,
    bodies: &[RoutineId],
) -> Result<Hoisted<Form>, Refusal>
    ensures ok { IfOk result (λ f. f ≡ steps.case_form word (view.case_item_list items.now) heads bodies.now) }
    ensures err { IfErr result (λ e. e ≡ Memory) }
{
    let (subject, labels) = heads.value;
    let ids = with_labels(alloc, items, bodies)?;
    let items_made = items_of(alloc, labels, ids.as_slice())?;
    Ok(Hoisted {
        hidden: heads.hidden,
        calls: heads.calls,
        value: Form::Case {
            kind: case_of(word),
            subject,
            items: items_made,
            default: default_in(items, bodies),
        },
    })
}

/// A `case` over the routines of its items, each of which may break a rule.
pub fn case_made(
    alloc: Global,
    s: &TreeStmt,
    word: CaseWord,
    items: &[TreeItem],
    heads: Result<Hoisted<Heads>, Refusal>,
    bodies: Result<Seq<RoutineId>, Refusal>,
) -> Result<Seq<Stmt>, Refusal>
    ensures { (rs rs' : List routine) (os os' : List object) (h : checked (hoisted cases.Heads)) (cs : checked (List code.Code))
        → Gives heads h → EmitsOf (parts.routines_of (parts.place_of s.now)) rs rs' os os' bodies cs
        → Emits rs rs' os os' result (statements.case_given (parts.place_of s.now) word (view.case_item_list items.now) h cs) }
{
    match heads {
        Ok(heads) => match bodies {
            Ok(bodies) => {
                let form = case_form(alloc, word, items, heads, bodies.as_slice())?;
                statement(alloc, place(s), form)
            }
            Err(f) => Err(f),
        },
        Err(e) => match bodies {
            Ok(_) => Err(e),
            Err(f) => Err(first(e, f)),
        },
    }
}
