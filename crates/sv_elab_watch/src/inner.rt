// The routines that stand in statements (IEEE 1800-2017, 9.3 and 12).
ghost use Rattle.std.specs.Prelude.{◌≡◌, ◌≤◌, ◌++◌, ◌∷◌, [], map, IfOk, OnOk};
ghost use Rattle.sv_flat.specs.Names.{optional};
ghost use Rattle.sv_names.specs.Watched as watched;
ghost use Rattle.sv_elab_watch.specs.Reading.{routines_in};

use std::alloc::Global;
use sv_flat::{CaseItem, Form, Routine, Stmt};
use sv_value::{NoMemory, RoutineId, Seq};

/// 1 where there are some.
pub(crate) fn one_if<T>(items: &[T]) -> u128
    ensures is { result ≡ watched.one_if items.now }
    ensures few { result ≤ 1 }
{
    match items {
        [] => 0,
        [_, ..] => 1,
    }
}

/// How many activations a form makes round what stands in it.
pub(crate) fn entered_by(form: &Form) -> u128
    ensures is { result ≡ watched.entered_by form.now }
    ensures few { result ≤ 1 }
{
    match form {
        Form::Block { locals, .. } => one_if(locals.as_slice()),
        Form::Fork { locals, .. } => one_if(locals.as_slice()),
        Form::Foreach { .. } => 1,
        Form::ForeachElement { .. } => 1,
        _ => 0,
    }
}

/// Appends a routine, where there is one.
#[tactic(auto, using(crate::proofs::InnerLaws::none_behind))]
fn push_any(id: Option<RoutineId>, ids: &mut Seq<RoutineId>) -> Result<(), NoMemory>
    ensures { OnOk result (ids.new ≡ ids.old ++ optional id) }
{
    match id {
        None => Ok(()),
        Some(id) => ids.push(id),
    }
}

/// Appends routines.
#[tactic(auto, using(crate::proofs::InnerLaws::turn_behind, crate::proofs::InnerLaws::all_behind))]
fn push_all(all: &[RoutineId], ids: &mut Seq<RoutineId>) -> Result<(), NoMemory>
    ensures { OnOk result (ids.new ≡ ids.old ++ all.now) }
{
    let mut left = all;
    while let [one, rest @ ..] = left {
        ids.push(*one)?;
        left = rest;
    }
    Ok(())
}

/// Appends the routines of the items of a `case`.
#[tactic(auto, using(crate::proofs::InnerLaws::turn_behind, crate::proofs::InnerLaws::all_behind))]
fn push_bodies(items: &[CaseItem], ids: &mut Seq<RoutineId>) -> Result<(), NoMemory>
    ensures { OnOk result (ids.new ≡ ids.old ++ map (λ a. a.body) items.now) }
{
    let mut left = items;
    while let [one, rest @ ..] = left {
        ids.push(one.body)?;
        left = rest;
    }
    Ok(())
}

/// Appends the routines that stand in a form, and the children of a fork.
#[tactic(auto, using(crate::proofs::InnerLaws::none_behind, crate::proofs::InnerLaws::both_behind, crate::proofs::InnerLaws::first_behind, crate::proofs::InnerLaws::no_children))]
fn push_inner(form: &Form, ids: &mut Seq<RoutineId>) -> Result<(), NoMemory>
    ensures { OnOk result (ids.new ≡ ids.old ++ routines_in form.now) }
{
    match form {
        Form::Block { body, .. } => ids.push(*body),
        Form::If { yes, no, .. } => {
            ids.push(*yes)?;
            push_any(*no, ids)
        }
        Form::Case { items, default, .. } => {
            push_bodies(items.as_slice(), ids)?;
            push_any(*default, ids)
        }
        Form::While { body, step, .. } => {
            ids.push(*body)?;
            push_any(*step, ids)
        }
        Form::Do { again } => ids.push(*again),
        Form::Repeat { body, .. } => ids.push(*body),
        Form::Forever { body } => ids.push(*body),
        Form::Foreach { body, .. } => ids.push(*body),
        Form::ForeachElement { body, .. } => ids.push(*body),
        Form::Fork {
            initializers,
            children,
            ..
        } => {
            push_any(*initializers, ids)?;
            push_all(children.as_slice(), ids)
        }
        _ => Ok(()),
    }
}

/// The routines that stand in a form, and the children of a fork.
pub fn inner_of(alloc: Global, form: &Form) -> Result<Seq<RoutineId>, NoMemory>
    ensures { IfOk result (λ rs. rs ≡ routines_in form.now) }
{
    let mut ids = Seq::new(alloc);
    push_inner(form, &mut ids)?;
    Ok(ids)
}

/// The statements of a routine, which are numbered from a first one on.
#[tactic(auto, using(crate::proofs::StatementLaws::body_at, crate::proofs::StatementLaws::body_past))]
pub(crate) fn body_of<'a>(first: u64, added: &'a [Routine], id: RoutineId) -> &'a [Stmt]
    ensures { result.now ≡ watched.body_from first added.now id }
{
    let place = id.0.saturating_sub(first) as usize;
    if place < added.len() {
        return added[place].body.as_slice();
    }
    &[]
}
