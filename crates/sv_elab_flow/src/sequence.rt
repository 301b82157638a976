// Statements and routines one after the other (IEEE 1800-2017, 9.3).
ghost use Rattle.std.specs.Prelude.{List, []};
ghost use Rattle.sv_value.specs.declared.place.Place.{Place as place_type};
ghost use Rattle.sv_flat.specs.declared.class.Routine.{Routine as routine};
ghost use Rattle.sv_flat.specs.declared.object.Object.{Object as object};
ghost use Rattle.sv_flat.specs.declared.stmt.Form.{Form as form_of};
ghost use Rattle.sv_names.specs.declared.checked.Checked.{Checked as checked};
ghost use Rattle.sv_names.specs.declared.checked.Checked.TheVariants.{Good};
ghost use Rattle.sv_names.specs.declared.hoisted.Hoisted.{Hoisted as hoisted};
ghost use Rattle.sv_names.specs.Blocks as blocks;
ghost use Rattle.sv_names.specs.Code as code;
ghost use Rattle.sv_names.specs.Emits.{Emits};
ghost use Rattle.sv_names.specs.Given.{Gives};
ghost use Rattle.sv_names.specs.Joined.{put_behind};
ghost use Rattle.sv_names.specs.Statements as statements;
ghost use Rattle.sv_elab_flow.specs.Parts as parts;
ghost use Rattle.sv_elab_flow.specs.Parts.{EmitsOf, EmitsRoutine};

use crate::around::place;
use crate::code::statement;
use crate::list::{joined, put_last};
use std::alloc::Global;
use sv_flat::{Form, Stmt};
use sv_names::{Hoisted, Refusal, first};
use sv_tree::Stmt as TreeStmt;
use sv_value::{RoutineId, Seq};

// ---- statements

/// No statement.
#[tactic(auto, using(crate::proofs::Added::none_added))]
pub fn nothing(alloc: Global) -> Result<Seq<Stmt>, Refusal>
    ensures { (rs : List routine) (os : List object) → Emits rs rs os os result (Good code.empty) }
{
    Ok(Seq::new(alloc))
}

/// Statements, and then further ones; each can break a rule.
#[tactic(auto, using(crate::proofs::Added::sequence_made))]
pub fn in_sequence(
    a: Result<Seq<Stmt>, Refusal>,
    b: Result<Seq<Stmt>, Refusal>,
) -> Result<Seq<Stmt>, Refusal>
    ensures { (rs rs' rs'' : List routine) (os os' os'' : List object) (x y : checked code.Code)
        → Emits rs rs' os os' a x → Emits rs' rs'' os' os'' b y
        → Emits rs rs'' os os'' result (blocks.in_sequence x y) }
{
    match a {
        Ok(front) => match b {
            Ok(back) => joined(front, back),
            Err(f) => Err(f),
        },
        Err(e) => match b {
            Ok(_) => Err(e),
            Err(f) => Err(first(e, f)),
        },
    }
}

/// A statement before those of its body, as `#d s` and `@e s` have it (9.4).
#[tactic(auto, using(crate::proofs::Added::then_made))]
pub fn then(
    alloc: Global,
    s: &TreeStmt,
    control: Result<Hoisted<Form>, Refusal>,
    body: Result<Seq<Stmt>, Refusal>,
) -> Result<Seq<Stmt>, Refusal>
    ensures { (rs rs' : List routine) (os os' : List object) (f : checked (hoisted form_of)) (x : checked code.Code)
        → Gives control f → Emits rs rs' os os' body x
        → Emits rs rs' os os' result (statements.then_code (parts.place_of s.now) f x) }
{
    match control {
        Ok(form) => match body {
            Ok(body) => {
                let front = statement(alloc, place(s), form)?;
                joined(front, body)
            }
            Err(f) => Err(f),
        },
        Err(e) => match body {
            Ok(_) => Err(e),
            Err(f) => Err(first(e, f)),
        },
    }
}

// ---- routines

/// No routine.
#[tactic(auto, using(crate::proofs::Added::none_added))]
pub fn no_routine(alloc: Global) -> Result<Seq<RoutineId>, Refusal>
    ensures { (at : place_type) (rs : List routine) (os : List object)
        → EmitsOf (parts.routines_of at) rs rs os os result (Good []) }
{
    Ok(Seq::new(alloc))
}

/// The routine of a part behind those of others; each can break a rule.
#[tactic(auto, using(crate::proofs::Added::next_made))]
pub fn and_routine(
    ids: Result<Seq<RoutineId>, Refusal>,
    next: Result<RoutineId, Refusal>,
) -> Result<Seq<RoutineId>, Refusal>
    ensures { (at : place_type) (rs rs' rs'' : List routine) (os os' os'' : List object) (xs : checked (List code.Code))
        (x : checked code.Code) → EmitsOf (parts.routines_of at) rs rs' os os' ids xs → EmitsRoutine at rs' rs'' os' os'' next x
        → EmitsOf (parts.routines_of at) rs rs'' os os'' result (put_behind xs x) }
{
    match ids {
        Ok(ids) => match next {
            Ok(next) => put_last(ids, next),
            Err(f) => Err(f),
        },
        Err(e) => match next {
            Ok(_) => Err(e),
            Err(f) => Err(first(e, f)),
        },
    }
}
