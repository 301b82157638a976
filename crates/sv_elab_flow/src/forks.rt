// Forks over the routines of their children (IEEE 1800-2017, 9.3.2): E27.
ghost use Rattle.std.specs.Prelude.{◌≡◌, ◌&&◌, List};
ghost use Rattle.sv_value.specs.declared.number.RoutineId.{RoutineId as routine_id};
ghost use Rattle.sv_value.specs.declared.place.Place.{Place as place_type};
ghost use Rattle.sv_flat.specs.declared.class.Routine.{Routine as routine};
ghost use Rattle.sv_flat.specs.declared.object.Object.{Object as object};
ghost use Rattle.sv_names.specs.declared.checked.Checked.{Checked as checked};
ghost use Rattle.sv_names.specs.declared.around.Returns.TheVariants.{Outside};
ghost use Rattle.sv_names.specs.Checked as rules;
ghost use Rattle.sv_names.specs.Checked.{both, given};
ghost use Rattle.sv_names.specs.Code as code;
ghost use Rattle.sv_names.specs.Emits.{Emits};
ghost use Rattle.sv_names.specs.Given.{Gives};
ghost use Rattle.sv_names.specs.Statements as statements;
ghost use Rattle.sv_names.specs.Views.{around_in};
ghost use Rattle.sv_elab_flow.specs.Forks as forks;
ghost use Rattle.sv_elab_flow.specs.Parts as parts;
ghost use Rattle.sv_elab_flow.specs.Parts.{EmitsOf};

use crate::around::place;
use crate::code::plain;
use std::alloc::Global;
use sv_elab_value::rule;
use sv_flat::{Declared, Form, JoinKind, Routine, Stmt};
use sv_names::{Around, Refusal, Returns, first as first_refusal};
use sv_tree::{JoinWord, Stmt as TreeStmt};
use sv_value::{Place, RoutineId, Seq};

/// The kind of a join.
fn join_of(join: JoinWord) -> JoinKind
    ensures { result ≡ statements.join_of join }
{
    match join {
        JoinWord::All => JoinKind::All,
        JoinWord::Any => JoinKind::Any,
        JoinWord::None => JoinKind::None,
    }
}

/// In a fork: there a function may wait, and nothing is left through it.
pub fn in_fork<'a>(around: &Around<'a>, outside: &'a Returns) -> Around<'a>
    ensures { outside.now ≡ Outside → around_in result ≡ statements.in_fork (around_in around.now) }
{
    Around {
        may_not_wait: around.is_comb,
        is_loop: false,
        returns: outside,
        ..*around
    }
}

/// Whether the parent waits for children: all but `join_none` do.
fn waits_for_children(join: JoinWord) -> bool
    ensures { result ≡ statements.waits_for_children join }
{
    match join {
        JoinWord::All => true,
        JoinWord::Any => true,
        JoinWord::None => false,
    }
}

/// E27: a fork waits where nothing may (13.4.4).
pub fn fork_stands(around: &Around, at: Place, join: JoinWord) -> Result<(), Refusal>
    ensures { Gives result (rules.rule 27 at (statements.waits_for_children join && (around_in around.now).may_not_wait)) }
{
    rule(27, at, waits_for_children(join) && around.may_not_wait)
}

/// A routine of its own for initializers, if there are some.
#[tactic(auto, using(crate::proofs::ForkLaws::first_routine_made, crate::proofs::ForkLaws::no_routine_made))]
pub fn first_routine(
    s: &TreeStmt,
    first: Result<Seq<Stmt>, Refusal>,
    routines: &mut Seq<Routine>,
) -> Result<Option<RoutineId>, Refusal>
    ensures { (rs : List routine) (os os' : List object) (x : checked code.Code) → forks.Steady x
        → Emits rs routines.old os os' first x
        → EmitsOf (statements.first_routine (parts.place_of s.now)) rs routines.new os os' result x }
{
    match first {
        Ok(first) => match first.as_slice() {
            [] => Ok(None),
            [_, ..] => {
                let id = RoutineId(routines.as_slice().len() as u64);
                routines.push(Routine {
                    at: place(s),
                    body: first,
                    subroutine: None,
                })?;
                Ok(Some(id))
            }
        },
        Err(e) => Err(e),
    }
}

/// The routine of the initializers, and those of the children.
#[tactic(auto, using(crate::proofs::Added::followed_made))]
pub fn fork_parts(
    first: Result<Option<RoutineId>, Refusal>,
    children: Result<Seq<RoutineId>, Refusal>,
) -> Result<(Option<RoutineId>, Seq<RoutineId>), Refusal>
    ensures { (at : place_type) (rs rs' rs'' : List routine) (os os' os'' : List object) (x : checked code.Code)
        (xs : checked (code.Numbered (List routine_id))) → EmitsOf (statements.first_routine at) rs rs' os os' first x
        → Emits rs' rs'' os' os'' children xs → EmitsOf (forks.fork_parts at) rs rs'' os os'' result (both x xs) }
{
    match first {
        Ok(initializers) => match children {
            Ok(children) => Ok((initializers, children)),
            Err(f) => Err(f),
        },
        Err(e) => match children {
            Ok(_) => Err(e),
            Err(f) => Err(first_refusal(e, f)),
        },
    }
}

/// A fork with the variables that it declares.
pub fn fork(
    alloc: Global,
    s: &TreeStmt,
    locals: Seq<Declared>,
    join: JoinWord,
    made: Result<(Option<RoutineId>, Seq<RoutineId>), Refusal>,
) -> Result<Seq<Stmt>, Refusal>
    ensures { (rs rs' : List routine) (os os' : List object) (x : checked (code.Code × code.Numbered (List routine_id)))
        → EmitsOf (forks.fork_parts (parts.place_of s.now)) rs rs' os os' made x
        → Emits rs rs' os os' result (given (forks.fork_of (parts.place_of s.now) locals join) x) }
{
    match made {
        Ok((initializers, children)) => plain(
            alloc,
            place(s),
            Form::Fork {
                locals,
                initializers,
                children,
                join: join_of(join),
            },
        ),
        Err(e) => Err(e),
    }
}
