// Subroutines of the flat design, with the rules on their declarations (IEEE 1800-2017, 8.6, 13.3 and 13.4).
ghost use Rattle.std.specs.Prelude.{◌≡◌};
ghost use Rattle.sv_tree.specs.StmtView as view;
ghost use Rattle.sv_tree.specs.UnitView.{routine as routine_in};
ghost use Rattle.sv_names.specs.Emits.{Emits};
ghost use Rattle.sv_names.specs.Subroutines as subroutines;
ghost use Rattle.sv_names.specs.Views.{around_in};
ghost use Rattle.sv_elab_declare.specs.Added.{class_of, method_of};
ghost use Rattle.sv_elab_declare.specs.Alone.{class_in as class_path};
ghost use Rattle.sv_elab_before.specs.Heads as heads;
ghost use Rattle.sv_elab_before.specs.Befores.{before_in};
ghost use Rattle.sv_elab_routine.specs.Made as words;

use crate::bodies::{Manner, guarded_routine, routine_within};
use std::alloc::Global;
use sv_elab_before::sv_elab_head::{Heading, callee_within, routine_scope};
use sv_elab_before::{Before, body_scope, has_result, returns_of, routine_stands};
use sv_elab_declare::is_automatic_subroutine;
use sv_elab_scope::{DeclaredRoutine, Stage};
use sv_flat::{Object, Routine};
use sv_names::{Around, Callee, Refusal, Scope};
use sv_tree::{Qualifiers, Routine as TreeRoutine, Stmt};
use sv_value::{Seq, Text};

/// A subroutine over its scope, but for the rules on its declarations.
fn over_scope(
    alloc: Global,
    around: &Around,
    scope: Scope,
    callee: Callee,
    of: &DeclaredRoutine,
    before: Before,
    list: &[Stmt],
    routines: &mut Seq<Routine>,
    objects: &mut Seq<Object>,
) -> Result<Routine, Refusal>
    ensures { callee.class ≡ class_of of.now → Emits routines.old routines.new objects.old objects.new result
        (words.routine_of (words.over_scope (around_in around.now) scope callee (class_of of.now) (method_of of.now)
        (view.stmt_list list.now) (before_in (around_in around.now) before.entry))) }
{
    let head = &of.routine.head;
    let manner = Manner {
        is_automatic: is_automatic_subroutine(around.is_automatic, of),
        has_object: !callee.is_static,
        may_wait: callee.is_task,
    };
    let has_result = has_result(head);
    let returns = returns_of(alloc, has_result, &callee)?;
    let scope = body_scope(alloc, scope, callee, manner.is_automatic, has_result)?;
    let declared = of.routine.decls.as_slice();
    routine_within(
        alloc, around, &scope, manner, &returns, head, declared, before, list, routines, objects,
    )
}

/// A subroutine over its scope. E5: a name is declared twice, or the end label repeats no name.
fn made_over(
    alloc: Global,
    around: &Around,
    scope: Scope,
    callee: Callee,
    of: &DeclaredRoutine,
    before: Before,
    list: &[Stmt],
    routines: &mut Seq<Routine>,
    objects: &mut Seq<Object>,
) -> Result<Routine, Refusal>
    ensures { callee.class ≡ class_of of.now → Emits routines.old routines.new objects.old objects.new result
        (words.routine_of (subroutines.made_over (around_in around.now) scope callee (class_of of.now) (method_of of.now)
        (view.stmt_list list.now) (before_in (around_in around.now) before.entry))) }
{
    let guard = routine_stands(alloc, around, &scope, &callee, of);
    let made = over_scope(
        alloc, around, scope, callee, of, before, list, routines, objects,
    );
    guarded_routine(made, guard)
}

/// A subroutine of the flat design that the scope with this path declares, with these statements and what stands before them.
pub fn subroutine_made(
    alloc: Global,
    around: &Around,
    path: &[Text],
    of: &DeclaredRoutine,
    before: Before,
    list: &[Stmt],
    routines: &mut Seq<Routine>,
    objects: &mut Seq<Object>,
) -> Result<Routine, Refusal>
    ensures { Emits routines.old routines.new objects.old objects.new result
        (words.routine_of (subroutines.made_subroutine (around_in around.now) path.now (class_of of.now) (method_of of.now)
        (view.stmt_list list.now) (before_in (around_in around.now) before.entry))) }
{
    let (class, words) = (of.class, of.qualifiers);
    let scope = routine_scope(alloc, Stage::End, around, path, class, words, of.routine)?;
    let heading = Heading {
        class,
        qualifiers: words,
        is_pure: false,
        head: &of.routine.head,
    };
    let callee = callee_within(alloc, around, &scope, &heading)?;
    made_over(
        alloc, around, scope, callee, of, before, list, routines, objects,
    )
}

/// A task, a function or a method of the flat design, which the scope with this path declares: the routine that holds its statements, behind the
/// routines that they add and not among them. Objects of static arguments and of a static result come first, then those of declarations and of
/// statements. E5: a name is declared twice, or the end label repeats no name; E56: an enum has two equal values.
pub fn routine_made(
    alloc: Global,
    around: &Around,
    path: &[Text],
    class: Option<&[Text]>,
    qualifiers: Qualifiers,
    routine: &TreeRoutine,
    routines: &mut Seq<Routine>,
    objects: &mut Seq<Object>,
) -> Result<Routine, Refusal>
    ensures { Emits routines.old routines.new objects.old objects.new result
        (words.routine_of (subroutines.made_subroutine (around_in around.now) path.now (class_path class.entry)
        (heads.method_with qualifiers (routine_in routine.now)) (routine_in routine.now).stmts subroutines.nothing_before)) }
{
    let of = DeclaredRoutine {
        qualifiers,
        class,
        routine,
    };
    let list = routine.stmts.as_slice();
    subroutine_made(
        alloc,
        around,
        path,
        &of,
        Before::Nothing,
        list,
        routines,
        objects,
    )
}
