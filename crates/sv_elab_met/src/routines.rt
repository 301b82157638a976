// What subroutines declare, write and call (IEEE 1800-2017, 8.6, 13.3 and 13.4).
ghost use Rattle.std.specs.Prelude.{◌≡◌, false, true, IfOk, OnOk};
ghost use Rattle.sv_tree.specs.UnitView.{routine as routine_view};
ghost use Rattle.sv_names.specs.Sources as sources;
ghost use Rattle.sv_names.specs.Subroutines as subroutines;
ghost use Rattle.sv_names.specs.Views.{around_in};
ghost use Rattle.sv_elab_declare.specs.Alone.{class_in as class_path};
ghost use Rattle.sv_elab_head.specs.Heads.{method_with};
ghost use Rattle.sv_elab_touch.specs.Touched.{Touched};
ghost use Rattle.sv_elab_writers.specs.Views.{routine_in};
ghost use Rattle.sv_elab_met.specs.Met as words;

use crate::bodies::{body_scope, has_object, has_result, is_automatic_routine, returns_of};
use crate::seen::with_scope;
use std::alloc::Global;
use sv_elab_act::{add_declarations, add_scope, add_stmts};
use sv_elab_head::{Heading, callee_within, routine_scope};
use sv_elab_scope::Stage;
use sv_elab_signal::within;
use sv_elab_subroutine::in_body;
use sv_elab_writers::{Routine, Touch};
use sv_names::{Around, Callee, Returns, Scope};
use sv_tree::{Qualifiers, Routine as TreeRoutine};
use sv_value::{NoMemory, Seq, Text};

/// Appends what a subroutine with what its statements see declares, writes and calls.
fn add_body(
    alloc: Global,
    around: &Around,
    scope: &Scope,
    routine: &TreeRoutine,
    is_automatic: bool,
    has_object: bool,
    returns: &Returns,
    touches: &mut Seq<Touch>,
) -> Result<(), NoMemory>
    ensures { OnOk result (Touched touches.old touches.new (words.body_touches
        (subroutines.in_body (around_in around.now) scope.now is_automatic has_object true returns.now)
        (routine_view routine.now))) }
{
    add_scope(scope, touches)?;
    let outer = *around;
    let scopes = with_scope(alloc, &*scope, outer.scopes)?;
    let inner = in_body(
        &outer,
        scope.path.as_slice(),
        scopes.as_slice(),
        is_automatic,
        has_object,
        true,
        &*returns,
    );
    add_declarations(alloc, routine.decls.as_slice(), &inner, touches)?;
    add_stmts(alloc, routine.stmts.as_slice(), &inner, touches)
}

/// Appends the same over its scope and its head.
fn add_over(
    alloc: Global,
    around: &Around,
    scope: Scope,
    callee: Callee,
    class: Option<&[Text]>,
    qualifiers: Qualifiers,
    routine: &TreeRoutine,
    touches: &mut Seq<Touch>,
) -> Result<(), NoMemory>
    ensures { OnOk result (Touched touches.old touches.new (words.over_touches (around_in around.now) scope callee
        (class_path class.entry) (method_with qualifiers (routine_view routine.now)))) }
{
    let head = &routine.head;
    let result = has_result(head);
    let is_automatic = is_automatic_routine(around.is_automatic, class, head);
    let returns = returns_of(alloc, result, &callee)?;
    let own = body_scope(alloc, scope, callee, is_automatic, result)?;
    let object = has_object(qualifiers, head);
    add_body(
        alloc,
        around,
        &own,
        routine,
        is_automatic,
        object,
        &returns,
        touches,
    )
}

/// Appends what a subroutine declares, writes and calls that the scope with this path declares.
pub(crate) fn add_routine(
    alloc: Global,
    around: &Around,
    path: &[Text],
    class: Option<&[Text]>,
    qualifiers: Qualifiers,
    routine: &TreeRoutine,
    touches: &mut Seq<Touch>,
) -> Result<(), NoMemory>
    ensures { OnOk result (Touched touches.old touches.new (words.routine_touches (around_in around.now) path.now
        (class_path class.entry) (method_with qualifiers (routine_view routine.now)))) }
{
    let scope = routine_scope(alloc, Stage::End, around, path, class, qualifiers, routine)?;
    let heading = Heading {
        class,
        qualifiers,
        is_pure: false,
        head: &routine.head,
    };
    let callee = callee_within(alloc, around, &scope, &heading)?;
    add_over(
        alloc, around, scope, callee, class, qualifiers, routine, touches,
    )
}

/// A subroutine that the scope with this path declares, with what it does.
pub(crate) fn routine_row(
    alloc: Global,
    around: &Around,
    path: &[Text],
    class: Option<&[Text]>,
    qualifiers: Qualifiers,
    routine: &TreeRoutine,
) -> Result<Routine, NoMemory>
    ensures { IfOk result (λ r. routine_in r ≡ sources.subroutine_touches (around_in around.now) path.now
        (class_path class.entry) (method_with qualifiers (routine_view routine.now))) }
{
    let own = within(alloc, path, &routine.head.name)?;
    let mut touches = Seq::new(alloc);
    add_routine(
        alloc,
        around,
        path,
        class,
        qualifiers,
        routine,
        &mut touches,
    )?;
    Ok(Routine { path: own, touches })
}
