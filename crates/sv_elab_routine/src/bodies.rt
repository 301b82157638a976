// What a subroutine of the flat design holds, in its scope (IEEE 1800-2017, 8.6, 13.3 and 13.4).
ghost use Rattle.std.specs.Prelude.{◌≡◌, List, ◌++◌, map, IfOk, IfErr};
ghost use Rattle.sv_names.specs.declared.refusal.Refusal.TheVariants.{Memory};
ghost use Rattle.sv_flat.specs.declared.class.Routine.{Routine as routine_type};
ghost use Rattle.sv_flat.specs.declared.object.Object.{Object as object_type};
ghost use Rattle.sv_tree.specs.StmtView as view;
ghost use Rattle.sv_tree.specs.UnitView.{head as head_in};
ghost use Rattle.sv_names.specs.declared.checked.Checked.{Checked as checked};
ghost use Rattle.sv_names.specs.Checked.{given, ◌where_also◌};
ghost use Rattle.sv_names.specs.Code as code;
ghost use Rattle.sv_names.specs.Emits.{Emits};
ghost use Rattle.sv_names.specs.Entries as entries;
ghost use Rattle.sv_names.specs.Given.{Gives};
ghost use Rattle.sv_names.specs.Subroutines as subroutines;
ghost use Rattle.sv_names.specs.Views.{around_in};
ghost use Rattle.sv_elab_before.specs.Befores.{before_in};
ghost use Rattle.sv_elab_routine.specs.Bodies as words;

use std::alloc::Global;
use sv_elab_before::sv_elab_flow::{enclosed, in_sequence};
use sv_elab_before::{Before, add_objects, before_made};
use sv_elab_object::{home_of, locals_of};
use sv_elab_stmt::stmts;
use sv_elab_stmt::sv_elab_variable::declarations;
use sv_elab_subroutine::{formals_of, in_body, result_formal};
use sv_flat::{Object, Routine, Stmt, Subroutine};
use sv_names::{Around, Refusal, Returns, Scope, first};
use sv_tree::{Decl, Head, Returns as Written, Stmt as TreeStmt};
use sv_value::{Place, Seq};

/// How the statements of a subroutine stand.
#[derive(Clone, Copy)]
pub struct Manner {
    /// Whether variables in them are automatic where nothing is written (13.4.2).
    pub is_automatic: bool,
    /// Whether an object of the class is at hand (8.11).
    pub has_object: bool,
    /// Whether they may wait: those of a task may (13.4.4).
    pub may_wait: bool,
}

// ---- the subroutine

/// Whether a head is that of a task.
fn is_task(of: &Head) -> bool
    ensures { result ≡ entries.is_task (head_in of.now) }
{
    matches!(&of.returns, Written::Task)
}

/// The subroutine of the flat design, whose statements see this scope.
pub fn flat_subroutine(
    alloc: Global,
    around: &Around,
    scope: &Scope,
    is_automatic: bool,
    of: &Head,
) -> Result<Subroutine, Refusal>
    ensures ok { IfOk result (λ s. s ≡ words.flat_subroutine (around_in around.now) scope.now is_automatic (head_in of.now)) }
    ensures err { IfErr result (λ e. e ≡ Memory) }
{
    let formals = formals_of(alloc, around, scope, of)?;
    let locals = locals_of(alloc, scope, around)?;
    Ok(Subroutine {
        is_function: !is_task(of),
        is_automatic,
        home: home_of(around),
        formals,
        result: result_formal(around, scope),
        locals,
    })
}

// ---- its routine

/// The routine of a subroutine over its statements, which stand behind objects of its own.
#[tactic(auto, using(crate::proofs::BodyLaws::routine_made))]
pub fn routine_with(
    at: Place,
    subroutine: Subroutine,
    body: Result<Seq<Stmt>, Refusal>,
) -> Result<Routine, Refusal>
    ensures { (rs rs' : List routine_type) (os own os' : List object_type) (x : checked code.Code)
        → Emits rs rs' (os ++ own) os' body x → Emits rs rs' os os' result
        (given (λ c. subroutines.routine_at at subroutine (code.with_objects own c)) x) }
{
    match body {
        Ok(body) => Ok(Routine {
            at,
            body,
            subroutine: Some(subroutine),
        }),
        Err(e) => Err(e),
    }
}

/// A routine that a further rule guards.
pub fn guarded_routine(
    routine: Result<Routine, Refusal>,
    guard: Result<(), Refusal>,
) -> Result<Routine, Refusal>
    ensures { (rs rs' : List routine_type) (os os' : List object_type) (x : checked (code.Numbered routine_type))
        (y : checked (Unit {0})) → Emits rs rs' os os' routine x → Gives guard y → Emits rs rs' os os' result (x where_also y) }
{
    match routine {
        Ok(routine) => match guard {
            Ok(()) => Ok(routine),
            Err(f) => Err(f),
        },
        Err(e) => match guard {
            Ok(()) => Err(e),
            Err(f) => Err(first(e, f)),
        },
    }
}

// ---- its statements

/// What stands before the statements of a subroutine, its declarations, and then they themselves.
fn body_made(
    alloc: Global,
    around: &Around,
    inner: &Around,
    before: Before,
    declared: &[Decl],
    list: &[TreeStmt],
    routines: &mut Seq<Routine>,
    objects: &mut Seq<Object>,
) -> Result<Seq<Stmt>, Refusal>
    ensures { Emits routines.old routines.new objects.old objects.new result (words.body_code (around_in inner.now)
        (before_in (around_in around.now) before.entry) (map view.decl declared.now) (view.stmt_list list.now)) }
{
    let earlier = before_made(alloc, around, inner, before);
    let values = declarations(alloc, declared, inner, objects);
    let own = stmts(alloc, list, inner, routines, objects);
    in_sequence(earlier, in_sequence(values, own))
}

/// The routine of a subroutine whose statements stand in `inner`.
fn routine_inside(
    alloc: Global,
    around: &Around,
    inner: &Around,
    scope: &Scope,
    is_automatic: bool,
    of: &Head,
    declared: &[Decl],
    before: Before,
    list: &[TreeStmt],
    routines: &mut Seq<Routine>,
    objects: &mut Seq<Object>,
) -> Result<Routine, Refusal>
    ensures { Emits routines.old routines.new objects.old objects.new result
        (words.routine_inside (around_in around.now) (around_in inner.now) scope.now is_automatic (head_in of.now)
        (map view.decl declared.now) (view.stmt_list list.now) (before_in (around_in around.now) before.entry)) }
{
    let subroutine = flat_subroutine(alloc, around, scope, is_automatic, of)?;
    add_objects(alloc, inner, scope, of, objects)?;
    let body = body_made(
        alloc, around, inner, before, declared, list, routines, objects,
    );
    routine_with(of.name.at, subroutine, body)
}

/// The routine of a subroutine whose statements see this scope, and stand so: objects of its arguments and of its result, then those of what
/// stands before, of declarations and of statements.
pub fn routine_within(
    alloc: Global,
    around: &Around,
    scope: &Scope,
    manner: Manner,
    returns: &Returns,
    of: &Head,
    declared: &[Decl],
    before: Before,
    list: &[TreeStmt],
    routines: &mut Seq<Routine>,
    objects: &mut Seq<Object>,
) -> Result<Routine, Refusal>
    ensures { Emits routines.old routines.new objects.old objects.new result
        (words.routine_within (around_in around.now) scope.now manner returns.now (head_in of.now)
        (map view.decl declared.now) (view.stmt_list list.now) (before_in (around_in around.now) before.entry)) }
{
    let outer = *around;
    let scopes = enclosed(alloc, &*scope, outer.scopes)?;
    let inner = in_body(
        &outer,
        scope.path.as_slice(),
        scopes.as_slice(),
        manner.is_automatic,
        manner.has_object,
        manner.may_wait,
        &*returns,
    );
    routine_inside(
        alloc,
        around,
        &inner,
        scope,
        manner.is_automatic,
        of,
        declared,
        before,
        list,
        routines,
        objects,
    )
}
