// `foreach` over its array and its body (IEEE 1800-2017, 12.7.3): E7.
ghost use Rattle.std.specs.Prelude.{◌≡◌, List, IfOk, IfErr};
ghost use Rattle.sv_flat.specs.declared.class.Routine.{Routine as routine};
ghost use Rattle.sv_flat.specs.declared.object.Object.{Object as object};
ghost use Rattle.sv_names.specs.declared.checked.Checked.{Checked as checked};
ghost use Rattle.sv_names.specs.declared.refusal.Refusal.TheVariants.{Memory};
ghost use Rattle.sv_names.specs.declared.scope.Scope.{Scope as scope_type};
ghost use Rattle.sv_names.specs.declared.typed.Typed.{Typed as typed};
ghost use Rattle.sv_names.specs.Checked.{both, given};
ghost use Rattle.sv_names.specs.Code as code;
ghost use Rattle.sv_names.specs.Emits.{Emits};
ghost use Rattle.sv_names.specs.Given.{Gives};
ghost use Rattle.sv_names.specs.Statements as statements;
ghost use Rattle.sv_names.specs.Types as types;
ghost use Rattle.sv_names.specs.Views.{around_in};
ghost use Rattle.sv_elab_flow.specs.Foreach as foreach;
ghost use Rattle.sv_elab_flow.specs.Parts as parts;
ghost use Rattle.sv_elab_flow.specs.Parts.{EmitsRoutine};

use crate::around::place;
use crate::code::{plain, statement};
use std::alloc::Global;
use sv_elab_select::container_of;
use sv_elab_value::code_of;
use sv_flat::{Form, Stmt};
use sv_names::{Around, Checked, Fault, Hoisted, Refusal, Ty, Typed, first, int_type};
use sv_tree::Stmt as TreeStmt;
use sv_value::{Place, RoutineId, Seq};

/// E7: what is walked is an array.
pub fn walked(at: Place, t: Typed) -> Checked<Typed>
    ensures { result ≡ statements.walked at t }
{
    if t.ty.is_array() {
        Checked::Good(t)
    } else {
        Checked::Broken(Fault { at, rule: 7 })
    }
}

/// The type of the index of an array.
fn key_of(alloc: Global, ty: &Ty) -> Result<Ty, Refusal>
    ensures ok { IfOk result (λ t. t ≡ types.key_of ty.now) }
    ensures err { IfErr result (λ e. e ≡ Memory) }
{
    match ty {
        Ty::Assoc(key, _) => {
            let key = key.get().as_type(alloc)?;
            Ok(key)
        }
        _ => Ok(int_type()),
    }
}

/// A walk through a container.
fn container_walk(
    alloc: Global,
    around: &Around,
    array: Typed,
    body: RoutineId,
) -> Result<Hoisted<Form>, Refusal>
    ensures ok { IfOk result (λ f. f ≡ foreach.container_walk (around_in around.now) array body) }
    ensures err { IfErr result (λ e. e ≡ Memory) }
{
    let key = key_of(alloc, &array.ty)?;
    let code = code_of(array);
    let container = container_of(alloc, &code.value)?;
    Ok(Hoisted {
        hidden: code.hidden,
        calls: code.calls,
        value: Form::Foreach {
            container,
            key: around.numbers.data_of(&key),
            body,
        },
    })
}

/// A walk through an array.
fn walk(
    alloc: Global,
    s: &TreeStmt,
    around: &Around,
    array: Typed,
    body: RoutineId,
) -> Result<Seq<Stmt>, Refusal>
    ensures ok { IfOk result (λ list. list ≡ foreach.walk (around_in around.now) (parts.place_of s.now) array body) }
    ensures err { IfErr result (λ e. e ≡ Memory) }
{
    match &array.ty {
        Ty::Fixed(bounds, _) => plain(
            alloc,
            place(s),
            Form::ForeachElement {
                bounds: *bounds,
                body,
            },
        ),
        _ => {
            let form = container_walk(alloc, around, array, body)?;
            statement(alloc, place(s), form)
        }
    }
}

/// A `foreach` over its array and the routine of its body.
#[tactic(auto, using(crate::proofs::ForeachLaws::walk_made))]
pub fn foreach_loop(
    alloc: Global,
    s: &TreeStmt,
    around: &Around,
    array: Result<Typed, Refusal>,
    body: Result<RoutineId, Refusal>,
) -> Result<Seq<Stmt>, Refusal>
    ensures { (rs rs' : List routine) (os os' : List object) (scope : scope_type) (t : checked typed) (x : checked code.Code)
        → Gives array t → EmitsRoutine (parts.place_of s.now) rs rs' os os' body x → Emits rs rs' os os' result
        (given (λ p. statements.foreach_code (around_in around.now) (parts.place_of s.now) scope p.0 p.1) (both t x)) }
{
    match array {
        Ok(array) => match body {
            Ok(body) => walk(alloc, s, around, array, body),
            Err(f) => Err(f),
        },
        Err(e) => match body {
            Ok(_) => Err(e),
            Err(f) => Err(first(e, f)),
        },
    }
}
