// The initializers of static variables (IEEE 1800-2017, 6.21 and 10.5): E16, E17, E25, E31, E42.
ghost use Rattle.std.specs.Prelude.{◌≡◌, true, false, List, Option, IfOk, IfErr};
ghost use Rattle.sv_value.specs.declared.place.Place.{Place as place_of};
ghost use Rattle.sv_tree.specs.declared.expr.Root.TheVariants as root;
ghost use Rattle.sv_tree.specs.declared.word.Name.{Name as name_of};
ghost use Rattle.sv_tree.specs.Expr as tree;
ghost use Rattle.sv_tree.specs.Stmt as stmts;
ghost use Rattle.sv_names.specs.declared.argument.Arg.{Arg as arg};
ghost use Rattle.sv_names.specs.declared.checked.Checked.{Checked as checked};
ghost use Rattle.sv_names.specs.declared.ty.Ty.{Ty as ty_of};
ghost use Rattle.sv_names.specs.declared.refusal.Refusal.TheVariants.{Memory};
ghost use Rattle.sv_names.specs.Assignments as assignments;
ghost use Rattle.sv_names.specs.Checked.{◌▷◌};
ghost use Rattle.sv_names.specs.Expressions as expressions;
ghost use Rattle.sv_names.specs.Given.{Gives};
ghost use Rattle.sv_names.specs.Named.{Around as around_of, behind, hidden_in};
ghost use Rattle.sv_names.specs.Types as types;
ghost use Rattle.sv_names.specs.Values as values;
ghost use Rattle.sv_names.specs.Views.{around_in};
ghost use Rattle.sv_elab_assign.specs.Openings as openings;
ghost use Rattle.sv_elab_assign.specs.Wholes as wholes;

use crate::arrays::{Source, array_given};
use crate::making::bound_given;
use crate::wholes::copy_in;
use std::alloc::Global;
use sv_elab_call::sv_elab_select::{Spot, container_of};
use sv_elab_value::{assigned, expr_of, pure, value_typed};
use sv_flat::{Expr, ExprForm, Initial};
use sv_names::{Arg, Around, Checked, Hoisted, Refusal, Ty, Typed, answer, first};
use sv_value::{Place, Seq};

/// Where an initializer stands: no object is at hand, and no call stands in it (E25).
pub fn at_opening<'a>(around: &Around<'a>) -> Around<'a>
    ensures { around_in result ≡ assignments.at_opening (around_in around.now) }
{
    Around {
        is_initial: true,
        call_rule: Some(25),
        has_object: false,
        ..*around
    }
}

/// A broken rule, beside what is not made.
fn not_made<A: Drop>(rule: u8, at: Place, made: Result<A, Refusal>) -> Result<Initial, Refusal>
    ensures { (x : checked A) → Gives made x → Gives result (openings.not_made rule at x) }
{
    match made {
        Ok(_) => Err(Refusal::Rule { rule, at }),
        Err(e) => Err(first(Refusal::Rule { rule, at }, e)),
    }
}

// ---- values

/// A container is copied at the opening; all else is a value.
fn initial_value(alloc: Global, ty: &Ty, code: Hoisted<Expr>) -> Result<Initial, Refusal>
    ensures ok { IfOk result (λ i. i ≡ assignments.initial_value ty.now code) }
    ensures err { IfErr result (λ e. e ≡ Memory) }
{
    if ty.is_container() {
        let container = container_of(alloc, &code.value)?;
        Ok(Initial::Copy(container))
    } else {
        Ok(Initial::Value(code.value))
    }
}

/// A value in the context of its variable.
fn value_assigned(
    alloc: Global,
    around: &Around,
    ty: &Ty,
    place: Place,
    value: Checked<Typed>,
) -> Result<Hoisted<Expr>, Refusal>
    ensures { Gives result (value ▷ values.assigned (around_in around.now) ty.now place) }
{
    match value {
        Checked::Good(t) => assigned(alloc, around, ty, place, t),
        Checked::Broken(f) => Err(f.refusal()),
    }
}

/// E16, E17: a value that fits its variable.
fn value_fitting(
    alloc: Global,
    around: &Around,
    ty: &Ty,
    place: Place,
    value: Checked<Typed>,
) -> Result<Initial, Refusal>
    ensures { Gives result (openings.value_fitting (around_in around.now) ty.now place value) }
{
    match value_assigned(alloc, around, ty, place, value) {
        Ok(code) => {
            let initial = initial_value(alloc, ty, code)?;
            Ok(initial)
        }
        Err(e) => Err(e),
    }
}

/// E42: the same; no fixed array has an initializer.
fn value_opening(
    alloc: Global,
    around: &Around,
    at: Place,
    ty: &Ty,
    place: Place,
    value: Checked<Typed>,
) -> Result<Initial, Refusal>
    ensures { Gives result (openings.value_opening (around_in around.now) at ty.now place value) }
{
    if ty.is_fixed() {
        not_made(42, at, answer(value))
    } else {
        value_fitting(alloc, around, ty, place, value)
    }
}

/// The initializer of a static variable, which is named at `at`, by a value at `place`. E16 and E17: it does not fit by type; E42: the
/// variable is a fixed array.
pub fn value_at_opening(
    alloc: Global,
    around: &Around,
    at: Place,
    ty: &Ty,
    place: Place,
    value: Checked<Typed>,
) -> Result<Initial, Refusal>
    ensures { (e : tree.Expr) → place ≡ tree.place_of e → value ≡ expressions.expr (around_in around.now) e
        → Gives result (assignments.initial_given (around_in around.now) at ty.now (stmts.Value e)) }
{
    value_opening(alloc, around, at, ty, place, value)
}

// ---- mailboxes and semaphores

/// A mailbox or a semaphore of its own.
fn sync_initial(ty: &Ty, code: Hoisted<Expr>) -> Initial
    ensures { result ≡ assignments.sync_initial ty.now code.value }
{
    match ty {
        Ty::Semaphore => Initial::Semaphore(code.value),
        _ => Initial::Mailbox(code.value),
    }
}

/// The same, with its bound or its keys.
fn sync_opening(
    alloc: Global,
    around: &Around,
    ty: &Ty,
    place: Place,
    args: Seq<Arg>,
) -> Result<Initial, Refusal>
    ensures { Gives result (openings.sync_opening (around_in around.now) ty.now place args) }
{
    match bound_given(alloc, around, place, args) {
        Ok(code) => Ok(sync_initial(ty, code)),
        Err(e) => Err(e),
    }
}

/// The initializer of a mailbox or a semaphore by `new` at `place`. E16 and E42: what it is made with is no number; E31: there is more than
/// one argument.
pub fn sync_at_opening(
    alloc: Global,
    around: &Around,
    ty: &Ty,
    place: Place,
    args: Seq<Arg>,
) -> Result<Initial, Refusal>
    ensures { (at : place_of) → types.is_sync ty.now ≡ true
        → Gives result (assignments.new_at_opening (around_in around.now) at ty.now place args) }
{
    sync_opening(alloc, around, ty, place, args)
}

// ---- what is made at no opening

/// What is given an initial value, as a target.
fn at_name(alloc: Global, at: Place, ty: &Ty) -> Result<Seq<Spot>, Refusal>
    ensures ok { IfOk result (λ ss. ss ≡ assignments.at_name at ty.now) }
    ensures err { IfErr result (λ e. e ≡ Memory) }
{
    let ty = ty.copy(alloc)?;
    let handle = expr_of(alloc, ExprForm::Handle { key: None })?;
    let value = value_typed(alloc, ty, at, false, pure(alloc, handle));
    let mut spots = Seq::new(alloc);
    spots.push((at, value))?;
    Ok(spots)
}

/// E25: no object is copied.
fn copy_opening(
    alloc: Global,
    around: &Around,
    at: Place,
    ty: &Ty,
    place: Place,
    value: Checked<Typed>,
) -> Result<Initial, Refusal>
    ensures { Gives result (openings.copy_opening (around_in around.now) at ty.now place value) }
{
    let spots = at_name(alloc, at, ty)?;
    not_made(25, place, copy_in(alloc, around, None, place, spots, value))
}

/// E25: `new h`, at `place`, is no initializer; what it breaks beside may be told first.
pub fn copy_at_opening(
    alloc: Global,
    around: &Around,
    at: Place,
    ty: &Ty,
    place: Place,
    value: Checked<Typed>,
) -> Result<Initial, Refusal>
    ensures { (n : name_of) → value ≡ expressions.expr (around_in around.now) (tree.Post (root.Plain n) tree.NoSuffix)
        → Gives result (assignments.initial_given (around_in around.now) at ty.now (stmts.Copy place n)) }
{
    copy_opening(alloc, around, at, ty, place, value)
}

/// E25: no array is made.
fn array_opening(
    alloc: Global,
    around: &Around,
    at: Place,
    ty: &Ty,
    place: Place,
    size_at: Place,
    size: Checked<Typed>,
    source: Option<Source>,
) -> Result<Initial, Refusal>
    ensures { Gives result (openings.array_opening (around_in around.now) at ty.now place size_at size source) }
{
    let spots = at_name(alloc, at, ty)?;
    not_made(
        25,
        place,
        array_given(alloc, around, None, place, size_at, size, source, spots),
    )
}

/// E25: `new[n]`, at `place`, is no initializer; what it breaks beside may be told first.
pub fn array_at_opening(
    alloc: Global,
    around: &Around,
    at: Place,
    ty: &Ty,
    place: Place,
    size_at: Place,
    size: Checked<Typed>,
    source: Option<Source>,
) -> Result<Initial, Refusal>
    ensures { (n : tree.Expr) (old : Option tree.Expr) → size_at ≡ tree.place_of n
        → size ≡ expressions.expr (around_in around.now) n
        → wholes.IsSource (behind (hidden_in size) (around_in around.now)) source old
        → Gives result (assignments.initial_given (around_in around.now) at ty.now (stmts.Array place n old)) }
{
    array_opening(alloc, around, at, ty, place, size_at, size, source)
}

/// E25: `new`, at `place`, of what is neither a mailbox nor a semaphore is no initializer; what it breaks beside may be told first.
pub fn object_at_opening(place: Place, made: Checked<Hoisted<Expr>>) -> Result<Initial, Refusal>
    ensures { (ar : around_of) (at : place_of) (t : ty_of) (as' : List arg) → types.is_sync t ≡ false
        → made ≡ assignments.made ar place (assignments.at_name at t) as' t
        → Gives result (assignments.new_at_opening ar at t place as') }
{
    not_made(25, place, answer(made))
}
