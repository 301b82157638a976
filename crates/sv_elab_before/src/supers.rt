// `super.new`, written or implied (IEEE 1800-2017, 8.7, 8.15 and 8.17): E16, E17, E31, E37 to E40, E42.
ghost use Rattle.std.specs.Prelude.{◌≡◌, List, [], Some, IfOk, IfErr};
ghost use Rattle.sv_flat.specs.declared.class.Routine.{Routine as routine};
ghost use Rattle.sv_flat.specs.declared.object.Object.{Object as object_type};
ghost use Rattle.sv_tree.specs.StmtView as view;
ghost use Rattle.sv_tree.specs.View as tree_view;
ghost use Rattle.sv_names.specs.declared.refusal.Refusal.TheVariants.{Memory};
ghost use Rattle.sv_names.specs.Arguments as arguments;
ghost use Rattle.sv_names.specs.Calls as calls;
ghost use Rattle.sv_names.specs.Emits.{Emits};
ghost use Rattle.sv_names.specs.Expressions as expressions;
ghost use Rattle.sv_names.specs.Given.{Gives};
ghost use Rattle.sv_names.specs.Named as names;
ghost use Rattle.sv_names.specs.Subroutines as subroutines;
ghost use Rattle.sv_names.specs.Views.{around_in};
ghost use Rattle.sv_elab_flow.specs.Parts as parts;
ghost use Rattle.sv_elab_before.specs.Supers as words;

use crate::bases::{constructor_in, constructor_needs, outputs_of_class, with_constructor};
use crate::scopes::constructor_path;
use std::alloc::Global;
use sv_elab_assign::sv_elab_call::in_row;
use sv_elab_flow::{guarded_code, joined, needs_activation, nothing, place, raised, statement};
use sv_elab_object::sv_elab_value::values_stand;
use sv_elab_write::actual_args;
use sv_elab_write::sv_elab_name::this_typed;
use sv_flat::{Argument, Call, CallForm, Form, Stmt};
use sv_names::{Around, ClassInfo, Hoisted, Refusal, Typed, both, class_in};
use sv_tree::{Actuals, Body, Expr, Stmt as TreeStmt};
use sv_value::{Place, Seq, Text};

// ---- how a constructor begins

/// How a constructor begins.
#[derive(Clone, Copy)]
pub enum Opening<'a> {
    /// With `super.new`.
    Super {
        /// The place of the statement.
        written: Place,
        /// The place of `super`.
        place: Place,
        /// What is passed.
        actuals: &'a Actuals,
    },
    /// With anything else.
    NoSuper,
}

/// How a constructor begins whose first statement calls this.
fn called_opening<'a>(first: &'a TreeStmt, e: &'a Expr) -> Opening<'a>
    ensures { words.opening_in result ≡ words.called_opening (parts.place_of first.now) (tree_view.expr e.now) }
{
    match e {
        Expr::SuperNew { at, actuals, .. } => Opening::Super {
            written: place(first),
            place: *at,
            actuals,
        },
        Expr::Post(_, _) | Expr::System(_, _) => Opening::NoSuper,
        Expr::Number(_, _) | Expr::Time(_, _) | Expr::Text(_, _) | Expr::Null(_) => {
            Opening::NoSuper
        }
        Expr::Dollar(_) | Expr::Group(_, _) | Expr::Join(_, _) => Opening::NoSuper,
        Expr::Repeat { .. } | Expr::Cast(_, _) | Expr::Unary { .. } => Opening::NoSuper,
        Expr::Binary { .. } | Expr::Choose { .. } => Opening::NoSuper,
    }
}

/// How a constructor begins whose first statement this is.
#[tactic(auto, using(crate::proofs::SuperLaws::no_call))]
fn opening_at(first: &TreeStmt) -> Opening<'_>
    ensures { words.opening_in result ≡ words.opening_at (view.stmt first.now) }
{
    match &first.body {
        Body::Call(e) => called_opening(first, e),
        _ => Opening::NoSuper,
    }
}

/// Whether `super.new` is the first of these statements.
#[tactic(auto, using(crate::proofs::SuperLaws::opening_is))]
pub fn opening_of(list: &[TreeStmt]) -> Opening<'_>
    ensures { words.opening_in result ≡ subroutines.opening_of (view.stmt_list list.now) }
{
    match list {
        [] => Opening::NoSuper,
        [first, ..] => opening_at(first),
    }
}

/// The statements behind it.
#[tactic(auto, using(crate::proofs::SuperLaws::behind_is))]
pub fn after_opening(list: &[TreeStmt]) -> &[TreeStmt]
    ensures { view.stmt_list result.now ≡ subroutines.after_opening (view.stmt_list list.now) }
{
    match list {
        [] => list,
        [first, rest @ ..] => match opening_at(first) {
            Opening::Super { .. } => rest,
            Opening::NoSuper => list,
        },
    }
}

// ---- the call

/// The value of an input.
fn as_input(object: Typed) -> Hoisted<Argument>
    ensures { result ≡ calls.as_input object.code }
{
    Hoisted {
        hidden: object.code.hidden,
        calls: object.code.calls,
        value: Argument {
            value: Some(object.code.value),
            targets: None,
        },
    }
}

/// A call of the constructor of a base, for the object at hand.
fn super_form(
    alloc: Global,
    around: &Around,
    base: &[Text],
    object: Typed,
    arguments: Seq<Hoisted<Argument>>,
) -> Result<Hoisted<Form>, Refusal>
    ensures ok { IfOk result (λ f. f ≡ subroutines.super_form (around_in around.now) base.now object arguments) }
    ensures err { IfErr result (λ e. e ≡ Memory) }
{
    let mut first = Seq::new(alloc);
    first.push(as_input(object))?;
    let row = in_row(alloc, joined(first, arguments)?)?;
    let path = constructor_path(alloc, base)?;
    let form = CallForm::Routine {
        routine: around.numbers.subroutine(path.as_slice()),
        through: None,
        arguments: row.value,
    };
    Ok(Hoisted {
        hidden: row.hidden,
        calls: row.calls,
        value: Form::Call(Call { form, result: None }),
    })
}

/// The arguments of the constructor of a base.
fn super_args(
    alloc: Global,
    around: &Around,
    place: Place,
    base: &[Text],
    class: &ClassInfo,
    actuals: &Actuals,
) -> Result<Seq<Hoisted<Argument>>, Refusal>
    ensures { Gives result (words.super_args (around_in around.now) place base.now class.now (tree_view.actuals actuals.now)) }
{
    let outputs = outputs_of_class(alloc, class)?;
    let args = actual_args(alloc, outputs.as_slice(), actuals, around)?;
    with_constructor(alloc, around, place, base, args, constructor_in(class))
}

/// The call of the constructor of a base, in variables of this activation.
fn super_once(
    alloc: Global,
    around: &Around,
    at: Place,
    place: Place,
    base: &[Text],
    class: &ClassInfo,
    actuals: &Actuals,
) -> Result<Hoisted<Form>, Refusal>
    ensures { Gives result
        (words.super_once (around_in around.now) at place base.now class.now (tree_view.actuals actuals.now)) }
{
    let passed = super_args(alloc, around, place, base, class, actuals);
    match both(this_typed(alloc, around, at), passed) {
        Ok((object, arguments)) => {
            let form = super_form(alloc, around, base, object, arguments)?;
            Ok(form)
        }
        Err(e) => Err(e),
    }
}

/// The call of the constructor of a base.
#[tactic(auto, using(sv_elab_flow::proofs::RaisedLaws::raised_once, sv_elab_flow::proofs::RaisedLaws::raised_again))]
fn super_called(
    alloc: Global,
    around: &Around,
    at: Place,
    place: Place,
    base: &[Text],
    class: &ClassInfo,
    actuals: &Actuals,
) -> Result<Hoisted<Form>, Refusal>
    ensures { Gives result
        (words.super_called (around_in around.now) at place base.now class.now (tree_view.actuals actuals.now)) }
{
    let form = super_once(alloc, around, at, place, base, class, actuals);
    if needs_activation(&form) {
        return super_once(alloc, &raised(around), at, place, base, class, actuals);
    }
    form
}

/// The statement that calls it.
#[tactic(auto, using(sv_elab_flow::proofs::Added::none_added))]
fn super_statement(
    alloc: Global,
    around: &Around,
    at: Place,
    place: Place,
    base: &[Text],
    class: &ClassInfo,
    actuals: &Actuals,
) -> Result<Seq<Stmt>, Refusal>
    ensures { (rs : List routine) (os : List object_type) → Emits rs rs os os result
        (words.super_statement (around_in around.now) at place base.now (tree_view.actuals actuals.now) (Some class.now)) }
{
    match super_called(alloc, around, at, place, base, class, actuals) {
        Ok(form) => statement(alloc, at, form),
        Err(e) => Err(e),
    }
}

// ---- written

/// E38: `super.new` in a class that extends none; one whose base breaks a rule is told there.
fn no_base(alloc: Global, is_told: bool, at: Place) -> Result<Seq<Stmt>, Refusal>
    ensures { (rs : List routine) (os : List object_type) → Emits rs rs os os result (words.no_base is_told at) }
{
    if is_told {
        return nothing(alloc);
    }
    Err(Refusal::Rule { rule: 38, at })
}

/// What is passed to no constructor.
fn passed_to_none(alloc: Global, around: &Around, actuals: &Actuals) -> Result<(), Refusal>
    ensures { Gives result
        (arguments.values_stand (expressions.actual_args (around_in around.now) [] (tree_view.actuals actuals.now))) }
{
    let args = actual_args(alloc, &[], actuals, around)?;
    values_stand(args.as_slice())
}

/// `super.new` in a class whose base has this path.
#[tactic(auto, using(sv_elab_flow::proofs::Added::none_added))]
fn to_base(
    alloc: Global,
    around: &Around,
    at: Place,
    place: Place,
    base: &[Text],
    actuals: &Actuals,
) -> Result<Seq<Stmt>, Refusal>
    ensures { (rs : List routine) (os : List object_type) → Emits rs rs os os result
        (words.super_statement (around_in around.now) at place base.now (tree_view.actuals actuals.now)
        (names.class_in (around_in around.now).classes base.now)) }
{
    match class_in(around.classes, base) {
        None => nothing(alloc),
        Some(class) => super_statement(alloc, around, at, place, base, class, actuals),
    }
}

/// `super.new` as it is written. E38: the class extends none.
fn written_super(
    alloc: Global,
    around: &Around,
    class: &ClassInfo,
    at: Place,
    place: Place,
    actuals: &Actuals,
) -> Result<Seq<Stmt>, Refusal>
    ensures { (rs : List routine) (os : List object_type) → Emits rs rs os os result
        (words.written (around_in around.now) class.now at place (tree_view.actuals actuals.now) class.now.base) }
{
    match &class.base {
        None => {
            let alone = no_base(alloc, class.base_fault.is_some(), place);
            guarded_code(alone, passed_to_none(alloc, around, actuals))
        }
        Some(base) => to_base(alloc, around, at, place, base.as_slice(), actuals),
    }
}

// ---- implied

/// E40: `super.new` that is not written passes nothing to the constructor of this base.
fn implied_call(
    alloc: Global,
    around: &Around,
    name: Place,
    at: Place,
    path: &[Text],
    base: &ClassInfo,
) -> Result<Seq<Stmt>, Refusal>
    ensures { (rs : List routine) (os : List object_type) → Emits rs rs os os result
        (words.implied_call (around_in around.now) name at path.now (Some base.now)) }
{
    if constructor_needs(base) {
        return Err(Refusal::Rule { rule: 40, at: name });
    }
    super_statement(alloc, around, at, at, path, base, &Actuals::Unwritten)
}

/// `super.new` where none is written, in a class whose base has this path.
fn implied_in(
    alloc: Global,
    around: &Around,
    name: Place,
    at: Place,
    base: &[Text],
) -> Result<Seq<Stmt>, Refusal>
    ensures { (rs : List routine) (os : List object_type) → Emits rs rs os os result
        (words.implied_call (around_in around.now) name at base.now (names.class_in (around_in around.now).classes base.now)) }
{
    match class_in(around.classes, base) {
        None => nothing(alloc),
        Some(class) => implied_call(alloc, around, name, at, base, class),
    }
}

/// `super.new` where none is written. E40: it needs arguments.
fn implied_super(
    alloc: Global,
    around: &Around,
    class: &ClassInfo,
    at: Place,
) -> Result<Seq<Stmt>, Refusal>
    ensures { (rs : List routine) (os : List object_type) → Emits rs rs os os result
        (subroutines.implied_super (around_in around.now) class.now at class.now.base) }
{
    match &class.base {
        None => nothing(alloc),
        Some(base) => implied_in(alloc, around, class.name.at, at, base.as_slice()),
    }
}

// ---- both

/// The call of the constructor of the base, as a constructor begins, whose name stands here.
pub fn super_of(
    alloc: Global,
    around: &Around,
    class: &ClassInfo,
    at: Place,
    opening: Opening,
) -> Result<Seq<Stmt>, Refusal>
    ensures { (rs : List routine) (os : List object_type) → Emits rs rs os os result
        (subroutines.super_of class.now at (words.opening_in opening.entry) (around_in around.now)) }
{
    match opening {
        Opening::Super {
            written,
            place,
            actuals,
        } => { written_super(alloc, around, class, written, place, actuals) }
        Opening::NoSuper => implied_super(alloc, around, class, at),
    }
}
