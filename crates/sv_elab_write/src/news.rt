// What `new` makes for a target (IEEE 1800-2017, 8.7, 8.17, 8.21, 15.3.1 and 15.4.1): E7, E16, E17, E31, E35, E37, E42.
ghost use Rattle.std.specs.Prelude.{◌≡◌, option_map, IfOk, IfErr};
ghost use Rattle.sv_tree.specs.View as tree_view;
ghost use Rattle.sv_names.specs.declared.refusal.Refusal.TheVariants.{Memory};
ghost use Rattle.sv_names.specs.Assignments as assignments;
ghost use Rattle.sv_names.specs.Checked.{both, given};
ghost use Rattle.sv_names.specs.Expressions as expressions;
ghost use Rattle.sv_names.specs.Given.{Gives};
ghost use Rattle.sv_names.specs.Named as names;
ghost use Rattle.sv_names.specs.Named.{value_found};
ghost use Rattle.sv_names.specs.Views.{around_in, found_in};
ghost use Rattle.sv_elab_assign.specs.Amounts.{amount_if};
ghost use Rattle.sv_elab_assign.specs.Places as places;
ghost use Rattle.sv_elab_assign.specs.Wholes as wholes;
ghost use Rattle.sv_elab_write.specs.News as news;

use std::alloc::Global;
use sv_elab_assign::{
    Amount, mailbox_made, nothing_made, object_made, semaphore_made, value_around,
};
use sv_elab_expr::args;
use sv_elab_expr::sv_elab_call::{arguments, in_row};
use sv_elab_expr::sv_elab_name::{may_be_named, outputs_of};
use sv_elab_expr::sv_elab_select::{Spot, type_of_target};
use sv_elab_expr::sv_elab_value::rule;
use sv_flat::{Argument, CallForm, Expr};
use sv_names::{
    Arg, Around, Checked, ClassInfo, Found, Hoisted, Named, Refusal, Ty, class_in, declared_in,
    judged, where_also,
};
use sv_tree::Actuals;
use sv_value::{Place, Seq, Text};

// ---- constructors

/// The constructor that a class declares.
#[tactic(auto, using(crate::proofs::NewLaws::found_value))]
fn constructor_in(class: &ClassInfo) -> Option<Found<'_>>
    ensures { option_map (λ f. value_found (found_in f)) result ≡ assignments.constructor_in class.now }
{
    declared_in(0, b"new", &class.scope.known)
}

/// E16, E17, E31, E37, E42: the arguments of a constructor.
#[tactic(auto, using(crate::proofs::NewLaws::no_constructor))]
fn with_constructor(
    alloc: Global,
    around: &Around,
    at: Place,
    class: &[Text],
    args: Seq<Arg>,
    found: Option<Found>,
) -> Result<Seq<Hoisted<Argument>>, Refusal>
    ensures { Gives result (assignments.with_constructor (around_in around.now) at class.now args
        (option_map (λ f. value_found (found_in f)) found.entry)) }
{
    match found {
        None => arguments(alloc, around, at, &[], args),
        Some(found) => match &found.known.value {
            Checked::Good(Named::Subroutine(callee)) => {
                let callee = callee.get();
                let passed = arguments(alloc, around, at, callee.formals.as_slice(), args);
                where_also(passed, may_be_named(around, callee.protection, class, at))
            }
            Checked::Broken(f) => Err(f.refusal()),
            _ => arguments(alloc, around, at, &[], args),
        },
    }
}

/// The call of a constructor.
fn new_form(
    alloc: Global,
    around: &Around,
    class: &[Text],
    arguments: Seq<Hoisted<Argument>>,
) -> Result<Hoisted<CallForm>, Refusal>
    ensures ok { IfOk result (λ f. f ≡ news.new_form (around_in around.now) class.now arguments) }
    ensures err { IfErr result (λ e. e ≡ Memory) }
{
    let row = in_row(alloc, arguments)?;
    Ok(Hoisted {
        hidden: row.hidden,
        calls: row.calls,
        value: CallForm::New {
            class: around.numbers.class(class),
            arguments: row.value,
        },
    })
}

/// The same over the arguments that are written.
fn new_called(
    alloc: Global,
    around: &Around,
    at: Place,
    path: &[Text],
    args: Seq<Arg>,
    class: &ClassInfo,
) -> Result<Hoisted<CallForm>, Refusal>
    ensures { Gives result (news.new_called (around_in around.now) at path.now args class.now) }
{
    match with_constructor(alloc, around, at, path, args, constructor_in(class)) {
        Ok(arguments) => {
            let form = new_form(alloc, around, path, arguments)?;
            Ok(form)
        }
        Err(e) => Err(e),
    }
}

/// What makes an object of a class. E35: the class is virtual.
fn constructed(
    alloc: Global,
    around: &Around,
    at: Place,
    path: &[Text],
    args: Seq<Arg>,
) -> Result<Hoisted<CallForm>, Refusal>
    ensures { Gives result (assignments.constructed (around_in around.now) at path.now args
        (names.class_in (around_in around.now).classes path.now)) }
{
    match class_in(around.classes, path) {
        None => Err(Refusal::Rule { rule: 7, at }),
        Some(class) => {
            let form = new_called(alloc, around, at, path, args, class);
            where_also(form, rule(35, at, class.is_virtual))
        }
    }
}

// ---- all that `new` makes

/// What `new` makes for a target of a type, at the word, in a hidden variable. E16 and E42: it makes nothing for such a target; E31: too few or
/// too many arguments, or a value for an output; E17: an argument of another type; E35: the class is virtual; E37: its constructor may not be
/// named here.
#[tactic(auto, using(crate::proofs::NewLaws::made_other))]
pub fn made(
    alloc: Global,
    around: &Around,
    at: Place,
    spots: &[Spot],
    args: Seq<Arg>,
    ty: &Ty,
) -> Result<Hoisted<Expr>, Refusal>
    ensures { Gives result (assignments.made (around_in around.now) at spots.now args ty.now) }
{
    match ty {
        Ty::Class(path) => {
            let constructed = constructed(alloc, around, at, path.as_slice(), args);
            object_made(alloc, around, at, ty, constructed)
        }
        Ty::Mailbox => mailbox_made(alloc, around, at, args),
        Ty::MailboxOf(_) => mailbox_made(alloc, around, at, args),
        Ty::Semaphore => semaphore_made(alloc, around, at, args),
        _ => nothing_made(at, spots, args.as_slice()),
    }
}

/// The same behind a target and a delay, where these break no rule.
pub fn made_behind(
    alloc: Global,
    around: &Around,
    target: &Checked<Seq<Spot>>,
    amount: &Checked<Option<Amount>>,
    at: Place,
    args: Seq<Arg>,
) -> Result<Checked<Hoisted<Expr>>, Refusal>
    ensures ok { IfOk result (λ c. wholes.IsMade (around_in around.now) (both target.now (given amount_if amount.now)) at args c) }
    ensures err { IfErr result (λ e. e ≡ Memory) }
{
    let inner = value_around(around, target, amount);
    match target {
        Checked::Good(spots) => match amount {
            Checked::Good(_) => {
                let spots = spots.as_slice();
                let ty = type_of_target(alloc, spots)?;
                judged(made(alloc, &inner, at, spots, args, &ty))
            }
            Checked::Broken(f) => Ok(Checked::Broken(*f)),
        },
        Checked::Broken(f) => Ok(Checked::Broken(*f)),
    }
}

// ---- the arguments

/// Which arguments of a constructor are taken as targets, from the first on.
#[tactic(auto, using(crate::proofs::NewLaws::no_outputs))]
fn outputs_of_constructor(alloc: Global, found: Option<Found>) -> Result<Seq<bool>, Refusal>
    ensures ok { IfOk result (λ os. os
        ≡ assignments.outputs_of_constructor (option_map (λ f. value_found (found_in f)) found.entry)) }
    ensures err { IfErr result (λ e. e ≡ Memory) }
{
    match found {
        None => Ok(Seq::new(alloc)),
        Some(found) => match &found.known.value {
            Checked::Good(Named::Subroutine(callee)) => {
                outputs_of(alloc, callee.get().formals.as_slice())
            }
            _ => Ok(Seq::new(alloc)),
        },
    }
}

/// Which arguments of `new` for a target of a type are taken as targets, from the first on.
#[tactic(auto, using(crate::proofs::NewLaws::outputs_other))]
pub fn outputs_of_new(alloc: Global, around: &Around, ty: &Ty) -> Result<Seq<bool>, Refusal>
    ensures ok { IfOk result (λ os. os ≡ assignments.outputs_of_new (around_in around.now) ty.now) }
    ensures err { IfErr result (λ e. e ≡ Memory) }
{
    match ty {
        Ty::Class(path) => match class_in(around.classes, path.as_slice()) {
            None => Ok(Seq::new(alloc)),
            Some(class) => outputs_of_constructor(alloc, constructor_in(class)),
        },
        _ => Ok(Seq::new(alloc)),
    }
}

/// The arguments between brackets, where some are written.
pub fn actual_args(
    alloc: Global,
    outputs: &[bool],
    actuals: &Actuals,
    around: &Around,
) -> Result<Seq<Arg>, Refusal>
    ensures ok { IfOk result (λ as'. as'
        ≡ expressions.actual_args (around_in around.now) outputs.now (tree_view.actuals actuals.now)) }
    ensures err { IfErr result (λ e. e ≡ Memory) }
{
    match actuals {
        Actuals::Unwritten => Ok(Seq::new(alloc)),
        Actuals::Written(items) => args(alloc, outputs, items, around),
    }
}

/// Which arguments of `new` behind a target and a delay are taken as targets.
fn outputs_behind(
    alloc: Global,
    around: &Around,
    target: &Checked<Seq<Spot>>,
    amount: &Checked<Option<Amount>>,
) -> Result<Seq<bool>, Refusal>
    ensures ok { IfOk result (λ os. os ≡ places.outputs_both (around_in around.now) (both target.now (given amount_if amount.now))) }
    ensures err { IfErr result (λ e. e ≡ Memory) }
{
    match target {
        Checked::Good(spots) => match amount {
            Checked::Good(_) => {
                let ty = type_of_target(alloc, spots.as_slice())?;
                outputs_of_new(alloc, around, &ty)
            }
            Checked::Broken(_) => Ok(Seq::new(alloc)),
        },
        Checked::Broken(_) => Ok(Seq::new(alloc)),
    }
}

/// The arguments of `new` behind a target and a delay.
pub fn args_behind(
    alloc: Global,
    around: &Around,
    target: &Checked<Seq<Spot>>,
    amount: &Checked<Option<Amount>>,
    actuals: &Actuals,
) -> Result<Seq<Arg>, Refusal>
    ensures ok { IfOk result (λ as'. as' ≡ places.args_there (around_in around.now) target.now (given amount_if amount.now)
        (tree_view.actuals actuals.now)) }
    ensures err { IfErr result (λ e. e ≡ Memory) }
{
    let outputs = outputs_behind(alloc, around, target, amount)?;
    let inner = value_around(around, target, amount);
    actual_args(alloc, outputs.as_slice(), actuals, &inner)
}
