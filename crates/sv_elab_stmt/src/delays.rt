// `#d` and `##n` before a statement (IEEE 1800-2017, 9.4.1 and 14.11): E15, E42, E48, E52.
ghost use Rattle.std.specs.Prelude.{◌≡◌};
ghost use Rattle.sv_tree.specs.View as view;
ghost use Rattle.sv_names.specs.declared.checked.Checked.{Checked as checked};
ghost use Rattle.sv_names.specs.Assignments as assignments;
ghost use Rattle.sv_names.specs.Checked.{given, broken_at, only, ◌where_also◌};
ghost use Rattle.sv_names.specs.Given.{Gives};
ghost use Rattle.sv_names.specs.Named.{raised};
ghost use Rattle.sv_names.specs.Statements as statements;
ghost use Rattle.sv_names.specs.Views.{around_in};
ghost use Rattle.sv_elab_assign.specs.Amounts.{amount_in};
ghost use Rattle.sv_elab_stmt.specs.Delays as delays;

use std::alloc::Global;
use sv_elab_assign::Amount;
use sv_elab_flow::{needs_activation, raised};
use sv_elab_variable::sv_elab_write::amount_of;
use sv_flat::Form;
use sv_names::{Around, Checked, Fault, Hoisted, Refusal};
use sv_tree::{Delay, Expr};
use sv_value::{ClockId, Place};

// ---- `#d`

/// A delay that breaks no rule.
fn delay_form(amount: Amount) -> Hoisted<Form>
    ensures { result ≡ statements.delay_form (amount_in amount) }
{
    Hoisted {
        hidden: amount.amount.hidden,
        calls: amount.amount.calls,
        value: Form::Delay {
            amount: amount.amount.value,
            in_ticks: amount.in_ticks,
        },
    }
}

/// `#d`, in variables of this activation.
fn delay_once(alloc: Global, e: &Expr, around: &Around) -> Result<Hoisted<Form>, Refusal>
    ensures { Gives result
        (given statements.delay_form (assignments.amount_of (around_in around.now) (view.expr e.now))) }
{
    match amount_of(alloc, e, around)? {
        Checked::Good(amount) => Ok(delay_form(amount)),
        Checked::Broken(f) => Err(f.refusal()),
    }
}

/// `#d` (9.4.1). E15 and E42: it is no number; E52: a time literal is no whole number of ticks.
#[tactic(auto, using(sv_elab_flow::proofs::RaisedLaws::raised_once, sv_elab_flow::proofs::RaisedLaws::raised_again))]
pub fn delay(alloc: Global, delay: &Delay, around: &Around) -> Result<Hoisted<Form>, Refusal>
    ensures { Gives result (raised (around_in around.now)
        (λ i. given statements.delay_form (assignments.amount_of i (view.expr delay.now.amount)))) }
{
    let form = delay_once(alloc, &delay.amount, around);
    if needs_activation(&form) {
        return delay_once(alloc, &delay.amount, &raised(around));
    }
    form
}

// ---- `##n`

/// So many updates of a clocking block that break no rule.
fn cycles_form(clock: ClockId, amount: Amount) -> Hoisted<Form>
    ensures { result ≡ delays.cycles_form clock (amount_in amount) }
{
    Hoisted {
        hidden: amount.amount.hidden,
        calls: amount.amount.calls,
        value: Form::Cycles {
            clock,
            count: amount.amount.value,
        },
    }
}

/// So many updates of a clocking block.
fn of_clocking(clock: ClockId, amount: Checked<Amount>) -> Result<Hoisted<Form>, Refusal>
    ensures { Gives result (given (delays.cycles_form clock) (given amount_in amount)) }
{
    match amount {
        Checked::Good(amount) => Ok(cycles_form(clock, amount)),
        Checked::Broken(f) => Err(f.refusal()),
    }
}

/// E48: there is no default clocking block.
fn no_clocking(at: Place, amount: Checked<Amount>) -> Result<Hoisted<Form>, Refusal>
    ensures { Gives result (broken_at 48 at where_also only (given amount_in amount)) }
{
    let fault = Fault { at, rule: 48 };
    match amount {
        Checked::Good(_) => Err(fault.refusal()),
        Checked::Broken(f) => Err(fault.earlier(f).refusal()),
    }
}

/// `##n`, at its sign, in variables of this activation.
fn cycles_once(
    alloc: Global,
    at: Place,
    e: &Expr,
    around: &Around,
) -> Result<Hoisted<Form>, Refusal>
    ensures { Gives result (statements.cycles_form (around_in around.now) at
        (assignments.amount_of (around_in around.now) (view.expr e.now))) }
{
    let amount = amount_of(alloc, e, around)?;
    match around.default_clocking {
        None => no_clocking(at, amount),
        Some(path) => of_clocking(around.numbers.clocking(path), amount),
    }
}

/// `##n`, at its sign (14.11). E15 and E42: it is no number; E48: there is no default clocking block; E52: a time literal is no whole number
/// of ticks.
#[tactic(auto, using(sv_elab_flow::proofs::RaisedLaws::raised_once, sv_elab_flow::proofs::RaisedLaws::raised_again))]
pub fn cycles(alloc: Global, at: Place, e: &Expr, around: &Around) -> Result<Hoisted<Form>, Refusal>
    ensures { Gives result (raised (around_in around.now)
        (λ i. statements.cycles_form i at (assignments.amount_of i (view.expr e.now)))) }
{
    let form = cycles_once(alloc, at, e, around);
    if needs_activation(&form) {
        return cycles_once(alloc, at, e, &raised(around));
    }
    form
}
