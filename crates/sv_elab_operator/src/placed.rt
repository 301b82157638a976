// The parts of a concatenation (IEEE 1800-2017, 11.4.12): E15, E42.
ghost use Rattle.std.specs.Prelude.{◌≡◌, List, IfOk, IfErr};
ghost use Rattle.sv_names.specs.declared.checked.Checked.{Checked as checked_of};
ghost use Rattle.sv_names.specs.declared.refusal.Refusal.TheVariants.{Memory};
ghost use Rattle.sv_names.specs.declared.typed.Typed.{Typed as typed};
ghost use Rattle.sv_names.specs.Arguments as arguments;
ghost use Rattle.sv_names.specs.Checked.{◌▷◌, given, put_before};
ghost use Rattle.sv_names.specs.Joined.{joined};
ghost use Rattle.sv_names.specs.Operators as operators;
ghost use Rattle.sv_names.specs.Given.{Gives};

use std::alloc::Global;
use sv_names::{Arg, Checked, Refusal, Taken, Typed, and_next, answer, judged};
use sv_value::{Place, Seq};

/// E15, E42: a part is a number or a string.
fn joinable(at: Place, t: Typed) -> Result<Typed, Refusal>
    ensures { Gives result (operators.joinable at t) }
{
    if t.ty.is_array() {
        return Err(Refusal::Rule { rule: 42, at: t.at });
    }
    if t.ty.is_integral() || t.ty.is_text() {
        Ok(t)
    } else {
        Err(Refusal::Rule { rule: 15, at })
    }
}

/// E15: strings alone, or numbers alone.
fn alike(is_text: bool, at: Place, t: Typed) -> Result<Typed, Refusal>
    ensures { Gives result (operators.alike is_text at t) }
{
    if is_text == t.ty.is_text() {
        Ok(t)
    } else {
        Err(Refusal::Rule { rule: 15, at })
    }
}

/// E15, E42: a part that can stand beside the first one.
fn joins(first: Option<bool>, at: Place, t: Typed) -> Result<Typed, Refusal>
    ensures { Gives result (operators.joins first at t) }
{
    match joinable(at, t) {
        Ok(t) => match first {
            None => Ok(t),
            Some(is_text) => alike(is_text, at, t),
        },
        Err(e) => Err(e),
    }
}

/// A part with its place.
fn placed(at: Place, a: Result<Typed, Refusal>) -> Result<(Place, Typed), Refusal>
    ensures { (x : checked_of typed) → Gives a x → Gives result (given (λ t. (at, t)) x) }
{
    match a {
        Ok(t) => Ok((at, t)),
        Err(e) => Err(e),
    }
}

/// A value as a part beside the first one.
fn value_joins(first: Option<bool>, at: Place, a: Result<Typed, Refusal>) -> Result<Typed, Refusal>
    ensures { (x : checked_of typed) → Gives a x → Gives result (x ▷ operators.joins first at) }
{
    match a {
        Ok(t) => joins(first, at, t),
        Err(e) => Err(e),
    }
}

/// One part, with its place.
fn part(first: Option<bool>, a: Arg) -> Result<(Place, Typed), Refusal>
    ensures { Gives result (given (λ t. (a.at, t)) (arguments.value_of_arg a ▷ operators.joins first a.at)) }
{
    let at = a.at;
    placed(at, value_joins(first, at, a.into_value()))
}

/// Whether a value is a string, where it is a part.
fn kind_of(at: Place, t: &Typed) -> Option<bool>
    ensures { result ≡ operators.first_is_text (operators.joinable at t.now) }
{
    if t.ty.is_array() {
        return None;
    }
    if t.ty.is_integral() || t.ty.is_text() {
        Some(t.ty.is_text())
    } else {
        None
    }
}

/// Whether the first part is a string, where it breaks no rule.
fn first_kind(args: &[Arg]) -> Option<bool>
    ensures { result ≡ arguments.first_kind args.now }
{
    match args {
        [] => None,
        [a, ..] => match &a.taken {
            Taken::Value(Checked::Good(t)) => kind_of(a.at, t),
            _ => None,
        },
    }
}

/// Parts, and one more behind them.

fn and_part(
    list: Checked<Seq<(Place, Typed)>>,
    first: Option<bool>,
    a: Arg,
) -> Result<Checked<Seq<(Place, Typed)>>, Refusal>
    ensures ok { IfOk result (λ c. (ys : checked_of (List operators.Placed)) → joined c ys
        ≡ joined list (put_before (given (λ t. (a.at, t)) (arguments.value_of_arg a ▷ operators.joins first a.at)) ys)) }
    ensures err { IfErr result (λ e. e ≡ Memory) }
{
    let next = judged(part(first, a))?;
    and_next(list, next)
}

/// The parts of a concatenation, or the first rule that one of them breaks.

pub fn parts(alloc: Global, args: Seq<Arg>) -> Result<Seq<(Place, Typed)>, Refusal>
    ensures { Gives result (arguments.parts_of args) }
{
    let first = first_kind(args.as_slice());
    let mut list = Checked::Good(Seq::new(alloc));
    for a in args.into_vec() {
        list = and_part(list, first, a)?;
    }
    answer(list)
}
