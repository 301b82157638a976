// What follows a thing, over what its parts give (IEEE 1800-2017, 7.4, 11.5 and 13.5).
ghost use Rattle.std.specs.Prelude.{◌≡◌, ◌-◌, ◌^◌, min, Option, IfOk, IfErr};
ghost use Rattle.sv_names.specs.declared.checked.Checked.{Checked as checked};
ghost use Rattle.sv_names.specs.declared.checked.Checked.TheVariants.{Good, Broken};
ghost use Rattle.sv_names.specs.declared.refusal.Refusal.TheVariants.{Memory};
ghost use Rattle.sv_names.specs.Checked.{given, fault_of as fault_in, also_broken, only};
ghost use Rattle.sv_names.specs.Expressions as expressions;
ghost use Rattle.sv_names.specs.Named.{behind};
ghost use Rattle.sv_names.specs.Things as things;
ghost use Rattle.sv_names.specs.Things.{Thing as thing_of};
ghost use Rattle.sv_names.specs.Views.{around_in};
ghost use Rattle.sv_elab_name.specs.Things.{thing_in};

use crate::behind::behind_value;
use std::alloc::Global;
use sv_elab_call::sv_elab_select::{part_select_of, select_of};
use sv_elab_name::{Thing, hidden_behind};
use sv_names::{Around, Checked, Dollar, Fault, Refusal, Typed, answer, earlier_in, judged};
use sv_tree::PartWord;
use sv_value::Place;

/// The rule that a thing breaks.
pub fn fault_of(thing: &Checked<Thing>) -> Option<Fault>
    ensures { result ≡ fault_in (given thing_in thing.now) }
{
    match thing {
        Checked::Good(_) => None,
        Checked::Broken(f) => Some(*f),
    }
}

/// What stands behind the object of what is called.
pub fn behind_object<'a>(around: &Around<'a>, thing: &Checked<Thing>) -> Around<'a>
    ensures { around_in result ≡ behind (things.hidden_before (given thing_in thing.now)) (around_in around.now) }
{
    around.behind(u32::try_from(hidden_behind(thing)).unwrap_or(u32::MAX))
}

/// In an index, behind what is indexed.
pub fn in_index<'b, 'a: 'b>(
    dollar: &'b Dollar,
    value: &Checked<Typed>,
    around: &Around<'a>,
) -> Around<'b>
    ensures { (th : checked thing_of) → dollar.now ≡ things.dollar_in th
        → around_in result ≡ expressions.in_index th value.now (around_in around.now) }
{
    Around {
        dollar,
        ..behind_value(around, value)
    }
}

// ---- selects

/// What stands behind a thing that breaks a rule can break one too.
fn also<'a>(f: Fault, stands: &Checked<()>) -> Checked<Thing<'a>>
    ensures { given thing_in result ≡ also_broken f stands.now }
{
    Checked::Broken(earlier_in(f, stands))
}

/// Whether a value breaks a rule, alone.
fn stands(value: &Checked<Typed>) -> Checked<()>
    ensures { result ≡ only value.now }
{
    match value {
        Checked::Good(_) => Checked::Good(()),
        Checked::Broken(f) => Checked::Broken(*f),
    }
}

/// Whether two values break a rule, alone.
fn both_stand(a: &Checked<Typed>, b: &Checked<Typed>) -> Checked<()>
    ensures { result ≡ things.both_stand a.now b.now }
{
    match a {
        Checked::Good(_) => stands(b),
        Checked::Broken(f) => Checked::Broken(earlier_in(*f, b)),
    }
}

/// `[i]` of a value.
fn selected<'a>(
    alloc: Global,
    around: &Around,
    at: Place,
    pi: Place,
    value: Checked<Typed>,
    i: Checked<Typed>,
) -> Result<Checked<Thing<'a>>, Refusal>
    ensures ok { IfOk result (λ c. given thing_in c ≡ things.value_selected (around_in around.now) at pi value i) }
    ensures err { IfErr result (λ e. e ≡ Memory) }
{
    match value {
        Checked::Good(t) => {
            let t = judged(select_of(alloc, around, at, pi, t, answer(i)))?;
            Ok(as_thing(t))
        }
        Checked::Broken(f) => Ok(Checked::Broken(f)),
    }
}

/// A value as a thing.
fn as_thing<'a>(value: Checked<Typed>) -> Checked<Thing<'a>>
    ensures { given thing_in result ≡ given things.A_value value }
{
    match value {
        Checked::Good(t) => Checked::Good(Thing::Value(t)),
        Checked::Broken(f) => Checked::Broken(f),
    }
}

/// `[i]` behind a thing, whose rule comes first where it breaks one.
pub fn select_step<'a>(
    alloc: Global,
    around: &Around,
    at: Place,
    pi: Place,
    fault: Option<Fault>,
    value: Checked<Typed>,
    i: Checked<Typed>,
) -> Result<Checked<Thing<'a>>, Refusal>
    ensures ok { IfOk result (λ c. (th : checked thing_of) → fault ≡ fault_in th
        → given thing_in c ≡ things.select_step (around_in around.now) at pi th value i) }
    ensures err { IfErr result (λ e. e ≡ Memory) }
{
    match fault {
        Some(f) => Ok(also(f, &stands(&i))),
        None => selected(alloc, around, at, pi, value, i),
    }
}

/// A part of a value.
fn part_selected<'a>(
    alloc: Global,
    word: PartWord,
    at: Place,
    place: Place,
    pl: Place,
    pr: Place,
    value: Checked<Typed>,
    l: Checked<Typed>,
    r: Checked<Typed>,
) -> Result<Checked<Thing<'a>>, Refusal>
    ensures ok { IfOk result (λ c. given thing_in c ≡ things.value_parted word at place pl pr value l r) }
    ensures err { IfErr result (λ e. e ≡ Memory) }
{
    match value {
        Checked::Good(t) => {
            let t = judged(part_select_of(
                alloc,
                word,
                at,
                place,
                pl,
                pr,
                t,
                answer(l),
                answer(r),
            ))?;
            Ok(as_thing(t))
        }
        Checked::Broken(f) => Ok(Checked::Broken(f)),
    }
}

/// A part select behind a thing, whose rule comes first where it breaks one.
pub fn part_step<'a>(
    alloc: Global,
    word: PartWord,
    at: Place,
    place: Place,
    pl: Place,
    pr: Place,
    fault: Option<Fault>,
    value: Checked<Typed>,
    l: Checked<Typed>,
    r: Checked<Typed>,
) -> Result<Checked<Thing<'a>>, Refusal>
    ensures ok { IfOk result (λ c. (th : checked thing_of) → fault ≡ fault_in th
        → given thing_in c ≡ things.part_step word at place pl pr th value l r) }
    ensures err { IfErr result (λ e. e ≡ Memory) }
{
    match fault {
        Some(f) => Ok(also(f, &both_stand(&l, &r))),
        None => part_selected(alloc, word, at, place, pl, pr, value, l, r),
    }
}
