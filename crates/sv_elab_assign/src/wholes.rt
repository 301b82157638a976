// Blocking assignments: a target, perhaps a delay, and what is behind the `=` (IEEE 1800-2017, 7.5.1, 8.12, 9.4.5 and 10.4.1).
ghost use Rattle.std.specs.Prelude.{◌≡◌, List, Option};
ghost use Rattle.sv_tree.specs.declared.word.Name.{Name as name_of};
ghost use Rattle.sv_tree.specs.Expr as tree;
ghost use Rattle.sv_tree.specs.Stmt as stmts;
ghost use Rattle.sv_names.specs.declared.argument.Arg.{Arg as arg};
ghost use Rattle.sv_names.specs.Arguments as arguments;
ghost use Rattle.sv_names.specs.Assignments as assignments;
ghost use Rattle.sv_names.specs.Targets as targets;
ghost use Rattle.sv_names.specs.Checked as rules;
ghost use Rattle.sv_names.specs.Checked.{◌▷◌, given, both};
ghost use Rattle.sv_names.specs.Given.{Gives};
ghost use Rattle.sv_names.specs.Views.{around_in};
ghost use Rattle.sv_elab_assign.specs.Amounts.{amount_if};
ghost use Rattle.sv_elab_assign.specs.Places as places;
ghost use Rattle.sv_elab_assign.specs.Wholes as wholes;

use crate::amount::Amount;
use crate::arrays::{Source, array_given};
use crate::beside::{also_broken, both_parts, only};
use crate::copies::copy_given;
use crate::standing::behind_parts;
use crate::written::{assign_parts, not_late, value_given};
use std::alloc::Global;
use sv_elab_call::sv_elab_select::Spot;
use sv_elab_value::call_stands;
use sv_flat::{Expr, Form};
use sv_names::{Around, Checked, Hoisted, Refusal, Typed, earlier_in, where_also};
use sv_value::{Place, Seq};

// ---- a value

/// A value that may break a rule, for a target.
fn value_in(
    alloc: Global,
    around: &Around,
    amount: Option<Amount>,
    at: Place,
    spots: Seq<Spot>,
    value: Checked<Typed>,
) -> Result<Hoisted<Form>, Refusal>
    ensures { Gives result (value ▷ assignments.value_given (around_in around.now) (amount_if amount) at spots) }
{
    match value {
        Checked::Good(t) => value_given(alloc, around, amount, at, spots, t),
        Checked::Broken(f) => Err(f.refusal()),
    }
}

/// A value behind a target and a delay that break no rule.
fn value_behind(
    alloc: Global,
    around: &Around,
    amount: Option<Amount>,
    at: Place,
    spots: Seq<Spot>,
    value: Checked<Typed>,
) -> Result<Hoisted<Form>, Refusal>
    ensures { Gives result (wholes.value_behind (around_in around.now) (amount_if amount) at spots value) }
{
    let inner = behind_parts(around, spots.as_slice(), &amount);
    let late = not_late(&amount, spots.as_slice());
    where_also(value_in(alloc, &inner, amount, at, spots, value), late)
}

/// A blocking assignment of a value at `at` that is elaborated behind the target and the delay (`value_around`). E16 and E17: it does not
/// fit by type; E42: a whole container is given after a delay, or to what is none.
pub fn assign(
    alloc: Global,
    around: &Around,
    target: Checked<Seq<Spot>>,
    amount: Checked<Option<Amount>>,
    at: Place,
    value: Checked<Typed>,
) -> Result<Hoisted<Form>, Refusal>
    ensures { (e : tree.Expr) → at ≡ tree.place_of e
        → value ≡ places.value_there (around_in around.now) target (given amount_if amount) e
        → Gives result (assignments.given_behind (around_in around.now) target (given amount_if amount) (stmts.Value e)) }
{
    match both_parts(target, amount) {
        Checked::Good((spots, amount)) => value_behind(alloc, around, amount, at, spots, value),
        Checked::Broken(f) => also_broken(f, &only(&value)),
    }
}

// ---- `new h`

/// A copy of what may break a rule, for a target.
pub(crate) fn copy_in(
    alloc: Global,
    around: &Around,
    amount: Option<Amount>,
    at: Place,
    spots: Seq<Spot>,
    value: Checked<Typed>,
) -> Result<Hoisted<Form>, Refusal>
    ensures { Gives result (value ▷ assignments.copy_given (around_in around.now) (amount_if amount) at spots) }
{
    match value {
        Checked::Good(t) => copy_given(alloc, around, amount, at, spots, t),
        Checked::Broken(f) => Err(f.refusal()),
    }
}

/// `new h` behind a target and a delay that break no rule.
fn copy_behind(
    alloc: Global,
    around: &Around,
    amount: Option<Amount>,
    at: Place,
    spots: Seq<Spot>,
    value: Checked<Typed>,
) -> Result<Hoisted<Form>, Refusal>
    ensures { Gives result (wholes.copy_behind (around_in around.now) (amount_if amount) at spots value) }
{
    let inner = behind_parts(around, spots.as_slice(), &amount);
    let late = not_late(&amount, spots.as_slice());
    where_also(copy_in(alloc, &inner, amount, at, spots, value), late)
}

/// A blocking assignment of `new h`, at the word, where h is elaborated behind the target and the delay (`value_around`). E16 and E42: the
/// target takes no such object; E24 and E25: no call may stand there.
pub fn assign_copy(
    alloc: Global,
    around: &Around,
    target: Checked<Seq<Spot>>,
    amount: Checked<Option<Amount>>,
    at: Place,
    value: Checked<Typed>,
) -> Result<Hoisted<Form>, Refusal>
    ensures { (n : name_of) → value ≡ places.named_there (around_in around.now) target (given amount_if amount) n
        → Gives result (assignments.given_behind (around_in around.now) target (given amount_if amount) (stmts.Copy at n)) }
{
    match both_parts(target, amount) {
        Checked::Good((spots, amount)) => copy_behind(alloc, around, amount, at, spots, value),
        Checked::Broken(f) => also_broken(f, &only(&value)),
    }
}

// ---- `new`

/// What `new` makes, for a target; it is a call (E24, E25).
fn made_for(
    alloc: Global,
    around: &Around,
    amount: Option<Amount>,
    at: Place,
    spots: Seq<Spot>,
    made: Checked<Hoisted<Expr>>,
) -> Result<Hoisted<Form>, Refusal>
    ensures { Gives result (wholes.made_for (around_in around.now) (amount_if amount) at spots made) }
{
    let form = made_in(alloc, around, amount, spots, made);
    where_also(form, call_stands(around, at))
}

/// The same but for where it stands.
fn made_in(
    alloc: Global,
    around: &Around,
    amount: Option<Amount>,
    spots: Seq<Spot>,
    made: Checked<Hoisted<Expr>>,
) -> Result<Hoisted<Form>, Refusal>
    ensures { Gives result
        (given (assignments.assign_form (amount_if amount) (targets.lvalues (around_in around.now) spots)) made) }
{
    match made {
        Checked::Good(value) => {
            let form = assign_parts(alloc, around, amount, spots, value)?;
            Ok(form)
        }
        Checked::Broken(f) => Err(f.refusal()),
    }
}

/// `new` behind a target and a delay that break no rule.
fn made_behind(
    alloc: Global,
    around: &Around,
    amount: Option<Amount>,
    at: Place,
    spots: Seq<Spot>,
    made: Checked<Hoisted<Expr>>,
) -> Result<Hoisted<Form>, Refusal>
    ensures { Gives result (wholes.made_behind (around_in around.now) (amount_if amount) at spots made) }
{
    let inner = behind_parts(around, spots.as_slice(), &amount);
    let late = not_late(&amount, spots.as_slice());
    where_also(made_for(alloc, &inner, amount, at, spots, made), late)
}

/// A blocking assignment of `new`, at the word: of what it makes of its arguments behind the target and the delay, where these break no rule;
/// else the arguments are judged alone (`alone`). E24 and E25: no call may stand there; E42: a container is the target of a delay.
pub fn assign_new(
    alloc: Global,
    around: &Around,
    target: Checked<Seq<Spot>>,
    amount: Checked<Option<Amount>>,
    at: Place,
    made: Checked<Hoisted<Expr>>,
    alone: Checked<()>,
) -> Result<Hoisted<Form>, Refusal>
    ensures { (a : tree.Actuals) (as' : List arg) → as' ≡ places.args_there (around_in around.now) target (given amount_if amount) a
        → alone ≡ arguments.values_stand as'
        → wholes.IsMade (around_in around.now) (both target (given amount_if amount)) at as' made
        → Gives result (assignments.given_behind (around_in around.now) target (given amount_if amount) (stmts.New at a)) }
{
    match both_parts(target, amount) {
        Checked::Good((spots, amount)) => made_behind(alloc, around, amount, at, spots, made),
        Checked::Broken(f) => also_broken(f, &alone),
    }
}

// ---- `new[n]`

/// `new[n]` behind a target and a delay that break no rule.
fn array_behind(
    alloc: Global,
    around: &Around,
    amount: Option<Amount>,
    at: Place,
    place: Place,
    size: Checked<Typed>,
    source: Option<Source>,
    spots: Seq<Spot>,
) -> Result<Hoisted<Form>, Refusal>
    ensures { Gives result (wholes.array_behind (around_in around.now) (amount_if amount) at place size source spots) }
{
    let inner = behind_parts(around, spots.as_slice(), &amount);
    let late = not_late(&amount, spots.as_slice());
    let array = array_given(alloc, &inner, amount, at, place, size, source, spots);
    where_also(array, late)
}

/// What `new[n]` breaks by itself.
fn array_alone(size: &Checked<Typed>, source: &Option<Source>) -> Checked<()>
    ensures { result ≡ wholes.array_alone size.now source.now }
{
    match source {
        None => only(size),
        Some(source) => both_stand(size, &source.value),
    }
}

/// What two expressions break.
fn both_stand(a: &Checked<Typed>, b: &Checked<Typed>) -> Checked<()>
    ensures { result ≡ rules.only (both a.now b.now) }
{
    match a {
        Checked::Good(_) => only(b),
        Checked::Broken(f) => Checked::Broken(earlier_in(*f, b)),
    }
}

/// A blocking assignment of `new[n]` or `new[n](old)`, at the word, with the number of items at `place`, which is elaborated behind the target
/// and the delay (`value_around`), and the array behind it (`source_around`). E16: the target is no dynamic array, or what is copied has
/// another type; E24 and E25: no call may stand there; E42: it comes after a delay.
pub fn assign_array(
    alloc: Global,
    around: &Around,
    target: Checked<Seq<Spot>>,
    amount: Checked<Option<Amount>>,
    at: Place,
    place: Place,
    size: Checked<Typed>,
    source: Option<Source>,
) -> Result<Hoisted<Form>, Refusal>
    ensures { (n : tree.Expr) (old : Option tree.Expr) → place ≡ tree.place_of n
        → size ≡ places.value_there (around_in around.now) target (given amount_if amount) n
        → wholes.IsSource (places.source_around (around_in around.now) (both target (given amount_if amount)) size) source old
        → Gives result (assignments.given_behind (around_in around.now) target (given amount_if amount) (stmts.Array at n old)) }
{
    match both_parts(target, amount) {
        Checked::Good((spots, amount)) => {
            array_behind(alloc, around, amount, at, place, size, source, spots)
        }
        Checked::Broken(f) => also_broken(f, &array_alone(&size, &source)),
    }
}
