// `new[n]` and `new[n](old)` (IEEE 1800-2017, 7.5.1): E16, E17, E24, E25, E42.
ghost use Rattle.std.specs.Prelude.{◌≡◌, IfOk, IfErr};
ghost use Rattle.sv_names.specs.declared.refusal.Refusal.TheVariants.{Memory};
ghost use Rattle.sv_names.specs.Assignments as assignments;
ghost use Rattle.sv_names.specs.Checked.{◌▷◌, given};
ghost use Rattle.sv_names.specs.Given.{Gives};
ghost use Rattle.sv_names.specs.Hoisted as hoisted;
ghost use Rattle.sv_names.specs.Selects as selects;
ghost use Rattle.sv_names.specs.Types as types;
ghost use Rattle.sv_names.specs.Values as values;
ghost use Rattle.sv_names.specs.Views.{around_in};
ghost use Rattle.sv_elab_assign.specs.Amounts.{amount_if};
ghost use Rattle.sv_elab_assign.specs.Forms as forms;
ghost use Rattle.sv_elab_assign.specs.Wholes as wholes;

use crate::amount::Amount;
use crate::written::no_object;
use std::alloc::Global;
use sv_elab_call::sv_elab_select::{Spot, container_of, read_of, type_of_target};
use sv_elab_value::{call_stands, code_of, exactly, paired, pure};
use sv_flat::{Container, Expr, Form};
use sv_names::{Around, Checked, Hoisted, Refusal, Ty, Typed, both, selectable, where_also};
use sv_value::{Place, Seq};

/// The array that `new[n](old)` copies.
#[derive(Drop)]
pub struct Source {
    /// Its first token.
    pub at: Place,
    /// What it is, or the rule that it breaks.
    pub value: Checked<Typed>,
}

// ---- what is copied

/// The container that an expression stands for, with its calls.
fn container_code(alloc: Global, code: Hoisted<Expr>) -> Result<Hoisted<Container>, Refusal>
    ensures ok { IfOk result (λ c. c ≡ hoisted.mapped selects.container_of code) }
    ensures err { IfErr result (λ e. e ≡ Memory) }
{
    let value = container_of(alloc, &code.value)?;
    Ok(Hoisted {
        hidden: code.hidden,
        calls: code.calls,
        value,
    })
}

/// E16: the array that is copied has the type of the target.
fn old_container(
    alloc: Global,
    to: &Ty,
    at: Place,
    old: Typed,
) -> Result<Hoisted<Container>, Refusal>
    ensures { Gives result (assignments.old_container to.now at old) }
{
    if to.is_same(&old.ty) {
        let source = container_code(alloc, code_of(old))?;
        Ok(source)
    } else {
        Err(Refusal::Rule { rule: 16, at })
    }
}

/// The same of one that may break a rule before.
fn source_of(alloc: Global, to: &Ty, source: Source) -> Result<Hoisted<Container>, Refusal>
    ensures { Gives result (source.value ▷ assignments.old_container to.now source.at) }
{
    let Source { at, value } = source;
    match value {
        Checked::Good(old) => old_container(alloc, to, at, old),
        Checked::Broken(f) => Err(f.refusal()),
    }
}

/// The same, where one is written.
fn old_of(
    alloc: Global,
    to: &Ty,
    source: Option<Source>,
) -> Result<Option<Hoisted<Container>>, Refusal>
    ensures { Gives result (wholes.old_of to.now source) }
{
    match source {
        None => Ok(None),
        Some(source) => match source_of(alloc, to, source) {
            Ok(old) => Ok(Some(old)),
            Err(e) => Err(e),
        },
    }
}

/// The same, where the target is a dynamic array; else the array is not looked at.
fn old_for(
    alloc: Global,
    to: &Ty,
    source: Option<Source>,
) -> Result<Option<Hoisted<Container>>, Refusal>
    ensures { Gives result (wholes.old_for to.now source) }
{
    if to.is_dynamic() {
        old_of(alloc, to, source)
    } else {
        Ok(None)
    }
}

/// What is copied, if there is something.
fn if_any(alloc: Global, old: Option<Hoisted<Container>>) -> Hoisted<Option<Container>>
    ensures { result ≡ hoisted.if_any old }
{
    match old {
        None => pure(alloc, None),
        Some(old) => Hoisted {
            hidden: old.hidden,
            calls: old.calls,
            value: Some(old.value),
        },
    }
}

// ---- the array

/// A dynamic array that gets so many items, and perhaps those of another one.
fn resize_form(
    alloc: Global,
    around: &Around,
    array: Typed,
    size: Hoisted<Expr>,
    old: Option<Hoisted<Container>>,
) -> Result<Hoisted<Form>, Refusal>
    ensures ok { IfOk result (λ f. f ≡ forms.resize_form (around_in around.now) array size old) }
    ensures err { IfErr result (λ e. e ≡ Memory) }
{
    let item = array.ty.item(alloc)?;
    let item = around.numbers.plain_of(&item);
    let old = if_any(alloc, old);
    let all = paired(paired(code_of(array), size)?, old)?;
    let ((target, size), source) = all.value;
    let target = container_of(alloc, &target)?;
    Ok(Hoisted {
        hidden: all.hidden,
        calls: all.calls,
        value: Form::Resize {
            target,
            size,
            source,
            item,
        },
    })
}

/// E42: the same, at once.
fn resize_given(
    alloc: Global,
    around: &Around,
    amount: Option<Amount>,
    array: Typed,
    size: Hoisted<Expr>,
    old: Option<Hoisted<Container>>,
) -> Result<Hoisted<Form>, Refusal>
    ensures { Gives result (forms.resize_given (around_in around.now) (amount_if amount) array size old) }
{
    match amount {
        None => {
            let form = resize_form(alloc, around, array, size, old)?;
            Ok(form)
        }
        Some(_) => Err(Refusal::Rule {
            rule: 42,
            at: array.at,
        }),
    }
}

/// Whether a target is a whole dynamic array.
fn is_dynamic_array(spots: &[Spot]) -> bool
    ensures { result ≡ forms.is_dynamic_array spots.now }
{
    match spots {
        [spot] => spot.1.ty.is_dynamic(),
        _ => false,
    }
}

/// E16, E42: a target gets so many items, and perhaps those of another array.
#[tactic(auto, using(crate::proofs::TargetLaws::array_resized, crate::proofs::TargetLaws::not_resized))]
fn resized(
    alloc: Global,
    around: &Around,
    amount: Option<Amount>,
    at: Place,
    size: Hoisted<Expr>,
    old: Option<Hoisted<Container>>,
    spots: Seq<Spot>,
) -> Result<Hoisted<Form>, Refusal>
    ensures { Gives result (assignments.resized (around_in around.now) (amount_if amount) at size old spots) }
{
    if is_dynamic_array(spots.as_slice()) {
        let array = read_of(alloc, at, spots)?;
        resize_given(alloc, around, amount, array, size, old)
    } else {
        Err(no_object(at, spots.as_slice()).refusal())
    }
}

/// E16, E17, E42: the number of items.
fn size_of(
    alloc: Global,
    around: &Around,
    at: Place,
    size: Checked<Typed>,
) -> Result<Hoisted<Expr>, Refusal>
    ensures { Gives result (size ▷ values.exactly (around_in around.now) types.longint_type at) }
{
    match size {
        Checked::Good(size) => exactly(alloc, around, &selectable(64, true, false), at, size),
        Checked::Broken(f) => Err(f.refusal()),
    }
}

/// `new[n]` but for the rules on where it stands.
fn array_for(
    alloc: Global,
    around: &Around,
    amount: Option<Amount>,
    at: Place,
    place: Place,
    size: Checked<Typed>,
    source: Option<Source>,
    spots: Seq<Spot>,
) -> Result<Hoisted<Form>, Refusal>
    ensures { Gives result (wholes.array_for (around_in around.now) (amount_if amount) at place size source spots) }
{
    let to = type_of_target(alloc, spots.as_slice())?;
    let old = old_for(alloc, &to, source);
    match both(size_of(alloc, around, place, size), old) {
        Ok((size, old)) => resized(alloc, around, amount, at, size, old, spots),
        Err(e) => Err(e),
    }
}

/// `new[n]` and `new[n](old)`, at the word, with the number of items at `place`. E16: the target is no dynamic array, the array that is
/// copied has another type, or the number is none; E24 and E25: no call may stand there; E42: it comes after a delay.
pub fn array_given(
    alloc: Global,
    around: &Around,
    amount: Option<Amount>,
    at: Place,
    place: Place,
    size: Checked<Typed>,
    source: Option<Source>,
    spots: Seq<Spot>,
) -> Result<Hoisted<Form>, Refusal>
    ensures { Gives result (wholes.array_of (around_in around.now) (amount_if amount) at place size source spots) }
{
    let array = array_for(alloc, around, amount, at, place, size, source, spots);
    where_also(array, call_stands(around, at))
}
