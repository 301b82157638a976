// The methods of queues, dynamic and associative arrays (IEEE 1800-2017, 7.5, 7.9 and 7.10): E16, E17, E31, E42.
ghost use Rattle.std.specs.Prelude.{◌≡◌, ◌∷◌, [], None, IfOk, IfErr};
ghost use Rattle.sv_value.specs.declared.place.Place.{Place as place_of};
ghost use Rattle.sv_names.specs.declared.checked.Checked.TheVariants.{Good};
ghost use Rattle.sv_names.specs.declared.method.Action.TheVariants as action;
ghost use Rattle.sv_names.specs.declared.method.Outcome.{Outcome as outcome};
ghost use Rattle.sv_names.specs.declared.refusal.Refusal.TheVariants.{Memory};
ghost use Rattle.sv_names.specs.Arguments as arguments;
ghost use Rattle.sv_names.specs.Calls as calls;
ghost use Rattle.sv_names.specs.Checked.{◌▷◌};
ghost use Rattle.sv_names.specs.Given.{Gives};
ghost use Rattle.sv_names.specs.Selects as selects;
ghost use Rattle.sv_names.specs.Views.{around_in};
ghost use Rattle.sv_elab_select.specs.Parts as parts;
ghost use Rattle.sv_elab_value.specs.Arguments as passing;
ghost use Rattle.sv_elab_method.specs.Steps as steps;

use crate::given::{exact_argument, key_of, operator, type_given};
use crate::sizes::{exists_code, size_code};
use std::alloc::Global;
use sv_elab_select::{container_of, counted_index, index_for, key_for};
use sv_elab_value::{code_of, first_two, paired};
use sv_flat::{CallForm, End, Expr};
use sv_names::{Arg, Around, Called, Hoisted, Outcome, Refusal, Ty, Typed, both, int_type};
use sv_value::{Place, Plain, Seq};

// ---- `push_front` and `push_back`

/// A queue to which a value is added at an end.
fn push_form(
    alloc: Global,
    end: End,
    queue: Hoisted<Expr>,
    value: Hoisted<Expr>,
) -> Result<Hoisted<CallForm>, Refusal>
    ensures ok { IfOk result (λ f. f ≡ steps.push_form end queue value) }
    ensures err { IfErr result (λ e. e ≡ Memory) }
{
    let both = paired(queue, value)?;
    let (queue, value) = both.value;
    let container = container_of(alloc, &queue)?;
    Ok(Hoisted {
        hidden: both.hidden,
        calls: both.calls,
        value: CallForm::Push {
            end,
            container,
            value,
        },
    })
}

/// E16, E17, E42: a value is added to a queue at an end.
pub(crate) fn push(
    alloc: Global,
    around: &Around,
    end: End,
    queue: Typed,
    arg: Arg,
) -> Result<Called, Refusal>
    ensures { Gives result (steps.push (around_in around.now) end queue arg) }
{
    let item = queue.ty.item(alloc)?;
    match exact_argument(alloc, around, &item, arg) {
        Ok(value) => {
            let form = push_form(alloc, end, code_of(queue), value)?;
            Ok(Called::Call(form, Ty::Nothing))
        }
        Err(e) => Err(e),
    }
}

// ---- `pop_front` and `pop_back`

/// A queue from which the item at an end is taken.
fn pop_form(
    alloc: Global,
    end: End,
    item: Plain,
    queue: Hoisted<Expr>,
) -> Result<Hoisted<CallForm>, Refusal>
    ensures ok { IfOk result (λ f. f ≡ steps.pop_form end item queue) }
    ensures err { IfErr result (λ e. e ≡ Memory) }
{
    let container = container_of(alloc, &queue.value)?;
    Ok(Hoisted {
        hidden: queue.hidden,
        calls: queue.calls,
        value: CallForm::Pop {
            end,
            container,
            item,
        },
    })
}

/// The item at an end is taken from a queue.
pub(crate) fn pop(
    alloc: Global,
    around: &Around,
    end: End,
    gives: &Outcome,
    queue: Typed,
) -> Result<Called, Refusal>
    ensures { (at : place_of) → Gives result (calls.acted (around_in around.now) at (action.Pop end) gives.now queue []) }
{
    let ty = type_given(alloc, gives)?;
    let item = around.numbers.plain_of(&queue.ty.item(alloc)?);
    let form = pop_form(alloc, end, item, code_of(queue))?;
    Ok(Called::Call(form, ty))
}

// ---- `insert`

/// A queue in which a value comes before a place.
fn insert_form(
    alloc: Global,
    queue: Hoisted<Expr>,
    index: Hoisted<Expr>,
    value: Hoisted<Expr>,
) -> Result<Hoisted<CallForm>, Refusal>
    ensures ok { IfOk result (λ f. f ≡ steps.insert_form queue index value) }
    ensures err { IfErr result (λ e. e ≡ Memory) }
{
    let all = paired(paired(queue, index)?, value)?;
    let ((queue, index), value) = all.value;
    let container = container_of(alloc, &queue)?;
    Ok(Hoisted {
        hidden: all.hidden,
        calls: all.calls,
        value: CallForm::Insert {
            container,
            index,
            value,
        },
    })
}

/// E42: an argument that is an index.
fn index_argument(alloc: Global, arg: Arg) -> Result<Hoisted<Expr>, Refusal>
    ensures { Gives result (arguments.value_of_arg arg ▷ parts.counted_index arg.at) }
{
    let at = arg.at;
    match arg.into_value() {
        Ok(index) => counted_index(alloc, at, index),
        Err(e) => Err(e),
    }
}

/// E16, E17, E42: a value comes before a place in a queue.
fn inserted(
    alloc: Global,
    around: &Around,
    queue: Typed,
    index: Arg,
    arg: Arg,
) -> Result<Called, Refusal>
    ensures { Gives result (steps.inserted (around_in around.now) queue index arg) }
{
    let item = queue.ty.item(alloc)?;
    let index = index_argument(alloc, index);
    match both(index, exact_argument(alloc, around, &item, arg)) {
        Ok((index, value)) => {
            let form = insert_form(alloc, code_of(queue), index, value)?;
            Ok(Called::Call(form, Ty::Nothing))
        }
        Err(e) => Err(e),
    }
}

/// The same. E31: there are too few arguments.
pub(crate) fn insert(
    alloc: Global,
    around: &Around,
    at: Place,
    queue: Typed,
    args: Seq<Arg>,
) -> Result<Called, Refusal>
    ensures { Gives result (steps.insert (around_in around.now) at queue (passing.first_two args)) }
{
    match first_two(args) {
        Some((index, arg)) => inserted(alloc, around, queue, index, arg),
        None => Err(Refusal::Rule { rule: 31, at }),
    }
}

// ---- `delete`

/// All items of a container are deleted.
pub(crate) fn delete_all(alloc: Global, container: Typed) -> Result<Called, Refusal>
    ensures { Gives result (Good (steps.delete_all container)) }
{
    let code = code_of(container);
    let container = container_of(alloc, &code.value)?;
    let form = Hoisted {
        hidden: code.hidden,
        calls: code.calls,
        value: CallForm::Delete {
            container,
            index: None,
        },
    };
    Ok(Called::Call(form, Ty::Nothing))
}

/// A container of which an item is deleted.
fn delete_form(
    alloc: Global,
    container: Hoisted<Expr>,
    index: Hoisted<Expr>,
) -> Result<Hoisted<CallForm>, Refusal>
    ensures ok { IfOk result (λ f. f ≡ steps.delete_form container index) }
    ensures err { IfErr result (λ e. e ≡ Memory) }
{
    let both = paired(container, index)?;
    let (container, index) = both.value;
    let container = container_of(alloc, &container)?;
    Ok(Hoisted {
        hidden: both.hidden,
        calls: both.calls,
        value: CallForm::Delete {
            container,
            index: Some(index),
        },
    })
}

/// E17, E42: an argument that is an index or a key of a container.
fn item_argument(
    alloc: Global,
    around: &Around,
    ty: &Ty,
    arg: Arg,
) -> Result<Hoisted<Expr>, Refusal>
    ensures { Gives result (arguments.value_of_arg arg ▷ selects.index_for (around_in around.now) ty.now arg.at) }
{
    let at = arg.at;
    match arg.into_value() {
        Ok(index) => index_for(alloc, around, ty, at, index),
        Err(e) => Err(e),
    }
}

/// E17, E42: an item of a container is deleted.
pub(crate) fn delete_item(
    alloc: Global,
    around: &Around,
    container: Typed,
    arg: Arg,
) -> Result<Called, Refusal>
    ensures { Gives result (steps.delete_item (around_in around.now) container arg) }
{
    match item_argument(alloc, around, &container.ty, arg) {
        Ok(index) => {
            let form = delete_form(alloc, code_of(container), index)?;
            Ok(Called::Call(form, Ty::Nothing))
        }
        Err(e) => Err(e),
    }
}

// ---- `size`, `num` and `exists`

/// The number of items of a container.
pub(crate) fn size(alloc: Global, at: Place, container: Typed) -> Result<Called, Refusal>
    ensures { Gives result (Good (steps.size at container)) }
{
    let code = size_code(alloc, code_of(container))?;
    Ok(operator(alloc, at, int_type(), false, code))
}

/// E17, E42: an argument that is a key.
fn key_argument(
    alloc: Global,
    around: &Around,
    key: &Ty,
    arg: Arg,
) -> Result<Hoisted<Expr>, Refusal>
    ensures { Gives result (arguments.value_of_arg arg ▷ selects.key_for (around_in around.now) key.now arg.at) }
{
    let at = arg.at;
    match arg.into_value() {
        Ok(index) => key_for(alloc, around, key, at, index),
        Err(e) => Err(e),
    }
}

/// E17, E42: whether an associative array has a key.
pub(crate) fn exists(
    alloc: Global,
    around: &Around,
    at: Place,
    array: Typed,
    arg: Arg,
) -> Result<Called, Refusal>
    ensures { (g : outcome) → Gives result (calls.acted (around_in around.now) at action.Exists g array (arg ∷ [])) }
{
    let key = key_of(alloc, &array.ty)?;
    match key_argument(alloc, around, &key, arg) {
        Ok(key) => {
            let code = exists_code(alloc, code_of(array), key)?;
            Ok(operator(alloc, at, int_type(), false, code))
        }
        Err(e) => Err(e),
    }
}
