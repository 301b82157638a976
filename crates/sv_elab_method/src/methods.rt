// Calls of methods of the language (IEEE 1800-2017, 6.16, 6.19, 7.5 to 7.10 and 15): E16, E17, E24, E25, E27, E31, E32, E42.
ghost use Rattle.std.specs.Prelude.{◌≡◌, ◌∷◌, [], option_to_list};
ghost use Rattle.sv_names.specs.Calls as calls;
ghost use Rattle.sv_names.specs.Given.{Gives};
ghost use Rattle.sv_names.specs.Methods as methods;
ghost use Rattle.sv_names.specs.Views.{around_in};
ghost use Rattle.sv_elab_method.specs.Steps as steps;

use crate::containers::{delete_all, delete_item, exists, insert, pop, push, size};
use crate::enums::name;
use crate::given::{first_argument, without_argument};
use crate::mailboxes::{Getting, get, messages, put};
use crate::semaphores::{get_keys, put_keys, text_length, triggered};
use crate::walks::walk;
use std::alloc::Global;
use sv_elab_value::{call_stands, rule, task_stands, value_stands};
use sv_names::{Action, Arg, Around, Called, Method, Outcome, Refusal, Typed, where_also};
use sv_value::{Place, Seq};

// ---- what each method does

/// A method without arguments. How many it has to have is judged before.
fn acted_alone(
    alloc: Global,
    around: &Around,
    at: Place,
    action: Action,
    gives: &Outcome,
    object: Typed,
) -> Result<Called, Refusal>
    ensures { Gives result (calls.acted (around_in around.now) at action gives.now object []) }
{
    match action {
        Action::Push(_) => Ok(without_argument(alloc)),
        Action::Pop(end) => pop(alloc, around, end, gives, object),
        Action::Insert => Err(Refusal::Rule { rule: 31, at }),
        Action::Delete => delete_all(alloc, object),
        Action::Size => size(alloc, at, object),
        Action::Exists => Ok(without_argument(alloc)),
        Action::Walk(_) => Ok(without_argument(alloc)),
        Action::Put { .. } => Ok(without_argument(alloc)),
        Action::Get { .. } => Ok(without_argument(alloc)),
        Action::Messages => messages(alloc, at, object),
        Action::PutKeys => put_keys(alloc, around, object, None),
        Action::GetKeys { waits } => get_keys(alloc, around, waits, gives, object, None),
        Action::Name => name(alloc, around, at, object),
        Action::Length => text_length(alloc, at, object),
        Action::Triggered => triggered(alloc, at, gives, object),
    }
}

/// A method with one argument.
fn acted_with(
    alloc: Global,
    around: &Around,
    at: Place,
    action: Action,
    gives: &Outcome,
    object: Typed,
    arg: Arg,
) -> Result<Called, Refusal>
    ensures { Gives result (calls.acted (around_in around.now) at action gives.now object (arg ∷ [])) }
{
    match action {
        Action::Push(end) => push(alloc, around, end, object, arg),
        Action::Insert => Err(Refusal::Rule { rule: 31, at }),
        Action::Delete => delete_item(alloc, around, object, arg),
        Action::Exists => exists(alloc, around, at, object, arg),
        Action::Walk(step) => walk(alloc, around, step, object, arg),
        Action::Put { waits } => put(alloc, around, waits, gives, object, arg),
        Action::Get { peeks, waits } => {
            get(alloc, around, Getting { peeks, waits }, gives, object, arg)
        }
        Action::PutKeys => put_keys(alloc, around, object, Some(arg)),
        Action::GetKeys { waits } => get_keys(alloc, around, waits, gives, object, Some(arg)),
        Action::Pop(_) => acted_alone(alloc, around, at, action, gives, object),
        Action::Size => acted_alone(alloc, around, at, action, gives, object),
        Action::Messages => acted_alone(alloc, around, at, action, gives, object),
        Action::Name => acted_alone(alloc, around, at, action, gives, object),
        Action::Length => acted_alone(alloc, around, at, action, gives, object),
        Action::Triggered => acted_alone(alloc, around, at, action, gives, object),
    }
}

/// A method with at most one argument.
fn acted_on(
    alloc: Global,
    around: &Around,
    at: Place,
    action: Action,
    gives: &Outcome,
    object: Typed,
    first: Option<Arg>,
) -> Result<Called, Refusal>
    ensures { Gives result (calls.acted (around_in around.now) at action gives.now object (option_to_list first)) }
{
    match first {
        None => acted_alone(alloc, around, at, action, gives, object),
        Some(arg) => acted_with(alloc, around, at, action, gives, object, arg),
    }
}

/// What a method does with its arguments.
fn acted(
    alloc: Global,
    around: &Around,
    at: Place,
    action: Action,
    gives: &Outcome,
    object: Typed,
    args: Seq<Arg>,
) -> Result<Called, Refusal>
    ensures { Gives result (calls.acted (around_in around.now) at action gives.now object args) }
{
    match action {
        Action::Insert => insert(alloc, around, at, object, args),
        _ => acted_on(
            alloc,
            around,
            at,
            action,
            gives,
            object,
            first_argument(args),
        ),
    }
}

// ---- where it stands

/// Whether it stands for a value.
fn gives_value(gives: &Outcome) -> bool
    ensures { result ≡ methods.gives_value gives.now }
{
    match gives {
        Outcome::Value(_) => true,
        _ => false,
    }
}

/// Whether it is a task.
fn may_wait(gives: &Outcome) -> bool
    ensures { result ≡ methods.may_wait gives.now }
{
    match gives {
        Outcome::NothingLater => true,
        _ => false,
    }
}

/// E24, E25: a method that changes something is a call.
fn method_stands(around: &Around, at: Place, method: &Method) -> Result<(), Refusal>
    ensures { Gives result (steps.method_stands (around_in around.now) at method.now) }
{
    if method.is_call {
        call_stands(around, at)
    } else {
        Ok(())
    }
}

/// E31: so many arguments are too few or too many.
fn count_stands(at: Place, method: &Method, count: usize) -> Result<(), Refusal>
    ensures { Gives result (steps.count_stands at method.now count) }
{
    let too_few = count < usize::from(method.least);
    rule(31, at, too_few || usize::from(method.most) < count)
}

/// E24, E25, E27, E31, E32: a method may be called here, with so many arguments.
fn may_be_called(
    around: &Around,
    at: Place,
    is_value: bool,
    method: &Method,
    count: usize,
) -> Result<(), Refusal>
    ensures { Gives result (steps.may_be_called (around_in around.now) at is_value method.now count) }
{
    let called = where_also(
        count_stands(at, method, count),
        method_stands(around, at, method),
    );
    let valued = where_also(
        called,
        value_stands(at, is_value, !gives_value(&method.gives)),
    );
    where_also(valued, task_stands(around, at, may_wait(&method.gives)))
}

/// A call of a method of the language for an object. E24 and E25: no call may stand there; E27: what may wait stands where nothing may;
/// E31: too few or too many arguments; E32: a call that gives nothing stands for a value; E16, E17, E42: an argument of another type.
pub fn method_called(
    alloc: Global,
    around: &Around,
    at: Place,
    is_value: bool,
    method: Method,
    object: Typed,
    args: Seq<Arg>,
) -> Result<Called, Refusal>
    ensures { Gives result (calls.method_called (around_in around.now) at is_value method object args) }
{
    let count = args.as_slice().len();
    match may_be_called(around, at, is_value, &method, count) {
        Ok(()) => acted(
            alloc,
            around,
            at,
            method.action,
            &method.gives,
            object,
            args,
        ),
        Err(e) => Err(e),
    }
}
