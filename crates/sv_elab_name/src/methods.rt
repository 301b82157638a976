// The methods of arrays, strings, enums, events, mailboxes and semaphores, by their names (IEEE 1800-2017, 6.16, 6.19, 7.5 to 7.10 and 15).
ghost use Rattle.std.specs.Prelude.{◌≡◌, ◌∷◌, [], Some, IfOk, IfErr};
ghost use Rattle.sv_names.specs.declared.refusal.Refusal.TheVariants.{Memory};
ghost use Rattle.sv_names.specs.Methods as methods;
ghost use Rattle.sv_names.specs.Types as types;
ghost use Rattle.sv_names.specs.declared.method.Outcome.TheVariants as outcome;

use std::alloc::Global;
use sv_flat::{End, WalkStep};
use sv_names::{Action, Element, Method, Outcome, Refusal, Ty, int_type, plain_vector, same_bytes};

/// A method that changes something.
fn calling(action: Action, least: u8, most: u8, gives: Outcome) -> Option<Method>
    ensures { result ≡ Some (methods.calling action least most gives) }
{
    Some(Method {
        action,
        least,
        most,
        gives,
        is_call: true,
    })
}

/// A method that is an operator.
fn operating(action: Action, arguments: u8, ty: Ty) -> Option<Method>
    ensures { result ≡ Some (methods.operating action arguments ty) }
{
    Some(Method {
        action,
        least: arguments,
        most: arguments,
        gives: Outcome::Value(ty),
        is_call: false,
    })
}

/// A method that answers whether it did something.
fn answering(action: Action, least: u8) -> Option<Method>
    ensures { result
        ≡ Some (methods.calling action least 1 (outcome.Value types.int_type)) }
{
    calling(action, least, 1, Outcome::Value(int_type()))
}

/// A method of a queue (7.10.2).
fn queue_method(alloc: Global, item: &Element, name: &[u8]) -> Result<Option<Method>, Refusal>
    ensures ok { IfOk result (λ m. m
        ≡ methods.in_table name.now (methods.queue_methods (types.as_type item.now))) }
    ensures err { IfErr result (λ e. e ≡ Memory) }
{
    let pushed = Outcome::NothingAtOnce;
    if same_bytes(name, b"push_back") {
        return Ok(calling(Action::Push(End::Back), 1, 1, pushed));
    }
    if same_bytes(name, b"push_front") {
        return Ok(calling(Action::Push(End::Front), 1, 1, pushed));
    }
    if same_bytes(name, b"pop_back") {
        let given = Outcome::Value(item.as_type(alloc)?);
        return Ok(calling(Action::Pop(End::Back), 0, 0, given));
    }
    if same_bytes(name, b"pop_front") {
        let given = Outcome::Value(item.as_type(alloc)?);
        return Ok(calling(Action::Pop(End::Front), 0, 0, given));
    }
    if same_bytes(name, b"insert") {
        return Ok(calling(Action::Insert, 2, 2, Outcome::NothingAtOnce));
    }
    if same_bytes(name, b"delete") {
        return Ok(calling(Action::Delete, 0, 1, Outcome::NothingAtOnce));
    }
    if same_bytes(name, b"size") {
        return Ok(operating(Action::Size, 0, int_type()));
    }
    Ok(None)
}

/// A method of a dynamic array (7.5).
fn dynamic_method(name: &[u8]) -> Option<Method>
    ensures { result ≡ methods.in_table name.now methods.dynamic_methods }
{
    if same_bytes(name, b"size") {
        return operating(Action::Size, 0, int_type());
    }
    if same_bytes(name, b"delete") {
        return calling(Action::Delete, 0, 0, Outcome::NothingAtOnce);
    }
    None
}

/// A method of an associative array (7.9).
fn assoc_method(name: &[u8]) -> Option<Method>
    ensures { result ≡ methods.in_table name.now methods.assoc_methods }
{
    if same_bytes(name, b"num") {
        return operating(Action::Size, 0, int_type());
    }
    if same_bytes(name, b"exists") {
        return operating(Action::Exists, 1, int_type());
    }
    if same_bytes(name, b"delete") {
        return calling(Action::Delete, 0, 1, Outcome::NothingAtOnce);
    }
    if same_bytes(name, b"first") {
        return answering(Action::Walk(WalkStep::First), 1);
    }
    if same_bytes(name, b"last") {
        return answering(Action::Walk(WalkStep::Last), 1);
    }
    if same_bytes(name, b"next") {
        return answering(Action::Walk(WalkStep::Next), 1);
    }
    if same_bytes(name, b"prev") {
        return answering(Action::Walk(WalkStep::Prev), 1);
    }
    None
}

/// A method of a mailbox (15.4).
fn mailbox_method(name: &[u8]) -> Option<Method>
    ensures { result ≡ methods.in_table name.now methods.mailbox_methods }
{
    if same_bytes(name, b"put") {
        return calling(Action::Put { waits: true }, 1, 1, Outcome::NothingLater);
    }
    if same_bytes(name, b"get") {
        return calling(
            Action::Get {
                peeks: false,
                waits: true,
            },
            1,
            1,
            Outcome::NothingLater,
        );
    }
    if same_bytes(name, b"peek") {
        return calling(
            Action::Get {
                peeks: true,
                waits: true,
            },
            1,
            1,
            Outcome::NothingLater,
        );
    }
    if same_bytes(name, b"try_put") {
        return answering(Action::Put { waits: false }, 1);
    }
    if same_bytes(name, b"try_get") {
        return answering(
            Action::Get {
                peeks: false,
                waits: false,
            },
            1,
        );
    }
    if same_bytes(name, b"try_peek") {
        return answering(
            Action::Get {
                peeks: true,
                waits: false,
            },
            1,
        );
    }
    if same_bytes(name, b"num") {
        return operating(Action::Messages, 0, int_type());
    }
    None
}

/// A method of a semaphore (15.3).
fn semaphore_method(name: &[u8]) -> Option<Method>
    ensures { result ≡ methods.in_table name.now methods.semaphore_methods }
{
    if same_bytes(name, b"get") {
        return calling(Action::GetKeys { waits: true }, 0, 1, Outcome::NothingLater);
    }
    if same_bytes(name, b"put") {
        return calling(Action::PutKeys, 0, 1, Outcome::NothingAtOnce);
    }
    if same_bytes(name, b"try_get") {
        return answering(Action::GetKeys { waits: false }, 0);
    }
    None
}

/// The method of a type by its name; none where the type has no such method.
pub fn method_of(alloc: Global, ty: &Ty, name: &[u8]) -> Result<Option<Method>, Refusal>
    ensures ok { IfOk result (λ m. m ≡ methods.method_of ty.now name.now) }
    ensures err { IfErr result (λ e. e ≡ Memory) }
{
    match ty {
        Ty::Queue(item) => queue_method(alloc, item, name),
        Ty::Dynamic(_) => Ok(dynamic_method(name)),
        Ty::Assoc(_, _) => Ok(assoc_method(name)),
        Ty::Mailbox => Ok(mailbox_method(name)),
        Ty::MailboxOf(_) => Ok(mailbox_method(name)),
        Ty::Semaphore => Ok(semaphore_method(name)),
        Ty::Enum { .. } => Ok(only(name, b"name", Action::Name, Ty::Text)),
        Ty::Text => Ok(only(name, b"len", Action::Length, int_type())),
        Ty::Event => Ok(only(
            name,
            b"triggered",
            Action::Triggered,
            plain_vector(1, false, false),
        )),
        Ty::Vector { .. } => Ok(None),
        Ty::Class(_) => Ok(None),
        Ty::Fixed(_, _) => Ok(None),
        Ty::Null => Ok(None),
        Ty::Nothing => Ok(None),
    }
}

/// The only method of a type, where the name is its name.
fn only(name: &[u8], word: &[u8], action: Action, ty: Ty) -> Option<Method>
    ensures { result
        ≡ methods.in_table name.now ((word.now, methods.operating action 0 ty) ∷ []) }
{
    if same_bytes(name, word) {
        operating(action, 0, ty)
    } else {
        None
    }
}
