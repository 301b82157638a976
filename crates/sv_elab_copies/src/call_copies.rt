// Calls with what they take, in memory of their own. The time is linear in their size.
ghost use Rattle.std.specs.Prelude.{◌≡◌, IfOk};

use crate::target_copies::copy_container;
use crate::{copy_base, copy_expr, copy_optional, copy_part};
use std::alloc::Global;
use sv_flat::{Argument, Call, CallForm, DataType, Expr, Lvalue};
use sv_names::Hoisted;
use sv_value::{ClassId, NoMemory, Seq, Wanted};

// ---- what a call takes

/// The same part of a target.
fn copy_lvalue(alloc: Global, target: &Lvalue) -> Result<Lvalue, NoMemory>
    ensures { IfOk result (λ l. l ≡ target.now) }
{
    let through = copy_optional(alloc, &target.through)?;
    let base = copy_base(alloc, &target.base)?;
    let part = copy_part(alloc, &target.part)?;
    Ok(Lvalue {
        at: target.at,
        through,
        base,
        part,
        ty: target.ty,
    })
}

/// The same parts of a target.
fn copy_lvalues(alloc: Global, targets: &[Lvalue]) -> Result<Seq<Lvalue>, NoMemory>
    ensures { IfOk result (λ ls. ls ≡ targets.now) }
{
    let mut copy = Seq::new(alloc);
    for target in targets {
        let target = copy_lvalue(alloc, target)?;
        copy.push(target)?;
    }
    Ok(copy)
}

/// The same targets, where there are some.
fn copy_targets(
    alloc: Global,
    targets: &Option<Seq<Lvalue>>,
) -> Result<Option<Seq<Lvalue>>, NoMemory>
    ensures { IfOk result (λ ls. ls ≡ targets.now) }
{
    match targets {
        None => Ok(None),
        Some(targets) => {
            let targets = copy_lvalues(alloc, targets.as_slice())?;
            Ok(Some(targets))
        }
    }
}

/// The same argument.
fn copy_argument(alloc: Global, argument: &Argument) -> Result<Argument, NoMemory>
    ensures { IfOk result (λ a. a ≡ argument.now) }
{
    let value = copy_optional(alloc, &argument.value)?;
    let targets = copy_targets(alloc, &argument.targets)?;
    Ok(Argument { value, targets })
}

/// The same arguments.
fn copy_arguments(alloc: Global, arguments: &[Argument]) -> Result<Seq<Argument>, NoMemory>
    ensures { IfOk result (λ xs. xs ≡ arguments.now) }
{
    let mut copy = Seq::new(alloc);
    for argument in arguments {
        let argument = copy_argument(alloc, argument)?;
        copy.push(argument)?;
    }
    Ok(copy)
}

/// The same classes.
fn copy_classes(alloc: Global, classes: &[ClassId]) -> Result<Seq<ClassId>, NoMemory>
    ensures { IfOk result (λ ks. ks ≡ classes.now) }
{
    let mut copy = Seq::new(alloc);
    for class in classes {
        copy.push(*class)?;
    }
    Ok(copy)
}

/// The same messages that are wanted.
fn copy_wanted(alloc: Global, wanted: &Wanted) -> Result<Wanted, NoMemory>
    ensures { IfOk result (λ w. w ≡ wanted.now) }
{
    match wanted {
        Wanted::Integral(integral) => Ok(Wanted::Integral(*integral)),
        Wanted::Text => Ok(Wanted::Text),
        Wanted::Classes(classes) => {
            let classes = copy_classes(alloc, classes.as_slice())?;
            Ok(Wanted::Classes(classes))
        }
    }
}

// ---- calls

/// The same call, by its form.
fn copy_form(alloc: Global, form: &CallForm) -> Result<CallForm, NoMemory>
    ensures { IfOk result (λ f. f ≡ form.now) }
{
    match form {
        CallForm::Routine {
            routine,
            through,
            arguments,
        } => {
            let through = copy_optional(alloc, through)?;
            let arguments = copy_arguments(alloc, arguments.as_slice())?;
            Ok(CallForm::Routine {
                routine: *routine,
                through,
                arguments,
            })
        }
        CallForm::Method {
            class,
            slot,
            arguments,
        } => {
            let arguments = copy_arguments(alloc, arguments.as_slice())?;
            Ok(CallForm::Method {
                class: *class,
                slot: *slot,
                arguments,
            })
        }
        CallForm::New { class, arguments } => {
            let arguments = copy_arguments(alloc, arguments.as_slice())?;
            Ok(CallForm::New {
                class: *class,
                arguments,
            })
        }
        CallForm::Copy { object } => {
            let object = copy_expr(alloc, object)?;
            Ok(CallForm::Copy { object })
        }
        CallForm::Cast {
            targets,
            value,
            class,
            answers,
        } => {
            let targets = copy_lvalues(alloc, targets.as_slice())?;
            let value = copy_expr(alloc, value)?;
            Ok(CallForm::Cast {
                targets,
                value,
                class: *class,
                answers: *answers,
            })
        }
        CallForm::Push {
            end,
            container,
            value,
        } => {
            let container = copy_container(alloc, container)?;
            let value = copy_expr(alloc, value)?;
            Ok(CallForm::Push {
                end: *end,
                container,
                value,
            })
        }
        CallForm::Pop {
            end,
            container,
            item,
        } => {
            let container = copy_container(alloc, container)?;
            Ok(CallForm::Pop {
                end: *end,
                container,
                item: *item,
            })
        }
        CallForm::Insert {
            container,
            index,
            value,
        } => {
            let container = copy_container(alloc, container)?;
            let index = copy_expr(alloc, index)?;
            let value = copy_expr(alloc, value)?;
            Ok(CallForm::Insert {
                container,
                index,
                value,
            })
        }
        CallForm::Delete { container, index } => {
            let container = copy_container(alloc, container)?;
            let index = copy_optional(alloc, index)?;
            Ok(CallForm::Delete { container, index })
        }
        CallForm::Walk {
            step,
            container,
            from,
            targets,
        } => {
            let container = copy_container(alloc, container)?;
            let from = copy_expr(alloc, from)?;
            let targets = copy_lvalues(alloc, targets.as_slice())?;
            Ok(CallForm::Walk {
                step: *step,
                container,
                from,
                targets,
            })
        }
        CallForm::NewMailbox { bound } => {
            let bound = copy_expr(alloc, bound)?;
            Ok(CallForm::NewMailbox { bound })
        }
        CallForm::NewSemaphore { keys } => {
            let keys = copy_expr(alloc, keys)?;
            Ok(CallForm::NewSemaphore { keys })
        }
        CallForm::Put {
            mailbox,
            value,
            written,
            waits,
        } => {
            let mailbox = copy_expr(alloc, mailbox)?;
            let value = copy_expr(alloc, value)?;
            Ok(CallForm::Put {
                mailbox,
                value,
                written: *written,
                waits: *waits,
            })
        }
        CallForm::Get {
            mailbox,
            targets,
            wanted,
            peeks,
            waits,
        } => {
            let mailbox = copy_expr(alloc, mailbox)?;
            let targets = copy_lvalues(alloc, targets.as_slice())?;
            let wanted = copy_wanted(alloc, wanted)?;
            Ok(CallForm::Get {
                mailbox,
                targets,
                wanted,
                peeks: *peeks,
                waits: *waits,
            })
        }
        CallForm::GetKeys {
            semaphore,
            keys,
            waits,
        } => {
            let semaphore = copy_expr(alloc, semaphore)?;
            let keys = copy_expr(alloc, keys)?;
            Ok(CallForm::GetKeys {
                semaphore,
                keys,
                waits: *waits,
            })
        }
        CallForm::PutKeys { semaphore, keys } => {
            let semaphore = copy_expr(alloc, semaphore)?;
            let keys = copy_expr(alloc, keys)?;
            Ok(CallForm::PutKeys { semaphore, keys })
        }
    }
}

/// The same calls, in memory of their own.
fn copy_calls(alloc: Global, calls: &[Call]) -> Result<Seq<Call>, NoMemory>
    ensures { IfOk result (λ cs. cs ≡ calls.now) }
{
    let mut copy = Seq::new(alloc);
    for call in calls {
        let form = copy_form(alloc, &call.form)?;
        copy.push(Call {
            form,
            result: call.result,
        })?;
    }
    Ok(copy)
}

// ---- parts of statements

/// The same types of hidden variables, in memory of their own.
fn copy_hidden(alloc: Global, hidden: &[DataType]) -> Result<Seq<DataType>, NoMemory>
    ensures { IfOk result (λ ts. ts ≡ hidden.now) }
{
    let mut copy = Seq::new(alloc);
    for ty in hidden {
        copy.push(*ty)?;
    }
    Ok(copy)
}

/// The same part of a statement with its calls, in memory of its own.
pub fn copy_code(alloc: Global, code: &Hoisted<Expr>) -> Result<Hoisted<Expr>, NoMemory>
    ensures { IfOk result (λ c. c ≡ code.now) }
{
    let hidden = copy_hidden(alloc, code.hidden.as_slice())?;
    let calls = copy_calls(alloc, code.calls.as_slice())?;
    let value = copy_expr(alloc, &code.value)?;
    Ok(Hoisted {
        hidden,
        calls,
        value,
    })
}
