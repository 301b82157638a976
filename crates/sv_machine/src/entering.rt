// Activations that are made (IEEE 1800-2017, 6.21).
ghost use Rattle.std.specs.Prelude.{◌≡◌, ◌<◌, ◌++◌, ◌∷◌, [], IfOk, OnOk, length, map};
ghost use Rattle.std.specs.List.{AllByRecursion};
ghost use Rattle.sv_flat.specs.Process.{types_of};
ghost use Rattle.sv_flat.specs.State.{first_value};
ghost use Rattle.sv_built.specs.Built.{IsBuiltType};
ghost use Rattle.sv_built.specs.Entered.{types_at, types_of_block, types_of_call, types_hidden};
ghost use Rattle.sv_built.specs.Positions.{stmt_at};
ghost use Rattle.sv_machine.specs.Machine.{SameMoment};
ghost use Rattle.sv_machine.specs.Steps.{entering_in};

use crate::machine::Machine;
use std::alloc::Global;
use sv_arena::{Name, Variable, Variables};
use sv_built::{Design, Entered, Position};
use sv_flat::{DataType, Declared, Form, first_bits};
use sv_value::{FaultKind, Integral, NoMemory, Place, Plain, ProcessId, RunFault, Text, Val};

/// The type of the index of a `foreach` of a fixed array.
const INDEX: DataType = DataType::Plain(Plain::Integral(Integral {
    width: 32,
    signed: true,
    four_state: false,
}));

/// The process makes an activation inside another one, with the first values of its variables. Where there are 2^24 of them, a fault is met.
pub fn enter(
    machine: &mut Machine,
    design: &Design,
    process: ProcessId,
    at: Place,
    entered: Entered,
    around: Option<Name>,
) -> Result<(), NoMemory>
    requires known { process.0 < length machine.old.activations.made }
    requires built { AllByRecursion IsBuiltType (types_at design.now entered) }
    ensures ok { OnOk result (machine.new ≡ entering_in at process (types_at design.now entered) around machine.old) }
    ensures moment { SameMoment machine.old machine.new }
{
    if machine.activations.is_full() {
        machine.fault = Some(RunFault {
            kind: FaultKind::Activations,
            at,
            time: machine.time,
        });
        return Ok(());
    }
    let values = first_values(machine.alloc, design, entered)?;
    machine.activations.enter(process, around, values)
}

/// The first values of the variables of an activation.
fn first_values(alloc: Global, design: &Design, entered: Entered) -> Result<Variables, NoMemory>
    requires { AllByRecursion IsBuiltType (types_at design.now entered) }
    ensures { IfOk result (λ vs. vs.items ≡ map first_value (types_at design.now entered)) }
{
    match entered {
        Entered::Block(at) => of_block(alloc, design, at),
        Entered::Index => {
            let mut values = Variables::with_capacity(alloc, 1)?;
            values.push(Variable {
                value: first_of(alloc, INDEX),
            })?;
            Ok(values)
        }
        Entered::Hidden(at) => of_hidden(alloc, design, at),
        Entered::Call(routine) => match design.routines().get(routine.0 as usize) {
            Some(routine) => match &routine.subroutine {
                Some(subroutine) => of_variables(alloc, subroutine.locals.as_slice()),
                None => Ok(Variables::new(alloc)),
            },
            None => Ok(Variables::new(alloc)),
        },
    }
}

/// Those of the variables that the block or the fork at a position declares.
fn of_block(alloc: Global, design: &Design, at: Position) -> Result<Variables, NoMemory>
    requires { AllByRecursion IsBuiltType (types_of_block (stmt_at design.now at)) }
    ensures { IfOk result (λ vs. vs.items ≡ map first_value (types_of_block (stmt_at design.now at))) }
{
    match design.body(at.routine).get(at.place) {
        Some(stmt) => match &stmt.form {
            Form::Block { locals, .. } => of_variables(alloc, locals.as_slice()),
            Form::Fork { locals, .. } => of_variables(alloc, locals.as_slice()),
            _ => Ok(Variables::new(alloc)),
        },
        None => Ok(Variables::new(alloc)),
    }
}

/// Those of the hidden variables of the statement at a position.
fn of_hidden(alloc: Global, design: &Design, at: Position) -> Result<Variables, NoMemory>
    requires { AllByRecursion IsBuiltType (types_hidden (stmt_at design.now at)) }
    ensures { IfOk result (λ vs. vs.items ≡ map first_value (types_hidden (stmt_at design.now at))) }
{
    match design.body(at.routine).get(at.place) {
        Some(stmt) => of_types(alloc, stmt.hidden.as_slice()),
        None => Ok(Variables::new(alloc)),
    }
}

/// The first values of variables.
fn of_variables(alloc: Global, variables: &[Declared]) -> Result<Variables, NoMemory>
    requires { AllByRecursion IsBuiltType (types_of variables.now) }
    ensures { IfOk result (λ vs. vs.items ≡ map first_value (types_of variables.now)) }
{
    let mut values = Variables::with_capacity(alloc, variables.len())?;
    add_variables(alloc, variables, &mut values)?;
    Ok(values)
}

/// Appends the first values of variables.
fn add_variables(
    alloc: Global,
    variables: &[Declared],
    values: &mut Variables,
) -> Result<(), NoMemory>
    requires { AllByRecursion IsBuiltType (types_of variables.now) }
    ensures { OnOk result (values.new.items ≡ values.old.items ++ map first_value (types_of variables.now)) }
{
    match variables {
        [] => Ok(()),
        [one, rest @ ..] => {
            values.push(Variable {
                value: first_of(alloc, one.ty),
            })?;
            add_variables(alloc, rest, values)
        }
    }
}

/// The first values of variables of these types.
fn of_types(alloc: Global, types: &[DataType]) -> Result<Variables, NoMemory>
    requires { AllByRecursion IsBuiltType types.now }
    ensures { IfOk result (λ vs. vs.items ≡ map first_value types.now) }
{
    let mut values = Variables::with_capacity(alloc, types.len())?;
    add_types(alloc, types, &mut values)?;
    Ok(values)
}

/// Appends the first values of variables of these types.
fn add_types(alloc: Global, types: &[DataType], values: &mut Variables) -> Result<(), NoMemory>
    requires { AllByRecursion IsBuiltType types.now }
    ensures { OnOk result (values.new.items ≡ values.old.items ++ map first_value types.now) }
{
    match types {
        [] => Ok(()),
        [one, rest @ ..] => {
            values.push(Variable {
                value: first_of(alloc, *one),
            })?;
            add_types(alloc, rest, values)
        }
    }
}

/// The first value of a variable (IEEE 1800-2017, 6.8).
fn first_of(alloc: Global, ty: DataType) -> Val
    requires { IsBuiltType ty }
    ensures { result ≡ first_value ty }
{
    match ty {
        DataType::Plain(Plain::Integral(integral)) => Val::Bits(first_bits(integral)),
        DataType::Plain(Plain::Text) => Val::Text(Text::new(alloc)),
        _ => unreachable!(),
    }
}
