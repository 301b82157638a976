// All activations of a run (IEEE 1800-2017, 6.21).
ghost use Rattle.std.specs.Prelude.{◌≡◌, ◌<◌, ◌^◌, ◌∷◌, ◌++◌, [], not, nat_lt, length, replicate, IfOk, OnOk, OnErr};
ghost use Rattle.std.specs.Option.{option_copied};
ghost use Rattle.sv_flat.specs.State.{activation, activation_out, name_in, variable_of};
ghost use Rattle.sv_flat.specs.Effects.Writes.{variable_over};
ghost use Rattle.sv_arena.specs.Made.{entered, next_name, with_process};
ghost use Rattle.sv_arena.specs.Table.{place_of};

use crate::Name;
use crate::activation::{Activation, Variables};
use crate::arena::Arena;
use crate::row::Row;
use std::alloc::Global;
use std::marker::Model;
use sv_value::{NoMemory, ProcessId, Range, Val};

/// How many activations may be made.
const MOST: usize = 1 << 24;

/// The activations that were made, each with its variables. It is seen as their list, with the number that each process made.
#[derive(Drop)]
pub struct Activations {
    activations: Arena<Activation>,
    /// For each process the places of those that it made.
    by_process: Vec<Row>,
}

impl Model for Activations {
    ghost use Rattle.std.specs.Prelude.{map};
    ghost use Rattle.sv_arena.specs.Made.{Made};
    ghost use Rattle.sv_arena.specs.Table.{IsFound, names_of, lengths_of};

    ghost Value = { Made };

    ghost view = { λ a. record { activations = a.activations; made = lengths_of a.by_process.items } };

    ghost invariant = { λ a. IsFound (names_of a.activations) a.by_process.items };
}

impl Activations {
    /// None yet, of so many processes.
    pub fn new(alloc: Global, processes: usize) -> Result<Self, NoMemory>
        ensures { IfOk result (λ a. a ≡ record { activations = []; made = replicate processes 0 }) }
    {
        let mut by_process = Vec::new(alloc);
        for _ in 0..processes {
            by_process.push(Row::new(alloc))?;
        }
        Ok(Activations {
            activations: Arena::new(alloc),
            by_process,
        })
    }

    /// A process more, behind the others, which made none yet.
    pub fn add_process(&mut self, alloc: Global) -> Result<(), NoMemory>
        ensures ok { OnOk result (self.new ≡ with_process self.old) }
        ensures err { OnErr result (self.new ≡ self.old) }
    {
        self.by_process.push(Row::new(alloc))?;
        Ok(())
    }

    /// The name that the next activation of a process gets.
    pub fn next(&self, process: ProcessId) -> Name
        requires { process.0 < length self.now.made }
        ensures { result ≡ next_name self.now process }
    {
        let row = &self.by_process[process.0 as usize];
        Name {
            process,
            place: row.len(),
        }
    }

    /// Whether no more may be made.
    pub fn is_full(&self) -> bool
        ensures { result ≡ not (nat_lt (length self.now.activations) (2 ^ 24)) }
    {
        self.activations.len() >= MOST
    }

    /// An activation more, inside another one, with these variables.
    pub fn enter(
        &mut self,
        process: ProcessId,
        around: Option<Name>,
        values: Variables,
    ) -> Result<(), NoMemory>
        requires known { process.0 < length self.old.made }
        requires room { length self.old.activations < 2 ^ 24 }
        ensures ok { OnOk result (self.new ≡ entered self.old process around values.items) }
        ensures err { OnErr result (self.new ≡ self.old) }
    {
        let name = self.next(process);
        let activation = Activation::new(name, around, values);
        let row = &mut self.by_process[process.0 as usize];
        push_both(&mut self.activations, row, activation)?;
        Ok(())
    }

    /// The activation with a name.
    fn activation(&self, name: Name) -> Option<&Activation>
        ensures { option_copied result ≡ activation self.now.activations name }
    {
        match place_of(&self.by_process, name) {
            Some(place) => self.activations.get(place as usize),
            None => None,
        }
    }

    /// The activation that is so many levels further out.
    fn out(&self, scope: Option<Name>, up: u32) -> Option<&Activation>
        ensures { option_copied result ≡ activation_out self.now.activations up scope }
    {
        let mut name = scope?;
        for _ in 0..up {
            name = self.activation(name)?.around()?;
        }
        self.activation(name)
    }

    /// The value of a variable of the activation that is so many levels further out; a null reference where there is none.
    pub fn value(
        &self,
        alloc: Global,
        scope: Option<Name>,
        up: u32,
        variable: u64,
    ) -> Result<Val, NoMemory>
        ensures { IfOk result (λ v. v ≡ variable_of (activation_out self.now.activations up scope) variable) }
    {
        match self.out(scope, up) {
            Some(activation) => activation.value(alloc, variable),
            None => Ok(Val::Object(None)),
        }
    }

    /// The name of the activation that is so many levels further out.
    pub fn name(&self, scope: Option<Name>, up: u32) -> Option<Name>
        ensures { result ≡ name_in (activation_out self.now.activations up scope) }
    {
        match self.out(scope, up) {
            Some(activation) => Some(activation.name()),
            None => None,
        }
    }

    /// Writes a variable of the activation with a name, or a part of it. Nothing changes where there is no such variable.
    pub fn write(&mut self, name: Name, variable: u32, part: Option<Range>, value: Val)
        ensures { self.new ≡ record self.old { activations = variable_over name variable part value self.old.activations } }
    {
        match place_of(&self.by_process, name) {
            Some(place) => {
                let activation = self.activations.get_mut(place as usize);
                activation.write(variable, part, value);
            }
            None => {}
        }
    }
}

/// The place of the activation with a name.
fn place_of(by_process: &Vec<Row>, name: Name) -> Option<u32>
    ensures { result ≡ place_of by_process.now.items name }
{
    match by_process.get(name.process.0 as usize) {
        Some(row) => row.get(name.place),
        None => None,
    }
}

/// An activation behind the others, with its place behind those of its process.
fn push_both(
    activations: &mut Arena<Activation>,
    row: &mut Row,
    activation: Activation,
) -> Result<(), NoMemory>
    requires { length activations.old < 2 ^ 24 }
    ensures activation { OnOk result (activations.new ≡ activations.old ++ activation ∷ []) }
    ensures place { OnOk result (row.new ≡ row.old ++ length activations.old ∷ []) }
    ensures no_activation { OnErr result (activations.new ≡ activations.old) }
    ensures no_place { OnErr result (row.new ≡ row.old) }
{
    row.push(activations.len() as u32)?;
    match activations.push(activation) {
        Ok(()) => Ok(()),
        Err(e) => {
            row.pop();
            Err(e)
        }
    }
}
