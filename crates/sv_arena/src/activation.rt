// The variables of one block, loop or call (IEEE 1800-2017, 6.21).
ghost use Rattle.std.specs.Prelude.{◌≡◌, slice_index_or, IfOk};
ghost use Rattle.sv_flat.specs.State.{no_value};
ghost use Rattle.sv_flat.specs.Effects.Writes.{changed_at, value_over};

use crate::Name;
use crate::part::value_over;
use crate::variable::Variable;
use smallvec::SmallVec;
use std::alloc::Global;
use std::marker::Model;
use sv_value::{NoMemory, Range, Val};

/// Variables, of which the first two need no memory of their own: most activations have no more.
pub type Variables = SmallVec<Variable, 2>;

/// The variables of an activation, and the one around it.
#[derive(Drop)]
pub struct Activation {
    name: Name,
    around: Option<Name>,
    values: Variables,
}

impl Model for Activation {
    ghost use Rattle.sv_flat.specs.State.{Activation as Defined};

    ghost Value = { Defined };

    ghost view = { λ a. record { name = a.name; around = a.around; values = a.values.items } };
}

impl Activation {
    /// An activation with these variables.
    pub fn new(name: Name, around: Option<Name>, values: Variables) -> Self
        ensures { result ≡ record { name = name; around = around; values = values.items } }
    {
        Activation {
            name,
            around,
            values,
        }
    }

    /// Its name.
    pub fn name(&self) -> Name
        ensures { result ≡ self.now.name }
    {
        self.name
    }

    /// The activation around it.
    pub fn around(&self) -> Option<Name>
        ensures { result ≡ self.now.around }
    {
        self.around
    }

    /// The value of a variable; a null reference where there is none.
    pub fn value(&self, alloc: Global, variable: u64) -> Result<Val, NoMemory>
        ensures { IfOk result (λ v. v ≡ slice_index_or self.now.values variable no_value) }
    {
        match self.values.as_slice().get(variable as usize) {
            Some(variable) => variable.value.copy(alloc),
            None => Ok(Val::Object(None)),
        }
    }

    /// Writes a variable, or a part of it.
    pub fn write(&mut self, variable: u32, part: Option<Range>, value: Val)
        ensures { self.new ≡ record self.old { values = changed_at self.old.values variable (λ v. value_over v part value) } }
    {
        write_at(&mut self.values, variable, part, value);
    }
}

/// Writes a value, or its part, where there is a variable.
fn write_at(values: &mut Variables, place: u32, part: Option<Range>, value: Val)
    ensures { values.new.items ≡ changed_at values.old.items place (λ v. value_over v part value) }
{
    match values.get_mut(place as usize) {
        Some(variable) => write_over(variable, part, value),
        None => {}
    }
}

/// Writes a value, or its part, over that of a variable.
fn write_over(variable: &mut Variable, part: Option<Range>, value: Val)
    ensures { variable.new ≡ value_over variable.old part value }
{
    match value_over(&variable.value, part, value) {
        Some(value) => variable.value = value,
        None => {}
    }
}
