// Arguments of calls, as they are taken.
ghost use Rattle.std.specs.Prelude.{◌≡◌};
ghost use Rattle.sv_names.specs.Arguments as arguments;
ghost use Rattle.sv_names.specs.Calls as calls;
ghost use Rattle.sv_names.specs.Given.{Gives};

use crate::{Checked, Fault, Refusal, Typed, answer};
use sv_value::{Place, Seq, Text};

/// What an argument is, once it is elaborated behind those before it.
pub enum Taken {
    /// A value, or the rule that it breaks.
    Value(Checked<Typed>),
    /// The parts of a target, or the rule that it breaks.
    Target(Checked<Seq<(Place, Typed)>>),
}

impl Drop for Taken {
    fn drop(self) {
        match self {
            Taken::Value(_) => {}
            Taken::Target(_) => {}
        }
    }
}

/// An argument of a call (IEEE 1800-2017, 13.5).
#[derive(Drop)]
pub struct Arg {
    /// Its first token.
    pub at: Place,
    /// Its bytes, where it is a string literal.
    pub text: Option<Text>,
    /// What it is.
    pub taken: Taken,
}

impl Taken {
    /// It as a value; what is taken as a target is none.
    fn into_value(self, at: Place) -> Result<Typed, Refusal>
        ensures { Gives result (arguments.value_of_taken at self) }
    {
        match self {
            Taken::Value(value) => answer(value),
            Taken::Target(_) => Err(Refusal::Rule { rule: 31, at }),
        }
    }

    /// E31: it as a target.
    fn into_target(self, at: Place) -> Result<Seq<(Place, Typed)>, Refusal>
        ensures { Gives result (calls.target_of_taken at self) }
    {
        match self {
            Taken::Target(spots) => answer(spots),
            Taken::Value(value) => no_target(at, &value),
        }
    }
}

/// E31: a value that is to be a target; what it breaks by itself may stand before.
fn no_target(at: Place, value: &Checked<Typed>) -> Result<Seq<(Place, Typed)>, Refusal>
    ensures { Gives result (calls.no_target_of at value.now) }
{
    match value {
        Checked::Good(_) => Err(Refusal::Rule { rule: 31, at }),
        Checked::Broken(f) => Err(Fault { at, rule: 31 }.earlier(*f).refusal()),
    }
}

impl Arg {
    /// The argument as a value; one that is taken as a target is none.
    pub fn into_value(self) -> Result<Typed, Refusal>
        ensures { Gives result (arguments.value_of_arg self) }
    {
        self.taken.into_value(self.at)
    }

    /// E31: the parts of an argument that is to be a target.
    pub fn into_target(self) -> Result<Seq<(Place, Typed)>, Refusal>
        ensures { Gives result (calls.target_argument self) }
    {
        self.taken.into_target(self.at)
    }
}
