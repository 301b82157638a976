// The calls of subroutines and of methods, whose proofs do without names.
ghost use Rattle.std.specs.Prelude.{◌≡◌, IfOk, IfErr};
ghost use Rattle.sv_names.specs.declared.refusal.Refusal.TheVariants.{Memory};
ghost use Rattle.sv_names.specs.Calls as calls;
ghost use Rattle.sv_names.specs.Given.{Gives};
ghost use Rattle.sv_names.specs.Views.{around_in};

use std::alloc::Global;
use sv_names::{Arg, Around, Called, Callee, Method, Refusal, Typed};
use sv_value::{Place, Seq};

/// Calls of subroutines and of methods of the language, over their arguments, and what they give.
pub trait Calls {
    /// A call of a subroutine (13).
    fn subroutine_called(
        alloc: Global,
        around: &Around,
        at: Place,
        is_value: bool,
        callee: &Callee,
        object: Option<Typed>,
        is_direct: bool,
        args: Seq<Arg>,
    ) -> Result<Called, Refusal>
        ensures { Gives result
            (calls.subroutine_called (around_in around.now) at is_value callee.now object is_direct args) };

    /// A call of a method of the language (6.16, 6.19, 7.5 to 7.10 and 15).
    fn method_called(
        alloc: Global,
        around: &Around,
        at: Place,
        is_value: bool,
        method: Method,
        object: Typed,
        args: Seq<Arg>,
    ) -> Result<Called, Refusal>
        ensures { Gives result (calls.method_called (around_in around.now) at is_value method object args) };

    /// What a call gives as a value.
    fn as_value(alloc: Global, around: &Around, at: Place, called: Called) -> Result<Typed, Refusal>
        ensures ok { IfOk result (λ t. t ≡ calls.as_value (around_in around.now) at called) }
        ensures err { IfErr result (λ e. e ≡ Memory) };
}
