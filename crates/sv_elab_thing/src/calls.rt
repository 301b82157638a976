// The calls of the language, as names take them.
use std::alloc::Global;
use sv_elab_call::{as_value, subroutine_called};
use sv_elab_method::method_called;
use sv_elab_name::Calls;
use sv_names::{Arg, Around, Called, Callee, Method, Refusal, Typed};
use sv_value::{Place, Seq};

/// The calls of the language.
pub struct AllCalls;

impl Calls for AllCalls {
    fn subroutine_called(
        alloc: Global,
        around: &Around,
        at: Place,
        is_value: bool,
        callee: &Callee,
        object: Option<Typed>,
        is_direct: bool,
        args: Seq<Arg>,
    ) -> Result<Called, Refusal> {
        subroutine_called(alloc, around, at, is_value, callee, object, is_direct, args)
    }

    fn method_called(
        alloc: Global,
        around: &Around,
        at: Place,
        is_value: bool,
        method: Method,
        object: Typed,
        args: Seq<Arg>,
    ) -> Result<Called, Refusal> {
        method_called(alloc, around, at, is_value, method, object, args)
    }

    fn as_value(
        alloc: Global,
        around: &Around,
        at: Place,
        called: Called,
    ) -> Result<Typed, Refusal> {
        as_value(alloc, around, at, called)
    }
}
