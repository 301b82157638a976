// The constructors of bases, and what they take (IEEE 1800-2017, 8.7, 8.15, 8.17 and 13.5): E16, E17, E31, E37, E40, E42.
ghost use Rattle.std.specs.Prelude.{◌≡◌, option_map, Some, IfOk, IfErr};
ghost use Rattle.sv_names.specs.declared.refusal.Refusal.TheVariants.{Memory};
ghost use Rattle.sv_names.specs.Assignments as assignments;
ghost use Rattle.sv_elab_before.specs.Supers as words;
ghost use Rattle.sv_names.specs.Given.{Gives};
ghost use Rattle.sv_names.specs.Named.{value_found};
ghost use Rattle.sv_names.specs.Subroutines as subroutines;
ghost use Rattle.sv_names.specs.Views.{around_in, found_in};

use std::alloc::Global;
use sv_elab_assign::sv_elab_call::arguments;
use sv_elab_write::sv_elab_name::{may_be_named, outputs_of};
use sv_flat::Argument;
use sv_names::{
    Arg, Around, Checked, ClassInfo, Formal, Found, Hoisted, Named, Refusal, declared_in,
    where_also,
};
use sv_tree::Direction;
use sv_value::{Place, Seq, Text};

/// The constructor that a class declares.
#[tactic(auto, using(sv_elab_write::proofs::NewLaws::found_value))]
pub fn constructor_in(class: &ClassInfo) -> Option<Found<'_>>
    ensures { option_map (λ f. value_found (found_in f)) result ≡ assignments.constructor_in class.now }
{
    declared_in(0, b"new", &class.scope.known)
}

/// E16, E17, E31, E37, E42: the arguments of a constructor.
#[tactic(auto, using(sv_elab_write::proofs::NewLaws::no_constructor))]
pub fn with_constructor(
    alloc: Global,
    around: &Around,
    at: Place,
    class: &[Text],
    args: Seq<Arg>,
    found: Option<Found>,
) -> Result<Seq<Hoisted<Argument>>, Refusal>
    ensures { Gives result (assignments.with_constructor (around_in around.now) at class.now args
        (option_map (λ f. value_found (found_in f)) found.entry)) }
{
    match found {
        None => arguments(alloc, around, at, &[], args),
        Some(found) => match &found.known.value {
            Checked::Good(Named::Subroutine(callee)) => {
                let callee = callee.get();
                let passed = arguments(alloc, around, at, callee.formals.as_slice(), args);
                where_also(passed, may_be_named(around, callee.protection, class, at))
            }
            Checked::Broken(f) => Err(f.refusal()),
            _ => arguments(alloc, around, at, &[], args),
        },
    }
}

/// Which arguments of a constructor are taken as targets, from the first on.
#[tactic(auto, using(sv_elab_write::proofs::NewLaws::no_outputs))]
fn outputs_of_constructor(alloc: Global, found: Option<Found>) -> Result<Seq<bool>, Refusal>
    ensures ok { IfOk result (λ os. os
        ≡ assignments.outputs_of_constructor (option_map (λ f. value_found (found_in f)) found.entry)) }
    ensures err { IfErr result (λ e. e ≡ Memory) }
{
    match found {
        None => Ok(Seq::new(alloc)),
        Some(found) => match &found.known.value {
            Checked::Good(Named::Subroutine(callee)) => {
                outputs_of(alloc, callee.get().formals.as_slice())
            }
            _ => Ok(Seq::new(alloc)),
        },
    }
}

/// The same of the constructor of a class.
pub fn outputs_of_class(alloc: Global, class: &ClassInfo) -> Result<Seq<bool>, Refusal>
    ensures ok { IfOk result (λ os. os ≡ assignments.outputs_of_class (Some class.now)) }
    ensures err { IfErr result (λ e. e ≡ Memory) }
{
    outputs_of_constructor(alloc, constructor_in(class))
}

// ---- what it needs

/// Whether an argument may not be left out: only an input may that has a default (13.5.3).
fn is_needed(formal: &Formal) -> bool
    ensures { result ≡ words.is_needed formal.now }
{
    match formal.direction {
        Direction::Input => formal.default.is_none(),
        _ => true,
    }
}

/// E40: whether one of these arguments may not be left out.
#[tactic(auto, using(crate::proofs::SuperLaws::needs_more))]
fn needs_arguments(formals: &[Formal]) -> bool
    ensures { result ≡ subroutines.needs_arguments formals.now }
{
    match formals {
        [] => false,
        [first, rest @ ..] => is_needed(first) || needs_arguments(rest),
    }
}

/// E40: whether the constructor of a base needs arguments.
#[tactic(auto, using(crate::proofs::SuperLaws::needs_by))]
pub fn constructor_needs(class: &ClassInfo) -> bool
    ensures { result ≡ subroutines.constructor_needs (Some class.now) }
{
    needs(constructor_in(class))
}

/// The same, by what the class declares as its constructor.
#[tactic(auto, using(crate::proofs::SuperLaws::needs_nothing))]
fn needs(found: Option<Found>) -> bool
    ensures { result ≡ words.needs (option_map (λ f. value_found (found_in f)) found.entry) }
{
    match found {
        None => false,
        Some(found) => match &found.known.value {
            Checked::Good(Named::Subroutine(callee)) => {
                needs_arguments(callee.get().formals.as_slice())
            }
            _ => false,
        },
    }
}
