// Arguments of subroutines, as they are passed (IEEE 1800-2017, 13.5): E16, E17, E31, E42.
ghost use Rattle.std.specs.Prelude.{◌≡◌, ◌∷◌, List, drop, IfOk, IfErr, option_map};
ghost use Rattle.std.specs.Vec.Iter.{into_iter_items};
ghost use Rattle.sv_names.specs.declared.checked.Checked.{Checked as checked};
ghost use Rattle.sv_names.specs.declared.checked.Checked.TheVariants.{Good};
ghost use Rattle.sv_names.specs.declared.named.Formal.{Formal as formal_of};
ghost use Rattle.sv_names.specs.declared.refusal.Refusal.TheVariants.{Memory};
ghost use Rattle.sv_names.specs.declared.typed.Typed.{Typed as typed};
ghost use Rattle.sv_tree.specs.declared.word.Direction.TheVariants as direction;
ghost use Rattle.sv_names.specs.Calls as calls;
ghost use Rattle.sv_names.specs.Given.{Gives};
ghost use Rattle.sv_names.specs.Joined.{joined};
ghost use Rattle.sv_names.specs.Targets as targets;
ghost use Rattle.sv_names.specs.Views.{around_in};
ghost use Rattle.sv_elab_call.specs.Passing as passing;

use crate::types::type_of;
use std::alloc::Global;
use std::vec;
use sv_elab_copies::copy_typed;
use sv_elab_select::{Spot, lvalues, read_lvalues, read_of, takes};
use sv_elab_value::{assigned, values_stand};
use sv_flat::{Argument, Expr, Lvalue};
use sv_names::{
    Arg, Around, Checked, Formal, Hoisted, Refusal, Ty, Typed, and_next, answer, both, judged,
    where_also,
};
use sv_tree::Direction;
use sv_value::{Place, Seq};

// ---- inputs

/// The value of an input.
fn as_input(code: Hoisted<Expr>) -> Hoisted<Argument>
    ensures { result ≡ calls.as_input code }
{
    Hoisted {
        hidden: code.hidden,
        calls: code.calls,
        value: Argument {
            value: Some(code.value),
            targets: None,
        },
    }
}

/// E16, E17, E42: a value for an input of a type, which may be an event.
fn input_of(
    alloc: Global,
    around: &Around,
    at: Place,
    ty: &Ty,
    value: Typed,
) -> Result<Hoisted<Argument>, Refusal>
    ensures { Gives result (passing.input_of (around_in around.now) at ty.now value) }
{
    let around = Around {
        takes_events: true,
        ..*around
    };
    match assigned(alloc, &around, ty, at, value) {
        Ok(code) => Ok(as_input(code)),
        Err(e) => Err(e),
    }
}

/// E16: an input argument takes a value of its type.
fn input_argument(
    alloc: Global,
    around: &Around,
    at: Place,
    ty: &Checked<Ty>,
    value: Result<Typed, Refusal>,
) -> Result<Hoisted<Argument>, Refusal>
    ensures { (x : checked typed) → Gives value x → Gives result (calls.input_argument (around_in around.now) at ty.now x) }
{
    match both(type_of(alloc, ty), value) {
        Ok((ty, value)) => input_of(alloc, around, at, &ty, value),
        Err(e) => Err(e),
    }
}

// ---- outputs

/// The targets of an output.
fn as_output(alloc: Global, around: &Around, spots: Seq<Spot>) -> Result<Hoisted<Argument>, Refusal>
    ensures { Gives result (Good (calls.as_output (targets.lvalues (around_in around.now) spots))) }
{
    let written = lvalues(alloc, around, spots)?;
    Ok(Hoisted {
        hidden: written.hidden,
        calls: written.calls,
        value: Argument {
            value: None,
            targets: Some(written.value),
        },
    })
}

/// E16, E17, E42: an output argument gives its value to a target.
fn output_of(
    alloc: Global,
    around: &Around,
    at: Place,
    ty: &Ty,
    spots: Seq<Spot>,
) -> Result<Hoisted<Argument>, Refusal>
    ensures { Gives result (passing.output_of (around_in around.now) at ty.now spots) }
{
    match takes(alloc, around, at, ty, spots.as_slice()) {
        Ok(()) => as_output(alloc, around, spots),
        Err(e) => Err(e),
    }
}

/// An output argument, whose type may break a rule.
fn output_argument(
    alloc: Global,
    around: &Around,
    ty: &Checked<Ty>,
    arg: Arg,
) -> Result<Hoisted<Argument>, Refusal>
    ensures { Gives result (calls.argument (around_in around.now) direction.Output ty.now arg) }
{
    let at = arg.at;
    match both(type_of(alloc, ty), arg.into_target()) {
        Ok((ty, spots)) => output_of(alloc, around, at, &ty, spots),
        Err(e) => Err(e),
    }
}

// ---- inouts

/// The targets and the value of an inout, whose calls stand once.
fn as_inout(targets: Seq<Lvalue>, code: Hoisted<Expr>) -> Hoisted<Argument>
    ensures { result ≡ passing.as_inout targets code }
{
    Hoisted {
        hidden: code.hidden,
        calls: code.calls,
        value: Argument {
            value: Some(code.value),
            targets: Some(targets),
        },
    }
}

/// E16, E17, E42: the value of an inout, whose target also gets one.
fn inout_value(
    alloc: Global,
    around: &Around,
    at: Place,
    ty: &Ty,
    spots: Seq<Spot>,
) -> Result<Hoisted<Expr>, Refusal>
    ensures { Gives result (passing.inout_value (around_in around.now) at ty.now spots) }
{
    let taken = takes(alloc, around, at, ty, spots.as_slice());
    let read = read_of(alloc, at, spots)?;
    where_also(assigned(alloc, around, ty, at, read), taken)
}

/// E16, E17, E42: an inout argument gives its value to a target, and takes that of the target.
fn inout_of(
    alloc: Global,
    around: &Around,
    at: Place,
    ty: &Ty,
    spots: Seq<Spot>,
) -> Result<Hoisted<Argument>, Refusal>
    ensures { Gives result (passing.inout_of (around_in around.now) at ty.now spots) }
{
    let targets = read_lvalues(alloc, around, spots.as_slice())?;
    match inout_value(alloc, around, at, ty, spots) {
        Ok(code) => Ok(as_inout(targets, code)),
        Err(e) => Err(e),
    }
}

/// An inout argument, whose type may break a rule.
#[tactic(auto, using(crate::proofs::BesideLaws::inout_is))]
fn inout_argument(
    alloc: Global,
    around: &Around,
    ty: &Checked<Ty>,
    arg: Arg,
) -> Result<Hoisted<Argument>, Refusal>
    ensures { Gives result (calls.argument (around_in around.now) direction.Inout ty.now arg) }
{
    let at = arg.at;
    match both(type_of(alloc, ty), arg.into_target()) {
        Ok((ty, spots)) => inout_of(alloc, around, at, &ty, spots),
        Err(e) => Err(e),
    }
}

// ---- all arguments

/// An argument by its direction.
fn argument(
    alloc: Global,
    around: &Around,
    formal: &Formal,
    arg: Arg,
) -> Result<Hoisted<Argument>, Refusal>
    ensures { Gives result (calls.argument (around_in around.now) formal.now.direction formal.now.ty arg) }
{
    match formal.direction {
        Direction::Input => {
            let at = arg.at;
            input_argument(alloc, around, at, &formal.ty, arg.into_value())
        }
        Direction::Output => output_argument(alloc, around, &formal.ty, arg),
        Direction::Inout => inout_argument(alloc, around, &formal.ty, arg),
    }
}

/// A default (13.5.3), or the rule that it breaks.
fn default_of(alloc: Global, value: &Checked<Typed>) -> Result<Typed, Refusal>
    ensures { Gives result value.now }
{
    match value {
        Checked::Good(t) => {
            let t = copy_typed(alloc, t)?;
            Ok(t)
        }
        Checked::Broken(f) => Err(f.refusal()),
    }
}

/// What an argument is where it is left out; a default is constant, so it is no target of an output.
fn usual_value(formal: &Formal) -> Option<&Checked<Typed>>
    ensures { option_map (λ v. v.now) result ≡ calls.usual_value formal.now }
{
    match formal.direction {
        Direction::Input => formal.default.as_ref(),
        _ => None,
    }
}

/// E31: an argument that is left out.
fn left_out(
    alloc: Global,
    around: &Around,
    at: Place,
    formal: &Formal,
) -> Result<Hoisted<Argument>, Refusal>
    ensures { Gives result (calls.left_out (around_in around.now) at formal.now) }
{
    match usual_value(formal) {
        None => Err(Refusal::Rule { rule: 31, at }),
        Some(value) => input_argument(alloc, around, at, &formal.ty, default_of(alloc, value)),
    }
}

/// The next argument, where one is left.
fn next_argument(
    alloc: Global,
    around: &Around,
    at: Place,
    formal: &Formal,
    args: &mut vec::IntoIter<Arg>,
) -> Result<Hoisted<Argument>, Refusal>
    ensures argument { Gives result (passing.next_argument (around_in around.now) at formal.now (into_iter_items args.old)) }
    ensures rest { into_iter_items args.new ≡ passing.behind_next (into_iter_items args.old) }
{
    match args.next() {
        None => left_out(alloc, around, at, formal),
        Some(arg) => argument(alloc, around, formal, arg),
    }
}

/// Arguments, and the next one behind them.
fn and_argument(
    alloc: Global,
    around: &Around,
    at: Place,
    list: Checked<Seq<Hoisted<Argument>>>,
    formal: &Formal,
    args: &mut vec::IntoIter<Arg>,
) -> Result<Checked<Seq<Hoisted<Argument>>>, Refusal>
    ensures ok { IfOk result (λ c. (fs : List formal_of) → joined c (passing.passed (around_in around.now) at fs (into_iter_items args.new))
        ≡ joined list (passing.passed (around_in around.now) at (formal.now ∷ fs) (into_iter_items args.old))) }
    ensures err { IfErr result (λ e. e ≡ Memory) }
{
    let next = judged(next_argument(alloc, around, at, formal, args))?;
    and_next(list, next)
}

/// An argument for each formal argument, where so many are given.
#[tactic(auto, using(sv_names::proofs::Joined::joined_first, sv_names::proofs::Joined::joined_last))]
fn passed(
    alloc: Global,
    around: &Around,
    at: Place,
    formals: &[Formal],
    args: Seq<Arg>,
) -> Result<Seq<Hoisted<Argument>>, Refusal>
    ensures { Gives result (passing.passed (around_in around.now) at formals.now args) }
{
    let mut args = args.into_vec().into_iter();
    let mut list = Checked::Good(Seq::new(alloc));
    for formal in formals {
        list = and_argument(alloc, around, at, list, formal, &mut args)?;
    }
    answer(list)
}

/// The arguments behind so many.
fn behind(count: usize, args: &[Arg]) -> &[Arg]
    ensures { result.now ≡ drop count args.now }
{
    if count < args.len() {
        &args[count..]
    } else {
        &[]
    }
}

/// E31: too many arguments, and what they break by themselves.
fn none_left(at: Place, args: &[Arg]) -> Result<(), Refusal>
    ensures { Gives result (passing.none_left at args.now) }
{
    match args {
        [] => Ok(()),
        [_, ..] => where_also(Err(Refusal::Rule { rule: 31, at }), values_stand(args)),
    }
}

/// The arguments of a call. E31: too few or too many, or a value for an output; E16, E17 and E42: one of another type.
pub fn arguments(
    alloc: Global,
    around: &Around,
    at: Place,
    formals: &[Formal],
    args: Seq<Arg>,
) -> Result<Seq<Hoisted<Argument>>, Refusal>
    ensures { Gives result (calls.arguments (around_in around.now) at formals.now args) }
{
    let left = none_left(at, behind(formals.len(), args.as_slice()));
    where_also(passed(alloc, around, at, formals, args), left)
}
