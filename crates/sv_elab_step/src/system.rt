// System functions (IEEE 1800-2017, 8.16, 11.7, 20.3.1, 20.6.2, 20.8.1 and 21.3.3): E15, E31, E32, E42, E55.
ghost use Rattle.std.specs.Prelude.{◌≡◌, Some, IfOk, IfErr};
ghost use Rattle.sv_flat.specs.Expr as flat;
ghost use Rattle.sv_names.specs.declared.checked.Checked.{Checked as checked};
ghost use Rattle.sv_names.specs.declared.checked.Checked.TheVariants.{Good};
ghost use Rattle.sv_names.specs.declared.refusal.Refusal.TheVariants.{Memory};
ghost use Rattle.sv_names.specs.declared.typed.Typed.{Typed as typed};
ghost use Rattle.sv_names.specs.declared.method.Called.{Called as called};
ghost use Rattle.sv_names.specs.Calls as calls;
ghost use Rattle.sv_names.specs.Checked.{◌▷◌, given};
ghost use Rattle.sv_names.specs.Expressions as expressions;
ghost use Rattle.sv_names.specs.Hoisted as hoisted;
ghost use Rattle.sv_names.specs.Views.{around_in};
ghost use Rattle.sv_names.specs.Given.{Gives};

use std::alloc::Global;
use sv_elab_call::{as_value, cast_called};
use sv_elab_operator::sv_elab_value::{
    code_of, converted, expr_of, number_operand, pure, value_typed, values_stand,
};
use sv_elab_print::sformatf;
use sv_flat::{Expr, ExprForm};
use sv_names::{
    Arg, Around, Called, Checked, Hoisted, Refusal, System, Ty, Typed, answer, int_type,
    plain_vector, same_bytes, selectable, where_also,
};
use sv_value::{Bits, Integral, Place, Seq};

// ---- by its name

/// What a system function is.
fn function_of(name: &[u8]) -> System
    ensures { result ≡ expressions.system_in name.now expressions.system_functions }
{
    if same_bytes(name, b"$time") {
        return System::Time;
    }
    if same_bytes(name, b"$cast") {
        return System::Cast;
    }
    if same_bytes(name, b"$bits") {
        return System::Bits;
    }
    if same_bytes(name, b"$clog2") {
        return System::Clog2;
    }
    if same_bytes(name, b"$signed") {
        return System::Signed;
    }
    if same_bytes(name, b"$unsigned") {
        return System::Unsigned;
    }
    if same_bytes(name, b"$sformatf") {
        return System::Sformatf;
    }
    System::Unknown
}

/// What a system name is.
pub fn system_of(name: &[u8]) -> System
    ensures { result ≡ expressions.system_in name.now expressions.system_names }
{
    if same_bytes(name, b"$display") {
        return System::Display;
    }
    if same_bytes(name, b"$write") {
        return System::Write;
    }
    if same_bytes(name, b"$strobe") {
        return System::Strobe;
    }
    if same_bytes(name, b"$monitor") {
        return System::Monitor;
    }
    if same_bytes(name, b"$finish") {
        return System::Finish;
    }
    if same_bytes(name, b"$exit") {
        return System::Exit;
    }
    if same_bytes(name, b"$dumpfile") {
        return System::Dump;
    }
    if same_bytes(name, b"$dumpvars") {
        return System::Dump;
    }
    function_of(name)
}

// ---- the number of arguments

/// E31: exactly one argument.
fn one_of(at: Place, args: Seq<Arg>) -> Result<Arg, Refusal>
    ensures { Gives result (expressions.one_of at args) }
{
    let stands = values_stand(args.as_slice());
    let mut args = args.into_vec();
    match args.pop() {
        Some(a) => {
            if args.is_empty() {
                Ok(a)
            } else {
                where_also(Err(Refusal::Rule { rule: 31, at }), stands)
            }
        }
        None => where_also(Err(Refusal::Rule { rule: 31, at }), stands),
    }
}

/// E15, E31, E42: the number that the only argument is.
fn number_of_one(at: Place, args: Seq<Arg>) -> Result<Typed, Refusal>
    ensures { Gives result (expressions.number_of_one at args) }
{
    match one_of(at, args) {
        Ok(a) => number_of(a),
        Err(e) => Err(e),
    }
}

/// E15, E42: the number that an argument is.
fn number_of(a: Arg) -> Result<Typed, Refusal>
    ensures { Gives result (expressions.number_of_arg a) }
{
    let place = a.at;
    match a.into_value() {
        Ok(t) => number_operand(place, t),
        Err(e) => Err(e),
    }
}

/// E31: nothing between the brackets.
fn none_of(at: Place, args: &[Arg]) -> Result<(), Refusal>
    ensures { Gives result (expressions.none_of at args.now) }
{
    match args {
        [] => Ok(()),
        _ => where_also(Err(Refusal::Rule { rule: 31, at }), values_stand(args)),
    }
}

// ---- what each gives

/// A number of bits, of type int.
fn bits_literal(alloc: Global, width: u32) -> Result<Expr, Refusal>
    ensures ok { IfOk result (λ e. e ≡ expressions.bits_literal width) }
    ensures err { IfErr result (λ e. e ≡ Memory) }
{
    let value = Bits::new(32, true, u64::from(width), 0);
    expr_of(alloc, ExprForm::Literal { value, fill: None })
}

/// `$bits` of an expression (20.6.2), which is constant where no call stands in it.
fn bits_of_value(alloc: Global, at: Place, t: Typed) -> Result<Typed, Refusal>
    ensures { Gives result (Good (expressions.bits_of_value at t)) }
{
    let width = t.ty.width();
    let code = code_of(t);
    let is_constant = code.hidden.as_slice().is_empty();
    let value = bits_literal(alloc, width)?;
    let code = Hoisted {
        hidden: code.hidden,
        calls: code.calls,
        value,
    };
    Ok(value_typed(alloc, int_type(), at, is_constant, code))
}

/// E15: `$bits` of a type, which is integral (20.6.2).
fn bits_of_type(alloc: Global, at: Place, place: Place, ty: &Ty) -> Result<Typed, Refusal>
    ensures { Gives result (expressions.bits_of_type at place ty.now) }
{
    if !ty.is_integral() {
        return Err(Refusal::Rule {
            rule: 15,
            at: place,
        });
    }
    let value = bits_literal(alloc, ty.width())?;
    Ok(value_typed(alloc, int_type(), at, true, pure(alloc, value)))
}

/// `$signed` and `$unsigned`, which change no bit (11.7).
fn signed_as(alloc: Global, at: Place, signed: bool, t: Typed) -> Result<Typed, Refusal>
    ensures { Gives result (Good (expressions.signed_as at signed t)) }
{
    let (width, four_state) = (t.ty.width(), t.ty.is_four_state());
    let is_constant = t.is_constant;
    let to = Integral {
        width,
        signed,
        four_state: true,
    };
    let code = converted(alloc, to, code_of(t))?;
    let ty = plain_vector(width, signed, four_state);
    Ok(value_typed(alloc, ty, at, is_constant, code))
}

/// The code of `$clog2`.
fn logarithm_code(alloc: Global, code: Hoisted<Expr>) -> Result<Hoisted<Expr>, Refusal>
    ensures ok { IfOk result (λ c. c ≡ hoisted.mapped flat.Log2 code) }
    ensures err { IfErr result (λ e. e ≡ Memory) }
{
    let value = expr_of(
        alloc,
        ExprForm::Log2 {
            operand: code.value,
        },
    )?;
    Ok(Hoisted {
        hidden: code.hidden,
        calls: code.calls,
        value,
    })
}

/// `$clog2` (20.8.1).
fn logarithm(alloc: Global, at: Place, t: Typed) -> Result<Typed, Refusal>
    ensures { Gives result (Good (expressions.logarithm at t)) }
{
    let is_constant = t.is_constant;
    let code = logarithm_code(alloc, code_of(t))?;
    Ok(value_typed(alloc, selectable(32, true, true), at, is_constant, code))
}

/// `$time` (20.3.1).
fn time_now(alloc: Global, at: Place) -> Result<Typed, Refusal>
    ensures { Gives result (Good (expressions.time_now at)) }
{
    let value = expr_of(alloc, ExprForm::Time { at })?;
    let ty = selectable(64, false, true);
    Ok(value_typed(alloc, ty, at, false, pure(alloc, value)))
}

// ---- over what their arguments give

/// `$time`, which takes no argument.
fn time_of(alloc: Global, at: Place, args: &[Arg]) -> Result<Typed, Refusal>
    ensures { Gives result (expressions.none_of at args.now ▷ (λ _. Good (expressions.time_now at))) }
{
    match none_of(at, args) {
        Ok(()) => time_now(alloc, at),
        Err(e) => Err(e),
    }
}

/// `$bits` of an expression.
fn bits_of_number(alloc: Global, at: Place, t: Result<Typed, Refusal>) -> Result<Typed, Refusal>
    ensures { (x : checked typed) → Gives t x → Gives result (given (expressions.bits_of_value at) x) }
{
    match t {
        Ok(t) => bits_of_value(alloc, at, t),
        Err(e) => Err(e),
    }
}

/// `$bits` of a type, where it breaks no rule.
fn bits_of_checked(
    alloc: Global,
    at: Place,
    place: Place,
    ty: Checked<Ty>,
) -> Result<Typed, Refusal>
    ensures { Gives result (ty ▷ expressions.bits_of_type at place) }
{
    match answer(ty) {
        Ok(ty) => bits_of_type(alloc, at, place, &ty),
        Err(e) => Err(e),
    }
}

/// `$bits` of the type that the only argument names.
fn bits_of_named(
    alloc: Global,
    at: Place,
    ty: Checked<Ty>,
    args: Seq<Arg>,
) -> Result<Typed, Refusal>
    ensures { Gives result (expressions.bits_of at (Some ty) args) }
{
    match one_of(at, args) {
        Ok(a) => bits_of_checked(alloc, at, a.at, ty),
        Err(e) => Err(e),
    }
}

/// `$bits` of a type or of an expression (20.6.2).
fn bits_of(
    alloc: Global,
    at: Place,
    ty: Option<Checked<Ty>>,
    args: Seq<Arg>,
) -> Result<Typed, Refusal>
    ensures { Gives result (expressions.bits_of at ty args) }
{
    match ty {
        Some(ty) => bits_of_named(alloc, at, ty, args),
        None => bits_of_number(alloc, at, number_of_one(at, args)),
    }
}

/// `$clog2` of a number.
fn logarithm_of(alloc: Global, at: Place, t: Result<Typed, Refusal>) -> Result<Typed, Refusal>
    ensures { (x : checked typed) → Gives t x → Gives result (given (expressions.logarithm at) x) }
{
    match t {
        Ok(t) => logarithm(alloc, at, t),
        Err(e) => Err(e),
    }
}

/// `$signed` or `$unsigned` of a number.
fn signed_of(
    alloc: Global,
    at: Place,
    signed: bool,
    t: Result<Typed, Refusal>,
) -> Result<Typed, Refusal>
    ensures { (x : checked typed) → Gives t x → Gives result (given (expressions.signed_as at signed) x) }
{
    match t {
        Ok(t) => signed_as(alloc, at, signed, t),
        Err(e) => Err(e),
    }
}

/// A call as a value, where it breaks no rule.
fn given_by(
    alloc: Global,
    around: &Around,
    at: Place,
    c: Result<Called, Refusal>,
) -> Result<Typed, Refusal>
    ensures { (x : checked called) → Gives c x → Gives result (given (calls.as_value (around_in around.now) at) x) }
{
    match c {
        Ok(c) => {
            let t = as_value(alloc, around, at, c)?;
            Ok(t)
        }
        Err(e) => Err(e),
    }
}

/// E55: no system function.
fn unknown(at: Place, args: &[Arg]) -> Result<Typed, Refusal>
    ensures { Gives result (expressions.unknown_system at args.now) }
{
    where_also(Err(Refusal::Rule { rule: 55, at }), values_stand(args))
}

/// A system function over its arguments; `ty` is the type that the first one names. E15, E31 and E42: its arguments; E32: a system task is no
/// value; E55: there is no such function.
pub fn system_value(
    alloc: Global,
    around: &Around,
    at: Place,
    ty: Option<Checked<Ty>>,
    args: Seq<Arg>,
    system: System,
) -> Result<Typed, Refusal>
    ensures { Gives result (expressions.system_value (around_in around.now) at ty args system) }
{
    match system {
        System::Time => time_of(alloc, at, args.as_slice()),
        System::Bits => bits_of(alloc, at, ty, args),
        System::Clog2 => logarithm_of(alloc, at, number_of_one(at, args)),
        System::Signed => signed_of(alloc, at, true, number_of_one(at, args)),
        System::Unsigned => signed_of(alloc, at, false, number_of_one(at, args)),
        System::Sformatf => sformatf(alloc, at, args),
        System::Cast => given_by(
            alloc,
            around,
            at,
            cast_called(alloc, around, true, at, args),
        ),
        System::Unknown => unknown(at, args.as_slice()),
        System::Display => Err(Refusal::Rule { rule: 32, at }),
        System::Write => Err(Refusal::Rule { rule: 32, at }),
        System::Strobe => Err(Refusal::Rule { rule: 32, at }),
        System::Monitor => Err(Refusal::Rule { rule: 32, at }),
        System::Finish => Err(Refusal::Rule { rule: 32, at }),
        System::Exit => Err(Refusal::Rule { rule: 32, at }),
        System::Dump => Err(Refusal::Rule { rule: 32, at }),
    }
}
