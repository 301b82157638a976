// Parameters, which take their types from their values unless types are written (IEEE 1800-2017, 6.20): E11, E16, E17, E42.
ghost use Rattle.std.specs.Prelude.{◌≡◌, option_map};
ghost use Rattle.sv_tree.specs.StmtView.{implied as implied_in, range as range_in};
ghost use Rattle.sv_names.specs.declared.checked.Checked.{Checked as checked};
ghost use Rattle.sv_names.specs.declared.ty.Ty.{Ty as ty};
ghost use Rattle.sv_names.specs.declared.ty.Ty.TheVariants as tys;
ghost use Rattle.sv_names.specs.declared.typed.Typed.{Typed as typed};
ghost use Rattle.sv_names.specs.Checked as rules;
ghost use Rattle.sv_names.specs.Checked.{◌▷◌};
ghost use Rattle.sv_names.specs.Declarations as declarations;
ghost use Rattle.sv_names.specs.Rounds as rounds;
ghost use Rattle.sv_names.specs.Values as values;
ghost use Rattle.sv_names.specs.Views.{around_in};
ghost use Rattle.sv_names.specs.Given.{Gives};
ghost use Rattle.sv_elab_scope.specs.Views.{source_in};
ghost use Rattle.sv_elab_type.specs.Parameters as parameters;

use crate::types::{implied, range_of, type_of};
use crate::vectors::{is_signed, vector_type};
use std::alloc::Global;
use sv_elab_copies::copy_typed;
use sv_elab_expr::sv_elab_value::{constant, exactly, value_typed};
use sv_elab_expr::{expr, place_of};
use sv_elab_scope::Source;
use sv_flat::Bounds;
use sv_names::{Around, Checked, Refusal, Ty, Typed, where_also, whole};
use sv_tree::{ImpliedType, Range};
use sv_value::{Integral, Place, Text};

// ---- values

/// A value that may break a rule, in memory of its own.
fn copy_value(alloc: Global, value: &Checked<Typed>) -> Result<Typed, Refusal>
    ensures { Gives result value.now }
{
    match value {
        Checked::Good(t) => {
            let t = copy_typed(alloc, t)?;
            Ok(t)
        }
        Checked::Broken(f) => Err(f.refusal()),
    }
}

/// The value that a parameter is given.
fn source_value(alloc: Global, around: &Around, source: Source) -> Result<Typed, Refusal>
    ensures { Gives result (declarations.source_value (around_in around.now) (source_in source.entry)) }
{
    match source {
        Source::Own(e) => expr(alloc, e, around),
        Source::Given(_, value) => copy_value(alloc, value),
    }
}

/// Where it stands.
fn place_of_source(source: Source) -> Place
    ensures { result ≡ rounds.place_of_source (source_in source.entry) }
{
    match source {
        Source::Own(e) => place_of(e),
        Source::Given(at, _) => at,
    }
}

/// E11: a constant, where it breaks no rule before.
pub(crate) fn constant_of(at: Place, t: Result<Typed, Refusal>) -> Result<Typed, Refusal>
    ensures { (x : checked typed) → Gives t x → Gives result (x ▷ values.constant at) }
{
    match t {
        Ok(t) => constant(at, t),
        Err(e) => Err(e),
    }
}

// ---- types

/// The type that a parameter takes from a vector: one of more than one bit has bits to select.
fn own_vector(integral: Integral, bounds: Option<Bounds>, is_written: bool) -> Ty
    ensures { result ≡ declarations.own_type (tys.Vector integral bounds is_written) }
{
    let bounds = match bounds {
        None => if integral.width == 1 {
            None
        } else {
            whole(integral.width)
        },
        Some(bounds) => Some(bounds),
    };
    Ty::Vector {
        integral,
        bounds,
        is_written,
    }
}

/// E16: a value that gives a parameter its type is a number or a string.
fn taken_type(alloc: Global, at: Place, t: &Ty) -> Result<Ty, Refusal>
    ensures { Gives result (declarations.taken_type at t.now) }
{
    match t {
        Ty::Vector {
            integral,
            bounds,
            is_written,
        } => Ok(own_vector(*integral, *bounds, *is_written)),
        Ty::Enum { .. } => {
            let t = t.copy(alloc)?;
            Ok(t)
        }
        Ty::Text => Ok(Ty::Text),
        _ => Err(Refusal::Rule { rule: 16, at }),
    }
}

/// E16: the type of a value, with a sign of its own.
fn with_sign(at: Place, signed: bool, t: &Ty) -> Result<Ty, Refusal>
    ensures { Gives result (declarations.with_sign at signed t.now) }
{
    match t {
        Ty::Vector {
            integral,
            bounds,
            is_written,
        } => {
            let integral = Integral {
                signed,
                ..*integral
            };
            Ok(own_vector(integral, *bounds, *is_written))
        }
        Ty::Enum { integral, .. } => Ok(Ty::Vector {
            integral: Integral {
                signed,
                ..*integral
            },
            bounds: whole(integral.width),
            is_written: false,
        }),
        _ => Err(Refusal::Rule { rule: 16, at }),
    }
}

/// The type of a parameter whose sign or range alone is written.
fn vector_or_sign(
    alloc: Global,
    around: &Around,
    at: Place,
    signed: bool,
    range: Option<&Range>,
    t: &Ty,
) -> Result<Ty, Refusal>
    ensures { Gives result (parameters.vector_or_sign (around_in around.now) at signed
        (option_map (λ r. range_in r.now) range.entry) t.now) }
{
    match range {
        None => with_sign(at, signed, t),
        Some(_) => vector_type(alloc, around, signed, true, range),
    }
}

/// The type of a parameter with a value of this type.
fn parameter_type(
    alloc: Global,
    around: &Around,
    path: &[Text],
    at: Place,
    ty: &ImpliedType,
    t: &Ty,
) -> Result<Ty, Refusal>
    ensures { Gives result (declarations.parameter_type (around_in around.now) path.now at (implied_in ty.now) t.now) }
{
    match ty {
        ImpliedType::Unwritten => taken_type(alloc, at, t),
        ImpliedType::Vector { sign, range, .. } => {
            vector_or_sign(
                alloc,
                around,
                at,
                is_signed(false, *sign),
                range_of(range),
                t,
            )
        }
        ImpliedType::Written(written) => type_of(alloc, around, path, written),
    }
}

/// Whether a type breaks no rule.
fn only(t: Result<Ty, Refusal>) -> Result<(), Refusal>
    ensures { (x : checked ty) → Gives t x → Gives result (rules.only x) }
{
    match t {
        Ok(_) => Ok(()),
        Err(e) => Err(e),
    }
}

/// What a written type breaks.
fn written_part(
    alloc: Global,
    around: &Around,
    path: &[Text],
    ty: &ImpliedType,
) -> Result<(), Refusal>
    ensures { Gives result (declarations.written_part (around_in around.now) path.now (implied_in ty.now)) }
{
    match ty {
        ImpliedType::Unwritten => Ok(()),
        ImpliedType::Vector { .. } => only(implied(alloc, around, path, ty)),
        ImpliedType::Written(_) => only(implied(alloc, around, path, ty)),
    }
}

// ---- parameters

/// E16, E17, E42: a constant of exactly a type.
fn of_type(alloc: Global, around: &Around, at: Place, t: Typed, to: Ty) -> Result<Typed, Refusal>
    ensures { Gives result (parameters.of_type (around_in around.now) at t to) }
{
    match exactly(alloc, around, &to, at, t) {
        Ok(code) => Ok(value_typed(alloc, to, at, true, code)),
        Err(e) => Err(e),
    }
}

/// A constant of the type of its parameter.
fn valued(
    alloc: Global,
    around: &Around,
    path: &[Text],
    at: Place,
    ty: &ImpliedType,
    t: Typed,
) -> Result<Typed, Refusal>
    ensures { Gives result (parameters.valued (around_in around.now) path.now at (implied_in ty.now) t) }
{
    match parameter_type(alloc, around, path, at, ty, &t.ty) {
        Ok(to) => of_type(alloc, around, at, t, to),
        Err(e) => Err(e),
    }
}

/// E11: the value of a parameter, of its type (6.20.2). What a written type breaks is told even where the value breaks rules.
pub fn parameter_value(
    alloc: Global,
    around: &Around,
    path: &[Text],
    ty: &ImpliedType,
    source: Source,
) -> Result<Typed, Refusal>
    ensures { Gives result (declarations.parameter_value (around_in around.now) path.now (implied_in ty.now) (source_in source.entry)) }
{
    let at = place_of_source(source);
    let value = constant_of(at, source_value(alloc, around, source));
    let written = written_part(alloc, around, path, ty);
    match where_also(value, written) {
        Ok(t) => valued(alloc, around, path, at, ty, t),
        Err(e) => Err(e),
    }
}
