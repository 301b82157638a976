// Values for targets of any type (IEEE 1800-2017, 6.22, 8.16 and 10.8): E16, E17, E42.
ghost use Rattle.std.specs.Prelude.{◌≡◌, ◌&&◌, ◌||◌, map, IfOk, IfErr, if◌then◌else◌};
ghost use Rattle.sv_names.specs.declared.ty.Ty.TheVariants as ty;
ghost use Rattle.sv_names.specs.declared.refusal.Refusal.TheVariants.{Memory};
ghost use Rattle.sv_names.specs.Types as types;
ghost use Rattle.sv_names.specs.Values as values;
ghost use Rattle.sv_names.specs.Views.{around_in};
ghost use Rattle.sv_names.specs.Given.{Gives};

use crate::folding::folded;
use crate::parts::converted;
use crate::values::{assigned_if, container_assigned, number_assigned};
use std::alloc::Global;
use sv_flat::Expr;
use sv_names::{Around, ClassInfo, Hoisted, Refusal, Ty, Typed, can_be_derived, copy_path};
use sv_value::{NoMemory, Place, Text};

// ---- references

/// A reference to an object of a class, where there is one.
fn reference_to(alloc: Global, class: &[Text]) -> Result<Option<Ty>, NoMemory>
    ensures { IfOk result (λ t. t ≡ Some (ty.Class class.now)) }
{
    let class = copy_path(alloc, class)?;
    Ok(Some(Ty::Class(class)))
}

/// The common type of references to objects of two classes.
fn common_class(
    alloc: Global,
    classes: &[&ClassInfo],
    a: &[Text],
    b: &[Text],
) -> Result<Option<Ty>, NoMemory>
    ensures { IfOk result (λ t. t ≡ values.common_reference (map (λ k. k.now) classes.now) (ty.Class a.now) (ty.Class b.now)) }
{
    if can_be_derived(classes, a, b) {
        return reference_to(alloc, b);
    }
    if can_be_derived(classes, b, a) {
        return reference_to(alloc, a);
    }
    Ok(None)
}

/// A type that is there.
fn some_copy(alloc: Global, t: &Ty) -> Result<Option<Ty>, NoMemory>
    ensures { IfOk result (λ u. u ≡ Some t.now) }
{
    let t = t.copy(alloc)?;
    Ok(Some(t))
}

/// The first of two types that are one.
fn one_type(alloc: Global, a: &Ty, b: &Ty) -> Result<Option<Ty>, NoMemory>
    ensures { IfOk result (λ t. t ≡ (if types.same_type a.now b.now then Some a.now else None)) }
{
    if a.is_same(b) {
        some_copy(alloc, a)
    } else {
        Ok(None)
    }
}

/// The common type of two references (8.16); none where neither takes the other.
pub fn common_reference(
    alloc: Global,
    classes: &[&ClassInfo],
    a: &Ty,
    b: &Ty,
) -> Result<Option<Ty>, NoMemory>
    ensures { IfOk result (λ t. t ≡ values.common_reference (map (λ k. k.now) classes.now) a.now b.now) }
{
    match a {
        Ty::Null => some_copy(alloc, b),
        Ty::Class(class) => match b {
            Ty::Null => some_copy(alloc, a),
            Ty::Class(other) => { common_class(alloc, classes, class.as_slice(), other.as_slice()) }
            _ => one_type(alloc, a, b),
        },
        _ => match b {
            Ty::Null => some_copy(alloc, a),
            _ => one_type(alloc, a, b),
        },
    }
}

/// Whether a variable of a class takes values of a type (8.16).
pub fn fits_class(classes: &[&ClassInfo], class: &[Text], t: &Ty) -> bool
    ensures { result ≡ values.fits_class (map (λ k. k.now) classes.now) class.now t.now }
{
    match t {
        Ty::Null => true,
        Ty::Class(other) => can_be_derived(classes, other.as_slice(), class),
        _ => false,
    }
}

// ---- values for targets

/// Whether what is no number, string, class or event takes values of a type.
fn fits_sync(to: &Ty, t: &Ty) -> bool
    ensures { result ≡ (types.is_sync to.now && (types.is_null t.now || types.same_type to.now t.now)) }
{
    to.is_sync() && (t.is_null() || to.is_same(t))
}

/// E16, E17: a value by the type of its target, which is no array.
pub fn item_assigned(
    alloc: Global,
    around: &Around,
    to: &Ty,
    at: Place,
    t: Typed,
) -> Result<Hoisted<Expr>, Refusal>
    ensures { Gives result (values.item_assigned (around_in around.now) to.now at t) }
{
    match to {
        Ty::Vector { .. } => number_assigned(alloc, to, at, t),
        Ty::Enum { .. } => number_assigned(alloc, to, at, t),
        Ty::Text => {
            let fits = t.ty.is_text();
            assigned_if(alloc, fits, at, t)
        }
        Ty::Class(class) => {
            let fits = fits_class(around.classes, class.as_slice(), &t.ty);
            assigned_if(alloc, fits, at, t)
        }
        Ty::Event => {
            let fits = around.takes_events && Ty::Event.is_same(&t.ty);
            assigned_if(alloc, fits, at, t)
        }
        _ => {
            let fits = fits_sync(to, &t.ty);
            assigned_if(alloc, fits, at, t)
        }
    }
}

/// E16, E17, E42: a value for a target of a type, in the context of that type.
pub fn assigned(
    alloc: Global,
    around: &Around,
    to: &Ty,
    at: Place,
    t: Typed,
) -> Result<Hoisted<Expr>, Refusal>
    ensures { Gives result (values.assigned (around_in around.now) to.now at t) }
{
    if to.is_array() || t.ty.is_array() {
        container_assigned(to, at, t)
    } else {
        item_assigned(alloc, around, to, at, t)
    }
}

/// The code of a value of exactly a type.
fn converted_to(alloc: Global, to: &Ty, code: Hoisted<Expr>) -> Result<Hoisted<Expr>, Refusal>
    ensures ok { IfOk result (λ c. c ≡ values.converted to.now code) }
    ensures err { IfErr result (λ e. e ≡ Memory) }
{
    match to {
        Ty::Vector { integral, .. } => converted(alloc, *integral, code),
        Ty::Enum { integral, .. } => converted(alloc, *integral, code),
        _ => Ok(code),
    }
}

/// The same, as a literal where it is constant.
fn exact_code(
    alloc: Global,
    is_constant: bool,
    to: &Ty,
    code: Hoisted<Expr>,
) -> Result<Hoisted<Expr>, Refusal>
    ensures ok { IfOk result (λ c. c ≡ values.folded is_constant to.now (values.converted to.now code)) }
    ensures err { IfErr result (λ e. e ≡ Memory) }
{
    let code = converted_to(alloc, to, code)?;
    folded(alloc, is_constant, to, code)
}

/// E16, E17, E42: a value of exactly a type.
pub fn exactly(
    alloc: Global,
    around: &Around,
    to: &Ty,
    at: Place,
    t: Typed,
) -> Result<Hoisted<Expr>, Refusal>
    ensures { Gives result (values.exactly (around_in around.now) to.now at t) }
{
    let is_constant = t.is_constant;
    match assigned(alloc, around, to, at, t) {
        Ok(code) => {
            let code = exact_code(alloc, is_constant, to, code)?;
            Ok(code)
        }
        Err(e) => Err(e),
    }
}
