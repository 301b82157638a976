// Objects, variables of activations and properties as typed expressions (IEEE 1800-2017, 6.5, 6.21, 8.5 and 8.9): E51.
ghost use Rattle.std.specs.Prelude.{◌≡◌, Some, IfOk, IfErr};
ghost use Rattle.sv_flat.specs.Expr as flat;
ghost use Rattle.sv_names.specs.declared.refusal.Refusal.TheVariants.{Memory};
ghost use Rattle.sv_names.specs.declared.typed.Begin.TheVariants as begin;
ghost use Rattle.sv_names.specs.Given.{Gives};
ghost use Rattle.sv_names.specs.Hoisted as hoisted;
ghost use Rattle.sv_names.specs.Things as things;
ghost use Rattle.sv_names.specs.Views.{around_in};

use std::alloc::Global;
use sv_elab_copies::{copy_code, copy_expr};
use sv_elab_value::{code_of, expr_of, paired, pure};
use sv_flat::{Base, DataType, Expr, ExprForm};
use sv_names::{Around, AsTarget, Begin, Hoisted, Refusal, Target, Ty, Typed, copy_path};
use sv_tree::Name;
use sv_value::{NoMemory, ObjId, Place, Seq, Text};

/// A target that begins so.
fn begun(alloc: Global, begins: Begin, whole: Ty, base: Base) -> Result<AsTarget, NoMemory>
    ensures { IfOk result (λ t. t ≡ things.begun begins whole base) }
{
    let target = Target {
        begins,
        through: None,
        base,
        part: None,
        whole,
        is_item: false,
        moving: Seq::new(alloc),
    };
    AsTarget::new(alloc, target)
}

/// E51: what is printed later names no variable of an activation, no property and no static member.
pub fn lasts(around: &Around, at: Place) -> Result<(), Refusal>
    ensures { Gives result (things.lasts (around_in around.now) at) }
{
    if around.is_printed_later {
        Err(Refusal::Rule { rule: 51, at })
    } else {
        Ok(())
    }
}

// ---- objects

/// The code of an object.
fn object_code(
    alloc: Global,
    at: Place,
    object: ObjId,
    ty: DataType,
) -> Result<Hoisted<Expr>, Refusal>
    ensures ok { IfOk result (λ c. c ≡ hoisted.pure (flat.Object at object ty)) }
    ensures err { IfErr result (λ e. e ≡ Memory) }
{
    let value = expr_of(alloc, ExprForm::Object { at, object, ty })?;
    Ok(pure(alloc, value))
}

/// A net or a static variable, by its path; as a target it begins as told.
pub fn object_typed(
    alloc: Global,
    around: &Around,
    at: Place,
    path: &[Text],
    ty: &Ty,
    begins: Begin,
) -> Result<Typed, Refusal>
    ensures ok { IfOk result (λ t. t ≡ things.object_typed (around_in around.now) at path.now ty.now begins) }
    ensures err { IfErr result (λ e. e ≡ Memory) }
{
    let object = around.numbers.object(path);
    let data = around.numbers.data_of(ty);
    let code = object_code(alloc, at, object, data)?;
    let whole = ty.copy(alloc)?;
    let ty = ty.copy(alloc)?;
    let target = begun(alloc, begins, whole, Base::Object(object))?;
    Ok(Typed {
        ty,
        at,
        code,
        is_constant: false,
        target,
    })
}

// ---- variables of activations

/// The code of a variable of an activation.
fn local_code(alloc: Global, up: u32, place: u32, ty: DataType) -> Result<Hoisted<Expr>, Refusal>
    ensures ok { IfOk result (λ c. c ≡ hoisted.pure (flat.Local up place ty)) }
    ensures err { IfErr result (λ e. e ≡ Memory) }
{
    let value = expr_of(alloc, ExprForm::Local { up, place, ty })?;
    Ok(pure(alloc, value))
}

/// A variable of the activation that is so many levels further out, at its place there; as a target it begins as told.
pub fn local_typed(
    alloc: Global,
    around: &Around,
    at: Place,
    up: u32,
    place: u32,
    ty: &Ty,
    begins: Begin,
) -> Result<Typed, Refusal>
    ensures ok { IfOk result (λ t. t ≡ things.local_typed (around_in around.now) at up place ty.now begins) }
    ensures err { IfErr result (λ e. e ≡ Memory) }
{
    let up = up.saturating_add(around.up);
    let data = around.numbers.data_of(ty);
    let code = local_code(alloc, up, place, data)?;
    let whole = ty.copy(alloc)?;
    let ty = ty.copy(alloc)?;
    let target = begun(alloc, begins, whole, Base::Local { up, place })?;
    Ok(Typed {
        ty,
        at,
        code,
        is_constant: false,
        target,
    })
}

// ---- members of objects

/// The code of a property.
fn field_code(
    alloc: Global,
    place: u32,
    ty: DataType,
    object: Hoisted<Expr>,
) -> Result<Hoisted<Expr>, Refusal>
    ensures ok { IfOk result (λ c. c ≡ hoisted.mapped (flat.Field place ty) object) }
    ensures err { IfErr result (λ e. e ≡ Memory) }
{
    let value = expr_of(
        alloc,
        ExprForm::Field {
            place,
            ty,
            object: object.value,
        },
    )?;
    Ok(Hoisted {
        hidden: object.hidden,
        calls: object.calls,
        value,
    })
}

/// A property of an object, which is one of the class or of one derived from it.
pub fn field_typed(
    alloc: Global,
    around: &Around,
    at: Place,
    class: &[Text],
    name: &Name,
    ty: &Ty,
    object: Typed,
) -> Result<Typed, Refusal>
    ensures ok { IfOk result (λ t. t ≡ things.field_typed (around_in around.now) at class.now name.now ty.now object) }
    ensures err { IfErr result (λ e. e ≡ Memory) }
{
    let place = around.property_place(class, name.text.bytes());
    let data = around.numbers.data_of(ty);
    let whole = ty.copy(alloc)?;
    let ty = ty.copy(alloc)?;
    let reference = copy_expr(alloc, &object.code.value)?;
    let base = Base::Field {
        object: reference,
        place,
    };
    let target = begun(alloc, Begin::InActivation, whole, base)?;
    let code = field_code(alloc, place, data, code_of(object))?;
    Ok(Typed {
        ty,
        at,
        code,
        is_constant: false,
        target,
    })
}

/// The code of a static member that is named through a reference.
fn static_code(
    alloc: Global,
    reference: Hoisted<Expr>,
    member: Hoisted<Expr>,
) -> Result<Hoisted<Expr>, Refusal>
    ensures ok { IfOk result (λ c. c ≡ hoisted.paired flat.Static reference member) }
    ensures err { IfErr result (λ e. e ≡ Memory) }
{
    let both = paired(reference, member)?;
    let (reference, member) = both.value;
    let value = expr_of(alloc, ExprForm::Static { reference, member })?;
    Ok(Hoisted {
        hidden: both.hidden,
        calls: both.calls,
        value,
    })
}

/// A static property, named through a reference where there is one, which must not be null.
pub(crate) fn static_typed(
    alloc: Global,
    around: &Around,
    at: Place,
    path: &[Text],
    ty: &Ty,
    object: Option<Typed>,
) -> Result<Typed, Refusal>
    ensures ok { IfOk result (λ t. t ≡ things.through_reference object
        (things.object_typed (around_in around.now) at path.now ty.now (begin.StaticProperty path.now))) }
    ensures err { IfErr result (λ e. e ≡ Memory) }
{
    let begins = Begin::StaticProperty(copy_path(alloc, path)?);
    match object {
        None => object_typed(alloc, around, at, path, ty, begins),
        Some(o) => static_through(alloc, around, at, path, ty, begins, o),
    }
}

/// A static member that is named through a reference.
fn static_through(
    alloc: Global,
    around: &Around,
    at: Place,
    path: &[Text],
    ty: &Ty,
    begins: Begin,
    reference: Typed,
) -> Result<Typed, Refusal>
    ensures ok { IfOk result (λ t. t ≡ things.through_reference (Some reference)
        (things.object_typed (around_in around.now) at path.now ty.now begins)) }
    ensures err { IfErr result (λ e. e ≡ Memory) }
{
    let reference = code_of(reference);
    let object = around.numbers.object(path);
    let data = around.numbers.data_of(ty);
    let whole = ty.copy(alloc)?;
    let ty = ty.copy(alloc)?;
    let through = copy_expr(alloc, &reference.value)?;
    let member = object_code(alloc, at, object, data)?;
    let code = static_code(alloc, reference, member)?;
    let target = Target {
        begins,
        through: Some(through),
        base: Base::Object(object),
        part: None,
        whole,
        is_item: false,
        moving: Seq::new(alloc),
    };
    let target = AsTarget::new(alloc, target)?;
    Ok(Typed {
        ty,
        at,
        code,
        is_constant: false,
        target,
    })
}

// ---- constants

/// A constant where it is named: a parameter, or an enum item.
pub(crate) fn constant_named(
    alloc: Global,
    at: Place,
    is_parameter: bool,
    t: &Typed,
) -> Result<Typed, Refusal>
    ensures ok { IfOk result (λ c. c ≡ things.constant_named at is_parameter t.now) }
    ensures err { IfErr result (λ e. e ≡ Memory) }
{
    let ty = t.ty.copy(alloc)?;
    let code = copy_code(alloc, &t.code)?;
    let begins = if is_parameter {
        Begin::Parameter
    } else {
        Begin::Item
    };
    let target = begun(alloc, begins, Ty::Text, Base::Object(ObjId(0)))?;
    Ok(Typed {
        ty,
        at,
        code,
        is_constant: t.is_constant,
        target,
    })
}

/// A constant behind an object, which is not looked at; its calls run.
pub(crate) fn after_object(object: Option<Typed>, t: Typed) -> Typed
    ensures { result ≡ things.after_object object t }
{
    match object {
        None => t,
        Some(o) => behind_calls(o, t),
    }
}

/// A constant behind the calls of an object.
fn behind_calls(object: Typed, t: Typed) -> Typed
    ensures { result ≡ things.after_object (Some object) t }
{
    let object = code_of(object);
    let has_none = object.hidden.as_slice().is_empty();
    let Typed {
        ty,
        at,
        code,
        is_constant,
        target,
    } = t;
    let code = Hoisted {
        hidden: object.hidden,
        calls: object.calls,
        value: code.value,
    };
    Typed {
        ty,
        at,
        code,
        is_constant: is_constant && has_none,
        target,
    }
}
