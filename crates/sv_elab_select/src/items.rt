// Selects of the items of containers and the elements of fixed arrays (IEEE 1800-2017, 7.4 to 7.10): E16, E17, E42, E51.
ghost use Rattle.std.specs.Prelude.{◌≡◌, ◌&&◌, IfOk, IfErr};
ghost use Rattle.sv_flat.specs.Expr as flat;
ghost use Rattle.sv_names.specs.declared.checked.Checked.{Checked as checked};
ghost use Rattle.sv_names.specs.declared.checked.Checked.TheVariants.{Good};
ghost use Rattle.sv_names.specs.declared.typed.Typed.{Typed as typed};
ghost use Rattle.sv_names.specs.declared.refusal.Refusal.TheVariants.{Memory};
ghost use Rattle.sv_names.specs.Checked.{◌▷◌, ◌where_also◌};
ghost use Rattle.sv_names.specs.Hoisted as hoisted;
ghost use Rattle.sv_names.specs.Types as types;
ghost use Rattle.sv_names.specs.Selects as selects;
ghost use Rattle.sv_names.specs.Views.{around_in};
ghost use Rattle.sv_names.specs.Given.{Gives};
ghost use Rattle.sv_elab_select.specs.Parts as parts;

use crate::bits::note_select;
use crate::rules::guarded;
use std::alloc::Global;
use sv_elab_copies::copy_expr;
use sv_elab_value::{alone, exactly, expr_of, number_index, paired, rule};
use sv_flat::{Base, Bounds, Container, Expr, ExprForm};
use sv_names::{Around, AsTarget, Hoisted, Refusal, Ty, Typed};
use sv_value::{ObjId, Place, Plain};

// ---- in the flat design

/// The container that an expression stands for.
pub fn container_of(alloc: Global, e: &Expr) -> Result<Container, Refusal>
    ensures ok { IfOk result (λ c. c ≡ selects.container_of e.now) }
    ensures err { IfErr result (λ e. e ≡ Memory) }
{
    match &*e.form {
        ExprForm::Field { place, object, .. } => {
            let holder = copy_expr(alloc, object)?;
            Ok(Container {
                holder,
                property: Some(*place),
            })
        }
        _ => {
            let holder = copy_expr(alloc, e)?;
            Ok(Container {
                holder,
                property: None,
            })
        }
    }
}

/// An item of a container.
fn item_expr(alloc: Global, ty: Plain, e: Expr, index: Expr) -> Result<Expr, Refusal>
    ensures ok { IfOk result (λ x. x ≡ selects.item_expr ty e index) }
    ensures err { IfErr result (λ e. e ≡ Memory) }
{
    match &*e.form {
        ExprForm::Field { place, object, .. } => {
            let container = copy_expr(alloc, object)?;
            expr_of(
                alloc,
                ExprForm::Item {
                    property: Some(*place),
                    ty,
                    container,
                    index,
                },
            )
        }
        _ => expr_of(
            alloc,
            ExprForm::Item {
                property: None,
                ty,
                container: e,
                index,
            },
        ),
    }
}

/// An element of a fixed array.
fn element_expr(
    alloc: Global,
    bounds: Bounds,
    ty: Plain,
    e: &Expr,
    index: Expr,
) -> Result<Expr, Refusal>
    ensures ok { IfOk result (λ x. x ≡ selects.element_expr bounds ty e.now index) }
    ensures err { IfErr result (λ e. e ≡ Memory) }
{
    match &*e.form {
        ExprForm::Object { at, object, .. } => expr_of(
            alloc,
            ExprForm::Element {
                at: *at,
                object: *object,
                bounds,
                ty,
                index,
            },
        ),
        ExprForm::Local { up, place, .. } => expr_of(
            alloc,
            ExprForm::LocalElement {
                up: *up,
                place: *place,
                bounds,
                ty,
                index,
            },
        ),
        ExprForm::Field { place, object, .. } => {
            let object = copy_expr(alloc, object)?;
            expr_of(
                alloc,
                ExprForm::FieldElement {
                    place: *place,
                    bounds,
                    ty,
                    object,
                    index,
                },
            )
        }
        ExprForm::Static { reference, member } => {
            let member = element_expr(alloc, bounds, ty, member, index)?;
            let reference = copy_expr(alloc, reference)?;
            expr_of(alloc, ExprForm::Static { reference, member })
        }
        _ => {
            let e = copy_expr(alloc, e)?;
            Ok(e)
        }
    }
}

/// An element as a target.
fn element_base(alloc: Global, bounds: Bounds, e: &Expr, index: &Expr) -> Result<Base, Refusal>
    ensures ok { IfOk result (λ b. b ≡ selects.element_base bounds e.now index.now) }
    ensures err { IfErr result (λ e. e ≡ Memory) }
{
    match &*e.form {
        ExprForm::Object { object, .. } => {
            let index = copy_expr(alloc, index)?;
            Ok(Base::Element {
                object: *object,
                bounds,
                index,
            })
        }
        ExprForm::Local { up, place, .. } => {
            let index = copy_expr(alloc, index)?;
            Ok(Base::LocalElement {
                up: *up,
                place: *place,
                bounds,
                index,
            })
        }
        ExprForm::Field { place, object, .. } => {
            let object = copy_expr(alloc, object)?;
            let index = copy_expr(alloc, index)?;
            Ok(Base::FieldElement {
                object,
                place: *place,
                bounds,
                index,
            })
        }
        ExprForm::Static { member, .. } => element_base(alloc, bounds, member, index),
        _ => Ok(Base::Object(ObjId(0))),
    }
}

/// An item as a target.
fn item_base(alloc: Global, e: &Expr, index: &Expr) -> Result<Base, Refusal>
    ensures ok { IfOk result (λ b. b ≡ selects.item_base e.now index.now) }
    ensures err { IfErr result (λ e. e ≡ Memory) }
{
    let container = container_of(alloc, e)?;
    let index = copy_expr(alloc, index)?;
    Ok(Base::Item { container, index })
}

// ---- indices

/// E42: the key of an array whose keys are strings.
fn text_key(alloc: Global, at: Place, i: Typed) -> Result<Hoisted<Expr>, Refusal>
    ensures { Gives result (parts.text_key at i) }
{
    if i.ty.is_text() {
        let code = alone(alloc, i)?;
        Ok(code)
    } else {
        Err(Refusal::Rule { rule: 42, at })
    }
}

/// E17, E42: the key of an associative array.
pub fn key_for(
    alloc: Global,
    around: &Around,
    key: &Ty,
    at: Place,
    i: Typed,
) -> Result<Hoisted<Expr>, Refusal>
    ensures { Gives result (selects.key_for (around_in around.now) key.now at i) }
{
    if i.ty.is_array() {
        return Err(Refusal::Rule { rule: 42, at: i.at });
    }
    if key.is_text() {
        return text_key(alloc, at, i);
    }
    if i.ty.is_integral() {
        exactly(alloc, around, key, at, i)
    } else {
        Err(Refusal::Rule { rule: 42, at })
    }
}

/// E42: the index of an array that is counted.
pub fn counted_index(alloc: Global, at: Place, i: Typed) -> Result<Hoisted<Expr>, Refusal>
    ensures { Gives result (parts.counted_index at i) }
{
    match number_index(at, i) {
        Ok(i) => {
            let code = alone(alloc, i)?;
            Ok(code)
        }
        Err(e) => Err(e),
    }
}

/// E17, E42: the index of an array.
pub fn index_for(
    alloc: Global,
    around: &Around,
    ty: &Ty,
    at: Place,
    i: Typed,
) -> Result<Hoisted<Expr>, Refusal>
    ensures { Gives result (selects.index_for (around_in around.now) ty.now at i) }
{
    match ty {
        Ty::Assoc(key, _) => {
            let key = key.get().as_type(alloc)?;
            key_for(alloc, around, &key, at, i)
        }
        _ => counted_index(alloc, at, i),
    }
}

// ---- what is selected

/// The code of an item.
fn item_code(
    alloc: Global,
    ty: Plain,
    a: Hoisted<Expr>,
    i: Hoisted<Expr>,
) -> Result<Hoisted<Expr>, Refusal>
    ensures ok { IfOk result (λ c. c ≡ hoisted.paired (selects.item_expr ty) a i) }
    ensures err { IfErr result (λ e. e ≡ Memory) }
{
    let both = paired(a, i)?;
    let (container, index) = both.value;
    let value = item_expr(alloc, ty, container, index)?;
    Ok(Hoisted {
        hidden: both.hidden,
        calls: both.calls,
        value,
    })
}

/// The code of an element.
fn element_code(
    alloc: Global,
    bounds: Bounds,
    ty: Plain,
    a: Hoisted<Expr>,
    i: Hoisted<Expr>,
) -> Result<Hoisted<Expr>, Refusal>
    ensures ok { IfOk result (λ c. c ≡ hoisted.paired (selects.element_expr bounds ty) a i) }
    ensures err { IfErr result (λ e. e ≡ Memory) }
{
    let both = paired(a, i)?;
    let (array, index) = both.value;
    let value = element_expr(alloc, bounds, ty, &array, index)?;
    Ok(Hoisted {
        hidden: both.hidden,
        calls: both.calls,
        value,
    })
}

/// An item as a target.
fn item_target(
    alloc: Global,
    base: Base,
    whole: Ty,
    is_steady: bool,
    at: Place,
    target: AsTarget,
) -> Result<AsTarget, Refusal>
    ensures ok { IfOk result (λ t. t ≡ parts.item_target base whole is_steady at target) }
    ensures err { IfErr result (λ e. e ≡ Memory) }
{
    let mut target = target.into_box(alloc)?;
    note_select(alloc, is_steady, at, &mut target.moving)?;
    target.base = base;
    target.part = None;
    target.whole = whole;
    target.is_item = true;
    Ok(AsTarget::from_box(target))
}

/// An element as a target.
fn element_target(
    alloc: Global,
    base: Base,
    whole: Ty,
    is_steady: bool,
    at: Place,
    target: AsTarget,
) -> Result<AsTarget, Refusal>
    ensures ok { IfOk result (λ t. t ≡ parts.element_target base whole is_steady at target) }
    ensures err { IfErr result (λ e. e ≡ Memory) }
{
    let mut target = target.into_box(alloc)?;
    note_select(alloc, is_steady, at, &mut target.moving)?;
    target.base = base;
    target.part = None;
    target.whole = whole;
    Ok(AsTarget::from_box(target))
}

/// An item of a container, as a value and as a target.
fn item_typed(
    alloc: Global,
    around: &Around,
    at: Place,
    a: Typed,
    is_steady: bool,
    i: Hoisted<Expr>,
) -> Result<Typed, Refusal>
    ensures { Gives result (Good (selects.item_typed (around_in around.now) at a is_steady i)) }
{
    let base = item_base(alloc, &a.code.value, &i.value)?;
    let ty = a.ty.item(alloc)?;
    let whole = ty.copy(alloc)?;
    let plain = around.numbers.plain_of(&ty);
    let Typed {
        ty: _,
        at: name,
        code,
        is_constant: _,
        target,
    } = a;
    let target = item_target(alloc, base, whole, is_steady, at, target)?;
    let code = item_code(alloc, plain, code, i)?;
    Ok(Typed {
        ty,
        at: name,
        code,
        is_constant: false,
        target,
    })
}

/// An element of a fixed array, as a value and as a target.
fn element_typed(
    alloc: Global,
    around: &Around,
    at: Place,
    bounds: Bounds,
    ty: Ty,
    a: Typed,
    is_steady: bool,
    i: Hoisted<Expr>,
) -> Result<Typed, Refusal>
    ensures { Gives result (Good (selects.element_typed (around_in around.now) at bounds ty a is_steady i)) }
{
    let base = element_base(alloc, bounds, &a.code.value, &i.value)?;
    let whole = ty.copy(alloc)?;
    let plain = around.numbers.plain_of(&ty);
    let Typed {
        ty: _,
        at: name,
        code,
        is_constant: _,
        target,
    } = a;
    let target = element_target(alloc, base, whole, is_steady, at, target)?;
    let code = element_code(alloc, bounds, plain, code, i)?;
    Ok(Typed {
        ty,
        at: name,
        code,
        is_constant: false,
        target,
    })
}

/// An item or an element.
fn item_selected(
    alloc: Global,
    around: &Around,
    at: Place,
    a: Typed,
    is_steady: bool,
    i: Hoisted<Expr>,
) -> Result<Typed, Refusal>
    ensures { Gives result (Good (selects.item_selected (around_in around.now) at a a.ty is_steady i)) }
{
    match &a.ty {
        Ty::Fixed(bounds, element) => {
            let bounds = *bounds;
            let ty = element.as_type(alloc)?;
            element_typed(alloc, around, at, bounds, ty, a, is_steady, i)
        }
        _ => item_typed(alloc, around, at, a, is_steady, i),
    }
}

/// E17, E42: an item or an element by an index that breaks no rule before.
fn array_item(
    alloc: Global,
    around: &Around,
    at: Place,
    a: Typed,
    i: Typed,
) -> Result<Typed, Refusal>
    ensures { Gives result (parts.array_item (around_in around.now) at a i) }
{
    let is_steady = i.is_constant;
    match index_for(alloc, around, &a.ty, at, i) {
        Ok(index) => item_selected(alloc, around, at, a, is_steady, index),
        Err(e) => Err(e),
    }
}

/// E51: what is printed later names no item.
fn lasts(around: &Around, a: &Typed) -> Result<(), Refusal>
    ensures { Gives result (parts.lasts (around_in around.now) a.now) }
{
    rule(51, a.at, around.is_printed_later && a.ty.is_container())
}

/// E17, E42, E51: an item or an element.
pub(crate) fn array_select(
    alloc: Global,
    around: &Around,
    at: Place,
    a: Typed,
    i: Result<Typed, Refusal>,
) -> Result<Typed, Refusal>
    ensures { (x : checked typed) → Gives i x
        → Gives result ((x where_also parts.lasts (around_in around.now) a) ▷ parts.array_item (around_in around.now) at a) }
{
    let later = lasts(around, &a);
    match guarded(i, later) {
        Ok(i) => array_item(alloc, around, at, a, i),
        Err(e) => Err(e),
    }
}
