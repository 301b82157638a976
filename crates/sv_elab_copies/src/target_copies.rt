// Targets and typed expressions in memory of their own. The time is linear in their size.
ghost use Rattle.std.specs.Prelude.{◌≡◌, IfOk};

use crate::{copy_code, copy_expr, copy_optional};
use std::alloc::Global;
use sv_flat::{Base, Container, Part};
use sv_names::{AsTarget, Begin, Target, Typed, copy_path};
use sv_value::{NoMemory, Place, Seq};

/// The same bits of a target.
pub fn copy_part(alloc: Global, part: &Option<Part>) -> Result<Option<Part>, NoMemory>
    ensures { IfOk result (λ c. c ≡ part.now) }
{
    match part {
        None => Ok(None),
        Some(part) => {
            let index = copy_expr(alloc, &part.index)?;
            Ok(Some(Part {
                width: part.width,
                offset: part.offset,
                is_falling: part.is_falling,
                index,
            }))
        }
    }
}

/// The same container.
pub(crate) fn copy_container(alloc: Global, container: &Container) -> Result<Container, NoMemory>
    ensures { IfOk result (λ c. c ≡ container.now) }
{
    let holder = copy_expr(alloc, &container.holder)?;
    Ok(Container {
        holder,
        property: container.property,
    })
}

/// The same object, element, variable, property or item.
pub fn copy_base(alloc: Global, base: &Base) -> Result<Base, NoMemory>
    ensures { IfOk result (λ c. c ≡ base.now) }
{
    match base {
        Base::Object(object) => Ok(Base::Object(*object)),
        Base::Driver(object, driver) => Ok(Base::Driver(*object, *driver)),
        Base::Element {
            object,
            bounds,
            index,
        } => {
            let index = copy_expr(alloc, index)?;
            Ok(Base::Element {
                object: *object,
                bounds: *bounds,
                index,
            })
        }
        Base::Local { up, place } => Ok(Base::Local {
            up: *up,
            place: *place,
        }),
        Base::LocalElement {
            up,
            place,
            bounds,
            index,
        } => {
            let index = copy_expr(alloc, index)?;
            Ok(Base::LocalElement {
                up: *up,
                place: *place,
                bounds: *bounds,
                index,
            })
        }
        Base::Field { object, place } => {
            let object = copy_expr(alloc, object)?;
            Ok(Base::Field {
                object,
                place: *place,
            })
        }
        Base::FieldElement {
            object,
            place,
            bounds,
            index,
        } => {
            let object = copy_expr(alloc, object)?;
            let index = copy_expr(alloc, index)?;
            Ok(Base::FieldElement {
                object,
                place: *place,
                bounds: *bounds,
                index,
            })
        }
        Base::Item { container, index } => {
            let container = copy_container(alloc, container)?;
            let index = copy_expr(alloc, index)?;
            Ok(Base::Item { container, index })
        }
    }
}

/// The same beginning of a target, in memory of its own.
fn copy_begin(alloc: Global, begins: &Begin) -> Result<Begin, NoMemory>
    ensures { IfOk result (λ b. b ≡ begins.now) }
{
    match begins {
        Begin::Variable(path) => Ok(Begin::Variable(path.share()?)),
        Begin::Net(path) => Ok(Begin::Net(path.share()?)),
        Begin::Input => Ok(Begin::Input),
        Begin::Parameter => Ok(Begin::Parameter),
        Begin::Item => Ok(Begin::Item),
        Begin::InActivation => Ok(Begin::InActivation),
        Begin::StaticProperty(path) => Ok(Begin::StaticProperty(copy_path(
            alloc,
            path.as_slice(),
        )?)),
        Begin::Result => Ok(Begin::Result),
        Begin::Signal {
            block,
            place,
            is_output,
        } => {
            let block = copy_path(alloc, block.as_slice())?;
            Ok(Begin::Signal {
                block,
                place: *place,
                is_output: *is_output,
            })
        }
        Begin::Object => Ok(Begin::Object),
        Begin::Value => Ok(Begin::Value),
    }
}

/// The same places, in memory of their own.
fn copy_places(alloc: Global, places: &[Place]) -> Result<Seq<Place>, NoMemory>
    ensures { IfOk result (λ ps. ps ≡ places.now) }
{
    let mut copy = Seq::new(alloc);
    for place in places {
        copy.push(*place)?;
    }
    Ok(copy)
}

/// The same target, in memory of its own.
pub fn copy_target(alloc: Global, target: &Target) -> Result<Target, NoMemory>
    ensures { IfOk result (λ t. t ≡ target.now) }
{
    let begins = copy_begin(alloc, &target.begins)?;
    let through = copy_optional(alloc, &target.through)?;
    let base = copy_base(alloc, &target.base)?;
    let part = copy_part(alloc, &target.part)?;
    let whole = target.whole.copy(alloc)?;
    let moving = copy_places(alloc, target.moving.as_slice())?;
    Ok(Target {
        begins,
        through,
        base,
        part,
        whole,
        is_item: target.is_item,
        moving,
    })
}

/// The same as a target, in memory of its own.
fn copy_as_target(alloc: Global, target: &AsTarget) -> Result<AsTarget, NoMemory>
    ensures { IfOk result (λ t. t ≡ target.now) }
{
    match target.get() {
        Some(target) => {
            let copy = copy_target(alloc, target)?;
            AsTarget::new(alloc, copy)
        }
        None => Ok(AsTarget::none()),
    }
}

/// The same expression with its type, in memory of its own.
pub fn copy_typed(alloc: Global, t: &Typed) -> Result<Typed, NoMemory>
    ensures { IfOk result (λ c. c ≡ t.now) }
{
    let ty = t.ty.copy(alloc)?;
    let code = copy_code(alloc, &t.code)?;
    let target = copy_as_target(alloc, &t.target)?;
    Ok(Typed {
        ty,
        at: t.at,
        code,
        is_constant: t.is_constant,
        target,
    })
}
