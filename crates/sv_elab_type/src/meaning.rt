// What declarations stand for, each by itself (IEEE 1800-2017, 6, 7, 8 and 23.2.2).
ghost use Rattle.std.specs.Prelude.{◌≡◌, true, false, IfOk, option_map};
ghost use Rattle.sv_tree.specs.StmtView.{implied as implied_in, range as range_in};
ghost use Rattle.sv_names.specs.declared.checked.Checked.{Checked as checked};
ghost use Rattle.sv_names.specs.declared.named.Named.TheVariants as names;
ghost use Rattle.sv_names.specs.declared.ty.Ty.{Ty as ty};
ghost use Rattle.sv_names.specs.declared.ty.Ty.TheVariants as tys;
ghost use Rattle.sv_names.specs.declared.typed.Typed.{Typed as typed};
ghost use Rattle.sv_names.specs.Checked.{given};
ghost use Rattle.sv_names.specs.Declarations as declarations;
ghost use Rattle.sv_names.specs.Views.{around_in};
ghost use Rattle.sv_names.specs.Given.{Gives};
ghost use Rattle.sv_elab_scope.specs.Views.{entry_in};
ghost use Rattle.sv_elab_type.specs.Meaning as meaning;
ghost use Rattle.sv_elab_type.specs.Meaning.{within as within_path, alone};

use crate::dimensions::declared_type;
use crate::enums::share_name;
use crate::items::item_value;
use crate::parameters::parameter_value;
use crate::types::{implied, type_of};
use crate::vectors::{is_signed, vector_type};
use std::alloc::Global;
use sv_elab_scope::{Declared, Entry, Means, Stage, Storage};
use sv_names::{
    Apart, Around, Checked, Named, Path, Protection, Refusal, SharedPath, Ty, Typed, copy_path,
    judged,
};
use sv_tree::{ImpliedType, Name, Range};
use sv_value::{NoMemory, Text};

// ---- by the type

/// A name in the scope with this path.
fn within(alloc: Global, path: &[Text], name: &Name) -> Result<Path, NoMemory>
    ensures { IfOk result (λ p. p ≡ within_path path.now name.now.text) }
{
    let mut whole = copy_path(alloc, path)?;
    let mut text = Text::new(alloc);
    text.push_all(name.text.bytes())?;
    whole.push(text)?;
    Ok(whole)
}

/// A static variable.
fn variable(
    alloc: Global,
    path: &[Text],
    name: &Name,
    t: Result<Ty, Refusal>,
) -> Result<Named, Refusal>
    ensures { (x : checked ty) → Gives t x → Gives result (given (names.Variable (within_path path.now name.now.text)) x) }
{
    match t {
        Ok(t) => {
            let path = SharedPath::new(alloc, within(alloc, path, name)?)?;
            Ok(Named::Variable(path, t))
        }
        Err(e) => Err(e),
    }
}

/// A net.
fn net(alloc: Global, path: &[Text], name: &Name, t: Result<Ty, Refusal>) -> Result<Named, Refusal>
    ensures { (x : checked ty) → Gives t x → Gives result (given (names.Net (within_path path.now name.now.text)) x) }
{
    match t {
        Ok(t) => {
            let path = SharedPath::new(alloc, within(alloc, path, name)?)?;
            Ok(Named::Net(path, t))
        }
        Err(e) => Err(e),
    }
}

/// A variable of an activation.
fn local(t: Result<Ty, Refusal>) -> Result<Named, Refusal>
    ensures { (x : checked ty) → Gives t x → Gives result (given (names.Local 0 0) x) }
{
    match t {
        Ok(ty) => Ok(Named::Local {
            up: 0,
            place: 0,
            ty,
        }),
        Err(e) => Err(e),
    }
}

/// A property of the objects of a class.
fn property(
    alloc: Global,
    class: &[Text],
    protection: Protection,
    name: &Name,
    t: Result<Ty, Refusal>,
) -> Result<Named, Refusal>
    ensures { (x : checked ty) → Gives t x → Gives result (given (names.Property class.now protection name.now) x) }
{
    match t {
        Ok(ty) => {
            let class = copy_path(alloc, class)?;
            let name = share_name(name)?;
            Ok(Named::Property {
                class,
                protection,
                name,
                ty,
            })
        }
        Err(e) => Err(e),
    }
}

/// A static property of a class.
fn static_property(
    alloc: Global,
    path: &[Text],
    class: &[Text],
    protection: Protection,
    name: &Name,
    t: Result<Ty, Refusal>,
) -> Result<Named, Refusal>
    ensures { (x : checked ty) → Gives t x → Gives result
        (given (names.StaticProperty class.now protection (within_path path.now name.now.text)) x) }
{
    match t {
        Ok(ty) => {
            let class = copy_path(alloc, class)?;
            let object = within(alloc, path, name)?;
            Ok(Named::StaticProperty {
                class,
                protection,
                object,
                ty,
            })
        }
        Err(e) => Err(e),
    }
}

/// A type.
fn type_name(t: Result<Ty, Refusal>) -> Result<Named, Refusal>
    ensures { (x : checked ty) → Gives t x → Gives result (given names.TypeName x) }
{
    match t {
        Ok(t) => Ok(Named::TypeName(t)),
        Err(e) => Err(e),
    }
}

/// A parameter.
fn parameter(alloc: Global, t: Result<Typed, Refusal>) -> Result<Named, Refusal>
    ensures { (x : checked typed) → Gives t x → Gives result (given (λ t. names.Constant t true) x) }
{
    match t {
        Ok(t) => {
            let t = Apart::new(alloc, t)?;
            Ok(Named::Constant(t, true))
        }
        Err(e) => Err(e),
    }
}

/// An item of an enum.
fn item(alloc: Global, t: Result<Typed, Refusal>) -> Result<Named, Refusal>
    ensures { (x : checked typed) → Gives t x → Gives result (given (λ t. names.Constant t false) x) }
{
    match t {
        Ok(t) => {
            let t = Apart::new(alloc, t)?;
            Ok(Named::Constant(t, false))
        }
        Err(e) => Err(e),
    }
}

// ---- arguments and ports

/// A variable of an activation, or an object.
fn of_life(
    alloc: Global,
    path: &[Text],
    name: &Name,
    is_automatic: bool,
    t: Result<Ty, Refusal>,
) -> Result<Named, Refusal>
    ensures { (x : checked ty) → Gives t x
        → Gives result (given (declarations.of_life is_automatic (within_path path.now name.now.text)) x) }
{
    if is_automatic {
        local(t)
    } else {
        variable(alloc, path, name, t)
    }
}

/// Whether a type word or a type name is written.
fn is_written(ty: &ImpliedType) -> bool
    ensures { result ≡ declarations.is_written (implied_in ty.now) }
{
    match ty {
        ImpliedType::Unwritten => false,
        ImpliedType::Vector { .. } => false,
        ImpliedType::Written(_) => true,
    }
}

/// A port that is not four-state is a variable; of the others an input is a net, and an output where no type is written.
fn port_is_net(is_input: bool, is_wire: bool, is_written: bool, t: &Ty) -> bool
    ensures { result ≡ declarations.port_is_net is_input is_wire is_written t.now }
{
    t.is_four_state() && (is_input || is_wire || !is_written)
}

/// What a port of a type stands for in its unit.
fn port_named(path: SharedPath, is_input: bool, is_wire: bool, is_written: bool, ty: Ty) -> Named
    ensures { result ≡ declarations.port_named is_input is_wire is_written path ty }
{
    let is_net = port_is_net(is_input, is_wire, is_written, &ty);
    if is_input {
        return Named::Input { path, is_net, ty };
    }
    if is_net {
        Named::Net(path, ty)
    } else {
        Named::Variable(path, ty)
    }
}

/// The same, where the type breaks no rule.
fn port(
    alloc: Global,
    path: &[Text],
    name: &Name,
    is_input: bool,
    is_wire: bool,
    is_written: bool,
    t: Result<Ty, Refusal>,
) -> Result<Named, Refusal>
    ensures { (x : checked ty) → Gives t x
        → Gives result (given (declarations.port_named is_input is_wire is_written (within_path path.now name.now.text)) x) }
{
    match t {
        Ok(t) => {
            let path = SharedPath::new(alloc, within(alloc, path, name)?)?;
            Ok(port_named(path, is_input, is_wire, is_written, t))
        }
        Err(e) => Err(e),
    }
}

// ---- the rest

/// A variable, by what holds it.
fn held_by(
    alloc: Global,
    path: &[Text],
    held: Storage,
    name: &Name,
    t: Result<Ty, Refusal>,
) -> Result<Named, Refusal>
    ensures { (x : checked ty) → Gives t x → Gives result (given (meaning.held_by path.now held.entry name.now) x) }
{
    match held {
        Storage::Static => variable(alloc, path, name, t),
        Storage::Activation => local(t),
        Storage::Object(class, protection) => property(alloc, class, protection, name, t),
        Storage::Class(class, protection) => {
            static_property(alloc, path, class, protection, name, t)
        }
    }
}

/// A type that may break a rule, in memory of its own.
fn copy_type(alloc: Global, value: &Checked<Ty>) -> Result<Ty, Refusal>
    ensures { Gives result value.now }
{
    match value {
        Checked::Good(t) => {
            let t = t.copy(alloc)?;
            Ok(t)
        }
        Checked::Broken(f) => Err(f.refusal()),
    }
}

/// A class.
fn class_named(alloc: Global, path: &[Text], name: &Name) -> Result<Named, NoMemory>
    ensures { IfOk result (λ n. n ≡ names.ClassName (within_path path.now name.now.text)) }
{
    let path = within(alloc, path, name)?;
    Ok(Named::ClassName(path))
}

/// An object of a class.
fn object_of(alloc: Global, class: &[Text]) -> Result<Named, NoMemory>
    ensures { IfOk result (λ n. n ≡ names.Local 0 0 (tys.Class class.now)) }
{
    let class = copy_path(alloc, class)?;
    Ok(Named::Local {
        up: 0,
        place: 0,
        ty: Ty::Class(class),
    })
}

/// A range that is written, if one is.
fn some_range(range: &Option<Range>) -> Option<&Range>
    ensures { option_map (λ r. range_in r.now) result ≡ option_map range_in range.now }
{
    match range {
        None => None,
        Some(range) => Some(range),
    }
}

/// What a declaration stands for by itself, in the scope with this path; subroutines and clocking blocks are another matter.
pub fn value_of_entry(
    alloc: Global,
    around: &Around,
    path: &[Text],
    entry: &Entry,
) -> Result<Named, Refusal>
    ensures { Gives result (declarations.value_of_entry (around_in around.now) path.now (entry_in entry.now) (entry_in entry.now).what) }
{
    let name = entry.name;
    match &entry.what {
        Declared::Variable {
            held,
            ty,
            dimension,
        } => {
            let t = declared_type(alloc, around, path, ty, dimension);
            held_by(alloc, path, *held, name, t)
        }
        Declared::Argument(ty, is_automatic) => {
            let t = implied(alloc, around, path, ty);
            of_life(alloc, path, name, *is_automatic, t)
        }
        Declared::Given(t) => local(copy_type(alloc, t)),
        Declared::Net(sign, range) => {
            let t = vector_type(
                alloc,
                around,
                is_signed(false, *sign),
                true,
                some_range(range),
            );
            net(alloc, path, name, t)
        }
        Declared::Port {
            is_input,
            is_wire,
            ty,
        } => {
            let t = implied(alloc, around, path, ty);
            port(alloc, path, name, *is_input, *is_wire, is_written(ty), t)
        }
        Declared::Parameter(ty, source) => {
            let t = parameter_value(alloc, around, path, ty, *source);
            parameter(alloc, t)
        }
        Declared::Type(ty) => type_name(type_of(alloc, around, path, ty)),
        Declared::Item { ty, value, steps } => {
            let t = item_value(alloc, around, path, name, ty, *value, *steps);
            item(alloc, t)
        }
        Declared::Class(path, name) => {
            let class = class_named(alloc, path, name)?;
            Ok(class)
        }
        Declared::ObjectOf(class) => {
            let object = object_of(alloc, class)?;
            Ok(object)
        }
        _ => Ok(Named::Other),
    }
}

/// Declarations that stand for what they are by themselves.
pub struct Alone;

impl Means for Alone {
    ghost meant = { alone };

    fn value(
        alloc: Global,
        _stage: Stage,
        around: &Around,
        path: &[Text],
        entry: &Entry,
    ) -> Result<Checked<Named>, NoMemory> {
        match judged(value_of_entry(alloc, around, path, entry)) {
            Ok(value) => Ok(value),
            Err(_) => Err(NoMemory::Memory),
        }
    }
}
