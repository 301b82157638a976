// Enums, and what is seen in their bases (IEEE 1800-2017, 6.19): E7.
ghost use Rattle.std.specs.Prelude.{◌≡◌, ◌∷◌, true, false, map, IfOk};
ghost use Rattle.sv_tree.specs.StmtView.{enum_item};
ghost use Rattle.sv_names.specs.declared.checked.Checked.{Checked as checked};
ghost use Rattle.sv_names.specs.declared.checked.Checked.TheVariants.{Good};
ghost use Rattle.sv_names.specs.declared.ty.Ty.{Ty as ty};
ghost use Rattle.sv_names.specs.declared.ty.Ty.TheVariants as tys;
ghost use Rattle.sv_names.specs.Checked.{◌▷◌};
ghost use Rattle.sv_names.specs.Declarations as declarations;
ghost use Rattle.sv_names.specs.Types as types;
ghost use Rattle.sv_names.specs.Given.{Gives};
ghost use Rattle.sv_elab_type.specs.Waiting as waiting;

use std::alloc::Global;
use sv_flat::Bounds;
use sv_names::{
    Checked, Declarations, Fault, Kind, Known, Refusal, Scope, SharedPath, Ty, copy_path, whole,
};
use sv_tree::{EnumItem, Name};
use sv_value::{Integral, NoMemory, Place, Seq, Text};

/// The same name.
pub(crate) fn share_name(name: &Name) -> Result<Name, NoMemory>
    ensures { IfOk result (λ n. n ≡ name.now) }
{
    let text = name.text.share()?;
    Ok(Name { at: name.at, text })
}

/// An item that has no value yet.
fn waiting_item(item: &EnumItem) -> Result<Known, NoMemory>
    ensures { IfOk result (λ k. k ≡ waiting.waiting_item (enum_item item.now)) }
{
    let name = share_name(&item.name)?;
    let nowhere = Place {
        file: 0,
        line: 0,
        col: 0,
    };
    Ok(Known {
        name,
        kind: Kind::Parameter,
        value: Checked::Broken(Fault {
            at: nowhere,
            rule: 7,
        }),
    })
}

/// The items of an enum, which have no values yet.
fn waiting_items(alloc: Global, items: &[EnumItem]) -> Result<Declarations, NoMemory>
    ensures { IfOk result (λ ks. ks ≡ waiting.waiting_items (map enum_item items.now)) }
{
    let mut known = Seq::new(alloc);
    for item in items {
        let one = waiting_item(item)?;
        known.push(one)?;
    }
    let known = Declarations::new(alloc, known)?;
    Ok(known)
}

/// The scope in which the base of an enum stands.
pub(crate) fn waiting_scope(
    alloc: Global,
    path: &[Text],
    items: &[EnumItem],
) -> Result<Scope, NoMemory>
    ensures { IfOk result (λ s. s ≡ waiting.waiting_scope path.now (map enum_item items.now)) }
{
    let path = copy_path(alloc, path)?;
    let known = waiting_items(alloc, items)?;
    Ok(Scope {
        path,
        class: None,
        enters: false,
        known,
    })
}

/// A scope in front of others.
pub(crate) fn with_scope<'a>(
    alloc: Global,
    scope: &'a Scope,
    around: &[&'a Scope],
) -> Result<Vec<&'a Scope>, NoMemory>
    ensures { IfOk result (λ ss. map (λ s. s.now) ss.items ≡ scope.now ∷ map (λ s. s.now) around.now) }
{
    let mut scopes = Vec::new(alloc);
    scopes.push(scope)?;
    scopes.extend_from_slice(around)?;
    Ok(scopes)
}

/// The bounds by which the bits of an enum are selected.
fn bounds_or_whole(bounds: Option<Bounds>, width: u32) -> Option<Bounds>
    ensures { result ≡ waiting.bounds_or_whole bounds width }
{
    match bounds {
        None => whole(width),
        Some(bounds) => Some(bounds),
    }
}

/// E7: an enum over a base, which is integral and no enum.
fn enum_on(alloc: Global, path: &[Text], at: Place, place: Place, base: &Ty) -> Result<Ty, Refusal>
    ensures { Gives result (declarations.enum_on path.now at place base.now) }
{
    match base {
        Ty::Vector {
            integral,
            bounds,
            is_written,
        } => {
            let scope = SharedPath::new(alloc, copy_path(alloc, path)?)?;
            Ok(Ty::Enum {
                scope,
                at,
                integral: *integral,
                bounds: bounds_or_whole(*bounds, integral.width),
                is_written: *is_written,
            })
        }
        _ => Err(Refusal::Rule { rule: 7, at: place }),
    }
}

/// An enum over a base, where that breaks no rule before.
pub(crate) fn enum_over(
    alloc: Global,
    path: &[Text],
    at: Place,
    place: Place,
    base: Result<Ty, Refusal>,
) -> Result<Ty, Refusal>
    ensures { (x : checked ty) → Gives base x → Gives result (x ▷ declarations.enum_on path.now at place) }
{
    match base {
        Ok(t) => enum_on(alloc, path, at, place, &t),
        Err(e) => Err(e),
    }
}

/// An enum without a base that is written.
pub(crate) fn plain_enum(alloc: Global, path: &[Text], at: Place) -> Result<Ty, Refusal>
    ensures { Gives result (Good (tys.Enum path.now at (types.integral 32 true false) (types.whole 32) false)) }
{
    let scope = SharedPath::new(alloc, copy_path(alloc, path)?)?;
    let integral = Integral {
        width: 32,
        signed: true,
        four_state: false,
    };
    Ok(Ty::Enum {
        scope,
        at,
        integral,
        bounds: whole(32),
        is_written: false,
    })
}
