// What is seen in a class, and in the initializers of its properties (IEEE 1800-2017, 8.7, 8.11 and 8.13).
ghost use Rattle.std.specs.Prelude.{◌≡◌, ◌∷◌, ◌++◌, map, IfOk, OnOk};
ghost use Rattle.sv_names.specs.Groups as groups;
ghost use Rattle.sv_names.specs.Subroutines as subroutines;
ghost use Rattle.sv_names.specs.Views.{around_in};
ghost use Rattle.sv_elab_met.specs.Met as words;

use std::alloc::Global;
use sv_elab_act::constructor_path;
use sv_elab_declare::this_name;
use sv_names::{
    Around, Checked, ClassInfo, Declarations, Kind, Known, Named, Scope, Ty, copy_path, line_of,
};
use sv_value::{NoMemory, Place, Seq, Text};

/// Appends the scopes of classes.
#[tactic(auto, using(std::proofs::lemmas::List::map_push))]
fn push_scopes<'a>(classes: &[&'a ClassInfo], scopes: &mut Vec<&'a Scope>) -> Result<(), NoMemory>
    ensures { OnOk result (map (λ s. s.now) scopes.new.items
        ≡ map (λ s. s.now) scopes.old.items ++ map (λ k. k.scope) (map (λ k. k.now) classes.now)) }
{
    for class in classes {
        let class: &'a ClassInfo = *class;
        scopes.push(&class.scope)?;
    }
    Ok(())
}

/// The scopes that are seen in a class: its own, those of its bases, and those around it.
pub(crate) fn scopes_in_class<'a>(
    alloc: Global,
    around: &Around<'a>,
    class: &[Text],
) -> Result<Vec<&'a Scope>, NoMemory>
    ensures { IfOk result (λ ss. map (λ s. s.now) ss.items
        ≡ (groups.in_class class.now (around_in around.now)).scopes) }
{
    let line = line_of(alloc, around.classes, class)?;
    let mut scopes = Vec::new(alloc);
    push_scopes(line.as_slice(), &mut scopes)?;
    scopes.extend_from_slice(around.scopes)?;
    Ok(scopes)
}

/// In a class, with the scopes that are seen there.
pub(crate) fn in_class<'a>(
    around: &Around<'a>,
    class: &'a [Text],
    scopes: &'a [&'a Scope],
) -> Around<'a>
    ensures { map (λ s. s.now) scopes.entry.now ≡ (groups.in_class class.entry.now (around_in around.now)).scopes
        → around_in result ≡ groups.in_class class.entry.now (around_in around.now) }
{
    Around {
        scopes,
        class: Some(class),
        is_automatic: true,
        ..*around
    }
}

/// A scope in front of others.
pub(crate) fn with_scope<'a>(
    alloc: Global,
    scope: &'a Scope,
    around: &[&'a Scope],
) -> Result<Vec<&'a Scope>, NoMemory>
    ensures { IfOk result (λ ss. map (λ s. s.now) ss.items ≡ scope.now ∷ map (λ s. s.now) around.now) }
{
    let mut scopes = Vec::new(alloc);
    scopes.push(scope)?;
    scopes.extend_from_slice(around)?;
    Ok(scopes)
}

/// The object of a constructor, by its name.
fn this_known(alloc: Global, class: &[Text], at: Place) -> Result<Known, NoMemory>
    ensures { IfOk result (λ k. k ≡ words.this_known class.now at) }
{
    let name = this_name(alloc, at)?;
    let ty = Ty::Class(copy_path(alloc, class)?);
    Ok(Known {
        name,
        kind: Kind::Object,
        value: Checked::Good(Named::Local {
            up: 0,
            place: 0,
            ty,
        }),
    })
}

/// The scope of the constructor of a class that knows the object alone.
pub(crate) fn properties_scope(alloc: Global, class: &[Text], at: Place) -> Result<Scope, NoMemory>
    ensures { IfOk result (λ s. s ≡ subroutines.this_scope (subroutines.constructor_path class.now) class.now at) }
{
    let this = this_known(alloc, class, at)?;
    let mut list = Seq::new(alloc);
    list.push(this)?;
    let known = Declarations::new(alloc, list)?;
    let path = constructor_path(alloc, class)?;
    let class = copy_path(alloc, class)?;
    Ok(Scope {
        path,
        class: Some(class),
        enters: true,
        known,
    })
}
