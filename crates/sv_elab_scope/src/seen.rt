// What is seen within a scope of a group, and within one of its classes (IEEE 1800-2017, 8.13 and 23.9).
ghost use Rattle.std.specs.Prelude.{◌≡◌, ◌∷◌, ◌++◌, map, IfOk, OnOk};
ghost use Rattle.sv_names.specs.Groups as groups;
ghost use Rattle.sv_names.specs.Views.{around_in};

use std::alloc::Global;
use sv_names::{Around, ClassInfo, Scope, line_of};
use sv_value::{NoMemory, Text};

/// Appends the scopes of classes.
#[tactic(auto, using(std::proofs::lemmas::List::map_push))]
fn push_scopes<'a>(classes: &[&'a ClassInfo], scopes: &mut Vec<&'a Scope>) -> Result<(), NoMemory>
    ensures { OnOk result (map (λ s. s.now) scopes.new.items
        ≡ map (λ s. s.now) scopes.old.items ++ map (λ k. k.scope) (map (λ k. k.now) classes.now)) }
{
    for class in classes {
        let class: &'a ClassInfo = *class;
        scopes.push(&class.scope)?;
    }
    Ok(())
}

/// The scopes that are seen in a class: its own, those of its bases, and those around it.
pub fn scopes_in_class<'a>(
    alloc: Global,
    around: &Around<'a>,
    class: &[Text],
) -> Result<Vec<&'a Scope>, NoMemory>
    ensures { IfOk result (λ ss. map (λ s. s.now) ss.items
        ≡ (groups.in_class class.now (around_in around.now)).scopes) }
{
    let line = line_of(alloc, around.classes, class)?;
    let mut scopes = Vec::new(alloc);
    push_scopes(line.as_slice(), &mut scopes)?;
    scopes.extend_from_slice(around.scopes)?;
    Ok(scopes)
}

/// A scope in front of others.
pub fn with_scope<'a>(
    alloc: Global,
    scope: &'a Scope,
    around: &[&'a Scope],
) -> Result<Vec<&'a Scope>, NoMemory>
    ensures { IfOk result (λ ss. map (λ s. s.now) ss.items ≡ scope.now ∷ map (λ s. s.now) around.now) }
{
    let mut scopes = Vec::new(alloc);
    scopes.push(scope)?;
    scopes.extend_from_slice(around)?;
    Ok(scopes)
}

/// Appends the classes of a group.
#[tactic(auto, using(std::proofs::lemmas::List::map_push))]
fn push_classes<'a>(own: &'a [ClassInfo], classes: &mut Vec<&'a ClassInfo>) -> Result<(), NoMemory>
    ensures { OnOk result (map (λ k. k.now) classes.new.items ≡ map (λ k. k.now) classes.old.items ++ own.now) }
{
    for class in own {
        classes.push(class)?;
    }
    Ok(())
}

/// Classes, and those of a group behind them.
pub fn with_classes<'a>(
    alloc: Global,
    around: &[&'a ClassInfo],
    own: &'a [ClassInfo],
) -> Result<Vec<&'a ClassInfo>, NoMemory>
    ensures { IfOk result (λ ks. map (λ k. k.now) ks.items ≡ map (λ k. k.now) around.now ++ own.now) }
{
    let mut classes = Vec::new(alloc);
    classes.extend_from_slice(around)?;
    push_classes(own, &mut classes)?;
    Ok(classes)
}
