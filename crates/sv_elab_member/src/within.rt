// What is seen in a class: its members, those of its bases, and what is around it (IEEE 1800-2017, 8.13 and 23.9).
ghost use Rattle.std.specs.Prelude.{◌≡◌, ◌++◌, map, IfOk, OnOk};
ghost use Rattle.sv_names.specs.Groups as groups;
ghost use Rattle.sv_names.specs.Views.{around_in};
ghost use Rattle.sv_elab_member.specs.Within.{within_class};

use std::alloc::Global;
use sv_names::{Around, ClassInfo, Scope, line_of};
use sv_value::{NoMemory, Text};

/// Appends the scopes of classes.
#[tactic(auto, using(std::proofs::lemmas::List::map_push))]
fn push_scopes<'a>(classes: &[&'a ClassInfo], scopes: &mut Vec<&'a Scope>) -> Result<(), NoMemory>
    ensures { OnOk result (map (λ s. s.now) scopes.new.items
        ≡ map (λ s. s.now) scopes.old.items ++ map (λ k. k.scope) (map (λ k. k.now) classes.now)) }
{
    for class in classes {
        let class: &'a ClassInfo = *class;
        scopes.push(&class.scope)?;
    }
    Ok(())
}

/// The scopes that are seen in a class: its own, those of its bases, and those around it.
pub fn scopes_in_class<'a>(
    alloc: Global,
    around: &Around<'a>,
    class: &[Text],
) -> Result<Vec<&'a Scope>, NoMemory>
    ensures { IfOk result (λ ss. map (λ s. s.now) ss.items
        ≡ (groups.in_class class.now (around_in around.now)).scopes) }
{
    let line = line_of(alloc, around.classes, class)?;
    let mut scopes = Vec::new(alloc);
    push_scopes(line.as_slice(), &mut scopes)?;
    scopes.extend_from_slice(around.scopes)?;
    Ok(scopes)
}

/// In a class that sees these scopes.
pub fn within_class<'a>(
    around: &Around<'a>,
    class: &'a [Text],
    scopes: &'a [&'a Scope],
) -> Around<'a>
    ensures { around_in result ≡ within_class class.entry.now (map (λ s. s.now) scopes.entry.now) (around_in around.now) }
{
    Around {
        scopes,
        class: Some(class),
        is_automatic: true,
        ..*around
    }
}
