// What is seen in an instance (IEEE 1800-2017, 23.9).
ghost use Rattle.std.specs.Prelude.{◌≡◌, List, IfOk, OnOk, map, ◌++◌};
ghost use Rattle.sv_tree.specs.Descriptions as tree;
ghost use Rattle.sv_names.specs.Instances as instances;
ghost use Rattle.sv_names.specs.Views.{around_in};
ghost use Rattle.sv_elab_scope.specs.Rows.{group_in};
ghost use Rattle.sv_elab_unit.specs.Definitions.{definition_in};
ghost use Rattle.sv_elab_walk.specs.Seeing.{Sees};

use std::alloc::Global;
use sv_elab_declare::is_automatic;
use sv_elab_scope::Group;
use sv_elab_signal::with_scope;
use sv_elab_unit::Definition;
use sv_names::{Around, ClassInfo, Scope};
use sv_value::{NoMemory, Text};

/// The scopes and the classes that are seen in an instance.
#[derive(Drop)]
pub struct Seen<'a> {
    /// The scopes, from the nearest one outward.
    pub scopes: Vec<&'a Scope>,
    /// The classes that can be named.
    pub classes: Vec<&'a ClassInfo>,
}

/// Appends classes.
#[tactic(auto, using(std::proofs::lemmas::List::map_push))]
fn push_classes<'a>(own: &'a [ClassInfo], classes: &mut Vec<&'a ClassInfo>) -> Result<(), NoMemory>
    ensures { OnOk result (map (λ k. k.now) classes.new.items ≡ map (λ k. k.now) classes.old.items ++ own.now) }
{
    for class in own {
        classes.push(class)?;
    }
    Ok(())
}

/// What is seen in an instance with this scope and these classes.
pub fn seen_in<'a>(
    alloc: Global,
    files: &Around<'a>,
    group: &'a Group,
) -> Result<Seen<'a>, NoMemory>
    ensures { IfOk result (λ s. Sees s (around_in files.now) (group_in group.now)) }
{
    let scopes = with_scope(alloc, &group.scope, files.scopes)?;
    let mut classes = Vec::new(alloc);
    classes.extend_from_slice(files.classes)?;
    push_classes(group.classes.as_slice(), &mut classes)?;
    Ok(Seen { scopes, classes })
}

/// What stands around a unit.
pub fn around_unit<'a>(files: &Around<'a>, unit: Definition, path: &'a [Text]) -> Around<'a>
    ensures { (units : List tree.Description) → around_in result
        ≡ instances.around_unit units (around_in files.now) (definition_in unit.entry) path.now }
{
    Around {
        unit: path,
        is_program: unit.is_program,
        is_automatic: is_automatic(false, unit.element.life),
        ..*files
    }
}
