// What the files declare outside units, and what is seen there (IEEE 1800-2017, 3.12.1).
ghost use Rattle.std.specs.Prelude.{◌≡◌, ◌∷◌, ◌++◌, [], IfOk, OnOk, map};
ghost use Rattle.sv_tree.specs.UnitView.{description};
ghost use Rattle.sv_elab_whole.specs.Walks as words;
ghost use Rattle.sv_names.specs.Instances as instances;
ghost use Rattle.sv_names.specs.Views.{around_in, numbers_in};
ghost use Rattle.sv_elab_scope.specs.Rows.{group_in};
ghost use Rattle.sv_names.specs.declared.around.Dollar.TheVariants.{NoDollar};
ghost use Rattle.sv_names.specs.declared.around.Returns.TheVariants.{Outside};

use std::alloc::Global;
use sv_elab_class::file_heads;
use sv_elab_declare::add_files;
use sv_elab_scope::Group;
use sv_elab_walk::sv_elab_head::settled_unit;
use sv_flat::Scale;
use sv_names::{Around, ClassInfo, Dollar, Numbers, Returns, Scope};
use sv_tree::Description;
use sv_value::{NoMemory, Seq};

/// Before any scope.
pub fn nowhere<'a>(
    numbers: &'a Numbers,
    scale: Scale,
    dollar: &'a Dollar,
    returns: &'a Returns,
) -> Around<'a>
    ensures { dollar.now ≡ NoDollar → returns.now ≡ Outside
        → around_in result ≡ instances.nowhere_around (numbers_in numbers.now) scale }
{
    Around {
        numbers,
        scale,
        scopes: &[],
        classes: &[],
        unit: &[],
        is_program: false,
        subroutine: None,
        class: None,
        has_object: false,
        is_automatic: false,
        call_rule: None,
        may_not_wait: false,
        is_comb: false,
        clocked: None,
        dollar,
        is_loop: false,
        returns,
        default_clocking: None,
        is_initial: false,
        takes_events: false,
        is_printed_later: false,
        blocks: 0,
        up: 0,
        first: 0,
    }
}

/// The scope of the files with its classes, where nothing stands around them.
pub fn file_group(alloc: Global, around: &Around, units: &[Description]) -> Result<Group, NoMemory>
    ensures { IfOk result (λ g. group_in g ≡ words.settled_files (around_in around.now) (map description units.now)) }
{
    let mut names = Seq::new(alloc);
    add_files(alloc, units, &mut names)?;
    let mut heads = Seq::new(alloc);
    file_heads(alloc, names.as_slice(), units, &mut heads)?;
    settled_unit(alloc, around, &[], names, heads.as_slice())
}

/// Appends the classes of a unit, or of the files.
#[tactic(auto, using(crate::proofs::FileLaws::turn_class, crate::proofs::FileLaws::all_classes))]
pub(crate) fn add_classes<'a>(
    group: &'a Group,
    list: &mut Vec<&'a ClassInfo>,
) -> Result<(), NoMemory>
    ensures { OnOk result (map (λ k. k.now) list.new.items ≡ map (λ k. k.now) list.old.items ++ (group_in group.now).classes) }
{
    let mut left = group.classes.as_slice();
    while let [one, rest @ ..] = left {
        list.push(one)?;
        left = rest;
    }
    Ok(())
}

/// The scope of the files, as a reference.
pub fn scopes_of<'a>(alloc: Global, group: &'a Group) -> Result<Vec<&'a Scope>, NoMemory>
    ensures { IfOk result (λ ss. map (λ s. s.now) ss.items ≡ (group_in group.now).scope ∷ []) }
{
    let mut list = Vec::new(alloc);
    list.push(&group.scope)?;
    Ok(list)
}

/// The classes of the files, as references.
pub fn classes_of<'a>(alloc: Global, group: &'a Group) -> Result<Vec<&'a ClassInfo>, NoMemory>
    ensures { IfOk result (λ ks. map (λ k. k.now) ks.items ≡ (group_in group.now).classes) }
{
    let mut list = Vec::new(alloc);
    add_classes(group, &mut list)?;
    Ok(list)
}
