// The classes that a unit or the files declare, with the bases that are written (IEEE 1800-2017, 8.3 and 8.13).
ghost use Rattle.std.specs.Prelude.{◌≡◌, ◌++◌, ◌∷◌, [], map, IfOk, OnOk};
ghost use Rattle.sv_tree.specs.UnitView.{class, item, description};
ghost use Rattle.sv_names.specs.Groups as groups;
ghost use Rattle.sv_names.specs.Instances as instances;
ghost use Rattle.sv_elab_scope.specs.Views.{entry_in};
ghost use Rattle.sv_elab_class.specs.Heads as heads;

use crate::bases::{base_stands, raw_base};
use std::alloc::Global;
use sv_elab_scope::Entry;
use sv_names::{Checked, Path, copy_path};
use sv_tree::{Class, Description, Item, Name};
use sv_value::{NoMemory, Seq, Text};

/// A class as it is written, with the base that its name stands for.
#[derive(Drop)]
pub struct ClassHead<'a> {
    /// Its name from the root.
    pub path: Path,
    /// What is written.
    pub tree: &'a Class,
    /// The class that it extends, also where it extends itself.
    pub raw: Option<Path>,
    /// What the name of the base breaks.
    pub stands: Checked<()>,
}

/// A name in the scope with this path.
fn within(alloc: Global, path: &[Text], name: &Name) -> Result<Path, NoMemory>
    ensures { IfOk result (λ p. p ≡ path.now ++ name.now.text ∷ []) }
{
    let mut whole = copy_path(alloc, path)?;
    let mut text = Text::new(alloc);
    text.push_all(name.text.bytes())?;
    whole.push(text)?;
    Ok(whole)
}

/// A class with its base.
fn head_of<'a, 'e>(
    alloc: Global,
    path: &[Text],
    own: &[Entry<'e>],
    outer: &[Entry<'e>],
    tree: &'a Class,
) -> Result<ClassHead<'a>, NoMemory>
    ensures { IfOk result (λ h. heads.head_in h ≡ heads.head_of path.now (map entry_in own.now) (map entry_in outer.now) (class tree.now)) }
{
    let path = within(alloc, path, &tree.name)?;
    let raw = raw_base(alloc, own, outer, &tree.base)?;
    Ok(ClassHead {
        path,
        tree,
        raw,
        stands: base_stands(own, outer, &tree.base),
    })
}

/// Appends the class that an item declares.
#[tactic(auto, using(crate::proofs::HeadLaws::pushed_head, crate::proofs::HeadLaws::no_head))]
fn add_head<'a, 'e>(
    alloc: Global,
    path: &[Text],
    own: &[Entry<'e>],
    outer: &[Entry<'e>],
    one: &'a Item,
    list: &mut Seq<ClassHead<'a>>,
) -> Result<(), NoMemory>
    ensures { OnOk result (map heads.head_in list.new ≡ map heads.head_in list.old
        ++ heads.head_if path.now (map entry_in own.now) (map entry_in outer.now) (item one.now)) }
{
    match one {
        Item::Class(tree) => {
            let head = head_of(alloc, path, own, outer, tree)?;
            list.push(head)
        }
        _ => Ok(()),
    }
}

/// Appends the classes that the items of a unit with this path declare.
#[tactic(auto, using(crate::proofs::HeadLaws::turn_head))]
pub fn add_heads<'a, 'e>(
    alloc: Global,
    path: &[Text],
    own: &[Entry<'e>],
    outer: &[Entry<'e>],
    items: &'a [Item],
    list: &mut Seq<ClassHead<'a>>,
) -> Result<(), NoMemory>
    ensures { OnOk result (map heads.head_in list.new ≡ map heads.head_in list.old
        ++ groups.heads_of path.now (map entry_in own.now) (map entry_in outer.now) (map item items.now)) }
{
    let mut left = items;
    while let [one, rest @ ..] = left {
        add_head(alloc, path, own, outer, one, list)?;
        left = rest;
    }
    Ok(())
}

/// Appends the classes that files declare outside units.
#[tactic(auto, using(crate::proofs::HeadLaws::turn_description))]
pub fn file_heads<'a>(
    alloc: Global,
    own: &[Entry],
    all: &'a [Description],
    list: &mut Seq<ClassHead<'a>>,
) -> Result<(), NoMemory>
    ensures { OnOk result (map heads.head_in list.new ≡ map heads.head_in list.old
        ++ groups.heads_of [] (map entry_in own.now) [] (instances.outside (map description all.now))) }
{
    let mut left = all;
    while let [one, rest @ ..] = left {
        add_outside(alloc, own, one, list)?;
        left = rest;
    }
    Ok(())
}

/// Appends the class that a description declares outside units.
#[tactic(auto, using(crate::proofs::HeadLaws::no_head))]
fn add_outside<'a>(
    alloc: Global,
    own: &[Entry],
    one: &'a Description,
    list: &mut Seq<ClassHead<'a>>,
) -> Result<(), NoMemory>
    ensures { OnOk result (map heads.head_in list.new ≡ map heads.head_in list.old
        ++ heads.head_outside (map entry_in own.now) (description one.now)) }
{
    match one {
        Description::Module(_) => Ok(()),
        Description::Program(_) => Ok(()),
        Description::Item(item) => add_head(alloc, &[], own, &[], item, list),
    }
}
