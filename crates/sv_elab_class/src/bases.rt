// The base of a class, as its name stands among the declarations of a unit and of the files (IEEE 1800-2017, 8.13): E6, E33.
ghost use Rattle.std.specs.Prelude.{◌≡◌, map, option_map, IfOk};
ghost use Rattle.sv_names.specs.Groups as groups;
ghost use Rattle.sv_elab_scope.specs.Views.{entry_in};
ghost use Rattle.sv_elab_class.specs.Heads as heads;

use std::alloc::Global;
use sv_elab_scope::{Declared, Entry};
use sv_names::{Checked, Fault, Path, copy_path, same_bytes};
use sv_tree::Name;
use sv_value::{NoMemory, Text};

/// What a name is declared as.
#[derive(Clone, Copy)]
pub enum Base<'a> {
    /// A class, in the scope with this path.
    Class(&'a [Text], &'a Name),
    /// Anything else.
    NoClass,
}

/// What a declaration of this name declares; announcements tell nothing.
fn class_of_entry<'a>(name: &[u8], entry: &Entry<'a>) -> Option<Base<'a>>
    ensures { option_map heads.base_in result ≡ groups.class_of_entry name.now (entry_in entry.now) }
{
    if !same_bytes(name, entry.name.text.bytes()) {
        return None;
    }
    match &entry.what {
        Declared::Announcement => None,
        Declared::Class(path, name) => Some(Base::Class(*path, *name)),
        _ => Some(Base::NoClass),
    }
}

/// What the first declaration of a name declares.
fn class_among<'a>(name: &[u8], entries: &[Entry<'a>]) -> Option<Base<'a>>
    ensures { option_map heads.base_in result ≡ groups.class_among name.now (map entry_in entries.now) }
{
    for entry in entries {
        match class_of_entry(name, entry) {
            Some(base) => return Some(base),
            None => {}
        }
    }
    None
}

/// What the name of a base is declared as, in the scope itself or around it.
fn base_among<'a>(name: &Name, own: &[Entry<'a>], outer: &[Entry<'a>]) -> Option<Base<'a>>
    ensures { option_map heads.base_in result
        ≡ heads.base_among name.now.text (map entry_in own.now) (map entry_in outer.now) }
{
    match class_among(name.text.bytes(), own) {
        Some(base) => Some(base),
        None => class_among(name.text.bytes(), outer),
    }
}

/// A class by its path, in memory of its own.
fn path_of(alloc: Global, base: Option<Base>) -> Result<Option<Path>, NoMemory>
    ensures { IfOk result (λ p. p ≡ heads.path_of (option_map heads.base_in base.entry)) }
{
    match base {
        Some(Base::Class(path, name)) => {
            let mut whole = copy_path(alloc, path)?;
            let mut text = Text::new(alloc);
            text.push_all(name.text.bytes())?;
            whole.push(text)?;
            Ok(Some(whole))
        }
        _ => Ok(None),
    }
}

/// The class that the name of a base stands for.
pub fn raw_base<'a>(
    alloc: Global,
    own: &[Entry<'a>],
    outer: &[Entry<'a>],
    base: &Option<Name>,
) -> Result<Option<Path>, NoMemory>
    ensures { IfOk result (λ p. p ≡ groups.raw_base (map entry_in own.now) (map entry_in outer.now) base.now) }
{
    match base {
        None => Ok(None),
        Some(name) => path_of(alloc, base_among(name, own, outer)),
    }
}

/// E6, E33: a class extends a class.
pub fn base_stands<'a>(own: &[Entry<'a>], outer: &[Entry<'a>], base: &Option<Name>) -> Checked<()>
    ensures { result ≡ groups.base_stands (map entry_in own.now) (map entry_in outer.now) base.now }
{
    match base {
        None => Checked::Good(()),
        Some(name) => match base_among(name, own, outer) {
            None => Checked::Broken(Fault {
                at: name.at,
                rule: 6,
            }),
            Some(Base::NoClass) => Checked::Broken(Fault {
                at: name.at,
                rule: 33,
            }),
            Some(Base::Class(_, _)) => Checked::Good(()),
        },
    }
}
