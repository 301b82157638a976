// The rules on a class by itself (IEEE 1800-2017, 8.20, 8.21, 8.27 and 23.9): E5, E34, E35, E56, E58, and the rules of each declaration.
ghost use Rattle.std.specs.Prelude.{◌≡◌, Some, map, IfOk};
ghost use Rattle.sv_tree.specs.UnitView.{class as class_in};
ghost use Rattle.sv_names.specs.Blocks as blocks;
ghost use Rattle.sv_names.specs.Checked as rules;
ghost use Rattle.sv_names.specs.Classes as classes;
ghost use Rattle.sv_names.specs.Entries as entries;
ghost use Rattle.sv_names.specs.Given.{Gives};
ghost use Rattle.sv_names.specs.Views.{around_in};
ghost use Rattle.sv_elab_scope.specs.Views.{entry_in};
ghost use Rattle.sv_elab_declare.specs.Alone.{class_in as class_path};
ghost use Rattle.sv_elab_member.specs.Stands as words;

use std::alloc::Global;
use sv_elab_class::{announcements_stand, overrides_stand, some_left_pure};
use sv_elab_declare::add_class;
use sv_elab_object::known_stand;
use sv_elab_scope::{Entry, twice};
use sv_elab_value::rule;
use sv_names::{Around, ClassInfo, Path, Refusal, answer, same_bytes, where_also};
use sv_tree::{Class, Name};
use sv_value::{NoMemory, Seq, Text};

/// E5: an end label repeats the name.
fn label_stands(name: &Name, end: &Option<Name>) -> Result<(), Refusal>
    ensures { Gives result (blocks.end_label (Some name.now) end.now) }
{
    match end {
        None => Ok(()),
        Some(end) => rule(5, end.at, !same_bytes(name.text.bytes(), end.text.bytes())),
    }
}

/// What a class declares itself.
fn class_names<'a>(
    alloc: Global,
    path: &'a [Text],
    of: &'a Class,
) -> Result<Seq<Entry<'a>>, NoMemory>
    ensures { IfOk result (λ ns. map entry_in ns ≡ entries.class_entries path.now (class_in of.now)) }
{
    let mut names = Seq::new(alloc);
    add_class(alloc, path, of, &mut names)?;
    Ok(names)
}

/// What the declarations of a class break, and E5: a name is declared twice, E58: a class is announced and not declared.
fn names_stand(alloc: Global, class: &ClassInfo, of: &Class) -> Result<(), Refusal>
    ensures { Gives result (words.names_stand class.now (class_in of.now)) }
{
    let known = known_stand(alloc, class.scope.known.as_slice());
    let names = class_names(alloc, class.path.as_slice(), of)?;
    let names = names.as_slice();
    let differ = twice(alloc, 5, names)?;
    let once = where_also(known, answer(differ));
    where_also(once, answer(announcements_stand(names)))
}

/// The path of a base, where there is one.
fn base_of(base: &Option<Path>) -> Option<&[Text]>
    ensures { class_path result ≡ base.now }
{
    match base {
        None => None,
        Some(path) => Some(path.as_slice()),
    }
}

/// E35: a class that is not virtual keeps a pure method.
fn methods_stand(around: &Around, class: &ClassInfo) -> Result<(), Refusal>
    ensures { Gives result (rules.rule 35 class.now.name.at (words.is_left (around_in around.now) class.now)) }
{
    let is_left = some_left_pure(around, class, class.slots.as_slice());
    rule(35, class.name.at, !class.is_virtual && is_left)
}

/// The rules on a class by itself. E5: a name is declared twice, or the end label repeats no name; E34: a member differs from the virtual method
/// that it overrides; E35: a class that is not virtual keeps a pure method; E56: an enum has two equal values; E58: a class is announced and not
/// declared.
pub fn class_stands(
    alloc: Global,
    around: &Around,
    class: &ClassInfo,
    of: &Class,
) -> Result<(), Refusal>
    ensures { Gives result (classes.class_stands (around_in around.now) class.now (class_in of.now)) }
{
    let names = names_stand(alloc, class, of);
    let label = where_also(names, label_stands(&class.name, &of.label));
    let members = class.scope.known.as_slice();
    let overrides = answer(overrides_stand(around, base_of(&class.base), members));
    where_also(where_also(label, overrides), methods_stand(around, class))
}
