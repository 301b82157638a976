// What the scope of a subroutine declares, by a head with its declarations or by a head alone (IEEE 1800-2017, 8.11, 8.21, 13.3 and 13.4).
ghost use Rattle.std.specs.Prelude.{◌≡◌, ◌∷◌, [], true, Some, map, IfOk, OnOk};
ghost use Rattle.sv_tree.specs.UnitView.{head as head_in, routine as routine_in};
ghost use Rattle.sv_names.specs.Entries as entries;
ghost use Rattle.sv_elab_scope.specs.Views.{entry_in};
ghost use Rattle.sv_elab_declare.specs.Added.{Added};
ghost use Rattle.sv_elab_declare.specs.Alone.{class_in as class_path};
ghost use Rattle.sv_elab_head.specs.Heads as heads;

use std::alloc::Global;
use sv_elab_declare::{add_arguments, add_implied_items, add_subroutine};
use sv_elab_scope::{Declared, DeclaredRoutine, Entry};
use sv_tree::{Head, Name, Qualifiers, Returns, Routine};
use sv_value::{NoMemory, Seq, Text};

/// What the scope of a subroutine declares, whose object has the name `this`.
pub(crate) fn routine_names<'a>(
    alloc: Global,
    usual: bool,
    class: Option<&'a [Text]>,
    qualifiers: Qualifiers,
    routine: &'a Routine,
    this: &'a Name,
) -> Result<Seq<Entry<'a>>, NoMemory>
    ensures { this.now ≡ entries.this_name (routine_in routine.now).head.name.at → IfOk result (λ ns. map entry_in ns
        ≡ entries.subroutine_entries usual (class_path class.entry) (heads.method_with qualifiers (routine_in routine.now))) }
{
    let of = DeclaredRoutine {
        qualifiers,
        class,
        routine,
    };
    let mut names = Seq::new(alloc);
    add_subroutine(usual, &of, this, &mut names)?;
    Ok(names)
}

/// Appends the object of a method, which has the name `this`.
#[tactic(auto, using(sv_elab_declare::proofs::AddedLaws::added_one))]
fn add_this<'a>(
    class: &'a [Text],
    this: &'a Name,
    names: &mut Seq<Entry<'a>>,
) -> Result<(), NoMemory>
    ensures { OnOk result (Added names.old names.new (entries.entry this.now (entries.The_object_of class.now) ∷ [])) }
{
    names.push(Entry {
        name: this,
        what: Declared::ObjectOf(class),
    })
}

/// Appends the items of the enums in the type of a result.
#[tactic(auto, using(sv_elab_declare::proofs::AddedLaws::added_none))]
fn add_result_items<'a>(of: &'a Head, names: &mut Seq<Entry<'a>>) -> Result<(), NoMemory>
    ensures { OnOk result (Added names.old names.new (entries.items_in_implied (entries.result_type (head_in of.now)))) }
{
    match &of.returns {
        Returns::Value(ty) => add_implied_items(ty, names),
        _ => Ok(()),
    }
}

/// What the scope of a pure method declares: the object, which has the name `this`, the items in the type of the result, and the arguments.
pub(crate) fn pure_names<'a>(
    alloc: Global,
    class: &'a [Text],
    of: &'a Head,
    this: &'a Name,
) -> Result<Seq<Entry<'a>>, NoMemory>
    ensures { this.now ≡ entries.this_name (head_in of.now).name.at → IfOk result (λ ns. map entry_in ns
        ≡ entries.subroutine_entries true (Some class.now) (entries.pure_method (head_in of.now))) }
{
    let mut names = Seq::new(alloc);
    add_this(class, this, &mut names)?;
    add_result_items(of, &mut names)?;
    add_arguments(true, of, &mut names)?;
    Ok(names)
}
