// What the declarations and the end label of a subroutine break (IEEE 1800-2017, 8.21, 13 and 23.9): E5, E56, and the rules of each declaration.
ghost use Rattle.std.specs.Prelude.{◌≡◌, [], ◌∷◌, true, Some, map, IfOk, OnOk};
ghost use Rattle.sv_tree.specs.UnitView.{head as head_in, routine as routine_in};
ghost use Rattle.sv_names.specs.Blocks as blocks;
ghost use Rattle.sv_names.specs.Checked as rules;
ghost use Rattle.sv_names.specs.Entries as entries;
ghost use Rattle.sv_names.specs.Given.{Gives};
ghost use Rattle.sv_names.specs.Scopes as scopes;
ghost use Rattle.sv_names.specs.Subroutines as subroutines;
ghost use Rattle.sv_names.specs.Types as types;
ghost use Rattle.sv_names.specs.Views.{around_in};
ghost use Rattle.sv_elab_scope.specs.Views.{entry_in};
ghost use Rattle.sv_elab_declare.specs.Added.{Added, class_of, method_of};
ghost use Rattle.sv_elab_declare.specs.Alone.{class_in as class_path};
ghost use Rattle.sv_elab_head.specs.Heads as heads;
ghost use Rattle.sv_elab_before.specs.Stands as words;

use std::alloc::Global;
use sv_elab_declare::{add_arguments, add_implied_items, add_subroutine, this_name};
use sv_elab_head::{Heading, callee_stands, callee_within, pure_scope};
use sv_elab_object::known_stand;
use sv_elab_object::sv_elab_value::rule;
use sv_elab_scope::{Declared, DeclaredRoutine, Entry, Stage, twice};
use sv_names::{Around, Callee, Refusal, Scope, answer, same_bytes, where_also};
use sv_tree::{Head, Name, Qualifiers, Returns, Routine};
use sv_value::{NoMemory, Seq, Text};

/// E5: an end label repeats the name.
fn label_stands(name: &Name, end: &Option<Name>) -> Result<(), Refusal>
    ensures { Gives result (blocks.end_label (Some name.now) end.now) }
{
    match end {
        None => Ok(()),
        Some(end) => rule(5, end.at, !same_bytes(name.text.bytes(), end.text.bytes())),
    }
}

/// What a scope and the head of its subroutine break by themselves.
fn head_stands(alloc: Global, scope: &Scope, callee: &Callee) -> Result<(), Refusal>
    ensures { Gives result (words.head_stands scope.now callee.now) }
{
    let known = known_stand(alloc, scope.known.as_slice());
    where_also(known, answer(callee_stands(callee)))
}

/// What the scope of a subroutine declares, whose object has the name `this`.
fn routine_names<'a>(
    alloc: Global,
    usual: bool,
    class: Option<&'a [Text]>,
    qualifiers: Qualifiers,
    routine: &'a Routine,
    this: &'a Name,
) -> Result<Seq<Entry<'a>>, NoMemory>
    ensures { this.now ≡ entries.this_name (routine_in routine.now).head.name.at → IfOk result (λ ns. map entry_in ns
        ≡ entries.subroutine_entries usual (class_path class.entry) (heads.method_with qualifiers (routine_in routine.now))) }
{
    let of = DeclaredRoutine {
        qualifiers,
        class,
        routine,
    };
    let mut names = Seq::new(alloc);
    add_subroutine(usual, &of, this, &mut names)?;
    Ok(names)
}

/// E5: a name that a subroutine declares twice.
fn names_stand(alloc: Global, around: &Around, of: &DeclaredRoutine) -> Result<(), Refusal>
    ensures { Gives result (words.names_stand (around_in around.now) (class_of of.now) (method_of of.now)) }
{
    let this = this_name(alloc, of.routine.head.name.at)?;
    let usual = around.is_automatic;
    let names = routine_names(alloc, usual, of.class, of.qualifiers, of.routine, &this)?;
    let differ = twice(alloc, 5, names.as_slice())?;
    answer(differ)
}

/// E5: what the declarations and the end label of a subroutine break.
pub fn routine_stands(
    alloc: Global,
    around: &Around,
    scope: &Scope,
    callee: &Callee,
    of: &DeclaredRoutine,
) -> Result<(), Refusal>
    ensures { Gives result (subroutines.routine_stands (around_in around.now) scope.now callee.now (class_of of.now) (method_of of.now)) }
{
    let head = head_stands(alloc, scope, callee);
    let names = where_also(head, names_stand(alloc, around, of));
    let label = label_stands(&of.routine.head.name, &of.routine.label);
    where_also(names, label)
}

// ---- pure methods

/// Appends the object of a method, which has the name `this`.
#[tactic(auto, using(sv_elab_declare::proofs::AddedLaws::added_one))]
fn add_this<'a>(
    class: &'a [Text],
    this: &'a Name,
    names: &mut Seq<Entry<'a>>,
) -> Result<(), NoMemory>
    ensures { OnOk result (Added names.old names.new (entries.entry this.now (entries.The_object_of class.now) ∷ [])) }
{
    names.push(Entry {
        name: this,
        what: Declared::ObjectOf(class),
    })
}

/// Appends the items of the enums in the type of a result.
#[tactic(auto, using(sv_elab_declare::proofs::AddedLaws::added_none))]
fn add_result_items<'a>(of: &'a Head, names: &mut Seq<Entry<'a>>) -> Result<(), NoMemory>
    ensures { OnOk result (Added names.old names.new (entries.items_in_implied (entries.result_type (head_in of.now)))) }
{
    match &of.returns {
        Returns::Value(ty) => add_implied_items(ty, names),
        _ => Ok(()),
    }
}

/// What the scope of a pure method declares: the object, which has the name `this`, the items in the type of the result, and the arguments.
fn pure_names<'a>(
    alloc: Global,
    class: &'a [Text],
    of: &'a Head,
    this: &'a Name,
) -> Result<Seq<Entry<'a>>, NoMemory>
    ensures { this.now ≡ entries.this_name (head_in of.now).name.at → IfOk result (λ ns. map entry_in ns
        ≡ entries.subroutine_entries true (Some class.now) (entries.pure_method (head_in of.now))) }
{
    let mut names = Seq::new(alloc);
    add_this(class, this, &mut names)?;
    add_result_items(of, &mut names)?;
    add_arguments(true, of, &mut names)?;
    Ok(names)
}

/// E5: a name that a pure method declares twice.
fn pure_names_stand(
    alloc: Global,
    around: &Around,
    class: &[Text],
    of: &Head,
) -> Result<(), Refusal>
    ensures { Gives result (words.names_stand (around_in around.now) (Some class.now) (entries.pure_method (head_in of.now))) }
{
    let this = this_name(alloc, of.name.at)?;
    let names = pure_names(alloc, class, of, &this)?;
    let differ = twice(alloc, 5, names.as_slice())?;
    answer(differ)
}

/// What the declarations of a pure method break, which has a head alone (8.21), in the class with this path.
pub fn pure_stands(
    alloc: Global,
    around: &Around,
    path: &[Text],
    class: &[Text],
    of: &Head,
) -> Result<(), Refusal>
    ensures { Gives result (subroutines.pure_stands (around_in around.now) path.now (Some class.now) (entries.pure_method (head_in of.now))) }
{
    let scope = pure_scope(alloc, Stage::End, around, path, class, of)?;
    let heading = Heading {
        class: Some(class),
        qualifiers: Qualifiers {
            is_local: false,
            is_protected: false,
            is_static: false,
            is_virtual: true,
        },
        is_pure: true,
        head: of,
    };
    let callee = callee_within(alloc, around, &scope, &heading)?;
    let head = head_stands(alloc, &scope, &callee);
    where_also(head, pure_names_stand(alloc, around, class, of))
}
