// What the scope of a subroutine declares (IEEE 1800-2017, 8.11, 13.3 and 13.4).
ghost use Rattle.std.specs.Prelude.{◌≡◌, OnOk, IfOk};
ghost use Rattle.sv_tree.specs.UnitView.{head};
ghost use Rattle.sv_names.specs.Entries as entries;
ghost use Rattle.sv_elab_declare.specs.Added.{Added, class_of, method_of};

use crate::arguments::add_arguments;
use crate::blocks::add_all_blocks;
use crate::types::add_implied_items;
use crate::variables::{add_declarations, is_automatic};
use std::alloc::Global;
use sv_elab_scope::{Declared, DeclaredRoutine, Entry};
use sv_names::same_bytes;
use sv_tree::{Head, Name, Returns};
use sv_value::{Excerpt, NoMemory, Place, Seq};

/// The name that stands for the object of a method, at a place (8.11).
pub fn this_name(alloc: Global, at: Place) -> Result<Name, NoMemory>
    ensures { IfOk result (λ n. n ≡ entries.this_name at) }
{
    let text = Excerpt::new(alloc, b"this")?;
    Ok(Name { at, text })
}

/// Whether a head is that of a constructor (8.7).
pub fn is_constructor(of: &Head) -> bool
    ensures { result ≡ entries.is_constructor (head of.now) }
{
    same_bytes(of.name.text.bytes(), b"new")
}

/// Whether a method belongs to the class and to no object of it (8.10).
pub fn is_static_method(of: &DeclaredRoutine) -> bool
    ensures { result ≡ entries.is_static_method (method_of of.now) }
{
    of.qualifiers.is_static && !is_constructor(&of.routine.head)
}

/// Whether a subroutine is automatic, where those of its unit usually are or not: methods always are (8.6 and 13.4.2).
pub fn is_automatic_subroutine(usual: bool, of: &DeclaredRoutine) -> bool
    ensures { result ≡ entries.subroutine_is_automatic usual (class_of of.now) (method_of of.now).routine.head }
{
    match of.class {
        Some(_) => true,
        None => is_automatic(usual, of.routine.head.life),
    }
}

/// Appends the object of a method that is not static.
#[tactic(auto, using(crate::proofs::AddedLaws::added_none, crate::proofs::AddedLaws::added_one))]
fn add_object<'a>(
    of: &DeclaredRoutine<'a>,
    this: &'a Name,
    names: &mut Seq<Entry<'a>>,
) -> Result<(), NoMemory>
    ensures { this.now ≡ entries.this_name (method_of of.now).routine.head.name.at → OnOk result (Added names.old names.new
        (entries.object_entry (entries.is_static_method (method_of of.now)) (method_of of.now).routine.head (class_of of.now))) }
{
    let Some(class) = of.class else {
        return Ok(());
    };
    if is_static_method(of) {
        return Ok(());
    }
    names.push(Entry {
        name: this,
        what: Declared::ObjectOf(class),
    })
}

/// Appends the items of the enums in the type of a result.
#[tactic(auto, using(crate::proofs::AddedLaws::added_none))]
fn add_result_items<'a>(of: &'a Head, names: &mut Seq<Entry<'a>>) -> Result<(), NoMemory>
    ensures { OnOk result (Added names.old names.new (entries.items_in_implied (entries.result_type (head of.now)))) }
{
    match &of.returns {
        Returns::Value(ty) => add_implied_items(ty, names),
        _ => Ok(()),
    }
}

/// Appends what the scope of a subroutine declares: the object, which has the name `this` (`this_name`), the items in the type of the result, the
/// arguments, the variables and the named blocks.
#[tactic(auto, using(crate::proofs::AddedLaws::added_both))]
pub fn add_subroutine<'a>(
    usual: bool,
    of: &DeclaredRoutine<'a>,
    this: &'a Name,
    names: &mut Seq<Entry<'a>>,
) -> Result<(), NoMemory>
    ensures { this.now ≡ entries.this_name (method_of of.now).routine.head.name.at
        → OnOk result (Added names.old names.new (entries.subroutine_entries usual (class_of of.now) (method_of of.now))) }
{
    let is_automatic = is_automatic_subroutine(usual, of);
    let routine = of.routine;
    add_object(of, this, names)?;
    add_result_items(&routine.head, names)?;
    add_arguments(is_automatic, &routine.head, names)?;
    add_declarations(is_automatic, &routine.decls, names)?;
    add_all_blocks(&routine.stmts, names)
}
