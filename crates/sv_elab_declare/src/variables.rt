// The names of a declaration of variables (IEEE 1800-2017, 6.8 and 6.21).
ghost use Rattle.std.specs.Prelude.{◌≡◌, OnOk, map, flat_map};
ghost use Rattle.sv_tree.specs.StmtView.{type, decl, declarator};
ghost use Rattle.sv_names.specs.Entries as entries;
ghost use Rattle.sv_elab_scope.specs.Views.{variable_in};
ghost use Rattle.sv_elab_declare.specs.Added.{Added, declarator_names, held_entries};

use crate::types::{add_dimension_items, add_items};
use sv_elab_scope::{Declared, Entry, Storage};
use sv_tree::{Decl, Declarator, Life, WrittenType};
use sv_value::{NoMemory, Seq};

/// Whether a variable or a subroutine is automatic, where it usually is or not (6.21 and 13.4.2).
pub fn is_automatic(usual: bool, life: Life) -> bool
    ensures { result ≡ entries.is_automatic_life usual life }
{
    match life {
        Life::Automatic => true,
        Life::Static => false,
        Life::Unwritten => usual,
    }
}

/// Appends a name of a declaration, and the items in its dimension.
#[tactic(auto, using(crate::proofs::AddedLaws::added_after))]
fn add_declarator<'a>(
    held: Storage<'a>,
    of: &'a WrittenType,
    one: &'a Declarator,
    names: &mut Seq<Entry<'a>>,
) -> Result<(), NoMemory>
    ensures { OnOk result (Added names.old names.new (declarator_names held.entry (type of.now) (declarator one.now))) }
{
    names.push(Entry {
        name: &one.name,
        what: Declared::Variable {
            held,
            ty: of,
            dimension: &one.dimension,
        },
    })?;
    add_dimension_items(&one.dimension, names)
}

/// Appends the names of a declaration, each of which is held so, and the items in their dimensions.
#[tactic(auto, using(crate::proofs::AddedLaws::turn_added, crate::proofs::AddedLaws::all_added))]
fn add_declarators<'a>(
    held: Storage<'a>,
    of: &'a WrittenType,
    all: &'a [Declarator],
    names: &mut Seq<Entry<'a>>,
) -> Result<(), NoMemory>
    ensures { OnOk result (Added names.old names.new (entries.declarator_entries (variable_in held.entry) (type of.now) (map declarator all.now))) }
{
    let mut left = all;
    while let [one, rest @ ..] = left {
        add_declarator(held, of, one, names)?;
        left = rest;
    }
    Ok(())
}

/// Appends what a declaration declares where each of its names is held so: the items in its type, then the names.
#[tactic(auto, using(crate::proofs::AddedLaws::added_both))]
pub fn add_held<'a>(
    held: Storage<'a>,
    one: &'a Decl,
    names: &mut Seq<Entry<'a>>,
) -> Result<(), NoMemory>
    ensures { OnOk result (Added names.old names.new (held_entries held.entry (decl one.now))) }
{
    add_items(&one.of, names)?;
    add_declarators(held, &one.of, &one.names, names)
}

/// Appends what a declaration of a block or subroutine declares, whose variables are automatic or not where no word says it.
pub fn add_declaration<'a>(
    usual: bool,
    one: &'a Decl,
    names: &mut Seq<Entry<'a>>,
) -> Result<(), NoMemory>
    ensures { OnOk result (Added names.old names.new (entries.decl_entries usual (decl one.now))) }
{
    let held = if is_automatic(usual, one.life) {
        Storage::Activation
    } else {
        Storage::Static
    };
    add_held(held, one, names)
}

/// Appends what the declarations of a block or subroutine declare.
#[tactic(auto, using(crate::proofs::AddedLaws::turn_added, crate::proofs::AddedLaws::all_added))]
pub fn add_declarations<'a>(
    usual: bool,
    all: &'a [Decl],
    names: &mut Seq<Entry<'a>>,
) -> Result<(), NoMemory>
    ensures { OnOk result (Added names.old names.new (flat_map (entries.decl_entries usual) (map decl all.now))) }
{
    let mut left = all;
    while let [one, rest @ ..] = left {
        add_declaration(usual, one, names)?;
        left = rest;
    }
    Ok(())
}
