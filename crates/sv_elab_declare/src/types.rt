// The items of the enums in a type, which the scope of the type declares (IEEE 1800-2017, 6.19).
ghost use Rattle.std.specs.Prelude.{None, OnOk, map, option_map};
ghost use Rattle.sv_tree.specs.StmtView.{type, implied, dimension, enum_item};
ghost use Rattle.sv_names.specs.Entries as entries;
ghost use Rattle.sv_elab_declare.specs.Added.{Added};

use sv_elab_scope::{Declared, Entry};
use sv_tree::{Dimension, EnumItem, Expr, ImpliedType, WrittenType};
use sv_value::{NoMemory, Seq};

/// Appends the items of one enum: each has the value after that of the one before, unless it has its own.
#[tactic(auto, using(crate::proofs::AddedLaws::turn_added, crate::proofs::AddedLaws::all_added))]
fn add_enum_items<'a>(
    ty: &'a WrittenType,
    items: &'a [EnumItem],
    names: &mut Seq<Entry<'a>>,
) -> Result<(), NoMemory>
    ensures { OnOk result (Added names.old names.new (entries.items_from (type ty.now) None 0 (map enum_item items.now))) }
{
    let mut start: Option<&'a Expr> = None;
    let mut steps: usize = 0;
    let mut left = items;
    while let [item, rest @ ..] = left {
        if let Some(value) = &item.value {
            start = Some(value);
            steps = 0;
        }
        names.push(Entry {
            name: &item.name,
            what: Declared::Item {
                ty,
                value: start,
                steps,
            },
        })?;
        let Some(next) = steps.checked_add(1) else {
            return Err(NoMemory::Memory);
        };
        steps = next;
        left = rest;
    }
    Ok(())
}

/// Appends the items of the enums in a type.
#[tactic(auto, using(crate::proofs::AddedLaws::added_none, crate::proofs::AddedLaws::added_both))]
pub fn add_items<'a>(ty: &'a WrittenType, names: &mut Seq<Entry<'a>>) -> Result<(), NoMemory>
    ensures { OnOk result (Added names.old names.new (entries.items_in (type ty.now))) }
{
    match ty {
        WrittenType::Enum(_, items) => add_enum_items(ty, items, names),
        WrittenType::EnumOf { base, items, .. } => {
            add_items(base, names)?;
            add_enum_items(ty, items, names)
        }
        WrittenType::MailboxOf(_, of) => add_items(of, names),
        _ => Ok(()),
    }
}

/// Appends the items of the enums in a type that may be left out.
#[tactic(auto, using(crate::proofs::AddedLaws::added_none))]
pub fn add_implied_items<'a>(
    ty: &'a ImpliedType,
    names: &mut Seq<Entry<'a>>,
) -> Result<(), NoMemory>
    ensures { OnOk result (Added names.old names.new (entries.items_in_implied (implied ty.now))) }
{
    match ty {
        ImpliedType::Written(written) => add_items(written, names),
        _ => Ok(()),
    }
}

/// Appends the items of the enums in a dimension, which is the type of a key (7.8).
#[tactic(auto, using(crate::proofs::AddedLaws::added_none))]
pub fn add_dimension_items<'a>(
    of: &'a Option<Dimension>,
    names: &mut Seq<Entry<'a>>,
) -> Result<(), NoMemory>
    ensures { OnOk result (Added names.old names.new (entries.items_in_dimension (option_map dimension of.now))) }
{
    match of {
        Some(Dimension::Key(_, ty)) => add_items(ty, names),
        _ => Ok(()),
    }
}
