// An index of names.
ghost use Rattle.std.specs.Prelude.{◌≡◌, ◌++◌, ◌∷◌, [], ℕ, List, IfOk, OnOk, length};
ghost use Rattle.sv_names.specs.Index.{IsIndexOf, names_of};

use crate::Known;
use std::alloc::Global;
use std::collections::BTreeMap;
use sv_value::NoMemory;

/// The position of the first declaration of each name, by its bytes.
pub(crate) type NameIndex = BTreeMap<Vec<u8>, usize>;

/// The index of the names of declarations.
pub(crate) fn index_of(alloc: Global, known: &[Known]) -> Result<NameIndex, NoMemory>
    ensures { IfOk result (λ index. IsIndexOf index (names_of known.now)) }
{
    let mut index = NameIndex::new(alloc);
    for (position, declaration) in known.iter().enumerate() {
        add_name(alloc, &mut index, declaration.name.text.bytes(), position)?;
    }
    Ok(index)
}

/// Adds the name at a position behind all others, unless it is known.
fn add_name(
    alloc: Global,
    index: &mut NameIndex,
    name: &[u8],
    position: usize,
) -> Result<(), NoMemory>
    ensures { (ns : List (List ℕ)) → length ns ≡ position → IsIndexOf index.old ns
        → OnOk result (IsIndexOf index.new (ns ++ name.now ∷ [])) }
{
    if index.contains_key(name) {
        return Ok(());
    }
    let key = Vec::from_slice(alloc, name)?;
    index.insert(key, position)?;
    Ok(())
}
