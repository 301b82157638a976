// Marks of paths: numbers by which their positions are found.
ghost use Rattle.std.specs.Prelude.{◌≡◌, ◌++◌, ◌∷◌, [], ℕ, List, IfOk, OnOk, length};
ghost use Rattle.sv_names.specs.Marks.{Marks, marks_of, mixed, with_name, with_path};

use crate::Path;
use std::alloc::Global;
use std::collections::BTreeMap;
use sv_value::{NoMemory, Text};

/// The position of the first path with each mark.
pub(crate) type MarkIndex = BTreeMap<u64, usize>;

/// A mark with a byte behind it.
fn mixed(mark: u64, byte: u8) -> u64
    ensures { result ≡ mixed mark byte }
{
    mark.wrapping_mul(1_099_511_628_211)
        .wrapping_add(byte as u64)
}

/// A mark with a name behind it.
fn with_name(mark: u64, name: &[u8]) -> u64
    ensures { result ≡ with_name mark name.now }
{
    let mut mark = mark;
    for byte in name {
        mark = mixed(mark, *byte);
    }
    mark
}

/// The mark of a path: a number by which what is known of it is found. Other paths may have the same one.
pub fn mark_of(path: &[Text]) -> u64
    ensures { result ≡ with_path 0 path.now }
{
    let mut mark = 0;
    for name in path {
        mark = mixed(with_name(mark, name.bytes()), 0);
    }
    mark
}

/// The index of the marks of paths.
pub(crate) fn marks_of(alloc: Global, paths: &[Path]) -> Result<MarkIndex, NoMemory>
    ensures { IfOk result (λ index. Marks index (marks_of paths.now)) }
{
    let mut index = MarkIndex::new(alloc);
    for (position, path) in paths.iter().enumerate() {
        add_mark(&mut index, mark_of(path.as_slice()), position)?;
    }
    Ok(index)
}

/// Adds the mark at a position behind all others, unless it is known.
fn add_mark(index: &mut MarkIndex, mark: u64, position: usize) -> Result<(), NoMemory>
    ensures { (ms : List ℕ) → length ms ≡ position → Marks index.old ms → OnOk result (Marks index.new (ms ++ mark ∷ [])) }
{
    if index.contains_key(&mark) {
        return Ok(());
    }
    index.insert(mark, position)?;
    Ok(())
}
