// A unit, or the files, with all that they and their classes declare (IEEE 1800-2017, 8.13 and 23.9).
ghost use Rattle.std.specs.Prelude.{◌≡◌, map, IfOk};
ghost use Rattle.sv_names.specs.Groups as groups;
ghost use Rattle.sv_names.specs.Views.{around_in};
ghost use Rattle.sv_elab_scope.specs.Rows.{group_in};
ghost use Rattle.sv_elab_scope.specs.Views.{entry_in};
ghost use Rattle.sv_elab_class.specs.Heads.{head_in};
ghost use Rattle.sv_elab_class.specs.Infos.{in_unit};

use crate::heads::ClassHead;
use crate::infos::group_waiting;
use crate::lists::lists_of;
use std::alloc::Global;
use sv_elab_scope::{Entry, Group, Means, settled};
use sv_names::Around;
use sv_value::{NoMemory, Seq, Text};

/// The scope of a unit with this path, or of the files, with its classes and all that they declare, where each declaration stands for what the
/// definition says of it in a unit.
pub fn settled_group<'a, M: Means>(
    alloc: Global,
    around: &Around,
    path: &[Text],
    names: Seq<Entry<'a>>,
    heads: &'a [ClassHead<'a>],
) -> Result<Group, NoMemory>
    ensures { M.meant ≡ in_unit → IfOk result (λ g. group_in g
        ≡ groups.settled_group (around_in around.now) path.now (map entry_in names.entry) (map head_in heads.now)) }
{
    let lists = lists_of(alloc, names, heads)?;
    let entries = lists.as_slice();
    let waiting = group_waiting(alloc, around.classes, path, heads, entries)?;
    let group = settled::<M>(alloc, around, path, entries, waiting)?;
    Ok(group)
}
