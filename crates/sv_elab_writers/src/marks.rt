// Writes by marks of their objects: those of one object are found without a walk along the others.
ghost use Rattle.std.specs.Prelude.{◌≡◌, ◌≢◌, ◌++◌, ◌∷◌, [], ℕ, List, Some, map, IfOk, OnOk};
ghost use Rattle.std.specs.Ordering.{nat_cmp};
ghost use Rattle.std.specs.BTreeMap.{get};
ghost use Rattle.sv_elab_writers.specs.Marks.{writes_in, HasWrites};
ghost use Rattle.sv_elab_writers.specs.Views.{write_in};
ghost use Rattle.sv_elab_writers.specs.declared.writes.Write.{Write as WriteValue};

use crate::writes::Write;
use std::alloc::Global;
use std::collections::BTreeMap;
use sv_names::mark_of;
use sv_value::{NoMemory, Seq};

/// Writes at the marks of their objects.
pub(crate) type Marked<'a> = BTreeMap<u64, Seq<Write<'a>>>;

/// A write comes to a mark, behind those that are there.
fn put_write<'a>(
    alloc: Global,
    mark: u64,
    write: Write<'a>,
    marked: &mut Marked<'a>,
) -> Result<(), NoMemory>
    ensures here { OnOk result (get nat_cmp marked.new mark ≡ Some (writes_in (get nat_cmp marked.old mark) ++ write.entry ∷ [])) }
    ensures others { OnOk result ((m : ℕ) → m ≢ mark → get nat_cmp marked.new m ≡ get nat_cmp marked.old m) }
{
    if let Some(writes) = marked.get_mut(&mark) {
        return writes.push(write);
    }
    let mut writes = Seq::new(alloc);
    writes.push(write)?;
    marked.insert(mark, writes)?;
    Ok(())
}

/// A write comes to the mark of its object.
#[tactic(auto, using(crate::proofs::MarkLaws::one_more))]
fn add_marked<'a>(alloc: Global, write: Write<'a>, marked: &mut Marked<'a>) -> Result<(), NoMemory>
    ensures { (ws : List WriteValue) → HasWrites marked.old (map write_in ws)
        → OnOk result (HasWrites marked.new (map write_in (ws ++ write.entry ∷ []))) }
{
    put_write(alloc, mark_of(write.object), write, marked)
}

/// Writes at the marks of their objects.
pub(crate) fn marked<'a>(alloc: Global, writes: &[Write<'a>]) -> Result<Marked<'a>, NoMemory>
    ensures { IfOk result (λ marked. HasWrites marked (map write_in writes.now)) }
{
    let mut marked = Marked::new(alloc);
    for write in writes {
        add_marked(alloc, *write, &mut marked)?;
    }
    Ok(marked)
}
