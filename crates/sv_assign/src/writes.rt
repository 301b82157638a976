// Writes of values (IEEE 1800-2017, 10.4).
ghost use Rattle.std.specs.Prelude.{◌≡◌, ◌≢◌, ℕ, Ok, IfOk, IfSome, IfNone, OnOk, OnErr};
ghost use Rattle.sv_value.specs.declared.number.ObjId.{ObjId as ObjectNumber};
ghost use Rattle.sv_flat.specs.State.{World, value_at};
ghost use Rattle.sv_flat.specs.Process.{Cell};
ghost use Rattle.sv_flat.specs.Effects.Writes.{wrote};
ghost use Rattle.sv_store.specs.Overwrites.{object_before};

use sv_store::{Overwritten, Store};
use sv_value::{NoMemory, ObjectTarget, Val};

/// Writes an element of an object, or a driver of a net, or a part of it, and tells what was overwritten, where a value is another one
/// then. Memory is wanting, too, where a whole driver has another width than its net, which no driver of an elaborated design has.
pub fn overwrite(
    store: &mut Store,
    target: ObjectTarget,
    value: Val,
) -> Result<Option<Overwritten>, NoMemory>
    ensures wrote { OnOk result ((w : World) → w.store ≡ store.old
        → wrote (Cell target.object target.element target.part) value w ≡ Ok (record w { store = store.new })) }
    ensures err { OnErr result (store.new ≡ store.old) }
    ensures some { IfOk result (λ r. IfSome r (λ w. (o : ObjectNumber) (j : ℕ) → value_at store.old o j ≡ object_before w store.new o j)) }
    ensures differs { IfOk result (λ r. IfSome r (λ w. w.old ≢ value_at store.new w.object w.element)) }
    ensures none { IfOk result (λ r. IfNone r ((o : ObjectNumber) (j : ℕ) → value_at store.new o j ≡ value_at store.old o j)) }
{
    store.write(target.object, target.element, target.part, value)
}
