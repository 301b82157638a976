// What follows a thing that may break a rule: a dot, brackets, or nothing more (IEEE 1800-2017, 8 and 13).
ghost use Rattle.std.specs.Prelude.{◌≡◌, true, IfOk, IfErr};
ghost use Rattle.sv_names.specs.declared.refusal.Refusal.TheVariants.{Memory};
ghost use Rattle.sv_names.specs.Checked.{◌▷◌, given};
ghost use Rattle.sv_names.specs.Given.{GivesAs};
ghost use Rattle.sv_names.specs.Things as things;
ghost use Rattle.sv_names.specs.Views.{around_in};
ghost use Rattle.sv_elab_name.specs.Things.{thing_in};

use crate::calls::AllCalls;
use std::alloc::Global;
use sv_elab_call::as_value;
use sv_elab_name::{Thing, judged_thing};
use sv_elab_operator::sv_elab_value::values_stand;
use sv_names::{Arg, Around, Checked, Refusal, Typed, earlier_in, judged};
use sv_tree::Name;
use sv_value::{Place, Seq};

/// What follows a dot.
pub fn member_step<'a>(
    alloc: Global,
    around: &Around<'a>,
    place: Place,
    thing: Checked<Thing<'a>>,
    name: &Name,
) -> Result<Checked<Thing<'a>>, Refusal>
    ensures ok { IfOk result (λ c. given thing_in c ≡ (given thing_in thing.entry ▷ things.after_dot (around_in around.now) place name.now)) }
    ensures err { IfErr result (λ e. e ≡ Memory) }
{
    match thing {
        Checked::Good(thing) => judged_thing(thing.member::<AllCalls>(alloc, around, place, name)),
        Checked::Broken(f) => Ok(Checked::Broken(f)),
    }
}

/// A thing as a value.
pub fn value_step(
    alloc: Global,
    around: &Around,
    place: Place,
    thing: Checked<Thing>,
) -> Result<Checked<Typed>, Refusal>
    ensures ok { IfOk result (λ c. c ≡ (given thing_in thing.entry ▷ things.thing_value (around_in around.now) place)) }
    ensures err { IfErr result (λ e. e ≡ Memory) }
{
    match thing {
        Checked::Good(thing) => judged(thing.value::<AllCalls>(alloc, around, place)),
        Checked::Broken(f) => Ok(Checked::Broken(f)),
    }
}

/// What a thing that is called gives.
fn called<'a>(
    alloc: Global,
    around: &Around,
    place: Place,
    thing: Thing,
    args: Seq<Arg>,
) -> Result<Thing<'a>, Refusal>
    ensures { GivesAs thing_in result (things.after_actuals (around_in around.now) place args (thing_in thing.entry)) }
{
    match thing.called::<AllCalls>(alloc, around, place, true, args) {
        Ok(c) => {
            let t = as_value(alloc, around, place, c)?;
            Ok(Thing::Value(t))
        }
        Err(e) => Err(e),
    }
}

/// A call of what stands before it.
pub fn call_step<'a>(
    alloc: Global,
    around: &Around,
    place: Place,
    thing: Checked<Thing>,
    args: Seq<Arg>,
) -> Result<Checked<Thing<'a>>, Refusal>
    ensures ok { IfOk result (λ c. given thing_in c
        ≡ things.called_step (around_in around.now) place (given thing_in thing.entry) args) }
    ensures err { IfErr result (λ e. e ≡ Memory) }
{
    match thing {
        Checked::Good(thing) => judged_thing(called(alloc, around, place, thing, args)),
        Checked::Broken(f) => {
            let stands = judged(values_stand(args.as_slice()))?;
            Ok(Checked::Broken(earlier_in(f, &stands)))
        }
    }
}
