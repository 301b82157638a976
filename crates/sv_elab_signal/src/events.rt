// The event of a clocking block (IEEE 1800-2017, 14.3): E6, E45.
ghost use Rattle.std.specs.Prelude.{◌≡◌};
ghost use Rattle.sv_names.specs.Clockings as clockings;
ghost use Rattle.sv_names.specs.Given.{Gives};
ghost use Rattle.sv_names.specs.Views.{around_in, meaning_in};

use crate::signals::object_meant;
use std::alloc::Global;
use sv_names::{Around, Meaning, Named, Path, Refusal, Ty, copy_path};
use sv_tree::Name;
use sv_value::Text;

/// E45: an object of one bit.
fn one_bit(alloc: Global, name: &Name, path: &[Text], ty: &Ty) -> Result<Path, Refusal>
    ensures { Gives result (clockings.one_bit name.now path.now ty.now) }
{
    if ty.is_integral() && ty.width() == 1 {
        let path = copy_path(alloc, path)?;
        return Ok(path);
    }
    Err(Refusal::Rule {
        rule: 45,
        at: name.at,
    })
}

/// E45: the object that an event is of.
fn event_object(alloc: Global, name: &Name, meaning: Meaning) -> Result<Path, Refusal>
    ensures { Gives result (clockings.event_object name.now (meaning_in meaning.entry)) }
{
    match meaning.named {
        Named::Variable(path, ty) => one_bit(alloc, name, path.as_slice(), ty),
        Named::Net(path, ty) => one_bit(alloc, name, path.as_slice(), ty),
        Named::Input { path, ty, .. } => one_bit(alloc, name, path.as_slice(), ty),
        _ => Err(Refusal::Rule {
            rule: 45,
            at: name.at,
        }),
    }
}

/// E6, E45: the object that the event of a clocking block is of.
pub fn event_of(alloc: Global, around: &Around, name: &Name) -> Result<Path, Refusal>
    ensures { Gives result (clockings.event_of (around_in around.now) name.now) }
{
    match object_meant(around, 45, name) {
        Ok(meaning) => event_object(alloc, name, meaning),
        Err(e) => Err(e),
    }
}
