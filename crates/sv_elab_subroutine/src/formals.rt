// The arguments of a subroutine, by the variables that they are (IEEE 1800-2017, 8.11, 13.3 and 13.5).
ghost use Rattle.std.specs.Prelude.{◌≡◌, ◌++◌, map, IfOk, OnOk};
ghost use Rattle.sv_tree.specs.UnitView.{argument, head as head_in};
ghost use Rattle.sv_names.specs.Entries as entries;
ghost use Rattle.sv_names.specs.Named as names;
ghost use Rattle.sv_names.specs.Subroutines as subroutines;
ghost use Rattle.sv_names.specs.Views.{around_in};
ghost use Rattle.sv_elab_subroutine.specs.Formals as words;

use std::alloc::Global;
use sv_flat::{Direction as Way, Formal, Variable};
use sv_names::{Around, Checked, Named, Scope, declared_in};
use sv_tree::{Argument, Direction, Head};
use sv_value::{NoMemory, Seq};

/// How an argument is passed.
fn way_of(direction: Direction) -> Way
    ensures { result ≡ subroutines.way_of direction }
{
    match direction {
        Direction::Input => Way::Input,
        Direction::Output => Way::Output,
        Direction::Inout => Way::Inout,
    }
}

/// An argument, by the variable that it is; a variable of the activation stands at this place.
pub fn formal_of(
    around: &Around,
    direction: Way,
    up: u32,
    place: u32,
    named: &Named,
) -> Option<Formal>
    ensures { words.formals_in result ≡ subroutines.formal_of (around_in around.now) direction (names.at_level up place named.now) }
{
    match named {
        Named::Variable(path, ty) => Some(Formal {
            direction,
            variable: Variable::Object(around.numbers.object(path.as_slice())),
            ty: around.numbers.data_of(ty),
        }),
        Named::Local { ty, .. } => Some(Formal {
            direction,
            variable: Variable::Local(place),
            ty: around.numbers.data_of(ty),
        }),
        _ => None,
    }
}

/// An argument by its name in the scope of its subroutine.
fn formal_called(around: &Around, scope: &Scope, direction: Way, name: &[u8]) -> Option<Formal>
    ensures { words.formals_in result ≡ subroutines.formal_known (around_in around.now) direction (names.in_known 0 0 name.now scope.now.known) }
{
    match declared_in(0, name, &scope.known) {
        None => None,
        Some(found) => match &found.known.value {
            Checked::Good(named) => formal_of(around, direction, found.up, found.place, named),
            Checked::Broken(_) => None,
        },
    }
}

/// Appends an argument, where it is one.
fn push_formal(formal: Option<Formal>, formals: &mut Seq<Formal>) -> Result<(), NoMemory>
    ensures { OnOk result (formals.new ≡ formals.old ++ words.formals_in formal) }
{
    match formal {
        None => Ok(()),
        Some(formal) => formals.push(formal),
    }
}

/// The direction that is written, or the one before.
fn direction_or(before: Direction, written: Option<Direction>) -> Direction
    ensures { result ≡ entries.direction_or before written }
{
    match written {
        None => before,
        Some(direction) => direction,
    }
}

/// The arguments of a subroutine in order: the object of a method, and then those of its head.
#[tactic(auto, using(crate::proofs::FormalLaws::first_formals, crate::proofs::FormalLaws::all_formals))]
pub fn formals_of(
    alloc: Global,
    around: &Around,
    scope: &Scope,
    of: &Head,
) -> Result<Seq<Formal>, NoMemory>
    ensures { IfOk result (λ fs. fs ≡ subroutines.object_formal (around_in around.now) scope.now
        ++ subroutines.argument_formals (around_in around.now) scope.now (entries.taken (head_in of.now))) }
{
    let mut formals = Seq::new(alloc);
    push_formal(
        formal_called(around, scope, Way::Input, b"this"),
        &mut formals,
    )?;
    let mut direction = Direction::Input;
    let mut left: &[Argument] = of.arguments.as_slice();
    while let [one, rest @ ..] = left {
        direction = direction_or(direction, one.direction);
        let formal = formal_called(around, scope, way_of(direction), one.name.text.bytes());
        push_formal(formal, &mut formals)?;
        left = rest;
    }
    Ok(formals)
}
