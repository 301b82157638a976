// The arguments of a subroutine, in its scope (IEEE 1800-2017, 13.3, 13.4 and 13.5).
ghost use Rattle.std.specs.Prelude.{◌≡◌, map, IfOk, option_map};
ghost use Rattle.sv_tree.specs.StmtView.{implied as implied_in};
ghost use Rattle.sv_tree.specs.UnitView.{argument, head as head_in};
ghost use Rattle.sv_names.specs.Entries as entries;
ghost use Rattle.sv_names.specs.Scopes as scopes;
ghost use Rattle.sv_names.specs.Views.{around_in};
ghost use Rattle.sv_elab_declare.specs.Added.{type_before};
ghost use Rattle.sv_elab_head.specs.Formals as formals;

use crate::defaults::default_in;
use crate::results::type_within;
use std::alloc::Global;
use sv_elab_signal::share_name;
use sv_names::{Around, Formal, Scope};
use sv_tree::{Argument, Direction, Head, ImpliedType};
use sv_value::{NoMemory, Seq};

/// The type of an argument: one with neither a direction nor a type has that of the argument before.
fn type_of<'a>(one: &'a Argument, before: Option<&'a ImpliedType>) -> &'a ImpliedType
    ensures { implied_in result.now ≡ entries.type_or (entries.has_direction one.now.direction)
        (type_before (option_map (λ t. implied_in t.now) before.entry)) (implied_in one.now.of) }
{
    match (&one.of, one.direction, before) {
        (ImpliedType::Unwritten, None, Some(before)) => before,
        _ => &one.of,
    }
}

/// The direction that is written, or the one before.
fn direction_or(before: Direction, written: Option<Direction>) -> Direction
    ensures { result ≡ entries.direction_or before written }
{
    match written {
        None => before,
        Some(direction) => direction,
    }
}

/// An argument of this direction and type, in the scope of its subroutine.
fn formal_of(
    alloc: Global,
    around: &Around,
    scope: &Scope,
    direction: Direction,
    ty: &ImpliedType,
    one: &Argument,
) -> Result<Formal, NoMemory>
    ensures { IfOk result (λ f. f ≡ formals.formal_within (around_in around.now) scope.now
        (formals.taken_as direction (implied_in ty.now) (argument one.now))) }
{
    let ty = type_within(alloc, around, scope, ty)?;
    let default = default_in(alloc, around, &ty, &one.default)?;
    let name = share_name(&one.name)?;
    Ok(Formal {
        name,
        direction,
        ty,
        default,
    })
}

/// The arguments of a head in order, in the scope of its subroutine.
#[tactic(auto, using(crate::proofs::FormalLaws::all_formals))]
pub(crate) fn formals_of<'a>(
    alloc: Global,
    around: &Around,
    scope: &Scope,
    of: &'a Head,
) -> Result<Seq<Formal>, NoMemory>
    ensures { IfOk result (λ fs. fs
        ≡ map (formals.formal_within (around_in around.now) scope.now) (entries.taken (head_in of.now))) }
{
    let mut list = Seq::new(alloc);
    let mut direction = Direction::Input;
    let mut before: Option<&'a ImpliedType> = None;
    let mut left = of.arguments.as_slice();
    while let [one, rest @ ..] = left {
        direction = direction_or(direction, one.direction);
        let ty = type_of(one, before);
        let formal = formal_of(alloc, around, scope, direction, ty, one)?;
        list.push(formal)?;
        before = Some(ty);
        left = rest;
    }
    Ok(list)
}
